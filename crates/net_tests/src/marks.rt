//! Marked places by their numbers.
//!
//! A row has a number of places, and words: `5` marks the place 5, and `-5` takes its mark away. Its answer is how many
//! places are marked, and which, in the order of their numbers.
ghost use Rattle.std.specs.Prelude.{◌≡◌, ◌<◌, ◌^◌, length};

use marked_places::MarkedPlaces;
use std::alloc::{AllocError, Global};
use test_texts::rows::{Answers, Untrue, expect};
use test_texts::text::Text;
use test_texts::words::{cut, number};

fn mark(places: &mut MarkedPlaces, count: u32, place: u32, marked: bool)
    requires { length places.old ≡ count }
    ensures { length places.new ≡ count }
{
    if place < count {
        places.set(place, marked);
    }
}

fn mark_all(places: &mut MarkedPlaces, count: u32, words: &str)
    requires { length places.old ≡ count }
{
    for word in words.split_whitespace() {
        match word.strip_prefix("-") {
            Some(place) => mark(places, count, number(place), false),
            None => mark(places, count, number(word), true),
        }
    }
}

fn add_marked(places: &MarkedPlaces, shown: &mut Text) {
    let count = places.count();
    shown.add_number(i128::from(count));
    for n in 0..count {
        shown.add_place(" ", places.nth(n));
    }
}

fn marks_of(alloc: Global, count: u32, words: &str) -> Result<String, AllocError>
    requires { count < 2 ^ 31 }
{
    let Ok(mut places) = MarkedPlaces::new(alloc, count) else {
        return Err(AllocError);
    };
    mark_all(&mut places, count, words);
    let mut shown = Text::new(alloc);
    add_marked(&places, &mut shown);
    shown.finish()
}

struct Marked;

impl Answers for Marked {
    fn answer(&self, alloc: Global, text: &str) -> Result<String, AllocError> {
        let (count, words) = cut(text);
        marks_of(alloc, number(count).min(10_000), words)
    }
}

const MARKED: &str = r#"
10 -5 => 0
1 0 => 1 0
10 3 1 9 => 3 1 3 9
10 3 1 9 -3 => 2 1 9
10 3 3 -4 => 1 3
10 3 10 -3 => 0

# Groups of 32 places, and blocks of 1,024
3000 2999 2048 2047 1024 1023 1022 32 31 0 => 9 0 31 32 1022 1023 1024 2047 2048 2999
3000 1024 1023 -1024 => 1 1023
3000 33 1025 32 1024 -33 -1025 => 2 32 1024
33 32 => 1 32
1025 1024 -0 => 1 1024
"#;

#[test]
fn marked_places_are_found_by_number(rt: HostRuntime) -> Result<(), Untrue> {
    expect(rt.alloc(), &Marked, &[MARKED])
}
