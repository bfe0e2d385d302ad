//! Texts that grow piece by piece.
use std::alloc::{AllocError, Global};

/// A text that grows, and whether it shows where in the program things stand. Once memory runs out,
/// nothing more is added.
pub struct Text {
    text: String,
    places: bool,
    outcome: Result<(), AllocError>,
}

impl Drop for Text {
    fn drop(self) {
        let Text {
            text: _,
            places: _,
            outcome: _,
        } = self;
    }
}

impl Text {
    /// The empty text, without places.
    pub fn new(alloc: Global) -> Text {
        Text {
            text: String::new(alloc),
            places: false,
            outcome: Ok(()),
        }
    }

    /// The empty text, with places.
    pub fn with_places(alloc: Global) -> Text {
        Text {
            text: String::new(alloc),
            places: true,
            outcome: Ok(()),
        }
    }

    /// Adds a piece.
    pub fn add(&mut self, piece: &str) {
        if self.outcome.is_ok() {
            self.outcome = self.text.push_str(piece);
        }
    }

    /// Adds bytes, each as the character of its number.
    pub fn add_bytes(&mut self, bytes: &[u8]) {
        for byte in bytes {
            if self.outcome.is_ok() {
                self.outcome = self.text.push(char::from(*byte));
            }
        }
    }

    /// Adds a number in decimal digits.
    pub fn add_number(&mut self, number: i128) {
        if self.outcome.is_ok() {
            self.outcome = write!(self.text, "{number}");
        }
    }

    /// Adds a word and a place after it, as in `v3`.
    pub fn add_place(&mut self, word: &str, place: u32) {
        self.add(word);
        self.add_number(i128::from(place));
    }

    /// Adds where in the program the next piece stands, as in `5:`, in a text with places.
    pub fn add_at(&mut self, at: u32) {
        if self.places {
            self.add_number(i128::from(at));
            self.add(":");
        }
    }

    /// Adds what stands between the items of a list, unless this is the first.
    pub fn add_between(&mut self, at: usize, between: &str) {
        if at > 0 {
            self.add(between);
        }
    }

    /// The text, if there was memory for all of it.
    pub fn finish(self) -> Result<String, AllocError> {
        let Text {
            text,
            places: _,
            outcome,
        } = self;
        outcome?;
        Ok(text)
    }
}
