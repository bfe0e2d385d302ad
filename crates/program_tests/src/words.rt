//! What is answered to the words of a command line.
use crate::ask::{Seen, ask, asked};
use crate::shown::shown;
use std::alloc::{AllocError, Global};
use std::sync::Wait;
use std::thread::Threads;
use test_texts::words::bytes;

// What is told where the program was asked for.
fn opened(alloc: Global, seen: &Seen) -> Result<&'static str, AllocError> {
    let tallies = seen.shelf.tallies(&bytes(alloc, "p.spl")?);
    let is_untouched = tallies.opening == 0
        && tallies.creating == 0
        && tallies.reading == 0
        && tallies.writing == 0;
    Ok(if is_untouched {
        ""
    } else {
        "; the program is opened"
    })
}

// The answer, and what is other where no file is there.
fn shown_beside(alloc: Global, empty: &Seen, full: &str) -> Result<String, AllocError> {
    let opened = opened(alloc, empty)?;
    let other = shown(alloc, empty)?;
    if full == other.as_str() {
        format!(in alloc; "{full}{opened}")
    } else {
        format!(in alloc; "{full}{opened}; without files {other}")
    }
}

/// What is answered to words beside the first program and its source. Where no file is there, they have
/// the same answer and open none.
pub(crate) fn unopened<W: Threads + Wait + Sync>(
    rt: &W,
    alloc: Global,
    text: &str,
) -> Result<String, AllocError> {
    let full = asked(rt, alloc, text, "@first | t.csv: 5␊10␊11␊")?;
    let empty = ask(rt, alloc, "@none", text)?;
    shown_beside(alloc, empty.get(), full.as_str())
}

/// Words with their own answers.
pub(crate) const BUILT: &str = r#"
# Check, plan, run and replay are built, and run with counts.
@first | t.csv: 5␊10␊11␊ | $ check p.spl => 0 ok 3 operators 2 streams␊
@first | t.csv: 5␊10␊11␊ | $ plan p.spl => 0 single T␊region 0 merge pulses key -: B␊single Out␊
@first | t.csv: 5␊10␊11␊ | $ run p.spl => 0; o.csv 11␊; counts 2:1
@first | t.csv: 5␊10␊11␊ | $ run p.spl --counts => 0 sink Out tuples 1␊; o.csv 11␊; counts 2:1
@first | t.csv: 5␊10␊11␊ | $ run --counts p.spl => 0 sink Out tuples 1␊; o.csv 11␊; counts 2:1
@first | t.csv: 5␊10␊11␊ | r.txt: arrivals 1␊ | $ replay p.spl --arrivals r.txt => 0; o.csv 11␊; counts 2:1

# A program of three numbers.
@first | t.csv: 5␊10␊11␊ | $ check t.csv => 2 refused S1 at 0␊
@first | t.csv: 5␊10␊11␊ | $ plan t.csv => 2 refused S1 at 0␊
@first | t.csv: 5␊10␊11␊ | $ run t.csv => 2 refused S1 at 0␊
@first | t.csv: 5␊10␊11␊ | $ run t.csv --counts => 2 refused S1 at 0␊
@first | t.csv: 5␊10␊11␊ | r.txt: arrivals 1␊ | $ replay t.csv --arrivals r.txt => 2 refused S1 at 0␊

# Names of files that aren't there.
@first | t.csv: 5␊10␊11␊ | $ check check => 4 cannot open check␊
@first | t.csv: 5␊10␊11␊ | $ plan plan => 4 cannot open plan␊
@first | t.csv: 5␊10␊11␊ | $ run run => 4 cannot open run␊
@first | t.csv: 5␊10␊11␊ | $ run counts --counts => 4 cannot open counts␊
@first | t.csv: 5␊10␊11␊ | r.txt: arrivals 1␊ | $ replay replay --arrivals r.txt => 4 cannot open replay␊
@first | t.csv: 5␊10␊11␊ | r.txt: arrivals 1␊ | $ replay p.spl --arrivals arrivals => 4 cannot open arrivals␊
@first | t.csv: 5␊10␊11␊ | $ run P.spl => 4 cannot open P.spl␊
@first | t.csv: 5␊10␊11␊ | $ run a=b => 4 cannot open a=b␊
@first | t.csv: 5␊10␊11␊ | $ run ␣ => 4 cannot open  ␊

# A request that is not built comes before a refused program.
@text # | $ simulate p.spl --width 1 --schedule 0 => 13 not built␊
@text # | $ run p.spl --counts --width 1 => 13 not built␊
@text # | $ walk p.spl => 1 bad words␊
@text # | $ check p.spl => 2 refused L1 at 0␊
@text # | $ plan p.spl => 2 refused L1 at 0␊
@text # | $ run p.spl --counts => 2 refused L1 at 0␊
@text # | $ replay p.spl --arrivals r.txt => 2 refused L1 at 0␊
"#;

/// Words that open no file.
pub(crate) const WORDS: &str = r#"
# Other requests are not built.
run p.spl --width 1 => 13 not built␊
run p.spl --width 16 => 13 not built␊
run --width=2 p.spl => 13 not built␊
run p.spl --workers 1 => 13 not built␊
run p.spl --workers=64 => 13 not built␊
run p.spl --capacity 18 => 13 not built␊
run p.spl --capacity 4096 => 13 not built␊
run p.spl --counts --width 1 => 13 not built␊
run p.spl --counts --workers 1 => 13 not built␊
run --counts --capacity=64 p.spl => 13 not built␊
run p.spl --width 1 --arrivals a.txt => 13 not built␊
run --arrivals=a.txt --width 4 p.spl --workers 3 --counts --capacity=64 => 13 not built␊
simulate p.spl --width 2 --schedule 0 => 13 not built␊
simulate --steps 1 --schedule=2147483647 p.spl --width 16 => 13 not built␊
simulate p.spl --width 1 --schedule 0 --steps 1000000000 => 13 not built␊
make m.csv --rows 2 --start 0 => 13 not built␊
make --start=2147483647 m.csv --rows=10000000 => 13 not built␊
make m.csv --rows 0 --start 0 => 13 not built␊

# Other words are no request.
 => 1 bad words␊
∅ => 1 bad words␊

# No command, or no file name.
p.spl => 1 bad words␊
p.spl run => 1 bad words␊
walk p.spl => 1 bad words␊
Run p.spl => 1 bad words␊
help => 1 bad words␊
--help => 1 bad words␊
--version => 1 bad words␊
run => 1 bad words␊
check => 1 bad words␊
plan => 1 bad words␊
run --counts => 1 bad words␊

# File names.
run ∅ => 1 bad words␊
run - => 1 bad words␊
run -p => 1 bad words␊
run -- p.spl => 1 bad words␊
run p.spl -- => 1 bad words␊
run p.spl q.spl => 1 bad words␊
check p.spl p.spl => 1 bad words␊
check p.spl ∅ => 1 bad words␊
plan ∅ => 1 bad words␊
plan -p => 1 bad words␊
plan p.spl q.spl => 1 bad words␊

# Options that the command doesn't have.
check p.spl --counts => 1 bad words␊
check p.spl --width 1 => 1 bad words␊
plan p.spl --width 1 => 1 bad words␊
plan p.spl --counts => 1 bad words␊
plan --counts p.spl => 1 bad words␊
plan p.spl --arrivals a.txt => 1 bad words␊
run p.spl --steps 5 => 1 bad words␊
run p.spl --count => 1 bad words␊
run p.spl -counts => 1 bad words␊
run p.spl --Width 2 => 1 bad words␊
replay p.spl --arrivals r.txt --counts => 1 bad words␊
simulate p.spl --width 2 --schedule 0 --workers 2 => 1 bad words␊
make m.csv --rows 2 --start 0 --width 2 => 1 bad words␊

# Options that are needed.
replay p.spl => 1 bad words␊
simulate p.spl --width 2 => 1 bad words␊
simulate p.spl --schedule 0 => 1 bad words␊
make m.csv => 1 bad words␊
make m.csv --rows 2 => 1 bad words␊
make m.csv --start 0 => 1 bad words␊

# Options given twice.
run p.spl --width 2 --width 2 => 1 bad words␊
run p.spl --width 2 --width=3 => 1 bad words␊
run p.spl --counts --counts => 1 bad words␊

# Values.
run p.spl --width => 1 bad words␊
run p.spl --width ∅ => 1 bad words␊
run p.spl --width= => 1 bad words␊
run p.spl --width two => 1 bad words␊
run p.spl --width +2 => 1 bad words␊
run p.spl --width -2 => 1 bad words␊
run p.spl --width 2.0 => 1 bad words␊
run p.spl --width ␣2 => 1 bad words␊
run p.spl --width 04 => 1 bad words␊
run p.spl --width 0 => 1 bad words␊
run p.spl --width 17 => 1 bad words␊
run p.spl --width 10000000000000000002 => 1 bad words␊
run p.spl --workers 0 => 1 bad words␊
run p.spl --workers 65 => 1 bad words␊
run p.spl --capacity 17 => 1 bad words␊
run p.spl --capacity 4097 => 1 bad words␊
run p.spl --counts=1 => 1 bad words␊
run p.spl --counts= => 1 bad words␊
run p.spl --arrivals p.spl => 1 bad words␊
run p.spl --arrivals -a => 1 bad words␊
run p.spl --arrivals= => 1 bad words␊
replay p.spl --arrivals p.spl => 1 bad words␊
replay p.spl --arrivals=p.spl => 1 bad words␊
replay p.spl --arrivals => 1 bad words␊
simulate p.spl --width 2 --schedule 2147483648 => 1 bad words␊
simulate p.spl --width 2 --schedule 0 --steps 0 => 1 bad words␊
simulate p.spl --width 2 --schedule 0 --steps 1000000001 => 1 bad words␊
make m.csv --rows 10000001 --start 0 => 1 bad words␊
make m.csv --rows 2 --start 2147483648 => 1 bad words␊
"#;
