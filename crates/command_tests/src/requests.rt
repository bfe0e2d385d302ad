//! Command lines, and what they ask.
use command_line::{Request, RunOptions, file_names, read_request};
use spl_value::Name;
use std::alloc::{AllocError, Global};
use std::test::Fail;
use test_texts::rows::{Answers, expect};
use test_texts::signs::words;
use test_texts::text::Text;

// What is asked of a command line.
#[derive(Clone, Copy)]
enum Asked {
    // The request: the command, the file name, and each option with its value.
    Request,
    // The names that no sink may have.
    SinkNames,
}

fn add_name(text: &mut Text, option: &str, name: &Name) {
    text.add(option);
    text.add_bytes(name.as_slice());
}

fn add_number(text: &mut Text, option: &str, number: u32) {
    text.add(option);
    text.add_number(i128::from(number));
}

fn add_if_given(text: &mut Text, option: &str, number: Option<u32>) {
    if let Some(number) = number {
        add_number(text, option, number);
    }
}

fn add_run(text: &mut Text, program: &Name, options: &RunOptions) {
    add_name(text, "run ", program);
    add_if_given(text, " width ", options.width);
    add_if_given(text, " workers ", options.workers);
    add_if_given(text, " capacity ", options.capacity);
    if let Some(arrivals) = &options.arrivals {
        add_name(text, " arrivals ", arrivals);
    }
    if options.counts {
        text.add(" counts");
    }
}

fn add_request(text: &mut Text, request: &Request) {
    match request {
        Request::Check(program) => add_name(text, "check ", program),
        Request::Plan(program) => add_name(text, "plan ", program),
        Request::Run { program, options } => add_run(text, program, options),
        Request::Replay { program, arrivals } => {
            add_name(text, "replay ", program);
            add_name(text, " arrivals ", arrivals);
        }
        Request::Simulate {
            program,
            width,
            schedule,
            steps,
        } => {
            add_name(text, "simulate ", program);
            add_number(text, " width ", *width);
            add_number(text, " schedule ", *schedule);
            add_number(text, " steps ", *steps);
        }
        Request::Make { name, rows, start } => {
            add_name(text, "make ", name);
            add_number(text, " rows ", *rows);
            add_number(text, " start ", *start);
        }
    }
}

fn add_names(alloc: Global, text: &mut Text, request: &Request) {
    text.add("no sink:");
    match file_names(alloc, request) {
        Ok(names) => {
            for name in names.as_slice() {
                add_name(text, " ", name);
            }
        }
        Err(_) => text.add("no memory"),
    }
}

fn add_asked(alloc: Global, text: &mut Text, asked: Asked, request: &Request) {
    match asked {
        Asked::Request => add_request(text, request),
        Asked::SinkNames => add_names(alloc, text, request),
    }
}

fn answered(alloc: Global, words: &[String], asked: Asked) -> Result<String, AllocError> {
    let mut shown = Text::new(alloc);
    match read_request(alloc, words) {
        Ok(Some(request)) => add_asked(alloc, &mut shown, asked, &request),
        Ok(None) => shown.add("none"),
        Err(_) => shown.add("no memory"),
    }
    shown.finish()
}

impl Answers for Asked {
    fn answer(&self, alloc: Global, text: &str) -> Result<String, AllocError> {
        let words = words(alloc, text)?;
        answered(alloc, words.as_slice(), *self)
    }
}

#[test]
fn command_lines_are_these_requests(rt: HostRuntime) -> Result<(), Fail> {
    expect(rt.alloc(), &Asked::Request, &[REQUESTS])?;
    expect(rt.alloc(), &Asked::SinkNames, &[SINK_NAMES])?;
    Ok(())
}

const REQUESTS: &str = r#"
# no words
 => none

# commands and files
check p.spl => check p.spl
plan p.spl => plan p.spl
run p.spl => run p.spl
run run => run run
check a=b => check a=b
check p-1.spl => check p-1.spl
check => none
run => none
check p.spl q.spl => none
run p.spl p.spl => none
check ∅ => none
check p.spl ∅ => none
check - => none
check -p.spl => none
check -- => none
check -- p.spl => none
check p.spl -- => none
check p.spl --= => none
check p.spl --=x => none
check p.spl -- x => none
∅ => none
p.spl => none
walk p.spl => none
RUN p.spl => none
runs p.spl => none
ru p.spl => none
∅ run p.spl => none
--width 4 run p.spl => none
--help => none
--version => none
run p.spl --help => none

# the options of a run
run p.spl --width 4 --workers 3 --capacity 64 --arrivals a.txt --counts => run p.spl width 4 workers 3 capacity 64 arrivals a.txt counts
run --counts --arrivals=a.txt --capacity=64 p.spl --workers=3 --width=4 => run p.spl width 4 workers 3 capacity 64 arrivals a.txt counts
run --counts p.spl => run p.spl counts
run --width 2 p.spl => run p.spl width 2
run p.spl --arrivals=a=b => run p.spl arrivals a=b
run p.spl --arrivals a=b => run p.spl arrivals a=b
run p.spl --arrivals== => run p.spl arrivals =
run p.spl --arrivals p.sp => run p.spl arrivals p.sp
run p.spl --arrivals p.spl => none
run --arrivals=p.spl p.spl => none
run p.spl --arrivals => none
run p.spl --arrivals ∅ => none
run p.spl --arrivals= => none
run p.spl --arrivals -a => none
run p.spl --arrivals=-a => none
run p.spl --arrivals - => none
run p.spl --arrivals --counts => none
run --arrivals p.spl => none
run p.spl --arrivals a --arrivals a => none
run p.spl --width 4 --width 4 => none
run p.spl --width=4 --width 4 => none
run p.spl --width=4 --width=5 => none
run p.spl --counts --counts => none
run p.spl --counts= => none
run p.spl --counts=1 => none
run p.spl --counts x => none
run p.spl --count => none
run p.spl -counts => none
run p.spl --width => none
run p.spl --width ∅ => none
run p.spl --width= => none
run p.spl width=4 => none
run p.spl -width 4 => none
run p.spl --Width 4 => none
run p.spl --wide 4 => none
run p.spl --schedule 4 => none
run p.spl --steps 4 => none
check p.spl --width 4 => none
check p.spl --counts => none
plan p.spl --arrivals a => none

# the bounds of numbers
run p.spl --width 1 --workers 1 --capacity 18 => run p.spl width 1 workers 1 capacity 18
run p.spl --width 16 --workers 64 --capacity 4096 => run p.spl width 16 workers 64 capacity 4096
run p.spl --width 0 => none
run p.spl --width 17 => none
run p.spl --workers 0 => none
run p.spl --workers 65 => none
run p.spl --capacity 17 => none
run p.spl --capacity 4097 => none
run p.spl --width 04 => none
run p.spl --width=00 => none
run p.spl --width +4 => none
run p.spl --width -4 => none
run p.spl --width 4x => none
run p.spl --width 0x4 => none
run p.spl --width 4.0 => none
run p.spl --width=4= => none
run p.spl --width four => none
run p.spl --width 18446744073709551620 => none
run p.spl --workers 1000000000000000001 => none
run p.spl --workers 4294967297 => none
simulate p.spl --width 1 --schedule 0 --steps 1 => simulate p.spl width 1 schedule 0 steps 1
simulate p.spl --width 16 --schedule 2147483647 --steps 1000000000 => simulate p.spl width 16 schedule 2147483647 steps 1000000000
simulate p.spl --width 2 --schedule 2147483648 => none
simulate p.spl --width 2 --schedule 9999999999999999999 => none
simulate p.spl --width 2 --schedule 10000000000000000000 => none
simulate p.spl --width 0 --schedule 7 => none
simulate p.spl --width 17 --schedule 7 => none
simulate p.spl --width 2 --schedule 7 --steps 0 => none
simulate p.spl --width 2 --schedule 7 --steps 1000000001 => none
make m.csv --rows 0 --start 0 => make m.csv rows 0 start 0
make m.csv --rows 10000000 --start 2147483647 => make m.csv rows 10000000 start 2147483647
make m.csv --rows 10000001 --start 0 => none
make m.csv --rows 2 --start 2147483648 => none
make m.csv --rows 00 --start 0 => none

# options that are needed
simulate p.spl --width 2 --schedule 7 => simulate p.spl width 2 schedule 7 steps 10000000
simulate --schedule=7 --width=2 p.spl => simulate p.spl width 2 schedule 7 steps 10000000
simulate p.spl --width 2 => none
simulate p.spl --schedule 7 => none
simulate --width 2 --schedule 7 => none
simulate p.spl --width 2 --schedule 7 --schedule 7 => none
simulate p.spl --width 2 --schedule 7 --workers 2 => none
simulate p.spl --width 2 --schedule 7 --counts => none
replay p.spl --arrivals a.txt => replay p.spl arrivals a.txt
replay --arrivals=a.txt p.spl => replay p.spl arrivals a.txt
replay p.spl => none
replay p.spl a.txt => none
replay p.spl --arrivals p.spl => none
replay p.spl --arrivals a.txt --width 2 => none
replay p.spl --arrivals a.txt --arrivals=b.txt => none
make m.csv --rows 2 --start 5 => make m.csv rows 2 start 5
make --start=5 m.csv --rows=2 => make m.csv rows 2 start 5
make m.csv --rows 2 => none
make m.csv --start 5 => none
make --rows 2 --start 5 => none
make m.csv --rows 2 --start 5 --width 2 => none
"#;

const SINK_NAMES: &str = r#"
check p.spl => no sink: p.spl
plan p.spl => no sink: p.spl
run p.spl => no sink: p.spl
run p.spl --arrivals a.txt => no sink: p.spl a.txt
replay p.spl --arrivals a.txt => no sink: p.spl a.txt
simulate p.spl --width 2 --schedule 7 => no sink: p.spl
make m.csv --rows 2 --start 5 => no sink:
"#;
