//! The tables.
use crate::aggregates::{AGGREGATES, CONTENTS};
use crate::ask::asked;
use crate::clauses::{CLAUSES, SPENT};
use crate::counted::COUNTED;
use crate::customs::{CUSTOMS, LOOPS};
use crate::devices::{DEVICES, FAILING, failing};
use crate::examples::EXAMPLES;
use crate::faults::{FAULTS, TURNS};
use crate::hostile::HOSTILE;
use crate::operators::OPERATORS;
use crate::plans::PLANS;
use crate::recorded::{WRITTEN, recorded};
use crate::refusals::{CHECKS, REFUSALS};
use crate::replays::{INTERLEAVED, LONG_RECORDS, NOT_WHOLE, RECORDS, REPLAYS, STOPPED_REPLAYS};
use crate::runs::RUNS;
use crate::several::{JOINED, SEVERAL};
use crate::single::SINGLE;
use crate::sources::SOURCES;
use crate::words::{BUILT, WORDS, unopened};
use std::alloc::{AllocError, Global};
use std::sync::Wait;
use std::thread::Threads;
use test_texts::rows::{Untrue, compare, no_others, row_of};

// What is asked of a row.
#[derive(Clone, Copy)]
enum Question {
    /// These words, unless the row has its own.
    Words(&'static str),
    /// The words of the row, which open no file.
    Unopened,
    /// A run in which the call of the row fails.
    Failing,
    /// A run that writes its record, and a replay of that.
    Recorded,
}

const RUN: Question = Question::Words("run p.spl");

const RUN_WITH_COUNTS: Question = Question::Words("run p.spl --counts");

const RECORD: Question = Question::Words("run p.spl --arrivals a.txt");

const REPLAY: Question = Question::Words("replay p.spl --arrivals r.txt");

const CHECK: Question = Question::Words("check p.spl");

const PLAN: Question = Question::Words("plan p.spl");

const TABLES: [(Question, &str); 18] = [
    (RUN, RUNS),
    (RUN, SOURCES),
    (RUN, OPERATORS),
    (RUN, AGGREGATES),
    (RUN, CONTENTS),
    (RUN, SEVERAL),
    (RUN, JOINED),
    (RUN, FAULTS),
    (RUN, EXAMPLES),
    (RUN, DEVICES),
    (RUN, BUILT),
    (CHECK, CHECKS),
    (CHECK, REFUSALS),
    (RUN, REFUSALS),
    (PLAN, PLANS),
    (RUN_WITH_COUNTS, COUNTED),
    (Question::Unopened, WORDS),
    (Question::Failing, FAILING),
];

fn answer<W: Threads + Wait + Sync>(
    rt: &W,
    alloc: Global,
    question: Question,
    text: &str,
) -> Result<String, AllocError> {
    match question {
        Question::Words(words) => asked(rt, alloc, words, text),
        Question::Unopened => unopened(rt, alloc, text),
        Question::Failing => failing(rt, alloc, text),
        Question::Recorded => recorded(rt, alloc, text),
    }
}

// Adds those rows of a table that have other answers.
fn add_others<W: Threads + Wait + Sync>(
    rt: &W,
    alloc: Global,
    others: &mut String,
    question: Question,
    table: &str,
) -> Result<(), AllocError> {
    for line in table.lines() {
        if let Some((text, wanted)) = row_of(line) {
            let seen = answer(rt, alloc, question, text)?;
            compare(others, text, seen.as_str(), wanted)?;
        }
    }
    Ok(())
}

// Whether each row of these tables has its answer.
fn expect_rows<W: Threads + Wait + Sync>(
    rt: &W,
    alloc: Global,
    tables: &[(Question, &str)],
) -> Result<(), Untrue> {
    let mut others = String::new(alloc);
    for (question, table) in tables {
        add_others(rt, alloc, &mut others, *question, table)?;
    }
    no_others(others)
}

#[test]
fn the_program_answers_as_the_rows_say(rt: HostRuntime) -> Result<(), Untrue> {
    expect_rows(&rt, rt.alloc(), &TABLES)
}

#[test]
fn a_replay_follows_its_record(rt: HostRuntime) -> Result<(), Untrue> {
    expect_rows(
        &rt,
        rt.alloc(),
        &[
            (REPLAY, INTERLEAVED),
            (REPLAY, REPLAYS),
            (REPLAY, LONG_RECORDS),
        ],
    )
}

#[test]
fn a_run_writes_its_record(rt: HostRuntime) -> Result<(), Untrue> {
    expect_rows(&rt, rt.alloc(), &[(RECORD, WRITTEN)])
}

#[test]
fn a_replay_gives_what_the_run_gave_that_wrote_its_record(rt: HostRuntime) -> Result<(), Untrue> {
    expect_rows(
        &rt,
        rt.alloc(),
        &[
            (Question::Recorded, SEVERAL),
            (Question::Recorded, JOINED),
            (Question::Recorded, CUSTOMS),
            (Question::Recorded, CLAUSES),
            (Question::Recorded, EXAMPLES),
        ],
    )
}

#[test]
fn a_replay_is_refused_in_order(rt: HostRuntime) -> Result<(), Untrue> {
    expect_rows(
        &rt,
        rt.alloc(),
        &[
            (REPLAY, RECORDS),
            (REPLAY, NOT_WHOLE),
            (REPLAY, STOPPED_REPLAYS),
        ],
    )
}

#[test]
fn an_event_has_a_million_turns(rt: HostRuntime) -> Result<(), Untrue> {
    expect_rows(&rt, rt.alloc(), &[(RUN, TURNS)])
}

#[test]
fn operators_and_their_clauses_answer_as_the_rows_say(rt: HostRuntime) -> Result<(), Untrue> {
    expect_rows(
        &rt,
        rt.alloc(),
        &[(RUN, SINGLE), (RUN, CUSTOMS), (RUN, CLAUSES)],
    )
}

#[test]
fn the_turns_of_an_event_are_spent_by_all_that_it_evaluates(rt: HostRuntime) -> Result<(), Untrue> {
    expect_rows(&rt, rt.alloc(), &[(RUN, LOOPS)])
}

#[test]
fn a_clause_that_takes_all_turns_ends_the_run(rt: HostRuntime) -> Result<(), Untrue> {
    expect_rows(&rt, rt.alloc(), &[(RUN, SPENT)])
}

#[test]
fn a_hostile_program_is_answered(rt: HostRuntime) -> Result<(), Untrue> {
    expect_rows(&rt, rt.alloc(), &[(CHECK, HOSTILE)])
}
