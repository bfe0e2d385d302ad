//! What statements do, by a call for each form of statement.
ghost use Rattle.std.specs.Prelude.{◌≡◌, ◌≢◌, ◌∷◌, [], List, Some, length, slice_get};
ghost use Rattle.spl_tree.specs.declared.body.Statement.TheVariants as S;
ghost use Rattle.language_model.specs.declared.outs.Output.{Output};
ghost use Rattle.language_model.specs.Functions.{bodies_of, runs};
ghost use Rattle.language_model.specs.Outcomes.{enter};
ghost use Rattle.language_model.specs.Statements.{scoped, declared, turns_while, turns_over, change_values, step_value, steps_taken};
ghost use Rattle.language_model.specs.parts.Statements.{statement_acts, row_acts, change_acts, step_values};
ghost use Rattle.language_model.specs.StatementLaws.{arms_act};
ghost use Rattle.value_operations.specs.Answers.{Answers};
ghost use Rattle.expr_eval.specs.Running.{StatementIsFit, RowIsFit, ArmsAreFit, LoopIsFit, OverIsFit, PlaceIsFit, ChangeIsFit, StepsAreFit, FunctionIsFit, BodyIsFit, RanAs, ran_as, state, Leads, LeadsNext};
ghost use Rattle.expr_eval.specs.declared.run.Ran.TheVariants as R;
ghost use Rattle.expr_eval.specs.steps.Keeping.{Keeps};

use crate::answered::{
    add, element_step, key_step, take_next, with_append, with_clear, with_put, with_remove,
};
use crate::context::{Context, Program};
use crate::evaluate::{eval_all, eval_at, is_true, own_value};
use crate::flow::{begin_turn, enter_call, returned, statement_end, turn_end};
use crate::statements::{
    declare, next_follows, next_follows_call, next_follows_value, return_value, submit,
    submit_window,
};
use crate::variables::change_with;
use evaluation_laws::evaluation_law;
use language_model::{Env, Flow, Outs};
use spl_tree::{Body, Change, Code, Functions, MOST_EVALUATED, Place, Selector, Slot, Statement};
use spl_value::{FaultKind, Items, Value, Values};
use std::alloc::Global;
use value_operations::{Held, Stop, elements, enter};

/// How the run of a body ended.
#[derive(Clone, Copy)]
pub enum Ran {
    Done,
    Bad(FaultKind),
    /// There was no memory, or no room for a deeper code or statement.
    Memory,
}

/// What a body does to the variables of an environment, and what it submits, after what `submits`
/// has. `turns` are those that there are, and then those that are left.
///
/// Each turn of a loop and each call of a function takes a turn, and the fault `Turns` comes where none
/// is left. `Memory` is also the answer to codes and statements that nest deeper than `MOST_EVALUATED`.
///
/// After a fault, and after `Memory`, submits and turns are as before. There are as many variables as
/// before, with the values that the part of the body that was done left in them. The inputs and the
/// marker of the environment don't change.
pub fn run_body(
    alloc: Global,
    functions: &Functions,
    body: &Body,
    env: &mut Env,
    turns: &mut u32,
    submits: &mut Outs,
) -> Ran
    requires { BodyIsFit functions.now body.now env.old }
    ensures runs { RanAs (runs functions.now body.now env.old turns.old) result env.old env.new submits.old submits.new turns.new }
    ensures inputs { env.new.inputs ≡ env.old.inputs }
    ensures marker { env.new.punct ≡ env.old.punct }
    ensures variables { length env.new.vars ≡ length env.old.vars }
    ensures submits { result ≢ R.Done → submits.new ≡ submits.old }
    ensures turns { result ≢ R.Done → turns.new ≡ turns.old }
{
    evaluation_law();
    let program = Program {
        alloc,
        functions,
        depth: *turns,
    };
    let row = body.as_slice();
    let mut left = *turns;
    let mut outs = Outs::new(alloc);
    let ran = ran_as(run_scoped(&program, MOST_EVALUATED, row, env, &mut left, &mut outs));
    let Ran::Done = ran else {
        return ran;
    };
    let Ok(()) = submits.append(outs) else {
        return Ran::Memory;
    };
    *turns = left;
    ran
}

/// How a body ended, by what its row answered.
fn ran_as(answer: Result<Flow, Stop>) -> Ran
    ensures { result ≡ ran_as answer }
{
    match answer {
        Ok(_) => Ran::Done,
        Err(Stop::Fault(kind)) => Ran::Bad(kind),
        Err(Stop::Memory) => Ran::Memory,
    }
}

// What the codes of a statement are evaluated in.
macro_rules! in_env {
    ($program:expr, $env:expr) => {
        Context {
            alloc: $program.alloc,
            functions: &*$program.functions,
            env: &*$env,
            depth: $program.depth,
        }
    };
}

/// What a statement does, where codes and statements may nest `room` deep.
#[cycle(eval)]
fn run_statement<'p>(
    program: &Program<'p>,
    room: u32,
    statement: &'p Statement,
    env: &mut Env,
    turns: &mut u32,
    submits: &mut Outs,
) -> Result<Flow, Stop>
    requires { StatementIsFit program.now.functions.now statement.now env.old }
    ensures leads { Leads (statement_acts (bodies_of program.now.functions.now program.now.depth) statement.now (state env.old submits.old) turns.old) result (state env.new submits.new) turns.new }
    ensures kept { Keeps env.old env.new }
{
    evaluation_law();
    let Some(room) = room.checked_sub(1) else {
        return Err(Stop::Memory);
    };
    match statement {
        Statement::Block(row) => run_scoped(program, room, row.as_slice(), env, turns, submits),
        Statement::Declare(code) => {
            let value = own_value(&in_env!(program, env), room, code, turns);
            declare(env, value)
        }
        Statement::Change(place, change) => {
            next_follows(run_change(program, room, place, change, env, turns))
        }
        Statement::Evaluate(code) => {
            next_follows_value(eval_at(&in_env!(program, env), room, code, turns))
        }
        Statement::Call(place, codes) => {
            run_call(program, room, *place, codes.as_slice(), env, turns)
        }
        Statement::If(arms, other) => run_if(
            program,
            room,
            arms.as_slice(),
            other.as_slice(),
            env,
            turns,
            submits,
        ),
        Statement::While(code, row) => {
            run_while(program, room, code, row.as_slice(), env, turns, submits)
        }
        Statement::For(code, row) => {
            run_for(program, room, code, row.as_slice(), env, turns, submits)
        }
        Statement::Break => Ok(Flow::Broken),
        Statement::Continue => Ok(Flow::Continued),
        Statement::Return(result) => match result {
            None => Ok(Flow::Returned(None)),
            Some(code) => { return_value(own_value(&in_env!(program, env), room, code, turns)) }
        },
        Statement::Submit(port, code) => {
            let tuple = own_value(&in_env!(program, env), room, code, turns);
            submit(*port, tuple, submits)
        }
        Statement::SubmitWindow(port) => submit_window(*port, submits),
    }
}

/// A call of a function, whose result isn't used.
#[cycle(eval)]
fn run_call<'p>(
    program: &Program<'p>,
    room: u32,
    place: u32,
    codes: &'p [Code<Slot>],
    env: &Env,
    turns: &mut u32,
) -> Result<Flow, Stop>
    requires { StatementIsFit program.now.functions.now (S.Call place codes.now) env.now }
    ensures { (submits : List Output) → Leads (statement_acts (bodies_of program.now.functions.now program.now.depth) (S.Call place codes.now) (state env.now submits) turns.old) result (state env.now submits) turns.new }
{
    evaluation_law();
    let context = in_env!(program, env);
    let values = eval_all(&context, room, codes, turns)?;
    next_follows_call(run_function(&context, room, place, values, turns))
}

/// A loop over the elements of a list, or the keys of a map.
#[cycle(eval)]
#[tactic(auto, using(language_model::specs::StatementLaws::statement_laws))]
fn run_for<'p>(
    program: &Program<'p>,
    room: u32,
    code: &'p Code<Slot>,
    row: &'p [Statement],
    env: &mut Env,
    turns: &mut u32,
    submits: &mut Outs,
) -> Result<Flow, Stop>
    requires { StatementIsFit program.now.functions.now (S.For code.now row.now) env.old }
    ensures leads { Leads (statement_acts (bodies_of program.now.functions.now program.now.depth) (S.For code.now row.now) (state env.old submits.old) turns.old) result (state env.new submits.new) turns.new }
    ensures kept { Keeps env.old env.new }
{
    evaluation_law();
    let held = eval_at(&in_env!(program, env), room, code, turns)?;
    let values = elements(program.alloc, held)?;
    run_over(program, room, values, row, env, turns, submits)
}

/// Statements one after another, until one of them ends the row.
#[cycle(eval)]
fn run_row<'p>(
    program: &Program<'p>,
    room: u32,
    row: &'p [Statement],
    env: &mut Env,
    turns: &mut u32,
    submits: &mut Outs,
) -> Result<Flow, Stop>
    requires { RowIsFit program.now.functions.now row.now env.old }
    ensures leads { Leads (row_acts (bodies_of program.now.functions.now program.now.depth) row.now (state env.old submits.old) turns.old) result (state env.new submits.new) turns.new }
    ensures kept { Keeps env.old env.new }
{
    evaluation_law();
    for statement in row {
        let answer = run_statement(program, room, statement, env, turns, submits);
        if let Some(end) = statement_end(answer) {
            return end;
        }
    }
    Ok(Flow::Next)
}

/// The same. The variables that are declared in the row end with it, also where it stops.
#[cycle(eval)]
fn run_scoped<'p>(
    program: &Program<'p>,
    room: u32,
    row: &'p [Statement],
    env: &mut Env,
    turns: &mut u32,
    submits: &mut Outs,
) -> Result<Flow, Stop>
    requires { RowIsFit program.now.functions.now row.now env.old }
    ensures leads { Leads (scoped (row_acts (bodies_of program.now.functions.now program.now.depth) row.now) (state env.old submits.old) turns.old) result (state env.new submits.new) turns.new }
    ensures kept { Keeps env.old env.new }
    ensures ended { length env.new.vars ≡ length env.old.vars }
{
    let count = env.vars.len();
    let answer = run_row(program, room, row, env, turns, submits);
    env.vars.truncate(count);
    answer
}

/// The statements of the first condition that is true, or else those of the last `else`.
#[cycle(eval)]
fn run_if<'p>(
    program: &Program<'p>,
    room: u32,
    arms: &'p [(Code<Slot>, Body)],
    other: &'p [Statement],
    env: &mut Env,
    turns: &mut u32,
    submits: &mut Outs,
) -> Result<Flow, Stop>
    requires { ArmsAreFit program.now.functions.now arms.now other.now env.old }
    ensures leads { Leads (arms_act (bodies_of program.now.functions.now program.now.depth) arms.now other.now (state env.old submits.old) turns.old) result (state env.new submits.new) turns.new }
    ensures kept { Keeps env.old env.new }
{
    for arm in arms {
        if is_true(&in_env!(program, env), room, &arm.0, turns)? {
            return run_scoped(program, room, arm.1.as_slice(), env, turns, submits);
        }
    }
    run_scoped(program, room, other, env, turns, submits)
}

/// Turns of a loop, while the condition is true.
#[cycle(eval)]
fn run_while<'p>(
    program: &Program<'p>,
    room: u32,
    code: &'p Code<Slot>,
    row: &'p [Statement],
    env: &mut Env,
    turns: &mut u32,
    submits: &mut Outs,
) -> Result<Flow, Stop>
    requires { LoopIsFit program.now.functions.now code.now row.now env.old }
    ensures leads { Leads (turns_while turns.old (bodies_of program.now.functions.now program.now.depth) code.now (scoped (row_acts (bodies_of program.now.functions.now program.now.depth) row.now)) (state env.old submits.old) turns.old) result (state env.new submits.new) turns.new }
    ensures kept { Keeps env.old env.new }
{
    evaluation_law();
    let mut rounds = *turns;
    'rounds: while is_true(&in_env!(program, env), room, code, turns)? {
        enter(turns)?;
        let answer = run_scoped(program, room, row, env, turns, submits);
        if let Some(end) = turn_end(answer) {
            return end;
        }
        let Some(left) = rounds.checked_sub(1) else {
            return Err(Stop::Fault(FaultKind::Turns));
        };
        rounds = left;
    }
    Ok(Flow::Next)
}

/// A turn of a loop for each value.
#[cycle(eval)]
fn run_over<'p>(
    program: &Program<'p>,
    room: u32,
    values: Values,
    row: &'p [Statement],
    env: &mut Env,
    turns: &mut u32,
    submits: &mut Outs,
) -> Result<Flow, Stop>
    requires { OverIsFit program.now.functions.now values row.now env.old }
    ensures leads { Leads (turns_over values (row_acts (bodies_of program.now.functions.now program.now.depth) row.now) (state env.old submits.old) turns.old) result (state env.new submits.new) turns.new }
    ensures kept { Keeps env.old env.new }
{
    evaluation_law();
    'values: for value in values.into_vec() {
        let answer = run_turn(program, room, value, row, env, turns, submits);
        if let Some(end) = turn_end(answer) {
            return end;
        }
    }
    Ok(Flow::Next)
}

/// A turn of a loop where its variable has the value.
#[cycle(eval)]
fn run_turn<'p>(
    program: &Program<'p>,
    room: u32,
    value: Value,
    row: &'p [Statement],
    env: &mut Env,
    turns: &mut u32,
    submits: &mut Outs,
) -> Result<Flow, Stop>
    requires { OverIsFit program.now.functions.now (value ∷ []) row.now env.old }
    ensures leads { Leads (enter turns.old (λ turns. scoped (λ s turns. row_acts (bodies_of program.now.functions.now program.now.depth) row.now (declared s value) turns) (state env.old submits.old) turns)) result (state env.new submits.new) turns.new }
    ensures kept { Keeps env.old env.new }
    ensures ended { length env.new.vars ≡ length env.old.vars }
{
    let count = env.vars.len();
    begin_turn(env, value, turns)?;
    let answer = run_row(program, room, row, env, turns, submits);
    env.vars.truncate(count);
    answer
}

/// The steps of a place and the argument of a change, in the order in which the change has them.
#[cycle(eval)]
fn change_values<'e>(
    context: &Context<'e>,
    room: u32,
    place: &'e Place,
    change: &'e Change<Code<Slot>>,
    turns: &mut u32,
) -> Result<(Items<Selector<Value>>, Change<Value>), Stop>
    requires { ChangeIsFit context.now.functions.now place.now change.now context.now.env.now }
    ensures { Answers (change_values (bodies_of context.now.functions.now context.now.depth) place.now change.now (state context.now.env.now []) turns.old) result turns.new }
{
    match change {
        Change::Put(code) => {
            let value = own_value(context, room, code, turns)?;
            let takings = place.takings.as_slice();
            with_put(step_values(context, room, takings, turns), value)
        }
        Change::Append(code) => {
            let steps = steps_taken(context, room, place, turns)?;
            with_append(steps, own_value(context, room, code, turns))
        }
        Change::Remove(code) => {
            let steps = steps_taken(context, room, place, turns)?;
            with_remove(steps, own_value(context, room, code, turns))
        }
        Change::Clear => with_clear(steps_taken(context, room, place, turns)),
    }
}

/// Steps with the values of their indexes and keys, from left to right.
#[cycle(eval)]
fn step_values<'e>(
    context: &Context<'e>,
    room: u32,
    takings: &'e [Selector<Code<Slot>>],
    turns: &mut u32,
) -> Result<Items<Selector<Value>>, Stop>
    requires { StepsAreFit context.now.functions.now takings.now context.now.env.now }
    ensures { Answers (step_values (bodies_of context.now.functions.now context.now.depth) takings.now (state context.now.env.now []) turns.old) result turns.new }
{
    let mut steps = Items::new(context.alloc);
    for taking in takings {
        add(&mut steps, step_value(context, room, taking, turns))?;
    }
    Ok(steps)
}

#[cycle(eval)]
fn step_value<'e>(
    context: &Context<'e>,
    room: u32,
    taking: &'e Selector<Code<Slot>>,
    turns: &mut u32,
) -> Result<Selector<Value>, Stop>
    requires { StepsAreFit context.now.functions.now (taking.now ∷ []) context.now.env.now }
    ensures { Answers (step_value (bodies_of context.now.functions.now context.now.depth) taking.now (state context.now.env.now []) turns.old) result turns.new }
{
    match taking {
        Selector::Member(place) => Ok(Selector::Member(*place)),
        Selector::Element(code) => element_step(own_value(context, room, code, turns)),
        Selector::AtKey(code) => key_step(own_value(context, room, code, turns)),
    }
}

/// Steps that are taken in turn of what a variable holds.
#[cycle(eval)]
fn steps_taken<'e>(
    context: &Context<'e>,
    room: u32,
    place: &'e Place,
    turns: &mut u32,
) -> Result<Items<Selector<Value>>, Stop>
    requires { PlaceIsFit context.now.functions.now place.now context.now.env.now }
    ensures { (v : Value) → slice_get context.now.env.now.vars place.now.variable ≡ Some v → Answers (steps_taken (bodies_of context.now.functions.now context.now.depth) place.now.takings v (state context.now.env.now []) turns.old) result turns.new }
{
    evaluation_law();
    let mut steps = Items::new(context.alloc);
    let mut value = Held::Lent(&context.env.vars.as_slice()[place.variable as usize]);
    for taking in place.takings.as_slice() {
        let step = step_value(context, room, taking, turns);
        value = take_next(value, step, &mut steps)?;
    }
    Ok(steps)
}

/// A change of a place.
#[cycle(eval)]
fn run_change<'p>(
    program: &Program<'p>,
    room: u32,
    place: &'p Place,
    change: &'p Change<Code<Slot>>,
    env: &mut Env,
    turns: &mut u32,
) -> Result<(), Stop>
    requires { ChangeIsFit program.now.functions.now place.now change.now env.old }
    ensures leads { (submits : List Output) → LeadsNext (change_acts (bodies_of program.now.functions.now program.now.depth) place.now change.now (state env.old submits) turns.old) result (state env.new submits) turns.new }
    ensures kept { Keeps env.old env.new }
{
    evaluation_law();
    let values = change_values(&in_env!(program, env), room, place, change, turns);
    change_with(program.alloc, env, place.variable, values)
}

/// What a function returns for arguments. The call takes a turn.
#[cycle(eval)]
pub(crate) fn run_function<'e>(
    context: &Context<'e>,
    room: u32,
    place: u32,
    values: Values,
    turns: &mut u32,
) -> Result<Option<Value>, Stop>
    requires { FunctionIsFit context.now.functions.now place values }
    ensures { Answers (enter turns.old (λ turns. bodies_of context.now.functions.now context.now.depth place values turns)) result turns.new }
{
    evaluation_law();
    let mut env = enter_call(context.alloc, values, context.depth, turns)?;
    let Some(function) = context.functions.get(place as usize) else {
        unreachable!()
    };
    let mut submits = Outs::new(context.alloc);
    let program = Program {
        alloc: context.alloc,
        functions: &*context.functions,
        depth: context.depth - 1,
    };
    let row = function.body.as_slice();
    returned(run_scoped(&program, room, row, &mut env, turns, &mut submits))
}
