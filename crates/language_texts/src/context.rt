//! What texts stand in, which is a text too: the functions of a unit, of which `variables` and `ports`
//! declare the variables and the ports with their values.
ghost use Rattle.std.specs.Prelude.{IsTrue, IfOk, OnOk};
ghost use Rattle.spl_value.specs.Values.{fits};
ghost use Rattle.language_model.specs.CodeFits.{CodeFits};
ghost use Rattle.language_texts.specs.Contexts.{Holds};

use crate::reading::body_named;
use crate::unanswered::Unanswered;
use body_rules::{functions_of, scope_of_unit};
use evaluation_laws::evaluation_law;
use expr_eval::eval;
use language_laws::{bodies_law, dollars_law, typing_law};
use language_model::{Env, Port, Scope, Typed, Variable};
use spl_tree::{Declaration, Expr, Functions, Marker, Stmt, StmtKind, TypeExpr, Unit};
use spl_value::{Evaluated, Items, Name, SplType, Value};
use std::alloc::Global;
use type_rules::type_of;
use written_types::{TypeScope, TypeTable, type_of_written};

/// A scope, the values of what can be named in it, and the functions that can be called.
#[derive(Drop)]
pub struct Context {
    pub scope: Scope,
    pub env: Env,
    pub functions: Functions,
}

/// A value with its type.
#[derive(Drop)]
pub struct Valued {
    pub kind: SplType,
    pub value: Value,
}

/// The turns that a text may take where nothing else is said.
pub const TURNS: u32 = 1_000_000;

/// The type and the code of an expression.
fn typed(
    alloc: Global,
    scope: &Scope,
    expr: &Expr,
    wanted: Option<&SplType>,
) -> Result<Typed, Unanswered>
    ensures { IfOk result (λ t. CodeFits scope.now t.code t.kind) }
{
    typing_law();
    dollars_law();
    if !scope.dollars.is_empty() {
        return Err(Unanswered::Unread("parameters without values"));
    }
    match type_of(alloc, scope, expr, wanted) {
        Ok(typed) => Ok(typed),
        Err(answer) => Err(Unanswered::Untyped(answer)),
    }
}

impl Context {
    /// A context with the functions of a unit alone, where a marker came or, as `None`, a tuple.
    fn calling(alloc: Global, unit: &Unit, came: Option<Marker>) -> Result<Context, Unanswered>
        ensures { IfOk result (λ it. Holds it.scope it.env it.functions) }
    {
        bodies_law();
        dollars_law();
        let functions = functions_of(alloc, unit)?;
        let mut scope = scope_of_unit(alloc, unit)?;
        scope.punct = came.is_some();
        let env = Env {
            inputs: Items::new(alloc),
            vars: Items::new(alloc),
            punct: came,
        };
        Ok(Context {
            scope,
            env,
            functions,
        })
    }

    /// The value of an expression, and of the turns those that are left.
    pub fn value_of(
        &self,
        alloc: Global,
        expr: &Expr,
        wanted: Option<&SplType>,
        turns: &mut u32,
    ) -> Result<Valued, Unanswered>
        requires { Holds self.now.scope self.now.env self.now.functions }
        ensures { IfOk result (λ v. IsTrue (fits v.kind v.value)) }
    {
        evaluation_law();
        let Typed { kind, code } = typed(alloc, &self.scope, expr, wanted)?;
        match eval(alloc, &self.functions, code.get(), &self.env, turns) {
            Evaluated::Value(value) => Ok(Valued {
                kind: kind.into_inner(),
                value,
            }),
            Evaluated::Bad(fault) => Err(Unanswered::Fault(fault)),
            Evaluated::Memory => Err(Unanswered::Memory),
        }
    }

    fn add_variable(&mut self, name: Name, mutable: bool, valued: Valued) -> Result<(), Unanswered>
        requires holds { Holds self.old.scope self.old.env self.old.functions }
        requires fits { IsTrue (fits valued.kind valued.value) }
        ensures { OnOk result (Holds self.new.scope self.new.env self.new.functions) }
    {
        let Valued { kind, value } = valued;
        self.scope.vars.push(Variable {
            name,
            kind,
            mutable,
        })?;
        self.env.vars.push(value)?;
        Ok(())
    }

    fn add_port(&mut self, name: Name, valued: Valued) -> Result<(), Unanswered>
        requires holds { Holds self.old.scope self.old.env self.old.functions }
        requires fits { IsTrue (fits valued.kind valued.value) }
        ensures { OnOk result (Holds self.new.scope self.new.env self.new.functions) }
    {
        let Valued { kind, value } = valued;
        let Some(schema) = kind.into_schema() else {
            return Err(Unanswered::Unread("no tuple"));
        };
        let Some(tuple) = value.into_tuple() else {
            return Err(Unanswered::Unread("no tuple"));
        };
        self.scope.ports.push(Port { name, schema })?;
        self.env.inputs.push(tuple)?;
        Ok(())
    }

    // The value of what is declared with this type.
    fn declared(
        &self,
        alloc: Global,
        types: &TypeScope,
        kind: &TypeExpr,
        value: &Expr,
    ) -> Result<Valued, Unanswered>
        requires { Holds self.now.scope self.now.env self.now.functions }
        ensures { IfOk result (λ v. IsTrue (fits v.kind v.value)) }
    {
        let mut turns = TURNS;
        let kind = type_of_written(alloc, types, kind)?;
        self.value_of(alloc, value, Some(&kind), &mut turns)
    }

    // Adds a declared variable, or a port with its tuple.
    fn add(
        &mut self,
        alloc: Global,
        types: &TypeScope,
        declared: &Stmt,
        is_port: bool,
    ) -> Result<(), Unanswered>
        requires { Holds self.old.scope self.old.env self.old.functions }
        ensures { OnOk result (Holds self.new.scope self.new.env self.new.functions) }
    {
        let StmtKind::Declare(
            Declaration {
                mutable,
                kind,
                name,
                value: Some(value),
            },
        ) = declared.what.get()
        else {
            return Err(Unanswered::Unread("no declaration"));
        };
        let name = Items::from_slice(alloc, name.what.as_slice())?;
        let valued = self.declared(alloc, types, kind, value)?;
        if is_port {
            return self.add_port(name, valued);
        }
        self.add_variable(name, *mutable, valued)
    }

    // Adds declared variables, or ports with their tuples.
    fn add_all(
        &mut self,
        alloc: Global,
        types: &TypeScope,
        declared: &[Stmt],
        is_port: bool,
    ) -> Result<(), Unanswered>
        requires { Holds self.old.scope self.old.env self.old.functions }
        ensures { OnOk result (Holds self.new.scope self.new.env self.new.functions) }
    {
        for one in declared {
            self.add(alloc, types, one, is_port)?;
        }
        Ok(())
    }

    // Adds what a unit declares: its variables, and its ports unless a marker came.
    fn add_declared(
        &mut self,
        alloc: Global,
        declared: &Unit,
        came: Option<Marker>,
    ) -> Result<(), Unanswered>
        requires { Holds self.old.scope self.old.env self.old.functions }
        ensures { OnOk result (Holds self.new.scope self.new.env self.new.functions) }
    {
        let table = TypeTable::of_unit(alloc, declared)?;
        let types = TypeScope::of_unit(&table);
        self.add_all(alloc, &types, body_named(declared, "variables"), false)?;
        if came.is_some() {
            return Ok(());
        }
        self.add_all(alloc, &types, body_named(declared, "ports"), true)
    }

    /// A context with the functions of a unit, and what another one declares: its variables, and its ports
    /// unless a marker came.
    pub fn new(
        alloc: Global,
        functions: &Unit,
        declared: &Unit,
        came: Option<Marker>,
    ) -> Result<Context, Unanswered>
        ensures { IfOk result (λ it. Holds it.scope it.env it.functions) }
    {
        let mut context = Context::calling(alloc, functions, came)?;
        context.add_declared(alloc, declared, came)?;
        Ok(context)
    }
}
