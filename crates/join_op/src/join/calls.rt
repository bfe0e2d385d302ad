//! The calls of a Join.
ghost use Rattle.std.specs.Prelude.{◌≡◌, ◌<◌, [], Option, Some, IfOk, length, slice_get};
ghost use Rattle.spl_tree.specs.declared.code.Code.{Code};
ghost use Rattle.spl_tree.specs.declared.code.Slot.{Slot};
ghost use Rattle.language_model.specs.declared.checked.CheckedClauses.TheVariants as A;
ghost use Rattle.language_model.specs.declared.checked.Policy.{Policy as AnyPolicy};
ghost use Rattle.stream_model.specs.CheckedMeaning.{graph_of};
ghost use Rattle.window_policy.specs.Answers.{IsAllowed};
ghost use Rattle.window_policy.specs.Standing.{Stands};
ghost use Rattle.join_op.specs.Pairs.{IsReady};
ghost use Rattle.join_op.specs.Sides.{JoinStands};
ghost use Rattle.join_op.specs.steps.Matching.{operator_of};

use crate::clauses::Clauses;
use crate::join::Join;
use crate::join::events::on_item;
use crate::side::Side;
use language_model::{Checked, CheckedClauses, Env, Policy};
use port_reacts::{CheckedOperator, OnPort, fits_law};
use spl_value::{Item, Items, NoMemory};
use std::alloc::Global;
use stream_model::Reply;
use window_policy::Window;

impl<'c> OnPort for Join<'c> {
    ghost spec = { λ s. operator_of s.clauses };

    ghost stands = { λ s h. JoinStands (operator_of s.clauses) s.clauses.condition.now s.clauses.output.now s.left s.right s.env h };

    fn on_port(&mut self, port: u32, item: Item) -> Reply {
        fits_law();
        let (alloc, clauses, env) = (self.alloc, &self.clauses, &mut self.env);
        if port == 0 {
            on_item(
                alloc,
                clauses,
                env,
                &mut self.left,
                &self.right,
                Side::Left,
                item,
            )
        } else {
            on_item(
                alloc,
                clauses,
                env,
                &mut self.right,
                &self.left,
                Side::Right,
                item,
            )
        }
    }
}

/// An environment with room for a pair.
fn ready_env(alloc: Global) -> Result<Env, NoMemory>
    ensures { IfOk result (λ env. IsReady env) }
{
    let mut inputs = Items::with_capacity(alloc, 2)?;
    inputs.push(Items::new(alloc))?;
    inputs.push(Items::new(alloc))?;
    Ok(Env {
        inputs,
        vars: Items::new(alloc),
        punct: None,
    })
}

/// A Join of these clauses, before anything came.
fn begun<'c>(
    alloc: Global,
    clauses: Clauses<'c>,
    left: &Policy,
    right: &Policy,
) -> Result<Join<'c>, NoMemory>
    requires left { IsAllowed left.now.rule }
    requires right { IsAllowed right.now.rule }
    ensures clauses { IfOk result (λ join. join.clauses ≡ clauses.entry) }
    ensures left_stands { IfOk result (λ join. Stands left.now.rule join.left []) }
    ensures right_stands { IfOk result (λ join. Stands right.now.rule join.right []) }
    ensures ready { IfOk result (λ join. IsReady join.env) }
{
    let left = Window::new(alloc, left)?;
    let right = Window::new(alloc, right)?;
    let env = ready_env(alloc)?;
    Ok(Join {
        alloc,
        clauses,
        left,
        right,
        env,
    })
}

impl<'c> Join<'c> {
    /// The Join with this number. There is one.
    pub fn new(alloc: Global, checked: &'c Checked, op: u32) -> Result<Join<'c>, NoMemory>
        requires there { op < length checked.now.graph.ops }
        requires kind { (left right : AnyPolicy) × (condition : Option (Code Slot)) × (output : Code Slot)
            × (slice_get checked.now.parts op ≡ Some (A.Join left right condition output)) }
        ensures is { IfOk result (λ join. slice_get (graph_of checked.now).ops op ≡ Some (⟦<Join<'c> as OnPort>⟧.spec join)) }
        ensures begins { IfOk result (λ join. ⟦<Join<'c> as OnPort>⟧.stands join []) }
    {
        let at = CheckedOperator::new(checked, op);
        let CheckedClauses::Join {
            left,
            right,
            condition,
            output,
        } = at.part
        else {
            unreachable!()
        };
        let clauses = Clauses {
            at,
            condition,
            output,
        };
        begun(alloc, clauses, left, right)
    }
}
