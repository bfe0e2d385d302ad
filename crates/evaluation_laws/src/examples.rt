//! Some codes and bodies, and what the laws say of them.
ghost use Rattle.std.specs.Prelude.{◌≡◌, ℕ, false, [], ◌∷◌, Some, slice_get};
ghost use Rattle.spl_value.specs.declared.item.FaultKind.TheVariants as K;
ghost use Rattle.spl_tree.specs.declared.code.Code.TheVariants as C;
ghost use Rattle.spl_tree.specs.declared.code.Slot.TheVariants as L;
ghost use Rattle.language_model.specs.declared.scope.Variable.{Variable};
ghost use Rattle.language_model.specs.BodyFits.{OfHandler, RowFits};
ghost use Rattle.language_model.specs.Functions.{value, runs};
ghost use Rattle.language_model.specs.Keeping.{HandlersFit};
ghost use Rattle.language_model.specs.Outcomes.{Done, Faulted, Stuck};
ghost use Rattle.language_model.specs.Slots.{row_slots};
ghost use Rattle.language_model.specs.Typing.{int32};
ghost use Rattle.language_model.specs.WorldFits.{BodyFits, Fits};
ghost use Rattle.evaluation_laws.specs.HandlerLaws.{AreFirst};
ghost use Rattle.evaluation_laws.specs.NamedSlotsLaw.{Agree};
ghost use Rattle.evaluation_laws.specs.examples.TwoStatements.{two_statements};
ghost use Rattle.evaluation_laws.specs.examples.OneCall.{number, identity, call_of_seven, by_zero, nowhere};
ghost use Rattle.evaluation_laws.specs.examples.OneHandler.{output, state, submit_constant, on_tuple, on_marker, handlers, one_port, of_tuple, held};
ghost use Rattle.evaluation_laws.specs.examples.OneHandler.{env_of, left_of, env_at_window, left_at_window, constant_alone, env_alone, left_alone};

/// A call takes a turn: with two it leaves one, and with none it runs out of turns. A division by zero
/// gives its fault, and a name without a value is stuck.
pub fn turns_on_literals()
    ensures taken { value (identity ∷ []) call_of_seven nowhere 2 ≡ Done (number 7) 1 }
    ensures wanted { value (identity ∷ []) call_of_seven nowhere 0 ≡ Faulted K.Turns }
    ensures fault { value [] by_zero nowhere 0 ≡ Faulted K.DivZero }
    ensures stuck { value [] (C.Name (L.Variable 0)) nowhere 0 ≡ Stuck }
{}

/// A Custom with a handler of tuples and one of markers fits, its state has first values, and a code and the
/// handler of tuples fit where that runs. It takes one turn, leaves the variable that isn't mutable, and does
/// the same where the attribute and the variable that it doesn't name have other values. The handler of
/// markers submits a window marker.
pub fn handler_on_literals()
    ensures fits { HandlersFit one_port (output ∷ []) handlers }
    ensures first { AreFirst state (held (number 0) (number 0)) }
    ensures code { Fits [] (C.Name (L.Variable 0)) (env_of (number 3) (number 0)) int32 }
    ensures body { BodyFits [] on_tuple (env_of (number 3) (number 0)) (OfHandler (output ∷ [])) of_tuple }
    ensures leaves { runs [] on_tuple (env_of (number 3) (number 0)) 2 ≡ Done (left_of (number 0)) 1 }
    ensures wanted { runs [] on_tuple (env_of (number 3) (number 0)) 0 ≡ Faulted K.Turns }
    ensures agree { Agree (row_slots on_tuple) (env_of (number 3) (number 0)) (env_of (number 9) (number 4)) }
    ensures other { runs [] on_tuple (env_of (number 9) (number 4)) 2 ≡ Done (left_of (number 4)) 1 }
    ensures window { runs [] on_marker env_at_window 0 ≡ Done left_at_window 0 }
{}

/// A body that fits where no variable is mutable, and what it leaves.
pub fn constant_on_literals()
    ensures fits { RowFits (OfHandler (output ∷ [])) false constant_alone (submit_constant ∷ []) }
    ensures constant { (i : ℕ) (x : Variable) → slice_get constant_alone.vars i ≡ Some x → x.mutable ≡ false }
    ensures leaves { runs [] (submit_constant ∷ []) env_alone 0 ≡ Done left_alone 0 }
{}

/// The slots that two statements name.
pub fn slots_on_literals()
    ensures row { row_slots two_statements ≡ L.Port 0 ∷ L.Variable 1 ∷ L.Variable 2 ∷ L.Attribute 0 1 ∷ L.Variable 3 ∷ [] }
{}
