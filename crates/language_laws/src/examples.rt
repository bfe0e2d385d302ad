//! Worked cases of types, names, slots and `$` parameters.
ghost use Rattle.language_laws.specs.examples.SomeParameters.{five, parameter, with_parameters, one_more};
ghost use Rattle.language_laws.specs.examples.TwoPorts.{two_ports, variable, comparison};
ghost use Rattle.language_laws.specs.examples.TypeNames.{seven_types};
ghost use Rattle.language_model.specs.Checking.{checked};
ghost use Rattle.language_model.specs.FitLaws.{DollarsFit};
ghost use Rattle.language_model.specs.TypeNames.{types_of};
ghost use Rattle.language_model.specs.Typing.{typing, refused, unknown};
ghost use Rattle.language_model.specs.Written.{Bare, Of, slot_of_written, written, renamed};
ghost use Rattle.language_model.specs.declared.scope.CheckRefusal.{CheckRefusal};
ghost use Rattle.spl_tree.specs.Trees.{placed};
ghost use Rattle.spl_tree.specs.declared.code.IntegerOperator.TheVariants.{Add};
ghost use Rattle.spl_tree.specs.declared.code.OrderOperator.TheVariants.{Less};
ghost use Rattle.std.specs.Prelude.{◌≡◌, [], ◌∷◌, Some, None, Ok, Err, codes, pos};
ghost use Rattle.spl_value.specs.declared.types.IntKind.TheVariants as N;
ghost use Rattle.spl_value.specs.declared.types.SplType.TheVariants as T;
ghost use Rattle.spl_value.specs.declared.value.Value.TheVariants as V;
ghost use Rattle.spl_tree.specs.declared.code.BinaryCode.TheVariants as D;
ghost use Rattle.spl_tree.specs.declared.code.Code.TheVariants as C;
ghost use Rattle.spl_tree.specs.declared.code.Slot.TheVariants as L;
ghost use Rattle.spl_tree.specs.declared.expression.ExprKind.TheVariants as E;
ghost use Rattle.language_model.specs.declared.scope.CheckError.TheVariants as Q;

/// What some names mean among definitions of types, and the first refusals of others: a name
/// without a definition, the word of a type that is left out, and names whose definitions lead back to
/// themselves.
#[tactic(auto, using(language_model::proofs::TypeNameLaws::type_laws, language_model::proofs::TypeNameLaws::name_laws))]
pub fn types_on_literals()
    ensures row { types_of seven_types unknown 100 (codes "Row")
        ≡ Ok (T.Tuple (record { name = codes "id"; kind = T.Int N.I32 } ∷ record { name = codes "texts"; kind = T.List T.Text } ∷ [])) }
    ensures absent { types_of seven_types unknown 100 (codes "row") ≡ unknown 100 (codes "row") }
    ensures left_out { types_of seven_types unknown 100 (codes "Old") ≡ refused Q.LeftOut 60 (Some (codes "float64")) }
    ensures circular { types_of seven_types unknown 100 (codes "A") ≡ unknown 100 (codes "A") }
    ensures behind { types_of seven_types unknown 100 (codes "C") ≡ unknown 95 (codes "B") }
{}

/// A scope with a `$` parameter that means the number 5: a sum with it, a parameter that isn't
/// there, one that has a refusal, and two of one name.
pub fn dollars_on_literals()
    ensures stands { DollarsFit (parameter (Ok five) ∷ []) }
    ensures sum { typing (with_parameters (parameter (Ok five) ∷ [])) one_more None
        ≡ Ok (record { kind = T.Int N.I32; code = C.Binary (D.Integers Add N.I32) (C.Literal (V.Int (pos 5))) (C.Literal (V.Int (pos 1))) }) }
    ensures other { typing (with_parameters (parameter (Ok five) ∷ [])) (placed 7 (E.Dollar (codes "m"))) None
        ≡ Err (record { error = Q.Unknown; at = 7; name = Some (codes "m") }) }
    ensures refused { (r : CheckRefusal) → typing (with_parameters (parameter (Err r) ∷ [])) (placed 7 (E.Dollar (codes "n"))) None ≡ Err r }
    ensures first { (r : CheckRefusal)
        → typing (with_parameters (parameter (Ok five) ∷ parameter (Err r) ∷ [])) (placed 7 (E.Dollar (codes "n"))) None ≡ Ok five }
{}

/// What some names mean where there are two ports, the names of some slots, and an expression
/// with its code over slots and over names.
pub fn names_on_literals()
    ensures alone { slot_of_written (two_ports [] (codes "B")) (Bare (codes "m")) ≡ Some (L.Attribute 1 1) }
    ensures behind_port { slot_of_written (two_ports [] (codes "B")) (Of (codes "B") (codes "k")) ≡ Some (L.Attribute 1 0) }
    ensures port { slot_of_written (two_ports [] (codes "B")) (Bare (codes "B")) ≡ Some (L.Port 1) }
    ensures of_both_ports { slot_of_written (two_ports [] (codes "B")) (Bare (codes "k")) ≡ None }
    ensures of_first_port { slot_of_written (two_ports [] (codes "A")) (Of (codes "A") (codes "m")) ≡ None }
    ensures of_variable { slot_of_written (two_ports (variable (codes "A") ∷ []) (codes "B")) (Of (codes "A") (codes "n")) ≡ None }
    ensures variable { slot_of_written (two_ports (variable (codes "A") ∷ []) (codes "B")) (Bare (codes "A")) ≡ Some (L.Variable 0) }
    ensures name_of_port { written (two_ports [] (codes "B")) (L.Port 1) ≡ Bare (codes "B") }
    ensures name_of_attribute { written (two_ports [] (codes "B")) (L.Attribute 1 1) ≡ Of (codes "B") (codes "m") }
    ensures name_in_second { written (two_ports [] (codes "A")) (L.Attribute 1 1) ≡ Bare (codes "m") }
    ensures name_in_hidden { written (two_ports (variable (codes "A") ∷ []) (codes "B")) (L.Attribute 0 1) ≡ Bare (codes "n") }
    ensures typed { typing (two_ports [] (codes "B")) comparison None
        ≡ Ok (record { kind = T.Bool; code = C.Binary (D.Order Less) (C.Name (L.Attribute 0 0)) (C.Name (L.Attribute 1 1)) }) }
    ensures over_names { renamed (written (two_ports [] (codes "B"))) (C.Binary (D.Order Less) (C.Name (L.Attribute 0 0)) (C.Name (L.Attribute 1 1)))
        ≡ C.Binary (D.Order Less) (C.Name (Of (codes "A") (codes "k"))) (C.Name (Of (codes "B") (codes "m"))) }
{}

/// A unit without operators is checked, and has nothing.
pub fn checks_on_literals()
    ensures nothing { checked [] (record { ops = []; streams = []; expansions = []; topo = [] })
        ≡ Ok (record { graph = record { ops = []; streams = []; expansions = []; topo = [] }; schemas = []; functions = []; parts = [] }) }
{}
