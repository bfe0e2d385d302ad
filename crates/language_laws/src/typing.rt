//! Types and codes of expressions and places, and where their refusals stand.
ghost use Rattle.language_laws.specs.PlaceLaws.{PlaceTypeLaw, PlaceReadsLaw, NamePlaceLaw, PlaceGivenLaw, PlaceRefusedLaw, AssignmentTypeLaw, CompoundTypeLaw, CompoundLaw, CallTypeLaw, ValueCallLaw, AppendLaw, RemoveLaw, ClearLaw};
ghost use Rattle.language_laws.specs.Places.{PlaceLaw};
ghost use Rattle.language_laws.specs.Unwanted.{UnwantedLaw};
ghost use Rattle.language_model.specs.DollarLaws.{MentionedLaw, UnusedLaw};
ghost use Rattle.language_model.specs.FitLaws.{ClosedLaw, ConstantLaw, DollarsFit, FitLaw, WantedLaw};
ghost use Rattle.std.specs.Prelude.{[]};

/// The type of an expression is the one that its place wants, where it wants one, and the code fits the scope at it
/// where what `$` parameters mean fits.
pub fn typing_law()
    ensures wanted { WantedLaw }
    ensures fits { FitLaw }
{}

/// An expression that has a type where none is wanted has it where this type is wanted, and the same code.
pub fn unwanted_law()
    ensures unwanted { UnwantedLaw }
{}

/// The place of a refusal is one of the expression: where it begins, or a part of it, a prefix or a member that is taken. Or
/// the refusal is that of a `$` parameter, or of the types of a function.
pub fn place_law()
    ensures places { PlaceLaw }
{}

/// What a `$` parameter means names nothing, so it fits everywhere. A parameter that an expression
/// doesn't mention changes nothing of what the expression is.
pub fn dollars_law()
    ensures closed { ClosedLaw }
    ensures constant { ConstantLaw }
    ensures mentioned { MentionedLaw }
    ensures unused { UnusedLaw }
    ensures none { DollarsFit [] }
{}

/// A place that has a type is one of a variable that may be changed, and fits the scope at that type. An
/// assignment and a call that have code fit as statements in every body.
pub fn places_law()
    ensures places { PlaceTypeLaw }
    ensures assignments { AssignmentTypeLaw }
    ensures compounds { CompoundTypeLaw }
    ensures calls { CallTypeLaw }
{}

/// A place is what its expression reads. A name, or what is taken of one, is a place wherever it has a
/// type and its variable may be changed, and is refused where it may not. `a op= b` is `a = a op b`. A
/// call that has a value may stand as a statement, and the calls that change a place change the one that
/// their first argument reads.
pub fn changes_law()
    ensures reads { PlaceReadsLaw }
    ensures whole { NamePlaceLaw }
    ensures given { PlaceGivenLaw }
    ensures not_mutable { PlaceRefusedLaw }
    ensures written_out { CompoundLaw }
    ensures valued { ValueCallLaw }
    ensures appends { AppendLaw }
    ensures removes { RemoveLaw }
    ensures clears { ClearLaw }
{}
