//! What intervals of submits and classes say of what operators give.
ghost use Rattle.selectivity_rules.specs.ClassLaws.{ClassLaw};
ghost use Rattle.selectivity_rules.specs.SubmitLaws.{IntervalLaw};

/// A body that runs to its end submits at least the least number of items and at most the greatest. So each
/// event of an operator causes as many items as the operator's class says, after every history.
pub fn classes_law()
    ensures interval { IntervalLaw }
    ensures class { ClassLaw }
{}
