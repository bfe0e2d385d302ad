//! What holds of plans.
ghost use Rattle.region_choice.specs.PlanLaws.{OnePlanLaw, PlanLaw};

/// The graph of every checked program has exactly one plan.
pub fn plan_law()
    ensures exists { PlanLaw }
    ensures one { OnePlanLaw }
{}
