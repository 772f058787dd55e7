//! Laws of every plan without a fault.

ghost use Rattle.plan_rules.specs.Laws.{SeparatePlansAreNumbered, SeparatePlansShareNoPort, SeparatePlansHaveParts};

/// In a plan that breaks no rule each domain numbers its ports one to one, no two domains have a port in common, and
/// each domain's part is within its bounds.
pub fn faultless_plans_are_separate()
    ensures numbered { SeparatePlansAreNumbered }
    ensures apart { SeparatePlansShareNoPort }
    ensures parts { SeparatePlansHaveParts }
{}
