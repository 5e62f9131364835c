// Laws of the conditions.
ghost use Rattle.std.specs.Prelude.{List};
ghost use Rattle.trace_conditions.specs.declared.stamped.Stamped.{Stamped};
ghost use Rattle.trace_conditions.specs.Conditions.{IsMadeInTurn, IsStrong, IsMedium, IsWeak};

/// An order that callers can make and that is strong is medium, and each medium one is weak.
pub fn strong_is_medium_and_medium_is_weak()
    ensures strong { (ops : List Stamped) → IsMadeInTurn ops → IsStrong ops → IsMedium ops }
    ensures medium { (ops : List Stamped) → IsMedium ops → IsWeak ops }
{}
