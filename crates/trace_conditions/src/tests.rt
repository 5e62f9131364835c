// Worked examples.
ghost use Rattle.std.specs.Prelude.{◌≡◌};

use crate::{
    Condition, Spans, Stamped, add_span, condition_of, is_whole, meets_none,
    strong_is_medium_and_medium_is_weak,
};
use std::collections::BTreeMap;
use std::test::Fail;

const fn stamped(caller: u32, made: u64, returned: u64, evaluated: u64) -> Stamped
    ensures { result.caller ≡ caller }
{
    Stamped {
        caller,
        made,
        returned: Some(returned),
        evaluated: Some(evaluated),
    }
}

#[test]
fn worked_orders_meet_their_conditions(rt: HostRuntime) -> Result<(), Fail> {
    let dequeue = stamped(1, 5, 8, 8);
    let (first, second) = (stamped(0, 1, 2, 9), stamped(0, 3, 4, 9));
    assert_eq!(rt; condition_of(&[dequeue, first, second]), Condition::Medium);
    assert_eq!(rt; condition_of(&[dequeue, second, first]), Condition::Weak);
    assert_eq!(rt;
        condition_of(&[dequeue, stamped(0, 1, 2, 4)]),
        Condition::Neither
    );
    assert_eq!(rt; is_whole(rt.alloc(), &[dequeue, first, second])?, true);
    assert_eq!(rt; is_whole(rt.alloc(), &[first, dequeue, second])?, false);
    strong_is_medium_and_medium_is_weak();
    Ok(())
}

#[test]
fn spans_that_share_a_stamp_meet(rt: HostRuntime) -> Result<(), Fail> {
    let mut spans: Spans = BTreeMap::new(rt.alloc());
    assert_eq!(rt; meets_none(&spans, 5, Some(8)), true);
    add_span(&mut spans, 5, Some(8))?;
    assert_eq!(rt; meets_none(&spans, 8, Some(9)), false);
    assert_eq!(rt; meets_none(&spans, 1, Some(5)), false);
    assert_eq!(rt; meets_none(&spans, 6, Some(7)), false);
    assert_eq!(rt; meets_none(&spans, 1, None), false);
    assert_eq!(rt; meets_none(&spans, 9, None), true);
    assert_eq!(rt; meets_none(&spans, 1, Some(4)), true);
    Ok(())
}
