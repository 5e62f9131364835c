// How long the longest calls of four callers are, by schedules that treat them alike and others that don't.
use crate::other::Other;
use bq_model::Shape;
use std::alloc::Global;
use std::process::Abort;
use std::test::Fail;
use step_core::Machine;

/// Four callers make their operations, each one step wherever its number stands in the pattern, which is gone through again
/// and again. How many steps the longest call of each took.
fn longest_calls(rt: &impl Abort, alloc: Global, pattern: &[u32]) -> Result<Vec<u32>, Fail> {
    let shape = Shape::new(4, 4, 64, 2_000, 0).ok_or("in limits")?;
    let mut machine = Machine::new(alloc, &shape)?;
    let mut callers = Vec::new(alloc);
    for caller in 0..4 {
        callers.push(Other::new(alloc, caller))?;
    }
    for _ in 0..200_000 {
        for number in pattern {
            if let Some(caller) = callers.get_mut(*number as usize) {
                caller.go_on(rt, alloc, &mut machine)?;
            }
        }
        if callers.iter().all(|caller| caller.has_ended(&machine)) {
            break;
        }
    }
    let mut longest = Vec::new(alloc);
    for caller in &callers {
        assert!(rt; caller.has_ended(&machine));
        longest.push(caller.longest)?;
    }
    Ok(longest)
}

#[test]
fn longest_calls_of_four_callers_are_counted(rt: HostRuntime) -> Result<(), Fail> {
    let rows: [(&[u32], [u32; 4]); 3] = [
        (&[0, 1, 2, 3], [70, 80, 92, 108]),
        // Caller 0 makes one step in ten.
        (&[1, 2, 3, 1, 2, 3, 1, 2, 3, 0], [4616, 115, 116, 116]),
        // Callers 0 and 1 make one step in twenty.
        (
            &[2, 3, 2, 3, 2, 3, 2, 3, 2, 0, 3, 2, 3, 2, 3, 2, 3, 2, 3, 1],
            [2020, 2014, 61, 81],
        ),
    ];
    for (pattern, most) in rows {
        let longest = longest_calls(&rt, rt.alloc(), pattern)?;
        assert_eq!(rt; longest.as_slice(), most.as_slice());
    }
    Ok(())
}
