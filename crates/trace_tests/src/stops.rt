// Schedules that stop a caller before each kind of step, and a schedule with as many steps as there may be.
use crate::parts::joined;
use bq_model::{TextCause, TextRefused};
use std::alloc::{AllocError, Global};
use std::test::Fail;
use trace_text::{Verdict, check_history, play_schedule};

/// Caller 0 starts these operations behind these lines and stops before a step of this kind. Caller 1 dequeues then,
/// and these groups are there. A stop before `decide`, which comes only after an enqueue of another caller, is in
/// `schedules`.
#[test]
fn caller_stops_before_each_kind_while_another_finishes(rt: HostRuntime) -> Result<(), Fail> {
    let seven: &[u8] = b"start 1 e7\nfinish 1\n";
    let table: [(&[u8], &[u8], &[u8], &[u8], u64); 27] = [
        (b"", b"d", b"load_head", b"group 1 0 d-\n", 1),
        (b"", b"e5", b"load_mark", b"group 1 0 d-\n", 1),
        (b"", b"e5", b"clear_mark", b"group 1 0 d-\n", 1),
        (b"", b"e5", b"clear_link", b"group 1 0 d-\n", 1),
        (b"", b"e5", b"load_tail", b"group 1 0 d-\n", 1),
        (b"", b"e5", b"store_node_hazard", b"group 1 0 d-\n", 1),
        (b"", b"e5", b"load_link", b"group 1 0 d-\n", 1),
        (
            seven,
            b"d",
            b"load_value",
            b"group 1 0 e7\ngroup 1 1 d7\n",
            2,
        ),
        (b"", b"e5", b"store_value", b"group 1 0 d-\n", 1),
        (b"", b"e5", b"link_single", b"group 1 0 d-\n", 1),
        (b"", b"e5", b"move_tail", b"group 0 0 e5\ngroup 1 0 d5\n", 2),
        (
            seven,
            b"d",
            b"move_head",
            b"group 1 0 e7\ngroup 1 1 d7\n",
            2,
        ),
        (
            seven,
            b"d",
            b"mark_row",
            b"group 1 0 e7\ngroup 0 0 d7\ngroup 1 1 d-\n",
            3,
        ),
        (
            seven,
            b"d",
            b"load_hazard",
            b"group 1 0 e7\ngroup 0 0 d7\ngroup 1 1 d-\n",
            3,
        ),
        (
            seven,
            b"d",
            b"mark_free",
            b"group 1 0 e7\ngroup 0 0 d7\ngroup 1 1 d-\n",
            3,
        ),
        (b"", b"e5 e6 d", b"store_chain", b"group 1 0 d-\n", 1),
        (b"", b"e5 e6 d", b"load_hazard", b"group 1 0 d-\n", 1),
        (b"", b"e5 e6 d", b"store_ann", b"group 1 0 d-\n", 1),
        (b"", b"e5 e6 d", b"install", b"group 1 0 d-\n", 1),
        (
            b"",
            b"e5 e6 d",
            b"store_ann_hazard",
            b"group 0 0 e5 e6 d5\ngroup 1 0 d6\n",
            2,
        ),
        (
            b"",
            b"e5 e6 d",
            b"load_ann",
            b"group 0 0 e5 e6 d5\ngroup 1 0 d6\n",
            2,
        ),
        (
            b"",
            b"e5 e6 d",
            b"link_chain",
            b"group 0 0 e5 e6 d5\ngroup 1 0 d6\n",
            2,
        ),
        (
            b"",
            b"e5 e6 d",
            b"record_tail",
            b"group 0 0 e5 e6 d5\ngroup 1 0 d6\n",
            2,
        ),
        (
            b"",
            b"e5 e6 d",
            b"move_tail_over",
            b"group 0 0 e5 e6 d5\ngroup 1 0 d6\n",
            2,
        ),
        (
            b"",
            b"e5 e6 d",
            b"move_head_ann",
            b"group 0 0 e5 e6 d5\ngroup 1 0 d6\n",
            2,
        ),
        (
            b"start 1 e7 e8\nfinish 1\n",
            b"d d",
            b"move_head_many",
            b"group 1 0 e7 e8\ngroup 1 1 d7\n",
            2,
        ),
        (
            seven,
            b"d d",
            b"link_stopper",
            b"group 1 0 e7\ngroup 0 0 d7 d-\ngroup 1 1 d-\n",
            3,
        ),
    ];
    for (before, command, kind, history, groups) in table {
        let schedule = joined(
            rt.alloc(),
            &[
                b"bqplay 1\nshape 2 4 8 100 0\n",
                before,
                b"start 0 ",
                command,
                b"\nuntil 0 ",
                kind,
                b"\nstart 1 d\nfinish 1\n",
            ],
        )?;
        let wanted = joined(
            rt.alloc(),
            &[b"bqhist 1\ncallers 2\n", history, b"# unfinished 0\n"],
        )?;
        let text = play_schedule(rt.alloc(), &schedule)?;
        assert!(rt;
            text.as_slice() == wanted.as_slice(),
            "{kind:?} gives {text:?}"
        );
        let found = check_history(rt.alloc(), text.as_slice());
        let legal = matches!(&found, Ok(Verdict::Legal { groups: n, .. }) if *n == groups);
        assert!(rt; legal, "{kind:?} is found {found:?}");
    }
    Ok(())
}

/// A schedule of 200,000 dequeues of an empty lane, each of which loads the head, stores its hazard, loads the head again
/// and a link, and clears the hazard.
fn million_steps(alloc: Global) -> Result<Vec<u8>, AllocError> {
    let mut text = Vec::from_slice(alloc, b"bqplay 1\nshape 1 1 1 1000000 0\n")?;
    for _ in 0..200_000 {
        text.extend_from_slice(b"start 0 d\nfinish 0\n")?;
    }
    Ok(text)
}

#[test]
fn most_steps_are_a_million(rt: HostRuntime) -> Result<(), Fail> {
    let full = million_steps(rt.alloc())?;
    let table: [(&[u8], Option<u32>); 6] = [
        (b"", None),
        (b"start 0 d\nstep 0 0\nuntil 0 load_head\n", None),
        (b"start 0 d\nfinish 0\n", Some(400_004)),
        (b"start 0 d\nstep 0 1\n", Some(400_004)),
        (b"start 0 d\n\nuntil 0 load_link\n", Some(400_005)),
        (b"start 0 d\nfinish 0\nfinish x\n", Some(400_004)),
    ];
    for (last, wanted) in table {
        let mut schedule = full.clone()?;
        schedule.extend_from_slice(last)?;
        match play_schedule(rt.alloc(), &schedule) {
            Ok(_) => assert!(rt; wanted.is_none(), "{last:?}"),
            Err(TextRefused::Text(found)) => {
                assert!(rt;
                    found.cause == TextCause::TooMany && Some(found.line) == wanted,
                    "{last:?}"
                );
            }
            Err(TextRefused::Memory) => panic!(rt; "memory was lacking"),
        }
    }
    Ok(())
}
