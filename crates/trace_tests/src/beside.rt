// A caller that stops before each kind of step, beside one that goes on.
use crate::parts::joined;
use std::alloc::Global;
use std::process::Abort;
use std::test::Fail;
use trace_text::{Verdict, check_history, play_schedule};

/// Caller 0 has put two values, and starts these operations.
const OPENING: &[u8] =
    b"bqplay 1\nshape 2 4 8 100 0\nstart 0 e1\nfinish 0\nstart 0 e2\nfinish 0\nstart 0 ";

/// Caller 1 puts a value and takes one.
const OTHER: &[u8] = b"\nstart 1 e8\nfinish 1\nstart 1 d\nfinish 1\n";

/// Plays that caller 0 stops in these operations, behind these lines, before a step of this kind. Caller 1 must have made so
/// many commands then, and caller 0 alone is left unfinished.
fn assert_other_ends(
    rt: &impl Abort,
    alloc: Global,
    ops: &[u8],
    between: &[u8],
    kind: &[u8],
    commands: usize,
) -> Result<(), Fail> {
    let schedule = joined(alloc, &[OPENING, ops, between, b"\nuntil 0 ", kind, OTHER])?;
    let text = play_schedule(alloc, &schedule)?;
    let found = check_history(alloc, text.as_slice());
    assert!(rt;
        matches!(&found, Ok(Verdict::Legal { .. })),
        "{kind:?} is found {found:?}"
    );
    let lines = || text.as_slice().split(|byte| *byte == b'\n');
    let own = lines().filter(|line| line.starts_with(b"group 1 ")).count();
    let put = lines().filter(|line| line.ends_with(b" e8")).count();
    let comments = lines().filter(|line| line.starts_with(b"#")).count();
    assert!(rt; own == commands && put == 1, "{kind:?} gives {text:?}");
    assert!(rt;
        comments == 1 && text.as_slice().ends_with(b"\n# unfinished 0\n"),
        "{kind:?} gives {text:?}"
    );
    Ok(())
}

#[test]
fn caller_goes_on_beside_one_that_stops_before_each_kind(rt: HostRuntime) -> Result<(), Fail> {
    let table: [(&[u8], &[&[u8]]); 5] = [
        (
            b"e3",
            &[
                b"load_tail",
                b"load_link",
                b"store_value",
                b"link_single",
                b"move_tail",
                b"load_mark",
                b"clear_mark",
                b"clear_link",
                b"store_node_hazard",
            ],
        ),
        (
            b"d",
            &[
                b"load_head",
                b"load_value",
                b"move_head",
                b"mark_row",
                b"mark_free",
            ],
        ),
        (
            b"e3 e4 d",
            &[
                b"store_chain",
                b"store_ann",
                b"install",
                b"load_ann",
                b"link_chain",
                b"record_tail",
                b"move_tail_over",
                b"move_head_ann",
                b"store_ann_hazard",
                b"load_hazard",
            ],
        ),
        (b"d d", &[b"move_head_many"]),
        (b"d d d", &[b"link_stopper"]),
    ];
    for (ops, kinds) in table {
        for kind in kinds {
            assert_other_ends(&rt, rt.alloc(), ops, b"", kind, 2)?;
        }
    }
    // A batch that found too few values is decided without a link where another one has come before it was announced.
    let meanwhile = b"\nuntil 0 install\nstart 1 e9\nfinish 1";
    assert_other_ends(&rt, rt.alloc(), b"d d d", meanwhile, b"decide", 3)
}

/// Its own values are in no queue then: the other caller finds none, and the history has its dequeue alone.
#[test]
fn batch_that_was_not_announced_is_seen_by_nobody(rt: HostRuntime) -> Result<(), Fail> {
    let schedule: &[u8] =
        b"bqplay 1\nshape 2 4 8 100 0\nstart 0 e5 e6 d\nuntil 0 install\nstart 1 d\nfinish 1\n";
    let text = play_schedule(rt.alloc(), schedule)?;
    assert!(rt;
        text.as_slice() == b"bqhist 1\ncallers 2\ngroup 1 0 d-\n# unfinished 0\n".as_slice(),
        "{text:?}"
    );
    let legal = Verdict::Legal {
        groups: 1,
        operations: 1,
    };
    assert!(rt; check_history(rt.alloc(), text.as_slice()) == Ok(legal));
    Ok(())
}
