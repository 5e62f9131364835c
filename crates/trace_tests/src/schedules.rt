// Schedules played, and the faults of texts that are none.
use crate::parts::joined;
use bq_model::{TextCause, TextFault, TextRefused};
use std::alloc::Global;
use std::process::Abort;
use std::test::Fail;
use trace_text::{Verdict, check_history, play_schedule};

/// The seventh takes all six item rows of a caller, so that Full comes three times, once to a batch that has taken a row
/// already. In the last one a stopped caller holds a row, and all others are taken before Full comes.
#[test]
fn schedules_give_their_histories(rt: HostRuntime) -> Result<(), Fail> {
    let table: [(&[u8], &[u8], u64, u64); 14] = [
        (b"shape 1 1 1 1 0\n", b"callers 1\n", 0, 0),
        (
            b"shape 2 4 8 100 0\nstart 0 e5 e6 d\nuntil 0 install\nstart 1 d\nfinish 1\n",
            b"callers 2\ngroup 1 0 d-\n# unfinished 0\n",
            1,
            1,
        ),
        (
            b"# late\nshape 2 4 8 100 0\nstart 0 e1\nstart 1 e2\nfinish 1\nfinish 0\nstart 1 d\nfinish 1\n",
            b"callers 2\ngroup 1 0 e2\ngroup 0 0 e1\ngroup 1 1 d2\n",
            3,
            3,
        ),
        (
            b"shape 1 4 8 2 0\nstart 0 e1\nfinish 0\nstart 0 e2 e3\nstart 0 d\nfinish 0\nstart 0 d\n",
            b"callers 1\ngroup 0 0 e1\ngroup 0 1 d1\n# refused 0 spent\n# refused 0 spent\n",
            2,
            2,
        ),
        (
            b"shape 2 2 8 100 0\nstart 0 e1 e2\nstep 0 0\nstart 1 d\nstep 1 1\n",
            b"callers 2\n# unfinished 0\n# unfinished 1\n",
            0,
            0,
        ),
        (
            b"shape 1 2 8 100 0\nstart 0 e18446744073709551615\nstep 0 18446744073709551615\nfinish 0\n",
            b"callers 1\ngroup 0 0 e18446744073709551615\n",
            1,
            1,
        ),
        (
            b"shape 1 2 1 100 0\nstart 0 e1 e2\nfinish 0\nstart 0 e3 e4\nfinish 0\nstart 0 e5 e6\nfinish 0\nstart 0 e7\nfinish 0\nstart 0 d\nfinish 0\nstart 0 e7 e8\nfinish 0\nstart 0 d\nfinish 0\nstart 0 e7 e8\nfinish 0\nstart 0 e7\nfinish 0\nstart 0 d d\nfinish 0\nstart 0 e8 e9\nfinish 0\nstart 0 d d\nfinish 0\nstart 0 d d\nfinish 0\nstart 0 d d\nfinish 0\n",
            b"callers 1\ngroup 0 0 e1 e2\ngroup 0 1 e3 e4\ngroup 0 2 e5 e6\ngroup 0 3 d1\ngroup 0 4 d2\ngroup 0 5 e7\ngroup 0 6 d3 d4\ngroup 0 7 e8 e9\ngroup 0 8 d5 d6\ngroup 0 9 d7 d8\ngroup 0 10 d9 d-\n# refused 0 full\n# refused 0 full\n# refused 0 full\n",
            11,
            19,
        ),
        (
            b"shape 1 2 8 100 0\nstart 0 d\nuntil 0 install\nuntil 0 install",
            b"callers 1\ngroup 0 0 d-\n",
            1,
            1,
        ),
        (
            b"shape 2 4 8 4 0\nstart 0 e5 e6 d\nuntil 0 load_ann\nstart 1 d\nfinish 1\nfinish 0\nstart 0 e1 e1\n",
            b"callers 2\ngroup 0 0 e5 e6 d5\ngroup 1 0 d6\n# refused 0 spent\n",
            2,
            4,
        ),
        (
            b"shape 2 4 8 100 0\nstart 0 e1\nfinish 0\nstart 0 e2\nfinish 0\nstart 0 d d d\nfinish 0\nstart 1 e9\nfinish 1\nstart 1 d\nfinish 1\n",
            b"callers 2\ngroup 0 0 e1\ngroup 0 1 e2\ngroup 0 2 d1 d2 d-\ngroup 1 0 e9\ngroup 1 1 d9\n",
            5,
            7,
        ),
        (
            b"shape 2 4 8 100 0\nstart 0 e1\nfinish 0\nstart 0 e2\nfinish 0\nstart 0 d d d\nuntil 0 install\nstart 1 e9\nfinish 1\nuntil 0 decide\nstart 1 d\nfinish 1\n",
            b"callers 2\ngroup 0 0 e1\ngroup 0 1 e2\ngroup 1 0 e9\ngroup 0 2 d1 d2 d9\ngroup 1 1 d-\n# unfinished 0\n",
            5,
            7,
        ),
        (
            b"shape 2 4 8 100 0\nstart 0 e1 e2 e3\nfinish 0\nstart 0 d d\nuntil 0 move_head_many\nstart 1 e9\nfinish 1\nfinish 0\nstart 1 d\nuntil 1 move_head\n",
            b"callers 2\ngroup 0 0 e1 e2 e3\ngroup 1 0 e9\ngroup 0 1 d1 d2\n# unfinished 1\n",
            3,
            6,
        ),
        (
            b"shape 2 4 8 100 0\nstart 0 e4\nfinish 0\nstart 0 d d\nuntil 0 link_stopper\nstart 1 d\nfinish 1\n",
            b"callers 2\ngroup 0 0 e4\ngroup 0 1 d4 d-\ngroup 1 0 d-\n# unfinished 0\n",
            3,
            4,
        ),
        (
            b"shape 2 1 1 100 0\nstart 0 e1\nfinish 0\nstart 0 d\nfinish 0\nstart 1 d\nuntil 1 load_link\nstart 0 e2\nfinish 0\nstart 0 d\nfinish 0\nstart 0 e3\nfinish 0\nstart 0 e4\nfinish 0\nstart 0 e5\nfinish 0\nstart 0 e6\nfinish 0\nstart 0 e7\nfinish 0\nstart 0 e8\nfinish 0\nstart 0 e9\nfinish 0\nstart 0 e10\nfinish 0\nstart 0 e11\nfinish 0\nfinish 1\nstart 0 e11\nfinish 0\nstart 0 e12\nfinish 0\nstart 0 e13\nfinish 0\n",
            b"callers 2\ngroup 0 0 e1\ngroup 0 1 d1\ngroup 0 2 e2\ngroup 0 3 d2\ngroup 0 4 e3\ngroup 0 5 e4\ngroup 0 6 e5\ngroup 0 7 e6\ngroup 0 8 e7\ngroup 0 9 e8\ngroup 0 10 e9\ngroup 0 11 e10\ngroup 1 0 d3\ngroup 0 12 e11\ngroup 0 13 e12\n# refused 0 full\n# refused 0 full\n",
            15,
            15,
        ),
    ];
    for (lines, history, groups, operations) in table {
        let schedule = joined(rt.alloc(), &[b"bqplay 1\n", lines])?;
        let wanted = joined(rt.alloc(), &[b"bqhist 1\n", history])?;
        let text = play_schedule(rt.alloc(), &schedule)?;
        assert!(rt;
            text.as_slice() == wanted.as_slice(),
            "{lines:?} gives {text:?}"
        );
        let found = check_history(rt.alloc(), text.as_slice());
        assert!(rt;
            found == Ok(Verdict::Legal { groups, operations }),
            "{lines:?}"
        );
    }
    Ok(())
}

#[test]
fn faults_of_shapes_are_named(rt: HostRuntime) -> Result<(), Fail> {
    let table: [(&[u8], u32, TextCause); 9] = [
        (b"", 1, TextCause::NoHeader),
        (b"bqplay 2\n", 1, TextCause::NoHeader),
        (b"bqplay 1\n#\n", 3, TextCause::BadWord),
        (b"bqplay 1\nstart 0 d\n", 2, TextCause::BadWord),
        (b"bqplay 1\nshape 2 4 8 100\n", 2, TextCause::BadWord),
        (b"bqplay 1\nshape 18 4 8 100 0\n", 2, TextCause::BadNumber),
        (
            b"bqplay 1\nshape 1 1 1 1 17592186044415\n",
            2,
            TextCause::BadNumber,
        ),
        (
            b"bqplay 1\nshape 4294967297 1 1 1 0\n",
            2,
            TextCause::BadNumber,
        ),
        (
            b"bqplay 1\nshape 1 1 1 1 0\nshape 1 1 1 1 0\n",
            3,
            TextCause::BadWord,
        ),
    ];
    for (text, line, cause) in table {
        refused(&rt, rt.alloc(), text, line, cause);
    }
    Ok(())
}

#[test]
fn faults_of_commands_are_named(rt: HostRuntime) -> Result<(), Fail> {
    let table: [(&[u8], u32, TextCause); 14] = [
        (b"start 0\n", 3, TextCause::BadWord),
        (b"start x d5\n", 3, TextCause::BadWord),
        (b"start 0 d d d d d\n", 3, TextCause::BlockTooLong),
        (b"start 0 d ex\n", 3, TextCause::BadNumber),
        (b"start 1 d\n", 3, TextCause::BadNumber),
        (
            b"start 0 d\nstart 0 e1 e1 e1 e1 e1\n",
            4,
            TextCause::BusyCaller,
        ),
        (b"start 0 e1 e1 e1 e1 e1\n", 3, TextCause::BlockTooLong),
        (b"start 0 e1 e1 e1 e1 ex\n", 3, TextCause::BadNumber),
        (b"until 1 move_heads\n", 3, TextCause::BadWord),
        (b"until 1 install\n", 3, TextCause::BadNumber),
        (b"step 0 -1\n", 3, TextCause::BadNumber),
        (b"step 0\n", 3, TextCause::BadWord),
        (b"finish 1\n", 3, TextCause::BadNumber),
        (b"finish 0 0\n", 3, TextCause::BadWord),
    ];
    for (commands, line, cause) in table {
        let text = joined(rt.alloc(), &[b"bqplay 1\nshape 1 4 8 9 0\n", commands])?;
        refused(&rt, rt.alloc(), &text, line, cause);
    }
    Ok(())
}

fn refused(rt: &impl Abort, alloc: Global, text: &[u8], line: u32, cause: TextCause) {
    match play_schedule(alloc, text) {
        Ok(_) => panic!(rt; "played {text:?}"),
        Err(found) => {
            let fault = TextRefused::Text(TextFault { line, cause });
            assert!(rt; found == fault, "{text:?}");
        }
    }
}
