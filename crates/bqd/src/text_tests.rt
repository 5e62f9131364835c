// Histories that are checked, and schedules that are played, over streams in memory.
use crate::top::top;
use bq_model::{MemorySink, MemorySource};
use bulk_dispatcher::NoGate;
use std::alloc::Global;
use std::process::Abort;
use std::test::Fail;
use std::thread::Threads;

/// Makes the call of one word, with an input that comes in pieces, and demands that it ends so.
fn ends<R: Threads + Abort + Sync>(
    rt: &R,
    alloc: Global,
    word: &str,
    input: &[u8],
    status: u8,
    out: &[u8],
    err: &[u8],
) -> Result<(), Fail> {
    let mut words = Vec::new(alloc);
    words.push(String::from_str(alloc, word)?)?;
    let mut source = MemorySource::new(input.to_vec(alloc)?, 7, Vec::new(alloc));
    let mut to_out = MemorySink::new(alloc, 1000, 5, Vec::new(alloc))?;
    let mut to_err = MemorySink::new(alloc, 1000, 5, Vec::new(alloc))?;
    let ended = top(
        rt,
        alloc,
        &words,
        &mut source,
        &mut to_out,
        &mut to_err,
        &NoGate,
    );
    assert!(rt; ended.status == status, "{word} ends with {}", ended.status);
    assert!(rt; to_out.bytes() == out, "what {word} wrote");
    assert!(rt; to_err.bytes() == err, "the line of the error");
    assert!(rt; source.left().is_empty(), "the input was read to its end");
    Ok(())
}

#[test]
fn histories_are_checked(rt: HostRuntime) -> Result<(), Fail> {
    let table: [(&[u8], u8, &[u8], &[u8]); 7] = [
        (
            b"bqhist 1\ncallers 2\ngroup 0 0 e1 e2\ngroup 1 0 d1 d2 d-\n",
            0,
            b"legal 2 5\n",
            b"",
        ),
        (
            b"bqhist 1\ncallers 2\ngroup 0 0 e1 e2\ngroup 1 0 d2\n",
            1,
            b"illegal line 4\n",
            b"",
        ),
        (
            b"bqhist 1\ncallers 2\ngroup 0 1 e1 e2\ngroup 1 0 d1 d2 d-\n",
            1,
            b"illegal line 3\n",
            b"",
        ),
        (
            b"bqhist 1\ncallers 2\ngroup 0 0 e1 e2\ngroup 2 0 d1\n",
            1,
            b"illegal line 4\n",
            b"",
        ),
        (b"bqhist 1\ncallers 1\n", 0, b"legal 0 0\n", b""),
        (
            b"bqhist 1\ncallers 1\ngroup 0 0 d1\ngroup 0 1 dx\n",
            3,
            b"",
            b"bqd: line 4: bad number\n",
        ),
        (b"bqhist 1\n", 3, b"", b"bqd: line 2: bad word\n"),
    ];
    for (input, status, out, err) in table {
        ends(&rt, rt.alloc(), "check", input, status, out, err)?;
    }
    Ok(())
}

#[test]
fn schedules_are_played(rt: HostRuntime) -> Result<(), Fail> {
    let table: [(&[u8], u8, &[u8], &[u8]); 5] = [
        (
            b"bqplay 1\nshape 2 4 8 100 0\nstart 0 e5 e6 d\nuntil 0 install\nstart 1 d\nfinish 1\n",
            0,
            b"bqhist 1\ncallers 2\ngroup 1 0 d-\n# unfinished 0\n",
            b"",
        ),
        (
            b"bqplay 1\nshape 2 4 8 100 0\nstart 0 e5 e6 d\nuntil 0 link_chain\nstart 1 d\nfinish 1\n",
            0,
            b"bqhist 1\ncallers 2\ngroup 0 0 e5 e6 d5\ngroup 1 0 d6\n# unfinished 0\n",
            b"",
        ),
        (
            b"bqplay 1\nshape 3 4 8 100 0\nstart 0 e5 e6 d\nuntil 0 link_chain\nstart 1 d\nuntil 1 link_chain\nfinish 0\n\
              start 0 e7 e8\nfinish 0\nstart 0 e1 d d\nfinish 0\nfinish 1\n",
            0,
            b"bqhist 1\ncallers 3\ngroup 0 0 e5 e6 d5\ngroup 0 1 e7 e8\ngroup 0 2 e1 d6 d7\ngroup 1 0 d8\n",
            b"",
        ),
        (
            b"bqplay 1\nshape 1 4 8 100 0\nstart 0 e1\nstart 0 d\n",
            3,
            b"",
            b"bqd: line 4: busy caller\n",
        ),
        (
            b"bqplay 1\nshape 0 4 8 100 0\n",
            3,
            b"",
            b"bqd: line 2: bad number\n",
        ),
    ];
    for (input, status, out, err) in table {
        ends(&rt, rt.alloc(), "play", input, status, out, err)?;
    }
    Ok(())
}
