// Calls of the program over streams in memory, and what they must leave.
use crate::command::{Command, command_of};
use crate::ended::Ended;
use crate::still::still;
use crate::top::top;
use bq_model::{MemorySink, MemorySource};
use bulk_dispatcher::{Gate, NoGate};
use std::alloc::{AllocError, Global};
use std::process::Abort;
use std::test::Fail;
use std::thread::Threads;

/// The words of a command.
pub const RUN: &[&str] = &["run", "1", "1"];

/// A call of the program with an input that comes in pieces, of which some reads and writes fail, and what the call
/// must leave.
#[derive(Clone, Copy)]
pub struct Case<'a> {
    pub words: &'a [&'a str],
    pub input: &'a [u8],
    pub read_piece: usize,
    pub failing_reads: &'a [u64],
    pub write_piece: usize,
    pub failing_writes: &'a [u64],
    pub failing_lines: &'a [u64],
    pub status: u8,
    /// Whether the input is not read.
    pub kept: bool,
    /// Whether replies and books are left.
    pub lists: bool,
    pub out: &'a [u8],
    pub err: &'a [u8],
}

/// A call of which nothing fails.
pub fn quiet_case<'a>(
    words: &'a [&'a str],
    input: &'a [u8],
    status: u8,
    out: &'a [u8],
    err: &'a [u8],
) -> Case<'a> {
    Case {
        words,
        input,
        read_piece: 1000,
        failing_reads: &[],
        write_piece: 1000,
        failing_writes: &[],
        failing_lines: &[],
        status,
        kept: status == 2,
        lists: status == 0,
        out,
        err,
    }
}

/// The words as the program is given them.
pub fn texts(alloc: Global, words: &[&str]) -> Result<Vec<String>, AllocError> {
    let mut texts = Vec::new(alloc);
    for word in words {
        texts.push(String::from_str(alloc, word)?)?;
    }
    Ok(texts)
}

/// A source of the input, and sinks for the output and for the line of an error.
fn streams(alloc: Global, case: &Case<'_>) -> Result<(MemorySource, MemorySink, MemorySink), Fail> {
    let bytes = case.input.to_vec(alloc)?;
    let reads = case.failing_reads.to_vec(alloc)?;
    let source = MemorySource::new(bytes, case.read_piece.max(1), reads);
    let writes = case.failing_writes.to_vec(alloc)?;
    let out = MemorySink::new(alloc, 1 << 20, case.write_piece.max(1), writes)?;
    let lines = case.failing_lines.to_vec(alloc)?;
    let err = MemorySink::new(alloc, 1 << 10, case.write_piece.max(1), lines)?;
    Ok((source, out, err))
}

/// Demands that the streams are left as the call must leave them.
fn assert_left(
    rt: &impl Abort,
    case: &Case<'_>,
    status: u8,
    source: &MemorySource,
    out: &MemorySink,
    err: &MemorySink,
) {
    assert!(rt; status == case.status, "the status is {status}");
    assert!(rt; out.bytes() == case.out, "what was written");
    assert!(rt; err.bytes() == case.err, "the line of the error");
    if case.kept {
        assert!(rt; source.left() == case.input, "the input is untouched");
    } else if case.status == 0 {
        assert!(rt; source.left().is_empty(), "the input was read to its end");
    }
}

/// Makes the call by `still`, if its words run no jobs, and demands that it leaves what it must.
fn made_still(rt: &impl Abort, alloc: Global, case: &Case<'_>) -> Result<(), Fail> {
    let words = texts(alloc, case.words)?;
    let (mut source, mut out, mut err) = streams(alloc, case)?;
    let status = match command_of(&words) {
        Some(Command::Run { .. }) => return Ok(()),
        Some(Command::Drill { .. }) => return Ok(()),
        _ => still(alloc, &words, &mut source, &mut out, &mut err),
    };
    assert_left(rt, case, status, &source, &out, &err);
    Ok(())
}

/// Makes the call, by `top` and also by `still` if its words run no jobs, and demands that it leaves what it must.
pub fn made<R: Threads + Abort + Sync>(
    rt: &R,
    alloc: Global,
    case: &Case<'_>,
) -> Result<Ended, Fail> {
    made_still(rt, alloc, case)?;
    made_past(rt, alloc, case, &NoGate)
}

/// Makes it by `top`, with a gate that the hands pass.
pub fn made_past<R: Threads + Abort + Sync, G: Gate>(
    rt: &R,
    alloc: Global,
    case: &Case<'_>,
    gate: &G,
) -> Result<Ended, Fail> {
    let words = texts(alloc, case.words)?;
    let (mut source, mut out, mut err) = streams(alloc, case)?;
    let ended = top(rt, alloc, &words, &mut source, &mut out, &mut err, gate);
    assert_left(rt, case, ended.status, &source, &out, &err);
    if !case.lists {
        assert!(rt;
            ended.replies.is_empty() && ended.books.is_empty(),
            "no lists"
        );
    }
    Ok(ended)
}
