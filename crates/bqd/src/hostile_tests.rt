// The program at what comes from outside at its worst: inputs that are cut, too long or without an end, reads and writes that
// fail, each in turn, and devices that give and take one byte at a time.
use crate::cases::{Case, RUN, made, quiet_case, texts};
use crate::line::fault_line;
use crate::run_tests::{ELEVEN, NIGHTLY};
use crate::tests::Endless;
use crate::top::top;
use crate::verdict_line::verdict_line;
use bq_model::{MemorySink, Text, TextRefused};
use bulk_dispatcher::NoGate;
use job_text::{JobFile, print_reply, read_jobs};
use job_work::answer;
use std::alloc::{AllocError, Global};
use std::process::Abort;
use std::test::Fail;
use std::thread::Threads;
use trace_text::{Verdict, check_history, play_schedule};

const HISTORY: &[u8] = b"bqhist 1\ncallers 2\ngroup 0 0 e1 e2\ngroup 1 0 d1 d2 d-\n";

const WRONG: &[u8] = b"bqhist 1\ncallers 2\ngroup 0 0 e1 e2\ngroup 1 0 d2\n";

const SCHEDULE: &[u8] =
    b"bqplay 1\nshape 2 4 8 100 0\nstart 0 e5 e6 d\nuntil 0 link_chain\nstart 1 d\nfinish 1\n";

const PLAYED: &[u8] = b"bqhist 1\ncallers 2\ngroup 0 0 e5 e6 d5\ngroup 1 0 d6\n# unfinished 0\n";

const MADE: &[u8] =
    b"bqjobs 1\njob 0 sum 0 1\nblock 1\nput digest 00000001\nput count 00 00000002\nend\n";

pub const USAGE: &[u8] =
    b"usage: bqd run <hands> <batch> | check | play | gen <n> | drill <n> <hands> <batch>\n";

/// A call that reads no input.
fn unread<'a>(words: &'a [&'a str], out: &'a [u8], lists: bool) -> Case<'a> {
    Case {
        kept: true,
        lists,
        ..quiet_case(words, HISTORY, 0, out, b"")
    }
}

/// A call that reads a text and runs no job.
fn judged<'a>(words: &'a [&'a str], input: &'a [u8], status: u8, out: &'a [u8]) -> Case<'a> {
    Case {
        lists: false,
        ..quiet_case(words, input, status, out, b"")
    }
}

/// A call of each command at each status that its words and its input can bring, and one of words that are no command.
fn calls() -> [Case<'static>; 12] {
    [
        quiet_case(RUN, NIGHTLY, 0, ELEVEN, b""),
        quiet_case(&["run", "4", "32"], NIGHTLY, 0, ELEVEN, b""),
        quiet_case(RUN, b"bqjobs 1\nend\n", 3, b"", b"bqd: line 2: bad word\n"),
        judged(&["check"], HISTORY, 0, b"legal 2 5\n"),
        judged(&["check"], WRONG, 1, b"illegal line 4\n"),
        quiet_case(
            &["check"],
            b"bqhist 1\ncallers 0\n",
            3,
            b"",
            b"bqd: line 2: bad number\n",
        ),
        judged(&["play"], SCHEDULE, 0, PLAYED),
        quiet_case(
            &["play"],
            b"bqplay 1\nshape 18 4 8 100 0\n",
            3,
            b"",
            b"bqd: line 2: bad number\n",
        ),
        unread(&["gen", "3"], MADE, false),
        unread(
            &["drill", "1", "1", "1"],
            b"jobs 1 lanes 1 bytes 4 fold 1462249\n",
            true,
        ),
        quiet_case(&["run"], NIGHTLY, 2, b"", USAGE),
        quiet_case(&[], NIGHTLY, 2, b"", USAGE),
    ]
}

#[test]
fn devices_of_one_byte_make_no_difference(rt: HostRuntime) -> Result<(), Fail> {
    for call in &calls() {
        let slow = Case {
            read_piece: 1,
            write_piece: 1,
            ..*call
        };
        made(&rt, rt.alloc(), &slow)?;
    }
    Ok(())
}

/// How many pieces of sixteen bytes there are in so many.
fn pieces(bytes: usize) -> u64 {
    bytes.div_ceil(16) as u64
}

#[test]
fn each_read_that_fails_ends_the_program(rt: HostRuntime) -> Result<(), Fail> {
    for call in &calls() {
        let reads = if call.kept {
            0
        } else {
            pieces(call.input.len()).saturating_add(1)
        };
        for number in 0..reads {
            let failing = Case {
                read_piece: 16,
                failing_reads: &[number],
                status: 4,
                lists: false,
                out: b"",
                err: b"",
                ..*call
            };
            made(&rt, rt.alloc(), &failing)?;
        }
        // The read behind the last one is not made.
        let quiet = Case {
            read_piece: 16,
            failing_reads: &[reads],
            ..*call
        };
        made(&rt, rt.alloc(), &quiet)?;
    }
    Ok(())
}

/// Makes the call with the write of this number failing, to each of the two sinks, and demands that it ends so, with these
/// bytes of its text written.
fn made_failing<R: Threads + Abort + Sync>(
    rt: &R,
    alloc: Global,
    call: &Case<'_>,
    number: u64,
    status: u8,
    bytes: usize,
) -> Result<(), Fail> {
    let failing = Case {
        write_piece: 16,
        failing_writes: &[number],
        failing_lines: &[number],
        status,
        lists: call.lists && status == 0,
        out: call.out.get(..bytes).unwrap_or(call.out),
        err: call.err.get(..bytes).unwrap_or(call.err),
        ..*call
    };
    made(rt, alloc, &failing)?;
    Ok(())
}

#[test]
fn each_write_that_fails_leaves_a_front_of_the_text(rt: HostRuntime) -> Result<(), Fail> {
    for call in &calls() {
        let text = call.out.len().saturating_add(call.err.len());
        for number in 0..pieces(text) {
            made_failing(
                &rt,
                rt.alloc(),
                call,
                number,
                5,
                (number as usize).saturating_mul(16),
            )?;
        }
        // The write behind the last one is not made.
        made_failing(&rt, rt.alloc(), call, pieces(text), call.status, text)?;
    }
    Ok(())
}

#[test]
fn faults_of_a_job_file_are_named(rt: HostRuntime) -> Result<(), Fail> {
    let table: [(&[u8], &[u8]); 5] = [
        (b"bqjobs 1\nend\n", b"bqd: line 2: bad word\n"),
        (b"bqjobs 1\nblock 0\nblock 1\n", b"bqd: line 3: bad word\n"),
        (
            b"bqjobs 1\njob 0 sum 18446744073709551616\n",
            b"bqd: line 2: bad number\n",
        ),
        (
            b"bqjobs 1\njob 0 digest 616\n",
            b"bqd: line 2: bad number\n",
        ),
        (b"bqjobs 1\njob 16 sum x\n", b"bqd: line 2: bad number\n"),
    ];
    for (input, line) in table {
        made(&rt, rt.alloc(), &quiet_case(RUN, input, 3, b"", line))?;
    }
    Ok(())
}

/// The replies to a file that the file of eleven begins with, whose last line may be cut: but for its last job's, they are
/// those to the whole file.
fn replies_to(alloc: Global, file: &JobFile) -> Result<Vec<u8>, Fail> {
    let mut replies = Vec::new(alloc);
    let count = file.count();
    let last = count.saturating_sub(1);
    for line in ELEVEN
        .split_inclusive(|byte| *byte == b'\n')
        .take(last as usize)
    {
        replies.extend_from_slice(line)?;
    }
    if let Some((_, job)) = file.at(last) {
        let mut line = Text::new(alloc);
        print_reply(&mut line, last, &answer(alloc, job)?)?;
        replies.extend_from_slice(line.as_slice())?;
    }
    Ok(replies)
}

#[test]
fn file_that_is_cut_is_answered_or_refused(rt: HostRuntime) -> Result<(), Fail> {
    let mut refused: usize = 0;
    for length in 0..NIGHTLY.len() {
        let input = NIGHTLY.get(..length).unwrap_or(b"");
        match read_jobs(rt.alloc(), input) {
            Ok(file) => {
                let replies = replies_to(rt.alloc(), &file)?;
                made(&rt, rt.alloc(), &quiet_case(RUN, input, 0, &replies, b""))?;
            }
            Err(TextRefused::Text(fault)) => {
                let line = fault_line(fault);
                refused = refused.saturating_add(1);
                made(
                    &rt,
                    rt.alloc(),
                    &quiet_case(RUN, input, 3, b"", line.as_bytes()),
                )?;
            }
            Err(TextRefused::Memory) => panic!(rt; "memory was lacking"),
        }
    }
    assert!(rt;
        100 < refused && refused < NIGHTLY.len(),
        "{refused} were refused"
    );
    Ok(())
}

/// Cut within the number of a dequeue it is illegal.
const LONG_HISTORY: &[u8] =
    b"bqhist 1\n# two callers\ncallers 2\ngroup 0 0 e10 e20\ngroup 1 0 d10\n\n  group 0 1 e30 d20 d30 d-\n";

/// Checks this text, demands that it is judged or refused as it should be, and gives the status.
fn checked<R: Threads + Abort + Sync>(rt: &R, alloc: Global, input: &[u8]) -> Result<u8, Fail> {
    match check_history(alloc, input) {
        Ok(verdict) => {
            let status = u8::from(matches!(verdict, Verdict::Illegal { .. }));
            let line = verdict_line(verdict);
            let case = judged(&["check"], input, status, line.as_bytes());
            made(rt, alloc, &case)?;
            Ok(status)
        }
        Err(TextRefused::Text(fault)) => {
            let line = fault_line(fault);
            let case = quiet_case(&["check"], input, 3, b"", line.as_bytes());
            made(rt, alloc, &case)?;
            Ok(3)
        }
        Err(TextRefused::Memory) => panic!(rt; "memory was lacking"),
    }
}

#[test]
fn history_that_is_cut_is_judged_or_refused(rt: HostRuntime) -> Result<(), Fail> {
    let (mut legal, mut illegal, mut refused): (usize, usize, usize) = (0, 0, 0);
    for length in 0..LONG_HISTORY.len() {
        let input = LONG_HISTORY.get(..length).unwrap_or(b"");
        match checked(&rt, rt.alloc(), input)? {
            0 => legal = legal.saturating_add(1),
            1 => illegal = illegal.saturating_add(1),
            _ => refused = refused.saturating_add(1),
        }
    }
    assert!(rt;
        illegal == 3 && legal > 0 && refused > 0,
        "{legal} were legal, {illegal} illegal, and {refused} refused"
    );
    Ok(())
}

#[test]
fn schedule_that_is_cut_is_played_or_refused(rt: HostRuntime) -> Result<(), Fail> {
    let mut played: usize = 0;
    for length in 0..SCHEDULE.len() {
        let input = SCHEDULE.get(..length).unwrap_or(b"");
        match play_schedule(rt.alloc(), input) {
            Ok(text) => {
                played = played.saturating_add(1);
                let case = judged(&["play"], input, 0, text.as_slice());
                made(&rt, rt.alloc(), &case)?;
            }
            Err(TextRefused::Text(fault)) => {
                let line = fault_line(fault);
                let case = quiet_case(&["play"], input, 3, b"", line.as_bytes());
                made(&rt, rt.alloc(), &case)?;
            }
            Err(TextRefused::Memory) => panic!(rt; "memory was lacking"),
        }
    }
    assert!(rt;
        0 < played && played < SCHEDULE.len(),
        "{played} were played"
    );
    Ok(())
}

/// The header of such a text, and then zeros, one byte more than a text may have.
fn long_text(alloc: Global, header: &[u8]) -> Result<Vec<u8>, AllocError> {
    let mut input = Vec::from_slice(alloc, header)?;
    input.resize(16_777_217, b'0')?;
    Ok(input)
}

#[test]
fn texts_that_are_too_long_are_refused(rt: HostRuntime) -> Result<(), Fail> {
    let table: [(&[&str], &[u8]); 3] = [
        (RUN, b"bqjobs 1\n"),
        (&["check"], b"bqhist 1\ncallers 2\n"),
        (&["play"], b"bqplay 1\nshape 1 1 1 1 0\n"),
    ];
    for (words, header) in table {
        let input = long_text(rt.alloc(), header)?;
        let whole = Case {
            read_piece: 1 << 20,
            ..quiet_case(words, &input, 3, b"", b"bqd: line 0: too long\n")
        };
        made(&rt, rt.alloc(), &whole)?;
    }
    Ok(())
}

#[test]
fn input_without_an_end_is_refused_or_left(rt: HostRuntime) -> Result<(), Fail> {
    // 256 pieces of 65,536 bytes, and one byte; and no read at all.
    let table: [(&[&str], u8, &[u8], u64); 6] = [
        (RUN, 3, b"bqd: line 0: too long\n", 257),
        (&["check"], 3, b"bqd: line 0: too long\n", 257),
        (&["play"], 3, b"bqd: line 0: too long\n", 257),
        (&["gen", "3"], 0, b"", 0),
        (&["drill", "1", "1", "1"], 0, b"", 0),
        (&["run"], 2, USAGE, 0),
    ];
    for (words, status, line, reads) in table {
        let words = texts(rt.alloc(), words)?;
        let mut source = Endless { reads: 0 };
        let mut out = MemorySink::new(rt.alloc(), 1 << 10, 1 << 10, Vec::new(rt.alloc()))?;
        let mut err = MemorySink::new(rt.alloc(), 1 << 10, 1 << 10, Vec::new(rt.alloc()))?;
        let ended = top(
            &rt,
            rt.alloc(),
            &words,
            &mut source,
            &mut out,
            &mut err,
            &NoGate,
        );
        assert_eq!(rt; ended.status, status, "{words:?}");
        assert!(rt; err.bytes() == line, "{words:?}");
        assert_eq!(rt; source.reads, reads, "{words:?}");
    }
    Ok(())
}
