// The program over streams in memory.
use crate::cases::{Case, RUN, made, made_past, quiet_case};
use bulk_dispatcher::Gate;
use std::alloc::{AllocError, Global};
use std::sync::atomic::{AtomicU64, Ordering};
use std::test::Fail;

const USAGE: &[u8] =
    b"usage: bqd run <hands> <batch> | check | play | gen <n> | drill <n> <hands> <batch>\n";

const TWO_LINES: &[u8] = b"bqjobs 1\njob 0 sum 2 3\n";

/// A call of the generator, which reads no input.
fn gen_case<'a>(words: &'a [&'a str], out: &'a [u8]) -> Case<'a> {
    Case {
        kept: true,
        lists: false,
        ..quiet_case(words, TWO_LINES, 0, out, b"")
    }
}

#[test]
fn two_lines_are_answered(rt: HostRuntime) -> Result<(), Fail> {
    let ended = made(
        &rt,
        rt.alloc(),
        &quiet_case(RUN, TWO_LINES, 0, b"0 5\n", b""),
    )?;
    assert_eq!(rt; ended.books.len(), 1);
    let replies = ended.replies.as_slice();
    assert_eq!(rt; replies.len(), 1);
    let reply = &replies[0];
    assert!(rt; reply.job() == 0 && reply.lane() == 0);
    // Its unit was a dequeue, which found nothing, and its enqueue.
    assert!(rt; reply.caller() == 0 && reply.serial() == 2);
    assert!(rt; reply.text().as_slice() == b"5".as_slice());
    Ok(())
}

/// A gate that adds up the numbers of the jobs, counted from 1, and a thousand for each hand but the first.
#[derive(Drop)]
struct Passes {
    sum: AtomicU64,
}

impl Gate for Passes {
    fn pass(&self, hand: u32, job: u32) {
        let weight = u64::from(job) + 1 + 1000 * u64::from(hand);
        self.sum.fetch_add(weight, Ordering::SeqCst);
    }
}

#[test]
fn each_job_passes_the_gate_once(rt: HostRuntime) -> Result<(), Fail> {
    let gate = Passes {
        sum: AtomicU64::new(0),
    };
    let input = b"bqjobs 1\njob 0 sum\njob 0 sum 1\njob 0 sum 2\n";
    let three = quiet_case(RUN, input, 0, b"0 0\n1 1\n2 2\n", b"");
    made_past(&rt, rt.alloc(), &three, &gate)?;
    assert_eq!(rt; gate.sum.load(Ordering::SeqCst), 6);
    Ok(())
}

#[test]
fn every_kind_of_job_is_answered(rt: HostRuntime) -> Result<(), Fail> {
    let digests = b"bqjobs 1\njob 0 digest 616263\njob 0 digest -\n";
    let cases = [
        quiet_case(RUN, b"bqjobs 1\n", 0, b"", b""),
        quiet_case(&["run", "01", "1"], TWO_LINES, 0, b"0 5\n", b""),
        quiet_case(
            RUN,
            digests,
            0,
            b"0 ba7816bf8f01cfea414140de5dae2223b00361a396177a9cb410ff61f20015ad\n\
              1 e3b0c44298fc1c149afbf4c8996fb92427ae41e4649b934ca495991b7852b855\n",
            b"",
        ),
        quiet_case(
            RUN,
            b" bqjobs 1\n# single jobs\n\njob 0 count 61 6162616361\njob 00 mix 0 2\n\
              job 0 words b a b\nblock 0\nend\nblock 0\n  put  sum 7 \nend",
            0,
            b"0 3\n1 1876011003808476466\n2 a=1 b=2\n3 7\n",
            b"",
        ),
    ];
    for case in &cases {
        made(&rt, rt.alloc(), case)?;
    }
    Ok(())
}

#[test]
fn faults_are_told_by_line_and_cause(rt: HostRuntime) -> Result<(), Fail> {
    let table: [(&[u8], &[u8]); 7] = [
        (b"", b"bqd: line 1: no header\n"),
        (b"bqjobs 1\njob 16 sum\n", b"bqd: line 2: bad lane\n"),
        (b"bqjobs 1\njob 0 sum\r\n", b"bqd: line 2: not text\n"),
        (
            b"bqjobs 1\nblock 0\nput sum 1\n",
            b"bqd: line 2: open block\n",
        ),
        (
            b"bqjobs 1\njob 0 mix 0 1000001\n",
            b"bqd: line 2: bad number\n",
        ),
        (b"bqjobs 1\njob 0 sum 1\nwork\n", b"bqd: line 3: bad word\n"),
        (
            b"bqjobs 1\njob 1 sum 2\njob 0 sum x\n",
            b"bqd: line 3: bad number\n",
        ),
    ];
    for (input, line) in table {
        made(&rt, rt.alloc(), &quiet_case(RUN, input, 3, b"", line))?;
    }
    Ok(())
}

/// A block of so many puts, and the replies to them.
fn puts(alloc: Global, count: u32) -> Result<(Vec<u8>, Vec<u8>), AllocError> {
    let mut input = Vec::from_slice(alloc, b"bqjobs 1\nblock 0\n")?;
    let mut wanted = Vec::new(alloc);
    for i in 0..count {
        input.extend_from_slice(b"put sum\n")?;
        wanted.extend_from_slice(format!(in alloc; "{i} 0\n")?.as_bytes())?;
    }
    input.extend_from_slice(b"end\n")?;
    Ok((input, wanted))
}

#[test]
fn a_block_has_at_most_100_jobs(rt: HostRuntime) -> Result<(), Fail> {
    let (most, wanted) = puts(rt.alloc(), 100)?;
    made(&rt, rt.alloc(), &quiet_case(RUN, &most, 0, &wanted, b""))?;
    let (more, _) = puts(rt.alloc(), 101)?;
    let line = b"bqd: line 103: block too long\n";
    made(&rt, rt.alloc(), &quiet_case(RUN, &more, 3, b"", line))?;
    Ok(())
}

#[test]
fn other_words_get_the_usage_line(rt: HostRuntime) -> Result<(), Fail> {
    let table: [&[&str]; 11] = [
        &[],
        &["drill", "1", "1"],
        &["run", "0", "1"],
        &["run", "17", "1"],
        &["run", "1", "257"],
        &["run", "1"],
        &["run", "1", "x"],
        &["gen"],
        &["gen", "500001"],
        &["gen", "-1"],
        &["gen", "1", "1"],
    ];
    for words in table {
        made(
            &rt,
            rt.alloc(),
            &quiet_case(words, TWO_LINES, 2, b"", USAGE),
        )?;
    }
    Ok(())
}

/// What `gen 3` prints.
const THREE_JOBS: &[u8] =
    b"bqjobs 1\njob 0 sum 0 1\nblock 1\nput digest 00000001\nput count 00 00000002\nend\n";

#[test]
fn job_files_are_made_from_a_number(rt: HostRuntime) -> Result<(), Fail> {
    let seven =
        b"bqjobs 1\njob 0 sum 0 1\nblock 1\nput digest 00000001\nput count 00 00000002\nend\n\
          block 2\nput mix 3 100\nput words w4 x w4\nput sum 5 6\nend\njob 0 digest 00000006\n";
    let cases = [
        gen_case(&["gen", "3"], THREE_JOBS),
        gen_case(&["gen", "0"], b"bqjobs 1\n"),
        gen_case(&["gen", "007"], seven),
        Case {
            write_piece: 10,
            failing_writes: &[2],
            status: 5,
            ..gen_case(&["gen", "3"], b"bqjobs 1\njob 0 sum 0")
        },
    ];
    for case in &cases {
        made(&rt, rt.alloc(), case)?;
    }
    Ok(())
}

#[test]
fn failing_streams_are_named(rt: HostRuntime) -> Result<(), Fail> {
    let cases = [
        Case {
            read_piece: 8,
            failing_reads: &[1],
            ..quiet_case(RUN, TWO_LINES, 4, b"", b"")
        },
        Case {
            write_piece: 3,
            failing_writes: &[1],
            ..quiet_case(RUN, TWO_LINES, 5, b"0 5", b"")
        },
        Case {
            failing_lines: &[0],
            ..quiet_case(&["run"], TWO_LINES, 5, b"", b"")
        },
        Case {
            failing_lines: &[0],
            ..quiet_case(RUN, b"x", 5, b"", b"")
        },
    ];
    for case in &cases {
        made(&rt, rt.alloc(), case)?;
    }
    Ok(())
}

#[test]
fn pieces_make_no_difference(rt: HostRuntime) -> Result<(), Fail> {
    let input = b"bqjobs 1\njob 0 sum 2 3\njob 0 sum\njob 0 sum 18446744073709551615 1\n";
    let out = b"0 5\n1 0\n2 18446744073709551616\n";
    for piece in [1, 7, 4096] {
        let pieces = Case {
            read_piece: piece,
            write_piece: piece,
            ..quiet_case(RUN, input, 0, out, b"")
        };
        made(&rt, rt.alloc(), &pieces)?;
    }
    Ok(())
}

/// A file of so many sums `i + 1`, and its replies.
fn sums(alloc: Global, count: u32) -> Result<(Vec<u8>, Vec<u8>), AllocError> {
    let mut input = Vec::from_slice(alloc, b"bqjobs 1\n")?;
    let mut wanted = Vec::new(alloc);
    for i in 0..count {
        let sum = u64::from(i) + 1;
        input.extend_from_slice(format!(in alloc; "job 0 sum {i} 1\n")?.as_bytes())?;
        wanted.extend_from_slice(format!(in alloc; "{i} {sum}\n")?.as_bytes())?;
    }
    Ok((input, wanted))
}

#[test]
fn ten_thousand_sums_are_answered_in_order(rt: HostRuntime) -> Result<(), Fail> {
    let (input, wanted) = sums(rt.alloc(), 10_000)?;
    made(&rt, rt.alloc(), &quiet_case(RUN, &input, 0, &wanted, b""))?;
    Ok(())
}
