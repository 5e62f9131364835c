// Texts that are files, texts with a fault, and the levels of jobs.
use crate::{
    Arg, DepFile, DepWork, Piece, first_cause_of_a_dep_line_is_named,
    first_faulty_line_of_deps_is_named, read_deps,
};
use bq_model::{OutOfMemory, Text, TextCause, TextFault, TextRefused};
use std::alloc::Global;
use std::process::Abort;
use std::test::Fail;

fn assert_fault(rt: &impl Abort, alloc: Global, text: &[u8], line: u32, cause: TextCause) {
    let wanted = TextRefused::Text(TextFault { line, cause });
    match read_deps(alloc, text) {
        Ok(_) => panic!(rt; "read {text:?}"),
        Err(found) => assert_eq!(rt; found, wanted, "at {text:?}"),
    }
}

#[test]
fn references_are_kept(rt: HostRuntime) -> Result<(), Fail> {
    let file = read_deps(
        rt.alloc(),
        b"bqdeps 1\njob 0 sum 2 3\n# counts what stands above\njob 1 count 35 @0\njob 0 mix @00 7\n\
          job 2 sum @0 @2 1\njob 15 digest @3\njob 3 digest @4\njob 4 words @0 b",
    )?;
    assert_eq!(rt; file.levels(), [0, 1, 1, 2, 3, 4, 0].as_slice());
    let jobs = file.jobs();
    assert_eq!(rt; jobs.len(), 7);
    assert_eq!(rt; jobs[4].lane, 15);
    match &jobs[1].work {
        DepWork::Count {
            byte,
            bytes: Piece::Of(job),
        } => assert!(rt; *byte == 0x35 && *job == 0),
        _ => panic!(rt; "another job"),
    }
    match &jobs[2].work {
        DepWork::Mix {
            start: Arg::Of(job),
            turns,
        } => assert!(rt; *job == 0 && *turns == 7),
        _ => panic!(rt; "another job"),
    }
    match &jobs[3].work {
        DepWork::Sum(args) => match args.as_slice() {
            [Arg::Of(first), Arg::Of(second), Arg::Number(number)] => {
                assert!(rt; *first == 0 && *second == 2 && *number == 1);
            }
            _ => panic!(rt; "other numbers"),
        },
        _ => panic!(rt; "another job"),
    }
    match &jobs[6].work {
        DepWork::Words(words) => assert_eq!(rt; words.len(), 2),
        _ => panic!(rt; "another job"),
    }
    Ok(())
}

#[test]
fn first_fault_is_named(rt: HostRuntime) {
    let table: [(&[u8], u32, TextCause); 20] = [
        (b"", 1, TextCause::NoHeader),
        (b"bqjobs 1\n", 1, TextCause::NoHeader),
        (b"bqdeps 1\njob 0 sum @0", 2, TextCause::BadNumber),
        (
            b"bqdeps 1\njob 0 words a\njob 0 sum @0",
            3,
            TextCause::BadWord,
        ),
        (
            b"bqdeps 1\njob 0 words a\njob 0 digest @0",
            3,
            TextCause::BadWord,
        ),
        (
            b"bqdeps 1\njob 0 words a\njob 0 count 00 @0",
            3,
            TextCause::BadWord,
        ),
        (
            b"bqdeps 1\njob 0 digest -\njob 0 mix @0 1",
            3,
            TextCause::BadWord,
        ),
        (
            b"bqdeps 1\njob 0 digest -\njob 0 sum 1 @0",
            3,
            TextCause::BadWord,
        ),
        (
            b"bqdeps 1\njob 0 sum\njob 0 sum @1",
            3,
            TextCause::BadNumber,
        ),
        (b"bqdeps 1\njob 0 sum\njob 0 sum @", 3, TextCause::BadNumber),
        (
            b"bqdeps 1\njob 0 sum\njob 0 sum @-",
            3,
            TextCause::BadNumber,
        ),
        (
            b"bqdeps 1\njob 0 sum\njob 0 sum @4294967296",
            3,
            TextCause::BadNumber,
        ),
        (
            b"bqdeps 1\njob 0 sum\njob 0 mix 1 @0",
            3,
            TextCause::BadNumber,
        ),
        (
            b"bqdeps 1\njob 0 sum\njob 0 count @0 -",
            3,
            TextCause::BadNumber,
        ),
        // A reference to words behind a bad number, beside a bad byte and behind a bad lane.
        (
            b"bqdeps 1\njob 0 words\njob 0 sum x @0",
            3,
            TextCause::BadWord,
        ),
        (
            b"bqdeps 1\njob 0 words\njob 0 count 1 @0",
            3,
            TextCause::BadWord,
        ),
        (
            b"bqdeps 1\njob 0 words\njob 16 sum @0",
            3,
            TextCause::BadWord,
        ),
        (b"bqdeps 1\njob 16 sum @0", 2, TextCause::BadNumber),
        (b"bqdeps 1\njob 16 sum", 2, TextCause::BadLane),
        (b"bqdeps 1\nblock 0", 2, TextCause::BadWord),
    ];
    for (text, line, cause) in table {
        assert_fault(&rt, rt.alloc(), text, line, cause);
    }
    first_faulty_line_of_deps_is_named();
    first_cause_of_a_dep_line_is_named();
}

// A file in which so many jobs name each the one before it.
fn chain(alloc: Global, jobs: u32) -> Result<Text, OutOfMemory> {
    let mut text = Text::new(alloc);
    text.append_parts(&[b"bqdeps 1\njob 0 sum\n"])?;
    for before in 1..jobs {
        let line = format!(in alloc; "job 0 sum @{}\n", before - 1)?;
        text.append_parts(&[line.as_bytes()])?;
    }
    Ok(text)
}

#[test]
fn level_31_is_the_greatest(rt: HostRuntime) -> Result<(), Fail> {
    let file = read_deps(rt.alloc(), chain(rt.alloc(), 32)?.as_slice())?;
    assert!(rt; file.levels().last() == Some(&31));
    let deeper = chain(rt.alloc(), 33)?;
    assert_fault(&rt, rt.alloc(), deeper.as_slice(), 34, TextCause::TooDeep);
    Ok(())
}

// A file of so many jobs, which name none.
fn plain(alloc: Global, jobs: u32) -> Result<Text, OutOfMemory> {
    let mut text = Text::new(alloc);
    text.append_parts(&[b"bqdeps 1\n"])?;
    for _job in 0..jobs {
        text.append_parts(&[b"job 1 sum\n"])?;
    }
    Ok(text)
}

#[test]
fn job_100001_is_one_too_many(rt: HostRuntime) -> Result<(), Fail> {
    let file: DepFile = read_deps(rt.alloc(), plain(rt.alloc(), 100_000)?.as_slice())?;
    assert_eq!(rt; file.jobs().len(), 100_000);
    let more = plain(rt.alloc(), 100_001)?;
    assert_fault(
        &rt,
        rt.alloc(),
        more.as_slice(),
        100_002,
        TextCause::TooMany,
    );
    Ok(())
}
