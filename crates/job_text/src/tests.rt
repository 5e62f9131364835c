// Texts that are files, texts with a fault, and the replies' layout.
use crate::file::JobFile;
use crate::laws::{
    first_cause_of_a_line_is_named, first_faulty_line_is_named, longer_texts_are_alike,
};
use crate::read::read_jobs;
use crate::reply::print_reply;
use bq_model::{Text, TextCause, TextFault, TextRefused};
use job_work::{Job, answer};
use std::alloc::{AllocError, Global};
use std::process::Abort;
use std::test::Fail;

fn assert_fault(rt: &impl Abort, alloc: Global, text: &[u8], line: u32, cause: TextCause) {
    let wanted = TextRefused::Text(TextFault { line, cause });
    match read_jobs(alloc, text) {
        Ok(_) => panic!(rt; "read {text:?}"),
        Err(found) => assert_eq!(rt; found, wanted, "at {text:?}"),
    }
}

fn assert_unit(rt: &impl Abort, file: &JobFile, unit: usize, lane: u32, jobs: usize) {
    let units = file.units();
    assert!(rt; unit < units.len(), "unit {unit}");
    assert_eq!(rt; units[unit].lane, lane, "lane of unit {unit}");
    assert_eq!(rt; units[unit].jobs.len(), jobs, "jobs of unit {unit}");
}

#[test]
fn realistic_file_has_eleven_replies(rt: HostRuntime) -> Result<(), Fail> {
    let file = read_jobs(
        rt.alloc(),
        b"bqjobs 1\n# nightly checks\n\njob 0 sum 10 20 30\nblock 1\nput digest 616263\nput count 61 6162616361\n\
          put words beta alpha beta\nend\njob 2 mix 7 0\nblock 0\n  put sum\n  put digest -\nend\njob 1 count 00 -\n\
          job 2 words one\njob 0 sum 18446744073709551615 1\njob 2 mix 0 2\n",
    )?;
    assert_eq!(rt; file.units().len(), 8);
    assert_unit(&rt, &file, 0, 0, 1);
    assert_unit(&rt, &file, 1, 1, 3);
    assert_unit(&rt, &file, 3, 0, 2);
    assert_unit(&rt, &file, 7, 2, 1);
    assert_eq!(rt; file.count(), 11);
    let mut text = Text::new(rt.alloc());
    for job in 0..file.count() {
        if let Some((_, found)) = file.at(job) {
            print_reply(&mut text, job, &answer(rt.alloc(), found)?)?;
        }
    }
    let wanted =
        b"0 60\n1 ba7816bf8f01cfea414140de5dae2223b00361a396177a9cb410ff61f20015ad\n2 3\n3 alpha=1 beta=2\n4 7\n5 0\n\
          6 e3b0c44298fc1c149afbf4c8996fb92427ae41e4649b934ca495991b7852b855\n7 0\n8 one=1\n9 18446744073709551616\n\
          10 1876011003808476466\n";
    assert_eq!(rt; text.as_slice(), wanted.as_slice());
    Ok(())
}

#[test]
fn arguments_are_kept(rt: HostRuntime) -> Result<(), Fail> {
    let file = read_jobs(
        rt.alloc(),
        b"bqjobs 1\njob 015 count aF 00fF\njob 0 mix 18446744073709551615 1000000\njob 3 words b  a",
    )?;
    assert_eq!(rt; file.count(), 3);
    match file.at(0) {
        Some((lane, Job::Count { byte, bytes })) => {
            assert_eq!(rt; lane, 15);
            assert_eq!(rt; *byte, 0xaf);
            assert_eq!(rt; bytes.as_slice(), b"\x00\xff".as_slice());
        }
        _ => panic!(rt; "another job"),
    }
    match file.at(1) {
        Some((_, Job::Mix { start, turns })) => {
            assert_eq!(rt; *start, u64::MAX);
            assert_eq!(rt; *turns, 1_000_000);
        }
        _ => panic!(rt; "another job"),
    }
    assert!(rt; file.at(3).is_none());
    Ok(())
}

#[test]
fn texts_without_a_fault_are_read(rt: HostRuntime) -> Result<(), Fail> {
    let table: [(&[u8], u32); 12] = [
        (b"bqjobs 1", 0),
        (b"  bqjobs   1  \n", 0),
        (b"bqjobs 1\n\n   \n#\n # job 16 x\n", 0),
        (b"bqjobs 1\njob 0 sum", 1),
        (b"bqjobs 1\n  job  0  sum  2 ", 1),
        (b"bqjobs 1\njob 0 sum 007 0 18446744073709551615\n", 1),
        (b"bqjobs 1\nblock 0\nend\n", 0),
        (b"bqjobs 1\nblock 0\n\n#put\nput sum\nend\nblock 1\nend", 1),
        (b"bqjobs 1\njob 15 sum\njob 00015 sum\n", 2),
        (b"bqjobs 1\njob 0 digest ABcd\njob 0 digest -\n", 2),
        (b"bqjobs 1\njob 0 mix 0 1000000\njob 0 mix 0 0\n", 2),
        (b"bqjobs 1\njob 0 words\njob 0 words # sum ~\n", 2),
    ];
    for (text, count) in table {
        match read_jobs(rt.alloc(), text) {
            Ok(file) => assert_eq!(rt; file.count(), count, "{text:?}"),
            Err(_) => panic!(rt; "refused {text:?}"),
        }
    }
    Ok(())
}

#[test]
fn faults_of_lines_are_named(rt: HostRuntime) {
    use TextCause::{BadLane, BadNumber, BadWord, NoHeader, NotText, OpenBlock};
    let table: [(&[u8], u32, TextCause); 52] = [
        (b"", 1, NoHeader),
        (b"\n", 1, NoHeader),
        (b"\nbqjobs 1\n", 1, NoHeader),
        (b"# jobs\nbqjobs 1\n", 1, NoHeader),
        (b"bqjobs 1 1\n", 1, NoHeader),
        (b"bqjobs 01\n", 1, NoHeader),
        (b"bqjobs\n", 1, NoHeader),
        (b"bqhist 1\njob", 1, NoHeader),
        (b"bqjobs 1\r\n", 1, NotText),
        (b"bqjobs 1\njob 0 sum\r\n", 2, NotText),
        (b"bqjobs 1\njob 0 sum\t1\n", 2, NotText),
        (b"bqjobs 1\n#\x7f\n", 2, NotText),
        (b"bqjobs 1\njob 0 words \xc3\xa9\n", 2, NotText),
        (b"bqjobs 1\nwork 16 sum x \x01\n", 2, NotText),
        (b"bqjobs 1\n\n\njob 0 add\n", 4, BadWord),
        (b"bqjobs 1\njobs 0 sum\n", 2, BadWord),
        (b"bqjobs 1\nbqjobs 1\n", 2, BadWord),
        (b"bqjobs 1\njob\n", 2, BadWord),
        (b"bqjobs 1\njob 0\n", 2, BadWord),
        (b"bqjobs 1\njob x add\n", 2, BadWord),
        (b"bqjobs 1\njob 16 digest\n", 2, BadWord),
        (b"bqjobs 1\njob 0 digest 00 00\n", 2, BadWord),
        (b"bqjobs 1\njob 0 count 00\n", 2, BadWord),
        (b"bqjobs 1\njob 0 count x x x\n", 2, BadWord),
        (b"bqjobs 1\njob 0 mix 1\n", 2, BadWord),
        (b"bqjobs 1\njob 0 mix 1 1 1\n", 2, BadWord),
        (b"bqjobs 1\nend\n", 2, BadWord),
        (b"bqjobs 1\nput sum\n", 2, BadWord),
        (b"bqjobs 1\nblock\n", 2, BadWord),
        (b"bqjobs 1\nblock 16 1\n", 2, BadWord),
        (b"bqjobs 1\nblock 0\njob 0 sum\nend\n", 3, BadWord),
        (b"bqjobs 1\nblock 0\nblock 0\nend\n", 3, BadWord),
        (b"bqjobs 1\nblock 0\nput sum\nend 0\n", 4, BadWord),
        (b"bqjobs 1\nblock 0\nput\nend\n", 3, BadWord),
        (b"bqjobs 1\njob x sum\n", 2, BadNumber),
        (b"bqjobs 1\njob -1 sum\n", 2, BadNumber),
        (b"bqjobs 1\njob 18446744073709551616 sum\n", 2, BadNumber),
        (b"bqjobs 1\njob 16 sum x\n", 2, BadNumber),
        (
            b"bqjobs 1\njob 0 sum 1 18446744073709551616\n",
            2,
            BadNumber,
        ),
        (b"bqjobs 1\njob 0 digest 0\n", 2, BadNumber),
        (b"bqjobs 1\njob 0 digest 0g\n", 2, BadNumber),
        (b"bqjobs 1\njob 0 count 0 00\n", 2, BadNumber),
        (b"bqjobs 1\njob 0 count 000 00\n", 2, BadNumber),
        (b"bqjobs 1\njob 0 count - 00\n", 2, BadNumber),
        (b"bqjobs 1\njob 0 mix 0 1000001\n", 2, BadNumber),
        (b"bqjobs 1\njob 16 sum\n", 2, BadLane),
        (b"bqjobs 1\njob 18446744073709551615 sum\n", 2, BadLane),
        (b"bqjobs 1\nblock 16\n", 2, BadLane),
        (b"bqjobs 1\nblock 0\nput sum 1\n", 2, OpenBlock),
        (b"bqjobs 1\nblock 0\nend\n\nblock 1", 5, OpenBlock),
        (b"bqjobs 1\nblock 0\nput sum x\n", 3, BadNumber),
        (b"bqjobs 1\njob 16 sum\njob x sum\n", 2, BadLane),
    ];
    for (text, line, cause) in table {
        assert_fault(&rt, rt.alloc(), text, line, cause);
    }
}

#[test]
fn most_jobs_of_a_block_are_100(rt: HostRuntime) -> Result<(), Fail> {
    let mut text = b"bqjobs 1\nblock 0\n".to_vec(rt.alloc())?;
    for _ in 0..100 {
        text.extend_from_slice(b"put sum\n")?;
    }
    let whole = text.clone()?;
    text.extend_from_slice(b"end\n")?;
    let file = read_jobs(rt.alloc(), &text)?;
    assert_eq!(rt; file.count(), 100);
    assert_unit(&rt, &file, 0, 0, 100);

    let mut text = whole.clone()?;
    text.extend_from_slice(b"put sum\nend\n")?;
    assert_fault(&rt, rt.alloc(), &text, 103, TextCause::BlockTooLong);
    let mut text = whole;
    text.extend_from_slice(b"put sum x\nend\n")?;
    assert_fault(&rt, rt.alloc(), &text, 103, TextCause::BadNumber);
    Ok(())
}

#[test]
fn most_jobs_of_a_file_are_1000000(rt: HostRuntime) -> Result<(), Fail> {
    let mut text = b"bqjobs 1\n".to_vec(rt.alloc())?;
    for _ in 0..999_999 {
        text.extend_from_slice(b"job 0 sum\n")?;
    }
    let front = text.clone()?;
    text.extend_from_slice(b"job 0 sum\n")?;
    assert_eq!(rt; read_jobs(rt.alloc(), &text)?.count(), 1_000_000);
    text.extend_from_slice(b"job 0 sum\n")?;
    assert_fault(&rt, rt.alloc(), &text, 1_000_002, TextCause::TooMany);

    let mut text = front;
    text.extend_from_slice(b"block 0\nput sum\nput sum\n")?;
    assert_fault(&rt, rt.alloc(), &text, 1_000_003, TextCause::TooMany);
    Ok(())
}

/// A file of 999,900 jobs, and a block of 100 that is still open.
fn full_file_with_a_full_block(alloc: Global) -> Result<Vec<u8>, AllocError> {
    let mut text = b"bqjobs 1\n".to_vec(alloc)?;
    for _ in 0..999_900 {
        text.extend_from_slice(b"job 0 sum\n")?;
    }
    text.extend_from_slice(b"block 0\n")?;
    for _ in 0..100 {
        text.extend_from_slice(b"put sum\n")?;
    }
    Ok(text)
}

#[test]
fn first_cause_of_the_last_line_is_named(rt: HostRuntime) -> Result<(), Fail> {
    first_cause_of_a_line_is_named();
    let full = full_file_with_a_full_block(rt.alloc())?;
    let table: [(&[u8], u32, TextCause); 6] = [
        (b"put sum\n", 1_000_003, TextCause::BlockTooLong),
        (b"put sum x\n", 1_000_003, TextCause::BadNumber),
        (b"put add\n", 1_000_003, TextCause::BadWord),
        (b"end\njob 0 sum\n", 1_000_004, TextCause::TooMany),
        (b"end\njob 0 sum x\n", 1_000_004, TextCause::BadNumber),
        (b"end\njob 16 sum\n", 1_000_004, TextCause::BadLane),
    ];
    for (last, line, cause) in table {
        let mut text = full.clone()?;
        text.extend_from_slice(last)?;
        assert_fault(&rt, rt.alloc(), &text, line, cause);
    }
    Ok(())
}

#[test]
fn most_bytes_are_16777216(rt: HostRuntime) -> Result<(), Fail> {
    first_faulty_line_is_named();
    longer_texts_are_alike();
    let mut text = b"bqjobs 1\njob 0 sum 5 ".to_vec(rt.alloc())?;
    text.resize(16_777_216, b'0')?;
    assert_eq!(rt; read_jobs(rt.alloc(), &text)?.count(), 1);
    text.push(b'\t')?;
    assert_fault(&rt, rt.alloc(), &text, 0, TextCause::TooLong);
    Ok(())
}

#[test]
fn files_are_the_same_by_their_units(rt: HostRuntime) -> Result<(), Fail> {
    let texts = [
        b"bqjobs 1\n".as_slice(),
        b"bqjobs 1\njob 0 words a b\n".as_slice(),
        b"bqjobs 1\njob 0 words a\njob 0 words b\n".as_slice(),
        b"bqjobs 1\njob 1 words a b\n".as_slice(),
        b"bqjobs 1\njob 0 words b a\n".as_slice(),
        b"bqjobs 1\njob 0 count 61 62\n".as_slice(),
        b"bqjobs 1\njob 0 count 62 62\n".as_slice(),
    ];
    for (place, text) in texts.iter().enumerate() {
        let file = read_jobs(rt.alloc(), text)?;
        for (other_place, other) in texts.iter().enumerate() {
            let same = file.is_same(&read_jobs(rt.alloc(), other)?);
            assert_eq!(rt; same, place == other_place, "{place} and {other_place}");
        }
    }
    Ok(())
}
