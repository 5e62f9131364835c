// Job files of every form, by few hands and by many.
use crate::cases::{Case, made, made_past, quiet_case};
use bulk_dispatcher::Gate;
use std::alloc::{AllocError, Global};
use std::sync::atomic::{AtomicU64, Ordering};
use std::test::Fail;

/// A file, each unit of which has so many jobs, and is put on the lane `unit mod lanes`; and the replies to it. Job i is
/// the sum of i and 1.
fn sums(
    alloc: Global,
    units: u32,
    jobs: u32,
    lanes: u32,
) -> Result<(Vec<u8>, Vec<u8>), AllocError> {
    let mut input = Vec::from_slice(alloc, b"bqjobs 1\n")?;
    let mut wanted = Vec::new(alloc);
    let mut number: u64 = 0;
    for unit in 0..units {
        let lane = unit % lanes.max(1);
        input.extend_from_slice(format!(in alloc; "block {lane}\n")?.as_bytes())?;
        for _ in 0..jobs {
            let sum = number.wrapping_add(1);
            input.extend_from_slice(format!(in alloc; "put sum {number} 1\n")?.as_bytes())?;
            wanted.extend_from_slice(format!(in alloc; "{number} {sum}\n")?.as_bytes())?;
            number = sum;
        }
        input.extend_from_slice(b"end\n")?;
    }
    Ok((input, wanted))
}

/// Hands and batches.
const CREWS: [&[&str]; 16] = [
    &["run", "1", "1"],
    &["run", "1", "2"],
    &["run", "1", "100"],
    &["run", "1", "256"],
    &["run", "2", "1"],
    &["run", "2", "2"],
    &["run", "2", "100"],
    &["run", "2", "256"],
    &["run", "3", "1"],
    &["run", "3", "2"],
    &["run", "3", "100"],
    &["run", "3", "256"],
    &["run", "16", "1"],
    &["run", "16", "2"],
    &["run", "16", "100"],
    &["run", "16", "256"],
];

#[test]
fn files_of_every_form_have_one_text(rt: HostRuntime) -> Result<(), Fail> {
    // No job; single jobs on one lane; units on all lanes; the longest block; and 300 units of three jobs on one lane,
    // of which a hand alone dequeues two for each three that it puts, until it has no row left.
    for (units, jobs, lanes) in [(0, 0, 1), (20, 1, 1), (40, 2, 16), (1, 100, 1), (300, 3, 1)] {
        let (input, wanted) = sums(rt.alloc(), units, jobs, lanes)?;
        for words in CREWS {
            made(&rt, rt.alloc(), &quiet_case(words, &input, 0, &wanted, b""))?;
        }
    }
    Ok(())
}

/// A file of eleven jobs in eight units on three lanes.
pub const NIGHTLY: &[u8] =
    b"bqjobs 1\n# nightly checks\n\njob 0 sum 10 20 30\nblock 1\nput digest 616263\n\
      put count 61 6162616361\nput words beta alpha beta\nend\njob 2 mix 7 0\nblock 0\n  put sum\n  put digest -\nend\n\
      job 1 count 00 -\njob 2 words one\njob 0 sum 18446744073709551615 1\njob 2 mix 0 2\n";

/// The replies to it.
pub const ELEVEN: &[u8] =
    b"0 60\n1 ba7816bf8f01cfea414140de5dae2223b00361a396177a9cb410ff61f20015ad\n2 3\n\
      3 alpha=1 beta=2\n4 7\n5 0\n\
      6 e3b0c44298fc1c149afbf4c8996fb92427ae41e4649b934ca495991b7852b855\n7 0\n8 one=1\n\
      9 18446744073709551616\n10 1876011003808476466\n";

#[test]
fn nightly_checks_are_answered(rt: HostRuntime) -> Result<(), Fail> {
    let table: [&[&str]; 3] = [
        &["run", "1", "1"],
        &["run", "4", "32"],
        &["run", "16", "200"],
    ];
    for words in table {
        let ended = made(&rt, rt.alloc(), &quiet_case(words, NIGHTLY, 0, ELEVEN, b""))?;
        assert!(rt; ended.replies.len() == 11 && ended.books.len() == 3);
    }
    let none = made(
        &rt,
        rt.alloc(),
        &quiet_case(&["run", "4", "8"], b"bqjobs 1\n", 0, b"", b""),
    )?;
    assert!(rt; none.books.is_empty());
    Ok(())
}

/// A gate at which the first of two hands to come waits for the other, and gives up after very many turns.
#[derive(Drop)]
struct Meeting {
    // 1 where hand 0 has come, and 2 more where another has.
    come: AtomicU64,
    given_up: AtomicU64,
}

impl Gate for Meeting {
    fn pass(&self, hand: u32, _job: u32) {
        let who = if hand == 0 { 1 } else { 2 };
        self.come.fetch_or(who, Ordering::SeqCst);
        for _ in 0..400_000_000 {
            if self.come.load(Ordering::SeqCst) == 3 {
                return;
            }
        }
        self.given_up.store(1, Ordering::SeqCst);
    }
}

#[test]
fn gate_two_hands(rt: HostRuntime) -> Result<(), Fail> {
    let gate = Meeting {
        come: AtomicU64::new(0),
        given_up: AtomicU64::new(0),
    };
    let input = b"bqjobs 1\njob 0 sum\njob 1 sum\n";
    let two = quiet_case(&["run", "2", "1"], input, 0, b"0 0\n1 0\n", b"");
    made_past(&rt, rt.alloc(), &two, &gate)?;
    assert_eq!(rt; gate.given_up.load(Ordering::SeqCst), 0);
    Ok(())
}

/// A call that reads no input.
fn drill_case<'a>(words: &'a [&'a str], out: &'a [u8]) -> Case<'a> {
    Case {
        kept: true,
        lists: true,
        ..quiet_case(words, b"bqjobs 1\n", 0, out, b"")
    }
}

// These two lines were found by another program.
const DRILL_1000: &[u8] = b"jobs 1000 lanes 3 bytes 24056 fold 7428808205539200284\n";

const DRILL_20000: &[u8] = b"jobs 20000 lanes 3 bytes 517369 fold 8952849037067524684\n";

#[test]
fn drills_tell_one_line(rt: HostRuntime) -> Result<(), Fail> {
    let table: [(&[&str], &[u8]); 6] = [
        (
            &["drill", "0", "1", "1"],
            b"jobs 0 lanes 0 bytes 0 fold 0\n",
        ),
        (
            &["drill", "1", "1", "1"],
            b"jobs 1 lanes 1 bytes 4 fold 1462249\n",
        ),
        (&["drill", "1000", "3", "256"], DRILL_1000),
        (&["drill", "1000", "1", "1"], DRILL_1000),
        (&["drill", "20000", "4", "32"], DRILL_20000),
        (&["drill", "20000", "4", "32"], DRILL_20000),
    ];
    for (words, line) in table {
        made(&rt, rt.alloc(), &drill_case(words, line))?;
    }
    Ok(())
}
