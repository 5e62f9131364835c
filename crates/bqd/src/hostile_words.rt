// Words on the command line that are no command, however near they come to one.
use crate::cases::{made, quiet_case};
use crate::hostile_tests::USAGE;
use std::alloc::{AllocError, Global};
use std::process::Abort;
use std::test::Fail;
use std::thread::Threads;

const INPUT: &[u8] = b"bqjobs 1\njob 0 sum 2 3\n";

/// Each of these lists of words must get the usage line, and leaves the input.
fn are_no_commands<R: Threads + Abort + Sync>(
    rt: &R,
    alloc: Global,
    table: &[&[&str]],
) -> Result<(), Fail> {
    for words in table {
        made(rt, alloc, &quiet_case(words, INPUT, 2, b"", USAGE))?;
    }
    Ok(())
}

#[test]
fn other_names_are_no_commands(rt: HostRuntime) -> Result<(), Fail> {
    let table: [&[&str]; 22] = [
        &[""],
        &["", ""],
        &[" "],
        &["run"],
        &["Run", "1", "1"],
        &["RUN", "1", "1"],
        &["run ", "1", "1"],
        &["run\n", "1", "1"],
        &["", "run", "1", "1"],
        &["ru\u{6e}\u{301}", "1", "1"],
        &["run 1 1"],
        &["check", ""],
        &["check", "check"],
        &["checks"],
        &["play", "-"],
        &["\u{feff}play"],
        &["gen"],
        &["drill"],
        &["--help"],
        &["--", "check"],
        &["\u{1b}[0m"],
        &["\u{10ffff}"],
    ];
    are_no_commands(&rt, rt.alloc(), &table)
}

#[test]
fn other_numbers_are_no_numbers(rt: HostRuntime) -> Result<(), Fail> {
    let table: [&[&str]; 30] = [
        &["run", "", "1"],
        &["run", "1", ""],
        &["run", "+1", "1"],
        &["run", "1", "-1"],
        &["run", " 1", "1"],
        &["run", "1 ", "1"],
        &["run", "1\n", "1"],
        &["run", "0x1", "1"],
        &["run", "1.0", "1"],
        &["run", "1e0", "1"],
        &["run", "1_0", "1"],
        &["run", "1,0", "1"],
        &["run", "one", "1"],
        &["run", "\u{661}", "1"],
        &["run", "\u{ff11}", "1"],
        &["run", "0", "1"],
        &["run", "17", "1"],
        &["run", "1", "0"],
        &["run", "1", "257"],
        &["run", "4294967297", "1"],
        &["run", "18446744073709551617", "1"],
        &["run", "1", "340282366920938463463374607431768211457"],
        &["gen", ""],
        &["gen", "-0"],
        &["gen", "500001"],
        &["gen", "18446744073709551619"],
        &["gen", "3", "3"],
        &["drill", "500001", "1", "1"],
        &["drill", "1", "0", "1"],
        &["drill", "1", "1", "1", "1"],
    ];
    are_no_commands(&rt, rt.alloc(), &table)
}

/// So many zeros, and then the text.
fn behind_zeros(alloc: Global, zeros: u32, text: &str) -> Result<String, AllocError> {
    let mut word = String::new(alloc);
    for _ in 0..zeros {
        word.push_str("0")?;
    }
    word.push_str(text)?;
    Ok(word)
}

#[test]
fn long_words_are_read_whole(rt: HostRuntime) -> Result<(), Fail> {
    let one = behind_zeros(rt.alloc(), 100_000, "1")?;
    let none = behind_zeros(rt.alloc(), 100_000, "x")?;
    let words: [&str; 3] = ["run", one.as_str(), one.as_str()];
    made(
        &rt,
        rt.alloc(),
        &quiet_case(&words, INPUT, 0, b"0 5\n", b""),
    )?;
    let more: [&str; 1000] = ["run"; 1000];
    let table: [&[&str]; 4] = [
        &["run", none.as_str(), "1"],
        &["run", "1", none.as_str()],
        &[none.as_str()],
        &more,
    ];
    are_no_commands(&rt, rt.alloc(), &table)
}
