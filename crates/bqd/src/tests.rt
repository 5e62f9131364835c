// Words that are commands, lines as they are printed, and streams that come in pieces or fail.
use crate::command::{Command, command_of};
use crate::input::{MAX_READ, read_input};
use crate::line::fault_line;
use crate::usage::usage;
use bq_model::{Failed, Source, TextCause, TextFault};
use byte_streams::InputFault;
use std::alloc::{AllocError, Global};
use std::test::Fail;

/// A source of these bytes that gives at most `step` of them at once and fails at read `fails_at`, from 1.
#[derive(Drop)]
struct Drip<'a> {
    rest: &'a [u8],
    step: usize,
    reads: u64,
    fails_at: u64,
}

impl Source for Drip<'_> {
    ghost use Rattle.std.specs.Prelude.{None};

    ghost left = { λ _. None };

    ghost faults = { λ s. s.reads };

    fn read(&mut self, buf: &mut [u8]) -> Result<usize, Failed> {
        self.reads = self.reads.saturating_add(1);
        if self.reads == self.fails_at {
            return Err(Failed);
        }
        let n = self.step.min(self.rest.len()).min(buf.len());
        buf[..n].copy_from_slice(&self.rest[..n]);
        self.rest = &self.rest[n..];
        Ok(n)
    }
}

/// A source without an end, which counts its reads.
#[derive(Drop)]
pub struct Endless {
    pub reads: u64,
}

impl Source for Endless {
    ghost use Rattle.std.specs.Prelude.{None};

    ghost left = { λ _. None };

    ghost faults = { λ _. 0 };

    fn read(&mut self, buf: &mut [u8]) -> Result<usize, Failed> {
        self.reads = self.reads.saturating_add(1);
        Ok(buf.len())
    }
}

fn words(alloc: Global, texts: &[&str]) -> Result<Vec<String>, AllocError> {
    let mut words = Vec::new(alloc);
    for text in texts {
        words.push(String::from_str(alloc, text)?)?;
    }
    Ok(words)
}

#[test]
fn words_are_commands_or_none(rt: HostRuntime) -> Result<(), Fail> {
    let table: [(&[&str], Option<Command>); 18] = [
        (
            &["run", "1", "1"],
            Some(Command::Run { hands: 1, batch: 1 }),
        ),
        (
            &["run", "01", "1"],
            Some(Command::Run { hands: 1, batch: 1 }),
        ),
        (
            &["run", "16", "256"],
            Some(Command::Run {
                hands: 16,
                batch: 256,
            }),
        ),
        (&["run", "0", "1"], None),
        (&["run", "17", "1"], None),
        (&["run", "1", "0"], None),
        (&["run", "1", "257"], None),
        (&["run", "1", "+1"], None),
        (&["run", "1"], None),
        (&["run", "1", "1", "1"], None),
        (&["Run", "1", "1"], None),
        (&["gen", "007"], Some(Command::Gen { jobs: 7 })),
        (&["gen", "500001"], None),
        (
            &["drill", "0", "2", "256"],
            Some(Command::Drill {
                jobs: 0,
                hands: 2,
                batch: 256,
            }),
        ),
        (&["drill", "500001", "2", "1"], None),
        (&["drill", "1", "17", "1"], None),
        (&["drill", "1", "1"], None),
        (&[], None),
    ];
    for (texts, wanted) in table {
        assert_eq!(rt; command_of(&words(rt.alloc(), texts)?), wanted);
    }
    Ok(())
}

#[test]
fn lines_read_as_they_should(rt: HostRuntime) {
    let named =
        "usage: bqd run <hands> <batch> | check | play | gen <n> | drill <n> <hands> <batch>\n";
    assert!(rt; usage() == named.as_bytes());
    for (line, cause, text) in [
        (
            103,
            TextCause::BlockTooLong,
            "bqd: line 103: block too long\n",
        ),
        (0, TextCause::TooLong, "bqd: line 0: too long\n"),
        (
            4294967295,
            TextCause::BusyCaller,
            "bqd: line 4294967295: busy caller\n",
        ),
    ] {
        assert!(rt; fault_line(TextFault { line, cause }).as_str() == text);
    }
}

#[test]
fn input_is_read_to_its_end(rt: HostRuntime) -> Result<(), Fail> {
    let mut source = Drip {
        rest: b"bqjobs 1\n",
        step: 4,
        reads: 0,
        fails_at: 0,
    };
    let input = read_input(rt.alloc(), &mut source)?;
    assert!(rt; input.as_slice() == b"bqjobs 1\n".as_slice());
    // 4, 4 and 1 bytes, and the end
    assert_eq!(rt; source.reads, 4);
    Ok(())
}

#[test]
fn failed_read_ends_the_reading(rt: HostRuntime) {
    let mut source = Drip {
        rest: b"bqjobs 1\n",
        step: 4,
        reads: 0,
        fails_at: 2,
    };
    assert!(rt;
        read_input(rt.alloc(), &mut source).is_err_and(|fault| fault == InputFault::Failed)
    );
    assert_eq!(rt; source.reads, 2);
}

#[test]
fn endless_input_is_cut_one_byte_past_a_text(rt: HostRuntime) -> Result<(), Fail> {
    let mut source = Endless { reads: 0 };
    let input = read_input(rt.alloc(), &mut source)?;
    assert_eq!(rt; input.len(), MAX_READ);
    // 256 pieces of 65,536 bytes, and one byte
    assert_eq!(rt; source.reads, 257);
    Ok(())
}
