// A text that is written in pieces.
use crate::write_all;
use bq_model::{Failed, Sink};

/// A sink that takes at most `step` bytes at once and fails at write `fails_at`, from 1. It is to be handed exactly
/// `rest` each time.
#[derive(Drop)]
struct Narrow<'a> {
    rest: &'a [u8],
    step: usize,
    writes: u64,
    fails_at: u64,
    handed_all: bool,
}

impl Sink for Narrow<'_> {
    ghost use Rattle.std.specs.Prelude.{None};

    ghost written = { λ _. None };

    ghost faults = { λ s. s.writes };

    fn write(&mut self, bytes: &[u8]) -> Result<usize, Failed> {
        self.writes = self.writes.saturating_add(1);
        self.handed_all = self.handed_all && bytes == self.rest;
        if self.writes == self.fails_at {
            return Err(Failed);
        }
        let n = self.step.max(1).min(bytes.len());
        self.rest = &self.rest[n.min(self.rest.len())..];
        Ok(n)
    }
}

#[test]
fn each_write_is_handed_all_that_is_to_come(rt: HostRuntime) {
    for (step, fails_at, ok, left, writes) in [
        (3, 0, true, 0, 3),
        (8, 0, true, 0, 1),
        (3, 2, false, 5, 2),
        (3, 1, false, 8, 1),
    ] {
        let text = b"0 5\n1 1\n".as_slice();
        let mut sink = Narrow {
            rest: text,
            step,
            writes: 0,
            fails_at,
            handed_all: true,
        };
        assert_eq!(rt; write_all(&mut sink, text).is_ok(), ok);
        assert_eq!(rt; sink.rest.len(), left);
        assert_eq!(rt; sink.writes, writes);
        assert!(rt; sink.handed_all);
    }
    let mut sink = Narrow {
        rest: b"",
        step: 1,
        writes: 0,
        fails_at: 1,
        handed_all: true,
    };
    assert!(rt; write_all(&mut sink, b"").is_ok());
    assert_eq!(rt; sink.writes, 0);
}
