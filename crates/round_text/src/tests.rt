// Streams and their rounds.
ghost use Rattle.std.specs.Prelude.{◌≤◌};

use crate::reader::{Next, RoundReader};
use crate::rounds::{MOST_ROUNDS, rounds_in};
use bq_model::{MemorySource, OutOfMemory, Source, TextCause};
use byte_streams::InputFault;
use std::alloc::{AllocError, Global};
use std::test::Fail;

/// A fault's round, line and cause.
type Place = (u64, u32, TextCause);

/// How many job files a stream has before its first fault, and that fault.
fn rounds(alloc: Global, bytes: &[u8]) -> Result<(usize, Option<Place>), OutOfMemory> {
    let rounds = rounds_in(alloc, bytes)?;
    let fault = rounds
        .fault
        .map(|found| (found.round, found.fault.line, found.fault.cause));
    Ok((rounds.files.len(), fault))
}

/// The same of a stream that is read round by round.
fn rounds_read<S: Source>(
    alloc: Global,
    source: &mut S,
) -> Result<(usize, Option<Place>), InputFault> {
    let mut reader = RoundReader::new(alloc);
    for files in 0..=MOST_ROUNDS {
        match reader.next(alloc, source)? {
            Next::Round(_) => {}
            Next::Last(_) => return Ok((files + 1, None)),
            Next::End => return Ok((files, None)),
            Next::Refused(fault) => {
                return Ok((files, Some((files as u64, fault.line, fault.cause))));
            }
        }
    }
    Err(InputFault::Memory)
}

/// A source of these bytes in pieces, which fails at the reads of these numbers.
fn in_pieces(
    alloc: Global,
    bytes: &[u8],
    piece: usize,
    failing: &[u64],
) -> Result<MemorySource, AllocError>
    requires { 1 ≤ piece }
{
    Ok(MemorySource::new(
        Vec::from_slice(alloc, bytes)?,
        piece,
        Vec::from_slice(alloc, failing)?,
    ))
}

/// So many rounds with no job, and then these bytes.
fn empty_rounds(alloc: Global, count: usize, rest: &[u8]) -> Result<Vec<u8>, AllocError> {
    let mut bytes = Vec::new(alloc);
    for _ in 0..count {
        bytes.extend_from_slice(b"bqjobs 1\ngo\n")?;
    }
    bytes.extend_from_slice(rest)?;
    Ok(bytes)
}

#[test]
fn streams_are_cut_at_their_go_lines(rt: HostRuntime) -> Result<(), Fail> {
    let cases = [
        (b"".as_slice(), 0, None),
        (
            b"bqjobs 1\njob 0 sum 2 3\ngo\nbqjobs 1\ngo\n".as_slice(),
            2,
            None,
        ),
        (b"bqjobs 1\n  go \nbqjobs 1\ngo".as_slice(), 2, None),
        (
            b"bqjobs 1\njob 0 sum 2 3\ngo\nbqjobs 2\ngo\n".as_slice(),
            1,
            Some((1, 1, TextCause::NoHeader)),
        ),
        (b"go\n".as_slice(), 0, Some((0, 1, TextCause::NoHeader))),
        (
            b"bqjobs 1".as_slice(),
            0,
            Some((0, 1, TextCause::OpenRound)),
        ),
        (
            b"bqjobs 1\ngo go\n".as_slice(),
            0,
            Some((0, 1, TextCause::OpenRound)),
        ),
        (
            b"bqjobs 1\ngo\n\n".as_slice(),
            1,
            Some((1, 1, TextCause::OpenRound)),
        ),
        (
            b"bqjobs 1\ngo\nbqjobs 1\nblock 0\ngo\nbqjobs 2\n".as_slice(),
            1,
            Some((1, 2, TextCause::OpenBlock)),
        ),
    ];
    for (bytes, files, fault) in cases {
        assert_eq!(rt; rounds(rt.alloc(), bytes)?, (files, fault), "at {bytes:?}");
        for piece in [1, 7, 100] {
            let mut source = in_pieces(rt.alloc(), bytes, piece, &[])?;
            let found = rounds_read(rt.alloc(), &mut source)?;
            assert_eq!(rt; found, (files, fault), "at {bytes:?} by {piece}");
        }
    }
    Ok(())
}

#[test]
fn round_10000_is_one_too_many(rt: HostRuntime) -> Result<(), Fail> {
    let most = empty_rounds(rt.alloc(), MOST_ROUNDS, b"")?;
    assert_eq!(rt; rounds(rt.alloc(), &most)?, (10_000, None));
    let one_more = empty_rounds(rt.alloc(), MOST_ROUNDS, b"\n")?;
    let fault = Some((10_000, 1, TextCause::TooMany));
    assert_eq!(rt; rounds(rt.alloc(), &one_more)?, (10_000, fault));
    let mut source = in_pieces(rt.alloc(), &most, 1000, &[])?;
    assert_eq!(rt; rounds_read(rt.alloc(), &mut source)?, (10_000, None));
    let mut source = in_pieces(rt.alloc(), &one_more, 1000, &[])?;
    assert_eq!(rt; rounds_read(rt.alloc(), &mut source)?, (10_000, fault));
    Ok(())
}

#[test]
fn round_of_more_bytes_than_a_text_is_too_long(rt: HostRuntime) -> Result<(), Fail> {
    let fault = Some((0, 0, TextCause::TooLong));
    let mut bytes = vec![in rt.alloc(); b'x'; 16_777_217]?;
    assert_eq!(rt; rounds(rt.alloc(), &bytes)?, (0, fault));
    bytes.extend_from_slice(b"\ngo\n")?;
    assert_eq!(rt; rounds(rt.alloc(), &bytes)?, (0, fault));
    Ok(())
}

#[test]
fn failed_read_ends_the_reading(rt: HostRuntime) -> Result<(), Fail> {
    let bytes = b"bqjobs 1\ngo\nbqjobs 1\ngo\n";
    // four pieces, the end, and a read that isn't made
    for (failing, fails) in [(0, true), (3, true), (4, true), (5, false)] {
        let mut source = in_pieces(rt.alloc(), bytes, 7, &[failing])?;
        let failed = rounds_read(rt.alloc(), &mut source);
        assert_eq!(rt;
            failed.is_err_and(|fault| fault == InputFault::Failed),
            fails
        );
    }
    Ok(())
}
