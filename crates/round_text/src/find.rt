// The first `go` line of some bytes.
ghost use Rattle.std.specs.Prelude.{◌≡◌, ◌-◌, ◌≤◌, length, take, drop, MatchOption};
ghost use Rattle.round_text.specs.Stream.{is_go};
ghost use Rattle.round_text.specs.Cutting.{IsLine, IsOpen, Finds, IsNoRound, IsFirstRound};

use memchr::memchr;
use text_lines::Words;

/// What the first lines of some bytes are.
#[derive(Clone, Copy)]
pub(crate) enum Found {
    /// A round: how long its text is, and how long it is with its `go` line.
    Round { text: usize, end: usize },
    /// No line that has a line feed is `go`. The last line, which has none, begins here.
    Open { line: usize },
}

/// Whether a line has the word `go` and no other.
pub(crate) fn is_go(line: &[u8]) -> bool
    ensures { result ≡ is_go line.now }
{
    let mut words = Words::new(line);
    words.next() == Some(b"go".as_slice()) && words.next().is_none()
}

/// Goes on with the search for the first `go` line: the lines before `line` are none, and there is no line feed from
/// there to `seen`.
pub(crate) fn first_go(bytes: &[u8], line: usize, seen: usize) -> Found
    requires order { line ≤ seen }
    requires within { seen ≤ length bytes.now }
    requires lines { IsOpen (take line bytes.now) }
    requires no_feed { IsLine (take (seen - line) (drop line bytes.now)) }
    ensures { Finds bytes.now result }
{
    let mut line = line;
    let mut seen = seen;
    while let Some(feed) = memchr(b'\n', &bytes[seen..]) {
        let end = seen + feed;
        if is_go(&bytes[line..end]) {
            return Found::Round {
                text: line,
                end: end + 1,
            };
        }
        line = end + 1;
        seen = line;
    }
    Found::Open { line }
}

/// The first round of a stream that ends here: how long its text is, and how long it is with its `go` line, which may
/// be the last line and without a line feed.
pub(crate) fn first_round(bytes: &[u8]) -> Option<(usize, usize)>
    ensures { MatchOption result (IsNoRound bytes.now) (λ at. IsFirstRound bytes.now at.0 at.1) }
{
    match first_go(bytes, 0, 0) {
        Found::Round { text, end } => Some((text, end)),
        Found::Open { line } if is_go(&bytes[line..]) => Some((line, bytes.len())),
        Found::Open { .. } => None,
    }
}
