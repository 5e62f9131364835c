// A reader of a stream, round by round, whatever the pieces are in which the stream comes.
ghost use Rattle.std.specs.Prelude.{◌≡◌, ◌<◌, ◌≤◌, ℕ, [], List, Option, length, take, drop, is_some, true, IfOk, IsErrOf};
ghost use Rattle.std.specs.Io.KnownBytes.{IsAtEnd};
ghost use Rattle.bq_model.specs.Device.{Rose};
ghost use Rattle.text_lines.specs.Reading.{fault};
ghost use Rattle.round_text.specs.Stream.{is_go};
ghost use Rattle.round_text.specs.Cutting.{IsLine, IsOpen, IsRound};
ghost use Rattle.round_text.specs.Coming.{Comes, HasRead, IsNoRoundYet};
ghost use Rattle.round_text.specs.Rounds.{most_rounds};

use crate::ahead::Ahead;
use crate::find::{Found, is_go};
use crate::rounds::{MOST_BYTES, MOST_ROUNDS};
use bq_model::{OutOfMemory, Source, TextCause, TextFault, TextRefused};
use byte_streams::InputFault;
use job_text::{JobFile, read_jobs};
use std::alloc::Global;
use std::marker::Model;

/// What comes next of a stream.
#[derive(Drop)]
pub enum Next {
    /// A round, whose `go` line has its line feed.
    Round(JobFile),
    /// The last round, whose `go` line has none.
    Last(JobFile),
    /// Nothing: the stream ends.
    End,
    /// A fault of the round that is to come.
    Refused(TextFault),
}

/// Reads a stream round by round.
#[derive(Drop)]
pub struct RoundReader {
    number: usize,
    ahead: Ahead,
}

impl Model for RoundReader {
    ghost use Rattle.round_text.specs.Reading.{Reading};

    ghost Value = { Reading };

    ghost view = { λ r. record { number = r.number; ahead = r.ahead } };
}

impl RoundReader {
    /// A reader at the beginning of a stream.
    pub fn new(alloc: Global) -> RoundReader
        ensures { result ≡ record { number = 0; ahead = [] } }
    {
        RoundReader {
            number: 0,
            ahead: Ahead::new(alloc),
        }
    }

    /// Reads on up to the next `go` line or the end of the source, or until the lines of the round have more bytes than a
    /// text may have. Each read asks for 65,536 bytes. After a refusal or a failure the reader is of no use.
    pub fn next<S: Source>(&mut self, alloc: Global, source: &mut S) -> Result<Next, InputFault>
        requires { self.old.number ≤ most_rounds }
        ensures comes { IfOk result (λ next. Comes next self.old self.new (S.left source.old) (S.left source.new)) }
        ensures failed { IsErrOf result InputFault.Failed → HasRead self.old self.new (S.left source.old) (S.left source.new) }
        ensures failed_before_a_round { IsErrOf result InputFault.Failed → IsNoRoundYet self.new }
        ensures failed_is_counted { IsErrOf result InputFault.Failed → Rose (S.faults source.old) (S.faults source.new) }
        ensures told { is_some (S.left source.new) ≡ is_some (S.left source.old) }
        ensures count_never_falls { S.faults source.old ≤ S.faults source.new }
    {
        if self.number == MOST_ROUNDS {
            return self.beyond(alloc, source);
        }
        loop {
            let line = match self.ahead.find() {
                Found::Round { text, end } => return Ok(self.round(alloc, text, end)?),
                Found::Open { line } => line,
            };
            if line > MOST_BYTES {
                return Ok(refused(0, TextCause::TooLong));
            }
            if !self.ahead.read(alloc, source)? {
                return Ok(self.last(alloc, line)?);
            }
        }
    }

    // Gives the round that lies ahead.
    fn round(&mut self, alloc: Global, text: usize, end: usize) -> Result<Next, OutOfMemory>
        requires order { text < end }
        requires within { end ≤ length self.old.ahead }
        requires round { IsRound (take end self.old.ahead) (take text self.old.ahead) }
        requires not_beyond { self.old.number < most_rounds }
        ensures { (left : Option (List ℕ)) → IfOk result (λ next. Comes next self.old self.new left left) }
    {
        match read_jobs(alloc, &self.ahead.as_slice()[..text]) {
            Ok(file) => {
                self.ahead.skip(end)?;
                self.number += 1;
                Ok(Next::Round(file))
            }
            Err(TextRefused::Text(fault)) => Ok(Next::Refused(fault)),
            Err(TextRefused::Memory) => Err(OutOfMemory),
        }
    }

    // Gives what the bytes ahead are where the stream ends behind them: lines, the last one from `line` on.
    fn last(&self, alloc: Global, line: usize) -> Result<Next, OutOfMemory>
        requires within { line ≤ length self.now.ahead }
        requires lines { IsOpen (take line self.now.ahead) }
        requires no_feed { IsLine (drop line self.now.ahead) }
        requires not_beyond { self.now.number < most_rounds }
        ensures { (left : Option (List ℕ)) → IsAtEnd left → IfOk result (λ next. Comes next self.now self.now left left) }
    {
        let bytes = self.ahead.as_slice();
        if is_go(&bytes[line..]) {
            return self.last_round(alloc, line);
        }
        if bytes.is_empty() {
            return Ok(Next::End);
        }
        if bytes.len() <= MOST_BYTES {
            return Ok(refused(1, TextCause::OpenRound));
        }
        Ok(refused(0, TextCause::TooLong))
    }

    // Gives the last round, whose `go` line has no line feed.
    fn last_round(&self, alloc: Global, line: usize) -> Result<Next, OutOfMemory>
        requires within { line ≤ length self.now.ahead }
        requires lines { IsOpen (take line self.now.ahead) }
        requires no_feed { IsLine (drop line self.now.ahead) }
        requires go { is_go (drop line self.now.ahead) ≡ true }
        requires not_beyond { self.now.number < most_rounds }
        ensures { (left : Option (List ℕ)) → IsAtEnd left → IfOk result (λ next. Comes next self.now self.now left left) }
    {
        match read_jobs(alloc, &self.ahead.as_slice()[..line]) {
            Ok(file) => Ok(Next::Last(file)),
            Err(TextRefused::Text(fault)) => Ok(Next::Refused(fault)),
            Err(TextRefused::Memory) => Err(OutOfMemory),
        }
    }

    // Behind the last round that a stream may have: any byte is one too many.
    fn beyond<S: Source>(&mut self, alloc: Global, source: &mut S) -> Result<Next, InputFault>
        requires { self.old.number ≡ most_rounds }
        ensures comes { IfOk result (λ next. Comes next self.old self.new (S.left source.old) (S.left source.new)) }
        ensures failed { IsErrOf result InputFault.Failed → HasRead self.old self.new (S.left source.old) (S.left source.new) }
        ensures failed_before_a_round { IsErrOf result InputFault.Failed → IsNoRoundYet self.new }
        ensures failed_is_counted { IsErrOf result InputFault.Failed → Rose (S.faults source.old) (S.faults source.new) }
        ensures told { is_some (S.left source.new) ≡ is_some (S.left source.old) }
        ensures count_never_falls { S.faults source.old ≤ S.faults source.new }
    {
        if !self.ahead.as_slice().is_empty() {
            return Ok(refused(1, TextCause::TooMany));
        }
        if self.ahead.read(alloc, source)? {
            return Ok(refused(1, TextCause::TooMany));
        }
        Ok(Next::End)
    }
}

// A fault of the round that is to come.
fn refused(line: u32, cause: TextCause) -> Next
    ensures { result ≡ Next.Refused (fault line cause) }
{
    Next::Refused(TextFault { line, cause })
}
