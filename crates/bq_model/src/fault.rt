// What is wrong with a text, and in which words it is told.
ghost use Rattle.std.specs.Prelude.{◌≡◌};

use std::fmt;
use thiserror::Error;

/// What is wrong with a line of a text.
#[derive(Clone, Copy, Debug, PartialEq, Eq, Hash)]
pub enum TextCause {
    /// A byte is below 32 or above 126.
    NotText,
    /// The first line isn't the header.
    NoHeader,
    /// A fixed word is another, a line stands where it may not, or the number of words is wrong.
    BadWord,
    /// A number, a hex word or a byte word is not of its form or range.
    BadNumber,
    /// A lane number is above 15.
    BadLane,
    /// A block has more than 100 jobs.
    BlockTooLong,
    /// The input ends inside a block.
    OpenBlock,
    /// The input ends inside a round. (No text has it yet.)
    OpenRound,
    /// A command is started for a caller that is not idle.
    BusyCaller,
    /// There are more jobs, operations or steps than a text may have.
    TooMany,
    /// There are more bytes than a text may have.
    TooLong,
    /// A job is at a greater level than a text may have. (No text has it yet.)
    TooDeep,
}

impl TextCause {
    ghost use Rattle.bq_model.specs.Fault.{cause_text};

    /// The cause in words.
    pub fn text(self) -> &'static str
        ensures { result.now ≡ cause_text self }
    {
        match self {
            TextCause::NotText => "not text",
            TextCause::NoHeader => "no header",
            TextCause::BadWord => "bad word",
            TextCause::BadNumber => "bad number",
            TextCause::BadLane => "bad lane",
            TextCause::BlockTooLong => "block too long",
            TextCause::OpenBlock => "open block",
            TextCause::OpenRound => "open round",
            TextCause::BusyCaller => "busy caller",
            TextCause::TooMany => "too many",
            TextCause::TooLong => "too long",
            TextCause::TooDeep => "too deep",
        }
    }
}

impl fmt::Display for TextCause {
    fn fmt<W: fmt::Write>(&self, f: &mut fmt::Formatter<W>) -> fmt::Result {
        f.write_str(self.text())
    }
}

/// What is wrong with a text, and where.
#[derive(Clone, Copy, Debug, PartialEq, Eq, Hash, Error)]
#[error("line {line}: {cause}")]
pub struct TextFault {
    /// The line, counted from 1; 0 where the fault is of the text as a whole.
    pub line: u32,
    /// What is wrong there.
    pub cause: TextCause,
}

/// Why a text was not read.
#[derive(Clone, Copy, Debug, PartialEq, Eq, Hash, Error)]
pub enum TextRefused {
    /// The text has this fault.
    #[error("{0}")]
    Text(TextFault),
    /// Memory was lacking.
    #[error("out of memory")]
    Memory,
}

#[cfg(test)]
mod tests {
    use super::*;
    use std::test::Fail;

    #[test]
    fn faults_are_told_by_line_and_cause(rt: HostRuntime) -> Result<(), Fail> {
        let fault = TextFault {
            line: 103,
            cause: TextCause::BlockTooLong,
        };
        assert_eq!(rt;
            format!(in rt.alloc(); "{fault}")?.as_str(),
            "line 103: block too long"
        );
        assert_eq!(rt;
            format!(in rt.alloc(); "{}", TextCause::NotText)?.as_str(),
            "not text"
        );
        Ok(())
    }
}
