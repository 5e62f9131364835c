// The statuses of the program.
ghost use Rattle.std.specs.Prelude.{◌≡◌};

/// How a call of the program ends, as the number that the system is told.
#[derive(Clone, Copy, Debug, PartialEq, Eq)]
pub enum Status {
    /// The command was done.
    Done = 0,
    /// The history that was checked is illegal.
    Illegal = 1,
    /// The words are no command.
    Usage = 2,
    /// The grammar of the command refuses the input.
    Refused = 3,
    /// A read failed.
    ReadFailed = 4,
    /// A write failed.
    WriteFailed = 5,
    /// Memory was lacking.
    OutOfMemory = 6,
}

impl Status {
    ghost use Rattle.bqd.specs.Status.{number_of};

    /// The number that the system is told.
    pub fn number(self) -> u8
        ensures { result ≡ number_of self }
    {
        self as u8
    }
}
