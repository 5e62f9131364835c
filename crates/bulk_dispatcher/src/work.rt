// How a part of a hand's work ended.
ghost use Rattle.std.specs.Prelude.{◌≡◌};
ghost use Rattle.bulk_dispatcher.specs.Stops.{has_stopped};

/// How a part of a hand's work ended.
#[derive(Clone, Copy, Debug)]
pub enum Work {
    /// All of it was done.
    Done,
    /// The hand's allowance on a lane was spent, so the hand stopped.
    Spent,
}

impl Work {
    /// Whether the hand stopped.
    pub fn has_stopped(&self) -> bool
        ensures { result ≡ has_stopped self.now }
    {
        match self {
            Work::Done => false,
            Work::Spent => true,
        }
    }
}
