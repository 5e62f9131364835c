// What a take gives.
ghost use Rattle.std.specs.Prelude.{◌≡◌};

/// Shows that a worker was woken. A worker's tokens are numbered from 0 in the order of its takes.
#[derive(Debug, Drop)]
pub struct Token {
    worker: u32,
    number: u64,
}

impl Token {
    // Only a take gives one.
    pub(crate) fn new(worker: u32, number: u64) -> Token
        ensures { result ≡ record { worker = worker; number = number } }
    {
        Token { worker, number }
    }

    /// The worker that took it.
    pub fn worker(&self) -> u32
        ensures { result ≡ self.now.worker }
    {
        self.worker
    }

    /// How often the worker had taken before.
    pub fn number(&self) -> u64
        ensures { result ≡ self.now.number }
    {
        self.number
    }
}
