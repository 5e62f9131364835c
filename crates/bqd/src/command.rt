// What the words of the command line ask for.
ghost use Rattle.std.specs.Prelude.{◌≡◌, map, IfSome};
ghost use Rattle.std.specs.String.{string_bytes};
ghost use Rattle.bqd.specs.Command.{command_in, alone, run_in, gen_in, drill_in, IsInRange};

use text_lines::number_within;

/// The most hands that a run has.
const MOST_HANDS: u64 = 16;

/// The most dequeues that a hand makes as one.
const MOST_BATCH: u64 = 256;

/// The most jobs of a file that is made up.
const MOST_GENERATED: u64 = 500_000;

/// What the program is asked to do.
#[derive(Clone, Copy, Debug, PartialEq, Eq)]
pub enum Command {
    /// Answers the jobs of a job file.
    Run {
        /// How many threads answer jobs, from 1 to 16.
        hands: u32,
        /// How many dequeues each of them makes as one once it has put its jobs, from 1 to 256.
        batch: u32,
    },
    /// Judges a history.
    Check,
    /// Plays a schedule.
    Play,
    /// Prints a job file that is made from a number.
    Gen {
        /// How many jobs it has, at most 500,000.
        jobs: u32,
    },
    /// Answers the jobs of the file that is made from a number, and prints one line of what came of it.
    Drill {
        /// How many jobs it has, at most 500,000.
        jobs: u32,
        /// How many threads answer jobs, from 1 to 16.
        hands: u32,
        /// How many dequeues each of them makes as one once it has put its jobs, from 1 to 256.
        batch: u32,
    },
}

/// The command that these words are, the words after the program's name. A name is compared letter by
/// letter, and a number may have leading zeros.
pub fn command_of(words: &[String]) -> Option<Command>
    ensures meaning { result ≡ command_in (map (λ w. string_bytes w) words.now) }
    ensures in_range { IfSome result IsInRange }
{
    match words {
        [name, hands, batch] if name.as_str() == "run" => run_of(hands, batch),
        [name, jobs] if name.as_str() == "gen" => gen_of(jobs),
        [name, jobs, hands, batch] if name.as_str() == "drill" => drill_of(jobs, hands, batch),
        [name] => alone(name),
        _ => None,
    }
}

// The command of this word alone.
fn alone(name: &String) -> Option<Command>
    ensures { result ≡ alone (string_bytes name.now) }
{
    if name.as_str() == "check" {
        Some(Command::Check)
    } else if name.as_str() == "play" {
        Some(Command::Play)
    } else {
        None
    }
}

// The command `run` with these numbers of hands and of dequeues.
fn run_of(hands: &String, batch: &String) -> Option<Command>
    ensures { result ≡ run_in (string_bytes hands.now) (string_bytes batch.now) }
{
    let hands = number_within(hands.as_bytes(), 1, MOST_HANDS)?;
    let batch = number_within(batch.as_bytes(), 1, MOST_BATCH)?;
    Some(Command::Run {
        hands: hands as u32,
        batch: batch as u32,
    })
}

// The command `drill` with these numbers of jobs, of hands and of dequeues.
fn drill_of(jobs: &String, hands: &String, batch: &String) -> Option<Command>
    ensures { result ≡ drill_in (string_bytes jobs.now) (string_bytes hands.now) (string_bytes batch.now) }
{
    let jobs = number_within(jobs.as_bytes(), 0, MOST_GENERATED)?;
    let hands = number_within(hands.as_bytes(), 1, MOST_HANDS)?;
    let batch = number_within(batch.as_bytes(), 1, MOST_BATCH)?;
    Some(Command::Drill {
        jobs: jobs as u32,
        hands: hands as u32,
        batch: batch as u32,
    })
}

// The command `gen` with this number of jobs.
fn gen_of(jobs: &String) -> Option<Command>
    ensures { result ≡ gen_in (string_bytes jobs.now) }
{
    match number_within(jobs.as_bytes(), 0, MOST_GENERATED) {
        Some(jobs) => Some(Command::Gen { jobs: jobs as u32 }),
        None => None,
    }
}
