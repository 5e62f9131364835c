// The program over any source and sinks.
ghost use Rattle.std.specs.Prelude.{◌≡◌, ◌≢◌, false, ℕ, ◌⊎◌, [], Some, map};
ghost use Rattle.std.specs.String.{string_bytes};
ghost use Rattle.bqd.specs.declared.command.Command.{Command};
ghost use Rattle.bqd.specs.Command.{command_in, runs};
ghost use Rattle.byte_streams.specs.Streams.{change};
ghost use Rattle.bqd.specs.Causes.{IsExplained, call};
ghost use Rattle.bqd.specs.Runs.{IsRun, IsDrill};

use crate::command::{Command, command_of};
use crate::drill::drill;
use crate::ended::{Ended, ServingLane};
use crate::run::run;
use crate::still::still;
use bq_model::{Lane, Sink, Source};
use bulk_dispatcher::Gate;
use std::alloc::Global;
use std::thread::Threads;

/// Does what the words after the program's name ask for, over these streams. No reply is written before all jobs were
/// run. What a status says of the input's bytes it says where the source tells them.
pub fn top<S: Source, O: Sink, E: Sink, G: Gate, R: Threads + Sync>(
    rt: &R,
    alloc: Global,
    words: &[String],
    source: &mut S,
    out: &mut O,
    err: &mut E,
    gate: &G,
) -> Ended
    // The headline: the source was read to its end and the replies are written, the lanes' books are histories that a
    // single thread's queue gives and fit the file, and each reply names the operation that got its job.
    ensures run { (hands batch : ℕ) → command_in (map (λ w. string_bytes w) words.now) ≡ Some (Command.Run hands batch) → result.status ≡ 0
        → IsRun hands batch (call words.now (change S.left S.faults source.old source.new)
        (change O.written O.faults out.old out.new) (change E.written E.faults err.old err.new))
        (map ⟦<ServingLane as Lane>⟧.history result.books) result.replies }
    // The same of the file that is made from a number, and the line that tells of it is written.
    ensures drill { (jobs hands batch : ℕ) → command_in (map (λ w. string_bytes w) words.now) ≡ Some (Command.Drill jobs hands batch) → result.status ≡ 0
        → IsDrill jobs hands batch (call words.now (change S.left S.faults source.old source.new)
        (change O.written O.faults out.old out.new) (change E.written E.faults err.old err.new))
        (map ⟦<ServingLane as Lane>⟧.history result.books) result.replies }
    ensures lists_are_of_a_run { (runs (command_in (map (λ w. string_bytes w) words.now)) ≡ false) ⊎ (result.status ≢ 0)
        → (result.replies ≡ []) × (result.books ≡ []) }

    // Each status has its cause, and what is due comes where no read or write fails.
    ensures explained { IsExplained result.status (call words.now (change S.left S.faults source.old source.new)
        (change O.written O.faults out.old out.new) (change E.written E.faults err.old err.new)) }
{
    match command_of(words) {
        Some(Command::Run { hands, batch }) => {
            match run::<ServingLane, S, O, E, G, R>(
                rt, alloc, hands, batch, source, out, err, gate,
            ) {
                Ok(done) => Ended::with(done),
                Err(status) => Ended::without(alloc, status.number()),
            }
        }
        Some(Command::Drill { jobs, hands, batch }) => {
            match drill::<ServingLane, O, G, R>(rt, alloc, jobs, hands, batch, out, gate) {
                Ok(done) => Ended::with(done),
                Err(status) => Ended::without(alloc, status.number()),
            }
        }
        _ => Ended::without(alloc, still(alloc, words, source, out, err)),
    }
}
