// Laws about the definitions.
ghost use Rattle.std.specs.Prelude.{ℕ, List};
ghost use Rattle.bq_model.specs.declared.op.Op.{Op};
ghost use Rattle.bq_model.specs.declared.group.Group.{Group};
ghost use Rattle.bq_model.specs.Grows.{SawMore};
ghost use Rattle.bq_session.specs.declared.ticket.Ticket.{Ticket};
ghost use Rattle.bq_session.specs.declared.future.Standing.{Standing};
ghost use Rattle.bq_session.specs.Futures.{LiveFutures, Stands, IsIssued, last_withdrawn, spent};
ghost use Rattle.bq_session.specs.Session.{IsEvaluated};
ghost use Rattle.bq_session.specs.Outcome.{WasGiven};

/// No serial is given twice. A claim's serial was not given before its call and is given after it, and what was given
/// stays so, whatever the session does.
pub fn what_was_given_stays_given()
    ensures deferring { (serial : ℕ) (seen : List Group) (t : Ticket) (old new : LiveFutures) → IsIssued t old new → WasGiven serial seen old → WasGiven serial seen new }
    ensures evaluating { (serial : ℕ) (ops : List Op) (old new : LiveFutures) (before after : List Group) → IsEvaluated ops old new before after → WasGiven serial before old → WasGiven serial after new }
    ensures spending { (serial : ℕ) (seen : List Group) (f : LiveFutures) (t : Ticket) (standing : Standing) → Stands f t standing → WasGiven serial seen f → WasGiven serial seen (spent t.key f) }
    ensures withdrawing { (serial : ℕ) (seen : List Group) (f : LiveFutures) → WasGiven serial seen f → WasGiven serial seen (last_withdrawn f) }
    ensures being_refused { (serial : ℕ) (before after : List Group) (f : LiveFutures) → SawMore f.caller before after → WasGiven serial before f → WasGiven serial after f }
{}
