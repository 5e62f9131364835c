// Laws of the definitions that everything else is measured by.
ghost use Rattle.std.specs.Prelude.{◌≡◌, ◌≢◌, ◌++◌, ℕ, List};
ghost use Rattle.bq_model.specs.declared.op.Op.{Op};
ghost use Rattle.bq_model.specs.Queue.{Queue};
ghost use Rattle.bq_model.specs.Replay.{answers_from, queue_from};
ghost use Rattle.bq_model.specs.Values.{entered, got};
ghost use Rattle.bq_model.specs.Device.{last_count, Rose};

/// Values come out in the order in which they went in: those that a replay gives, and then those that it leaves, are
/// those that were queued before it, and then those that enter it.
pub fn first_in_is_first_out()
    ensures { (q : Queue) (ops : List Op) → got (answers_from q ops) ++ (queue_from q ops).values ≡ q.values ++ entered q.shut ops }
{}

/// A count that stays below its last value has not risen.
pub fn a_count_that_stays_is_no_rise()
    ensures { (n : ℕ) → n ≢ last_count → ¬ (Rose n n) }
{}

#[cfg(test)]
mod tests {
    use super::*;

    #[test]
    fn laws_are_called(_rt: HostRuntime) {
        first_in_is_first_out();
        a_count_that_stays_is_no_rise();
    }
}
