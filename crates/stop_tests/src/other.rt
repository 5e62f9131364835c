// A caller that makes one command after another, step by step.
use crate::acts::{advance, answers_of, begin, is_at, is_done};
use bq_model::{Answer, Op};
use std::alloc::Global;
use std::process::Abort;
use std::test::Fail;
use step_core::Machine;

/// Five commands of eight operations are a round, and a hundred and twenty-five rounds are a thousand operations.
const COMMANDS: u32 = 625;

/// A caller that goes on: how many commands it has started, and the answers of those that have ended. How many steps it has
/// made in its running command, and how many the longest of them took.
#[derive(Drop)]
pub struct Other {
    pub caller: u32,
    started: u32,
    pub answers: Vec<Answer>,
    steps: u32,
    pub longest: u32,
}

impl Other {
    pub fn new(alloc: Global, caller: u32) -> Other {
        Other {
            caller,
            started: 0,
            answers: Vec::new(alloc),
            steps: 0,
            longest: 0,
        }
    }

    /// It starts its next command. Half of each round are enqueues, of values that no other command has.
    fn start(&mut self, machine: &mut Machine) -> Result<(), Fail> {
        let value = 2_000 * u64::from(self.caller) + 2 * u64::from(self.started);
        match self.started % 5 {
            0 | 3 => begin(machine, self.caller, &[Op::Enq(value)])?,
            1 => begin(
                machine,
                self.caller,
                &[Op::Enq(value), Op::Deq, Op::Enq(value + 1)],
            )?,
            2 => begin(machine, self.caller, &[Op::Deq, Op::Deq])?,
            _ => begin(machine, self.caller, &[Op::Deq])?,
        }
        self.started = self.started.saturating_add(1);
        self.steps = 0;
        Ok(())
    }

    /// Whether all its commands have ended.
    pub fn has_ended(&self, machine: &Machine) -> bool {
        self.started >= COMMANDS && is_at(machine, self.caller, None)
    }

    /// It makes its next step, or starts its next command where it is idle. Each command ends as done, and never with Full.
    pub fn go_on(
        &mut self,
        rt: &impl Abort,
        alloc: Global,
        machine: &mut Machine,
    ) -> Result<(), Fail> {
        if self.has_ended(machine) {
            return Ok(());
        }
        if is_at(machine, self.caller, None) {
            return self.start(machine);
        }
        advance(machine, self.caller);
        self.steps = self.steps.saturating_add(1);
        self.longest = self.longest.max(self.steps);
        if is_at(machine, self.caller, None) {
            assert!(rt; is_done(machine, self.caller));
            let answers = answers_of(alloc, machine, self.caller)?;
            self.answers.extend_from_slice(answers.as_slice())?;
        }
        Ok(())
    }
}
