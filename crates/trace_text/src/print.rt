// The text of a machine.
ghost use Rattle.std.specs.Prelude.{◌≡◌, ◌<◌, ◌++◌, ◌∷◌, [], codes, decimal, map, filter, not, All, IfOk, OnOk};
ghost use Rattle.bq_model.specs.NoShut.{NeverShut};
ghost use Rattle.bq_model.specs.Proper.{IsProper};
ghost use Rattle.bq_model.specs.Queue.{unshut};
ghost use Rattle.bq_model.specs.Replay.{queue_from};
ghost use Rattle.text_lines.specs.Printed.{printed_line, printed_lines, spaced};
ghost use Rattle.trace_text.specs.Played.{state_of, refusals_of, is_idle};
ghost use Rattle.trace_text.specs.Ranges.{IsOpInRange, IsGroupInRange, IsRefusedInRange, IsFoundLegal};
ghost use Rattle.trace_text.specs.Printed.{answer_word, op_words, group_words, group_lines, refused_line, unfinished_line, unfinished, play_text};

use crate::fifo::Fifo;
use crate::play::{Play, Refused};
use bq_model::{Answer, Group, Op, OutOfMemory, Refusal, Text};
use itoa::Buffer;
use std::alloc::Global;

/// The history of a machine with the answers of a single thread's queue, and comments on the commands that were refused
/// and on those that have not ended.
pub(crate) fn print_play(alloc: Global, play: &Play) -> Result<Text, OutOfMemory>
    ensures text { IfOk result (λ text. text ≡ play_text play.now) }
    ensures legal { IfOk result (λ text. IsFoundLegal (state_of play.now).history text) }
{
    print_all(alloc, play)
}

fn print_all(alloc: Global, play: &Play) -> Result<Text, OutOfMemory>
    ensures text { IfOk result (λ text. text ≡ play_text play.now) }
    ensures proper { OnOk result (IsProper play.now.shape.callers (state_of play.now).history) }
    ensures never_shut { OnOk result (NeverShut (state_of play.now).history) }
    ensures in_range { OnOk result (All IsGroupInRange (state_of play.now).history) }
    ensures refused_in_range { OnOk result (All IsRefusedInRange (refusals_of play.now)) }
{
    let mut text = Text::new(alloc);
    text.append_parts(&[b"bqhist 1\n"])?;
    print_callers(&mut text, play.callers())?;
    print_groups(alloc, &mut text, play.history())?;
    print_refusals(&mut text, play.refused())?;
    print_unfinished(&mut text, play)?;
    Ok(text)
}

fn print_callers(text: &mut Text, callers: u32) -> Result<(), OutOfMemory>
    ensures { OnOk result (text.new ≡ text.old ++ printed_line (codes "callers" ∷ decimal callers ∷ [])) }
{
    text.append_parts(&[b"callers"])?;
    print_number(text, u64::from(callers))?;
    text.append_parts(&[b"\n"])
}

// Prints groups with the answers of a queue that is empty at first, in one pass.
fn print_groups(alloc: Global, text: &mut Text, history: &[Group]) -> Result<(), OutOfMemory>
    ensures text { OnOk result (text.new ≡ text.old ++ printed_lines (group_lines (unshut []) history.now)) }
    ensures in_range { OnOk result (All IsGroupInRange history.now) }
{
    let mut queue = Fifo::new(alloc);
    for group in history {
        print_group(text, &mut queue, group)?;
    }
    Ok(())
}

fn print_group(text: &mut Text, queue: &mut Fifo, group: &Group) -> Result<(), OutOfMemory>
    ensures text { OnOk result (text.new ≡ text.old ++ printed_line (group_words queue.old group.now)) }
    ensures queue { OnOk result (queue.new ≡ queue_from queue.old group.now.ops) }
    ensures in_range { OnOk result (IsGroupInRange group.now) }
{
    text.append_parts(&[b"group"])?;
    print_number(text, u64::from(group.caller))?;
    print_number(text, group.batch)?;
    print_ops(text, queue, group.ops.as_slice())?;
    text.append_parts(&[b"\n"])?;
    Ok(())
}

fn print_ops(text: &mut Text, queue: &mut Fifo, ops: &[Op]) -> Result<(), OutOfMemory>
    ensures text { OnOk result (text.new ≡ text.old ++ spaced (op_words queue.old ops.now)) }
    ensures queue { OnOk result (queue.new ≡ queue_from queue.old ops.now) }
    ensures in_range { OnOk result (All IsOpInRange ops.now) }
{
    for op in ops {
        let answer = queue.make(*op)?;
        print_op(text, *op, answer)?;
    }
    Ok(())
}

// Appends a blank and an operation with its answer.
fn print_op(text: &mut Text, op: Op, answer: Answer) -> Result<(), OutOfMemory>
    ensures text { OnOk result (text.new ≡ text.old ++ codes " " ++ answer_word op answer) }
    ensures in_range { OnOk result (IsOpInRange op) }
{
    let mut buffer = Buffer::new();
    match (op, answer) {
        (Op::Enq(v), Answer::Refused) => text.append_parts(&[b" x", buffer.format(v).as_bytes()]),
        (Op::Enq(v), _) => text.append_parts(&[b" e", buffer.format(v).as_bytes()]),
        (Op::Deq, Answer::Got(v)) => text.append_parts(&[b" d", buffer.format(v).as_bytes()]),
        (Op::Deq, _) => text.append_parts(&[b" d-"]),
        (Op::Shut, _) => text.append_parts(&[b" s"]),
    }
}

// Appends a blank and the number.
fn print_number(text: &mut Text, number: u64) -> Result<(), OutOfMemory>
    ensures { OnOk result (text.new ≡ text.old ++ codes " " ++ decimal number) }
{
    let mut buffer = Buffer::new();
    text.append_parts(&[b" ", buffer.format(number).as_bytes()])
}

fn print_refusals(text: &mut Text, refused: &[Refused]) -> Result<(), OutOfMemory>
    ensures text { OnOk result (text.new ≡ text.old ++ printed_lines (map refused_line refused.now)) }
    ensures in_range { OnOk result (All IsRefusedInRange refused.now) }
{
    for one in refused {
        print_refusal(text, *one)?;
    }
    Ok(())
}

fn print_refusal(text: &mut Text, refused: Refused) -> Result<(), OutOfMemory>
    ensures text { OnOk result (text.new ≡ text.old ++ printed_line (refused_line refused)) }
    ensures in_range { OnOk result (IsRefusedInRange refused) }
{
    text.append_parts(&[b"# refused"])?;
    print_number(text, u64::from(refused.caller))?;
    match refused.reason {
        Refusal::Spent => text.append_parts(&[b" spent\n"]),
        Refusal::Full => text.append_parts(&[b" full\n"]),
    }
}

// Prints the callers that are not idle, by rising number.
fn print_unfinished(text: &mut Text, play: &Play) -> Result<(), OutOfMemory>
    ensures { OnOk result (text.new ≡ text.old ++ printed_lines (map unfinished_line (unfinished play.now))) }
{
    for caller in 0..play.callers() {
        print_if_unfinished(text, play, caller)?;
    }
    Ok(())
}

fn print_if_unfinished(text: &mut Text, play: &Play, caller: u32) -> Result<(), OutOfMemory>
    requires { caller < play.now.shape.callers }
    ensures { OnOk result (text.new ≡ text.old ++ printed_lines (map unfinished_line (filter (λ c. not (is_idle (state_of play.now) c)) (caller ∷ [])))) }
{
    if play.is_idle(caller) {
        return Ok(());
    }
    print_caller(text, caller)?;
    Ok(())
}

fn print_caller(text: &mut Text, caller: u32) -> Result<(), OutOfMemory>
    ensures { OnOk result (text.new ≡ text.old ++ printed_line (unfinished_line caller)) }
{
    text.append_parts(&[b"# unfinished"])?;
    print_number(text, caller as u64)?;
    text.append_parts(&[b"\n"])?;
    Ok(())
}
