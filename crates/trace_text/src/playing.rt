// The player of a schedule's text.
ghost use Rattle.std.specs.Prelude.{◌≡◌, ◌≤◌, ◌+◌, length, Ok, Some, IfOk};
ghost use Rattle.text_lines.specs.Lines.{lines_of};
ghost use Rattle.text_lines.specs.Reading.{most_bytes};
ghost use Rattle.trace_text.specs.Refusals.{Gives};
ghost use Rattle.trace_text.specs.Played.{Playing, state_of};
ghost use Rattle.trace_text.specs.ScheduleText.{play_of};
ghost use Rattle.trace_text.specs.Ranges.{IsFoundLegal};
ghost use Rattle.trace_text.specs.Printed.{played_in, text_at_end};

use crate::check::line_behind;
use crate::print::print_play;
use crate::schedule::Player;
use bq_model::{OutOfMemory, Text, TextCause, TextFault, TextRefused};
use std::alloc::Global;
use text_lines::read_text;

/// Plays the schedule that a text is on a machine, and gives the machine's history as a text, with comments on what was
/// refused and on what has not ended. A text that is no schedule is refused with its fault. It takes time in proportion
/// to the text and to the steps.
pub fn play_schedule(alloc: Global, bytes: &[u8]) -> Result<Text, TextRefused>
    ensures played { Gives (played_in bytes.now) result }
    ensures legal { IfOk result (λ text. (p : Playing) → play_of bytes.now ≡ Ok p → IsFoundLegal (state_of p).history text) }
{
    let mut player = Player::new(alloc);
    match read_text(&mut player, b"bqplay", b"1", bytes) {
        Ok(()) => text_of(alloc, &player, bytes),
        Err(refused) => Err(refused),
    }
}

// The text where the schedule ends here.
fn text_of(alloc: Global, player: &Player, bytes: &[u8]) -> Result<Text, TextRefused>
    requires { length bytes.now ≤ most_bytes }
    ensures text { Gives (text_at_end (length (lines_of bytes.now) + 1) player.now) result }
    ensures legal { IfOk result (λ text. (p : Playing) → player.now ≡ Some p → IsFoundLegal (state_of p).history text) }
{
    let Some(play) = player.play() else {
        return Err(TextRefused::Text(TextFault {
            line: line_behind(bytes),
            cause: TextCause::BadWord,
        }));
    };
    match print_play(alloc, play) {
        Ok(text) => Ok(text),
        Err(OutOfMemory) => Err(TextRefused::Memory),
    }
}
