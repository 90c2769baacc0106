// What a turn of a process comes to.
ghost use Rattle.std.specs.Prelude.{◌≡◌, ◌<◌, ◌+◌, ◌^◌, IfSome, cond, option_copied, slice_get};
ghost use Rattle.sched_progs.specs.Programs.{is_taken, max_jumps, move_from};

use crate::last_reply::LastReply;
use kern_model::Call;
use script_text::{ProgStep, When};

// After so many jump steps a turn is over.
const MAX_JUMPS: usize = 64;

// The step at a place, if there is one.
fn step_at(steps: &[ProgStep], at: usize) -> Option<&ProgStep>
    ensures step { option_copied result ≡ slice_get steps.now at }
    ensures inside { IfSome result (λ _. at < 2 ^ 63) }
{
    steps.get(at)
}

// The place after a jump step.
fn after_jump(last: LastReply, when: When, to: u8, at: usize) -> usize
    requires { at < 2 ^ 63 }
    ensures { result ≡ cond (is_taken when last) to (at + 1) }
{
    if last.takes(when) {
        usize::from(to)
    } else {
        at + 1
    }
}

/// Where a turn leads from a place of these steps, and the call that it makes, if it makes one.
pub fn move_from<'a>(
    steps: &'a [ProgStep],
    last: LastReply,
    place: usize,
) -> (usize, Option<&'a Call>)
    ensures place { result.0 ≡ (move_from steps.now last max_jumps place).place }
    ensures call { option_copied result.1 ≡ (move_from steps.now last max_jumps place).call }
{
    let mut at = place;
    for _ in 0..MAX_JUMPS {
        match step_at(steps, at) {
            Some(ProgStep::Jump { when, to }) => {
                at = after_jump(last, *when, *to, at);
            }
            Some(ProgStep::Do(call)) => return (at + 1, Some(call)),
            Some(ProgStep::Stop) => return (at, None),
            None => return (at, None),
        }
    }
    (at, None)
}
