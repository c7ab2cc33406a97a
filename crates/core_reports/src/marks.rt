ghost use Rattle.std.specs.Prelude.{◌≡◌, Bool, Some, reverse};
ghost use Rattle.blk_base.specs.declared.request.Answer.{Answer as Reply};
ghost use Rattle.blk_base.specs.declared.request.Writer.{Writer};
ghost use Rattle.vdo_model.specs.Notes.{NotesAnswer};
ghost use Rattle.vdo_model.specs.DeskLog.{answer_of};
ghost use Rattle.vdo_model.specs.Histories.{mark_of};

use blk_base::Answer;
use vdo_model::{DeskLine, Mark};

// The mark of a write by its answer.
// A stopped write whose entry was handed in is unsettled, whether or not that reached the device.
fn mark_by(answer: &Answer, is_entered: bool) -> Mark
    ensures { (is_set : Bool) → result ≡ mark_of (Some answer.now) is_set is_entered }
{
    match answer {
        Answer::Ok => Mark::Settled,
        Answer::Stopped => {
            if is_entered {
                Mark::Unsettled
            } else {
                Mark::Refused
            }
        }
        Answer::Bytes(_)
        | Answer::Range
        | Answer::NoSpace
        | Answer::Full
        | Answer::ReadFault
        | Answer::Damaged => Mark::Refused,
    }
}

/// The mark of a write or discard, by the note of its answer, and whether its entry was handed in; `Refused` where it has
/// no answer.
pub(crate) fn mark(desk: &[DeskLine], noted: Option<usize>, is_entered: bool) -> Mark
    ensures { (is_set : Bool) (answer : Reply) (request : Writer) →
        NotesAnswer desk.now (reverse desk.now) request noted →
        answer_of (reverse desk.now) request ≡ Some answer
        → result ≡ mark_of (Some answer) is_set is_entered }
{
    let Some(at) = noted else {
        return Mark::Refused;
    };
    match desk.get(at) {
        Some(DeskLine::Answer { answer, .. }) => mark_by(answer, is_entered),
        Some(DeskLine::Begin { .. }) | None => Mark::Refused,
    }
}
