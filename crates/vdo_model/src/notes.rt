ghost use Rattle.std.specs.Prelude.{◌≡◌, Some, length, reverse, slice_set};
ghost use Rattle.vdo_model.specs.Notes.{NotesAnswers, NotesPlaces};

use crate::{DeskLine, Placed};

// Notes this of a request, if there is room for a request of this number.
fn note<T: Copy>(notes: &mut [Option<T>], number: u32, item: T)
    ensures { notes.new ≡ slice_set notes.old number (Some item) }
{
    let at = number as usize;
    if at < notes.len() {
        notes[at] = Some(item);
    }
}

/// Notes for each request of a stream that there is room for which line is its newest answer. Where there is room for none
/// it doesn't look at the lines.
pub fn note_answers(desk: &[DeskLine], stream: u8, notes: &mut [Option<usize>])
    ensures length { length notes.new ≡ length notes.old }
    ensures notes { NotesAnswers desk.now (reverse desk.now) stream notes.new }
{
    if notes.is_empty() {
        return;
    }
    notes.fill(None);
    for (at, line) in desk.iter().enumerate() {
        match line {
            DeskLine::Begin { .. } => {}
            DeskLine::Answer { request, .. } => {
                if request.stream == stream {
                    note(notes, request.number, at);
                }
            }
        }
    }
}

/// Notes for each request of a stream that there is room for its place.
pub fn note_places(places: &[Placed], stream: u8, notes: &mut [Option<Placed>])
    ensures length { length notes.new ≡ length notes.old }
    ensures notes { NotesPlaces (reverse places.now) stream notes.new }
{
    notes.fill(None);
    for placed in places {
        if placed.request.stream == stream {
            note(notes, placed.request.number, *placed);
        }
    }
}
