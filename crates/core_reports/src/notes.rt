ghost use Rattle.std.specs.Prelude.{◌≡◌, ◌≢◌, ◌<◌, ℕ, [], None, IfOk, get_or, length, map, reverse};
ghost use Rattle.vdo_model.specs.Notes.{NotesAnswers};
ghost use Rattle.core_reports.specs.Found.{AreNoted};

use blk_base::Writer;
use data_vio::MOST_STREAMS;
use std::alloc::{AllocError, Global};
use std::marker::Model;
use vdo_model::{DeskLine, note_answers};

/// Where the newest answers of one stream's requests stand in a desk log: for each number the line, from 0.
#[derive(Drop)]
pub(crate) struct StreamNotes {
    lines: Vec<Option<usize>>,
}

impl Model for StreamNotes {
    ghost use Rattle.std.specs.Prelude.{ℕ, List, Option};

    ghost Value = { List (Option ℕ) };

    ghost view = { λ n. n.lines.items };
}

impl StreamNotes {
    /// Room for so many requests. It fails where memory runs out.
    pub(crate) fn with_room_for(alloc: Global, count: usize) -> Result<StreamNotes, AllocError>
        ensures { IfOk result (λ notes. length notes ≡ count) }
    {
        let lines = vec![in alloc; None; count]?;
        Ok(StreamNotes { lines })
    }

    /// For how many requests there is room.
    pub(crate) fn len(&self) -> usize
        ensures { result ≡ length self.now }
    {
        self.lines.len()
    }

    // Notes the answers of a stream.
    fn note(&mut self, desk: &[DeskLine], stream: u8)
        ensures length { length self.new ≡ length self.old }
        ensures notes { NotesAnswers desk.now (reverse desk.now) stream self.new }
    {
        note_answers(desk, stream, &mut self.lines);
    }

    // What is noted of the request of this number.
    fn line(&self, number: u32) -> Option<usize>
        ensures { result ≡ get_or self.now number None }
    {
        match self.lines.get(number as usize) {
            Some(line) => *line,
            None => None,
        }
    }
}

// Notes the answers of a stream where there is room for any.
fn note_stream(desk: &[DeskLine], stream: u8, notes: &mut [StreamNotes])
    ensures room { map length notes.new ≡ map length notes.old }
    ensures noted { NotesAnswers desk.now (reverse desk.now) stream (get_or notes.new stream []) }
    ensures others { (other : ℕ) → other ≢ stream →
        get_or notes.new other [] ≡ get_or notes.old other [] }
{
    let at = usize::from(stream);
    if at < notes.len() {
        notes[at].note(desk, stream);
    }
}

/// Notes where the answers of all streams stand.
pub(crate) fn note_streams(desk: &[DeskLine], notes: &mut [StreamNotes])
    ensures room { map length notes.new ≡ map length notes.old }
    ensures noted { AreNoted desk.now notes.new }
{
    for stream in 0..MOST_STREAMS {
        note_stream(desk, stream as u8, notes);
    }
}

/// What is noted of a request.
pub(crate) fn noted_line(notes: &[StreamNotes], request: Writer) -> Option<usize>
    ensures { result ≡ get_or (get_or notes.now request.stream []) request.number None }
{
    match notes.get(usize::from(request.stream)) {
        Some(noted) => noted.line(request.number),
        None => None,
    }
}
