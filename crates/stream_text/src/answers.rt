ghost use Rattle.std.specs.Prelude.{◌≡◌, ◌≤◌, None, length, reverse, IfOk};
ghost use Rattle.vdo_model.specs.DeskLog.{answer_of};
ghost use Rattle.vdo_model.specs.Notes.{NotesAnswer, NotesAnswers, NotesPlaces};
ghost use Rattle.stream_text.specs.AnswerRooms.{HasRoomFor};
ghost use Rattle.disk_model.specs.Streams.{Puts};
ghost use Rattle.stream_text.specs.Texts.{line_text, stream_text, answers_text, writer};

use crate::lines::put_line;
use blk_base::Request;
use disk_model::{Failed, Sink};
use std::alloc::{AllocError, Global};
use std::marker::Model;
use vdo_model::{DeskLine, Placed, Requests, RunReport, note_answers, note_places};

/// Room to note where the answers and the places of one stream stand. A contract sees for how many requests it is.
#[derive(Drop)]
pub struct AnswerRoom {
    answers: Vec<Option<usize>>,
    places: Vec<Option<Placed>>,
}

impl Model for AnswerRoom {
    ghost use Rattle.std.specs.Prelude.{ℕ, length, min};

    ghost Value = { ℕ };

    ghost view = { λ r. min (length r.answers.items) (length r.places.items) };
}

// How many requests the longest stream has.
fn longest_stream(requests: &Requests) -> usize
    ensures { HasRoomFor result requests.now }
{
    let mut longest = 0;
    for stream in 0..16_u8 {
        longest = longest.max(requests.stream(stream).len());
    }
    longest
}

impl AnswerRoom {
    /// Room for the longest stream. It fails where memory runs out.
    pub fn with_room_for(alloc: Global, requests: &Requests) -> Result<AnswerRoom, AllocError>
        ensures { IfOk result (λ room. HasRoomFor room requests.now) }
    {
        let longest = longest_stream(requests);
        let answers = vec![in alloc; None; longest]?;
        let places = vec![in alloc; None; longest]?;
        Ok(AnswerRoom { answers, places })
    }
}

// Puts the line of a request whose answer was noted.
fn put_noted<K: Sink>(
    desk: &[DeskLine],
    noted: Option<usize>,
    place: Option<Placed>,
    stream: u8,
    number: usize,
    request: &Request,
    out: &mut K,
) -> Result<(), Failed>
    requires { NotesAnswer desk.now (reverse desk.now) (writer stream number) noted }
    ensures { Puts K.tells
        (line_text (writer stream number) request.now
        (answer_of (reverse desk.now) (writer stream number)) place)
        (K.seen out.old) (K.seen out.new) result }
{
    let Some(at) = noted else {
        return Ok(());
    };
    match &desk[at] {
        DeskLine::Answer { answer, .. } => put_line(stream, number, request, answer, place, out),
        DeskLine::Begin { .. } => unreachable!(),
    }
}

// Puts the lines of a stream, whose answers and places were noted.
fn put_noted_stream<K: Sink>(
    desk: &[DeskLine],
    places: &[Placed],
    answers: &[Option<usize>],
    placed: &[Option<Placed>],
    stream: u8,
    requests: &[Request],
    out: &mut K,
) -> Result<(), Failed>
    requires room { length requests.now ≤ length answers.now }
    requires room_placed { length requests.now ≤ length placed.now }
    requires answers { NotesAnswers desk.now (reverse desk.now) stream answers.now }
    requires places { NotesPlaces (reverse places.now) stream placed.now }
    ensures { Puts K.tells
        (stream_text (reverse desk.now) (reverse places.now) stream 0 requests.now)
        (K.seen out.old) (K.seen out.new) result }
{
    for (number, request) in requests.iter().enumerate() {
        let noted = answers[number];
        let place = placed[number];
        put_noted(desk, noted, place, stream, number, request, out)?;
    }
    Ok(())
}

// Notes where the answers and places of a stream stand, and puts its lines.
fn put_stream<K: Sink>(
    desk: &[DeskLine],
    places: &[Placed],
    stream: u8,
    requests: &[Request],
    room: &mut AnswerRoom,
    out: &mut K,
) -> Result<(), Failed>
    requires { length requests.now ≤ room.old }
    ensures puts { Puts K.tells
        (stream_text (reverse desk.now) (reverse places.now) stream 0 requests.now)
        (K.seen out.old) (K.seen out.new) result }
    ensures room { room.new ≡ room.old }
{
    if requests.is_empty() {
        return Ok(());
    }
    note_answers(desk, stream, &mut room.answers);
    note_places(places, stream, &mut room.places);
    put_noted_stream(
        desk,
        places,
        &room.answers,
        &room.places,
        stream,
        requests,
        out,
    )
}

/// Puts the line of each answered request, stream after stream, in the order of the requests. It takes no memory, and its
/// time is linear in the requests, in the lines of the desk log and in the places. It fails where the sink fails; then a
/// first part of the text was put.
pub fn put_answers<K: Sink>(
    requests: &Requests,
    report: &RunReport,
    room: &mut AnswerRoom,
    out: &mut K,
) -> Result<(), Failed>
    requires { HasRoomFor room.old requests.now }
    ensures { Puts K.tells
        (answers_text requests.now report.now.desk report.now.places)
        (K.seen out.old) (K.seen out.new) result }
{
    let desk = report.desk.as_slice();
    let places = report.places.as_slice();
    for stream in 0..16_u8 {
        put_stream(desk, places, stream, requests.stream(stream), room, out)?;
    }
    Ok(())
}
