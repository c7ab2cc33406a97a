ghost use Rattle.std.specs.Prelude.{◌++◌, Some, codes, decimal};
ghost use Rattle.disk_model.specs.Streams.{Puts};
ghost use Rattle.stream_text.specs.Texts.{request_text, answer_text, place_text, line_text, writer};

use crate::puts::put_all;
use crate::runs::put_runs;
use blk_base::{Answer, Lba, Request};
use disk_model::{Failed, Sink};
use vdo_model::Placed;

fn put_command<K: Sink>(command: &[u8], at: Lba, out: &mut K) -> Result<(), Failed>
    ensures { Puts K.tells
        (command.now ++ decimal at.0 ++ codes " ")
        (K.seen out.old) (K.seen out.new) result }
{
    let mut address = itoa::Buffer::new();
    let pieces = [command, address.format(at.0).as_bytes(), b" "];
    put_all(&pieces, out)
}

// Puts what was asked for, and a space.
fn put_request<K: Sink>(request: &Request, out: &mut K) -> Result<(), Failed>
    ensures { Puts K.tells
        (request_text request.now ++ codes " ")
        (K.seen out.old) (K.seen out.new) result }
{
    match request {
        Request::Read(at) => put_command(b"read ", *at, out),
        Request::Write { at, .. } => put_command(b"write ", *at, out),
        Request::Discard(at) => put_command(b"discard ", *at, out),
        Request::Flush => out.put(b"flush "),
    }
}

fn put_answer<K: Sink>(answer: &Answer, out: &mut K) -> Result<(), Failed>
    ensures { Puts K.tells (answer_text answer.now) (K.seen out.old) (K.seen out.new) result }
{
    let word: &[u8] = match answer {
        Answer::Bytes(block) => return put_runs(&block.get().bytes, out),
        Answer::Ok => b"ok",
        Answer::Range => b"range",
        Answer::NoSpace => b"no space",
        Answer::Full => b"full",
        Answer::ReadFault => b"read fault",
        Answer::Stopped => b"stopped",
        Answer::Damaged => b"damaged",
    };
    out.put(word)
}

fn put_placed<K: Sink>(placed: Placed, out: &mut K) -> Result<(), Failed>
    ensures { Puts K.tells
        (place_text (Some placed) ++ codes "\n")
        (K.seen out.old) (K.seen out.new) result }
{
    let mut zone = itoa::Buffer::new();
    let mut place = itoa::Buffer::new();
    let pieces: [&[u8]; 5] = [
        b" z",
        zone.format(placed.zone).as_bytes(),
        b":",
        place.format(placed.place).as_bytes(),
        b"\n",
    ];
    put_all(&pieces, out)
}

// Puts the place, and the end of the line.
fn put_ending<K: Sink>(place: Option<Placed>, out: &mut K) -> Result<(), Failed>
    ensures { Puts K.tells
        (place_text place ++ codes "\n")
        (K.seen out.old) (K.seen out.new) result }
{
    match place {
        Some(placed) => put_placed(placed, out),
        None => out.put(b"\n"),
    }
}

fn put_name<K: Sink>(stream: u8, number: usize, out: &mut K) -> Result<(), Failed>
    ensures { Puts K.tells
        (decimal stream ++ codes " " ++ decimal number ++ codes " ")
        (K.seen out.old) (K.seen out.new) result }
{
    let mut row = itoa::Buffer::new();
    let mut column = itoa::Buffer::new();
    let pieces = [
        row.format(stream).as_bytes(),
        b" ",
        column.format(number).as_bytes(),
        b" ",
    ];
    put_all(&pieces, out)
}

/// Puts the line of an answered request. It fails where the sink fails; then a first part of the line was put.
pub(crate) fn put_line<K: Sink>(
    stream: u8,
    number: usize,
    request: &Request,
    answer: &Answer,
    place: Option<Placed>,
    out: &mut K,
) -> Result<(), Failed>
    ensures { Puts K.tells
        (line_text (writer stream number) request.now (Some answer.now) place)
        (K.seen out.old) (K.seen out.new) result }
{
    put_name(stream, number, out)?;
    put_request(request, out)?;
    put_answer(answer, out)?;
    put_ending(place, out)
}
