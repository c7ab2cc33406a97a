ghost use Rattle.std.specs.Prelude.{◌++◌};
ghost use Rattle.stream_text.specs.AnswerRooms.{HasRoomFor};
ghost use Rattle.disk_model.specs.Streams.{Puts};
ghost use Rattle.stream_text.specs.Texts.{answers_text};
ghost use Rattle.command_text.specs.Runs.{ending_text, run_text};

use crate::parts::{DamagedPlace, Space, put_damage, put_known, put_recovered};
use disk_model::{Failed, Sink};
use stream_text::{AnswerRoom, put_answers};
use vdo_model::{Requests, RunReport};

/// What a run prints beside its answers.
#[derive(Clone, Copy, Debug, PartialEq, Eq)]
pub struct RunNotes {
    /// How many entries of the journal were recovered before, if the image wasn't clean.
    pub recovered: Option<u32>,
    pub damage: Option<DamagedPlace>,
    /// How many data blocks are used, where that is known.
    pub space: Option<Space>,
}

fn put_ending<K: Sink>(notes: &RunNotes, out: &mut K) -> Result<(), Failed>
    ensures { Puts K.tells (ending_text notes.now) (K.seen out.old) (K.seen out.new) result }
{
    put_damage(notes.damage, out)?;
    put_known(notes.space, out)
}

fn put_answers_and_ending<K: Sink>(
    requests: &Requests,
    report: &RunReport,
    notes: &RunNotes,
    room: &mut AnswerRoom,
    out: &mut K,
) -> Result<(), Failed>
    requires { HasRoomFor room.old requests.now }
    ensures { Puts K.tells
        (answers_text requests.now report.now.desk report.now.places ++ ending_text notes.now)
        (K.seen out.old) (K.seen out.new) result }
{
    put_answers(requests, report, room, out)?;
    put_ending(notes, out)
}

/// Puts `recovered 30 entries` where the image wasn't clean, the line of each answered request as `put_answers` does,
/// `damage: page 85` or `damage: count 86` where there is damage, and `used 2 of 64` where that is known. It takes no memory. It fails where the
/// sink fails; then a first part of the text was put.
pub fn put_run<K: Sink>(
    requests: &Requests,
    report: &RunReport,
    notes: &RunNotes,
    room: &mut AnswerRoom,
    out: &mut K,
) -> Result<(), Failed>
    requires { HasRoomFor room.old requests.now }
    ensures { Puts K.tells
        (run_text requests.now report.now.desk report.now.places notes.now)
        (K.seen out.old) (K.seen out.new) result }
{
    put_recovered(notes.recovered, out)?;
    put_answers_and_ending(requests, report, notes, room, out)
}
