ghost use Rattle.std.specs.Prelude.{◌≡◌, ◌<◌, ℕ, IfOk, length, map};
ghost use Rattle.core_reports.specs.Rooms.{IsRoomFor};

use crate::entered::{StreamEntries, room_for_entries};
use crate::notes::StreamNotes;
use data_vio::{MOST_STREAMS, REQUEST_ROOM, Register};
use std::alloc::{AllocError, Global};
use std::marker::Model;
use vdo_model::{HistoryEntry, Placed, Requests};

/// Room for the report of a session, taken when its core begins: for the places and histories of as many requests as
/// there may be, and to note where each answer stands and whether each entry was handed in. A contract sees for how many
/// requests of each stream it is.
#[derive(Drop)]
pub struct ReportRoom {
    pub(crate) places: Register<Placed, REQUEST_ROOM>,
    pub(crate) histories: Register<HistoryEntry, REQUEST_ROOM>,
    pub(crate) notes: Vec<StreamNotes>,
    pub(crate) entered: Vec<StreamEntries>,
}

impl Model for ReportRoom {
    ghost use Rattle.std.specs.Prelude.{ℕ, ◌≡◌, List, [], length, map};
    ghost use Rattle.core_reports.specs.Found.{AreEntered};

    ghost Value = { List ℕ };

    ghost view = { λ r. map length r.notes.items };

    ghost invariant = { λ r. record {
      places : r.places ≡ [];
      histories : r.histories ≡ [];
      entered : AreEntered [] (map length r.notes.items) r.entered.items;
    } };
}

// Room to note the answers of all streams.
// Long to prove: a push may find no memory in each turn.
fn room_for_notes(alloc: Global, requests: &Requests) -> Result<Vec<StreamNotes>, AllocError>
    ensures { IfOk result (λ notes. IsRoomFor (map length notes.items) requests.now) }
{
    let mut notes = Vec::with_capacity(alloc, MOST_STREAMS)?;
    for stream in 0..MOST_STREAMS {
        let count = requests.stream(stream as u8).len();
        notes.push_reserved(StreamNotes::with_room_for(alloc, count)?);
    }
    Ok(notes)
}

impl ReportRoom {
    // For the places and histories of as many requests as there may be, and by the script to note where each answer
    // stands and whether each entry was handed in.
    /// Room for the report of a session with these requests. It fails where memory runs out.
    pub fn with_room_for(alloc: Global, requests: &Requests) -> Result<ReportRoom, AllocError>
        ensures { IfOk result (λ room. IsRoomFor room requests.now) }
    {
        let places = Register::new(alloc)?;
        let histories = Register::new(alloc)?;
        let notes = room_for_notes(alloc, requests)?;
        let entered = room_for_entries(alloc, &notes)?;
        Ok(ReportRoom {
            places,
            histories,
            notes,
            entered,
        })
    }
}
