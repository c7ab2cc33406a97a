ghost use Rattle.std.specs.Prelude.{◌≡◌, ◌<◌, ◌++◌, Some, List, [], ◌∷◌, IfNone, IfSome, length, map, reverse};
ghost use Rattle.blk_base.specs.declared.request.Answer.TheVariants.{Stopped};
ghost use Rattle.vdo_model.specs.DeskLog.{answer_of};
ghost use Rattle.vdo_model.specs.Histories.{Progress, entry_of, histories_of, mark_of};
ghost use Rattle.vdo_model.specs.Scripts.{request_at};
ghost use Rattle.vdo_model.specs.declared.report.Mark.{Mark as Marked};
ghost use Rattle.core_model.specs.DeskData.{Desk as DeskData};
ghost use Rattle.data_vio.specs.declared.logged.Logged.{Logged as Entered};
ghost use Rattle.core_reports.specs.Found.{AreEntered, AreFound, AreNoted, IsFound, entered_in};
ghost use Rattle.core_reports.specs.Listed.{HasDesk, HasEntered};

use crate::entered::{StreamEntries, is_entered, note_entries};
use crate::lists::entries;
use crate::marks::mark;
use crate::notes::{StreamNotes, note_streams, noted_line};
use blk_base::{Lba, Request, Writer};
use core_model::{Zone, ZoneData};
use data_vio::{REQUEST_ROOM, Register};
use vdo_model::{DeskLine, HistoryEntry, Placed, Requests};

// The address that a request changes, where it is a write or a discard.
fn changed(requests: &Requests, request: Writer) -> Option<Lba>
    ensures some { IfSome result (λ at.
        (mark : Marked) →
        entry_of (request_at requests.now request) request mark
        ≡ record { at = at; request = request; mark = mark } ∷ []) }
    ensures none { IfNone result
        ((mark : Marked) → entry_of (request_at requests.now request) request mark ≡ []) }
{
    match requests.stream(request.stream).get(request.number as usize) {
        Some(Request::Write { at, .. } | Request::Discard(at)) => Some(*at),
        Some(Request::Read(_) | Request::Flush) | None => None,
    }
}

// Adds what a request that has a place adds to the histories, while there is room for it.
fn add_entry(
    requests: &Requests,
    desk: &[DeskLine],
    notes: &[StreamNotes],
    entered: &[StreamEntries],
    request: Writer,
    histories: &mut Register<HistoryEntry, REQUEST_ROOM>,
)
    ensures { (progress : Progress) →
        (answer_of (reverse desk.now) request ≡ Some Stopped → progress.is_handed request
        ≡ entered_in entered.now request) →
        AreNoted desk.now notes.now
        → IsFound (reverse desk.now) (map length notes.now) request →
        length histories.old < REQUEST_ROOM
        →
        histories.new
        ≡ entry_of (request_at requests.now request) request
        (mark_of (answer_of (reverse desk.now) request) (progress.is_set request)
        (progress.is_handed request)) ++ histories.old }
{
    let Some(at) = changed(requests, request) else {
        return;
    };
    if histories.len() < REQUEST_ROOM {
        let mark = mark(
            desk,
            noted_line(notes, request),
            is_entered(entered, request),
        );
        histories.push(HistoryEntry { at, request, mark });
    }
}

// Adds what the requests of these places add to the histories, in the order of the places.
fn add_entries(
    requests: &Requests,
    desk: &[DeskLine],
    notes: &[StreamNotes],
    entered: &[StreamEntries],
    places: &[Placed],
    histories: &mut Register<HistoryEntry, REQUEST_ROOM>,
)
    ensures { (progress : Progress) (entries : List Entered) → histories.old ≡ []
        → AreNoted desk.now notes.now → AreEntered entries (map length notes.now) entered.now
        →
        AreFound (reverse desk.now) (map length notes.now) entries progress (reverse places.now)
        →
        histories.new ≡ histories_of requests.now (reverse desk.now) progress (reverse places.now) }
{
    for placed in places {
        add_entry(requests, desk, notes, entered, placed.request, histories);
    }
}

/// Lists the histories: the writes and discards among these places, in the order of the places.
pub(crate) fn list_histories(
    zones: &[Zone],
    places: &[Placed],
    notes: &mut [StreamNotes],
    entered: &mut [StreamEntries],
    histories: &mut Register<HistoryEntry, REQUEST_ROOM>,
)
    ensures { (desk : DeskData) (entries : List Entered) (progress : Progress) →
        HasDesk desk zones.now → HasEntered entries zones.now → histories.old ≡ []
        → AreEntered [] (map length notes.old) entered.old
        → AreFound desk.log (map length notes.old) entries progress (reverse places.now)
        → histories.new ≡ histories_of desk.requests desk.log progress (reverse places.now) }
{
    let Some(zone) = zones.first() else {
        return;
    };
    if let ZoneData::Desk(desk) = &zone.keeps {
        let lines = desk.lines();
        note_streams(lines, notes);
        note_entries(entered, entries(zones));
        add_entries(desk.requests(), lines, notes, entered, places, histories);
    }
}
