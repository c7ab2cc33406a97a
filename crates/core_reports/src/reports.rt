ghost use Rattle.std.specs.Prelude.{◌≡◌};
ghost use Rattle.vdo_model.specs.DeskLog.{AllAnswered};
ghost use Rattle.core_model.specs.Legal.{Legal};
ghost use Rattle.core_model.specs.Reports.{report_of};
ghost use Rattle.core_model.specs.Sessions.{IsSession, Session};
ghost use Rattle.core_model.specs.Trace.{Trace, lines};
ghost use Rattle.core_reports.specs.Rooms.{IsRoomFor};

use crate::histories::list_histories;
use crate::lists::{damage, desk_report, list_places, total_space, used_space};
use crate::room::ReportRoom;
use core_model::Zone;
use vdo_model::RunReport;

/// The report of a core that is done: its requests, desk log, marks and receipts are moved out of the desk, its places
/// are those of the zones, one zone's behind the other's, its histories have an entry for each write that has a place,
/// its damage is what the device's zone found first, and its used blocks are those that the physical zones count. It
/// asks for no memory; its time is linear in the requests, for each of the 16 streams, and in the entries. Of a core
/// that isn't legal, or isn't done, it gives some report.
pub fn report(zones: Vec<Zone>, room: ReportRoom) -> RunReport
    ensures { (s : Session) (t : Trace) → IsSession s →
        Legal s (record { zones = zones.items; trace = t }) → AllAnswered s.script (lines t)
        → IsRoomFor room s.script → result ≡ report_of s t }
{
    let ReportRoom {
        mut places,
        mut histories,
        mut notes,
        mut entered,
    } = room;
    list_places(&zones, &mut places);
    list_histories(
        &zones,
        places.as_slice(),
        &mut notes,
        &mut entered,
        &mut histories,
    );
    let damage = damage(&zones);
    let used = used_space(&zones);
    let total = total_space(&zones);
    let desk = desk_report(zones);
    RunReport {
        requests: desk.requests,
        desk: desk.log,
        marks: desk.marks,
        receipts: desk.receipts,
        places: places.into_list(),
        histories: histories.into_list(),
        damage,
        used,
        total,
    }
}
