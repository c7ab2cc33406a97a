ghost use Rattle.std.specs.Prelude.{◌≡◌, ◌<◌, ◌≤◌, ◌^◌, [], Ok, IfOk, IfErr, IsTrue};
ghost use Rattle.disk_model.specs.Seen.{Seen};
ghost use Rattle.stream_text.specs.AnswerRooms.{HasRoomFor};
ghost use Rattle.stream_text.specs.ReadingBytes.{IsWholeScript};
ghost use Rattle.stream_text.specs.WholeScript.{whole_script};
ghost use Rattle.vdo_cli.specs.Commands.{IsSetup};
ghost use Rattle.vdo_cli.specs.Endings.{KeepsImage, RunsSession, ServesRequests, PlayFails, ScriptFails};
ghost use Rattle.vdo_cli.specs.Openings.{IsReady, IsReadyNow};
ghost use Rattle.vdo_cli.specs.Outsides.{input_setting, inputs};

use crate::Fault;
use crate::endings::fault_of;
use crate::ready::{Ready, get_ready, recovered_of};
use crate::words::Course;
use disk_model::{Disk, Source};
use rebuild::Recovered;
use schedule::{Schedule, drive};
use std::alloc::{AllocError, Global};
use std::sync::Wait;
use stream_text::{AnswerRoom, ReadScript, read_script};
use vdo_core::Core;
use vdo_model::{Requests, RunReport};

/// What a session left: what was recovered before, its report, and room to put its answers.
#[derive(Drop)]
pub(crate) struct Played {
    pub(crate) found: Recovered,
    pub(crate) report: RunReport,
    pub(crate) room: AnswerRoom,
}

/// Why no session was begun, and how many entries were recovered before.
#[derive(Drop)]
pub(crate) struct SessionFault {
    pub(crate) recovered: Option<u32>,
    pub(crate) fault: Fault,
}

// Long to prove: each clause is shown on each way out.
/// Reads the requests of the script, and says its refusal as a fault of the run.
pub(crate) fn read_requests<S: Source>(alloc: Global, script: &mut S) -> Result<Requests, Fault>
    ensures script { IsTrue S.tells → IfOk result (λ requests.
        (whole_script (S.seen script.old).left ≡ Ok requests) × ((S.seen script.new).left ≡ [])) }
    ensures shape { IfOk result IsWholeScript }
    ensures fault { IfErr result (ScriptFails S.tells (S.seen script.old) (S.seen script.new)) }
    ensures later { (S.seen script.old).faults ≤ (S.seen script.new).faults }
{
    match read_script(alloc, script) {
        Ok(requests) => Ok(requests),
        Err(ReadScript::Script(refusal)) => Err(Fault::Script(refusal)),
        Err(ReadScript::Read) => Err(Fault::Read),
        Err(ReadScript::Memory) => Err(Fault::Memory),
    }
}

// Long to prove: what a core did is told again of the whole call.
/// Serves requests so on an image that is ready, and tells what became of them. It fails where no
/// memory is found to begin, and then nothing was done.
pub(crate) fn serve<R: Wait, D: Disk>(
    rt: &R,
    alloc: Global,
    course: Course,
    ready: &Ready,
    requests: Requests,
    device: &mut D,
) -> Result<RunReport, AllocError>
    requires ready { IsReadyNow D.trust (D.seen device.old)
        ready.now.found ready.now.start }
    requires named { ready.now.start.head.geometry.nonce < 2 ^ 64 }
    requires whole { IsWholeScript requests }
    requires setup { IsSetup course.setup }
    ensures serves { IfOk result (λ report. (before : Seen)
        → IsReady D.trust before (D.seen device.old) ready.now.found ready.now.start
        → ServesRequests D.trust
        course ready.now.found ready.now.start report before (D.seen device.new)) }
    ensures requests { IfOk result (λ report. report.requests ≡ requests) }
    ensures unserved { IfErr result (λ e. D.seen device.new ≡ D.seen device.old) }
{
    let mut core = Core::begin(alloc, &course.setup, &ready.start, requests)?;
    drive(
        rt,
        &mut core,
        &mut Schedule::from_number(course.schedule),
        device,
    );
    Ok(core.report())
}

// Long to prove: each clause is shown on each way out.
/// Recovers the image where its last session wasn't closed, opens it, reads the script, and serves its requests so. Before the
/// session nothing is written but by the recovery.
pub(crate) fn play<R: Wait, D: Disk, S: Source>(
    rt: &R,
    alloc: Global,
    course: Course,
    device: &mut D,
    script: &mut S,
) -> Result<Played, SessionFault>
    requires setup { IsSetup course.setup }
    ensures session { IfOk result (λ played. RunsSession (input_setting D.trust S.tells)
        course played.found played.report
        (inputs (D.seen device.old) (S.seen script.old))
        (inputs (D.seen device.new) (S.seen script.new))) }
    ensures room { IfOk result (λ played. HasRoomFor played.room played.report.requests) }
    ensures fault { IfErr result (λ not. PlayFails (input_setting D.trust S.tells)
        (inputs (D.seen device.old) (S.seen script.old))
        (inputs (D.seen device.new) (S.seen script.new)) not.recovered not.fault) }
    ensures early { IfErr result (λ not. KeepsImage D.trust
        (D.seen device.old) (D.seen device.new)) }
    ensures later { (S.seen script.old).faults ≤ (S.seen script.new).faults }
{
    let ready = match get_ready(alloc, device) {
        Ok(ready) => ready,
        Err(not) => {
            return Err(SessionFault {
                recovered: not.recovered,
                fault: fault_of(not.why),
            });
        }
    };
    let recovered = recovered_of(ready.found);
    let requests = match read_requests(alloc, script) {
        Ok(requests) => requests,
        Err(fault) => return Err(SessionFault { recovered, fault }),
    };
    let Ok(room) = AnswerRoom::with_room_for(alloc, &requests) else {
        return Err(SessionFault {
            recovered,
            fault: Fault::Memory,
        });
    };
    let Ok(report) = serve(rt, alloc, course, &ready, requests, device) else {
        return Err(SessionFault {
            recovered,
            fault: Fault::Memory,
        });
    };
    Ok(Played {
        found: ready.found,
        report,
        room,
    })
}
