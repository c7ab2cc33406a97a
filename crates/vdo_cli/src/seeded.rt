ghost use Rattle.std.specs.Prelude.{◌≡◌, ◌<◌, ◌^◌, IfOk, IfErr};
ghost use Rattle.disk_model.specs.Seen.{Seen};
ghost use Rattle.vdo_cli.specs.Commands as commands;
ghost use Rattle.vdo_cli.specs.Commands.{IsWorkload};
ghost use Rattle.vdo_cli.specs.Endings.{KeepsImage, ServesRequests};
ghost use Rattle.vdo_cli.specs.Openings.{IsReady, IsReadyNow};
ghost use Rattle.vdo_cli.specs.Workloads as workloads;
ghost use Rattle.vdo_cli.specs.Workloads.{ServesWorkload, WorkloadFails, requests_for};

use crate::Fault;
use crate::endings::fault_of;
use crate::ready::{Ready, get_ready, recovered_of};
use crate::session::{SessionFault, serve};
use crate::words::course_of;
use command_text::{Space, Summary, Tally};
use disk_model::Disk;
use rebuild::Recovered;
use std::alloc::{AllocError, Global};
use std::sync::Wait;
use stream_text::workload;
use vdo_model::{Requests, RunReport};
use vdo_words::WorkloadOptions;

/// What a session of a workload left: what was recovered before, and its report.
#[derive(Drop)]
pub(crate) struct Worked {
    pub(crate) found: Recovered,
    pub(crate) report: RunReport,
}

// The requests of the seed, at addresses below the logical size.
// Long to prove: the options are shown to be within what is drawn.
fn draw_requests(
    alloc: Global,
    options: &WorkloadOptions,
    logical: u32,
) -> Result<Requests, AllocError>
    requires within { IsWorkload options.now }
    requires logical { 0 < logical }
    ensures { IfOk result (λ requests. requests ≡ requests_for options.now logical) }
{
    workload(
        alloc,
        options.seed,
        options.requests,
        options.streams as u8,
        logical,
    )
}

// Draws requests for an image that is ready, and serves them. It fails where memory runs out, and then nothing was done.
fn serve_drawn<R: Wait, D: Disk>(
    rt: &R,
    alloc: Global,
    options: &WorkloadOptions,
    ready: &Ready,
    device: &mut D,
) -> Result<RunReport, AllocError>
    requires within { IsWorkload options.now }
    requires ready { IsReadyNow D.trust (D.seen device.old)
        ready.now.found ready.now.start }
    requires named { ready.now.start.head.geometry.nonce < 2 ^ 64 }
    ensures serves { IfOk result (λ report. (before : Seen)
        → IsReady D.trust before (D.seen device.old) ready.now.found ready.now.start
        → ServesRequests D.trust
        (commands.course_of options.now.schedule options.now.core) ready.now.found ready.now.start report before (D.seen device.new)) }
    ensures requests { IfOk result (λ report.
        report.requests ≡ requests_for options.now ready.now.start.head.geometry.logical) }
    ensures unserved { IfErr result (λ e. D.seen device.new ≡ D.seen device.old) }
{
    let requests = draw_requests(alloc, options, ready.start.head.geometry.logical)?;
    let course = course_of(options.schedule, &options.core);
    serve(rt, alloc, course, ready, requests, device)
}

/// Recovers the image where its last session wasn't closed, opens it, and serves the requests of a seed. Before the session nothing
/// is written but by the recovery.
pub(crate) fn work<R: Wait, D: Disk>(
    rt: &R,
    alloc: Global,
    options: &WorkloadOptions,
    device: &mut D,
) -> Result<Worked, SessionFault>
    requires { IsWorkload options.now }
    ensures session { IfOk result (λ worked. ServesWorkload D.trust
        options.now worked.found worked.report (D.seen device.old) (D.seen device.new)) }
    ensures fault { IfErr result (λ not. WorkloadFails D.trust
        (D.seen device.old) (D.seen device.new) not.recovered not.fault) }
    ensures early { IfErr result (λ not. KeepsImage D.trust
        (D.seen device.old) (D.seen device.new)) }
{
    let ready = match get_ready(alloc, device) {
        Ok(ready) => ready,
        Err(not) => {
            return Err(SessionFault {
                recovered: not.recovered,
                fault: fault_of(not.why),
            });
        }
    };
    let Ok(report) = serve_drawn(rt, alloc, options, &ready, device) else {
        return Err(SessionFault {
            recovered: recovered_of(ready.found),
            fault: Fault::Memory,
        });
    };
    Ok(Worked {
        found: ready.found,
        report,
    })
}

/// How many requests there were, how they were answered, and how much of the space is used.
pub(crate) fn summary_of(
    recovered: Option<u32>,
    options: &WorkloadOptions,
    report: &RunReport,
) -> Summary
    ensures { result ≡ workloads.summary_of recovered options.now report.now }
{
    Summary {
        recovered,
        requests: options.requests,
        tally: Tally::of_desk(report.desk.as_slice()),
        space: Some(Space {
            used: report.used,
            total: report.total,
        }),
    }
}
