ghost use Rattle.std.specs.Prelude.{◌≡◌, ◌&&◌, ◌||◌, not, ℕ, List};
ghost use Rattle.std.specs.List.{list_any};
ghost use Rattle.disk_model.specs.declared.faults.CallKind.{CallKind};
ghost use Rattle.disk_model.specs.declared.faults.FaultAt.{FaultAt};
ghost use Rattle.disk_model.specs.Fuses.{is_cut};
ghost use Rattle.disk_model.specs.Plans.{named, takes_effect, counted, counted_all, is_nth};

use crate::Fuse;
use blk_base::Pbn;

/// The kinds of call of a device.
#[derive(Clone, Copy, Debug, PartialEq, Eq)]
pub enum CallKind {
    Read,
    Write,
    Flush,
}

/// A call that is to fail: the one with the number `nth`, from 0, among the calls of its kind at its block. Of a flush
/// the block isn't looked at. A write takes effect before it fails where `effect` is true of one of the faults that name
/// it; of the other kinds `effect` isn't looked at.
#[derive(Clone, Copy, Debug, PartialEq, Eq)]
pub struct FaultAt {
    pub kind: CallKind,
    pub at: Pbn,
    pub nth: u32,
    pub effect: bool,
}

impl FaultAt {
    ghost use Rattle.std.specs.Prelude.{◌≡◌};
    ghost use Rattle.disk_model.specs.Plans.{counts, strikes, counted_down};

    // Whether it counts a call of this kind at this block.
    // Long to prove: each arm is shown to count its own calls.
    fn counts(&self, kind: CallKind, at: Pbn) -> bool
        ensures { result ≡ counts self.now kind at.0 }
    {
        match (self.kind, kind) {
            (CallKind::Read, CallKind::Read) | (CallKind::Write, CallKind::Write) => self.at == at,
            (CallKind::Flush, CallKind::Flush) => true,
            _ => false,
        }
    }

    // Whether it names the next call, if that is of this kind at this block.
    fn strikes(&self, kind: CallKind, at: Pbn) -> bool
        ensures { result ≡ strikes self.now kind at.0 }
    {
        self.counts(kind, at) && self.nth == 0
    }

    // The fault after a call of this kind at this block.
    fn counted_down(self, kind: CallKind, at: Pbn) -> FaultAt
        ensures { result ≡ counted_down self kind at.0 }
    {
        let nth = if self.counts(kind, at) {
            self.nth.saturating_sub(1)
        } else {
            self.nth
        };
        FaultAt { nth, ..self }
    }
}

/// What a fuse and planned faults make of a call.
#[derive(Clone, Copy)]
pub(crate) struct Course {
    pub fails: bool,
    /// Whether a call that fails takes effect first.
    pub effect: bool,
}

/// What a fuse and planned faults make of a call of this kind at this block, which is counted for the faults. Once the
/// fuse is spent no call has an effect.
pub(crate) fn take_course(plan: &mut Vec<FaultAt>, fuse: Fuse, kind: CallKind, at: Pbn) -> Course
    ensures fails { result.fails ≡ (is_cut fuse || named plan.old.items kind at.0) }
    ensures effect { result.effect ≡ (not (is_cut fuse) && takes_effect plan.old.items kind at.0) }
    ensures counted { plan.new.items ≡ counted plan.old.items kind at.0 }
{
    let course = look_up(plan, kind, at);
    count(plan, kind, at);
    Course {
        fails: fuse.is_cut() || course.fails,
        effect: !fuse.is_cut() && course.effect,
    }
}

// What these faults make of a call of this kind at this block.
fn look_up(plan: &[FaultAt], kind: CallKind, at: Pbn) -> Course
    ensures fails { result.fails ≡ named plan.now kind at.0 }
    ensures effect { result.effect ≡ takes_effect plan.now kind at.0 }
{
    Course {
        fails: plan.iter().any(|fault| fault.strikes(kind, at)),
        effect: plan
            .iter()
            .any(|fault| fault.strikes(kind, at) && fault.effect),
    }
}

// Counts a call of this kind at this block, and drops the faults that named it.
fn count(plan: &mut Vec<FaultAt>, kind: CallKind, at: Pbn)
    ensures { plan.new.items ≡ counted plan.old.items kind at.0 }
{
    let mut rest = plan.len();
    while rest > 0 {
        rest -= 1;
        let fault = plan[rest];
        if fault.strikes(kind, at) {
            plan.remove(rest);
        } else {
            plan[rest] = fault.counted_down(kind, at);
        }
    }
}

/// After any calls, the newest first, a planned fault names the next call exactly where that has its number among the
/// calls that it counts. It does nothing.
pub fn faults_of_a_plan()
    ensures names { (plan : List FaultAt) (calls : List (CallKind × ℕ)) (kind : CallKind) (at : ℕ)
        →
        named (counted_all plan calls) kind at
        ≡ list_any (λ fault. is_nth calls kind at fault) plan }
    ensures effect { (plan : List FaultAt) (calls : List (CallKind × ℕ)) (kind : CallKind) (at : ℕ)
        → takes_effect (counted_all plan calls) kind at
        ≡ list_any (λ fault. is_nth calls kind at fault && fault.effect) plan }
{}
