ghost use Rattle.std.specs.Prelude.{◌≡◌, ◌∷◌, ◌++◌, ℕ, List, length, nat_le, reverse};
ghost use Rattle.disk_model.specs.declared.call.Call.{Call};
ghost use Rattle.disk_model.specs.Fuses.{is_cut, burnt, burnt_all};

use crate::Call;

/// When the calls of a device in memory begin to fail for good.
#[derive(Clone, Copy, PartialEq, Eq)]
pub enum Fuse {
    /// Never.
    Unset,
    /// After so many calls.
    Passes(u64),
    /// They do; the log had so many calls with the first that failed.
    Spent(u64),
}

impl Fuse {
    /// Whether the next call fails by it.
    pub(crate) fn is_cut(self) -> bool
        ensures { result ≡ is_cut self }
    {
        match self {
            Fuse::Unset => false,
            Fuse::Passes(passes) => passes == 0,
            Fuse::Spent(_) => true,
        }
    }

    /// The fuse after a call that left this log, the oldest call first.
    pub(crate) fn burnt(self, calls: &[Call]) -> Fuse
        ensures { result ≡ burnt self (reverse calls.now) }
    {
        match self {
            Fuse::Passes(0) => Fuse::Spent(calls.len() as u64),
            Fuse::Passes(passes) => Fuse::Passes(passes - 1),
            Fuse::Unset | Fuse::Spent(_) => self,
        }
    }
}

/// After any calls, given by the logs that they left, the newest first: exactly those behind the first `passes` fail by the
/// fuse, and it keeps how long the log was with the first of them. It does nothing.
pub fn calls_that_a_fuse_cuts()
    ensures cut { (passes : ℕ) (logs : List (List Call)) →
        is_cut (burnt_all (Fuse.Passes passes) logs) ≡ nat_le passes (length logs) }
    ensures kept { (later : List (List Call)) (log : List Call) (older : List (List Call))
        → burnt_all (Fuse.Passes (length older)) (later ++ log ∷ older) ≡ Fuse.Spent (length log) }
{}
