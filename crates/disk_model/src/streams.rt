ghost use Rattle.std.specs.Prelude.{◌≡◌, ◌<◌, ◌≤◌, ◌++◌, [], Bool, length, take, IsTrue, IfOk, OnErr};
ghost use Rattle.disk_model.specs.Causes.{HasCause};
ghost use Rattle.disk_model.specs.Streams.{Puts, SinkSeen, SourceSeen};

use crate::Failed;
use blk_base::ZoneId;

/// A source of bytes. One that tells says which bytes are left.
pub trait Source {
    /// Whether sources of this type tell the bytes that are left.
    ghost tells: { Bool };

    /// What contracts see of a source: the bytes that are left, and how often a take failed.
    ghost seen: { Self → SourceSeen };

    /// Puts the next bytes into the front of `into`, and gives how many: 0 exactly where none is left. `Failed`, which
    /// takes none, comes only where the count of faults rose; then `into` has any content.
    fn take(&mut self, into: &mut [u8]) -> Result<usize, Failed>
        requires { 0 < length into.old }
        ensures count { IfOk result (λ n. n ≤ length into.new) }
        ensures given { IsTrue tells → IfOk result (λ n.
            (seen self.old).left ≡ take n into.new ++ (seen self.new).left) }
        ensures end { IsTrue tells → IfOk result (λ n. n ≡ 0 → (seen self.old).left ≡ []) }
        ensures kept { IsTrue tells → OnErr result ((seen self.new).left ≡ (seen self.old).left) }
        ensures cause { HasCause (seen self.old).faults (seen self.new).faults result };
}

/// A sink of bytes. One that tells says which bytes it holds.
pub trait Sink {
    /// Whether sinks of this type tell the bytes that they hold.
    ghost tells: { Bool };

    /// What contracts see of a sink: the bytes that it holds, and how often a put failed.
    ghost seen: { Self → SinkSeen };

    /// Adds bytes. After `Failed`, which comes only where the count of faults rose, it has added a first part of them.
    fn put(&mut self, bytes: &[u8]) -> Result<(), Failed>
        ensures { Puts tells bytes.now (seen self.old) (seen self.new) result };
}

/// A gate before each step of a zone.
pub trait ZoneGate {
    /// Called with the zone and the number of the step that comes next. It returns, after as many turns as its own
    /// bound allows.
    fn before(&self, zone: ZoneId, step: u64);
}

/// A gate that returns at once.
#[derive(Clone, Copy, Debug, PartialEq, Eq)]
pub struct OpenGate;

impl ZoneGate for OpenGate {
    fn before(&self, _zone: ZoneId, _step: u64) {}
}
