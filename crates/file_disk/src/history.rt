ghost use Rattle.std.specs.Prelude.{◌≡◌, [], ◌∷◌};
ghost use Rattle.disk_model.specs.declared.call.Call.TheVariants.{Read, Write, Flush};

use blk_base::{Block, Pbn};
use std::marker::Model;
use std::snapshot::Snapshot;

/// The calls of a device, the newest first, for clauses alone: it takes no more room for many calls than for one.
#[cycle(history)]
#[derive(Drop)]
pub(crate) struct History {
    newest: Newest,
}

// The newest call, whether it succeeded, and the calls before it.
#[cycle(history)]
#[derive(Drop)]
enum Newest {
    None,
    Read {
        at: Pbn,
        bytes: Snapshot<Block>,
        ok: bool,
        older: Snapshot<History>,
    },
    Write {
        at: Pbn,
        bytes: Snapshot<Block>,
        ok: bool,
        older: Snapshot<History>,
    },
    Flush {
        ok: bool,
        older: Snapshot<History>,
    },
}

impl Model for History {
    ghost use Rattle.std.specs.Prelude.{List, length};
    ghost use Rattle.disk_model.specs.declared.call.Call.{Call};

    ghost Value = { List Call };

    ghost use Rattle.file_disk.specs.Histories.{calls_of};

    ghost view = { λ history. calls_of history.newest };

    ghost size = { length };

    ghost use Rattle.std.proofs.Common.{arith};

    ghost size_decreases = { λ history h. Prim.grind arith };
}

impl History {
    // No call yet.
    pub(crate) fn new() -> History
        ensures { result ≡ [] }
    {
        History {
            newest: Newest::None,
        }
    }

    // A read that left these bytes.
    pub(crate) fn add_read(&mut self, at: Pbn, bytes: &Block, ok: bool)
        ensures { self.new ≡ Read at bytes.now ok ∷ self.old }
    {
        self.newest = Newest::Read {
            at,
            bytes: Snapshot::of(bytes),
            ok,
            older: Snapshot::of(self),
        };
    }

    // A write of these bytes.
    pub(crate) fn add_write(&mut self, at: Pbn, bytes: &Block, ok: bool)
        ensures { self.new ≡ Write at bytes.now ok ∷ self.old }
    {
        self.newest = Newest::Write {
            at,
            bytes: Snapshot::of(bytes),
            ok,
            older: Snapshot::of(self),
        };
    }

    // A flush.
    pub(crate) fn add_flush(&mut self, ok: bool)
        ensures { self.new ≡ Flush ok ∷ self.old }
    {
        self.newest = Newest::Flush {
            ok,
            older: Snapshot::of(self),
        };
    }
}
