ghost use Rattle.std.specs.Prelude.{◌≡◌, [], ◌∷◌, true};
ghost use Rattle.disk_model.specs.declared.call.Call.TheVariants.{Read, Write, Flush};

use blk_base::{Block, Pbn};
use std::marker::Model;
use std::snapshot::Snapshot;

/// The calls of a device of which each succeeded, the newest first, for clauses alone: it takes no more room for many
/// calls than for one.
#[cycle(history)]
#[derive(Drop)]
pub struct History {
    newest: Newest,
}

// The newest call, and the calls before it.
#[cycle(history)]
#[derive(Drop)]
enum Newest {
    None,
    Read {
        at: Pbn,
        bytes: Snapshot<Block>,
        older: Snapshot<History>,
    },
    Write {
        at: Pbn,
        bytes: Snapshot<Block>,
        older: Snapshot<History>,
    },
    Flush {
        older: Snapshot<History>,
    },
}

impl Model for History {
    ghost use Rattle.std.specs.Prelude.{List, length};
    ghost use Rattle.disk_model.specs.declared.call.Call.{Call};

    ghost Value = { List Call };

    ghost use Rattle.disk_model.specs.Histories.{calls_of};

    ghost view = { λ history. calls_of history.newest };

    ghost size = { length };

    ghost use Rattle.std.proofs.Common.{arith};

    ghost size_decreases = { λ history h. Prim.grind arith };
}

impl History {
    /// No call yet.
    pub fn new() -> History
        ensures { result ≡ [] }
    {
        History {
            newest: Newest::None,
        }
    }

    /// A read that gave these bytes.
    pub fn add_read(&mut self, at: Pbn, bytes: &Block)
        ensures { self.new ≡ Read at bytes.now true ∷ self.old }
    {
        self.newest = Newest::Read {
            at,
            bytes: Snapshot::of(bytes),
            older: Snapshot::of(self),
        };
    }

    /// A write of these bytes.
    pub fn add_write(&mut self, at: Pbn, bytes: &Block)
        ensures { self.new ≡ Write at bytes.now true ∷ self.old }
    {
        self.newest = Newest::Write {
            at,
            bytes: Snapshot::of(bytes),
            older: Snapshot::of(self),
        };
    }

    /// A flush.
    pub fn add_flush(&mut self)
        ensures { self.new ≡ Flush true ∷ self.old }
    {
        self.newest = Newest::Flush {
            older: Snapshot::of(self),
        };
    }
}
