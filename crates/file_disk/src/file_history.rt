ghost use Rattle.std.specs.Prelude.{◌≡◌, [], ◌∷◌};
ghost use Rattle.file_disk.specs.FileLog.{Sync, WriteAt};

use blk_base::Block;
use std::marker::Model;
use std::snapshot::Snapshot;

/// The calls of a file that may change it, the newest first, for clauses alone.
#[cycle(file_history)]
#[derive(Drop)]
pub(crate) struct FileHistory {
    newest: NewestCall,
}

// The newest call, whether it succeeded, and the calls before it.
#[cycle(file_history)]
#[derive(Drop)]
enum NewestCall {
    None,
    Write {
        offset: u64,
        bytes: Snapshot<Block>,
        ok: bool,
        older: Snapshot<FileHistory>,
    },
    Sync {
        ok: bool,
        older: Snapshot<FileHistory>,
    },
}

impl Model for FileHistory {
    ghost use Rattle.std.specs.Prelude.{List, length};
    ghost use Rattle.file_disk.specs.FileLog.{FileCall};

    ghost Value = { List FileCall };

    ghost use Rattle.file_disk.specs.FileHistories.{file_calls_of};

    ghost view = { λ history. file_calls_of history.newest };

    ghost size = { length };

    ghost use Rattle.std.proofs.Common.{arith};

    ghost size_decreases = { λ history h. Prim.grind arith };
}

impl FileHistory {
    // No call yet.
    pub(crate) fn new() -> FileHistory
        ensures { result ≡ [] }
    {
        FileHistory {
            newest: NewestCall::None,
        }
    }

    // A write of these bytes.
    pub(crate) fn add_write(&mut self, offset: u64, bytes: &Block, ok: bool)
        ensures { self.new ≡ WriteAt offset bytes.now ok ∷ self.old }
    {
        self.newest = NewestCall::Write {
            offset,
            bytes: Snapshot::of(bytes),
            ok,
            older: Snapshot::of(self),
        };
    }

    // A sync.
    pub(crate) fn add_sync(&mut self, ok: bool)
        ensures { self.new ≡ Sync ok ∷ self.old }
    {
        self.newest = NewestCall::Sync {
            ok,
            older: Snapshot::of(self),
        };
    }
}
