ghost use Rattle.std.specs.Prelude.{◌≡◌, ◌≤◌, ◌∷◌, [], length};

use blk_base::Writer;
use flush_gate::Gate;
use std::test::Fail;

const FIRST: Writer = Writer {
    stream: 0,
    number: 3,
};

const SECOND: Writer = Writer {
    stream: 1,
    number: 0,
};

fn complete(gate: &mut Gate) -> Option<Writer>
    ensures under_way { gate.new.under_way ≡ gate.old.under_way }
    ensures waiting { length gate.new.waiting ≤ length gate.old.waiting }
    ensures room { gate.new.room ≡ gate.old.room }
{
    gate.complete()
}

// The generations of three writes and of the two flushes between them.
fn begin_all(gate: &mut Gate) -> [u64; 5]
    requires under_way { gate.old.under_way ≡ 0 ∷ [] }
    requires waiting { length gate.old.waiting ≡ 0 }
    requires room { gate.old.room ≡ 2 }
    ensures { gate.new.under_way ≡ 1 ∷ 1 ∷ 1 ∷ [] }
{
    let before = gate.answered();
    let first = gate.begin(FIRST);
    let between = gate.answered();
    let second = gate.begin(SECOND);
    let after = gate.answered();
    [before, first, between, second, after]
}

// The newer writes are done first. Whether the first flush has no older write then, and what the gate completes; and the
// same of the second flush once the oldest write is done too.
fn finish_all(gate: &mut Gate) -> (bool, Option<Writer>, bool, [Option<Writer>; 3])
    requires { gate.old.under_way ≡ 1 ∷ 1 ∷ 1 ∷ [] }
{
    gate.done(2);
    gate.done(1);
    let first_early = gate.older_done(1);
    let early = complete(gate);
    gate.done(0);
    let second_late = gate.older_done(2);
    let completed = [gate.complete(), gate.complete(), gate.complete()];
    (first_early, early, second_late, completed)
}

// Writes of three generations and two flushes between them: a flush comes out once no older write is under way, and the
// second one never before the first.
#[test]
fn flushes_wait_for_older_writes(rt: HostRuntime) -> Result<(), Fail> {
    let mut gate = Gate::new(rt.alloc(), 2)?;
    let nothing = complete(&mut gate);
    let generations = begin_all(&mut gate);
    let asked = [gate.is_under_way(1), gate.is_under_way(3), gate.has_room()];
    let finished = finish_all(&mut gate);
    let wanted = (false, None, true, [Some(FIRST), Some(SECOND), None]);
    assert_eq!(rt;
        (nothing, generations, asked, finished),
        (None, [0, 1, 1, 2, 2], [true, false, false], wanted)
    );
    Ok(())
}
