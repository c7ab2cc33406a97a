ghost use Rattle.std.specs.Prelude.{◌≡◌, ◌≢◌, ◌+◌, ◌<◌, ◌≤◌, ◌%◌, ℕ};

/// No block that is needed is overwritten. Let a block be sealed with a head, by the ring's rule. It stands in another slot
/// than the blocks from its head on before it; and while the next block is written, the slot of that one has neither this
/// block nor any from its head on.
pub fn no_needed_block_is_overwritten()
    ensures own { (size sequence head needed : ℕ) → sequence + 2 ≤ head + size → head ≤ needed →
        needed < sequence
        → needed % size ≢ sequence % size }
    ensures next { (size sequence head needed : ℕ) → sequence + 2 ≤ head + size → head ≤ needed →
        needed ≤ sequence
        → needed % size ≢ (sequence + 1) % size }
{}
