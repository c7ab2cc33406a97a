ghost use Rattle.std.specs.Prelude.{ℕ, List};
ghost use Rattle.logical_locks.specs.Holders.{Holders, nobody};
ghost use Rattle.logical_locks.specs.Operations.{Operation, LeadTo, AreInOrder};

/// Over every list of calls at most as many hold and wait as there is room for, no address is held twice, and whoever
/// waits waits for an address that is held.
pub fn locks_stay_in_order<V>()
    ensures opening { (room : ℕ) → AreInOrder (nobody V room) }
    ensures calls { (old new : Holders V) (calls : List (Operation V)) → AreInOrder old →
        LeadTo old calls new → AreInOrder new }
{}
