ghost use Rattle.std.specs.Prelude.{ℕ, List};
ghost use Rattle.hash_locks.specs.LockedNames.{Sharing, AreInOrder, nothing};
ghost use Rattle.hash_locks.specs.Operations.{Operation, LeadTo};

/// Over every list of calls at most as many locks and waiters are kept as there is room for, no two locks are of one name,
/// and whoever waits has the bytes of the lock for which it waits.
pub fn locks_stay_in_order<V>()
    ensures opening { (bytes_of : V → List ℕ) (room : ℕ) → AreInOrder bytes_of (nothing V room) }
    ensures calls { (bytes_of : V → List ℕ) (old new : Sharing V) (calls : List (Operation V)) →
        AreInOrder bytes_of old
        → LeadTo bytes_of old calls new → AreInOrder bytes_of new }
{}
