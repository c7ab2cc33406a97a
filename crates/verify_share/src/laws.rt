ghost use Rattle.std.specs.Prelude.{◌≡◌, ◌++◌, ◌∷◌, ◌⊎◌, ℕ, [], List, Option};
ghost use Rattle.blk_base.specs.declared.place.Pbn.{Pbn};
ghost use Rattle.verify_share.specs.declared.verdict.Verdict.{Verdict};
ghost use Rattle.verify_share.specs.declared.judged.Judged.{Judged};
ghost use Rattle.verify_share.specs.Comparison.{IsVerdict, Decides};

/// Two blocks have one verdict, and what is decided from a read and two claims is one.
pub fn what_is_decided_is_one()
    ensures verdicts { (read wanted : List ℕ) (v v' : Verdict) → IsVerdict read wanted v →
        IsVerdict read wanted v' → v ≡ v' }
    ensures decisions { (read : Option (List ℕ)) (wanted : List ℕ) (own : Option Pbn) (share : Pbn)
        (j j' : Judged)
        → Decides read wanted own share j → Decides read wanted own share j' → j ≡ j' }
{}
