ghost use Rattle.std.specs.Prelude.{ℕ, Bool, List, [], Option, None, Some, ◌≡◌, ◌⊎◌, ◌↔◌, ◌+◌, ◌<◌, ◌≤◌, ◌==◌, if◌then◌else◌};
ghost use Rattle.blk_base.specs.Counters.{limit_of};
ghost use Rattle.blk_base.specs.Regions.{IsDataBlock};
ghost use Rattle.blk_base.specs.declared.geometry.Geometry.{Geometry};
ghost use Rattle.blk_base.specs.declared.opened.Opened.{Opened};
ghost use Rattle.plain_laws.specs.Sums.{bit, total};
ghost use Rattle.slab_counts.specs.declared.refusals.Refusal.{Refusal};
ghost use Rattle.slab_counts.specs.declared.tickets.Ticket.{Ticket};
ghost use Rattle.slab_counts.specs.declared.tickets.Receipt.{Receipt};
ghost use Rattle.slab_tickets.specs.Numbers.{AreNumbered, IsBehind, ticket_of};
ghost use Rattle.slab_tickets.specs.Tickets.{IsNow, IsBelow, IsOutAt, empty_desk};
ghost use Rattle.slab_tickets.specs.declared.forms.Withdrawn.{Withdrawn};
ghost use Rattle.slab_tickets.specs.declared.forms.Withdrawn.TheVariants.{Block, Nothing};
ghost use Rattle.slab_tickets.specs.declared.forms.Waiting.{Waiting};
ghost use Rattle.zone_counts.specs.Zone.{Zone, IsZone, IsOfZone, IsClaimedIn, IsOpeningZone, BeginsStep, Changes, NoneFree, slab_of, with_slab};
ghost use Rattle.zone_counts.specs.Openings.{opened_count};
ghost use Rattle.zone_counts.specs.ZoneAnswers.{Asks, GivesBlock, GivesTicket, SharesIn, WithdrawsFrom, IsRefusedIn};
ghost use Rattle.zone_counts.specs.ByBlock.{counter_in, claims_in, out_with, is_at, makes, drops, maps, unmaps, withdraws, served_block, served_ticket, served_in};
ghost use Rattle.zone_counts.specs.declared.forms.Asked.{Asked};
ghost use Rattle.slab_counts.specs.Counts.{Counts, IsFree, IsStray, Takes, counter_of, claims_of, claimed, unclaimed};
ghost use Rattle.blk_base.specs.declared.place.Pbn.{Pbn};
ghost use Rattle.blk_base.specs.declared.point.Half.{Half};
ghost use Rattle.blk_base.specs.declared.point.Half.TheVariants.{Increment, Decrement};
ghost use Rattle.blk_base.specs.declared.request.Writer.{Writer};
ghost use Rattle.zone_counts.specs.Operations.{Operation, Does, LeadTo, IsRight};

/// Over every list of calls a zone stays as it must be: each slab has the numbers of its blocks, within the limit, and where a
/// ticket waits no block is free.
pub fn zones_stay_settled()
    ensures { (old new : Zone) (calls : List Operation) → IsZone old → LeadTo old calls new →
        IsZone new }
{}

/// A ticket that is out without a block means that no block of the zone is free.
pub fn a_ticket_waits_where_no_block_is_free()
    ensures slabs { (zone : Zone) (k : ℕ) → IsZone zone → ticket_of zone.desk.out k ≡ Some None →
        NoneFree zone.slabs }
    ensures blocks { (zone : Zone) (k : ℕ) (at : Pbn) → IsZone zone →
        ticket_of zone.desk.out k ≡ Some None → IsOfZone zone at → ¬ IsFree (slab_of zone at) at }
{}

/// Over every list of calls from an opened zone on, every receipt that a withdrawal gives is right: no step from the one that
/// asked on ended with a free block in this zone.
pub fn every_receipt_is_right()
    ensures { (first old new : Zone) (room : ℕ) (calls : List Operation) (ticket : Ticket)
        (receipt : Receipt) → IsZone first
        → first.desk ≡ empty_desk first.zone room → LeadTo first calls old →
        WithdrawsFrom old new ticket (Nothing receipt) → IsRight calls receipt }
{}

/// A claim that a zone gives, asked for, shared or extended, is on a block of the zone, and is counted there.
pub fn a_claim_is_of_its_zone()
    ensures given { (old new : Zone) (block : Pbn) → IsZone old → GivesBlock old new block →
        IsClaimedIn new block }
    ensures shared { (old new : Zone) (at : Pbn) → IsZone old → SharesIn old new at →
        IsClaimedIn new at }
    ensures extended { (old new : Zone) (at : Pbn) → IsZone old → IsClaimedIn old at →
        new ≡ with_slab old at (claimed (slab_of old at) at) → IsClaimedIn new at }
{}

/// The counter of a block and the claims on it, as sums over the slabs of a zone, are those in its slab, and 0 in every other
/// zone.
pub fn a_block_has_one_home()
    ensures home { (zone : Zone) (at : Pbn) → IsZone zone → IsOfZone zone at
        →
        (counter_in at zone.slabs ≡ counter_of (slab_of zone at) at)
        × (claims_in at zone.slabs ≡ claims_of (slab_of zone at) at) }
    ensures elsewhere { (zone : Zone) (at : Pbn) → IsZone zone → ¬ IsOfZone zone at →
        (counter_in at zone.slabs ≡ 0) × (claims_in at zone.slabs ≡ 0) }
{}

/// What each call makes of the counter of each block, of the claims on it, and of the tickets that have it: a block that goes
/// to a ticket is claimed by that.
pub fn calls_move_claims_and_counters()
    ensures counters { (call : Operation) (old new : Zone) (at : Pbn) → IsZone old
        → Does call old new
        → counter_in at new.slabs + unmaps call at ≡ counter_in at old.slabs + maps call at }
    ensures claims { (call : Operation) (old new : Zone) (at : Pbn) → IsZone old →
        (does : Does call old new)
        →
        claims_in at new.slabs + (drops call at + maps call at)
        ≡ claims_in at old.slabs + makes call at + is_at at (served_in call old new does) }
    ensures tickets { (call : Operation) (old new : Zone) (at : Pbn) → IsZone old →
        (does : Does call old new)
        →
        out_with at new.desk + withdraws call at
        ≡ out_with at old.desk + is_at at (served_in call old new does) }
{}

/// What goes to a ticket is the block that became free by the call, which then has no mapping and one claim; an increment
/// frees none, and where no ticket is out nothing is served.
pub fn what_is_served_is_what_became_free()
    ensures dropped { (old new : Zone) (at block : Pbn) → IsZone old → IsClaimedIn old at →
        (change : Changes old new at (unclaimed (slab_of old at) at))
        → served_block change.serves ≡ Some block →
        (block ≡ at) × (counter_in at new.slabs ≡ 0) × (claims_in at new.slabs ≡ 1) }
    ensures removed { (old new : Zone) (at block : Pbn) (slab : Counts) → IsZone old →
        IsOfZone old at → Takes Decrement (slab_of old at) slab at
        → (change : Changes old new at slab) → served_block change.serves ≡ Some block →
        (block ≡ at) × (counter_in at new.slabs ≡ 0) × (claims_in at new.slabs ≡ 1) }
    ensures added { (old new : Zone) (at : Pbn) (slab : Counts) → IsZone old → IsOfZone old at →
        Takes Increment (slab_of old at) slab at
        → (change : Changes old new at slab) →
        (served_block change.serves ≡ None) × (new ≡ with_slab old at slab) }
    ensures quiet { (old new : Zone) (at : Pbn) (slab : Counts) → old.desk.out ≡ [] →
        Changes old new at slab → new ≡ with_slab old at slab }
{}

/// Each call keeps that the tickets of a zone have numbers of their own, and that those that wait asked behind the last step
/// that ended with a free block. What each call makes of what is said of a number, and of how many tickets have a number that
/// passes a test; and no ticket waits where a block is free.
pub fn a_zone_keeps_its_tickets()
    ensures begun { (old new : Zone) (step : ℕ) → BeginsStep old new step
        →
        (new.desk.out ≡ old.desk.out)
        × (new.desk.issued ≡ old.desk.issued)
        × (new.slabs ≡ old.slabs) }
    ensures issued { (old new : Zone) (writer : Writer) (ticket : Ticket) (k : ℕ) →
        AreNumbered old.desk → GivesTicket old new writer ticket
        →
        ticket_of new.desk.out k
        ≡ (if ticket.number == k then Some None else ticket_of old.desk.out k) }
    ensures next { (old new : Zone) (writer : Writer) (ticket : Ticket) →
        GivesTicket old new writer ticket
        →
        (ticket.number ≡ old.desk.issued)
        × (new.desk.issued ≡ old.desk.issued + 1)
        × (ticket.zone ≡ old.desk.zone)
        × (new.slabs ≡ old.slabs) }
    ensures withdrawn { (old new : Zone) (ticket : Ticket) (result : Withdrawn) (k : ℕ) →
        AreNumbered old.desk → WithdrawsFrom old new ticket result
        →
        ticket_of new.desk.out k
        ≡ (if ticket.number == k then None else ticket_of old.desk.out k) }
    ensures had_block { (old new : Zone) (ticket : Ticket) (at : Pbn) → AreNumbered old.desk →
        WithdrawsFrom old new ticket (Block at)
        → ticket_of old.desk.out ticket.number ≡ Some (Some at) }
    ensures had_none { (old new : Zone) (ticket : Ticket) (receipt : Receipt) →
        AreNumbered old.desk → WithdrawsFrom old new ticket (Nothing receipt)
        → ticket_of old.desk.out ticket.number ≡ Some None }
    ensures kept { (old new : Zone) (ticket : Ticket) (result : Withdrawn) →
        WithdrawsFrom old new ticket result
        → (new.desk.issued ≡ old.desk.issued) × (new.slabs ≡ old.slabs) }
    ensures unserved { (old new : Zone) (at : Pbn) (slab : Counts) (k : ℕ) →
        (change : Changes old new at slab) → served_ticket change.serves ≡ None
        → ticket_of new.desk.out k ≡ ticket_of old.desk.out k }
    ensures served { (old new : Zone) (at : Pbn) (slab : Counts) (n : ℕ) (block : Pbn) →
        AreNumbered old.desk
        → (change : Changes old new at slab) → served_ticket change.serves ≡ Some n
        → served_block change.serves ≡ Some block
        →
        ((k : ℕ) →
        ticket_of new.desk.out k
        ≡ (if n == k then Some (Some block) else ticket_of old.desk.out k))
        × (ticket_of old.desk.out n ≡ Some None)
        × ((j : ℕ) → j < n → ¬ (ticket_of old.desk.out j ≡ Some None)) }
    ensures same_next { (old new : Zone) (at : Pbn) (slab : Counts) → Changes old new at slab →
        new.desk.issued ≡ old.desk.issued }
    ensures begun_numbered { (old new : Zone) (step : ℕ) → AreNumbered old.desk →
        BeginsStep old new step → AreNumbered new.desk }
    ensures issued_numbered { (old new : Zone) (writer : Writer) (ticket : Ticket) →
        AreNumbered old.desk → GivesTicket old new writer ticket → AreNumbered new.desk }
    ensures withdrawn_numbered { (old new : Zone) (ticket : Ticket) (result : Withdrawn) →
        AreNumbered old.desk → WithdrawsFrom old new ticket result → AreNumbered new.desk }
    ensures changed_numbered { (old new : Zone) (at : Pbn) (slab : Counts) →
        AreNumbered old.desk → Changes old new at slab → AreNumbered new.desk }
    ensures begun_behind { (old new : Zone) (step : ℕ) → IsZone old → IsBehind old.desk →
        IsBelow old.desk.step step → BeginsStep old new step → IsBehind new.desk }
    ensures issued_behind { (old new : Zone) (writer : Writer) (ticket : Ticket) →
        IsBehind old.desk → GivesTicket old new writer ticket → IsBehind new.desk }
    ensures withdrawn_behind { (old new : Zone) (ticket : Ticket) (result : Withdrawn) →
        IsBehind old.desk → WithdrawsFrom old new ticket result → IsBehind new.desk }
    ensures changed_behind { (old new : Zone) (at : Pbn) (slab : Counts) → IsBehind old.desk →
        Changes old new at slab → IsBehind new.desk }
    ensures receipt { (old new : Zone) (ticket : Ticket) (receipt : Receipt) → IsBehind old.desk →
        WithdrawsFrom old new ticket (Nothing receipt)
        → IsBelow old.desk.last_free receipt.asked }
    ensures free { (zone : Zone) (at : Pbn) → IsZone zone → IsOfZone zone at →
        counter_in at zone.slabs + claims_in at zone.slabs ≡ 0
        → (k : ℕ) → ¬ (ticket_of zone.desk.out k ≡ Some None) }
    ensures dropped { (old new : Zone) (at : Pbn) (n : ℕ) → IsZone old → IsClaimedIn old at →
        (change : Changes old new at (unclaimed (slab_of old at) at))
        → served_ticket change.serves ≡ Some n →
        (served_block change.serves ≡ Some at)
        × (counter_in at new.slabs ≡ 0)
        × (claims_in at new.slabs ≡ 1)
        × (counter_in at old.slabs + claims_in at old.slabs ≡ 1) }
    ensures removed { (old new : Zone) (at : Pbn) (slab : Counts) (n : ℕ) → IsZone old →
        IsOfZone old at → Takes Decrement (slab_of old at) slab at
        → (change : Changes old new at slab) → served_ticket change.serves ≡ Some n →
        (served_block change.serves ≡ Some at)
        × (counter_in at new.slabs ≡ 0)
        × (claims_in at new.slabs ≡ 1)
        × (counter_in at old.slabs + claims_in at old.slabs ≡ 1) }
    ensures dropped_unserved { (old new : Zone) (at : Pbn) → IsZone old → IsClaimedIn old at →
        (change : Changes old new at (unclaimed (slab_of old at) at))
        → served_ticket change.serves ≡ None
        → counter_in at new.slabs + claims_in at new.slabs ≡ 0
        → (k : ℕ) → ¬ (ticket_of new.desk.out k ≡ Some None) }
    ensures removed_unserved { (old new : Zone) (at : Pbn) (slab : Counts) → IsZone old →
        IsOfZone old at → Takes Decrement (slab_of old at) slab at
        → (change : Changes old new at slab) → served_ticket change.serves ≡ None
        → counter_in at new.slabs + claims_in at new.slabs ≡ 0
        → (k : ℕ) → ¬ (ticket_of new.desk.out k ≡ Some None) }
    ensures begun_counted { (test : ℕ → Bool) (old new : Zone) (step : ℕ) →
        BeginsStep old new step
        →
        total (λ (w : Waiting). bit (test w.number)) new.desk.out
        ≡ total (λ (w : Waiting). bit (test w.number)) old.desk.out }
    ensures issued_counted { (test : ℕ → Bool) (old new : Zone) (writer : Writer)
        (ticket : Ticket) → GivesTicket old new writer ticket
        →
        total (λ (w : Waiting). bit (test w.number)) new.desk.out
        ≡ total (λ (w : Waiting). bit (test w.number)) old.desk.out + bit (test ticket.number) }
    ensures withdrawn_counted { (test : ℕ → Bool) (old new : Zone) (ticket : Ticket)
        (result : Withdrawn) → WithdrawsFrom old new ticket result
        →
        total (λ (w : Waiting). bit (test w.number)) new.desk.out + bit (test ticket.number)
        ≡ total (λ (w : Waiting). bit (test w.number)) old.desk.out }
    ensures changed_counted { (test : ℕ → Bool) (old new : Zone) (at : Pbn) (slab : Counts) →
        Changes old new at slab
        →
        total (λ (w : Waiting). bit (test w.number)) new.desk.out
        ≡ total (λ (w : Waiting). bit (test w.number)) old.desk.out }
    ensures out { (zone : Zone) (ticket : Ticket) →
        1 ≤ total (λ (w : Waiting). bit (w.number == ticket.number)) zone.desk.out
        → (place : ℕ) × IsOutAt zone.desk ticket place }
{}

/// A zone is opened with the counters of the image, without claims, and without tickets.
pub fn an_opened_zone_has_the_opened_counters()
    ensures counters { (opened : Opened) (zone zones room : ℕ) (new : Zone) (at : Pbn) →
        IsOpeningZone opened zone zones room new → IsZone new → IsOfZone new at →
        counter_in at new.slabs ≡ opened_count opened.head.geometry opened.counters.items at }
    ensures no_data { (geometry : Geometry) (counters : List ℕ) (at : Pbn) →
        ¬ IsDataBlock geometry at.0 → opened_count geometry counters at ≡ 0 }
    ensures claims { (opened : Opened) (zone zones room : ℕ) (new : Zone) (at : Pbn) →
        IsOpeningZone opened zone zones room new → IsZone new → claims_in at new.slabs ≡ 0 }
    ensures tickets { (opened : Opened) (zone zones room : ℕ) (new : Zone) →
        IsOpeningZone opened zone zones room new → new.desk.out ≡ [] }
{}

/// What is given was free, which is where counter and claims are 0; and where none is free no block of the zone is.
pub fn what_a_zone_gives_was_free()
    ensures given { (old new : Zone) (block : Pbn) → IsZone old → GivesBlock old new block →
        IsOfZone old block × (counter_in block old.slabs ≡ 0) × (claims_in block old.slabs ≡ 0) }
    ensures free { (zone : Zone) (at : Pbn) → IsZone zone → IsOfZone zone at →
        IsFree (slab_of zone at) at ↔ (counter_in at zone.slabs + claims_in at zone.slabs ≡ 0) }
    ensures none { (zone : Zone) (at : Pbn) → IsZone zone → NoneFree zone.slabs →
        IsOfZone zone at → 0 < counter_in at zone.slabs + claims_in at zone.slabs }
{}

/// Counter and claims of a block are together within the limit. So an increment fits for which there is a claim, and a
/// decrement where something is mapped.
pub fn counts_of_a_block_are_within_the_limit()
    ensures limit { (zone : Zone) (at : Pbn) → IsZone zone →
        counter_in at zone.slabs + claims_in at zone.slabs ≤ limit_of zone.geometry }
    ensures claimed { (zone : Zone) (at : Pbn) → IsZone zone → IsOfZone zone at →
        IsClaimedIn zone at ↔ (0 < claims_in at zone.slabs) }
    ensures added { (zone : Zone) (at : Pbn) → IsZone zone → IsOfZone zone at →
        0 < claims_in at zone.slabs → (slab : Counts) × Takes Increment (slab_of zone at) slab at }
    ensures removed { (zone : Zone) (at : Pbn) → IsZone zone → IsOfZone zone at →
        0 < counter_in at zone.slabs → (slab : Counts) × Takes Decrement (slab_of zone at) slab at }
    ensures stray { (zone : Zone) (at : Pbn) → IsZone zone → IsOfZone zone at →
        counter_in at zone.slabs ≡ 0 → IsStray Decrement (slab_of zone at) at }
{}

/// Each call that a zone allows has a result: so a rule that a call meets applies. The lowest free block is given, or none is
/// free.
pub fn each_call_has_a_result()
    ensures begun { (old : Zone) (step : ℕ) → (new : Zone) × BeginsStep old new step }
    ensures given { (old : Zone) → NoneFree old.slabs
        ⊎ ((block : Pbn) × (new : Zone) × GivesBlock old new block) }
    ensures asked { (old : Zone) (writer : Writer) (step : ℕ) → IsNow old.desk step →
        (answer : Asked) × (new : Zone) × Asks old new writer answer }
    ensures withdrawn { (old : Zone) (ticket : Ticket) (place step : ℕ) → IsNow old.desk step →
        IsOutAt old.desk ticket place →
        (result : Withdrawn) × (new : Zone) × WithdrawsFrom old new ticket result }
    ensures changed { (old : Zone) (at : Pbn) (slab : Counts) →
        (new : Zone) × Changes old new at slab }
{}

/// A call has one result, and what is refused, for one cause, isn't done.
pub fn a_call_has_one_result()
    ensures begun { (old new new' : Zone) (step : ℕ) → BeginsStep old new step →
        BeginsStep old new' step → new ≡ new' }
    ensures asked { (old new new' : Zone) (writer : Writer) (answer answer' : Asked) →
        Asks old new writer answer → Asks old new' writer answer'
        → (new ≡ new') × (answer ≡ answer') }
    ensures withdrawn { (old new new' : Zone) (ticket : Ticket) (result result' : Withdrawn) →
        WithdrawsFrom old new ticket result
        → WithdrawsFrom old new' ticket result' → (new ≡ new') × (result ≡ result') }
    ensures shared { (old new new' : Zone) (at : Pbn) → SharesIn old new at → SharesIn old new' at →
        new ≡ new' }
    ensures refused { (old new : Zone) (at : Pbn) (refusal : Refusal) → SharesIn old new at →
        ¬ IsRefusedIn refusal old at }
    ensures refusal { (old : Zone) (at : Pbn) (one other : Refusal) → IsRefusedIn one old at →
        IsRefusedIn other old at → one ≡ other }
    ensures changed { (old new new' : Zone) (at : Pbn) (slab : Counts) → Changes old new at slab →
        Changes old new' at slab → new ≡ new' }
    ensures applied { (half : Half) (old new new' : Zone) (at : Pbn) (slab slab' : Counts) →
        Takes half (slab_of old at) slab at → Changes old new at slab
        → Takes half (slab_of old at) slab' at → Changes old new' at slab' → new ≡ new' }
    ensures passed { (half : Half) (old new new' : Zone) (at : Pbn) (slab slab' : Counts) →
        Takes half (slab_of old at) slab at → (one : Changes old new at slab)
        → Takes half (slab_of old at) slab' at → (other : Changes old new' at slab')
        → served_ticket one.serves ≡ served_ticket other.serves }
{}
