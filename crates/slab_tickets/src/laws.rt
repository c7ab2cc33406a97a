ghost use Rattle.std.specs.Prelude.{ℕ, List, ◌≡◌, ◌<◌, ◌==◌, if◌then◌else◌, Option, None, Some, slice_get};
ghost use Rattle.slab_counts.specs.declared.tickets.Ticket.{Ticket};
ghost use Rattle.slab_counts.specs.declared.tickets.Receipt.{Receipt};
ghost use Rattle.slab_tickets.specs.declared.forms.Waiting.{Waiting};
ghost use Rattle.slab_tickets.specs.declared.forms.Withdrawn.{Withdrawn};
ghost use Rattle.slab_tickets.specs.declared.forms.Withdrawn.TheVariants.{Nothing};
ghost use Rattle.slab_tickets.specs.Tickets.{Desk, empty_desk, Issues, Gives, IsBelow, IsOutAt, Withdraws};
ghost use Rattle.slab_tickets.specs.Numbers.{AreNumbered, IsBehind, ticket_of};
ghost use Rattle.blk_base.specs.declared.place.Pbn.{Pbn};
ghost use Rattle.blk_base.specs.declared.request.Writer.{Writer};
ghost use Rattle.slab_tickets.specs.Operations.{Operation, Does, LeadTo, IsRight, last_free_of, step_of};

/// Over every list of calls of a zone that ends no step with a free block while a ticket waits, the desk knows the last step
/// at whose end the zone had a free block, and every receipt that a withdrawal gives is right.
pub fn every_receipt_is_right()
    ensures last { (zone room : ℕ) (calls : List Operation) (desk : Desk) →
        LeadTo (empty_desk zone room) calls desk
        → (desk.last_free ≡ last_free_of calls) × (desk.step ≡ step_of calls) }
    ensures right { (zone room : ℕ) (calls : List Operation) (old new : Desk) (ticket : Ticket)
        (receipt : Receipt) → LeadTo (empty_desk zone room) calls old
        → Withdraws old new ticket (Nothing receipt) → IsRight calls receipt }
{}

/// An opened desk has its tickets behind the last step at whose end the zone had a free block, each call keeps that, and so a
/// receipt is of a ticket that asked behind that step.
pub fn tickets_ask_behind_the_last_free_step()
    ensures opened { (zone room : ℕ) → IsBehind (empty_desk zone room) }
    ensures kept { (call : Operation) (old new : Desk) → IsBehind old → Does call old new →
        IsBehind new }
    ensures receipt { (old new : Desk) (ticket : Ticket) (receipt : Receipt) → IsBehind old →
        Withdraws old new ticket (Nothing receipt)
        → IsBelow old.last_free receipt.asked }
{}

/// The tickets that are out of an opened desk have numbers of their own, and each call keeps that: two of them that have the
/// same number stand at the same place, and the next ticket's number is above them all.
pub fn tickets_have_numbers_of_their_own()
    ensures opened { (zone room : ℕ) → AreNumbered (empty_desk zone room) }
    ensures kept { (call : Operation) (old new : Desk) → AreNumbered old → Does call old new →
        AreNumbered new }
    ensures differ { (desk : Desk) (i j : ℕ) (one other : Waiting) → AreNumbered desk →
        slice_get desk.out i ≡ Some one → slice_get desk.out j ≡ Some other
        → one.number ≡ other.number → i ≡ j }
    ensures below { (desk : Desk) (place : ℕ) (waiting : Waiting) → AreNumbered desk →
        slice_get desk.out place ≡ Some waiting → waiting.number < desk.issued }
{}

/// A call changes what is said of one number, and of no other: an issued ticket has no block, the oldest without one gets the
/// block that is given, and a ticket that is withdrawn is out no longer.
pub fn a_call_changes_one_ticket()
    ensures issued { (old new : Desk) (writer : Writer) (ticket : Ticket) (k : ℕ) →
        AreNumbered old → Issues old new writer ticket
        → ticket_of new.out k ≡ (if ticket.number == k then Some None else ticket_of old.out k) }
    ensures given { (old new : Desk) (block : Pbn) (k : ℕ) → AreNumbered old →
        (gives : Gives old new block)
        →
        ticket_of new.out k
        ≡ (if gives.waiting.number == k then Some (Some block) else ticket_of old.out k) }
    ensures oldest { (old new : Desk) (block : Pbn) (k : ℕ) → AreNumbered old →
        (gives : Gives old new block)
        →
        (ticket_of old.out gives.waiting.number ≡ Some None)
        × (k < gives.waiting.number → ¬ (ticket_of old.out k ≡ Some None)) }
    ensures withdrawn { (old new : Desk) (ticket : Ticket) (result : Withdrawn) (k : ℕ) →
        AreNumbered old → Withdraws old new ticket result
        → ticket_of new.out k ≡ (if ticket.number == k then None else ticket_of old.out k) }
    ensures worth { (old new : Desk) (ticket : Ticket) (result : Withdrawn) → AreNumbered old →
        (withdraws : Withdraws old new ticket result)
        → ticket_of old.out ticket.number ≡ Some withdraws.waiting.block }
{}

/// A ticket is out from when it is issued until it is withdrawn, and stands where it stood while others get blocks. It is
/// out where something is said of its number.
pub fn a_ticket_is_out_until_it_is_withdrawn()
    ensures issued { (old new : Desk) (writer : Writer) (ticket : Ticket) →
        Issues old new writer ticket → (place : ℕ) × IsOutAt new ticket place }
    ensures given { (old new : Desk) (block : Pbn) (ticket : Ticket) (place : ℕ) →
        Gives old new block → IsOutAt old ticket place → IsOutAt new ticket place }
    ensures others { (old new : Desk) (other : Ticket) (result : Withdrawn) (ticket : Ticket)
        (place : ℕ) → AreNumbered old → Withdraws old new other result
        → ¬ (other.number ≡ ticket.number) → IsOutAt old ticket place →
        (place' : ℕ) × IsOutAt new ticket place' }
    ensures withdrawn { (old new : Desk) (ticket : Ticket) (result : Withdrawn) (place : ℕ) →
        AreNumbered old → Withdraws old new ticket result
        → ¬ IsOutAt new ticket place }
    ensures said { (desk : Desk) (ticket : Ticket) (block : Option Pbn) →
        ticket_of desk.out ticket.number ≡ Some block → (place : ℕ) × IsOutAt desk ticket place }
    ensures out { (desk : Desk) (ticket : Ticket) (place : ℕ) → AreNumbered desk →
        IsOutAt desk ticket place
        → (block : Option Pbn) × (ticket_of desk.out ticket.number ≡ Some block) }
{}

/// A call has one result.
pub fn a_call_has_one_result()
    ensures issued { (old new new' : Desk) (writer : Writer) (ticket ticket' : Ticket) →
        Issues old new writer ticket → Issues old new' writer ticket'
        → (new ≡ new') × (ticket ≡ ticket') }
    ensures given { (old new new' : Desk) (block : Pbn) → Gives old new block →
        Gives old new' block → new ≡ new' }
    ensures withdrawn { (old new new' : Desk) (ticket : Ticket) (result result' : Withdrawn) →
        Withdraws old new ticket result → Withdraws old new' ticket result'
        → (new ≡ new') × (result ≡ result') }
{}
