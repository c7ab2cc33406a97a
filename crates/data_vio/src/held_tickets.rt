ghost use Rattle.std.specs.Prelude.{◌≡◌, ◌<◌, [], ◌∷◌, ◌++◌, None, Some, IfSome, IfNone, length, slice_get};

use slab_counts::Ticket;
use std::marker::Model;

/// The tickets that a request holds, the oldest first: four at most, since there are no more physical zones. It needs no room
/// but its own.
#[derive(Drop)]
pub struct HeldTickets {
    // What stands behind one that isn't there counts for nothing.
    first: Option<Ticket>,
    second: Option<Ticket>,
    third: Option<Ticket>,
    fourth: Option<Ticket>,
}

impl Model for HeldTickets {
    ghost use Rattle.std.specs.Prelude.{List};
    ghost use Rattle.slab_counts.specs.declared.tickets.Ticket.{Ticket};
    ghost use Rattle.data_vio.specs.Held.{tickets_of};

    ghost Value = { List Ticket };

    ghost view = { tickets_of };
}

impl HeldTickets {
    /// No ticket.
    pub fn new() -> HeldTickets
        ensures { result ≡ [] }
    {
        HeldTickets {
            first: None,
            second: None,
            third: None,
            fourth: None,
        }
    }

    /// How many there are.
    pub fn len(&self) -> u32
        ensures { result ≡ length self.now }
    {
        match (&self.first, &self.second, &self.third, &self.fourth) {
            (None, _, _, _) => 0,
            (_, None, _, _) => 1,
            (_, _, None, _) => 2,
            (_, _, _, None) => 3,
            _ => 4,
        }
    }

    /// The oldest one.
    pub fn first(&self) -> Option<&Ticket>
        ensures some { IfSome result (λ ticket. slice_get self.now 0 ≡ Some ticket.now) }
        ensures none { IfNone result (self.now ≡ []) }
    {
        self.first.as_ref()
    }

    /// One more, behind the others, of which there are fewer than four.
    pub fn push(&mut self, ticket: Ticket)
        requires { length self.old < 4 }
        ensures { self.new ≡ self.old ++ ticket ∷ [] }
    {
        if self.first.is_none() {
            self.first = Some(ticket);
            self.second = None;
        } else if self.second.is_none() {
            self.second = Some(ticket);
            self.third = None;
        } else if self.third.is_none() {
            self.third = Some(ticket);
            self.fourth = None;
        } else {
            self.fourth = Some(ticket);
        }
    }

    /// The oldest one, which leaves the list.
    pub fn pop(&mut self) -> Option<Ticket>
        ensures some { IfSome result (λ ticket. self.old ≡ ticket ∷ self.new) }
        ensures none { IfNone result ((self.old ≡ []) × (self.new ≡ [])) }
    {
        let first = self.first.take()?;
        self.first = self.second.take();
        self.second = self.third.take();
        self.third = self.fourth.take();
        Some(first)
    }
}
