use crate::images::{TWO_ZONES, image_of_two_zones};
use blk_base::Writer;
use slab_counts::{Claim, SlabCounts, Ticket};
use slab_tickets::{Tickets, Withdrawn};
use std::test::Fail;

/// A request that asks.
pub(crate) const ASKER: Writer = Writer {
    stream: 1,
    number: 7,
};

/// What a withdrawn ticket is worth: a block; or a receipt, with the steps that asked and that withdrew.
pub(crate) type Worth = (Option<u32>, [u64; 2]);

pub(crate) fn worth_of(withdrawn: Withdrawn) -> Worth {
    match withdrawn {
        Withdrawn::Block(claim) => (Some(claim.block().0), [0, 0]),
        Withdrawn::Nothing(receipt) => (None, [receipt.asked, receipt.withdrawn]),
    }
}

// A ticket, where a step was begun and there is room.
fn take(tickets: &mut Tickets) -> Option<Ticket> {
    tickets.step()?;
    if tickets.has_room() {
        Some(tickets.issue(ASKER))
    } else {
        None
    }
}

// A block goes to the oldest ticket without one, where there is such a ticket.
fn give(tickets: &mut Tickets, spare: Option<Claim>) -> Option<u32> {
    let claim = spare?;
    let at = claim.block().0;
    if !tickets.waits() {
        return None;
    }
    tickets.give(claim);
    Some(at)
}

// A ticket's number and the step that asked, and what it is worth where it is out.
fn take_back(tickets: &mut Tickets, ticket: Option<Ticket>) -> Option<(u64, u64, Worth)> {
    let ticket = ticket?;
    let told = (ticket.number, ticket.asked);
    tickets.step()?;
    if !tickets.is_out(&ticket) {
        return None;
    }
    let worth = worth_of(tickets.withdraw(ticket));
    Some((told.0, told.1, worth))
}

// Step 3 begins, after one that ended with no free block.
fn begin_third(tickets: &mut Tickets) {
    if tickets.step() == Some(1) {
        tickets.begin_step(3, false);
    }
}

// Of two tickets the older one gets the block, and the other one a receipt.
#[test]
fn the_older_ticket_is_served(rt: HostRuntime) -> Result<(), Fail> {
    let opened = image_of_two_zones(rt.alloc())?;
    let spare = SlabCounts::new(rt.alloc(), &TWO_ZONES, 0, &opened)?.claim_free();
    let mut tickets = Tickets::new(rt.alloc(), 3, 32)?;
    tickets.begin_step(1, false);
    let older = take(&mut tickets);
    let younger = take(&mut tickets);
    let given = give(&mut tickets, spare);
    begin_third(&mut tickets);
    let second = take_back(&mut tickets, younger);
    let first = take_back(&mut tickets, older);
    assert_eq!(rt;
        (given, first, second),
        (
            Some(85),
            Some((0, 1, (Some(85), [0, 0]))),
            Some((1, 1, (None, [1, 3])))
        )
    );
    Ok(())
}
