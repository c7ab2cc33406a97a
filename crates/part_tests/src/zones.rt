use crate::images::{block_of, image_of_two_zones};
use crate::tickets::{ASKER, Worth, worth_of};
use blk_base::{Block, Pbn, Point, Update};
use slab_counts::{Refusal, Ticket};
use slab_zone::{Asked, Need, SlabPart, SlabWork, SlabZone};
use std::alloc::{AllocError, Global};
use std::test::Fail;

// The second of two zones, in this first step. Its only free block is block 112.
fn zone_in_step(alloc: Global, step: u64) -> Result<SlabZone, AllocError> {
    let opened = image_of_two_zones(alloc)?;
    let mut zone = SlabZone::new(alloc, 1, 2, 1, &opened)?;
    zone.begin_step(step);
    Ok(zone)
}

// Asks for a block, where a step was begun and there is room for a ticket.
fn ask(zone: &mut SlabZone) -> Option<Asked> {
    zone.step()?;
    if zone.has_ticket_room() {
        Some(zone.ask(ASKER))
    } else {
        None
    }
}

// What is given back: a claim's block; or a ticket's number and the step that asked, and what it is worth.
type Back = (Option<u32>, Option<(u64, u64, Worth)>);

// Drops the claim that was given, or withdraws the ticket.
fn give_back(zone: &mut SlabZone, asked: Option<Asked>) -> Option<Back> {
    match asked? {
        Asked::Block(claim) => {
            let at = claim.block();
            if !zone.is_claimed(at) {
                return None;
            }
            zone.drop_claim(claim);
            Some((Some(at.0), None))
        }
        Asked::Ticket(ticket) => {
            let told = (ticket.number, ticket.asked);
            if zone.step().is_none() || !zone.is_out(&ticket) {
                return None;
            }
            let worth = worth_of(zone.withdraw(ticket));
            Some((None, Some((told.0, told.1, worth))))
        }
    }
}

// Asks for a block twice, and once more in step 3. The block is given back first, and then the younger ticket.
fn ask_three(zone: &mut SlabZone) -> [Option<Back>; 3] {
    let first = ask(zone);
    let second = ask(zone);
    if zone.step() == Some(1) {
        zone.begin_step(3);
    }
    let third = ask(zone);
    [
        give_back(zone, first),
        give_back(zone, third),
        give_back(zone, second),
    ]
}

// The claim on the only free block is dropped: the block goes to the older of two tickets, and the other one is worth a
// receipt.
#[test]
fn a_block_goes_to_the_older_ticket(rt: HostRuntime) -> Result<(), Fail> {
    let mut zone = zone_in_step(rt.alloc(), 1)?;
    let back = ask_three(&mut zone);
    assert_eq!(rt;
        back,
        [
            Some((Some(112), None)),
            Some((None, Some((1, 3, (None, [3, 3]))))),
            Some((None, Some((0, 1, (Some(112), [0, 0]))))),
        ]
    );
    Ok(())
}

// A block is claimed once more, that claim is dropped and the other one spent.
fn spend(zone: &mut SlabZone, asked: Option<Asked>) -> Option<Pbn> {
    let Asked::Block(claim) = asked? else {
        return None;
    };
    let at = claim.block();
    if !zone.is_claimed(at) {
        return None;
    }
    let Ok(more) = zone.extend(&claim) else {
        return None;
    };
    if !zone.is_claimed(at) || more.block() != at {
        return None;
    }
    zone.drop_claim(more);
    if !zone.is_claimed(at) {
        return None;
    }
    Some(zone.spend(claim))
}

// A block that was handed out, whose write is durable then: whether it is one of a slab's journal, its slab and its number.
fn write(zone: &mut SlabZone, need: Need) -> Option<(bool, u32, u64)> {
    let mut into = Block::zero();
    let work = zone.due(need, &mut into)?;
    if !zone.is_work_out(work) {
        return None;
    }
    zone.durable(work);
    Some((work.part == SlabPart::Journal, work.slab, work.number))
}

// The increment of a block that was claimed is written in its slab's journal, and then in a reference block.
#[test]
fn an_update_is_written_twice(rt: HostRuntime) -> Result<(), Fail> {
    let mut zone = zone_in_step(rt.alloc(), 1)?;
    let asked = ask(&mut zone);
    let spent = spend(&mut zone, asked);
    let update = Update {
        at: Pbn(112),
        point: Point(1024),
    };
    let applied = zone.may_take(&update) && zone.apply(&update).is_ok();
    let low = zone.low_point();
    let written = [
        write(&mut zone, Need::Full),
        write(&mut zone, Need::Head),
        write(&mut zone, Need::All),
        write(&mut zone, Need::All),
    ];
    assert_eq!(rt;
        (spent, applied, low),
        (Some(Pbn(112)), true, Some(Point(1024)))
    );
    assert_eq!(rt;
        (written, zone.low_point(), zone.used()),
        (
            [None, Some((true, 1, 1)), Some((false, 1, 0)), None],
            None,
            64
        )
    );
    Ok(())
}

// The claim is spent for a tree page.
fn spend_page(zone: &mut SlabZone, asked: Option<Asked>) -> Option<Pbn> {
    let Asked::Block(claim) = asked? else {
        return None;
    };
    if zone.is_claimed(claim.block()) {
        Some(zone.spend_page(claim))
    } else {
        None
    }
}

// The block of a claim on a block that is to be shared.
fn share(zone: &mut SlabZone, at: u32) -> Result<u32, Refusal> {
    block_of(zone.claim_share(Pbn(at)))
}

// What a zone refuses to share: a block as high as can be, a free one, one with a tree page, and one of another zone; and a
// block once it becomes a tree page.
#[test]
fn what_a_zone_does_not_share(rt: HostRuntime) -> Result<(), Fail> {
    let mut zone = zone_in_step(rt.alloc(), 1)?;
    let before = [
        share(&mut zone, 107),
        share(&mut zone, 112),
        share(&mut zone, 106),
        share(&mut zone, 85),
        share(&mut zone, 111),
    ];
    let asked = ask(&mut zone);
    let at = spend_page(&mut zone, asked);
    let page = share(&mut zone, 112);
    let wanted = [
        Err(Refusal::Full),
        Err(Refusal::NotLive),
        Err(Refusal::NotData),
        Err(Refusal::NotData),
        Ok(111),
    ];
    assert_eq!(rt;
        (before, at, page),
        (wanted, Some(Pbn(112)), Err(Refusal::NotData))
    );
    Ok(())
}

// The counter of a block, whether it is free, and whether there is room for its updates, where the zone owns it.
fn told_of(zone: &SlabZone, at: Pbn) -> Option<(u16, bool, bool)> {
    if zone.owns(at) {
        Some((zone.count(at), zone.is_free(at), zone.has_room(at)))
    } else {
        None
    }
}

// Whether a ticket that the step asked for is out, and the first block of the second slab's journal.
fn are_out(zone: &SlabZone) -> [bool; 2] {
    let work = SlabWork {
        at: Pbn(123),
        slab: 1,
        part: SlabPart::Journal,
        number: 1,
    };
    let ticket = Ticket {
        zone: 1,
        number: 0,
        asked: 7,
    };
    [zone.is_out(&ticket), zone.is_work_out(work)]
}

// What a zone tells before it is asked for more: a share makes a claim, and no ticket or block is out.
#[test]
fn what_may_be_called(rt: HostRuntime) -> Result<(), Fail> {
    let mut zone = zone_in_step(rt.alloc(), 7)?;
    let before = zone.is_claimed(Pbn(111));
    let shared = share(&mut zone, 111);
    let update = Update {
        at: Pbn(111),
        point: Point(2000),
    };
    let blocks = [zone.owns(Pbn(106)), zone.owns(Pbn(85)), before];
    let claimed = [zone.is_claimed(Pbn(111)), zone.may_take(&update)];
    let said = told_of(&zone, Pbn(111));
    assert_eq!(rt;
        (zone.step(), shared, said),
        (Some(7), Ok(111), Some((3, false, true)))
    );
    assert_eq!(rt;
        (blocks, claimed, are_out(&zone), zone.has_ticket_room()),
        ([true, false, false], [true, true], [false, false], true)
    );
    Ok(())
}
