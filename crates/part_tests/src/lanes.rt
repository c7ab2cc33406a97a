ghost use Rattle.std.specs.Prelude.{◌≡◌, ◌<◌, ◌∷◌, [], length};
ghost use Rattle.zone_queues.specs.Queues.{empty, opening};

use std::test::Fail;
use zone_queues::{Lane, Lanes, Ports};

// What zone 1 takes before anything was posted, and whether anything moves to it.
fn before_any_post(lanes: &mut Lanes<char>) -> (Option<char>, bool)
    requires { lanes.old ≡ opening _ (2 ∷ 3 ∷ []) }
    ensures { lanes.new ≡ lanes.old }
{
    let taken = lanes.take(1);
    (taken, lanes.move_all(0, 1))
}

// Two senders post to zone 1. Whether the outbox of the one, of the other, and again of the other has something to move.
fn post_and_move(lanes: &mut Lanes<char>) -> [bool; 3]
    requires { lanes.old ≡ opening _ (2 ∷ 3 ∷ []) }
    ensures { length lanes.new.inboxes ≡ 2 }
{
    lanes.post(0, 1, 'a');
    lanes.post(1, 1, 'b');
    lanes.post(0, 1, 'c');
    [
        lanes.move_all(1, 1),
        lanes.move_all(0, 1),
        lanes.move_all(0, 1),
    ]
}

fn take(lanes: &mut Lanes<char>, zone: u32) -> Option<char>
    requires { zone < length lanes.old.inboxes }
    ensures { length lanes.new.inboxes ≡ length lanes.old.inboxes }
{
    lanes.take(zone)
}

// What zone 0 takes, and four times zone 1.
fn take_all(lanes: &mut Lanes<char>) -> [Option<char>; 5]
    requires { length lanes.old.inboxes ≡ 2 }
{
    [
        take(lanes, 0),
        take(lanes, 1),
        take(lanes, 1),
        take(lanes, 1),
        take(lanes, 1),
    ]
}

// Two senders to one zone: what each posts comes in its order, a batch behind those that came before it.
#[test]
fn from_zone_to_zone(rt: HostRuntime) -> Result<(), Fail> {
    let mut lanes = Lanes::new(rt.alloc(), &[2, 3])?;
    let at_first = before_any_post(&mut lanes);
    let moved = post_and_move(&mut lanes);
    let taken = take_all(&mut lanes);
    let wanted = [None, Some('b'), Some('a'), Some('c'), None];
    assert_eq!(rt;
        (at_first, moved, taken),
        ((None, false), [true, true, false], wanted)
    );
    Ok(())
}

// What a sender posted goes behind an item of the receiver. To which zones the sender has posts, how many outboxes it
// has and how many items the receiver has then, what that takes, and whether the sender has posts and the receiver an
// item in the end.
fn hand_over(
    sender: &mut Ports<char>,
    receiver: &mut Ports<char>,
) -> ([bool; 2], [usize; 2], [Option<char>; 4], [bool; 2])
    requires sender { sender.old.outboxes ≡ empty _ 0 ∷ empty _ 2 ∷ [] }
    requires receiver { receiver.old.inbox ≡ empty _ 3 }
{
    sender.post(1, 'a');
    sender.post(1, 'b');
    receiver.keep('z');
    let posts = [sender.has_posts(0), sender.has_posts(1)];
    sender.hand_over(1, receiver);
    let counts = [sender.outboxes().len(), receiver.inbox().len()];
    let taken = [
        receiver.take(),
        receiver.take(),
        receiver.take(),
        receiver.take(),
    ];
    (
        posts,
        counts,
        taken,
        [sender.has_posts(1), receiver.has_item()],
    )
}

// An outbox comes in behind what the receiver has.
#[test]
fn an_outbox_is_handed_over(rt: HostRuntime) -> Result<(), Fail> {
    let mut sender = Ports::new(rt.alloc(), 1, &[0, 2])?;
    let mut receiver = Ports::new(rt.alloc(), 3, &[])?;
    let handed_over = hand_over(&mut sender, &mut receiver);
    let taken = [Some('z'), Some('a'), Some('b'), None];
    assert_eq!(rt; handed_over, ([false, true], [2, 3], taken, [false, false]));
    Ok(())
}

// What a sender posted goes to an empty inbox of the same room, and then one item more. What the receiver takes.
fn hand_over_twice(sender: &mut Ports<char>, receiver: &mut Ports<char>) -> [Option<char>; 3]
    requires sender { sender.old.outboxes ≡ empty _ 2 ∷ [] }
    requires receiver { receiver.old.inbox ≡ empty _ 2 }
{
    sender.post(0, 'a');
    sender.hand_over(0, receiver);
    sender.post(0, 'b');
    sender.hand_over(0, receiver);
    [receiver.take(), receiver.take(), receiver.take()]
}

// An outbox comes in at an empty inbox, and the next one behind it.
#[test]
fn an_empty_inbox_is_filled(rt: HostRuntime) -> Result<(), Fail> {
    let mut sender = Ports::new(rt.alloc(), 1, &[2])?;
    let mut receiver = Ports::new(rt.alloc(), 2, &[])?;
    let taken = hand_over_twice(&mut sender, &mut receiver);
    assert_eq!(rt; taken, [Some('a'), Some('b'), None]);
    Ok(())
}

// How many items a list has with two, without them, and with one again.
fn fill_and_clear(lane: &mut Lane<char>) -> [usize; 3]
    requires { lane.old ≡ empty _ 2 }
{
    lane.post('a');
    lane.post('b');
    let filled = lane.len();
    lane.clear();
    let cleared = lane.len();
    lane.post('c');
    [filled, cleared, lane.len()]
}

// A list that was cleared has its room again.
#[test]
fn a_cleared_list_is_empty(rt: HostRuntime) -> Result<(), Fail> {
    let mut lane = Lane::new(rt.alloc(), 2)?;
    assert_eq!(rt; fill_and_clear(&mut lane), [2, 0, 1]);
    Ok(())
}
