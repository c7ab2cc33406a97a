ghost use Rattle.std.specs.Prelude.{◌≡◌};
ghost use Rattle.logical_locks.specs.Holders.{nobody};

use blk_base::Lba;
use logical_locks::{Locks, locks_stay_in_order};
use std::test::Fail;

const ONE: Lba = Lba(7);

const OTHER: Lba = Lba(8);

fn ask_all(locks: &mut Locks<char>) -> [(u64, Option<char>); 5]
    requires { locks.old ≡ nobody _ 5 }
{
    [
        locks.ask(ONE, 'a'),
        locks.ask(ONE, 'b'),
        locks.ask(OTHER, 'c'),
        locks.ask(OTHER, 'd'),
        locks.ask(ONE, 'e'),
    ]
}

fn release_thrice(locks: &mut Locks<char>, at: Lba) -> [Option<char>; 3] {
    [locks.release(at), locks.release(at), locks.release(at)]
}

// Five ask for two addresses; each address goes from one to the next in the order of their places.
#[test]
fn first_come_first_served(rt: HostRuntime) -> Result<(), Fail> {
    let mut locks = Locks::new(rt.alloc(), 5)?;
    let asked = ask_all(&mut locks);
    let counts = (locks.next(), locks.held(), locks.waiting());
    let of_one = release_thrice(&mut locks, ONE);
    let of_other = release_thrice(&mut locks, OTHER);
    locks_stay_in_order::<char>();
    let places = [
        (0, Some('a')),
        (1, None),
        (2, Some('c')),
        (3, None),
        (4, None),
    ];
    let next = [[Some('b'), Some('e'), None], [Some('d'), None, None]];
    assert_eq!(rt;
        (asked, counts, [of_one, of_other]),
        (places, (5, 2, 3), next)
    );
    Ok(())
}
