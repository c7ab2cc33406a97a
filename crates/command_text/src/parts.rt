ghost use Rattle.disk_model.specs.Streams.{Puts};
ghost use Rattle.command_text.specs.Parts.{recovery_text, recovered_text, space_text, known_text, damaged_text, damage_text};

use crate::pieces::{Line, Piece, put_lines};
use blk_base::Pbn;
use disk_model::{Failed, Sink};
use rebuild::Recovered;

/// How many data blocks have a reference, and how many there are.
#[derive(Clone, Copy, Debug, PartialEq, Eq)]
pub struct Space {
    pub used: u32,
    pub total: u32,
}

/// What a session found that isn't as a run leaves it.
#[derive(Clone, Copy, Debug, PartialEq, Eq)]
pub enum DamagedPlace {
    /// The page of the block map in this block.
    Page(Pbn),
    /// The reference count of this block.
    Count(Pbn),
}

/// Puts `clean`, or `recovered 30 entries`. It fails where the sink fails; then a first part of the line was put.
pub fn put_recovery<K: Sink>(recovery: Recovered, out: &mut K) -> Result<(), Failed>
    ensures { Puts K.tells (recovery_text recovery) (K.seen out.old) (K.seen out.new) result }
{
    match recovery {
        Recovered::Clean => out.put(b"clean\n"),
        Recovered::Entries(entries) => put_recovered(Some(entries), out),
    }
}

impl Line for Recovered {
    ghost text = { recovery_text };

    fn put_to<K: Sink>(&self, out: &mut K) -> Result<(), Failed> {
        put_recovery(*self, out)
    }
}

/// Puts `recovered 30 entries`, and nothing where nothing was recovered. It fails where the sink fails; then a first part
/// of the line was put.
pub fn put_recovered<K: Sink>(entries: Option<u32>, out: &mut K) -> Result<(), Failed>
    ensures { Puts K.tells (recovered_text entries) (K.seen out.old) (K.seen out.new) result }
{
    match entries {
        Some(count) => put_lines(
            &[
                Piece::Word(b"recovered "),
                Piece::U32(count),
                Piece::Word(b" entries\n"),
            ],
            out,
        ),
        None => Ok(()),
    }
}

/// Puts `used 2 of 64`.
pub(crate) fn put_space<K: Sink>(space: Space, out: &mut K) -> Result<(), Failed>
    ensures { Puts K.tells (space_text space) (K.seen out.old) (K.seen out.new) result }
{
    put_lines(
        &[
            Piece::Word(b"used "),
            Piece::U32(space.used),
            Piece::Word(b" of "),
            Piece::U32(space.total),
            Piece::Word(b"\n"),
        ],
        out,
    )
}

/// Puts `used 2 of 64`, and nothing where that isn't known.
pub(crate) fn put_known<K: Sink>(space: Option<Space>, out: &mut K) -> Result<(), Failed>
    ensures { Puts K.tells (known_text space) (K.seen out.old) (K.seen out.new) result }
{
    match space {
        Some(known) => put_space(known, out),
        None => Ok(()),
    }
}

fn put_damaged<K: Sink>(place: &[u8], at: Pbn, out: &mut K) -> Result<(), Failed>
    ensures { Puts K.tells (damaged_text place.now at) (K.seen out.old) (K.seen out.new) result }
{
    put_lines(
        &[
            Piece::Word(b"damage: "),
            Piece::Word(place),
            Piece::U32(at.0),
            Piece::Word(b"\n"),
        ],
        out,
    )
}

/// Puts `damage: page 85` or `damage: count 86`, and nothing where there is no damage.
pub(crate) fn put_damage<K: Sink>(damage: Option<DamagedPlace>, out: &mut K) -> Result<(), Failed>
    ensures { Puts K.tells (damage_text damage) (K.seen out.old) (K.seen out.new) result }
{
    let Some(place) = damage else {
        return Ok(());
    };
    match place {
        DamagedPlace::Page(at) => put_damaged(b"page ", at, out),
        DamagedPlace::Count(at) => put_damaged(b"count ", at, out),
    }
}
