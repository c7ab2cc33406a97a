ghost use Rattle.std.specs.Prelude.{map};
ghost use Rattle.std.specs.List.{concat};
ghost use Rattle.disk_model.specs.Streams.{Puts};

use disk_model::{Failed, Sink};

// Long to prove: a sink may fail between any two pieces.
/// Puts pieces, one behind the other.
pub(crate) fn put_all<K: Sink>(pieces: &[&[u8]], out: &mut K) -> Result<(), Failed>
    ensures { Puts K.tells
        (concat (map (λ piece. piece.now) pieces.now))
        (K.seen out.old) (K.seen out.new) result }
{
    for piece in pieces {
        out.put(piece)?;
    }
    Ok(())
}
