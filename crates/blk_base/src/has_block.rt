ghost use Rattle.std.specs.Prelude.{◌≡◌, List, ℕ};

use crate::Block;

/// A value that lends its block.
pub trait HasBlock {
    /// The bytes of its block.
    ghost bytes_of: { Self → List ℕ };

    fn block(&self) -> &Block
        ensures { result.now ≡ bytes_of self.now };
}

/// A box lends the block of what is in it.
impl<T: HasBlock> HasBlock for Box<T> {
    ghost bytes_of = { λ boxed. T.bytes_of boxed.value };

    fn block(&self) -> &Block {
        (**self).block()
    }
}
