ghost use Rattle.std.specs.Prelude.{◌≡◌, ◌≤◌, ◌+◌, IfOk};

use blk_base::{Block, BoxedBlock};
use std::alloc::{AllocError, Global};
use std::marker::Model;

/// Boxes for the bytes of answers. A contract sees how many.
#[derive(Drop)]
pub struct AnswerBoxes {
    boxes: Vec<BoxedBlock>,
}

impl Model for AnswerBoxes {
    ghost use Rattle.std.specs.Prelude.{ℕ, vec_len};

    ghost Value = { ℕ };

    ghost view = { λ b. vec_len b.boxes };
}

impl AnswerBoxes {
    /// So many boxes. It fails where memory runs out.
    pub fn new(alloc: Global, count: usize) -> Result<AnswerBoxes, AllocError>
        ensures { IfOk result (λ boxes. boxes ≡ count) }
    {
        let mut boxes = Vec::with_capacity(alloc, count)?;
        for made in 0..count {
            boxes.push_reserved(BoxedBlock::new(alloc, Block::zero())?);
        }
        Ok(AnswerBoxes { boxes })
    }

    /// One of them.
    pub fn take(&mut self) -> BoxedBlock
        requires { 1 ≤ self.old }
        ensures { self.old ≡ self.new + 1 }
    {
        let Some(taken) = self.boxes.pop() else {
            unreachable!();
        };
        taken
    }
}
