ghost use Rattle.std.specs.Prelude.{◌≡◌, ◌<◌, length, IfOk, IfSome, IfNone};
ghost use Rattle.map_page_cache.specs.Turns.{IsLongestClean, NoneClean, no_turns, with_turn};

use dirty_pages::Minima;
use std::alloc::{AllocError, Global};
use std::marker::Model;

/// Which frames have a clean page, and which of these has been so for the longest time.
#[derive(Drop)]
pub(crate) struct CleanFrames {
    // Of each clean page the turn in which it became so.
    turns: Minima,
    turn: u64,
}

impl Model for CleanFrames {
    ghost use Rattle.map_page_cache.specs.Turns.{Turns};

    ghost Value = { Turns };

    ghost view = { λ c. record { last = c.turn; frames = c.turns } };
}

impl CleanFrames {
    /// So many frames, none of which has a clean page.
    pub(crate) fn new(alloc: Global, frames: u32) -> Result<CleanFrames, AllocError>
        ensures { IfOk result (λ turns. turns ≡ no_turns frames) }
    {
        Ok(CleanFrames {
            turns: Minima::new(alloc, frames)?,
            turn: 0,
        })
    }

    /// The page of a frame is clean from now on, or isn't.
    pub(crate) fn set(&mut self, frame: usize, is_clean: bool)
        requires { frame < length self.old.frames }
        ensures { self.new ≡ with_turn frame is_clean self.old }
    {
        self.turn = self.turn.wrapping_add(1);
        self.turns.set(frame, is_clean.then_some(self.turn));
    }

    /// The frame whose page has been clean for the longest time.
    pub(crate) fn first(&self) -> Option<usize>
        ensures some { IfSome result (IsLongestClean self.now) }
        ensures none { IfNone result (NoneClean self.now) }
    {
        let (frame, _) = self.turns.least()?;
        Some(frame)
    }
}
