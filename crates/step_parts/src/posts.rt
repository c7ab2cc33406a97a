ghost use Rattle.std.specs.Prelude.{◌≡◌, ◌<◌, ◌≤◌, [], ◌∷◌, ◌++◌, IfOk, IfSome, IfNone, length};

use blk_base::ZoneId;
use data_vio::{Fifo, Item, POST_ROOM};
use std::alloc::{AllocError, Global};
use std::marker::Model;

/// What a step posts: items in their order, each with the zone that it goes to. Its room is taken when it is made.
#[derive(Drop)]
pub struct Posts {
    posts: Fifo<(ZoneId, Item), POST_ROOM>,
}

impl Model for Posts {
    ghost use Rattle.std.specs.Prelude.{List};
    ghost use Rattle.data_vio.specs.Vios.{Post};

    ghost Value = { List Post };

    ghost view = { λ p. p.posts };
}

impl Posts {
    /// Nothing is posted.
    pub fn new(alloc: Global) -> Result<Posts, AllocError>
        ensures { IfOk result (λ posts. posts ≡ []) }
    {
        Ok(Posts {
            posts: Fifo::new(alloc)?,
        })
    }

    /// The first item.
    pub fn first(&mut self, to: ZoneId, item: Item)
        requires { self.old ≡ [] }
        ensures { self.new ≡ (to, item) ∷ [] }
    {
        self.push(to, item);
    }

    /// One more item, behind the others.
    pub fn push(&mut self, to: ZoneId, item: Item)
        requires { length self.old < POST_ROOM }
        ensures { self.new ≡ self.old ++ (to, item) ∷ [] }
    {
        self.posts.push((to, item));
    }

    /// The first post, which is taken out.
    pub fn pop(&mut self) -> Option<(ZoneId, Item)>
        ensures some { IfSome result (λ post. self.old ≡ post ∷ self.new) }
        ensures none { IfNone result ((self.old ≡ []) × (self.new ≡ [])) }
    {
        self.posts.pop()
    }

    /// All posts are taken out.
    pub fn clear(&mut self)
        ensures { self.new ≡ [] }
    {
        self.posts.clear();
    }

    /// How many posts there are, at most as many as there is room for.
    pub fn len(&self) -> usize
        ensures count { result ≡ length self.now }
        ensures most { result ≤ POST_ROOM }
    {
        self.posts.len()
    }
}
