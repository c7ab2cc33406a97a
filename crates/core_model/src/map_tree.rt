ghost use Rattle.std.specs.Prelude.{◌≡◌, ◌<◌, None, Some};
ghost use Rattle.block_map_tree.specs.Tree.{IsTree, Links};
ghost use Rattle.core_model.specs.PageTrees.{HasPath, MayLink, leaf_at, least_point, missing_at};
ghost use Rattle.blk_base.specs.Pages.{page_above};

use blk_base::{Lba, PageId, Pbn, Point};
use block_map_tree::{Found, TreeNodes, path};
use std::marker::Model;

/// The trees of the block map that a logical zone has: its pages that are no leaves, and where they lead.
#[derive(Drop)]
pub struct MapTree {
    // How many levels each tree has.
    height: u32,
    nodes: TreeNodes,
}

impl Model for MapTree {
    ghost use Rattle.std.specs.Prelude.{◌≡◌};
    ghost use Rattle.block_map_tree.specs.Tree.{IsTree, Tree};

    ghost Value = { Tree };

    ghost view = { λ t. t.nodes };

    ghost invariant = { λ t. record {
      height : t.height ≡ t.nodes.forest.geometry.height;
      form : IsTree t.nodes;
    } };
}

impl MapTree {
    /// These trees, which have so many levels.
    pub fn new(height: u32, nodes: TreeNodes) -> MapTree
        requires height { height ≡ nodes.forest.geometry.height }
        requires form { IsTree nodes }
        ensures { result ≡ nodes }
    {
        MapTree { height, nodes }
    }

    // No page is written as yet, so the point of a link is of no use: the least one does.
    /// A page is linked: it stands at this data block from now on.
    pub fn link(&mut self, page: PageId, at: Pbn)
        requires { MayLink self.old page at }
        ensures { Links self.old self.new page at least_point }
    {
        self.nodes.link(page, at, Point(0));
    }

    /// The block of the leaf of an address; `None` where that isn't there.
    pub fn leaf(&self, at: Lba) -> Option<Pbn>
        requires { HasPath self.now at.0 }
        ensures { result ≡ leaf_at self.now at.0 }
    {
        match self.nodes.find(&path(at, self.height)) {
            Found::Leaf(block) => Some(block),
            Found::Missing(_) => None,
        }
    }

    /// The highest page of the path of an address that isn't there; `None` where each is.
    pub fn missing(&self, at: Lba) -> Option<PageId>
        requires { HasPath self.now at.0 }
        ensures { result ≡ missing_at self.now at.0 }
    {
        match self.nodes.find(&path(at, self.height)) {
            Found::Leaf(_) => None,
            Found::Missing(level) => Some(page_above(level, at)),
        }
    }
}

// The page of a level above an address. That level is no root's.
fn page_above(level: u8, at: Lba) -> PageId
    requires { level < 2 }
    ensures { result ≡ page_above level at.0 }
{
    match level {
        0 => at.leaf(),
        _ => at.leaf().parent(),
    }
}
