use slab_counts::Claim;

/// How a write goes on with its claims. `spare` is the one that is to be dropped.
#[derive(Debug, Drop)]
pub enum Judged {
    /// It shares the block that was read, by the claim on it.
    Shared { share: Claim, spare: Option<Claim> },
    /// It stores its bytes in its own block, if it has one.
    Stored { own: Option<Claim>, spare: Claim },
}
