/// The block being filled holds as many updates as a block has.
#[derive(Clone, Copy, Debug, PartialEq, Eq)]
pub struct Full;
