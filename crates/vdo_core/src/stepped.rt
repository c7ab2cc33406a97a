/// Whether there was work.
#[derive(Clone, Copy, Debug, PartialEq, Eq)]
pub enum Stepped {
    Did,
    Idle,
}
