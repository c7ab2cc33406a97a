/// What whoever arrives at a lock is to do.
#[derive(Debug, Drop)]
pub enum Role<V> {
    /// It holds the lock of its name, and acts for all that have its bytes.
    Agent(V),
    /// It waits, since the lock's agent has the same bytes.
    Waits,
    /// It goes on without a lock, since the lock's agent has other bytes.
    Alone(V),
}
