use block_names::Name;

/// Who waits for the lock of a name.
#[derive(Drop)]
pub struct Waiter<V> {
    pub name: Name,
    pub vio: V,
}
