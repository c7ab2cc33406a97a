ghost use Rattle.std.specs.Prelude.{◌≡◌, replicate, IfOk};

use std::alloc::{AllocError, Global};

// Long to prove: the values are of any type.
/// A list of so many equal values.
pub fn repeated<T: Copy>(alloc: Global, value: T, count: usize) -> Result<Vec<T>, AllocError>
    ensures { IfOk result (λ list. list.items ≡ replicate count value) }
{
    let mut list = Vec::with_capacity(alloc, count)?;
    for made in 0..count {
        list.push_reserved(value);
    }
    Ok(list)
}

/// A list of so many values that are made one by one: equal ones, where each call makes the same.
pub fn repeated_with<T: Drop, F: FnMut() -> T + Drop>(
    alloc: Global,
    make: F,
    count: usize,
) -> Result<Vec<T>, AllocError>
    requires { F.IsAlwaysCallable make }
    ensures { IfOk result (λ list.
        (value : T) → ((f g : F) (made : T) → F.step f made g → made ≡ value) →
        list.items ≡ replicate count value) }
{
    let mut list = Vec::with_capacity(alloc, count)?;
    list.resize_with(count, make)?;
    Ok(list)
}
