//! Values that are let go.

/// Lets a value go. Where a function ends early, this is one step of its proof, and a large value that is dropped there is many.
pub(crate) fn discard<T: Drop>(value: T) {
    let _value = value;
}
