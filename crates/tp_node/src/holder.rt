//! A wrapper that a struct needs so that it can be dropped.

/// A value that a struct holds. A struct that has a store as a field has no proof rule for its drop, since the store's
/// slots have a bound that names the type of their items. If the store is wrapped in this, the struct has one.
#[derive(Drop)]
pub(crate) struct Holder<T> {
    pub(crate) value: T,
}
