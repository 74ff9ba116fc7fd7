//! Many threads may read one store.

use crate::store::BoundedStore;
use std::marker::Sync;

// What may be lent to many threads.
fn is_shared<S: Sync>(_store: &S) {}

/// The store may be lent to many threads at once.
pub fn bounded_is_shared(store: &BoundedStore) {
    is_shared(store);
}
