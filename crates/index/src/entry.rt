//! What an index has in its places.

/// A key and the half-face beside it.
#[derive(Clone, Copy, PartialEq, Eq, Debug)]
pub struct Entry<K> {
    pub key: K,
    pub half_face: u16,
}
