//! The values of a pattern of a `.dic`.

// A value above 0 at a place, counted in bytes of the key.
#[derive(Clone, Copy)]
pub(crate) struct Value {
    pub place: usize,
    pub value: u8,
}
