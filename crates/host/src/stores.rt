//! The stores, where a call only reads them.

/// The code, and the tables of the images.
#[derive(Clone, Copy)]
pub struct Images<'a> {
    pub code: &'a [u8],
    pub places: &'a [u16],
    pub rows: &'a [u16],
    pub starts: &'a [u16],
}

/// The stores that a run writes.
#[derive(Clone, Copy)]
pub struct Memory<'a> {
    pub stacks: &'a [u64],
    pub heap: &'a [u64],
    pub text: &'a [u8],
    pub output: &'a [u8],
}
