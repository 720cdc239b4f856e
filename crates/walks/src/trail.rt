// Where a walk stands.

// Stays: arrays with a length, since a search has no heap, and its path is handed to bounds so.
/// Where a walk stands: the first `len` settings of `path` are the next beginning, and `live[i]` has the mask of what is
/// live of each module below the first `i` of them. With none of them, the walk is finished.
#[derive(Clone, Copy)]
pub struct Trail {
    pub(crate) path: [u8; 20],
    pub(crate) len: usize,
    pub(crate) live: [[u8; 20]; 20],
}
