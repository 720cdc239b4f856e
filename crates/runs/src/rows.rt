// Rows as parts of a setter's memory.
ghost use Rattle.runs.specs.Stands.{begin_of, size_of};
ghost use Rattle.std.specs.Prelude.{◌≡◌, ◌+◌};

use crate::call::Row;

impl Row {
    // Stays: a part of a slice that is lent for writing gets no proof of what the memory ends as, so this gives its place.
    // Where the row begins in the memory and where it ends, with as many of its bytes as are there.
    pub(crate) fn place(self, memory: &[u8]) -> (usize, usize)
        ensures from { result.0 ≡ begin_of memory.now self }
        ensures end { result.1 ≡ begin_of memory.now self + size_of memory.now self }
    {
        let from = self.from.min(memory.len());
        (from, from + self.len.min(memory.len() - from))
    }
}
