ghost use Rattle.std.specs.Prelude.{◌≤◌, length};

mod appending;

/// A list that keeps its elements in memory that its user lends, in the order of appending.
// A slice with a length beside it, and no `Vec`: the memory is the caller's, and no heap is used.
#[derive(Drop)]
pub struct LentList<'a, T> {
    memory: &'a mut [T],
    len: usize,
    ghost fits: { len ≤ length memory.now },
}

/// Why an element was not appended: the memory is full.
#[derive(Clone, Copy, PartialEq, Eq, Debug)]
pub enum AppendRefusal {
    Full,
}
