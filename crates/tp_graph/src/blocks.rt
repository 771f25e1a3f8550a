//! A list in blocks, for graphs whose tasks work on ranges of items.
ghost use Rattle.std.specs.Prelude.{◌≡◌, ◌≢◌, ◌<◌, ◌+◌, ◌*◌, length, min, IfNone, IfSome};
ghost use Rattle.tp_graph.specs.Blocks.{AreBlocks, block_of};

use std::ops::Range;

/// The blocks of a list. All have the same size except the last, which may be shorter; none is empty.
#[derive(Clone, Copy, Debug)]
pub struct Blocks {
    items: usize,
    size: usize,
    count: usize,
    ghost cut: { AreBlocks items size count },
}

impl Blocks {
    /// Returns the blocks of a list of `items` items, each of `size` items but the last, or `None` if `size` is 0.
    pub fn new(items: usize, size: usize) -> Option<Self>
        ensures some { IfSome result (λ blocks. (blocks.items ≡ items) × (blocks.size ≡ size)) }
        ensures none { IfNone result (size ≡ 0) }
    {
        if size == 0 {
            return None;
        }
        let count = if items == 0 {
            0
        } else {
            (items - 1) / size + 1
        };
        Some(Blocks { items, size, count })
    }

    /// Returns the number of blocks.
    pub fn count(&self) -> usize
        ensures same { result ≡ self.now.count }
        ensures right { AreBlocks self.now.items self.now.size result }
    {
        self.count
    }

    /// Returns the range of indices of a block's items.
    pub fn range(&self, block: usize) -> Range<usize>
        requires { block < self.now.count }
        ensures start { result.start ≡ block * self.now.size }
        ensures end { result.end ≡ min (block * self.now.size + self.now.size) self.now.items }
    {
        let start = block * self.size;
        let end = if self.items - start < self.size {
            self.items
        } else {
            start + self.size
        };
        start..end
    }

    /// Returns a block of a list that has `items` items.
    pub fn of<'a, T>(&self, list: &'a [T], block: usize) -> &'a [T]
        requires long { length list.now ≡ self.now.items }
        requires known { block < self.now.count }
        ensures { result.now ≡ block_of self.now.size block list.now }
    {
        let (_, rest) = list.split_at(block * self.size);
        let (own, _) = rest.split_at(rest.len().min(self.size));
        own
    }
}
