ghost use Rattle.std.specs.Prelude.{◌≡◌, ◌<◌, ◌-◌, ◌++◌, ◌∷◌, ◌↔◌, [], Some, IfOk, IfSome, IsNone, OnOk, OnErr, length, map, take, slice_get};
ghost use Rattle.gw_shared.specs.Growing.{block_items};

use std::alloc::{AllocError, Global};
use std::marker::Model;
use std::mem;
use std::sync::Arc;

// So many items stand in a block.
const BLOCK: usize = 1_024;

// How many items there may be in blocks at the most before one more is made, 2^62.
const LIMIT: usize = 4_611_686_018_427_387_904;

/// A list that grows and is cut at its end. Copies share its blocks: a copy takes the memory of a pointer for each 1,024
/// items, and of 1,024 items besides.
#[derive(Drop)]
pub struct Growing<T: Copy> {
    blocks: Vec<Block<T>>,
    // How many items are in the blocks.
    settled: usize,
    // The items after them, with room for a whole block where there are blocks.
    last: Vec<T>,
}

// So many items that copies share whole.
#[derive(Drop)]
pub struct Block<T: Copy> {
    pub items: Arc<Vec<T>>,
}

impl<T: Copy> Model for Growing<T> {
    ghost use Rattle.std.specs.Prelude.{◌≡◌, ◌≤◌, ◌<◌, ◌+◌, ◌^◌, ◌++◌, List, length, map, vec_capacity};
    ghost use Rattle.gw_shared.specs.Growing.{in_blocks, block_items, AreFull};

    ghost Value = { List T };

    ghost view = { λ g. in_blocks g.blocks.items ++ g.last.items };

    // The 1024 here and below is BLOCK.
    ghost invariant = { λ g. (g.settled ≡ length (in_blocks g.blocks.items)) × (g.settled ≤ 2 ^ 62 + 1024)
        × AreFull (map block_items g.blocks.items)
        × (0 < length g.blocks.items → 1024 ≤ vec_capacity g.last) };
}

impl<T: Copy> Growing<T> {
    /// No item yet.
    pub fn new(alloc: Global) -> Growing<T>
        ensures { result ≡ [] }
    {
        Growing {
            blocks: Vec::new(alloc),
            settled: 0,
            last: Vec::new(alloc),
        }
    }

    /// How many items there are.
    #[inline(always)]
    pub fn len(&self) -> usize
        ensures { result ≡ length self.now }
    {
        self.settled + self.last.len()
    }

    /// The item at an index.
    #[inline(always)]
    pub fn at(&self, index: usize) -> &T
        requires { index < length self.now }
        ensures { slice_get self.now index ≡ Some result.now }
    {
        if index >= self.settled {
            return &self.last[index - self.settled];
        }
        &self.blocks[index / BLOCK].items[index % BLOCK]
    }

    /// The last item, if there is one.
    #[inline(always)]
    pub fn last(&self) -> Option<&T>
        ensures none { IsNone result ↔ (self.now ≡ []) }
        ensures some { IfSome result (λ x. slice_get self.now (length self.now - 1) ≡ Some x.now) }
    {
        let count = self.len();
        if count == 0 {
            return None;
        }
        Some(self.at(count - 1))
    }

    /// One more at the end. Where memory is refused, none comes.
    #[inline(always)]
    pub fn push(&mut self, item: T) -> Result<(), AllocError>
        ensures ok { OnOk result (self.new ≡ self.old ++ item ∷ []) }
        ensures err { OnErr result (self.new ≡ self.old) }
    {
        if self.last.len() == BLOCK {
            self.settle()?;
        }
        self.last.push(item)?;
        Ok(())
    }

    // Where the last items fill a block, they become one. The items are the same, also where memory is refused.
    #[cold]
    #[inline(never)]
    fn settle(&mut self) -> Result<(), AllocError>
        ensures { self.new ≡ self.old }
    {
        if self.last.len() != BLOCK {
            return Ok(());
        }
        if self.settled > LIMIT {
            return Err(AllocError);
        }
        let alloc = *self.blocks.allocator();
        self.blocks.reserve(1)?;
        let next = Vec::with_capacity(alloc, BLOCK)?;
        match Arc::new(alloc, mem::replace(&mut self.last, next)) {
            Ok(items) => {
                self.blocks.push_reserved(Block { items });
                self.settled += BLOCK;
                Ok(())
            }
            Err(failed) => {
                self.last = failed.value;
                Err(AllocError)
            }
        }
    }

    /// The first so many stay, and the others go. It takes no memory.
    pub fn truncate(&mut self, count: usize)
        ensures { self.new ≡ take count self.old }
    {
        if count >= self.settled {
            self.last.truncate(count - self.settled);
            return;
        }
        let whole = count / BLOCK;
        self.last.clear();
        match self
            .last
            .extend_from_slice(&self.blocks[whole].items.as_slice()[..count % BLOCK])
        {
            Ok(()) => (),
            Err(_) => unreachable!(),
        }
        self.blocks.truncate(whole);
        self.settled = whole * BLOCK;
    }

    /// The same items.
    pub fn copy(&self) -> Result<Growing<T>, AllocError>
        ensures { IfOk result (λ g. g ≡ self.now) }
    {
        let alloc = *self.blocks.allocator();
        let blocks = same_blocks(alloc, &self.blocks)?;
        let mut last = Vec::with_capacity(alloc, BLOCK)?;
        last.extend_from_slice(self.last.as_slice())?;
        Ok(Growing {
            blocks,
            settled: self.settled,
            last,
        })
    }
}

// The same blocks.
fn same_blocks<T: Copy>(alloc: Global, blocks: &[Block<T>]) -> Result<Vec<Block<T>>, AllocError>
    ensures { IfOk result (λ same. map block_items same.items ≡ map block_items blocks.now) }
{
    let mut same = Vec::with_capacity(alloc, blocks.len())?;
    for block in blocks {
        same.push(Block {
            items: Arc::try_clone(&block.items)?,
        })?;
    }
    Ok(same)
}
