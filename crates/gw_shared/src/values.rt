ghost use Rattle.std.specs.Prelude.{◌≡◌, ◌<◌, ◌++◌, ◌∷◌, ◌↔◌, [], None, Some, IfOk, OnOk, OnErr, length, map, slice_get, IsTrue};
ghost use Rattle.std.specs.Borrow.{sem};
ghost use Rattle.gw_shared.specs.Values.{block_values, in_blocks, AreLaidOut, HasRoom};

use std::alloc::{AllocError, Global};
use std::marker::Model;
use std::mem;
use std::sync::Arc;

// So many values stand in a block.
const BLOCK: usize = 16;

/// A value whose copies share what it holds.
pub trait Sharing: Drop {
    /// Copies share from now on what it holds now. It stays equal, also where memory is refused.
    ///
    /// # Errors
    ///
    /// Where memory is refused.
    fn share(&mut self) -> Result<(), AllocError>
        ensures { self.new ≡ self.old };

    /// An equal value.
    ///
    /// # Errors
    ///
    /// Where memory is refused.
    fn copy(&self) -> Result<Self, AllocError>
        ensures { IfOk result (λ v. v ≡ self.now) };
}

/// A list of values in blocks of 16, which copies share: a copy takes the time and the memory of four words for each
/// block, and of the values of each block in which one was changed since the last `share`.
#[derive(Drop)]
pub struct SharedValues<V: Sharing> {
    blocks: Vec<Block<V>>,
    // How many values there are.
    count: usize,
}

// Up to 16 values. Those that copies may share never change; a block that has them has none of its own.
#[derive(Drop)]
pub struct Block<V: Sharing> {
    pub shared: Option<Arc<Vec<V>>>,
    pub own: Vec<V>,
}

impl<V: Sharing> Model for SharedValues<V> {
    ghost use Rattle.std.specs.Prelude.{◌≡◌, List, length, map};
    ghost use Rattle.gw_shared.specs.Values.{in_blocks, block_values, AreLaidOut};

    ghost Value = { List V };

    ghost view = { λ s. in_blocks s.blocks.items };

    ghost invariant = { λ s. (s.count ≡ length (in_blocks s.blocks.items)) × AreLaidOut (map block_values s.blocks.items) };
}

impl<V: Sharing> SharedValues<V> {
    ghost use Rattle.gw_shared.specs.Lends.{LendsValue};

    /// No value.
    pub fn new(alloc: Global) -> SharedValues<V>
        ensures { result ≡ [] }
    {
        SharedValues {
            blocks: Vec::new(alloc),
            count: 0,
        }
    }

    /// How many values there are.
    pub fn len(&self) -> usize
        ensures { result ≡ length self.now }
    {
        self.count
    }

    /// Where its memory comes from.
    pub fn allocator(&self) -> Global {
        *self.blocks.allocator()
    }

    /// The value at an index.
    #[inline(always)]
    pub fn at(&self, index: usize) -> &V
        requires { index < length self.now }
        ensures { slice_get self.now index ≡ Some result.now }
    {
        &self.blocks[index / BLOCK].values()[index % BLOCK]
    }

    /// The value at an index, to change it: it is this list's own from now on. Where memory is refused, no value changes.
    ///
    /// # Errors
    ///
    /// Where memory is refused.
    pub fn at_mut(&mut self, index: usize) -> Result<&mut V, AllocError>
        requires { index < length self.old }
        ensures value { IfOk result (λ v. slice_get self.old index ≡ Some v.now) }
        ensures* writes_back { sem 𝓛 (LendsValue V.row self.entry index result) }
    {
        self.blocks[index / BLOCK].own()?;
        let block = &mut self.blocks[index / BLOCK];
        Ok(&mut block.own[index % BLOCK])
    }

    /// One more at the end. Where memory is refused, none comes.
    ///
    /// # Errors
    ///
    /// Where memory is refused.
    pub fn push(&mut self, value: V) -> Result<(), AllocError>
        ensures ok { OnOk result (self.new ≡ self.old ++ value ∷ []) }
        ensures err { OnErr result (self.new ≡ self.old) }
    {
        if self.count == usize::MAX {
            return Err(AllocError);
        }
        push_in(&mut self.blocks, value)?;
        self.count += 1;
        Ok(())
    }

    /// Copies share from now on the values that it holds now. No value changes, also where memory is refused.
    ///
    /// # Errors
    ///
    /// Where memory is refused.
    pub fn share(&mut self) -> Result<(), AllocError>
        ensures { self.new ≡ self.old }
    {
        share_blocks(&mut self.blocks)
    }

    /// An equal list: blocks that may be shared are shared with it.
    ///
    /// # Errors
    ///
    /// Where memory is refused.
    pub fn copy(&self) -> Result<SharedValues<V>, AllocError>
        ensures { IfOk result (λ s. s ≡ self.now) }
    {
        Ok(SharedValues {
            blocks: copy_blocks(self.allocator(), &self.blocks)?,
            count: self.count,
        })
    }
}

impl<V: Sharing> Block<V> {
    // A block of one value.
    fn of(alloc: Global, value: V) -> Result<Block<V>, AllocError>
        ensures { IfOk result (λ b. block_values b ≡ value ∷ []) }
    {
        let mut own = Vec::with_capacity(alloc, BLOCK)?;
        own.push(value)?;
        Ok(Block { shared: None, own })
    }

    // Its values.
    #[inline(always)]
    fn values(&self) -> &[V]
        ensures { result.now ≡ block_values self.now }
    {
        match &self.shared {
            Some(shared) => shared.as_slice(),
            None => self.own.as_slice(),
        }
    }

    // One more at its end. Where memory is refused, none comes.
    fn push(&mut self, value: V) -> Result<(), AllocError>
        ensures ok { OnOk result (block_values self.new ≡ block_values self.old ++ value ∷ []) }
        ensures err { OnErr result (block_values self.new ≡ block_values self.old) }
    {
        self.own()?;
        self.own.push(value)?;
        Ok(())
    }

    // From now on its values are its own.
    fn own(&mut self) -> Result<(), AllocError>
        ensures own { OnOk result (self.new.shared ≡ None) }
        ensures values { block_values self.new ≡ block_values self.old }
    {
        if let Some(shared) = &self.shared {
            self.own = copies(*self.own.allocator(), shared.as_slice())?;
            self.shared = None;
        }
        Ok(())
    }

    // From now on copies share its values.
    fn share(&mut self) -> Result<(), AllocError>
        ensures { block_values self.new ≡ block_values self.old }
    {
        if self.shared.is_some() {
            return Ok(());
        }
        share_all(&mut self.own)?;
        let alloc = *self.own.allocator();
        match Arc::new(alloc, mem::replace(&mut self.own, Vec::new(alloc))) {
            Ok(shared) => {
                self.shared = Some(shared);
                Ok(())
            }
            Err(failed) => {
                self.own = failed.value;
                Err(AllocError)
            }
        }
    }

    // A block of equal values: the same ones where they may be shared.
    fn copy(&self) -> Result<Block<V>, AllocError>
        ensures { IfOk result (λ b. block_values b ≡ block_values self.now) }
    {
        let alloc = *self.own.allocator();
        match &self.shared {
            Some(shared) => Ok(Block {
                shared: Some(Arc::try_clone(shared)?),
                own: Vec::new(alloc),
            }),
            None => Ok(Block {
                shared: None,
                own: copies(alloc, self.own.as_slice())?,
            }),
        }
    }
}

// One more at the end: in the last block, or in a new one where that is full.
fn push_in<V: Sharing>(blocks: &mut Vec<Block<V>>, value: V) -> Result<(), AllocError>
    requires { AreLaidOut (map block_values blocks.old.items) }
    ensures ok { OnOk result (in_blocks blocks.new.items ≡ in_blocks blocks.old.items ++ value ∷ []) }
    ensures err { OnErr result (in_blocks blocks.new.items ≡ in_blocks blocks.old.items) }
    ensures laid { AreLaidOut (map block_values blocks.new.items) }
{
    if has_room(blocks) {
        let last = blocks.len() - 1;
        blocks[last].push(value)?;
        return Ok(());
    }
    let block = Block::of(*blocks.allocator(), value)?;
    blocks.push(block)?;
    Ok(())
}

// Whether there is a last block and it is not full.
fn has_room<V: Sharing>(blocks: &[Block<V>]) -> bool
    ensures { IsTrue result ↔ HasRoom (map block_values blocks.now) }
{
    let count = blocks.len();
    count > 0 && blocks[count - 1].values().len() < BLOCK
}

// From now on copies share the values of these.
fn share_blocks<V: Sharing>(blocks: &mut Vec<Block<V>>) -> Result<(), AllocError>
    ensures { map block_values blocks.new.items ≡ map block_values blocks.old.items }
{
    for at in 0..blocks.len() {
        blocks[at].share()?;
    }
    Ok(())
}

// Blocks of equal values.
fn copy_blocks<V: Sharing>(alloc: Global, blocks: &[Block<V>]) -> Result<Vec<Block<V>>, AllocError>
    ensures { IfOk result (λ bs. map block_values bs.items ≡ map block_values blocks.now) }
{
    let mut copies = Vec::with_capacity(alloc, blocks.len())?;
    for block in blocks {
        copies.push(block.copy()?)?;
    }
    Ok(copies)
}

// Copies share from now on what these hold.
fn share_all<V: Sharing>(values: &mut Vec<V>) -> Result<(), AllocError>
    ensures { values.new.items ≡ values.old.items }
{
    for at in 0..values.len() {
        values[at].share()?;
    }
    Ok(())
}

// Equal values.
fn copies<V: Sharing>(alloc: Global, values: &[V]) -> Result<Vec<V>, AllocError>
    ensures { IfOk result (λ vs. vs.items ≡ values.now) }
{
    let mut copies = Vec::with_capacity(alloc, BLOCK)?;
    for value in values {
        copies.push(value.copy()?)?;
    }
    Ok(copies)
}
