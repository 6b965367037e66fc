ghost use Rattle.std.specs.Prelude.{◌≡◌, ◌++◌, ◌∷◌, ◌<◌, [], length, map, IfOk, OnOk, OnErr};
ghost use Rattle.gw_shared.specs.Runs.{IsRun};
ghost use Rattle.gw_entities.specs.Values.{block_values};

use gw_nums::Val;
use gw_shared::SharedList;
use std::alloc::{AllocError, Global};
use std::marker::Model;
use std::sync::Arc;

// So many values stand in a block.
const BLOCK: usize = 4096;

// How many values there may be in blocks at the most before one more is made, 2^62.
const LIMIT: usize = 4_611_686_018_427_387_904;

/// The values of a table, in the order in which they came. Copies share them: a copy takes the memory of a pointer for each
/// 4,096 values, and of one for each 64 of the last 4,096.
#[derive(Drop)]
pub struct Values {
    blocks: Vec<Block>,
    // How many values are in the blocks.
    settled: usize,
    // The values after them.
    last: SharedList<Val>,
}

// So many values that copies share whole.
#[derive(Drop)]
pub struct Block {
    pub values: Arc<Vec<Val>>,
}

impl Model for Values {
    ghost use Rattle.std.specs.Prelude.{◌≡◌, ◌≤◌, ◌+◌, ◌^◌, ◌++◌, ℤ, List, length, map};
    ghost use Rattle.gw_entities.specs.Values.{in_blocks, block_values, AreFull};

    ghost Value = { List ℤ };

    ghost view = { λ v. in_blocks v.blocks.items ++ v.last.items };

    ghost invariant = { λ v. (v.settled ≡ length (in_blocks v.blocks.items)) × (v.settled ≤ 2 ^ 62 + 4096)
        × AreFull (map block_values v.blocks.items) };
}

impl Values {
    // No value came yet.
    pub fn new(alloc: Global) -> Values
        ensures { result ≡ [] }
    {
        Values {
            blocks: Vec::new(alloc),
            settled: 0,
            last: SharedList::new(alloc),
        }
    }

    /// How many there are.
    pub fn len(&self) -> usize
        ensures { result ≡ length self.now }
    {
        self.settled + self.last.len()
    }

    /// The values from an index on that lie together, one at the least.
    pub fn run(&self, index: usize) -> &[Val]
        requires { index < length self.now }
        ensures some { 0 < length result.now }
        ensures run { IsRun self.now index result.now }
    {
        if index >= self.settled {
            return self.last.run(index - self.settled);
        }
        let values = self.blocks[index / BLOCK].values.as_slice();
        let (_, run) = values.split_at(index % BLOCK);
        run
    }

    // One more comes after the others. Where memory is refused, none comes.
    pub fn push(&mut self, value: Val) -> Result<(), AllocError>
        ensures ok { OnOk result (self.new ≡ self.old ++ value ∷ []) }
        ensures err { OnErr result (self.new ≡ self.old) }
    {
        self.settle()?;
        self.last.reserve(1)?;
        self.last.push(value);
        Ok(())
    }

    // Where the last values fill a block, they become one. The values are the same, also where memory is refused.
    fn settle(&mut self) -> Result<(), AllocError>
        ensures { self.new ≡ self.old }
    {
        if self.last.len() != BLOCK {
            return Ok(());
        }
        if self.settled > LIMIT {
            return Err(AllocError);
        }
        let alloc = *self.blocks.allocator();
        let values = Arc::new(alloc, in_one_piece(alloc, &self.last)?)?;
        self.blocks.push(Block { values })?;
        self.settled += BLOCK;
        self.last = SharedList::new(alloc);
        Ok(())
    }

    // Copies share from now on what came until now.
    pub fn share(&mut self) -> Result<(), AllocError>
        ensures { self.new ≡ self.old }
    {
        self.last.share()
    }

    // The same values.
    pub fn copy(&self) -> Result<Values, AllocError>
        ensures { IfOk result (λ v. v ≡ self.now) }
    {
        Ok(Values {
            blocks: same_blocks(*self.blocks.allocator(), &self.blocks)?,
            settled: self.settled,
            last: self.last.copy()?,
        })
    }
}

// These values in one piece.
fn in_one_piece(alloc: Global, values: &SharedList<Val>) -> Result<Vec<Val>, AllocError>
    ensures { IfOk result (λ piece. piece.items ≡ values.now.items) }
{
    let mut piece = Vec::with_capacity(alloc, values.len())?;
    for index in 0..values.len() {
        piece.push(*values.at(index))?;
    }
    Ok(piece)
}

// The same blocks.
fn same_blocks(alloc: Global, blocks: &[Block]) -> Result<Vec<Block>, AllocError>
    ensures { IfOk result (λ same. map block_values same.items ≡ map block_values blocks.now) }
{
    let mut same = Vec::with_capacity(alloc, blocks.len())?;
    for block in blocks {
        same.push(Block {
            values: Arc::try_clone(&block.values)?,
        })?;
    }
    Ok(same)
}
