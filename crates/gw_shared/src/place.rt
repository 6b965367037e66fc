ghost use Rattle.std.specs.Prelude.{◌≡◌, ◌<◌, ◌^◌, length};
ghost use Rattle.gw_shared.specs.Lists.{joined, AreFull, IsPlace};

use crate::buffer::CHUNK;
use crate::chunk::Chunk;
use std::collections::VecDeque;

// Where an item stands: in which chunk, and where in it.
#[derive(Clone, Copy)]
pub struct Place {
    pub chunk: usize,
    pub offset: usize,
}

// Where the item at an index stands. In the full chunks at the front a division tells it.
#[inline(always)]
pub fn find<T: Copy>(chunks: &VecDeque<Chunk<T>>, full: usize, total: usize, index: usize) -> Place
    requires full { AreFull full chunks.now.items }
    requires total { total ≡ length (joined chunks.now.items) }
    requires within { index < total }
    requires bound { total < 2 ^ 63 }
    ensures { IsPlace chunks.now.items index result.chunk result.offset }
{
    let chunk = index / CHUNK;
    if chunk < full {
        return Place {
            chunk,
            offset: index % CHUNK,
        };
    }
    walk(chunks, total, index)
}

// After them it is looked for from the end that is nearer.
#[inline(never)]
fn walk<T: Copy>(chunks: &VecDeque<Chunk<T>>, total: usize, index: usize) -> Place
    requires total { total ≡ length (joined chunks.now.items) }
    requires within { index < total }
    requires bound { total < 2 ^ 63 }
    ensures { IsPlace chunks.now.items index result.chunk result.offset }
{
    if index < total / 2 {
        find_from_front(chunks, total, index)
    } else {
        find_from_back(chunks, total, index)
    }
}

fn find_from_front<T: Copy>(chunks: &VecDeque<Chunk<T>>, total: usize, index: usize) -> Place
    requires total { total ≡ length (joined chunks.now.items) }
    requires within { index < total }
    requires bound { total < 2 ^ 63 }
    ensures { IsPlace chunks.now.items index result.chunk result.offset }
{
    let mut start = 0;
    for chunk in 0..chunks.len() {
        let end = start + chunks[chunk].len();
        if index < end {
            return Place {
                chunk,
                offset: index - start,
            };
        }
        start = end;
    }
    unreachable!()
}

fn find_from_back<T: Copy>(chunks: &VecDeque<Chunk<T>>, total: usize, index: usize) -> Place
    requires total { total ≡ length (joined chunks.now.items) }
    requires within { index < total }
    requires bound { total < 2 ^ 63 }
    ensures { IsPlace chunks.now.items index result.chunk result.offset }
{
    let mut end = total;
    for chunk in (0..chunks.len()).rev() {
        let start = end - chunks[chunk].len();
        if start <= index {
            return Place {
                chunk,
                offset: index - start,
            };
        }
        end = start;
    }
    unreachable!()
}
