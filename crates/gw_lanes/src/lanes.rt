ghost use Rattle.std.specs.Prelude.{◌≡◌, ◌≢◌, ◌<◌, ◌≤◌, None, IfSome, IfNone, All, length, take, fold, min};
ghost use Rattle.std.specs.List.{concat};
ghost use Rattle.gw_lanes.specs.FirstAt.{first_at, IsFirstAt};
ghost use Rattle.gw_lanes.specs.Least.{least};

use std::simd::prelude::*;

/// The least of the values: `None` of an empty slice.
pub fn least(values: &[u64]) -> Option<u64>
    ensures { result ≡ least values.now }
{
    if values.is_empty() {
        return None;
    }
    let (blocks, rest) = values.as_chunks::<8>();
    Some(least_from(least_in_blocks(blocks), rest))
}

// The least of the blocks, 18446744073709551615 where there is none. Eight comparisons follow one another without a test
// between them: the processors for which the kit compiles have no vector instruction that compares such numbers.
fn least_in_blocks(blocks: &[[u64; 8]]) -> u64
    ensures { result ≡ fold min 18446744073709551615 (concat blocks.now) }
{
    let mut least = u64::MAX;
    for block in blocks {
        least = least_from(least, block);
    }
    least
}

// The least of a number and the values.
#[inline(always)]
fn least_from(start: u64, values: &[u64]) -> u64
    ensures { result ≡ fold min start values.now }
{
    let mut least = start;
    for value in values {
        least = least.min(*value);
    }
    least
}

/// The first place at which a value stands: `None` where it stands nowhere.
#[inline]
pub fn first_at(values: &[u64], value: u64) -> Option<usize>
    ensures place { result ≡ first_at value values.now }
    ensures found { IfSome result (λ place. IsFirstAt value values.now place) }
    ensures nowhere { IfNone result (All (λ other. other ≢ value) values.now) }
{
    let (blocks, rest) = values.as_chunks::<8>();
    if let Some(place) = first_in_blocks(blocks, value) {
        return Some(place);
    }
    first_from(values, values.len() - rest.len(), value)
}

// The first place in blocks that stand one after another.
#[inline]
fn first_in_blocks(blocks: &[[u64; 8]], value: u64) -> Option<usize>
    ensures { result ≡ first_at value (concat blocks.now) }
{
    for (i, block) in blocks.iter().enumerate() {
        if let Some(lane) = first_lane(block, value) {
            return Some(i * 8 + lane);
        }
    }
    None
}

// The first lane of a block.
#[inline]
fn first_lane(block: &[u64; 8], value: u64) -> Option<usize>
    ensures place { result ≡ first_at value block.now }
    ensures bound { IfSome result (λ lane. lane < 8) }
{
    let equal = u64x8::from_array(*block)
        .simd_eq(u64x8::splat(value))
        .to_bitmask();
    if equal == 0 {
        return None;
    }
    Some(equal.trailing_zeros() as usize)
}

// The first place, which does not lie before `start`.
#[inline]
fn first_from(values: &[u64], start: usize, value: u64) -> Option<usize>
    requires within { start ≤ length values.now }
    requires before { first_at value (take start values.now) ≡ None }
    ensures { result ≡ first_at value values.now }
{
    for i in start..values.len() {
        if values[i] == value {
            return Some(i);
        }
    }
    None
}
