ghost use Rattle.std.specs.Prelude.{◌≡◌, ◌+◌, ◌<◌, ◌≤◌, ◌^◌, length, sum};
ghost use Rattle.std.specs.List.{sum_by};
ghost use Rattle.gw_lanes.specs.Counts.{count_at_most, class_counts, AllFit, AreRising};

use std::simd::prelude::*;

/// How many of the values are at most a limit.
pub fn count_at_most(values: &[i32], limit: i32) -> usize
    ensures value { result ≡ count_at_most limit values.now }
    ensures bound { result ≤ length values.now }
{
    let (blocks, rest) = values.as_chunks::<16>();
    count_in_blocks(blocks, limit) + count_each(rest, limit)
}

// How many in all blocks.
fn count_in_blocks(blocks: &[[i32; 16]], limit: i32) -> usize
    requires { length blocks.now < 2 ^ 59 }
    ensures { result ≡ sum_by (count_at_most limit) blocks.now }
{
    let mut count = 0;
    for block in blocks {
        count += count_in_block(block, limit);
    }
    count
}

// How many in a block.
fn count_in_block(block: &[i32; 16], limit: i32) -> usize
    ensures value { result ≡ count_at_most limit block.now }
    ensures bound { result ≤ 16 }
{
    each_fits(block);
    let below = i32x16::from_array(*block).simd_le(i32x16::splat(limit));
    below.to_bitmask().count_ones() as usize
}

// Each value fits its type: that is known of one that was read.
#[inline(always)]
fn each_fits(values: &[i32])
    ensures { AllFit values.now }
{
    for i in 0..values.len() {
        let _value = values[i];
    }
}

// How many, one by one.
fn count_each(values: &[i32], limit: i32) -> usize
    ensures value { result ≡ count_at_most limit values.now }
    ensures bound { result ≤ length values.now }
{
    let mut count = 0;
    for value in values {
        if *value <= limit {
            count += 1;
        }
    }
    count
}

/// Sets each slot to how many of the values lie in its class: those of slot i are above the limit before limit i and at
/// most limit i, and those of the last slot are above all limits. Together they count each value once.
pub fn class_counts(values: &[i32], limits: &[i32], counts: &mut [u32])
    requires few { length values.now < 2 ^ 32 }
    requires rising { AreRising limits.now }
    requires slots { length counts.old ≡ length limits.now + 1 }
    ensures classes { counts.new ≡ class_counts limits.now values.now }
    ensures each_once { sum counts.new ≡ length values.now }
{
    let mut before = 0;
    for i in 0..limits.len() {
        let up_to = count_at_most(values, limits[i]) as u32;
        counts[i] = up_to - before;
        before = up_to;
    }
    counts[limits.len()] = values.len() as u32 - before;
}
