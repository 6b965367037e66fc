// Texts that are written in place, over blanks.
ghost use Rattle.std.specs.Prelude.{◌≡◌, ◌≤◌, ◌-◌, ◌<◌, ◌^◌, length, drop, decimal, IfSome};
ghost use Rattle.std.specs.Bool.{OnTrue};
ghost use Rattle.gw_report.specs.declared.column.Side.TheVariants.{Right};
ghost use Rattle.gw_report.specs.Layout.{blanks, fitted};
ghost use Rattle.gw_report.specs.Laid.{Laid};

use crate::column::Side;
use itoa::write_digits;

/// Lays out a text on one side of a cell in which it fits.
#[inline(always)]
pub(crate) fn lay_text(line: &mut [u8], from: usize, end: usize, side: Side, text: &[u8])
    requires order { (from ≤ end) × (end ≤ length line.old) }
    requires fits { length text.now ≤ end - from }
    requires blank { drop from line.old ≡ blanks (length line.old - from) }
    ensures { Laid line.old line.new from (fitted side (end - from) text.now) end }
{
    let start = match side {
        Side::Left => from,
        Side::Right => end - text.len(),
    };
    line[start..start + text.len()].copy_from_slice(text);
}

/// Lays out a number on the right of a cell in which it fits.
#[inline(always)]
pub(crate) fn lay_number(line: &mut [u8], from: usize, end: usize, number: u64)
    requires order { (from ≤ end) × (end ≤ length line.old) }
    requires fits { length (decimal number) ≤ end - from }
    requires blank { drop from line.old ≡ blanks (length line.old - from) }
    ensures { Laid line.old line.new from (fitted Right (end - from) (decimal number)) end }
{
    write_digits(number, line, end);
}

/// Whether a number is sure to have at most so many digits.
#[inline(always)]
pub fn fits(number: u64, width: usize) -> bool
    ensures { OnTrue result (length (decimal number) ≤ width) }
{
    match power_of_ten(width) {
        Some(power) => number < power,
        None => false,
    }
}

// The least number with more digits than so many, where it is a `u64`.
#[inline(always)]
fn power_of_ten(digits: usize) -> Option<u64>
    ensures { IfSome result (λ power. (0 < digits) × (power ≡ 10 ^ digits)) }
{
    match digits {
        1 => Some(10),
        2 => Some(100),
        3 => Some(1_000),
        4 => Some(10_000),
        5 => Some(100_000),
        6 => Some(1_000_000),
        7 => Some(10_000_000),
        8 => Some(100_000_000),
        9 => Some(1_000_000_000),
        10 => Some(10_000_000_000),
        11 => Some(100_000_000_000),
        12 => Some(1_000_000_000_000),
        13 => Some(10_000_000_000_000),
        14 => Some(100_000_000_000_000),
        15 => Some(1_000_000_000_000_000),
        16 => Some(10_000_000_000_000_000),
        17 => Some(100_000_000_000_000_000),
        18 => Some(1_000_000_000_000_000_000),
        19 => Some(10_000_000_000_000_000_000),
        _ => None,
    }
}
