// The mean and the deviation of the values of a table.
ghost use Rattle.std.specs.Prelude.{◌≡◌, ◌<◌, ◌≤◌, ◌*◌, ◌^◌, IfOk, length};
ghost use Rattle.gw_nums.specs.Range.{magnitude};
ghost use Rattle.gw_report.specs.Moments.{AreValues};
ghost use Rattle.gw_report.specs.Tables.{sum_of, squares_of, mean_text, deviation};

use crate::column::fraction_of;
use gw_nums::{thousandths, whole_root};
use itoa::Buffer;
use std::alloc::{AllocError, Global};

/// The sum of values.
pub fn sum_of(numbers: &[i32]) -> i64
    requires values { AreValues numbers.now }
    requires few { length numbers.now < 2 ^ 32 }
    ensures value { result ≡ sum_of numbers.now }
    ensures bound { magnitude result ≤ length numbers.now * 1000000000 }
{
    let mut sum = 0;
    for number in numbers {
        sum += i64::from(*number);
    }
    sum
}

/// The sum of their squares.
pub(crate) fn squares_of(numbers: &[i32]) -> u128
    requires values { AreValues numbers.now }
    requires few { length numbers.now < 2 ^ 32 }
    ensures value { result ≡ squares_of numbers.now }
    ensures bound { result ≤ length numbers.now * 1000000000000000000 }
{
    let mut squares = 0;
    for number in numbers {
        let magnitude = u64::from(number.unsigned_abs());
        squares += u128::from(magnitude * magnitude);
    }
    squares
}

/// The mean of so many values with this sum, in three decimals.
pub(crate) fn mean_text(alloc: Global, sum: i64, count: u64) -> Result<Vec<u8>, AllocError>
    ensures { IfOk result (λ text. text.items ≡ mean_text sum count) }
{
    let mean = thousandths(u128::from(sum.unsigned_abs()), u128::from(count));
    let mut digits = Buffer::new();
    let mut text = Vec::new(alloc);
    if sum < 0 && mean != 0 {
        text.push(b'-')?;
    }
    text.extend_from_slice(digits.format(mean / 1000).as_bytes())?;
    text.extend_from_slice(&fraction_of(mean))?;
    Ok(text)
}

/// The standard deviation of so many values, in thousandths, by their sum and that of their squares. What remains of the
/// division by their number is taken apart, since 1,000,000 times the whole may not fit.
pub(crate) fn deviation(count: u64, sum: i64, squares: u128) -> u128
    requires few { count < 2 ^ 32 }
    requires sum { magnitude sum ≤ count * 1000000000 }
    requires squares { squares ≤ count * 1000000000000000000 }
    ensures { result ≡ deviation count sum squares }
{
    let over = u128::from(count * count.saturating_sub(1));
    if over == 0 {
        return 0;
    }
    let sum = u128::from(sum.unsigned_abs());
    let spread = (u128::from(count) * squares).saturating_sub(sum * sum);
    whole_root(spread / over * 1_000_000 + spread % over * 1_000_000 / over)
}
