// Draws from the random streams, and the times that are sampled by them.
ghost use Rattle.std.specs.Prelude.{◌≡◌, ◌≤◌, ◌<◌, ◌^◌, if◌then◌else◌, Some, None, OnOk, OnErr, option_copied};
ghost use Rattle.gw_nums.specs.Millionths.{times};
ghost use Rattle.gw_nums.specs.Range.{is_value, magnitude};
ghost use Rattle.gw_meaning.specs.declared.item.Item.TheVariants as items;
ghost use Rattle.gw_meaning.specs.Evaluation.{draw, in_range, millionths, modifier_of, sample, sample_within, spread};
ghost use Rattle.gw_asking.specs.Deciding.{Decides, Comes};
ghost use Rattle.gw_asking.specs.Noted.{Asks};

use crate::notes::Notes;
use crate::run::Run;
use gw_expr::{Atom, Expr, Halt, Stop, Subject, is_of_function};
use gw_meaning::Item;
use gw_nums::{Millionths, Val, times};
use std::alloc::AllocError;

/// A draw from stream j, which reads the seed where it is the first one since the stream was set.
#[inline(always)]
pub fn draw(run: Run, notes: &mut Notes, j: usize) -> Result<u32, Halt>
    ensures { Decides run.entry.version.now run.entry.seed (draw j) result notes.old notes.new }
{
    if notes.streams.wants_seed(j) {
        ask_seed(notes)?;
    }
    Ok(notes.streams.draw(j, run.seed))
}

// What is the seed? A stream asks at its first draw alone.
#[cold]
#[inline(never)]
fn ask_seed(notes: &mut Notes) -> Result<(), AllocError>
    ensures ok { OnOk result (Asks notes.old items.Seed notes.new) }
    ensures err { OnErr result (notes.new ≡ notes.old) }
{
    notes.note(&Item::Seed)
}

/// A number that was drawn, as a part of a million.
pub fn millionths(number: u32) -> u64
    ensures value { result ≡ millionths number }
    ensures bound { result < 2 ^ 32 }
{
    u64::from(number.saturating_sub(1)) * 1_000_000 / 2_147_483_646
}

/// The FUNCTION that stands in the place of a range, if one does: the mean is multiplied by it.
#[inline(always)]
pub fn modifier_of(range: Option<&Expr>) -> Option<&Subject>
    ensures { option_copied result ≡ modifier_of (option_copied range.entry) }
{
    match range? {
        Expr::Value(Atom::Attribute(class, of)) if is_of_function(*class) => Some(of),
        _ => None,
    }
}

/// A mean times a FUNCTION, or the stop X7 where that is no value.
pub fn multiplied(mean: Val, by: Millionths) -> Result<Val, Halt>
    ensures { Comes (in_range (times mean by)) result }
{
    match times(mean, by) {
        Some(time) => Ok(time),
        None => Err(Halt::stop(Stop::Range)),
    }
}

/// A time of mean plus or minus range, which is drawn from stream 1 where the range is above 0. A range below 0 counts
/// as a time below 0.
#[inline(always)]
pub fn sample(run: Run, notes: &mut Notes, mean: Val, range: Val) -> Result<Val, Halt>
    ensures { Decides run.entry.version.now run.entry.seed (sample mean range) result notes.old notes.new }
{
    if range.is_negative() {
        return Ok(range);
    }
    sample_within(run, notes, mean, range.magnitude())
}

#[inline(always)]
fn sample_within(run: Run, notes: &mut Notes, mean: Val, range: u64) -> Result<Val, Halt>
    requires { range ≤ 1000000000 }
    ensures { Decides run.entry.version.now run.entry.seed (sample_within mean range) result notes.old notes.new }
{
    if range == 0 {
        return Ok(mean);
    }
    let number = draw(run, notes, 1)?;
    match spread(mean, range, number) {
        Some(time) => Ok(time),
        None => Err(Halt::stop(Stop::Range)),
    }
}

// Where a number that was drawn falls between mean - range and mean + range, if that is a value.
#[inline(always)]
fn spread(mean: Val, range: u64, number: u32) -> Option<Val>
    requires { range ≤ 1000000000 }
    ensures { result ≡ (if is_value (spread mean range number) then Some (spread mean range number) else None) }
{
    let steps = number.saturating_sub(1) as u64 * (2 * range + 1) / 2_147_483_646;
    Val::new(mean.get() - range as i64 + steps as i64)
}
