// The times of GENERATE and ADVANCE: a mean, and what stands beside it.
ghost use Rattle.std.specs.Prelude.{Some, None, option_copied};
ghost use Rattle.gw_meaning.specs.Evaluation.{time_by, time_prog};
ghost use Rattle.gw_values.specs.Contexts.{DecidesIn};

use crate::context::Context;
use crate::operand::value_or_zero;
use crate::seen::Seen;
use gw_asking::{Notes, modifier_of, multiplied, sample};
use gw_expr::{Expr, Halt, Subject, eval_function};
use gw_nums::Val;

/// A time in ticks: mean plus or minus range, drawn from stream 1 where the range is above 0, or mean times the
/// FUNCTION that stands in the place of a range. It may be below 0, as where the range is; X7 where it is no value.
#[inline(always)]
pub fn time(
    context: Context,
    notes: &mut Notes,
    mean: Option<&Expr>,
    range: Option<&Expr>,
) -> Result<Val, Halt>
    ensures { DecidesIn context.entry (λ s q. time_prog s q (option_copied mean.entry) (option_copied range.entry))
        result notes.old notes.new }
{
    match modifier_of(range) {
        Some(of) => time_by_function(context, notes, mean, range, of),
        None => time_within(context, notes, mean, range),
    }
}

// A time of mean times a FUNCTION: nothing is drawn for a range.
#[inline(never)]
fn time_by_function(
    context: Context,
    notes: &mut Notes,
    mean: Option<&Expr>,
    range: Option<&Expr>,
    of: &Subject,
) -> Result<Val, Halt>
    ensures { DecidesIn context.entry (λ s q. time_by s q (option_copied mean.entry) (option_copied range.entry)
        (Some of.now)) result notes.old notes.new }
{
    let mean = value_or_zero(context, notes, mean)?;
    let mut seen = Seen { context, notes };
    let by = eval_function(of, context.run.version, &mut seen)?;
    multiplied(mean, by)
}

// A time of mean plus or minus range.
#[inline(always)]
fn time_within(
    context: Context,
    notes: &mut Notes,
    mean: Option<&Expr>,
    range: Option<&Expr>,
) -> Result<Val, Halt>
    ensures { DecidesIn context.entry (λ s q. time_by s q (option_copied mean.entry) (option_copied range.entry) None)
        result notes.old notes.new }
{
    let mean = value_or_zero(context, notes, mean)?;
    let range = value_or_zero(context, notes, range)?;
    sample(context.run, notes, mean, range)
}
