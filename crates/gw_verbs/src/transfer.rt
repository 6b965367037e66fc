// TRANSFER: a transaction goes to another block, or by chance to one of two.
ghost use Rattle.std.specs.Prelude.{◌≡◌, Some, if◌then◌else◌, nat_lt, option_copied};
ghost use Rattle.gw_meaning.specs.Evaluation.{millionths};
ghost use Rattle.gw_meaning.specs.Step.{by_fraction, lead_to, transfer_prog};
ghost use Rattle.gw_asking.specs.Deciding.{Decides};

use crate::leading::lead_to;
use gw_asking::{Notes, Run, draw, millionths};
use gw_expr::{Expr, Halt};
use gw_meaning::{Move, StatementId};

/// TRANSFER: the transaction goes to the block with a label, or on to the next one. A fraction draws from stream 1, and
/// the far label is taken where what is drawn lies below it.
#[inline(always)]
pub fn decide_transfer(
    run: Run,
    notes: &mut Notes,
    id: StatementId,
    fraction: Option<&Expr>,
    near: Option<&Expr>,
    far: Option<&Expr>,
) -> Result<Move, Halt>
    ensures { Decides run.entry.version.now run.entry.seed
        (transfer_prog id (option_copied fraction.entry) (option_copied near.entry) (option_copied far.entry))
        result notes.old notes.new }
{
    let Some(expr) = fraction else {
        return lead_to(run, notes, id, near);
    };
    match expr {
        Expr::Fraction(part) => by_fraction(run, notes, id, *part, near, far),
        _ => lead_to(run, notes, id, near),
    }
}

#[inline(always)]
fn by_fraction(
    run: Run,
    notes: &mut Notes,
    id: StatementId,
    part: u32,
    near: Option<&Expr>,
    far: Option<&Expr>,
) -> Result<Move, Halt>
    ensures { Decides run.entry.version.now run.entry.seed
        (by_fraction id part (option_copied near.entry) (option_copied far.entry)) result notes.old notes.new }
{
    let number = draw(run, notes, 1)?;
    lead_to(run, notes, id, chosen(number, part, near, far))
}

// The far operand where the number that was drawn is below the fraction, else the near one.
#[inline(always)]
fn chosen<'a>(
    number: u32,
    part: u32,
    near: Option<&'a Expr>,
    far: Option<&'a Expr>,
) -> Option<&'a Expr>
    ensures { option_copied result ≡
        (if nat_lt (millionths number) part then option_copied far.entry else option_copied near.entry) }
{
    if millionths(number) < u64::from(part) {
        far
    } else {
        near
    }
}
