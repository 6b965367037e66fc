// A transaction goes to the block of a label.
ghost use Rattle.std.specs.Prelude.{Some, None, Ok, option_copied};
ghost use Rattle.gw_meaning.specs.Step.{go_to, lead_to};
ghost use Rattle.gw_asking.specs.Deciding.{Decides, Comes};

use crate::entering::{enter_with, pass};
use gw_asking::{Notes, Run, ask_label};
use gw_expr::{Expr, Halt, Stop};
use gw_meaning::{Move, StatementId, TransactionChange};

// To the block with a label, or to the next block where there is none.
#[inline(always)]
pub(crate) fn lead_to(
    run: Run,
    notes: &mut Notes,
    id: StatementId,
    label: Option<&Expr>,
) -> Result<Move, Halt>
    ensures { Decides run.entry.version.now run.entry.seed (lead_to id (option_copied label.entry))
        result notes.old notes.new }
{
    let Some(expr) = label else {
        return Ok(pass(id));
    };
    match expr {
        Expr::Label(name) => {
            let to = ask_label(run.version, notes, name)?;
            go_to(id, to)
        }
        _ => Ok(pass(id)),
    }
}

#[inline(always)]
fn go_to(id: StatementId, to: Option<StatementId>) -> Result<Move, Halt>
    ensures { Comes (go_to id to) result }
{
    match to {
        Some(to) => Ok(enter_with(id, TransactionChange::Transfer { to })),
        None => Err(Halt::stop(Stop::NoNextBlock)),
    }
}
