// TABULATE: a value comes to a table.
ghost use Rattle.std.specs.Prelude.{option_copied};
ghost use Rattle.gw_names.specs.declared.key.Key.TheVariants as keys;
ghost use Rattle.gw_meaning.specs.Step.{tabulate_prog, tabulate_with};
ghost use Rattle.gw_values.specs.Contexts.{DecidesIn};

use crate::entering::enter_doing;
use gw_asking::{Notes, ask_argument};
use gw_expr::{Expr, Halt, Stop};
use gw_meaning::{Move, StatementId, Update};
use gw_names::{Key, Name};
use gw_values::{Context, value_there};

/// TABULATE: the argument of a table is evaluated for the transaction, and its value comes to the table's others.
#[inline(always)]
pub fn decide_tabulate(
    context: Context,
    notes: &mut Notes,
    id: StatementId,
    table: Option<&Expr>,
) -> Result<Move, Halt>
    ensures { DecidesIn context.entry (λ s q. tabulate_prog s q id (option_copied table.entry))
        result notes.old notes.new }
{
    let Some(expr) = table else {
        return Err(Halt::stop(Stop::Range));
    };
    match expr {
        Expr::Table(name) => {
            let argument = ask_argument(context.run.version, notes, name)?;
            tabulate_with(context, notes, id, name, argument)
        }
        _ => Err(Halt::stop(Stop::Range)),
    }
}

#[inline(always)]
fn tabulate_with(
    context: Context,
    notes: &mut Notes,
    id: StatementId,
    name: &Name,
    argument: Option<&Expr>,
) -> Result<Move, Halt>
    ensures { DecidesIn context.entry (λ s q. tabulate_with s q id (keys.Defined name.now)
        (option_copied argument.entry)) result notes.old notes.new }
{
    let value = value_there(context, notes, argument)?;
    let key = Key::Defined(name.clone()?);
    Ok(enter_doing(id, key, Update::Table { value }))
}
