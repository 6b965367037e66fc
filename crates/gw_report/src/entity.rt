ghost use Rattle.std.specs.Prelude.{◌≡◌, ◌≤◌, ◌^◌};
ghost use Rattle.gw_report.specs.Cells.{text_of_cell};
ghost use Rattle.gw_report.specs.Entities.{key_text, average};

use crate::column::Cell;
use gw_names::Key;
use gw_nums::thousandths;

/// What an entity is called.
pub(crate) fn key_cell(key: &Key) -> Cell<'_>
    ensures { text_of_cell result ≡ key_text key.now }
{
    match key {
        Key::Num(number) => Cell::Number(u64::from(*number)),
        Key::Named(name) | Key::Defined(name) => Cell::Text(name.as_bytes()),
    }
}

/// A sum divided by what it goes over.
pub(crate) fn average_cell(sum: u128, over: u128) -> Cell<'static>
    requires { sum ≤ 10 ^ 35 }
    ensures { text_of_cell result ≡ average sum over }
{
    Cell::Thousandths(thousandths(sum, over))
}
