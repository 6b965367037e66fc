ghost use Rattle.std.specs.Prelude.{◌≡◌, ◌<◌, ◌^◌, ◌++◌, ◌∷◌, [], OnOk, IfOk, length, decimal};
ghost use Rattle.std.specs.List.{flat_map};
ghost use Rattle.gw_report.specs.Layout.{fitted, row_of, rows_of, heading_of};
ghost use Rattle.gw_report.specs.declared.column.Side.TheVariants.{Left};
ghost use Rattle.gw_report.specs.Cells.{decimals};
ghost use Rattle.gw_report.specs.Entities.{key_text};
ghost use Rattle.gw_report.specs.Moments.{AreValues};
ghost use Rattle.gw_report.specs.Tables.{scale_at, table_columns, table_row, table_lines, tables_text};

use crate::classes::put_classes;
use crate::column::{Side, put_number, put_thousandths};
use crate::moments::{deviation, mean_text, squares_of, sum_of};
use crate::section::put_section;
use crate::sheet::Sheet;
use gw_entities::Values;
use gw_meaning::{Classes, Definition, EntityKind, Watched};
use gw_model::Version;
use gw_names::Key;
use gw_nums::Val;
use gw_state::State;
use std::alloc::{AllocError, Global};

/// Appends the tables, in order of first touch, with the classes that the version gives them.
pub(crate) fn put_tables(
    out: &mut Vec<u8>,
    version: &Version,
    state: &State,
) -> Result<(), AllocError>
    ensures { OnOk result (out.new.items ≡ out.old.items ++ tables_text version.now state.now) }
{
    let lines = table_lines(*out.allocator(), version, state)?;
    put_section(out, table_heading(), lines.as_slice())
}

// The heading of the section.
#[tactic(auto, unfolding(crate::specs::Layout::heading_of, crate::specs::Layout::row_of))]
fn table_heading() -> &'static [u8]
    ensures { result.now ≡ heading_of table_columns }
{
    b"TABLE                MEAN       STD.DEV.                     RANGE RETRY FREQUENCY   CUM.%\n"
}

// The lines of the tables.
fn table_lines(alloc: Global, version: &Version, state: &State) -> Result<Sheet, AllocError>
    ensures { IfOk result (λ lines. lines ≡
        rows_of table_columns (flat_map (table_lines version.now state.now) state.now.entities.tables)) }
{
    let tables = state.entities().tables();
    let mut lines = Sheet::new(alloc);
    for index in 0..tables.len() {
        if let Some((key, values)) = tables.at(index) {
            put_table(&mut lines, alloc, version, state, key, values)?;
        }
    }
    Ok(lines)
}

// The lines of a table.
fn put_table(
    out: &mut Sheet,
    alloc: Global,
    version: &Version,
    state: &State,
    key: &Key,
    values: &Values,
) -> Result<(), AllocError>
    ensures { OnOk result (out.new ≡ out.old ++
        rows_of table_columns (table_lines version.now state.now (key.now, values.now))) }
{
    let watched = Watched::Entity(EntityKind::Table, key.clone()?);
    let retry = state.retry().count(&watched) as u64;
    let numbers = numbers_of(alloc, values)?;
    put_first(out, alloc, retry, key, numbers.as_slice())?;
    put_classes(out, alloc, classes_of(version, key), numbers.as_slice())
}

// The classes that a version gives a table.
fn classes_of(version: &Version, key: &Key) -> Option<Classes>
    ensures { result ≡ scale_at version.now key.now }
{
    let Key::Defined(name) = key else {
        return None;
    };
    match version.definition(name) {
        Some(Definition::Table(table)) => Some(table.classes),
        _ => None,
    }
}

// The values of a table in one piece. Where there are 2 ^ 32 or more, there is no memory for that.
fn numbers_of(alloc: Global, values: &Values) -> Result<Vec<i32>, AllocError>
    ensures numbers { IfOk result (λ numbers. numbers.items ≡ values.now) }
    ensures values { IfOk result (λ numbers. AreValues numbers.items) }
    ensures few { IfOk result (λ numbers. length numbers.items < 2 ^ 32) }
{
    let count = values.len();
    if count > u32::MAX as usize {
        return Err(AllocError);
    }
    let mut numbers = Vec::with_capacity(alloc, count)?;
    while numbers.len() < count {
        let run = values.run(numbers.len());
        put_run(&mut numbers, run)?;
    }
    Ok(numbers)
}

// Appends values that lie together.
fn put_run(numbers: &mut Vec<i32>, run: &[Val]) -> Result<(), AllocError>
    ensures items { OnOk result (numbers.new.items ≡ numbers.old.items ++ run.now) }
    ensures values { OnOk result (AreValues run.now) }
{
    for value in run {
        numbers.push(value.get() as i32)?;
    }
    Ok(())
}

// The first line of a table.
fn put_first(
    out: &mut Sheet,
    alloc: Global,
    retry: u64,
    key: &Key,
    numbers: &[i32],
) -> Result<(), AllocError>
    requires values { AreValues numbers.now }
    requires few { length numbers.now < 2 ^ 32 }
    ensures { OnOk result (out.new ≡ out.old ++ row_of table_columns (table_row retry key.now numbers.now)) }
{
    let count = numbers.len() as u64;
    let sum = sum_of(numbers);
    let mean = mean_text(alloc, sum, count)?;
    let deviation = deviation(count, sum, squares_of(numbers));
    put_head_row(out, key, mean.as_slice(), deviation, retry)
}

// The cells of that line.
#[tactic(auto, unfolding(crate::specs::Layout::row_of))]
fn put_head_row(
    out: &mut Sheet,
    key: &Key,
    mean: &[u8],
    deviation: u128,
    retry: u64,
) -> Result<(), AllocError>
    ensures { OnOk result (out.new ≡ out.old ++ row_of table_columns
        (key_text key.now ∷ mean.now ∷ decimals deviation ∷ [] ∷ decimal retry ∷ [])) }
{
    out.make_room()?;
    put_key(out, key)?;
    out.put_text(1, 14, Side::Right, mean)?;
    put_thousandths(out, 1, 14, Side::Right, deviation)?;
    out.put_text(1, 25, Side::Right, b"")?;
    out.put_number(1, 5, retry)?;
    out.end_row()
}

// What a table is called, in its column.
fn put_key(out: &mut Sheet, key: &Key) -> Result<(), AllocError>
    ensures { OnOk result (out.new ≡ out.old ++ fitted Left 10 (key_text key.now)) }
{
    match key {
        Key::Num(number) => put_number(out, 0, 10, Side::Left, u64::from(*number)),
        Key::Named(name) | Key::Defined(name) => out.put_text(0, 10, Side::Left, name.as_bytes()),
    }
}
