// The lines of the classes of a table.
ghost use Rattle.std.specs.Prelude.{◌≡◌, ◌<◌, ◌≤◌, ◌^◌, ◌++◌, ◌∷◌, [], OnOk, IfOk, length, decimal};
ghost use Rattle.gw_lanes.specs.Counts.{lower, AreRising};
ghost use Rattle.gw_report.specs.Cells.{decimals};
ghost use Rattle.gw_report.specs.Layout.{row_of, rows_of};
ghost use Rattle.gw_report.specs.Tables.{table_columns, limits_of, limit_text, range_text, class_line, class_lines, scale_lines};

use crate::column::{Side, put_thousandths};
use crate::sheet::Sheet;
use gw_lanes::class_counts;
use gw_meaning::Classes;
use gw_nums::thousandths;
use itoa::Buffer;
use std::alloc::{AllocError, Global};

/// Appends the lines of the classes of these values, where there are classes.
pub(crate) fn put_classes(
    out: &mut Sheet,
    alloc: Global,
    classes: Option<Classes>,
    numbers: &[i32],
) -> Result<(), AllocError>
    requires { length numbers.now < 2 ^ 32 }
    ensures { OnOk result (out.new ≡ out.old ++ rows_of table_columns (scale_lines classes numbers.now)) }
{
    let Some(classes) = classes else {
        return Ok(());
    };
    let limits = limits_of(alloc, classes)?;
    let mut counts = Vec::new(alloc);
    counts.resize(limits.len() + 1, 0)?;
    class_counts(numbers, limits.as_slice(), counts.as_mut_slice());
    put_counts(
        out,
        alloc,
        limits.as_slice(),
        numbers.len() as u64,
        counts.as_slice(),
    )
}

// The limits of the classes. The last one has none.
fn limits_of(alloc: Global, classes: Classes) -> Result<Vec<i32>, AllocError>
    ensures limits { IfOk result (λ limits. limits.items ≡ limits_of classes) }
    ensures rising { IfOk result (λ limits. AreRising limits.items) }
    ensures few { IfOk result (λ limits. length limits.items < 1000) }
{
    let mut limits = Vec::new(alloc);
    for i in 0..classes.count() - 1 {
        limits.push(classes.limit(i))?;
    }
    Ok(limits)
}

// The lines of classes, by how many of all the values lie in each.
fn put_counts(
    out: &mut Sheet,
    alloc: Global,
    limits: &[i32],
    all: u64,
    counts: &[u32],
) -> Result<(), AllocError>
    requires { length counts.now ≤ 1000 }
    ensures { OnOk result (out.new ≡ out.old ++ rows_of table_columns (class_lines limits.now all 0 0 counts.now)) }
{
    let mut so_far = 0;
    for i in 0..counts.len() {
        so_far += u64::from(counts[i]);
        put_class(out, alloc, limits, all, i, counts[i], so_far)?;
    }
    Ok(())
}

// The line of a class.
#[tactic(auto, unfolding(crate::specs::Layout::row_of))]
fn put_class(
    out: &mut Sheet,
    alloc: Global,
    limits: &[i32],
    all: u64,
    i: usize,
    count: u32,
    so_far: u64,
) -> Result<(), AllocError>
    ensures { OnOk result (out.new ≡ out.old ++ row_of table_columns (class_line limits.now all i count so_far)) }
{
    let range = range_text(alloc, lower(limits, i), limits.get(i).copied())?;
    let part = thousandths(100 * u128::from(so_far), u128::from(all));
    put_class_row(out, range.as_slice(), u64::from(count), part)
}

// The cells of that line.
#[tactic(auto, unfolding(crate::specs::Layout::row_of))]
fn put_class_row(out: &mut Sheet, range: &[u8], count: u64, part: u128) -> Result<(), AllocError>
    ensures { OnOk result (out.new ≡ out.old ++ row_of table_columns
        ([] ∷ [] ∷ [] ∷ range.now ∷ [] ∷ decimal count ∷ decimals part ∷ [])) }
{
    out.make_room()?;
    out.put_text(0, 10, Side::Left, b"")?;
    out.put_text(1, 14, Side::Right, b"")?;
    out.put_text(1, 14, Side::Right, b"")?;
    out.put_text(1, 25, Side::Right, range)?;
    out.put_text(1, 5, Side::Right, b"")?;
    out.put_number(1, 9, count)?;
    put_thousandths(out, 1, 7, Side::Right, part)?;
    out.end_row()
}

// The limit of the class before one.
fn lower(limits: &[i32], i: usize) -> Option<i32>
    ensures { result ≡ lower limits.now i }
{
    if i == 0 {
        return None;
    }
    limits.get(i - 1).copied()
}

// The limits of a class, as they are written.
fn range_text(alloc: Global, low: Option<i32>, high: Option<i32>) -> Result<Vec<u8>, AllocError>
    ensures { IfOk result (λ text. text.items ≡ range_text low high) }
{
    let mut text = Vec::new(alloc);
    put_limit(&mut text, low)?;
    text.extend_from_slice(b" - ")?;
    put_limit(&mut text, high)?;
    Ok(text)
}

// A limit, or a line where there is none.
#[tactic(auto, using(crate::proofs::Rows::signed_is))]
fn put_limit(out: &mut Vec<u8>, limit: Option<i32>) -> Result<(), AllocError>
    ensures { OnOk result (out.new.items ≡ out.old.items ++ limit_text limit) }
{
    match limit {
        Some(limit) => {
            let mut digits = Buffer::new();
            out.extend_from_slice(digits.format(limit).as_bytes())
        }
        None => out.extend_from_slice(b"_"),
    }
}
