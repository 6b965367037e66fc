ghost use Rattle.std.specs.Prelude.{◌≡◌, ◌≤◌, ◌++◌, OnOk, map, decimal};
ghost use Rattle.gw_report.specs.Layout.{blanks, fitted, cell_of, row_of};
ghost use Rattle.gw_report.specs.Cells.{column_of, text_of_cell, signed, decimals, fraction_of, digit_of};

use crate::sheet::Sheet;
use gw_nums::Val;
use itoa::Buffer;
use std::alloc::AllocError;

/// The side of its column on which a text stands.
#[derive(Clone, Copy)]
pub enum Side {
    Left,
    Right,
}

/// A column of a section: its width, and the side on which its texts stand. Its title stands in the section's heading.
#[derive(Clone, Copy)]
pub struct Column(pub usize, pub Side);

/// What a row says in a column.
#[derive(Clone, Copy)]
pub enum Cell<'a> {
    Text(&'a [u8]),
    Number(u64),
    Signed(Val),
    /// A number of thousandths, in three decimals.
    Thousandths(u128),
}

/// Appends a row: its cells in their columns.
pub(crate) fn put_row(
    sheet: &mut Sheet,
    columns: &[Column],
    cells: &[Cell],
) -> Result<(), AllocError>
    ensures { OnOk result (sheet.new ≡ sheet.old ++ row_of (map column_of columns.now) (map text_of_cell cells.now)) }
{
    sheet.make_room()?;
    let mut gap = 0;
    for (column, cell) in columns.iter().zip(cells) {
        put_cell(sheet, gap, column, cell)?;
        gap = 1;
    }
    sheet.end_row()
}

// Appends a cell after a gap.
fn put_cell(sheet: &mut Sheet, gap: usize, column: &Column, cell: &Cell) -> Result<(), AllocError>
    requires { gap ≤ 1 }
    ensures { OnOk result (sheet.new ≡ sheet.old ++
        (blanks gap ++ cell_of (column_of column.now) (text_of_cell cell.now))) }
{
    let Column(width, side) = *column;
    match *cell {
        Cell::Text(text) => sheet.put_text(gap, width, side, text),
        Cell::Number(number) => put_number(sheet, gap, width, side, number),
        Cell::Signed(value) => put_signed(sheet, gap, width, side, value),
        Cell::Thousandths(number) => put_thousandths(sheet, gap, width, side, number),
    }
}

/// Appends a cell after a gap: a number.
pub(crate) fn put_number(
    sheet: &mut Sheet,
    gap: usize,
    width: usize,
    side: Side,
    number: u64,
) -> Result<(), AllocError>
    requires { gap ≤ 1 }
    ensures { OnOk result (sheet.new ≡ sheet.old ++ (blanks gap ++ fitted side width (decimal number))) }
{
    match side {
        Side::Left => {
            let mut digits = Buffer::new();
            sheet.put_text(gap, width, side, digits.format(number).as_bytes())
        }
        Side::Right => sheet.put_number(gap, width, number),
    }
}

#[tactic(auto, using(crate::proofs::Rows::signed_is))]
fn put_signed(
    sheet: &mut Sheet,
    gap: usize,
    width: usize,
    side: Side,
    value: Val,
) -> Result<(), AllocError>
    requires { gap ≤ 1 }
    ensures { OnOk result (sheet.new ≡ sheet.old ++ (blanks gap ++ fitted side width (signed value))) }
{
    let mut digits = Buffer::new();
    sheet.put_text(gap, width, side, digits.format(value.get()).as_bytes())
}

/// Appends a cell after a gap: a number of thousandths, in three decimals.
pub(crate) fn put_thousandths(
    sheet: &mut Sheet,
    gap: usize,
    width: usize,
    side: Side,
    number: u128,
) -> Result<(), AllocError>
    requires { gap ≤ 1 }
    ensures { OnOk result (sheet.new ≡ sheet.old ++ (blanks gap ++ fitted side width (decimals number))) }
{
    let mut digits = Buffer::new();
    let fraction = fraction_of(number);
    let whole = digits.format(number / 1000).as_bytes();
    match side {
        Side::Left => sheet.put_apart(gap, width, side, whole, &fraction),
        Side::Right => {
            sheet.put_text(gap, width.saturating_sub(4), side, whole)?;
            sheet.put_text(0, 4, Side::Left, &fraction)
        }
    }
}

/// The three decimals of a number of thousandths, after a point.
pub fn fraction_of(number: u128) -> [u8; 4]
    ensures { result ≡ fraction_of number }
{
    [
        b'.',
        digit_of(number / 100),
        digit_of(number / 10),
        digit_of(number),
    ]
}

// The last digit of a number.
fn digit_of(number: u128) -> u8
    ensures { result ≡ digit_of number }
{
    b'0' + (number % 10) as u8
}
