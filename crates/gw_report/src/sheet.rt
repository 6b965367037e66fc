// Lines that are laid out in place.
ghost use Rattle.std.specs.Prelude.{◌≡◌, ◌≤◌, ◌++◌, ◌∷◌, [], decimal, OnOk};
ghost use Rattle.gw_report.specs.declared.column.Side.TheVariants.{Right};
ghost use Rattle.gw_report.specs.Layout.{blanks, fitted};
ghost use Rattle.gw_report.specs.Cells.{signed};

use crate::column::Side;
use crate::laid::{fits, lay_number, lay_text};
use gw_nums::Val;
use itoa::Buffer;
use std::alloc::{AllocError, Global};
use std::marker::Model;

// How many blanks are made at once.
const ROOM: usize = 1000;

// How many of them a row finds. The widest row of a report takes fewer.
const ROW: usize = 128;

/// The lines of a section. After them stand blanks, over which the next cells are written.
#[derive(Drop)]
pub struct Sheet {
    bytes: Vec<u8>,
    end: usize,
}

impl Model for Sheet {
    ghost use Rattle.std.specs.Prelude.{ℕ, ◌≤◌, List, length, take};
    ghost use Rattle.gw_report.specs.Laid.{IsBlankFrom};

    ghost Value = { List ℕ };

    ghost view = { λ s. take s.end s.bytes.items };

    ghost invariant = { λ s. (s.end ≤ length s.bytes.items) × IsBlankFrom s.end s.bytes.items };
}

impl Sheet {
    /// A sheet of no lines.
    pub fn new(alloc: Global) -> Sheet
        ensures { result ≡ [] }
    {
        Sheet {
            bytes: Vec::new(alloc),
            end: 0,
        }
    }

    /// Its bytes.
    pub fn as_slice(&self) -> &[u8]
        ensures { result.now ≡ self.now }
    {
        &self.bytes[..self.end]
    }

    /// Makes blanks for a row. One for which they do not suffice is written all the same.
    #[inline(always)]
    pub fn make_room(&mut self) -> Result<(), AllocError>
        ensures { self.new ≡ self.old }
    {
        if self.bytes.len() - self.end < ROW {
            return self.grow();
        }
        Ok(())
    }

    #[cold]
    #[inline(never)]
    fn grow(&mut self) -> Result<(), AllocError>
        ensures { self.new ≡ self.old }
    {
        self.bytes.resize(self.bytes.len() + ROOM, b' ')?;
        Ok(())
    }

    /// Appends a cell after a gap: a text on one side of a width.
    #[inline(always)]
    pub fn put_text(
        &mut self,
        gap: usize,
        width: usize,
        side: Side,
        text: &[u8],
    ) -> Result<(), AllocError>
        requires { gap ≤ 1 }
        ensures { OnOk result (self.new ≡ self.old ++ (blanks gap ++ fitted side width text.now)) }
    {
        if text.len() <= width && width < self.bytes.len() - self.end {
            let from = self.end + gap;
            lay_text(self.bytes.as_mut_slice(), from, from + width, side, text);
            self.end = from + width;
            return Ok(());
        }
        self.put_apart(gap, width, side, text, b"")
    }

    /// Appends a cell after a gap: a number on the right of a width.
    #[inline(always)]
    pub(crate) fn put_number(
        &mut self,
        gap: usize,
        width: usize,
        number: u64,
    ) -> Result<(), AllocError>
        requires { gap ≤ 1 }
        ensures { OnOk result (self.new ≡ self.old ++ (blanks gap ++ fitted Right width (decimal number))) }
    {
        if fits(number, width) && width < self.bytes.len() - self.end {
            let from = self.end + gap;
            lay_number(self.bytes.as_mut_slice(), from, from + width, number);
            self.end = from + width;
            return Ok(());
        }
        self.put_long(gap, width, number)
    }

    // Appends a number where it does not fit over the blanks.
    #[cold]
    #[inline(never)]
    fn put_long(&mut self, gap: usize, width: usize, number: u64) -> Result<(), AllocError>
        ensures { OnOk result (self.new ≡ self.old ++ (blanks gap ++ fitted Right width (decimal number))) }
    {
        let mut digits = Buffer::new();
        self.put_apart(
            gap,
            width,
            Side::Right,
            digits.format(number).as_bytes(),
            b"",
        )
    }

    /// Appends a cell after a gap: a number with its sign on the right of a width.
    #[inline(always)]
    pub(crate) fn put_signed(
        &mut self,
        gap: usize,
        width: usize,
        value: Val,
    ) -> Result<(), AllocError>
        requires { gap ≤ 1 }
        ensures { OnOk result (self.new ≡ self.old ++ (blanks gap ++ fitted Right width (signed value))) }
    {
        if value.is_negative() {
            return self.put_negative(gap, width, value);
        }
        self.put_number(gap, width, value.magnitude())
    }

    #[inline(never)]
    #[tactic(auto, using(crate::proofs::Rows::signed_is))]
    fn put_negative(&mut self, gap: usize, width: usize, value: Val) -> Result<(), AllocError>
        requires { gap ≤ 1 }
        ensures { OnOk result (self.new ≡ self.old ++ (blanks gap ++ fitted Right width (signed value))) }
    {
        let mut digits = Buffer::new();
        self.put_text(
            gap,
            width,
            Side::Right,
            digits.format(value.get()).as_bytes(),
        )
    }

    /// Ends the row.
    #[inline(always)]
    pub(crate) fn end_row(&mut self) -> Result<(), AllocError>
        ensures { OnOk result (self.new ≡ self.old ++ 10 ∷ []) }
    {
        self.put_text(0, 1, Side::Left, b"\n")
    }

    /// Appends a cell after a gap, a text of two parts, without writing it over the blanks, which are cut off.
    #[cold]
    #[inline(never)]
    pub(crate) fn put_apart(
        &mut self,
        gap: usize,
        width: usize,
        side: Side,
        front: &[u8],
        back: &[u8],
    ) -> Result<(), AllocError>
        ensures { OnOk result (self.new ≡ self.old ++ (blanks gap ++ fitted side width (front.now ++ back.now))) }
    {
        self.bytes.truncate(self.end);
        let put = put_parts(&mut self.bytes, gap, width, side, front, back);
        self.end = self.bytes.len();
        put
    }
}

// Appends a text of two parts after a gap, on one side of a width.
fn put_parts(
    out: &mut Vec<u8>,
    gap: usize,
    width: usize,
    side: Side,
    front: &[u8],
    back: &[u8],
) -> Result<(), AllocError>
    ensures { OnOk result (out.new.items ≡ out.old.items ++ (blanks gap ++ fitted side width (front.now ++ back.now))) }
{
    let spare = width.saturating_sub(front.len() + back.len());
    let (before, behind) = match side {
        Side::Left => (0, spare),
        Side::Right => (spare, 0),
    };
    put_blanks(out, gap)?;
    put_blanks(out, before)?;
    out.extend_from_slice(front)?;
    out.extend_from_slice(back)?;
    put_blanks(out, behind)
}

fn put_blanks(out: &mut Vec<u8>, count: usize) -> Result<(), AllocError>
    ensures { OnOk result (out.new.items ≡ out.old.items ++ blanks count) }
{
    for _ in 0..count {
        out.push(b' ')?;
    }
    Ok(())
}
