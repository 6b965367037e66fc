ghost use Rattle.std.specs.Prelude.{◌≡◌, ◌∷◌, ◌++◌, IfOk, nat_lt, length, option_map};
ghost use Rattle.gw_lines.specs.Reading.{Gives};
ghost use Rattle.gw_lines.specs.Pairs.{wants_pairs, pair_of, is_above, last_of, may_follow, with_point, points_with, body_with, statement_with, kept_in, kept_of, further_of, open_line};

use crate::class::{Class, first_piece, piece};
use crate::fault::LineFault;
use crate::line::{LONGEST, code, is_remark};
use crate::number::coordinate;
use crate::operand::MOST_POINTS;
use crate::words::operands;
use gw_expr::{Point, Row};
use gw_meaning::{Body, Definition, Statement};
use gw_nums::Millionths;
use std::alloc::{AllocError, Global};
use std::mem;

/// Whether a statement wants pairs on further lines: it is a FUNCTION that misses points.
pub(crate) fn wants_pairs(statement: &Statement) -> bool
    ensures { result ≡ wants_pairs statement.now }
{
    match &statement.body {
        Body::Definition(Definition::Function(function)) => {
            has_room(function.count, function.points.as_slice())
        }
        _ => false,
    }
}

fn has_room(count: u32, points: &[Point]) -> bool
    ensures { result ≡ nat_lt (length points.now) count }
{
    (points.len() as u64) < u64::from(count)
}

/// Adds the pairs of a further line to a statement that wants some; a blank line or a comment has none. Each point
/// stands after those before it: an x that is not above the last one, one pair too many, or what is no pair is
/// `BadPairs`. After a fault the statement may lack what it had.
#[tactic(auto, unfolding(crate::specs::Pairs::further_of))]
pub(crate) fn read_further(
    alloc: Global,
    statement: &mut Statement,
    line: &[u8],
) -> Result<(), LineFault>
    ensures { Gives (λ u. statement.new) result (further_of statement.old line.now) }
{
    match read_kept(alloc, line)? {
        None => Ok(()),
        Some(text) => add_pairs(alloc, statement, &text),
    }
}

/// Points with those of a further line, where any count may be meant; the last line has pairs.
#[tactic(auto, unfolding(crate::specs::Pairs::open_line))]
pub(crate) fn read_open(
    alloc: Global,
    points: Vec<Point>,
    line: &[u8],
    is_last: bool,
) -> Result<Vec<Point>, LineFault>
    ensures { Gives (λ v. v.items) result (open_line is_last points.items line.now) }
{
    match read_kept(alloc, line)? {
        Some(text) => points_with(MOST_POINTS, points, &text),
        None if is_last => Err(LineFault::BadPairs),
        None => Ok(points),
    }
}

/// What is kept of a line of pairs, as of an operand list: nothing of a blank line or a comment.
#[tactic(auto, unfolding(crate::specs::Pairs::kept_of))]
pub(crate) fn read_kept(alloc: Global, line: &[u8]) -> Result<Option<Vec<u8>>, LineFault>
    ensures { Gives (λ o. option_map (λ v. v.items) o) result (kept_of line.now) }
{
    if line.len() > LONGEST {
        return Err(LineFault::TooLong);
    }
    kept_in(alloc, code(line))
}

#[tactic(auto, unfolding(crate::specs::Pairs::kept_in))]
fn kept_in(alloc: Global, code: &[u8]) -> Result<Option<Vec<u8>>, LineFault>
    ensures { Gives (λ o. option_map (λ v. v.items) o) result (kept_in code.now) }
{
    if is_remark(code) {
        return Ok(None);
    }
    Ok(Some(operands(alloc, code)?))
}

// Adds the pairs of a text to a statement; the text is listed after its operands.
#[tactic(auto, unfolding(crate::specs::Pairs::statement_with))]
fn add_pairs(alloc: Global, statement: &mut Statement, text: &[u8]) -> Result<(), LineFault>
    ensures { Gives (λ u. statement.new) result (statement_with statement.old text.now) }
{
    add_points(alloc, &mut statement.body, text)?;
    Ok(list_behind(alloc, &mut statement.operands, text)?)
}

// Adds the points of a text to a FUNCTION's.
fn add_points(alloc: Global, body: &mut Body, text: &[u8]) -> Result<(), LineFault>
    ensures { Gives (λ u. body.new) result (body_with body.old text.now) }
{
    match body {
        Body::Definition(Definition::Function(function)) => {
            let points = mem::replace(&mut function.points, Row::from_vec(Vec::new(alloc)));
            function.points = Row::from_vec(points_with(function.count, points.into_vec(), text)?);
            Ok(())
        }
        _ => Err(LineFault::BadPairs),
    }
}

// Lists a text after operands.
fn list_behind(alloc: Global, operands: &mut Row<u8>, text: &[u8]) -> Result<(), AllocError>
    ensures { IfOk result (λ u. operands.new ≡ operands.old ++ 124 ∷ text.now) }
{
    let mut listed = mem::replace(operands, Row::from_vec(Vec::new(alloc))).into_vec();
    listed.push(b'|')?;
    listed.extend_from_slice(text)?;
    *operands = Row::from_vec(listed);
    Ok(())
}

// Points with those that a text spells after them.
#[tactic(auto, unfolding(crate::specs::Pairs::points_with))]
fn points_with(count: u32, points: Vec<Point>, text: &[u8]) -> Result<Vec<Point>, LineFault>
    ensures { Gives (λ v. v.items) result (points_with count points.items text.now) }
{
    if text.is_empty() {
        return Err(LineFault::BadPairs);
    }
    let mut points = points;
    let mut rest = text;
    while !rest.is_empty() {
        let (pair, further) = first_piece(Class::Pair, rest);
        add_point(count, &mut points, pair_of(pair))?;
        rest = further;
    }
    Ok(points)
}

// Adds a point, where it may stand after the others.
fn add_point(count: u32, points: &mut Vec<Point>, point: Option<Point>) -> Result<(), LineFault>
    ensures { Gives (λ u. points.new.items) result (with_point count points.old.items point) }
{
    match point {
        Some(point) => {
            if may_follow(count, points, &point) {
                Ok(points.push(point)?)
            } else {
                Err(LineFault::BadPairs)
            }
        }
        None => Err(LineFault::BadPairs),
    }
}

// Whether a point may stand after others: there is room for it, and its x is above the last one's.
fn may_follow(count: u32, points: &[Point], point: &Point) -> bool
    ensures { result ≡ may_follow count points.now point.now }
{
    has_room(count, points) && is_above(points, point.x)
}

fn is_above(points: &[Point], x: Millionths) -> bool
    ensures { result ≡ is_above (last_of points.now) x }
{
    match points.last() {
        None => true,
        Some(last) => last.x.get() < x.get(),
    }
}

// The point that a pair is: two numbers with a comma between.
fn pair_of(text: &[u8]) -> Option<Point>
    ensures { result ≡ pair_of text.now }
{
    let (x, _, y) = piece(Class::Operand, text);
    let x = coordinate(x)?;
    let y = coordinate(y)?;
    Some(Point { x, y })
}
