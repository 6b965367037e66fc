ghost use Rattle.std.specs.Prelude.{◌≡◌, IfOk, IfSome, true, false, None};
ghost use Rattle.gw_nums.specs.Range.{is_below};
ghost use Rattle.gw_expr.specs.Functions.{sides, between, line_at, step_at, curve};

use crate::expr::Expr;
use crate::row::Row;
use gw_nums::Millionths;
use std::alloc::{AllocError, Global};

/// How a FUNCTION goes between its points.
#[derive(Clone, Copy, PartialEq, Eq)]
pub enum FunctionType {
    /// Type C: along the straight lines between them.
    Continuous,
    /// Type D: in steps, with the value of the first point that is not below the argument.
    Discrete,
}

/// A point of a FUNCTION: the argument, and what the FUNCTION comes to there.
#[derive(Clone, Copy, PartialEq, Eq)]
pub struct Point {
    pub x: Millionths,
    pub y: Millionths,
}

// The points on the two sides of an argument: the first one that is not below it, and the one before that.
#[derive(Clone, Copy)]
struct Neighbours {
    before: Option<Point>,
    next: Option<Point>,
}

/// A FUNCTION of one argument, by points. (Manual: types C and D.)
#[derive(Drop, PartialEq, Eq)]
pub struct Function {
    /// What is evaluated to find the argument. A random number that stands there as written is one in millionths.
    pub argument: Expr,
    pub kind: FunctionType,
    /// How many points it is to have, 1 to 1,000.
    pub count: u32,
    /// Those that were read, in the order of their arguments. One that a model has is not missing any.
    pub points: Row<Point>,
}

impl Function {
    /// An equal FUNCTION.
    pub fn copy(&self, alloc: Global) -> Result<Function, AllocError>
        ensures { IfOk result (λ f. f ≡ self.now) }
    {
        Ok(Function {
            argument: self.argument.copy()?,
            kind: self.kind,
            count: self.count,
            points: Row::from_vec(Vec::from_slice(alloc, self.points.as_slice())?),
        })
    }

    /// What it comes to at an argument, if it has a point: both in millionths.
    pub fn at(&self, x: Millionths) -> Option<Millionths>
        ensures { result ≡ curve self.now x }
    {
        let at = sides(self.points.as_slice(), x);
        match self.kind {
            FunctionType::Continuous => line_at(at, x),
            FunctionType::Discrete => step_at(at),
        }
    }
}

// The points on the two sides of an argument. They are looked at one by one.
fn sides(points: &[Point], x: Millionths) -> Neighbours
    ensures points { result ≡ sides None points.now x }
    ensures before { IfSome result.before (λ p. is_below p.x x ≡ true) }
    ensures next { IfSome result.next (λ p. is_below p.x x ≡ false) }
{
    let mut before = None;
    for point in points {
        if !point.x.is_below(x) {
            return Neighbours {
                before,
                next: Some(*point),
            };
        }
        before = Some(*point);
    }
    Neighbours { before, next: None }
}

// On the line between the two points, and beyond all points at the outermost one.
fn line_at(at: Neighbours, x: Millionths) -> Option<Millionths>
    requires before { IfSome at.before (λ p. is_below p.x x ≡ true) }
    requires next { IfSome at.next (λ p. is_below p.x x ≡ false) }
    ensures { result ≡ line_at at.before at.next x }
{
    match (at.before, at.next) {
        (Some(p), Some(q)) => Some(between(p, q, x)),
        (None, Some(q)) => Some(q.y),
        (Some(p), None) => Some(p.y),
        (None, None) => None,
    }
}

// On the line from one point to another.
#[tactic(auto, using(crate::proofs::Distances::distance_within, crate::proofs::Distances::distance_some))]
fn between(p: Point, q: Point, x: Millionths) -> Millionths
    requires before { is_below p.x x ≡ true }
    requires next { is_below q.x x ≡ false }
    ensures { result ≡ between p q x }
{
    p.y.toward(q.y, x.distance(p.x), q.x.distance(p.x))
}

// At the first point that is not below the argument, and beyond all points at the last one.
fn step_at(at: Neighbours) -> Option<Millionths>
    ensures { result ≡ step_at at.before at.next }
{
    match (at.next, at.before) {
        (Some(q), _) => Some(q.y),
        (None, Some(p)) => Some(p.y),
        (None, None) => None,
    }
}
