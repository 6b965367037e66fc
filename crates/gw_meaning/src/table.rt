ghost use Rattle.std.specs.Prelude.{◌≡◌, ◌≤◌, ◌+◌, IfOk};
ghost use Rattle.gw_meaning.specs.Classes.{scale_of, limit_of};

use gw_expr::Expr;
use gw_nums::Val;
use std::alloc::AllocError;
use std::marker::Model;

/// A TABLE: what its values are, and the classes in which a report counts them.
#[derive(Drop, PartialEq, Eq)]
pub struct Table {
    /// What is evaluated for each value.
    pub argument: Expr,
    pub classes: Classes,
}

/// The classes of a TABLE, 2 to 1,000. The first takes each value up to its limit, the last each value above the
/// others, and those between are equally wide. Each limit is a value.
#[derive(Clone, Copy, PartialEq, Eq)]
pub struct Classes {
    first: Val,
    width: u32,
    count: u32,
}

impl Model for Classes {
    ghost use Rattle.std.specs.Prelude.{IsTrue};
    ghost use Rattle.gw_meaning.specs.Classes.{Scale, is_scale};

    ghost Value = { Scale };

    ghost view = { λ c. record { first = c.first; width = c.width; count = c.count } };

    ghost invariant = { λ c. IsTrue (is_scale (record { first = c.first; width = c.width; count = c.count })) };

    ghost inverse = { λ s. record { first = s.first; width = s.width; count = s.count } };
}

impl Table {
    /// An equal TABLE.
    pub fn copy(&self) -> Result<Table, AllocError>
        ensures { IfOk result (λ t. t ≡ self.now) }
    {
        Ok(Table {
            argument: self.argument.copy()?,
            classes: self.classes,
        })
    }
}

impl Classes {
    /// The classes that these numbers make, if they make some.
    pub fn new(first: Val, width: u32, count: u32) -> Option<Classes>
        ensures { result ≡ scale_of first width count }
    {
        if width < 1 || count < 2 || count > 1_000 {
            return None;
        }
        let last = first.get() + i64::from(count - 2) * i64::from(width);
        Val::new(last)?;
        Some(Classes {
            first,
            width,
            count,
        })
    }

    /// The upper limit of the first class.
    pub fn first(self) -> Val
        ensures { result ≡ self.first }
    {
        self.first
    }

    /// How wide the classes between the first and the last are.
    pub fn width(self) -> u32
        ensures { result ≡ self.width }
    {
        self.width
    }

    /// How many classes there are.
    pub fn count(self) -> u32
        ensures value { result ≡ self.count }
        ensures least { 2 ≤ result }
        ensures most { result ≤ 1000 }
    {
        self.count
    }

    /// The upper limit of the class after so many others. The last class has none.
    pub fn limit(self, i: u32) -> i32
        requires { i + 2 ≤ self.count }
        ensures { result ≡ limit_of self i }
    {
        (self.first.get() + i64::from(i) * i64::from(self.width)) as i32
    }
}
