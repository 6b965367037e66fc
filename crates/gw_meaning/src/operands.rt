//! Where the operands of a block stand.

/// The place of operand A.
pub const A: usize = 0;

/// The place of operand B.
pub const B: usize = 1;

/// The place of operand C.
pub const C: usize = 2;

/// The place of operand D.
pub const D: usize = 3;

/// The place of operand E.
pub const E: usize = 4;
