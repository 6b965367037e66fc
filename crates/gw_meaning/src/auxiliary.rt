/// What stands beside the operands of a block: a sign after operand A, as of an ASSIGN, or the operator in front of
/// them, as of a TEST. No verb takes both.
#[derive(Clone, Copy, PartialEq, Eq)]
pub enum Auxiliary {
    Absent,
    /// `+`: the value is added.
    Plus,
    /// `-`: the value is taken away.
    Minus,
    /// `E`: A is equal to B.
    Equal,
    /// `NE`: A is not equal to B.
    NotEqual,
    /// `G`: A is greater than B.
    Greater,
    /// `GE`: A is greater than B, or equal to it.
    GreaterOrEqual,
    /// `L`: A is less than B.
    Less,
    /// `LE`: A is less than B, or equal to it.
    LessOrEqual,
    /// The condition of a GATE.
    Gate(Condition),
    /// What a LOGIC makes of its switch.
    Logic(Switching),
}

/// The condition at which a GATE lets its transaction pass.
#[derive(Clone, Copy, PartialEq, Eq)]
pub enum Condition {
    /// `U`: the facility is owned.
    InUse,
    /// `NU`: the facility is not owned.
    NotInUse,
    /// `LS`: the switch is set.
    IsSet,
    /// `LR`: the switch is reset.
    IsReset,
    /// `SE`: no unit of the storage is in use.
    Empty,
    /// `SNE`: some unit of the storage is in use.
    NotEmpty,
    /// `SF`: no unit of the storage is left.
    Full,
    /// `SNF`: some unit of the storage is left.
    NotFull,
}

/// What a LOGIC makes of its switch.
#[derive(Clone, Copy, PartialEq, Eq)]
pub enum Switching {
    /// `S`: it is set.
    Set,
    /// `R`: it is reset.
    Reset,
    /// `I`: it is set where it was reset, and reset where it was set.
    Invert,
}
