use crate::statement_id::StatementId;
use gw_expr::Stop;
use gw_names::Name;
use gw_nums::Time;

/// What a step may ask of a name.
#[derive(Clone, Copy, PartialEq, Eq, Hash)]
pub enum Asked {
    /// Which block has it as its label?
    Label,
    /// Which number does it stand for, if any?
    Number,
    /// Do so many units fit into the storage of this name?
    Fits(u64),
    /// How many units does the storage of this name have?
    Storage,
    /// What is the expression of the VARIABLE of this name, if there is one?
    Variable,
    /// What are the argument, the type and the points of the FUNCTION of this name, if there is one?
    Function,
    /// What is the argument of the TABLE of this name, if there is one?
    Table,
}

/// A question that a step may ask of the version and the seed. Blocks go by their statement ids.
#[derive(Clone, Drop, PartialEq, Eq, Hash)]
pub enum Item {
    /// Which block is this?
    Block(StatementId),
    /// Which block comes after this one?
    After(StatementId),
    /// What is asked of a name.
    Named(Asked, Name),
    /// Which blocks are GENERATEs?
    Generates,
    /// What is the i-th command, from 1?
    Cmd(u64),
    /// What is the seed?
    Seed,
    /// Does this time lie within the horizon?
    Within(Time),
}

/// How the run of a START stands at the point where its report is taken.
#[derive(Clone, Copy)]
pub enum Outcome {
    Complete,
    Horizon,
    Dry,
    Error(Stop),
}
