use gw_names::{Class, Name};

/// What a numerical attribute is of.
#[derive(Clone, Drop, PartialEq, Eq)]
pub enum Subject {
    /// The run, or the transaction that evaluates it.
    Own,
    /// What has this number, from 1: an entity, or a random stream.
    Number(u32),
    /// What has this name: an entity, a definition or a block.
    Name(Name),
}

/// A numerical attribute, as a world is asked for it. (Manual: System Numerical Attributes.)
#[derive(Clone, Copy)]
pub struct Sna<'a> {
    /// Its class.
    pub class: Class,
    /// What it is of.
    pub of: &'a Subject,
}
