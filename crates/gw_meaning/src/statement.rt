ghost use Rattle.std.specs.Prelude.{◌≡◌, IfOk, option_copied};
ghost use Rattle.gw_meaning.specs.Statements.{operand, is_generate_verb, verb_of_definition, verb_of_command, verb_of_body};
ghost use Rattle.gw_meaning.specs.Listing.{block_of, definition_of, command_of, is_block, is_command, is_generate, operand_of_definition};

use crate::auxiliary::Auxiliary;
use crate::statement_id::StatementId;
use crate::table::Table;
use gw_expr::{Expr, Function, Row};
use gw_names::{BlockVerb, CommandVerb, DefinitionVerb, Name, Verb};
use gw_nums::Val;
use std::alloc::{AllocError, Global};

/// A statement of a model.
#[derive(Drop, PartialEq, Eq)]
pub struct Statement {
    pub label: Option<Name>,
    pub body: Body,
    /// The operands as `list` prints them: as written, in upper case and without skipped blanks, and after the
    /// operator and one blank where the verb has an operator.
    pub operands: Row<u8>,
}

/// What a statement is: a block, a definition or a command.
#[derive(Drop, PartialEq, Eq)]
pub enum Body {
    Block(Block),
    Definition(Definition),
    Command(Command),
}

/// A block: its verb, and its operands from A on, as many as its verb may have. An absent operand is `None`.
#[derive(Drop, PartialEq, Eq)]
pub struct Block {
    pub verb: BlockVerb,
    pub auxiliary: Auxiliary,
    pub operands: Row<Option<Expr>>,
}

/// A definition of its statement's label.
#[derive(Drop, PartialEq, Eq)]
pub enum Definition {
    /// A storage of so many units, 1 to 1,000,000,000.
    Storage { capacity: u64 },
    /// The number that the name stands for.
    Equ { value: Val },
    /// The expression that is evaluated wherever the name stands after `V$`.
    Variable { expression: Expr },
    /// What an argument comes to, wherever the name stands after `FN$`.
    Function(Function),
    /// What a TABULATE of the name evaluates, and the classes in which a report counts the values.
    Table(Table),
}

/// A command.
#[derive(Drop, PartialEq, Eq)]
pub enum Command {
    /// Runs until `count` (1 to 1,000,000,000) is taken away by TERMINATEs.
    Start { count: u64 },
    /// Sets streams 1 to 7, each to its value (1 to 2,147,483,646) where one is given.
    Rmult { values: Row<Option<u32>> },
    /// Counts anew: what is there stays.
    Reset,
    /// Begins anew: nothing stays but the streams.
    Clear,
}

/// A statement of a version with its id, which edits leave alone.
#[derive(Drop, PartialEq, Eq)]
pub struct Numbered {
    pub number: StatementId,
    pub statement: Statement,
}

/// A replication of a version: its number, 1 to 1,000,000,000, and its seed, 1 to 2,147,483,646.
#[derive(Clone, Copy, PartialEq, Eq)]
pub struct Replication {
    pub number: u64,
    pub seed: u64,
}

impl Block {
    /// The operand at a place, from 0: A to E are places of [`crate::operands`].
    pub fn operand(&self, place: usize) -> Option<&Expr>
        ensures { option_copied result ≡ operand self.now place }
    {
        match self.operands.as_slice().get(place) {
            Some(operand) => operand.as_ref(),
            None => None,
        }
    }

    /// Whether it makes transactions.
    pub fn is_generate(&self) -> bool
        ensures { result ≡ is_generate_verb self.now.verb }
    {
        match self.verb {
            BlockVerb::Generate => true,
            _ => false,
        }
    }

    /// An equal block.
    pub fn copy(&self, alloc: Global) -> Result<Block, AllocError>
        ensures { IfOk result (λ b. b ≡ self.now) }
    {
        let mut operands = Vec::new(alloc);
        for operand in self.operands.as_slice() {
            operands.push(copy_operand(operand)?)?;
        }
        Ok(Block {
            verb: self.verb,
            auxiliary: self.auxiliary,
            operands: Row::from_vec(operands),
        })
    }
}

impl Definition {
    /// The definition's verb.
    pub fn verb(&self) -> Verb
        ensures { result ≡ verb_of_definition self.now }
    {
        match self {
            Definition::Storage { .. } => Verb::Definition(DefinitionVerb::Storage),
            Definition::Equ { .. } => Verb::Definition(DefinitionVerb::Equ),
            Definition::Variable { .. } => Verb::Definition(DefinitionVerb::Variable),
            Definition::Function(_) => Verb::Definition(DefinitionVerb::Function),
            Definition::Table(_) => Verb::Definition(DefinitionVerb::Table),
        }
    }

    /// What the definition evaluates: the expression of a VARIABLE, or the argument of a FUNCTION or of a TABLE.
    pub fn operand(&self) -> Option<&Expr>
        ensures { option_copied result ≡ operand_of_definition self.now }
    {
        match self {
            Definition::Variable { expression } => Some(expression),
            Definition::Function(function) => Some(&function.argument),
            Definition::Table(table) => Some(&table.argument),
            Definition::Storage { .. } | Definition::Equ { .. } => None,
        }
    }

    /// An equal definition.
    pub fn copy(&self, alloc: Global) -> Result<Definition, AllocError>
        ensures { IfOk result (λ d. d ≡ self.now) }
    {
        match self {
            Definition::Storage { capacity } => Ok(Definition::Storage {
                capacity: *capacity,
            }),
            Definition::Equ { value } => Ok(Definition::Equ { value: *value }),
            Definition::Variable { expression } => Ok(Definition::Variable {
                expression: expression.copy()?,
            }),
            Definition::Function(function) => Ok(Definition::Function(function.copy(alloc)?)),
            Definition::Table(table) => Ok(Definition::Table(table.copy()?)),
        }
    }
}

impl Command {
    /// The command's verb.
    pub fn verb(&self) -> Verb
        ensures { result ≡ verb_of_command self.now }
    {
        match self {
            Command::Start { .. } => Verb::Command(CommandVerb::Start),
            Command::Rmult { .. } => Verb::Command(CommandVerb::Rmult),
            Command::Reset => Verb::Command(CommandVerb::Reset),
            Command::Clear => Verb::Command(CommandVerb::Clear),
        }
    }

    /// An equal command.
    pub fn copy(&self, alloc: Global) -> Result<Command, AllocError>
        ensures { IfOk result (λ c. c ≡ self.now) }
    {
        match self {
            Command::Start { count } => Ok(Command::Start { count: *count }),
            Command::Rmult { values } => Ok(Command::Rmult {
                values: Row::from_vec(Vec::from_slice(alloc, values.as_slice())?),
            }),
            Command::Reset => Ok(Command::Reset),
            Command::Clear => Ok(Command::Clear),
        }
    }
}

impl Body {
    /// The statement's verb.
    pub fn verb(&self) -> Verb
        ensures { result ≡ verb_of_body self.now }
    {
        match self {
            Body::Block(block) => Verb::Block(block.verb),
            Body::Definition(definition) => definition.verb(),
            Body::Command(command) => command.verb(),
        }
    }

    /// An equal body.
    pub fn copy(&self, alloc: Global) -> Result<Body, AllocError>
        ensures { IfOk result (λ b. b ≡ self.now) }
    {
        match self {
            Body::Block(block) => Ok(Body::Block(block.copy(alloc)?)),
            Body::Definition(definition) => Ok(Body::Definition(definition.copy(alloc)?)),
            Body::Command(command) => Ok(Body::Command(command.copy(alloc)?)),
        }
    }
}

impl Statement {
    /// An equal statement.
    pub fn copy(&self, alloc: Global) -> Result<Statement, AllocError>
        ensures { IfOk result (λ s. s ≡ self.now) }
    {
        let label = match &self.label {
            Some(name) => Some(name.clone()?),
            None => None,
        };
        let body = self.body.copy(alloc)?;
        let operands = Vec::from_slice(alloc, self.operands.as_slice())?;
        Ok(Statement {
            label,
            body,
            operands: Row::from_vec(operands),
        })
    }
}

impl Numbered {
    /// The block that the statement is, if it is one.
    pub fn block(&self) -> Option<&Block>
        ensures { option_copied result ≡ block_of self.now }
    {
        match &self.statement.body {
            Body::Block(block) => Some(block),
            Body::Definition(_) | Body::Command(_) => None,
        }
    }

    /// The definition that the statement is, if it is one.
    pub fn definition(&self) -> Option<&Definition>
        ensures { option_copied result ≡ definition_of self.now }
    {
        match &self.statement.body {
            Body::Definition(definition) => Some(definition),
            Body::Block(_) | Body::Command(_) => None,
        }
    }

    /// The command that the statement is, if it is one.
    pub fn command(&self) -> Option<&Command>
        ensures { option_copied result ≡ command_of self.now }
    {
        match &self.statement.body {
            Body::Block(_) | Body::Definition(_) => None,
            Body::Command(command) => Some(command),
        }
    }

    /// Whether the statement is a block.
    pub fn is_block(&self) -> bool
        ensures { result ≡ is_block self.now }
    {
        self.block().is_some()
    }

    /// Whether the statement is a command.
    pub fn is_command(&self) -> bool
        ensures { result ≡ is_command self.now }
    {
        self.command().is_some()
    }

    /// Whether the statement is a GENERATE.
    pub fn is_generate(&self) -> bool
        ensures { result ≡ is_generate self.now }
    {
        match self.block() {
            Some(block) => block.is_generate(),
            None => false,
        }
    }
}

fn copy_operand(operand: &Option<Expr>) -> Result<Option<Expr>, AllocError>
    ensures { IfOk result (λ o. o ≡ operand.now) }
{
    match operand {
        Some(expr) => Ok(Some(expr.copy()?)),
        None => Ok(None),
    }
}
