ghost use Rattle.std.specs.Prelude.{◌≡◌, ◌≤◌, IfSome, length};
ghost use Rattle.std.specs.Option.{option_copied};
ghost use Rattle.gw_lines.specs.Forms.{forms_of, forms_of_block, forms_of_transfer, forms_of_gate, asks_storage, forms_of_definition, forms_of_command, lacks, is_listed, is_required, is_absent};

use crate::operand::Operand;
use gw_meaning::{Auxiliary, Condition};
use gw_names::{BlockVerb, CommandVerb, DefinitionVerb, Verb};

/// What an operand may be.
#[derive(Clone, Copy)]
pub enum Kind {
    /// A value: a name that stands for a number, a constant, an attribute or an expression in parentheses.
    Value,
    /// A constant: digits, with one `-` before them or none.
    Constant,
    /// A whole number from 1 to `most`.
    Whole { most: u32 },
    /// The key word `NP`, which has no effect.
    Quiet,
    /// An entity: a name, a whole number from 1 to 1,000,000,000, an attribute or an expression in parentheses.
    Entity,
    /// A fraction: digits with a point, six of them at most after it, from 0 to 1.
    Fraction,
    /// A block's label.
    Label,
    /// The name of a storage's definition.
    Defined,
    /// The name of a table's definition.
    Table,
    /// An expression, without parentheses around the whole.
    Expression,
    /// A FUNCTION's type and its number of points: `C` or `D`, and a whole number from 1 to 1,000.
    Points,
    /// A queue discipline: the key word `FIFO` or `LIFO`.
    Order,
    /// How many at most: a value, or the key word `ALL`, which sets no bound.
    Bound,
}

/// Whether an operand may be absent.
#[derive(Clone, Copy)]
pub enum Presence {
    Required,
    Optional,
    /// It may be empty, and the statement lists as many operands as are written.
    Written,
}

/// What one operand of a verb may be.
#[derive(Clone, Copy)]
pub struct Form {
    pub kind: Kind,
    pub presence: Presence,
}

/// The forms of a verb's operands, which each verb has, by what was read before: what stands beside the operands, and
/// whether the first operand is given.
pub(crate) fn forms_of(verb: Verb, beside: Auxiliary, given: bool) -> Option<&'static [Form]>
    ensures forms { option_copied result ≡ forms_of verb beside given }
    ensures few { IfSome result (λ f. length f.now ≤ 7) }
{
    match verb {
        Verb::Block(verb) => forms_of_block(verb, beside, given),
        Verb::Definition(verb) => forms_of_definition(verb),
        Verb::Command(verb) => forms_of_command(verb),
    }
}

fn forms_of_block(verb: BlockVerb, beside: Auxiliary, given: bool) -> Option<&'static [Form]>
    ensures forms { option_copied result ≡ forms_of_block verb beside given }
    ensures few { IfSome result (λ f. length f.now ≤ 7) }
{
    match verb {
        BlockVerb::Generate => Some(&[VALUE, VALUE, VALUE, VALUE, VALUE]),
        BlockVerb::Advance => Some(&[VALUE, VALUE]),
        BlockVerb::Terminate => Some(&[VALUE]),
        BlockVerb::Queue | BlockVerb::Depart => Some(&[ENTITY, VALUE]),
        BlockVerb::Seize | BlockVerb::Release | BlockVerb::Logic => Some(&[ENTITY]),
        BlockVerb::Enter | BlockVerb::Leave => Some(&[DEFINED, VALUE]),
        BlockVerb::Transfer => Some(forms_of_transfer(given)),
        BlockVerb::Test => Some(&[ONE_VALUE, ONE_VALUE, ANOTHER_LABEL]),
        BlockVerb::Gate => Some(forms_of_gate(beside)),
        BlockVerb::Mark | BlockVerb::Buffer => Some(&[]),
        BlockVerb::Priority => Some(&[ONE_VALUE]),
        BlockVerb::Assign | BlockVerb::Savevalue => Some(&[ENTITY, ONE_VALUE]),
        BlockVerb::Loop => Some(&[ENTITY, LABEL]),
        BlockVerb::Split => Some(&[ONE_VALUE, ANOTHER_LABEL]),
        BlockVerb::Link => Some(&[ENTITY, ORDER]),
        BlockVerb::Unlink => Some(&[ENTITY, LABEL, BOUND]),
        BlockVerb::Tabulate => Some(&[TABLE]),
    }
}

// A TRANSFER goes to a label, or, with a fraction before it, to one of two, the first of which may be absent.
fn forms_of_transfer(given: bool) -> &'static [Form]
    ensures forms { result.now ≡ forms_of_transfer given }
    ensures few { length result.now ≤ 7 }
{
    if given {
        &[FRACTION, ANOTHER_LABEL, LABEL]
    } else {
        &[CHANCE, LABEL]
    }
}

// A GATE asks a storage, or else a facility or a switch.
fn forms_of_gate(beside: Auxiliary) -> &'static [Form]
    ensures forms { result.now ≡ forms_of_gate beside }
    ensures few { length result.now ≤ 7 }
{
    if asks_storage(beside) {
        &[DEFINED, ANOTHER_LABEL]
    } else {
        &[ENTITY, ANOTHER_LABEL]
    }
}

fn asks_storage(beside: Auxiliary) -> bool
    ensures { result ≡ asks_storage beside }
{
    match beside {
        Auxiliary::Gate(
            Condition::Empty | Condition::NotEmpty | Condition::Full | Condition::NotFull,
        ) => true,
        _ => false,
    }
}

/// The forms of a definition's operands, which each definition has.
pub(crate) fn forms_of_definition(verb: DefinitionVerb) -> Option<&'static [Form]>
    ensures forms { option_copied result ≡ forms_of_definition verb }
    ensures few { IfSome result (λ f. length f.now ≤ 7) }
{
    match verb {
        DefinitionVerb::Storage => Some(&[COUNT]),
        DefinitionVerb::Equ => Some(&[CONSTANT]),
        DefinitionVerb::Variable => Some(&[EXPRESSION]),
        DefinitionVerb::Function => Some(&[ONE_VALUE, POINTS]),
        DefinitionVerb::Table => Some(&[ONE_VALUE, CONSTANT, COUNT, CLASSES]),
    }
}

fn forms_of_command(verb: CommandVerb) -> Option<&'static [Form]>
    ensures forms { option_copied result ≡ forms_of_command verb }
    ensures few { IfSome result (λ f. length f.now ≤ 7) }
{
    match verb {
        CommandVerb::Start => Some(&[COUNT, QUIET]),
        CommandVerb::Rmult => Some(&[SEED, SEED, SEED, SEED, SEED, SEED, SEED]),
        CommandVerb::Reset | CommandVerb::Clear => Some(&[]),
    }
}

const VALUE: Form = Form {
    kind: Kind::Value,
    presence: Presence::Optional,
};

const ONE_VALUE: Form = Form {
    kind: Kind::Value,
    presence: Presence::Required,
};

const CONSTANT: Form = Form {
    kind: Kind::Constant,
    presence: Presence::Required,
};

const EXPRESSION: Form = Form {
    kind: Kind::Expression,
    presence: Presence::Required,
};

const POINTS: Form = Form {
    kind: Kind::Points,
    presence: Presence::Required,
};

const ENTITY: Form = Form {
    kind: Kind::Entity,
    presence: Presence::Required,
};

const COUNT: Form = Form {
    kind: Kind::Whole {
        most: 1_000_000_000,
    },
    presence: Presence::Required,
};

const CLASSES: Form = Form {
    kind: Kind::Whole { most: 1_000 },
    presence: Presence::Required,
};

const QUIET: Form = Form {
    kind: Kind::Quiet,
    presence: Presence::Optional,
};

const SEED: Form = Form {
    kind: Kind::Whole {
        most: 2_147_483_646,
    },
    presence: Presence::Written,
};

const CHANCE: Form = Form {
    kind: Kind::Fraction,
    presence: Presence::Optional,
};

const FRACTION: Form = Form {
    kind: Kind::Fraction,
    presence: Presence::Required,
};

const LABEL: Form = Form {
    kind: Kind::Label,
    presence: Presence::Required,
};

const ANOTHER_LABEL: Form = Form {
    kind: Kind::Label,
    presence: Presence::Optional,
};

const DEFINED: Form = Form {
    kind: Kind::Defined,
    presence: Presence::Required,
};

const TABLE: Form = Form {
    kind: Kind::Table,
    presence: Presence::Required,
};

const ORDER: Form = Form {
    kind: Kind::Order,
    presence: Presence::Required,
};

const BOUND: Form = Form {
    kind: Kind::Bound,
    presence: Presence::Optional,
};

/// Whether the operands lack one, though none of them is required: a GENERATE has a mean or a limit.
pub fn lacks(verb: Verb, operands: &[Option<Operand>]) -> bool
    ensures { result ≡ lacks verb operands.now }
{
    match verb {
        Verb::Block(BlockVerb::Generate) => is_absent(operands, 0) && is_absent(operands, 3),
        _ => false,
    }
}

fn is_absent(operands: &[Option<Operand>], place: usize) -> bool
    ensures { result ≡ is_absent operands.now place }
{
    match operands.get(place) {
        Some(Some(_)) => false,
        _ => true,
    }
}

impl Presence {
    /// Whether the statement lists the operand: more says that the list goes on here.
    pub(crate) fn is_listed(self, more: bool) -> bool
        ensures { result ≡ is_listed self more }
    {
        match self {
            Presence::Required | Presence::Optional => true,
            Presence::Written => more,
        }
    }

    /// Whether the statement must have the operand.
    pub(crate) fn is_required(self) -> bool
        ensures { result ≡ is_required self }
    {
        match self {
            Presence::Required => true,
            Presence::Optional | Presence::Written => false,
        }
    }
}
