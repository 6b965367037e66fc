ghost use Rattle.std.specs.Prelude.{◌≡◌};
ghost use Rattle.gw_names.specs.Words.{word_of, word_of_block, word_of_definition, word_of_command, verb_of};

/// A verb of the language.
#[derive(Clone, Copy)]
pub enum Verb {
    Block(BlockVerb),
    Definition(DefinitionVerb),
    Command(CommandVerb),
}

/// A verb of a block.
#[derive(Clone, Copy, PartialEq, Eq)]
pub enum BlockVerb {
    Generate,
    Advance,
    Terminate,
    Seize,
    Release,
    Enter,
    Leave,
    Queue,
    Depart,
    Transfer,
    Test,
    Gate,
    Logic,
    Assign,
    Savevalue,
    Mark,
    Buffer,
    Priority,
    Tabulate,
    Link,
    Unlink,
    Split,
    Loop,
}

/// A verb of a definition.
#[derive(Clone, Copy)]
pub enum DefinitionVerb {
    Storage,
    Table,
    Variable,
    Equ,
    Function,
}

/// A verb of a command.
#[derive(Clone, Copy)]
pub enum CommandVerb {
    Start,
    Reset,
    Clear,
    Rmult,
}

/// Every verb: those of blocks, then of definitions, then of commands.
pub const VERBS: [Verb; 32] = [
    Verb::Block(BlockVerb::Generate),
    Verb::Block(BlockVerb::Advance),
    Verb::Block(BlockVerb::Terminate),
    Verb::Block(BlockVerb::Seize),
    Verb::Block(BlockVerb::Release),
    Verb::Block(BlockVerb::Enter),
    Verb::Block(BlockVerb::Leave),
    Verb::Block(BlockVerb::Queue),
    Verb::Block(BlockVerb::Depart),
    Verb::Block(BlockVerb::Transfer),
    Verb::Block(BlockVerb::Test),
    Verb::Block(BlockVerb::Gate),
    Verb::Block(BlockVerb::Logic),
    Verb::Block(BlockVerb::Assign),
    Verb::Block(BlockVerb::Savevalue),
    Verb::Block(BlockVerb::Mark),
    Verb::Block(BlockVerb::Buffer),
    Verb::Block(BlockVerb::Priority),
    Verb::Block(BlockVerb::Tabulate),
    Verb::Block(BlockVerb::Link),
    Verb::Block(BlockVerb::Unlink),
    Verb::Block(BlockVerb::Split),
    Verb::Block(BlockVerb::Loop),
    Verb::Definition(DefinitionVerb::Storage),
    Verb::Definition(DefinitionVerb::Table),
    Verb::Definition(DefinitionVerb::Variable),
    Verb::Definition(DefinitionVerb::Equ),
    Verb::Definition(DefinitionVerb::Function),
    Verb::Command(CommandVerb::Start),
    Verb::Command(CommandVerb::Reset),
    Verb::Command(CommandVerb::Clear),
    Verb::Command(CommandVerb::Rmult),
];

impl Verb {
    /// The verb's word, in upper case.
    pub fn word(self) -> &'static [u8]
        ensures { result.now ≡ word_of self }
    {
        match self {
            Verb::Block(verb) => verb.word(),
            Verb::Definition(verb) => verb.word(),
            Verb::Command(verb) => verb.word(),
        }
    }

    /// The verb that an upper-case word is, if it is one.
    #[tactic(auto, unfolding(crate::specs::Words::verb_of))]
    pub fn read(word: &[u8]) -> Option<Verb>
        ensures { result ≡ verb_of word.now }
    {
        VERBS.iter().copied().find(|verb| verb.word() == word)
    }
}

impl BlockVerb {
    /// The verb's word, in upper case.
    pub fn word(self) -> &'static [u8]
        ensures { result.now ≡ word_of_block self }
    {
        match self {
            BlockVerb::Generate => b"GENERATE",
            BlockVerb::Advance => b"ADVANCE",
            BlockVerb::Terminate => b"TERMINATE",
            BlockVerb::Seize => b"SEIZE",
            BlockVerb::Release => b"RELEASE",
            BlockVerb::Enter => b"ENTER",
            BlockVerb::Leave => b"LEAVE",
            BlockVerb::Queue => b"QUEUE",
            BlockVerb::Depart => b"DEPART",
            BlockVerb::Transfer => b"TRANSFER",
            BlockVerb::Test => b"TEST",
            BlockVerb::Gate => b"GATE",
            BlockVerb::Logic => b"LOGIC",
            BlockVerb::Assign => b"ASSIGN",
            BlockVerb::Savevalue => b"SAVEVALUE",
            BlockVerb::Mark => b"MARK",
            BlockVerb::Buffer => b"BUFFER",
            BlockVerb::Priority => b"PRIORITY",
            BlockVerb::Tabulate => b"TABULATE",
            BlockVerb::Link => b"LINK",
            BlockVerb::Unlink => b"UNLINK",
            BlockVerb::Split => b"SPLIT",
            BlockVerb::Loop => b"LOOP",
        }
    }
}

impl DefinitionVerb {
    /// The verb's word, in upper case.
    pub fn word(self) -> &'static [u8]
        ensures { result.now ≡ word_of_definition self }
    {
        match self {
            DefinitionVerb::Storage => b"STORAGE",
            DefinitionVerb::Table => b"TABLE",
            DefinitionVerb::Variable => b"VARIABLE",
            DefinitionVerb::Equ => b"EQU",
            DefinitionVerb::Function => b"FUNCTION",
        }
    }
}

impl CommandVerb {
    /// The verb's word, in upper case.
    pub fn word(self) -> &'static [u8]
        ensures { result.now ≡ word_of_command self }
    {
        match self {
            CommandVerb::Start => b"START",
            CommandVerb::Reset => b"RESET",
            CommandVerb::Clear => b"CLEAR",
            CommandVerb::Rmult => b"RMULT",
        }
    }
}
