// The table of the commands.
ghost use Rattle.std.specs.Prelude.{◌≡◌};
ghost use Rattle.gw_request.specs.Commands.{word_of, command_of};

/// A command of a script, by the shape of what stands after its word.
#[derive(Clone, Copy)]
pub enum Command {
    /// No words.
    Bare(Bare),
    /// A number.
    Single(Single),
    /// Two numbers.
    Pair(Pair),
    /// A number, and a text that is all after its blank.
    Text(Text),
    /// A name and a number.
    Capacity,
}

/// A command with no words.
#[derive(Clone, Copy)]
pub enum Bare {
    List,
    Quit,
}

/// A command with a number.
#[derive(Clone, Copy)]
pub enum Single {
    Delete,
    Drop,
    Horizon,
    All,
}

/// A command with two numbers.
#[derive(Clone, Copy)]
pub enum Pair {
    Seed,
    Replicate,
    Report,
    Peek,
    Work,
}

/// A command with a number and a text.
#[derive(Clone, Copy)]
pub enum Text {
    Insert,
    Change,
}

// Every command.
const COMMANDS: [Command; 14] = [
    Command::Text(Text::Insert),
    Command::Single(Single::Delete),
    Command::Text(Text::Change),
    Command::Capacity,
    Command::Pair(Pair::Seed),
    Command::Pair(Pair::Replicate),
    Command::Single(Single::Drop),
    Command::Single(Single::Horizon),
    Command::Pair(Pair::Report),
    Command::Pair(Pair::Peek),
    Command::Single(Single::All),
    Command::Pair(Pair::Work),
    Command::Bare(Bare::List),
    Command::Bare(Bare::Quit),
];

impl Command {
    // The command's word.
    fn word(self) -> &'static [u8]
        ensures { result.now ≡ word_of self }
    {
        match self {
            Command::Text(Text::Insert) => b"insert",
            Command::Single(Single::Delete) => b"delete",
            Command::Text(Text::Change) => b"change",
            Command::Capacity => b"capacity",
            Command::Pair(Pair::Seed) => b"seed",
            Command::Pair(Pair::Replicate) => b"replicate",
            Command::Single(Single::Drop) => b"drop",
            Command::Single(Single::Horizon) => b"horizon",
            Command::Pair(Pair::Report) => b"report",
            Command::Pair(Pair::Peek) => b"peek",
            Command::Single(Single::All) => b"all",
            Command::Pair(Pair::Work) => b"work",
            Command::Bare(Bare::List) => b"list",
            Command::Bare(Bare::Quit) => b"quit",
        }
    }

    /// The command that a word is, if it is one.
    #[tactic(auto, unfolding(crate::specs::Commands::command_of))]
    pub fn read(word: &[u8]) -> Option<Command>
        ensures { result ≡ command_of word.now }
    {
        COMMANDS
            .iter()
            .copied()
            .find(|command| command.word() == word)
    }
}
