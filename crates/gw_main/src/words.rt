// What the program's words ask for.
ghost use Rattle.std.specs.Prelude.{◌≡◌, Some, None, option_map, map, IfOk, OnErr};
ghost use Rattle.clap.specs.Words.{first_value, found_of, kind_of};
ghost use Rattle.gw_main.specs.Words.{HasBadNumber, IsModelAt, IsNumberRefusal, IsReadAs, IsRefusalAt, SaysOptions, said};

use crate::command::command;
use crate::number::number_within;
use clap::error::{Error, ErrorKind};
use clap::{ArgMatches, Command};
use gw_script::Options;
use std::alloc::{AllocError, Global};
use std::convert::AsStr;

/// Where the model stands.
#[derive(Clone, Copy)]
pub enum ModelAt<'a> {
    /// On standard input, up to its first line `end`; the script stands after it.
    Input,
    /// In the file of this name, whole; the script stands on standard input.
    File(&'a str),
}

/// What the words ask for.
#[derive(Clone, Copy)]
pub struct Wanted<'a> {
    /// Where the model stands.
    pub model: ModelAt<'a>,
    /// What it is opened with.
    pub options: Options,
    /// How many workers make steps beside the session, 0 to 16.
    pub workers: u64,
}

/// Why the words ask for no run, with the text that says so.
#[derive(Drop)]
pub enum Refusal {
    /// They ask for help or for the version, and this is the text.
    Help(String),
    /// They are no lawful words.
    Bad(String),
    /// Out of memory.
    Memory,
}

impl From<AllocError> for Refusal {
    ghost use Rattle.gw_main.specs.declared.words.Refusal.TheVariants.{Memory};

    ghost from_gives = { λ _ e. e ≡ Memory };

    fn from(_error: AllocError) -> Refusal {
        Refusal::Memory
    }
}

/// Reads the words after the program's name: where the model stands, and the options.
///
/// Which word goes to which name, and which faults a line has, is what `clap` defines for a command of this kind, and
/// its contracts say both exactly. They leave open which fault is told, where a line has several at one place, and they
/// say nothing of the texts that clap writes: those stand on tests. The numbers and their limits are our own.
///
/// # Errors
///
/// A [`Refusal`], as soon as one is known: clap's fault before a bad number. [`Refusal::Memory`] may come for any
/// words.
pub fn read_words<'a, W: AsStr>(alloc: Global, words: &'a [W]) -> Result<Wanted<'a>, Refusal>
    ensures { IsReadAs (map W.text words.entry.now) result }
{
    let mut command = command(alloc)?;
    let matches = match command.try_get_matches_from_mut(words) {
        Ok(matches) => matches,
        Err(error) => return Err(refusal_of(alloc, &error)),
    };
    match options_of(&matches) {
        Ok(said) => Ok(Wanted {
            model: model_at(matches.get_str("model")),
            options: said.options,
            workers: said.workers,
        }),
        Err(bad) => Err(number_refusal(alloc, &mut command, bad)),
    }
}

// A word that is no number of its option.
#[derive(Clone, Copy)]
struct BadNumber<'a> {
    word: &'a str,
    name: &'a str,
    least: u64,
    greatest: u64,
}

fn model_at<'a>(word: Option<&'a str>) -> ModelAt<'a>
    ensures { IsModelAt (option_map (λ w. w.now) word.entry) result }
{
    match word {
        Some(path) if path != "-" => ModelAt::File(path),
        _ => ModelAt::Input,
    }
}

// What the options say.
#[derive(Clone, Copy)]
struct Said {
    options: Options,
    workers: u64,
}

fn options_of<'a>(matches: &ArgMatches<'a>) -> Result<Said, BadNumber<'a>>
    ensures ok { IfOk result (λ said. SaysOptions (first_value (found_of matches.now)) said.options said.workers) }
    ensures err { OnErr result (HasBadNumber (first_value (found_of matches.now))) }
{
    let usual = Options::USUAL;
    let options = Options {
        seed: number(matches, "seed", 1, 2_147_483_646, usual.seed)?,
        horizon: number(matches, "horizon", 1, 1_000_000_000_000, usual.horizon)?,
        every: number(matches, "every", 1, 1_000_000, usual.every)?,
        limit: number(matches, "limit", 1, 1_000_000, usual.limit)?,
    };
    let workers = number(matches, "workers", 0, 16, 0)?;
    Ok(Said { options, workers })
}

// The number that an option says.
fn number<'a>(
    matches: &ArgMatches<'a>,
    name: &'static str,
    least: u64,
    greatest: u64,
    usual: u64,
) -> Result<u64, BadNumber<'a>>
    ensures ok { IfOk result (λ n. said least greatest usual (first_value (found_of matches.now) name.now) ≡ Some n) }
    ensures err { OnErr result (said least greatest usual (first_value (found_of matches.now) name.now) ≡ None) }
{
    let Some(word) = matches.get_str(name) else {
        return Ok(usual);
    };
    match number_within(word, least, greatest) {
        Some(number) => Ok(number),
        None => Err(BadNumber {
            word,
            name,
            least,
            greatest,
        }),
    }
}

// What an error of clap's comes to.
fn refusal_of(alloc: Global, error: &Error) -> Refusal
    ensures { IsRefusalAt (kind_of error.now) result }
{
    let kind = error.kind();
    if kind == ErrorKind::OutOfMemory {
        return Refusal::Memory;
    }
    match format!(in alloc; "{error}") {
        Ok(text) if kind == ErrorKind::DisplayHelp => Refusal::Help(text),
        Ok(text) if kind == ErrorKind::DisplayVersion => Refusal::Help(text),
        Ok(text) => Refusal::Bad(text),
        Err(_) => Refusal::Memory,
    }
}

// What a bad number comes to, told in the manner of clap.
fn number_refusal(alloc: Global, command: &mut Command<'_>, bad: BadNumber<'_>) -> Refusal
    ensures { IsNumberRefusal result }
{
    match number_text(alloc, command, bad) {
        Ok(text) => Refusal::Bad(text),
        Err(_) => Refusal::Memory,
    }
}

fn number_text(
    alloc: Global,
    command: &mut Command<'_>,
    bad: BadNumber<'_>,
) -> Result<String, AllocError> {
    let BadNumber {
        word,
        name,
        least,
        greatest,
    } = bad;
    let message = format!(in alloc;
        "invalid value '{word}' for '--{name}': not a whole number from {least} to {greatest}"
    )?;
    let error = command.error(ErrorKind::ValueValidation, message.as_str())?;
    format!(in alloc; "{error}")
}
