// What a command asks for with the words after it: one reader for each form.
ghost use Rattle.std.specs.Prelude.{◌≡◌, IfOk, OnErr, IsTrue, Some, option_copied};
ghost use Rattle.gw_request.specs.declared.command.Command.TheVariants as commands;
ghost use Rattle.gw_request.specs.Arguments.{request_in, copies_words};

use crate::command::{Bare, Command, Pair, Single, Text};
use crate::number::{next_number, number_of};
use crate::request::Request;
use crate::words::cut;
use gw_expr::Row;
use gw_meaning::Edit;
use gw_names::Name;
use std::alloc::{AllocError, Global};

// What a command asks for, where the words after it are those that it takes.
pub(crate) fn read_arguments(
    alloc: Global,
    command: Command,
    words: Option<&[u8]>,
) -> Result<Option<Request>, AllocError>
    ensures request { IfOk result (λ o. o ≡ request_in command (option_copied words.entry)) }
    ensures memory { OnErr result (IsTrue (copies_words command (option_copied words.entry))) }
{
    match (command, words) {
        (Command::Bare(command), None) => Ok(Some(bare_request(command))),
        (Command::Single(command), Some(words)) => Ok(read_single(command, words)),
        (Command::Pair(command), Some(words)) => Ok(read_pair(command, words)),
        (Command::Text(command), Some(words)) => read_text(alloc, command, words),
        (Command::Capacity, Some(words)) => read_capacity(alloc, words),
        _ => Ok(None),
    }
}

fn bare_request(command: Bare) -> Request
    ensures { Some result ≡ request_in (commands.Bare command) None }
{
    match command {
        Bare::List => Request::List,
        Bare::Quit => Request::Quit,
    }
}

fn read_single(command: Single, words: &[u8]) -> Option<Request>
    ensures { result ≡ request_in (commands.Single command) (Some words.now) }
{
    let n = number_of(words)?;
    Some(match command {
        Single::Delete => Request::Edit(Edit::Delete { place: n }),
        Single::Drop => Request::Edit(Edit::Drop { replication: n }),
        Single::Horizon => Request::Edit(Edit::Horizon { time: n }),
        Single::All => Request::All { k: n },
    })
}

fn read_pair(command: Pair, words: &[u8]) -> Option<Request>
    ensures { result ≡ request_in (commands.Pair command) (Some words.now) }
{
    let (rep, behind) = next_number(words)?;
    let n = number_of(behind)?;
    Some(match command {
        Pair::Seed => Request::Edit(Edit::Seed {
            replication: rep,
            seed: n,
        }),
        Pair::Replicate => Request::Edit(Edit::Replicate {
            replication: rep,
            seed: n,
        }),
        Pair::Report => Request::Report { rep, k: n },
        Pair::Peek => Request::Peek { rep, k: n },
        Pair::Work => Request::Work { rep, steps: n },
    })
}

fn read_text(alloc: Global, command: Text, words: &[u8]) -> Result<Option<Request>, AllocError>
    ensures request { IfOk result (λ o. o ≡ request_in (commands.Text command) (Some words.now)) }
    ensures memory { OnErr result (IsTrue (copies_words (commands.Text command) (Some words.now))) }
{
    let Some((place, behind)) = next_number(words) else {
        return Ok(None);
    };
    let text = Row::from_vec(Vec::from_slice(alloc, behind)?);
    Ok(Some(Request::Edit(match command {
        Text::Insert => Edit::Insert { place, text },
        Text::Change => Edit::Change { place, text },
    })))
}

fn read_capacity(alloc: Global, words: &[u8]) -> Result<Option<Request>, AllocError>
    ensures request { IfOk result (λ o. o ≡ request_in commands.Capacity (Some words.now)) }
    ensures memory { OnErr result (IsTrue (copies_words commands.Capacity (Some words.now))) }
{
    let Some((word, behind)) = cut(words) else {
        return Ok(None);
    };
    let Some(amount) = number_of(behind) else {
        return Ok(None);
    };
    match Name::read(alloc, word)? {
        Some(name) => Ok(Some(Request::Edit(Edit::Capacity { name, amount }))),
        None => Ok(None),
    }
}
