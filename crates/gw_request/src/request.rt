ghost use Rattle.std.specs.Prelude.{◌≡◌, IfOk, OnErr, IsTrue};
ghost use Rattle.gw_request.specs.Requests.{request_of, may_want_memory};

use crate::arguments::read_arguments;
use crate::command::Command;
use crate::words::{first_word, is_all_blank};
use gw_meaning::Edit;
use std::alloc::{AllocError, Global};

/// A script line's longest length in bytes, without its line end.
pub const LINE_LIMIT: usize = 65_536;

/// What a script line asks for.
#[derive(Drop)]
pub enum Request {
    /// A blank line: nothing.
    Nothing,
    /// An edit of the version.
    Edit(Edit),
    /// The report of a START of a replication, which is run as far as that.
    Report { rep: u64, k: u64 },
    /// The report of a START of a replication, where it is known without a run.
    Peek { rep: u64, k: u64 },
    /// The reports of a START of every replication.
    All { k: u64 },
    /// So many steps more of a replication's run.
    Work { rep: u64, steps: u64 },
    /// The lines of the version.
    List,
    /// The end of the session.
    Quit,
    /// Nothing that there is.
    Bad(Reason),
}

/// What is wrong with a script line.
#[derive(Clone, Copy)]
pub enum Reason {
    /// It is longer than 65,536 bytes.
    Long,
    /// Its first word is no command.
    Command,
    /// The words after the command are not those that it takes.
    Arguments,
}

/// What a script line, without its line end, asks for. Memory can be wanted only for a line of `insert`, `change`
/// or `capacity` whose number is one: its text or name is copied.
#[tactic(auto, unfolding(crate::specs::Requests::request_of))]
pub fn request_of(alloc: Global, line: &[u8]) -> Result<Request, AllocError>
    ensures request { IfOk result (λ r. r ≡ request_of line.now) }
    ensures memory { OnErr result (IsTrue (may_want_memory line.now)) }
{
    if line.len() > LINE_LIMIT {
        return Ok(Request::Bad(Reason::Long));
    }
    if is_all_blank(line) {
        return Ok(Request::Nothing);
    }
    let (word, words) = first_word(line);
    let Some(command) = Command::read(word) else {
        return Ok(Request::Bad(Reason::Command));
    };
    match read_arguments(alloc, command, words)? {
        Some(request) => Ok(request),
        None => Ok(Request::Bad(Reason::Arguments)),
    }
}
