// What a script line is answered.
ghost use Rattle.std.specs.Prelude.{◌≡◌, ◌++◌, codes, decimal, option_copied, IfOk, OnErr};
ghost use Rattle.gw_script.specs.Replying.{Replies, Fallback, word_of, is_quit, fallback_of};

use crate::edits::edit;
use crate::listing::list;
use crate::queries::{peek, report, report_all};
use crate::works::work;
use gw_desk::Keeper;
use gw_nums::put_decimal;
use gw_request::{Reason, Request};
use std::alloc::{AllocError, Global};

/// The answer to the n-th line. Where a growth was refused for telling it, [`fallback`] may be answered.
pub fn answer<D: Keeper>(
    alloc: Global,
    keeper: &mut D,
    n: u64,
    request: Request,
) -> Result<Vec<u8>, AllocError>
    ensures ok { IfOk result (λ v. Replies D.version D.does D.works keeper.old n request v.items keeper.new) }
    ensures err { OnErr result (Fallback D.version D.does D.works keeper.old n request keeper.new) }
{
    match request {
        Request::Nothing => Ok(Vec::new(alloc)),
        Request::Edit(change) => edit(alloc, keeper, change),
        Request::Report { rep, k } => report(alloc, keeper, rep, k),
        Request::Peek { rep, k } => peek(alloc, keeper, rep, k),
        Request::All { k } => report_all(alloc, keeper, k),
        Request::Work { rep, steps } => work(alloc, keeper, rep, steps),
        Request::List => list(alloc, keeper.list()),
        Request::Quit => Vec::from_slice(alloc, b"bye\n"),
        Request::Bad(reason) => refusal(alloc, n, reason),
    }
}

fn refusal(alloc: Global, n: u64, reason: Reason) -> Result<Vec<u8>, AllocError>
    ensures { IfOk result (λ v. v.items ≡ codes "? " ++ decimal n ++ codes " " ++ word_of reason ++ codes "\n") }
{
    let mut answer = Vec::from_slice(alloc, b"? ")?;
    put_decimal(&mut answer, n)?;
    answer.extend_from_slice(b" ")?;
    answer.extend_from_slice(word(reason))?;
    answer.extend_from_slice(b"\n")?;
    Ok(answer)
}

fn word(reason: Reason) -> &'static [u8]
    ensures { result.now ≡ word_of reason }
{
    match reason {
        Reason::Long => b"long",
        Reason::Command => b"command",
        Reason::Arguments => b"arguments",
    }
}

/// Whether the request ends the session.
pub(crate) fn is_quit(request: &Request) -> bool
    ensures { result ≡ is_quit request.now }
{
    matches!(request, Request::Quit)
}

/// What a line may be answered where a growth is refused for telling its answer, if it may.
pub fn fallback(request: &Request) -> Option<&'static [u8]>
    ensures { option_copied result ≡ fallback_of request.now }
{
    match request {
        Request::Edit(_) => Some(b"refused E7\n"),
        Request::Report { .. }
        | Request::Peek { .. }
        | Request::All { .. }
        | Request::Work { .. }
        | Request::List => Some(b"memory\n"),
        Request::Nothing | Request::Quit | Request::Bad(_) => None,
    }
}
