// A session: the script's lines, answered one after another.
ghost use Rattle.std.specs.Prelude.{◌≡◌, ◌≤◌, ◌⊎◌, ℕ, List, Some, false, codes, option_copied, IfOk, IfErr, OnOk, OnErr};
ghost use Rattle.gw_io.specs.Failures.{one_more, WritesPart};
ghost use Rattle.gw_desk.specs.Book.{Book};
ghost use Rattle.gw_request.specs.Requests.{request_of};
ghost use Rattle.gw_script.specs.Opening.{Opens, Refuses};
ghost use Rattle.gw_script.specs.Replying.{Answers, DeskAnswers, Replies, is_quit, fallback_of};
ghost use Rattle.gw_script.specs.Sessions.{Serves, Stops};
ghost use Rattle.gw_script.specs.Turns.{Writes, BreaksOff, BreaksRefused, over_if};

use crate::fault::{Fault, Over};
use crate::opening::{Options, open};
use crate::reply::{answer, fallback, is_quit};
use gw_desk::Keeper;
use gw_io::{Budget, Line, Sink, Source, read_line, without_cr, write_all};
use gw_request::{Request, request_of};
use std::alloc::Global;

/// Answers the lines of a script over a keeper of a version, up to `quit` or the end of the input. A line is answered,
/// and `quit` ends the session, once its line feed is read or the end of the input is found after it. At most
/// 16,777,216 calls of read are made. After a fault what was written stays, the keeper is as the lines read so far
/// left it, and the session is over.
///
/// # Errors
///
/// [`Fault::Read`] and [`Fault::Write`], where the source or the sink failed in this call; [`Fault::ReadLimit`];
/// [`Fault::Memory`], where a growth was refused for reading a line or for what is neither a query nor an edit.
pub fn session_on<D: Keeper, S: Source, K: Sink>(
    alloc: Global,
    keeper: &mut D,
    source: &mut S,
    sink: &mut K,
) -> Result<Over, Fault>
    ensures serves { IfOk result (Serves (Answers D.version D.does D.works)
        S.took S.ended S.failures K.wrote K.failures keeper.old source.old source.new sink.old sink.new keeper.new) }
    ensures stops { IfErr result (Stops (Answers D.version D.does D.works)
        S.took S.ended S.failures K.wrote K.failures keeper.old source.old source.new sink.old sink.new keeper.new) }
{
    let mut budget = Budget::new();
    let mut n = 0u64;
    'lines: loop {
        n += 1;
        match read_line(alloc, source, &mut budget)? {
            Line::Whole(line) => {
                if reply(alloc, keeper, n, without_cr(&line), sink)? {
                    return Ok(Over::Quit);
                }
            }
            Line::Last(line) => {
                let quit = reply(alloc, keeper, n, &line, sink)?;
                return Ok(over_if(quit));
            }
            Line::End => return Ok(Over::InputEnd),
        }
    }
}

/// Opens a model and answers a script over it: F1 or F2 where the model is refused, with nothing read or written.
///
/// What is written are the bytes of the replies of a [`Desk`](crate::Desk) to the edits and queries of the script, and
/// each of them is right: a report is, byte for byte, that of the model that `list` prints, read anew and run from
/// zero; a refused edit changes nothing.
pub fn session<S: Source, K: Sink>(
    alloc: Global,
    model: &[u8],
    options: Options,
    source: &mut S,
    sink: &mut K,
) -> Result<Over, Fault>
    requires { 1 ≤ options.every }
    ensures serves { IfOk result (λ over. (b : Book) × (b' : Book) × Opens model.now options b ×
        Serves DeskAnswers S.took S.ended S.failures K.wrote K.failures b source.old source.new sink.old sink.new b'
        over) }
    ensures stops { IfErr result (λ fault.
        (Refuses model.now options fault × (source.new ≡ source.old) × (sink.new ≡ sink.old))
        ⊎ ((b : Book) × (b' : Book) × Opens model.now options b
        × Stops DeskAnswers S.took S.ended S.failures K.wrote K.failures b source.old source.new sink.old sink.new b'
        fault)) }
{
    let mut desk = open(alloc, model, options)?;
    session_on(alloc, &mut desk, source, sink)
}

fn over_if(quit: bool) -> Over
    ensures { result ≡ over_if quit }
{
    if quit { Over::Quit } else { Over::InputEnd }
}

// Answers one line, and says whether it ends the session. An edit for whose reading a growth was refused is refused.
fn reply<D: Keeper, K: Sink>(
    alloc: Global,
    keeper: &mut D,
    n: u64,
    line: &[u8],
    sink: &mut K,
) -> Result<bool, Fault>
    ensures quit { IfOk result (λ quit. quit ≡ is_quit (request_of line.now)) }
    ensures ok { OnOk result (Writes K.wrote (Answers D.version D.does D.works keeper.old n line.now)
        sink.old sink.new keeper.new) }
    ensures same { OnOk result (K.failures sink.new ≡ K.failures sink.old) }
    ensures err { IfErr result (λ f. BreaksOff K.wrote K.failures (Answers D.version D.does D.works keeper.old n line.now)
        (fallback_of (request_of line.now)) keeper.old sink.old sink.new keeper.new f) }
{
    match request_of(alloc, line) {
        Ok(request) => fulfil(alloc, keeper, n, request, sink),
        Err(_) => refuse_unread(sink),
    }
}

fn refuse_unread<K: Sink>(sink: &mut K) -> Result<bool, Fault>
    ensures quit { IfOk result (λ quit. quit ≡ false) }
    ensures ok { OnOk result (K.wrote sink.old (codes "refused E7\n") sink.new) }
    ensures same { OnOk result (K.failures sink.new ≡ K.failures sink.old) }
    ensures fault { IfErr result (λ f. f ≡ Fault.Write) }
    ensures part { OnErr result (WritesPart K.wrote sink.old (codes "refused E7\n") sink.new) }
    ensures counted { OnErr result (K.failures sink.new ≡ one_more (K.failures sink.old)) }
{
    match send(sink, b"refused E7\n") {
        Ok(()) => Ok(false),
        Err(fault) => Err(fault),
    }
}

// Does what a line asks for, and answers it. A query or an edit that a growth was refused for is answered so.
fn fulfil<D: Keeper, K: Sink>(
    alloc: Global,
    keeper: &mut D,
    n: u64,
    request: Request,
    sink: &mut K,
) -> Result<bool, Fault>
    ensures quit { IfOk result (λ quit. quit ≡ is_quit request) }
    ensures ok { OnOk result (Writes K.wrote (Replies D.version D.does D.works keeper.old n request)
        sink.old sink.new keeper.new) }
    ensures same { OnOk result (K.failures sink.new ≡ K.failures sink.old) }
    ensures err { IfErr result (λ f. BreaksOff K.wrote K.failures (Replies D.version D.does D.works keeper.old n request)
        (fallback_of request) keeper.old sink.old sink.new keeper.new f) }
{
    let quit = is_quit(&request);
    let fallback = fallback(&request);
    match answer(alloc, keeper, n, request) {
        Ok(text) => send(sink, &text)?,
        Err(_) => send_refused(sink, fallback)?,
    }
    Ok(quit)
}

// Says that a growth was refused, where a line may be answered so; at any other the session ends.
fn send_refused<K: Sink>(sink: &mut K, fallback: Option<&[u8]>) -> Result<(), Fault>
    ensures ok { OnOk result ((text : List ℕ) × (option_copied fallback.entry ≡ Some text) ×
        K.wrote sink.old text sink.new) }
    ensures same { OnOk result (K.failures sink.new ≡ K.failures sink.old) }
    ensures err { IfErr result (λ f.
        BreaksRefused K.wrote K.failures (option_copied fallback.entry) sink.old sink.new f) }
{
    match fallback {
        Some(text) => send(sink, text),
        None => Err(Fault::Memory),
    }
}

fn send<K: Sink>(sink: &mut K, text: &[u8]) -> Result<(), Fault>
    ensures ok { OnOk result (K.wrote sink.old text.now sink.new) }
    ensures same { OnOk result (K.failures sink.new ≡ K.failures sink.old) }
    ensures fault { IfErr result (λ f. f ≡ Fault.Write) }
    ensures part { OnErr result (WritesPart K.wrote sink.old text.now sink.new) }
    ensures counted { OnErr result (K.failures sink.new ≡ one_more (K.failures sink.old)) }
{
    match write_all(sink, text) {
        Ok(()) => Ok(()),
        Err(_) => Err(Fault::Write),
    }
}
