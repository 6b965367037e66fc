// The program over any words, files, reader and writers.
ghost use Rattle.std.specs.Prelude.{◌≡◌, ◌≢◌, ◌≤◌, IfOk, MatchResult, codes, length, map};
ghost use Rattle.std.specs.Fn.{FnOnceReturnsAt};
ghost use Rattle.gw_io.specs.declared.budget.ReadFault.TheVariants.{Memory, Read};
ghost use Rattle.gw_main.specs.Complaints.{IsToldAs, Tells, complaint_of, status_of};
ghost use Rattle.gw_main.specs.Conversations.{Runs};
ghost use Rattle.gw_main.specs.Programs.{Does, Helps, Proceeds, RunsAt};

use crate::complaint::{complain, say, status};
use crate::conversation::{converse, converse_over_file};
use crate::words::{ModelAt, Refusal, Wanted, read_words};
use gw_script::{Fault, Options, Over, ReadFault, Sink, Source};
use std::alloc::Global;
use std::convert::AsStr;
use std::io::ErrorKind;
use std::sync::Wait;
use std::thread::Threads;

/// Runs the program on the words after its name. A model stands in front of the line `end` of the reader, with the
/// script after it, or in a file, which `opener` opens by its name, with the script on the reader.
///
/// The status is 0 where the script was served, or help was asked for; 1 where the model is refused; 2 where the words
/// are; 3 where reading or writing failed, there were too many reads, or it is out of memory. Why it is not 0 is told
/// to `errors`, as far as that takes it.
pub fn run<
    R: Threads + Wait + Sync,
    W: AsStr,
    F: Source + Drop,
    O: FnOnce(&str) -> Result<F, ReadFault>,
    S: Source,
    K: Sink,
    E: Sink,
>(
    rt: &R,
    alloc: Global,
    words: &[W],
    opener: O,
    reader: &mut S,
    writer: &mut K,
    errors: &mut E,
) -> u8
    requires { O.IsAlwaysCallable opener }
    ensures does { Does (FnOnceReturnsAt O.FnOnce opener)
        F.took F.ended F.failures S.took S.ended S.failures K.wrote K.failures E.wrote E.failures (map W.text words.now)
        reader.old reader.new writer.old writer.new errors.old errors.new result }
    // Without words the model stands on the reader, and the options are the usual ones.
    ensures usual { length words.now ≡ 0 →
        Runs S.took S.ended S.failures K.wrote K.failures E.wrote E.failures 0 Options.USUAL reader.old reader.new
        writer.old writer.new errors.old errors.new result }
{
    let meant = read_words(alloc, words);
    proceed(rt, alloc, meant, opener, reader, writer, errors)
}

// What is told of a word that is no text, in the manner of clap.
const NO_TEXT: &[u8] =
    b"error: invalid UTF-8 was detected in one or more arguments\n\nFor more information, try '--help'.\n";

/// Tells why the program could not begin, and returns its status: 3 for out of memory, 2 for a word that is no text.
pub fn not_begun<E: Sink>(error: ErrorKind, errors: &mut E) -> u8
    ensures memory { error ≡ ErrorKind.OutOfMemory → (result ≡ 3) ×
        Tells E.wrote E.failures (codes "stopped: F6\n") errors.old errors.new }
    ensures word { error ≢ ErrorKind.OutOfMemory → (result ≡ 2) ×
        Tells E.wrote E.failures
        (codes "error: invalid UTF-8 was detected in one or more arguments\n\nFor more information, try '--help'.\n")
        errors.old errors.new }
{
    match error {
        ErrorKind::OutOfMemory => decline(errors, b"stopped: F6\n", 3),
        _ => decline(errors, NO_TEXT, 2),
    }
}

/// Why a file could not be opened: out of memory, or as one that cannot be read.
pub(crate) fn not_opened(error: ErrorKind) -> ReadFault
    ensures memory { error ≡ ErrorKind.OutOfMemory → result ≡ Memory }
    ensures others { error ≢ ErrorKind.OutOfMemory → result ≡ Read }
{
    match error {
        ErrorKind::OutOfMemory => ReadFault::Memory,
        _ => ReadFault::Read,
    }
}

// Does what the words came to.
fn proceed<
    R: Threads + Wait + Sync,
    F: Source + Drop,
    O: FnOnce(&str) -> Result<F, ReadFault>,
    S: Source,
    K: Sink,
    E: Sink,
>(
    rt: &R,
    alloc: Global,
    meant: Result<Wanted<'_>, Refusal>,
    opener: O,
    reader: &mut S,
    writer: &mut K,
    errors: &mut E,
) -> u8
    requires callable { O.IsAlwaysCallable opener }
    requires every { IfOk meant (λ wanted. 1 ≤ wanted.options.every) }
    ensures { Proceeds (FnOnceReturnsAt O.FnOnce opener)
        F.took F.ended F.failures S.took S.ended S.failures K.wrote K.failures E.wrote E.failures meant.entry reader.old
        reader.new writer.old writer.new errors.old errors.new result }
{
    match meant {
        Ok(wanted) => serve(rt, alloc, wanted, opener, reader, writer, errors),
        Err(Refusal::Help(text)) => help(text.as_bytes(), writer, errors),
        Err(Refusal::Bad(text)) => decline(errors, text.as_bytes(), 2),
        Err(Refusal::Memory) => decline(errors, b"stopped: F6\n", 3),
    }
}

// Runs what was asked for.
fn serve<
    R: Threads + Wait + Sync,
    F: Source + Drop,
    O: FnOnce(&str) -> Result<F, ReadFault>,
    S: Source,
    K: Sink,
    E: Sink,
>(
    rt: &R,
    alloc: Global,
    wanted: Wanted<'_>,
    opener: O,
    reader: &mut S,
    writer: &mut K,
    errors: &mut E,
) -> u8
    requires callable { O.IsAlwaysCallable opener }
    requires every { 1 ≤ wanted.options.every }
    ensures { RunsAt (FnOnceReturnsAt O.FnOnce opener)
        F.took F.ended F.failures S.took S.ended S.failures K.wrote K.failures E.wrote E.failures wanted.entry.model
        wanted.entry.workers wanted.entry.options reader.old reader.new writer.old writer.new errors.old errors.new result }
{
    match wanted.model {
        ModelAt::Input => end(
            alloc,
            converse(rt, alloc, wanted.workers, wanted.options, reader, writer),
            errors,
        ),
        ModelAt::File(path) => {
            let opened = opener(path);
            let over = converse_over_file(
                rt,
                alloc,
                wanted.workers,
                wanted.options,
                opened,
                reader,
                writer,
            );
            end(alloc, over, errors)
        }
    }
}

// Tells how a conversation ended, and returns the status.
fn end<E: Sink>(alloc: Global, over: Result<Over, Fault>, errors: &mut E) -> u8
    ensures { MatchResult over (λ _. (errors.new ≡ errors.old) × (result ≡ 0))
        (λ fault. (told : Fault) × IsToldAs fault told ×
        Tells E.wrote E.failures (complaint_of told) errors.old errors.new × (result ≡ status_of told)) }
{
    match over {
        Ok(_) => 0,
        Err(fault) => status(&complain(alloc, fault, errors)),
    }
}

// Writes the help.
fn help<K: Sink, E: Sink>(text: &[u8], writer: &mut K, errors: &mut E) -> u8
    ensures { Helps K.wrote K.failures E.wrote E.failures text.now writer.old writer.new errors.old errors.new result }
{
    match gw_io::write_all(writer, text) {
        Ok(()) => 0,
        Err(_) => decline(errors, b"stopped: F4\n", 3),
    }
}

// Tells why the program goes no further, and returns its status.
fn decline<E: Sink>(errors: &mut E, text: &[u8], status: u8) -> u8
    ensures status { result ≡ status }
    ensures tells { Tells E.wrote E.failures text.now errors.old errors.new }
{
    say(errors, text);
    status
}
