// A conversation over a model and a script: the model on standard input or in a file, the script on standard input.
ghost use Rattle.std.specs.Prelude.{IfOk, IfErr, ◌≤◌};
ghost use Rattle.gw_main.specs.Conversations.{Converses, Fails};
ghost use Rattle.gw_main.specs.Files.{FileConverses, FileFails};

use crate::sharing::session_with;
use gw_io::read_all;
use gw_script::{Budget, Fault, Options, Over, ReadFault, Sink, Source, split_model};
use std::alloc::Global;
use std::sync::Wait;
use std::thread::Threads;

/// Takes the model off the reader, up to its line `end`, and answers the script that stands after it, beside so many
/// workers.
pub(crate) fn converse<R: Threads + Wait + Sync, S: Source, K: Sink>(
    rt: &R,
    alloc: Global,
    workers: u64,
    options: Options,
    reader: &mut S,
    writer: &mut K,
) -> Result<Over, Fault>
    requires { 1 ≤ options.every }
    ensures converses { IfOk result (Converses S.took S.ended S.failures K.wrote K.failures workers options reader.old
        reader.new writer.old writer.new) }
    ensures fails { IfErr result (Fails S.took S.ended S.failures K.wrote K.failures workers options reader.old
        reader.new writer.old writer.new) }
{
    let mut budget = Budget::new();
    let model = split_model(alloc, reader, &mut budget)?;
    session_with(rt, alloc, workers, &model, options, reader, writer)
}

/// Takes all of the model from the file that was opened, if it was, and answers the script that stands on the reader,
/// beside so many workers.
pub(crate) fn converse_over_file<R: Threads + Wait + Sync, F: Source + Drop, S: Source, K: Sink>(
    rt: &R,
    alloc: Global,
    workers: u64,
    options: Options,
    opened: Result<F, ReadFault>,
    reader: &mut S,
    writer: &mut K,
) -> Result<Over, Fault>
    requires { 1 ≤ options.every }
    ensures converses { IfOk result (FileConverses F.took F.ended F.failures S.took S.ended S.failures K.wrote
        K.failures workers options opened reader.old reader.new writer.old writer.new) }
    ensures fails { IfErr result (FileFails F.took F.ended F.failures S.took S.ended S.failures K.wrote
        K.failures workers options opened reader.old reader.new writer.old writer.new) }
{
    let mut file = opened?;
    let mut budget = Budget::new();
    let bytes = read_all(alloc, &mut file, &mut budget)?;
    session_with(rt, alloc, workers, &bytes, options, reader, writer)
}
