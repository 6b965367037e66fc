// A session alone, or beside workers.
ghost use Rattle.std.specs.Prelude.{◌≡◌, ◌⊎◌, ◌≤◌, List, [], IfOk, IfErr};
ghost use Rattle.gw_meaning.specs.declared.edit.Edit.{Edit};
ghost use Rattle.gw_desk.specs.Book.{Book};
ghost use Rattle.gw_script.specs.declared.fault.Fault.TheVariants as faults;
ghost use Rattle.gw_script.specs.Opening.{Opens, Refuses};
ghost use Rattle.gw_script.specs.Sessions.{Serves, Stops};
ghost use Rattle.gw_main.specs.Sharing.{IsServed, IsStopped, SeatAnswers};

use crate::gate::Open;
use gw_bench::{Bench, Row, RowName, Seat};
use gw_model::Version;
use gw_script::{Fault, Options, Over, Sink, Source, open_version, session, session_on};
use gw_serve::serve;
use std::alloc::Global;
use std::marker::Brand;
use std::sync::Wait;
use std::thread::{Threads, join_mut};

/// Opens a model and answers a script over it: alone, or beside so many workers. Where the model is refused, or memory
/// for the bench that workers want, nothing is read or written.
pub(crate) fn session_with<R: Threads + Wait + Sync, S: Source, K: Sink>(
    rt: &R,
    alloc: Global,
    workers: u64,
    model: &[u8],
    options: Options,
    source: &mut S,
    sink: &mut K,
) -> Result<Over, Fault>
    requires { 1 ≤ options.every }
    ensures serves { IfOk result (λ over. (b : Book) × Opens model.now options b ×
        IsServed S.took S.ended S.failures K.wrote K.failures workers b source.old source.new sink.old sink.new over) }
    ensures stops { IfErr result (λ fault.
        (Refuses model.now options fault × (source.new ≡ source.old) × (sink.new ≡ sink.old))
        ⊎ ((b : Book) × Opens model.now options b × IsStopped S.took S.ended S.failures K.wrote K.failures workers b
        source.old source.new sink.old sink.new fault)) }
{
    if workers == 0 {
        return session(alloc, model, options, source, sink);
    }
    let version = open_version(alloc, model, options)?;
    let Ok(row) = Row::new(alloc) else {
        return Err(Fault::Memory);
    };
    beside::<Brand, R, S, K>(
        rt,
        alloc,
        workers,
        options.every,
        row,
        version,
        source,
        sink,
    )
}

// Answers a script over a seat of a new bench, while so many workers make steps. Where memory is refused for the bench
// or the seat, nothing is read or written.
fn beside<N: RowName + Send + Sync, R: Threads + Wait + Sync, S: Source, K: Sink>(
    rt: &R,
    alloc: Global,
    workers: u64,
    every: u64,
    row: Row,
    opening: Version,
    source: &mut S,
    sink: &mut K,
) -> Result<Over, Fault>
    requires every { 1 ≤ every }
    requires row { row ≡ N.boxes }
    requires opening { opening ≡ N.opening }
    ensures serves { IfOk result (λ over. (after : List Edit) ×
        Serves (SeatAnswers N.opening) S.took S.ended S.failures K.wrote K.failures [] source.old source.new
        sink.old sink.new after over) }
    ensures stops { IfErr result (λ fault.
        ((fault ≡ faults.Memory) × (source.new ≡ source.old) × (sink.new ≡ sink.old))
        ⊎ ((after : List Edit) × Stops (SeatAnswers N.opening) S.took S.ended S.failures K.wrote
        K.failures [] source.old source.new sink.old sink.new after fault)) }
{
    let Ok(bench) = Bench::<N>::new(alloc, row, opening, every) else {
        return Err(Fault::Memory);
    };
    let gate = Open::new(rt);
    with_workers(rt, alloc, workers, &bench, &gate, source, sink)
}

// Runs the workers, and answers the script in this thread. Where no thread can be made for the workers, they come after
// the session, and end at once.
fn with_workers<'x, N: RowName + Send + Sync, R: Threads + Wait + Sync, S: Source, K: Sink>(
    rt: &'x R,
    alloc: Global,
    workers: u64,
    bench: &'x Bench<N>,
    gate: &'x Open<'x, R>,
    source: &'x mut S,
    sink: &'x mut K,
) -> Result<Over, Fault>
    ensures serves { IfOk result (λ over. (after : List Edit) ×
        Serves (SeatAnswers N.opening) S.took S.ended S.failures K.wrote K.failures [] source.old source.new
        sink.old sink.new after over) }
    ensures stops { IfErr result (λ fault.
        ((fault ≡ faults.Memory) × (source.new ≡ source.old) × (sink.new ≡ sink.old))
        ⊎ ((after : List Edit) × Stops (SeatAnswers N.opening) S.took S.ended S.failures K.wrote
        K.failures [] source.old source.new sink.old sink.new after fault)) }
{
    let ((), over) = join_mut(
        rt,
        &mut || serve(rt, alloc, bench, workers, bench.every(), gate),
        &mut || -> Result<Over, Fault>
            ensures serves { IfOk result (λ over. (after : List Edit) ×
                Serves (SeatAnswers N.opening) S.took S.ended S.failures K.wrote K.failures []
                source.entry.now source.exit.now sink.entry.now sink.exit.now after over) }
            ensures stops { IfErr result (λ fault.
                ((fault ≡ faults.Memory) × (source.exit.now ≡ source.entry.now) × (sink.exit.now ≡ sink.entry.now))
                ⊎ ((after : List Edit) × Stops (SeatAnswers N.opening) S.took S.ended S.failures K.wrote K.failures []
                source.entry.now source.exit.now sink.entry.now sink.exit.now after fault)) }
        { seated(rt, alloc, bench, gate, source, sink) },
    );
    over
}

// Answers a script over a seat of the bench, and closes the gate.
fn seated<N: RowName, R: Wait, S: Source, K: Sink>(
    rt: &R,
    alloc: Global,
    bench: &Bench<N>,
    gate: &Open<'_, R>,
    source: &mut S,
    sink: &mut K,
) -> Result<Over, Fault>
    ensures serves { IfOk result (λ over. (after : List Edit) ×
        Serves (SeatAnswers N.opening) S.took S.ended S.failures K.wrote K.failures [] source.old source.new
        sink.old sink.new after over) }
    ensures stops { IfErr result (λ fault.
        ((fault ≡ faults.Memory) × (source.new ≡ source.old) × (sink.new ≡ sink.old))
        ⊎ ((after : List Edit) × Stops (SeatAnswers N.opening) S.took S.ended S.failures K.wrote
        K.failures [] source.old source.new sink.old sink.new after fault)) }
{
    let Ok(pass) = bench.unread_pass() else {
        gate.close();
        return Err(Fault::Memory);
    };
    let mut seat = Seat::new(rt, bench, pass);
    let over = session_on(alloc, &mut seat, source, sink);
    gate.close();
    over
}
