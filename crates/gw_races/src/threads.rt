// Planners and workers on one model.
ghost use Rattle.std.specs.Prelude.{◌≡◌};

use crate::model::version;
use gw_bench::{Bench, BenchFault, Pass, Row, RowName};
use gw_desk::{Answer, Post};
use gw_edit::EditFault;
use gw_expr::Row as Text;
use gw_meaning::Edit;
use gw_model::Version;
use gw_serve::{Gate, serve};
use std::alloc::{AllocError, Global};
use std::cmp::Ordering as Order;
use std::marker::Brand;
use std::process::Abort;
use std::sync::Wait;
use std::sync::atomic::{AtomicU64, Ordering};
use std::test::Fail;
use std::thread::{self, Threads, join};

const MODEL: &str = "GENERATE 10\nADVANCE 3\nTERMINATE 1\nSTART 2\n";

// The report of the model, of its START 2.
const WHOLE: &str = "REPLICATION 1 SEED 1 START 1 COMPLETE

START TIME   END TIME     BLOCKS FACILITIES   STORAGES
         0         23          3          0          0

LABEL        LOC BLOCK TYPE ENTRY COUNT CURRENT COUNT  RETRY
               1 GENERATE             2             0      0
               2 ADVANCE              2             0      0
               3 TERMINATE            2             0      0

  FEC XN         PRI        BDT CURRENT    NEXT
       3           0         30       0       1
";

// The same where each transaction counts twice.
const HALF: &str = "REPLICATION 1 SEED 1 START 1 COMPLETE

START TIME   END TIME     BLOCKS FACILITIES   STORAGES
         0         13          3          0          0

LABEL        LOC BLOCK TYPE ENTRY COUNT CURRENT COUNT  RETRY
               1 GENERATE             1             0      0
               2 ADVANCE              1             0      0
               3 TERMINATE            1             0      0

  FEC XN         PRI        BDT CURRENT    NEXT
       2           0         20       0       1
";

fn is_report(answer: &Result<Answer, AllocError>, edits: u64, text: &str) -> bool {
    match answer {
        Ok(Answer::Ready(report)) => {
            report.edits == edits && report.text.as_slice() == text.as_bytes()
        }
        _ => false,
    }
}

fn is_unfinished(answer: &Result<Answer, AllocError>, steps: u64) -> bool {
    match answer {
        Ok(Answer::Unfinished { recorded }) => *recorded == steps,
        _ => false,
    }
}

// What is tried over a bench.
trait Case {
    fn over<N: RowName + Send + Sync, R: Threads + Wait + Abort + Sync>(
        rt: &R,
        alloc: Global,
        bench: &Bench<N>,
    ) -> Result<(), Fail>;
}

// Tries it over a bench of the model, with so many replications and states kept at each fourth step.
fn try_case<C: Case, R: Threads + Wait + Abort + Sync>(
    rt: &R,
    alloc: Global,
    replications: u64,
) -> Result<(), Fail> {
    let opening = version(alloc, MODEL, 1_000_000, replications).ok_or("no model")?;
    let row = Row::new(alloc)?;
    try_over::<Brand, C, R>(rt, alloc, row, opening)
}

fn try_over<N: RowName + Send + Sync, C: Case, R: Threads + Wait + Abort + Sync>(
    rt: &R,
    alloc: Global,
    row: Row,
    opening: Version,
) -> Result<(), Fail>
    requires row { row ≡ N.boxes }
    requires opening { opening ≡ N.opening }
{
    let bench: Bench<N> = Bench::new(alloc, row, opening, 4)?;
    let tried = C::over(rt, alloc, &bench);
    drop(bench);
    tried
}

// TERMINATE 2 in place of TERMINATE 1.
fn halved(alloc: Global) -> Result<Edit, AllocError> {
    Ok(Edit::Change {
        place: 3,
        text: Text::from_vec(Vec::from_slice(alloc, b"TERMINATE 2")?),
    })
}

// One pass is told of what another put into the row.
struct Shared;

impl Case for Shared {
    fn over<N: RowName + Send + Sync, R: Threads + Wait + Abort + Sync>(
        rt: &R,
        alloc: Global,
        bench: &Bench<N>,
    ) -> Result<(), Fail> {
        let mut one = bench.pass()?;
        let mut other = bench.pass()?;
        let mut third = bench.pass()?;
        assert!(rt; bench.edit(&mut one, halved(alloc)?).ok() == Some(1));
        assert!(rt; bench.versions(&mut one).ok() == Some(1));
        assert!(rt; is_unfinished(&bench.peek(rt, &mut one, 1, 1), 0));
        assert!(rt; is_report(&bench.finish(rt, &mut other, 1, 1), 1, HALF));
        assert!(rt; bench.compare(&one, &other) == Order::Equal);
        assert!(rt; bench.compare(&third, &other) == Order::Less);
        assert!(rt; bench.versions(&mut third).ok() == Some(1));
        // What was finished for one is there for all.
        assert!(rt; is_report(&bench.peek(rt, &mut one, 1, 1), 1, HALF));
        Ok(())
    }
}

#[test]
fn shared_peek_after_finish(rt: HostRuntime) -> Result<(), Fail> {
    try_case::<Shared, _>(&rt, rt.alloc(), 1)
}

// A leg is worked while the bench answers others.
struct InHand;

impl Case for InHand {
    fn over<N: RowName + Send + Sync, R: Threads + Wait + Abort + Sync>(
        rt: &R,
        alloc: Global,
        bench: &Bench<N>,
    ) -> Result<(), Fail> {
        let mut one = bench.pass()?;
        let mut other = bench.pass()?;
        let mut leg = bench.take(rt, &mut other, 1)?.ok_or("no leg")?;
        assert!(rt; leg.work(alloc, 15).ok() == Some(15));
        assert!(rt; is_unfinished(&bench.peek(rt, &mut one, 1, 1), 0));
        assert!(rt; matches!(bench.post(rt, leg), Ok(Post::Posted)));
        assert!(rt; is_report(&bench.peek(rt, &mut one, 1, 1), 0, WHOLE));
        Ok(())
    }
}

#[test]
fn leg_in_hand(rt: HostRuntime) -> Result<(), Fail> {
    try_case::<InHand, _>(&rt, rt.alloc(), 1)
}

// An edit that is refused stands in no box.
struct Refused;

impl Case for Refused {
    fn over<N: RowName + Send + Sync, R: Threads + Wait + Abort + Sync>(
        rt: &R,
        _alloc: Global,
        bench: &Bench<N>,
    ) -> Result<(), Fail> {
        let mut one = bench.pass()?;
        let refused = bench.edit(&mut one, Edit::Delete { place: 9 });
        assert!(rt; refused == Err(BenchFault::Refused(EditFault::NoSuchPlace, 0)));
        let mut other = bench.pass()?;
        assert!(rt; bench.versions(&mut other).ok() == Some(0));
        assert!(rt; bench.versions(&mut one).ok() == Some(0));
        Ok(())
    }
}

#[test]
fn refused_puts_nothing(rt: HostRuntime) -> Result<(), Fail> {
    try_case::<Refused, _>(&rt, rt.alloc(), 1)
}

// A gate that lets workers work, and ends those that find nothing.
#[derive(Drop)]
struct Ending;

impl Gate for Ending {
    fn working(&self, _worker: u64, _replication: u64) -> bool {
        true
    }

    fn idle(&self, _worker: u64) -> bool {
        false
    }
}

// Whether the reports of two replications are there.
fn are_ready<N: RowName, R: Wait + Abort>(rt: &R, bench: &Bench<N>) -> Result<(), Fail> {
    let mut pass = bench.pass()?;
    for replication in [1, 2] {
        let answer = bench.peek(rt, &mut pass, replication, 1)?;
        assert!(rt;
            matches!(answer, Answer::Ready(_)),
            "replication {replication}"
        );
    }
    Ok(())
}

// What workers posted stays.
fn stays<N: RowName + Send + Sync, R: Threads + Wait + Abort + Sync>(
    rt: &R,
    alloc: Global,
    row: Row,
    opening: Version,
) -> Result<(), Fail>
    requires row { row ≡ N.boxes }
    requires opening { opening ≡ N.opening }
{
    let bench: Bench<N> = Bench::new(alloc, row, opening, 4)?;
    serve(rt, alloc, &bench, 2, 4, &Ending);
    let ready = are_ready(rt, &bench);
    drop(bench);
    ready
}

#[test]
fn served_runs_stay(rt: HostRuntime) -> Result<(), Fail> {
    let row = Row::new(rt.alloc())?;
    let opening = version(rt.alloc(), MODEL, 1_000_000, 2).ok_or("no model")?;
    stays::<Brand, _>(&rt, rt.alloc(), row, opening)
}

// A gate that lets no worker go before both have come, with different replications.
#[derive(Drop)]
struct Meeting {
    // The replication that each came with.
    came: [AtomicU64; 2],
    // How often one looks for the other.
    patience: u64,
}

impl Meeting {
    fn new(patience: u64) -> Meeting {
        Meeting {
            came: [AtomicU64::new(0), AtomicU64::new(0)],
            patience,
        }
    }

    fn other(&self, worker: u64) -> u64 {
        match self.came.get(1_usize.saturating_sub(worker as usize)) {
            Some(came) => came.load(Ordering::SeqCst),
            None => 0,
        }
    }
}

impl Gate for Meeting {
    fn working(&self, worker: u64, replication: u64) -> bool {
        if let Some(came) = self.came.get(worker as usize) {
            came.store(replication, Ordering::SeqCst);
        }
        for _ in 0..self.patience {
            let other = self.other(worker);
            if other != 0 {
                return other != replication;
            }
            thread::yield_now();
        }
        false
    }

    fn idle(&self, _worker: u64) -> bool {
        false
    }
}

// Two workers have legs at once.
fn at_once<N: RowName + Send + Sync, R: Threads + Wait + Abort + Sync>(
    rt: &R,
    alloc: Global,
    row: Row,
    opening: Version,
) -> Result<(), Fail>
    requires row { row ≡ N.boxes }
    requires opening { opening ≡ N.opening }
{
    let bench: Bench<N> = Bench::new(alloc, row, opening, 4)?;
    let gate = Meeting::new(10_000_000);
    serve(rt, alloc, &bench, 2, 20, &gate);
    let ready = are_ready(rt, &bench);
    drop(bench);
    ready
}

#[test]
fn two_legs_at_once(rt: HostRuntime) -> Result<(), Fail> {
    let row = Row::new(rt.alloc())?;
    let opening = version(rt.alloc(), MODEL, 1_000_000, 2).ok_or("no model")?;
    at_once::<Brand, _>(&rt, rt.alloc(), row, opening)
}

// A worker that meets nobody at the gate makes no step: so would each of two that take turns.
fn alone<N: RowName + Send + Sync, R: Threads + Wait + Abort + Sync>(
    rt: &R,
    alloc: Global,
    row: Row,
    opening: Version,
) -> Result<(), Fail>
    requires row { row ≡ N.boxes }
    requires opening { opening ≡ N.opening }
{
    let bench: Bench<N> = Bench::new(alloc, row, opening, 4)?;
    let gate = Meeting::new(1_000);
    serve(rt, alloc, &bench, 1, 20, &gate);
    let unmade = is_unmade(rt, &bench);
    drop(bench);
    unmade
}

// Whether no step of the first replication is recorded.
fn is_unmade<N: RowName, R: Wait + Abort>(rt: &R, bench: &Bench<N>) -> Result<(), Fail> {
    let mut pass = bench.pass()?;
    assert!(rt; is_unfinished(&bench.peek(rt, &mut pass, 1, 1), 0));
    Ok(())
}

#[test]
fn a_worker_that_meets_nobody(rt: HostRuntime) -> Result<(), Fail> {
    let row = Row::new(rt.alloc())?;
    let opening = version(rt.alloc(), MODEL, 1_000_000, 2).ok_or("no model")?;
    alone::<Brand, _>(&rt, rt.alloc(), row, opening)
}

// Of two who delete the last statement, one finds it gone.
fn last_gone<N: RowName + Send + Sync, R: Threads + Wait + Abort + Sync>(
    rt: &R,
    alloc: Global,
    row: Row,
    opening: Version,
) -> Result<(), Fail>
    requires row { row ≡ N.boxes }
    requires opening { opening ≡ N.opening }
{
    let bench: Bench<N> = Bench::new(alloc, row, opening, 4)?;
    let (one, other) = join(rt, || deleted(&bench), || deleted(&bench));
    let gone = Err(BenchFault::Refused(EditFault::NoSuchPlace, 1));
    assert!(rt; (one == Ok(1) && other == gone) || (other == Ok(1) && one == gone));
    drop(bench);
    Ok(())
}

fn deleted<N: RowName>(bench: &Bench<N>) -> Result<u64, BenchFault> {
    let mut pass = bench.pass()?;
    bench.edit(&mut pass, Edit::Delete { place: 4 })
}

#[test]
fn two_delete_one_statement(rt: HostRuntime) -> Result<(), Fail> {
    let row = Row::new(rt.alloc())?;
    let opening = version(rt.alloc(), MODEL, 1_000_000, 1).ok_or("no model")?;
    last_gone::<Brand, _>(&rt, rt.alloc(), row, opening)
}

// The edits of two threads have all numbers, each once.
fn numbered<N: RowName + Send + Sync, R: Threads + Wait + Abort + Sync>(
    rt: &R,
    alloc: Global,
    row: Row,
    opening: Version,
) -> Result<(), Fail>
    requires row { row ≡ N.boxes }
    requires opening { opening ≡ N.opening }
{
    let bench: Bench<N> = Bench::new(alloc, row, opening, 4)?;
    let (one, other) = join(
        rt,
        || seeded(alloc, &bench, 0),
        || seeded(alloc, &bench, 100),
    );
    let all = are_all(rt, &bench, one, other);
    drop(bench);
    all
}

// The numbers of a hundred edits.
fn seeded<N: RowName>(alloc: Global, bench: &Bench<N>, from: u64) -> Option<Vec<u64>> {
    let mut pass = bench.pass().ok()?;
    let mut numbers = Vec::new(alloc);
    for seed in 1..=100_u64 {
        let edit = Edit::Seed {
            replication: 1,
            seed: from.saturating_add(seed),
        };
        numbers.push(bench.edit(&mut pass, edit).ok()?).ok()?;
    }
    Some(numbers)
}

// Whether the numbers of two threads are 1 to 200, and a new pass sees as many edits.
fn are_all<N: RowName, R: Abort>(
    rt: &R,
    bench: &Bench<N>,
    one: Option<Vec<u64>>,
    other: Option<Vec<u64>>,
) -> Result<(), Fail> {
    let one = one.ok_or("the first edits")?;
    let other = other.ok_or("the second edits")?;
    assert!(rt; one.len() == 100 && other.len() == 100);
    for number in 1..=200 {
        assert!(rt;
            one.contains(&number) != other.contains(&number),
            "{number}"
        );
    }
    let mut fresh = bench.pass()?;
    assert!(rt; bench.versions(&mut fresh).ok() == Some(200));
    Ok(())
}

#[test]
fn two_hundred_seeds(rt: HostRuntime) -> Result<(), Fail> {
    let row = Row::new(rt.alloc())?;
    let opening = version(rt.alloc(), MODEL, 1_000_000, 1).ok_or("no model")?;
    numbered::<Brand, _>(&rt, rt.alloc(), row, opening)
}

// A row is full after 4,096 edits.
struct Full;

impl Case for Full {
    fn over<N: RowName + Send + Sync, R: Threads + Wait + Abort + Sync>(
        rt: &R,
        _alloc: Global,
        bench: &Bench<N>,
    ) -> Result<(), Fail> {
        let mut pass = bench.pass()?;
        for time in 1..=4_096 {
            assert!(rt;
                bench.edit(&mut pass, Edit::Horizon { time }) == Ok(time),
                "{time}"
            );
        }
        let more = bench.edit(&mut pass, Edit::Horizon { time: 4_097 });
        assert!(rt; more == Err(BenchFault::HistoryFull));
        assert!(rt; bench.versions(&mut pass).ok() == Some(4_096));
        assert!(rt; is_report(&bench.finish(rt, &mut pass, 1, 1), 4_096, WHOLE));
        Ok(())
    }
}

#[test]
fn a_full_row(rt: HostRuntime) -> Result<(), Fail> {
    try_case::<Full, _>(&rt, rt.alloc(), 1)
}
