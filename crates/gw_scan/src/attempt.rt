// The active transaction tries a block: it meets the one that it goes to, and what its verb decides is handed on at
// once, so that it is taken where it is known which kind of move it is.
ghost use Rattle.std.specs.Prelude.{◌≡◌, ◌<◌, option_copied};
ghost use Rattle.gw_meaning.specs.Statements.{operand};
ghost use Rattle.gw_meaning.specs.Step.{buffer_prog, mark_prog, scan_prog};
ghost use Rattle.gw_asking.specs.Noted.{Noted};
ghost use Rattle.gw_asking.specs.Deciding.{Decides};
ghost use Rattle.gw_scan.specs.Courses.{Goes, IsNext, met_by};

use crate::course::Course;
use crate::hand_on::hand_on;
use crate::scanning::decide_scan;
use gw_asking::{Notes, Run, ask_block, ask_next};
use gw_expr::{Expr, Halt, Stop};
use gw_meaning::operands::{A, B, C, D, E};
use gw_meaning::{Block, Move, StatementId};
use gw_names::BlockVerb;
use gw_values::{Context, for_one};
use gw_verbs::{
    decide_advance, decide_assign, decide_buffer, decide_depart, decide_enter, decide_gate,
    decide_generate, decide_leave, decide_link, decide_logic, decide_loop, decide_mark,
    decide_priority, decide_queue, decide_release, decide_savevalue, decide_seize, decide_split,
    decide_tabulate, decide_terminate, decide_test, decide_transfer, decide_unlink,
};

// The active transaction tries the block that it goes to, or else the one after its own; where none is active, the
// scan goes on.
pub(crate) fn attempt<R: Course>(course: &mut R, run: Run, notes: &mut Notes) -> Result<(), Halt>
    requires { 0 < (R.machine course.old).remaining }
    ensures { Goes R.makes run.entry.version.now run.entry.seed
        (scan_prog (R.machine course.old) (R.machine course.old).active)
        result course.old course.new notes.old notes.new }
{
    let Some(x) = course.state().active() else {
        return hand_on(decide_scan(course.state(), run, notes), course, run, notes);
    };
    let Some(id) = ask_next(run.version, notes, x)? else {
        return Err(Halt::stop(Stop::NoNextBlock));
    };
    match ask_block(run.version, notes, id)? {
        Some(block) => meet(course, run, notes, id, block),
        None => Err(Halt::stop(Stop::NoNextBlock)),
    }
}

// It meets a block.
fn meet<R: Course>(
    course: &mut R,
    run: Run,
    notes: &mut Notes,
    id: StatementId,
    block: &Block,
) -> Result<(), Halt>
    ghost before: { Noted }
    requires next { IsNext run.version.now run.seed (R.machine course.old)
        (met_by (R.machine course.old) (R.machine course.old).active id block.now) }
    requires before { notes.old ≡ before }
    ensures { Goes R.makes run.entry.version.now run.entry.seed
        (met_by (R.machine course.old) (R.machine course.old).active id block.now)
        result course.old course.new before notes.new }
{
    let state = course.state();
    let Some(x) = state.active() else {
        return Err(Halt::stop(Stop::NoNextBlock));
    };
    let asker = &for_one(state, x);
    let context = Context { state, asker, run };
    let beside = block.auxiliary;
    match block.verb {
        BlockVerb::Generate => {
            let to = decide_generate(
                context,
                notes,
                x,
                id,
                a(block),
                b(block),
                d(block),
                e(block),
            );
            hand_on_met(to, course, run, notes, id, block)
        }
        BlockVerb::Advance => {
            let to = decide_advance(context, notes, id, a(block), b(block));
            hand_on_met(to, course, run, notes, id, block)
        }
        BlockVerb::Terminate => {
            let to = decide_terminate(context, notes, id, a(block));
            hand_on_met(to, course, run, notes, id, block)
        }
        BlockVerb::Queue => {
            let to = decide_queue(context, notes, id, a(block), b(block));
            hand_on_met(to, course, run, notes, id, block)
        }
        BlockVerb::Depart => {
            let to = decide_depart(context, notes, x, id, a(block), b(block));
            hand_on_met(to, course, run, notes, id, block)
        }
        BlockVerb::Seize => {
            let to = decide_seize(context, notes, id, a(block));
            hand_on_met(to, course, run, notes, id, block)
        }
        BlockVerb::Release => {
            let to = decide_release(context, notes, x, id, a(block));
            hand_on_met(to, course, run, notes, id, block)
        }
        BlockVerb::Enter => {
            let to = decide_enter(context, notes, id, a(block), b(block));
            hand_on_met(to, course, run, notes, id, block)
        }
        BlockVerb::Leave => {
            let to = decide_leave(context, notes, id, a(block), b(block));
            hand_on_met(to, course, run, notes, id, block)
        }
        BlockVerb::Transfer => {
            let to = decide_transfer(run, notes, id, a(block), b(block), c(block));
            hand_on_met(to, course, run, notes, id, block)
        }
        BlockVerb::Test => {
            let to = decide_test(context, notes, id, beside, a(block), b(block), c(block));
            hand_on_met(to, course, run, notes, id, block)
        }
        BlockVerb::Gate => {
            let to = decide_gate(context, notes, id, beside, a(block), b(block));
            hand_on_met(to, course, run, notes, id, block)
        }
        BlockVerb::Logic => {
            let to = decide_logic(context, notes, id, beside, a(block));
            hand_on_met(to, course, run, notes, id, block)
        }
        BlockVerb::Savevalue => {
            let to = decide_savevalue(context, notes, id, beside, a(block), b(block));
            hand_on_met(to, course, run, notes, id, block)
        }
        BlockVerb::Tabulate => {
            let to = decide_tabulate(context, notes, id, a(block));
            hand_on_met(to, course, run, notes, id, block)
        }
        BlockVerb::Split => {
            let to = decide_split(context, notes, id, a(block), b(block));
            hand_on_met(to, course, run, notes, id, block)
        }
        BlockVerb::Link => {
            let to = decide_link(context, notes, id, a(block), b(block));
            hand_on_met(to, course, run, notes, id, block)
        }
        BlockVerb::Unlink => {
            let to = decide_unlink(context, notes, id, a(block), b(block), c(block));
            hand_on_met(to, course, run, notes, id, block)
        }
        BlockVerb::Mark => {
            let to = mark(run, notes, id);
            hand_on_met(to, course, run, notes, id, block)
        }
        BlockVerb::Priority => {
            let to = decide_priority(context, notes, id, a(block));
            hand_on_met(to, course, run, notes, id, block)
        }
        BlockVerb::Buffer => {
            let to = buffer(run, notes, id);
            hand_on_met(to, course, run, notes, id, block)
        }
        BlockVerb::Assign => {
            let to = decide_assign(context, notes, id, beside, a(block), b(block));
            hand_on_met(to, course, run, notes, id, block)
        }
        BlockVerb::Loop => {
            let to = decide_loop(context, notes, id, a(block), b(block));
            hand_on_met(to, course, run, notes, id, block)
        }
    }
}

// The operands of a block, from A on.
#[inline(always)]
fn a(block: &Block) -> Option<&Expr>
    ensures { option_copied result ≡ operand block.now 0 }
{
    block.operand(A)
}

#[inline(always)]
fn b(block: &Block) -> Option<&Expr>
    ensures { option_copied result ≡ operand block.now 1 }
{
    block.operand(B)
}

#[inline(always)]
fn c(block: &Block) -> Option<&Expr>
    ensures { option_copied result ≡ operand block.now 2 }
{
    block.operand(C)
}

#[inline(always)]
fn d(block: &Block) -> Option<&Expr>
    ensures { option_copied result ≡ operand block.now 3 }
{
    block.operand(D)
}

#[inline(always)]
fn e(block: &Block) -> Option<&Expr>
    ensures { option_copied result ≡ operand block.now 4 }
{
    block.operand(E)
}

// A MARK and a BUFFER neither ask nor draw.
#[inline(always)]
fn mark(run: Run, notes: &Notes, id: StatementId) -> Result<Move, Halt>
    ensures { Decides run.entry.version.now run.entry.seed (mark_prog id) result notes.now notes.now }
{
    decide_mark(id)
}

#[inline(always)]
fn buffer(run: Run, notes: &Notes, id: StatementId) -> Result<Move, Halt>
    ensures { Decides run.entry.version.now run.entry.seed (buffer_prog id) result notes.now notes.now }
{
    decide_buffer(id)
}

// What its verb decided is handed on.
#[inline(always)]
fn hand_on_met<R: Course>(
    decided: Result<Move, Halt>,
    course: &mut R,
    run: Run,
    notes: &Notes,
    id: StatementId,
    block: &Block,
) -> Result<(), Halt>
    ghost before: { Noted }
    requires next { IsNext run.version.now run.seed (R.machine course.old)
        (met_by (R.machine course.old) (R.machine course.old).active id block.now) }
    requires met { Decides run.version.now run.seed
        (met_by (R.machine course.old) (R.machine course.old).active id block.now) decided before notes.now }
    ensures { Goes R.makes run.entry.version.now run.entry.seed
        (met_by (R.machine course.old) (R.machine course.old).active id block.now)
        result course.old course.new before notes.now }
{
    hand_on(decided, course, run, notes)
}
