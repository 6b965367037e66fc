// Which move a step is: the next command's, or what comes of the block that the active transaction tries; where none is
// active, the scan's. The course takes it.
ghost use Rattle.std.specs.Prelude.{◌≡◌};
ghost use Rattle.gw_meaning.specs.Step.{move_prog};
ghost use Rattle.gw_scan.specs.Courses.{Goes};

use crate::attempt::attempt;
use crate::commands::decide_command;
use crate::course::Course;
use crate::hand_on::hand_on;
use gw_asking::{Notes, Run};
use gw_expr::Halt;

// The next move is taken; or it is told why none follows.
#[inline(always)]
pub fn go_on<C: Course>(course: &mut C, run: Run, notes: &mut Notes) -> Result<(), Halt>
    ensures { Goes C.makes run.entry.version.now run.entry.seed
        (move_prog (C.machine course.old) (C.machine course.old).remaining)
        result course.old course.new notes.old notes.new }
{
    if course.state().remaining() == 0 {
        return command(course, run, notes);
    }
    attempt(course, run, notes)
}

// No START is under way: the next command is taken. It stands apart, so that a step of a transaction keeps no room for
// its move.
#[cold]
#[inline(never)]
fn command<C: Course>(course: &mut C, run: Run, notes: &mut Notes) -> Result<(), Halt>
    requires { (C.machine course.old).remaining ≡ 0 }
    ensures { Goes C.makes run.entry.version.now run.entry.seed
        (move_prog (C.machine course.old) (C.machine course.old).remaining)
        result course.old course.new notes.old notes.new }
{
    hand_on(
        decide_command(course.state(), run, notes),
        course,
        run,
        notes,
    )
}
