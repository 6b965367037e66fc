// What was decided is handed on.
ghost use Rattle.gw_scan.specs.Courses.{CanBeMade, Taken};

use crate::course::Course;
use gw_asking::{Notes, Run};
use gw_expr::Halt;
use gw_meaning::Move;

// The course takes the move that was decided; or it is told why there is none.
#[inline(always)]
pub(crate) fn hand_on<C: Course>(
    decided: Result<Move, Halt>,
    course: &mut C,
    run: Run,
    notes: &Notes,
) -> Result<(), Halt>
    requires { CanBeMade (C.machine course.old) decided }
    ensures { Taken C.makes decided notes.now.streams result course.old course.new }
{
    let to = decided?;
    course.take(run.alloc, to, notes.streams())?;
    Ok(())
}
