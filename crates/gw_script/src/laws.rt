// Laws above the definitions of what a model opens, of what `list` prints and of what a session says.
ghost use Rattle.gw_script.specs.Opening.{OpenedIsSpelled};
ghost use Rattle.gw_script.specs.Played.{SessionsPlay};
ghost use Rattle.gw_script.specs.Printing.{ListsShowStatements};

/// Each statement of a version that a model opens is spelled by some lines, so that the headline speaks of the model
/// that `list` prints ([`gw_desk::reports_are_right`]).
pub fn opened_is_spelled()
    ensures { OpenedIsSpelled }
{}

/// What `list` prints is, after the number of statements, each statement after its place: the very text of the model
/// of which the headline speaks. It hangs on no statement's number.
pub fn lists_show_statements()
    ensures { ListsShowStatements }
{}

/// What a [`session`](crate::session) says over its desk are the bytes of the replies to one list of events that the
/// desk plays, in order. Each of these replies is right: a report is that of the model that `list` prints, read anew
/// and run from zero.
pub fn sessions_play()
    ensures { SessionsPlay }
{}
