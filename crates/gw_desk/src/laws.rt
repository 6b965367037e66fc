// Laws above the definitions that the contracts of the calls cite.
ghost use Rattle.gw_desk.specs.Anew.{SameAnswers, AnsweredAnew, FaultyAnew};
ghost use Rattle.gw_desk.specs.Headline.{ReportsAreOfPrinted, ReportsAreRight};
ghost use Rattle.gw_desk.specs.Points.{FindsPoints};
ghost use Rattle.gw_desk.specs.Telling.{AnswersTell, MissingAreTold, NoStartIsTold};

/// Every search for the point of a START finds what a point is: the first moment at which so many STARTs are complete,
/// or the moment at which the run ends during that START; or that the run ends before it, or goes on past the limit.
pub fn points_are_found()
    ensures { FindsPoints }
{}

/// What a query is answered is what the search found: the report of the point, of its state and of how the run stands
/// there; or that there is none, or none within the limit. A START or a replication that the version does not have is
/// told, the replication first.
pub fn answers_tell()
    ensures starts { AnswersTell }
    ensures no_start { NoStartIsTold }
    ensures no_replication { MissingAreTold }
{}

/// After any list of edits, queries and legs that [`Desk::play`](crate::Desk::play) played, each report handed out is,
/// byte for byte, the report of the version made anew from its statements, run from zero. So is every other answer of a
/// query, but that it may be out of memory, and that a peek may say that the recorded steps do not decide. A refused
/// edit leaves the version, and so does all that workers do. Of a desk whose model was read, each report is that of the
/// model that `list` prints: read anew, with the same horizon, replications and step limit, and run from zero.
pub fn reports_are_right()
    ensures anew { ReportsAreRight }
    ensures printed { ReportsAreOfPrinted }
{}

/// Statement ids do not matter: two versions with the same statements in order, whatever their ids, are answered alike
/// for every replication and START. So an edited version is answered as the version made anew from the statements that
/// `list` shows, which has a fault only where the edited one has.
pub fn numbers_do_not_matter()
    ensures alike { SameAnswers }
    ensures anew { AnsweredAnew }
    ensures faulty { FaultyAnew }
{}
