// Laws above the definition of how a line is read.
ghost use Rattle.gw_request.specs.Asking.{LinesAsk, OthersAreTold};

/// A line is read as a request of a command exactly where it is the command's word with what the table says after it.
/// The other lines are read as too long, as blank, as of no command or as of bad arguments exactly where they are that.
pub fn lines_ask()
    ensures asked { LinesAsk }
    ensures others { OthersAreTold }
{}
