// Laws above the report's text.
ghost use Rattle.gw_report.specs.Counted.{CountsEachOnce, LiesAsPrinted};
ghost use Rattle.gw_report.specs.Renamed.{RenamedText};

/// Statement ids do not show: the report of a version with its ids renamed, in the renamed state, is the
/// report, byte for byte.
pub fn renamed_text()
    ensures { RenamedText }
{}

/// The classes of a table together count each of its values once, and a class counts the values that lie within its
/// limits. That its line prints these limits is the definition's.
pub fn classes_hold()
    ensures once { CountsEachOnce }
    ensures printed { LiesAsPrinted }
{}
