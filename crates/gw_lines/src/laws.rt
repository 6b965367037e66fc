// Laws above the definitions of reading.
ghost use Rattle.gw_lines.specs.Cuts.{CutsAtBars, CutsAtCommas, CutsAtLineFeeds};
ghost use Rattle.gw_lines.specs.Printed.{ModelsAreSpelled, PrintedEdits, PrintedModels, PrintedSpells, StoragesSpell};
ghost use Rattle.gw_lines.specs.Read.{EditsAreRead, EditsAreRefused, ModelsAreRead, ModelsAreRefused};

/// A model is read as what it spells, and refused with its first faulty line.
pub fn models_are_read()
    ensures read { ModelsAreRead }
    ensures refused { ModelsAreRefused }
{}

/// An edit's text is read as the statement that it spells, and refused with its first fault.
pub fn edits_are_read()
    ensures read { EditsAreRead }
    ensures refused { EditsAreRefused }
{}

/// Operands are cut at commas, the lines of a model at line feeds, with a carriage return before one dropped, and those
/// of an edit's text at bars.
pub fn texts_are_cut()
    ensures commas { CutsAtCommas }
    ensures line_feeds { CutsAtLineFeeds }
    ensures bars { CutsAtBars }
{}

/// What `list` prints of a statement that was read is read as that statement, as the text of an edit, and among the
/// lines of a model, where each `|` ends a line. Of a statement of one line it is that line, without a `|`. So is a
/// storage whose capacity is in decimal digits.
pub fn printed_is_read()
    ensures line { PrintedSpells }
    ensures edit { PrintedEdits }
    ensures model { PrintedModels }
    ensures spelled { ModelsAreSpelled }
    ensures storage { StoragesSpell }
{}
