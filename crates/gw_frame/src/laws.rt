// Laws above the definitions of the run.
ghost use Rattle.gw_frame.specs.Alike.{UnseenEdit, UnseenStep};
ghost use Rattle.gw_frame.specs.BlockIds.{StatesNameBlocks, StepsReadBlocks};
ghost use Rattle.gw_frame.specs.Positions.{FrameInPositions};
ghost use Rattle.gw_frame.specs.Renamed.{HasRenaming, RenamedAnswers, RenamedStep, RenamedRun};
ghost use Rattle.gw_frame.specs.Reads.{RunAsksItsReads, UnseenStepReads, UnseenReads};
ghost use Rattle.gw_frame.specs.Seeds.{SeedIsReadAtFirstDraws};

/// A version that answers alike all that a run asked has the same run and is asked the same. So is each of its steps,
/// from whatever state.
pub fn unseen_edit()
    ensures run { UnseenEdit }
    ensures step { UnseenStep }
{}

/// What a run asked is what its steps read, one after another. A version that answers alike what the steps up to a
/// moment read comes to the same state at that moment, and its steps up to there read the same.
pub fn unseen_reads()
    ensures asked { RunAsksItsReads }
    ensures step { UnseenStepReads }
    ensures run { UnseenReads }
{}

/// A step of a run reads the seed just where a stream draws first in it.
pub fn seed_is_read_at_first_draws()
    ensures { SeedIsReadAtFirstDraws }
{}

/// A state of a run names no statement id but those of the version's blocks, and its steps read no other.
pub fn ids_are_blocks()
    ensures states { StatesNameBlocks }
    ensures steps { StepsReadBlocks }
{}

/// The frame law in positions: where a statement of a version is deleted, or one is inserted, and the other version
/// answers alike all that the steps below n read, the run of n steps, told in positions, is the old one with its
/// positions moved, and its steps read the old items moved.
pub fn frame_in_positions()
    ensures { FrameInPositions }
{}

/// Statement ids do not matter: where two versions have the same statements in order, each under an id of its own, one
/// is the other with its ids renamed, and so are its answers, its steps and its run.
pub fn renamed()
    ensures found { HasRenaming }
    ensures answers { RenamedAnswers }
    ensures step { RenamedStep }
    ensures run { RenamedRun }
{}
