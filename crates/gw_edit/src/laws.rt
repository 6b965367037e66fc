// The laws above the definitions of what an edit makes and touches.
ghost use Rattle.gw_edit.specs.Capacities.{CapacityTouchesWhatDiffers};
ghost use Rattle.gw_edit.specs.InPositions.{EditInPositions};
ghost use Rattle.gw_edit.specs.Outcomes.{EditsMake};
ghost use Rattle.gw_edit.specs.Spelled.{EditsAreSpelled};
ghost use Rattle.gw_edit.specs.Untouched.{TouchedDiffers, UntouchedAlike};

/// Each edit changes of a version what it names and leaves the rest: the changed version is made where it has no fault,
/// and refused for its first one, and where there is nothing to change it is refused for that. An insert or a change puts
/// the statement that its text spells, and is refused with the first fault of a text that spells none.
pub fn edits_make()
    ensures { EditsMake }
{}

/// What an edit does not touch, a version and its edited version answer alike, in each replication that both
/// have.
pub fn untouched()
    ensures { UntouchedAlike }
{}

/// What an edit touches, a version and its edited version answer in two ways, but for what is named: commands, what is
/// written otherwise and read as it was, what comes after a last block, what is asked of a storage that is inserted,
/// deleted or renamed, and times beyond both horizons.
pub fn touched_differs()
    ensures { TouchedDiffers }
{}

/// An edit of a capacity touches only what it would change: whatever it touches, the two versions answer in two ways.
pub fn capacity_touches_what_differs()
    ensures { CapacityTouchesWhatDiffers }
{}

/// The frame law in positions: after an edit that touches no step below n, the run of n steps is the same; told in
/// positions, it is the old one with its positions moved, and its steps read the old items moved.
pub fn edit_in_positions()
    ensures { EditInPositions }
{}

/// Where each statement of a version is spelled by some lines, as those of a model that was read, so is each of an
/// edited version.
pub fn edits_are_spelled()
    ensures { EditsAreSpelled }
{}
