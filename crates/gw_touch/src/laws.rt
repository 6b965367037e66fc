// The laws above the definition of what an edit touches.
ghost use Rattle.gw_touch.specs.TouchedAlike.{TouchesWhatDiffers};
ghost use Rattle.gw_touch.specs.Touches.{TouchesExactly};

/// What an edit touches, case by case: the probes are of exactly that.
pub fn touches_exactly()
    ensures { TouchesExactly }
{}

/// An edit touches only what a version and its edited version answer in two ways, but for what is named: commands,
/// which count as changed whatever stands in their place; what is written otherwise and read as it was; what comes after
/// a last block; what is asked of a storage that is inserted, deleted or renamed; and times beyond both horizons.
pub fn touches_what_differs()
    ensures { TouchesWhatDiffers }
{}
