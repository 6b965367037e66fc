// Laws above the definitions of faults.
ghost use Rattle.gw_model.specs.FirstFaults.{FirstAreFound, FoundAreFirst, NoneAreLeft};

/// The fault of a version is the first of those that it has, and one without has none.
pub fn first_faults_are_found()
    ensures found { FoundAreFirst }
    ensures first { FirstAreFound }
    ensures none { NoneAreLeft }
{}
