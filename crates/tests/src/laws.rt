//! What the definitions say of each other.
ghost use Rattle.tests.specs.Admission.DataRanges.{DataRangesAreJoined};
ghost use Rattle.tests.specs.Admission.Refusals.{AdmissionHasOneAnswer};

/// A file is admitted exactly where no rule holds; each other file is refused by one rule, at one place.
pub fn admission_has_one_answer()
    ensures { AdmissionHasOneAnswer }
{}

/// The data ranges of a file are the one list of ranges that ascend with gaps between them and have the
/// addresses of its data segments, rounded out to aligned words.
pub fn data_ranges_are_joined()
    ensures { DataRangesAreJoined }
{}
