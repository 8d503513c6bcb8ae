//! What is promised of the lean form.
ghost use Rattle.lean.specs.Tests.{LeanTestsHaveWords, LeanTestsWritable, LeanTestsKept, LeanTestsCaught, LeanTestsCaughtEarly, LeanTestsFaults};
ghost use Rattle.lean.specs.Tests.{LeanTestsLanded, LeanTestsStrayed, LeanTestsDisplaced, LeanTestsAdrift, LeanTestsUndisturbed};
ghost use Rattle.lean.specs.Tests.{LeanTestsNoSilentSlip, LeanTestsClean};
ghost use Rattle.lean.specs.Tests.{LeanTestsPlaces, LeanTestsFaultsClean, LeanTestsNoWrongEnd};
ghost use Rattle.lean.specs.Woven.{LeanKept, LeanKeptInStep, LeanCaught, LeanCaughtEarly, LeanLanded, LeanStrayed, LeanDisplaced, LeanAdrift, LeanUndisturbed, LeanClean};

/// A plan of the form keeps the input's values, with a bound on the steps of the output for each step of the input, and
/// no check fires without changes.
pub fn lean_kept()
    ensures { LeanKept }
{}

/// In a plan of the form the output comes to the input's states in their order, each within the same bound, and ends
/// with the input's values in both halves.
pub fn lean_kept_in_step()
    ensures { LeanKeptInStep }
{}

/// In a plan of the form changes of original registers and data words at open places are caught within the bounds.
pub fn lean_caught()
    ensures { LeanCaught }
{}

/// Early changes, behind which the output goes on for the steps of its bounds, are caught within the bounds of early ones.
pub fn lean_caught_early()
    ensures { LeanCaughtEarly }
{}

/// In a plan of the form whose entries test the signature a jump from one entry to another fires.
pub fn lean_landed()
    ensures { LeanLanded }
{}

/// In a plan of the form whose entries test the signature, a run that strays into a block under the signature of
/// another one is over soon, if the block does not go on by a register.
pub fn lean_strayed()
    ensures { LeanStrayed }
{}

/// In a plan of the form a run at or in a block under the signature of another one is over, also where entries do not
/// test it: the next check, end or indirect jump does.
pub fn lean_displaced()
    ensures { LeanDisplaced }
{}

/// In a plan of the form a run with another number in x14 than the distance is over.
pub fn lean_adrift()
    ensures { LeanAdrift }
{}

/// In a plan of the form the duplicate half does not reach the original half: from the entry of a block on, a run whose
/// original half alone is the input's comes to the input's states, or is over.
pub fn lean_undisturbed()
    ensures { LeanUndisturbed }
{}

/// In a plan of the form with the sweep no change before it is silent at the end.
pub fn lean_clean()
    ensures { LeanClean }
{}

/// The lean form of an admitted test has words, where it has no more bytes than a JAL spans.
pub fn lean_tests_have_words()
    ensures { LeanTestsHaveWords }
{}

/// Within the limits the file of the lean form can be written.
pub fn lean_tests_writable()
    ensures { LeanTestsWritable }
{}

/// The file comes to the test's states in their order, with their values.
pub fn lean_tests_kept()
    ensures { LeanTestsKept }
{}

/// Changes in the file are caught.
pub fn lean_tests_caught()
    ensures { LeanTestsCaught }
{}

/// Early changes in the file are caught within the bounds of early ones.
pub fn lean_tests_caught_early()
    ensures { LeanTestsCaughtEarly }
{}

/// A wrong result of an instruction of the test is caught, as changes behind it.
pub fn lean_tests_faults()
    ensures { LeanTestsFaults }
{}

/// Where entries test the signature, a jump from one to another fires.
pub fn lean_tests_landed()
    ensures { LeanTestsLanded }
{}

/// If entries test the signature, a run that strays into a block under the signature of another one is over soon.
pub fn lean_tests_strayed()
    ensures { LeanTestsStrayed }
{}

/// So is one at or in a block under the signature of another one, with or without `land`.
pub fn lean_tests_displaced()
    ensures { LeanTestsDisplaced }
{}

/// So is one with another number in x14 than the distance.
pub fn lean_tests_adrift()
    ensures { LeanTestsAdrift }
{}

/// The duplicate half does not reach the original half.
pub fn lean_tests_undisturbed()
    ensures { LeanTestsUndisturbed }
{}

/// No single wrong instruction ends silently wrong.
pub fn lean_tests_no_silent_slip()
    ensures { LeanTestsNoSilentSlip }
{}

/// A store to other data words is caught.
pub fn lean_tests_places()
    ensures { LeanTestsPlaces }
{}

/// With the sweep no wrong instruction of the test before it is silent at the end.
pub fn lean_tests_faults_clean()
    ensures { LeanTestsFaultsClean }
{}

/// With the sweep no run with one wrong instruction ends wrong.
pub fn lean_tests_no_wrong_end()
    ensures { LeanTestsNoWrongEnd }
{}

/// With the sweep no change before it is silent at the end.
pub fn lean_tests_clean()
    ensures { LeanTestsClean }
{}
