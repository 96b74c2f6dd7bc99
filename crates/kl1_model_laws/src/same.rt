//! Laws of passive equality.
ghost use Rattle.kl1_model.specs.laws.Clashes.{ClashesAreOnPaths, SameIsEqual, DiffersIsOnPath, CompareIsEqual, CompareIsOnPath};
ghost use Rattle.kl1_model.specs.laws.CompareLaws.{CompareStays, CompareWaits, CompareIsParts};
ghost use Rattle.kl1_model.specs.laws.SameLaws.{SameStays, DiffersStays, UnknownWaits, UnknownStays, AllSameStays, SomeDifferStays, AllUnknownWaits, AllUnknownStays};

/// Two terms clash if some path of argument numbers leads in both to a constant or structure and these differ. It does nothing: its
/// contract is this law.
pub fn clashes_are_on_paths()
    ensures { ClashesAreOnPaths }
{}

/// Passive equality says that two terms are the same if they are equal, and that they differ if they clash. It does nothing: its
/// contract is this law.
pub fn passive_equality_is_by_paths()
    ensures same { SameIsEqual }
    ensures differs { DiffersIsOnPath }
{}

/// What passive equality says of two terms, or of a list of them, holds whatever takes the place of their variables; if it leaves
/// the answer open, it names a variable, and the answer stays open until a variable that it names is replaced. It does nothing: its
/// contract is this law.
pub fn open_answers_wait_for_named_variables()
    ensures same { SameStays }
    ensures differs { DiffersStays }
    ensures waits { UnknownWaits }
    ensures stays { UnknownStays }
    ensures all_same { AllSameStays }
    ensures some_differ { SomeDifferStays }
    ensures all_wait { AllUnknownWaits }
    ensures all_stay { AllUnknownStays }
{}

/// A comparison answers yes if the terms are equal, and no if some path of argument numbers leads in both to a constant or
/// structure and these differ. It does nothing: its contract is this law.
pub fn comparisons_are_by_paths()
    ensures yes { CompareIsEqual }
    ensures no { CompareIsOnPath }
{}

/// What a comparison answers stays until a variable that it waits for is replaced, yes and no for good; one that waits names a
/// variable; and it is that of its parts. It does nothing: its contract is this law.
pub fn comparisons_wait_for_named_variables()
    ensures stays { CompareStays }
    ensures waits { CompareWaits }
    ensures parts { CompareIsParts }
{}
