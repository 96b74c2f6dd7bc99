//! Laws of verdicts and of what goals wait for.
ghost use Rattle.kl1_model.specs.laws.WaitsLaws.{RejectsStays, RejectsNeverAccepts, AcceptsStays, SuspendsStays, SuspendsWaits, CandidatesAreOpen, ClausesStay, HeadStays, TermStays, ControlStays, SubstitutesStay};
ghost use Rattle.kl1_model.specs.laws.VerdictLaws.{VerdictsAnswer, AcceptsPlaces, VerdictsName};
ghost use Rattle.kl1_model.specs.laws.PlainLaws.{ComparisonsStand, TestsStand, MatchesStand, VerdictsStand};
ghost use Rattle.kl1_model_laws.specs.SectionLaws.{SectionsAreInOrder, CandidatesOfModulesAreOpen, CandidatesOfCallsAreOpen};

/// What a clause says of a goal stays until a variable that it names is replaced. It accepts a goal for good, and rejects it for
/// good if it names none: while the match waits, a test may reject the goal by a place that isn't the first of its variable,
/// and then the match's variables are named, since the clause may come to suspend. One that rejects never comes to accept. A
/// clause that suspends names a variable, if its guard has variables of the head alone. It does nothing: its contract is this law.
pub fn verdicts_wait_for_named_variables()
    ensures rejects { RejectsStays }
    ensures never { RejectsNeverAccepts }
    ensures accepts { AcceptsStays }
    ensures suspends { SuspendsStays }
    ensures waits { SuspendsWaits }
{}

/// A verdict with what goes with it has the answer of its clause; if it accepts, then with the terms at the places that the match
/// reaches; and it names the variables that the clause waits for. It does nothing: its contract is this law.
pub fn verdicts_name_places_and_variables()
    ensures answers { VerdictsAnswer }
    ensures places { AcceptsPlaces }
    ensures names { VerdictsName }
{}

/// Answers without the variables that they wait for are what they were defined as before answers named these: of comparisons, of
/// tests, of matches, with their places, and of verdicts, in whose tests variables had other numbers. It does nothing: its contract
/// is this law.
pub fn answers_are_what_they_were()
    ensures comparisons { ComparisonsStand }
    ensures tests { TestsStand }
    ensures matches { MatchesStand }
    ensures verdicts { VerdictsStand }
{}

/// The candidates of a goal are the clauses that accept it and above whose nearest `otherwise` each clause rejects it: of clauses
/// whose sections are in order; of the clauses of each predicate of a module that was read; and so of each call in each account,
/// whatever was done to it since it was fresh. It does nothing: its contract is this law.
pub fn candidates_stand_in_an_open_section()
    ensures clauses { CandidatesAreOpen }
    ensures sections { SectionsAreInOrder }
    ensures modules { CandidatesOfModulesAreOpen }
    ensures calls { CandidatesOfCallsAreOpen }
{}

/// The clause by which a goal can step, and the variables that it waits for, stay until one of these is replaced; and so does
/// what it calls, but for its arguments. It does nothing: its contract is this law.
pub fn goals_wait_for_named_variables()
    ensures clauses { ClausesStay }
    ensures head { HeadStays }
    ensures term { TermStays }
{}

/// What a monitor reads stays, but for the rest of the stream, until the variable that it waits for is replaced. It does nothing:
/// its contract is this law.
pub fn monitors_wait_for_one_variable()
    ensures { ControlStays }
{}

/// What is found of the term that a substitute waits for stays until the variable that it waits for is replaced. It does nothing:
/// its contract is this law.
pub fn substitutes_wait_for_one_variable()
    ensures { SubstitutesStay }
{}
