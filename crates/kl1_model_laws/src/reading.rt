// What reading and printing keep.

ghost use Rattle.kl1_model.specs.laws.ReadLaws.{ExpressionsAreSound, ExpressionsAreComplete, ExpressionsAreUnambiguous, ClausesAreSound, ClausesAreComplete, ClausesAreUnambiguous, FrontsLeaveLess, StepsAreEnough, TokensGoOn, ReaderStepsAreEnough, ExpressionsLeaveLess, ExpressionsGoOn, SumsGoOn, ProductsGoOn, SeriesGoOn, BodiesGoOn, ClausesGoOn, PrintsArePlain, PrintsAreTokens, PrintsAreTerms, PrintedGoalsReadBack, PrintingIsOneToOne, GoalsReadArePrintable, StrictTextsArePrints, ClausesAreNumbered, ClausesAreGuarded};
ghost use Rattle.kl1_model_laws.specs.ReadRows.{AppHasBytes, AppIsRead, TestIsBad, LongNameIsRead, LongerNameIsBad, LongVariableIsRead, LongerVariableIsBad, DotInsideIsBad, CommentsAreBad, GoalIsRead, LeastIsRead, TooLargeIsBad, LooseMinusIsBad};
ghost use Rattle.kl1_model_laws.specs.ReadFaults.{FirstLineOfItem, EndIsMissing, ByteIsBroken, CommentIsBroken, QuoteIsOpen, HeadRepeats, HeadIsOperator, HeadIsTrue, ClausesStandApart, ModuleIsShoen, ModuleIsEmpty, GoalIsUnqualified, GoalIsQualified, UnderscoresDiffer, SpellingsAreOne, ArgumentsAreTooMany, DepthIsRead, DepthIsTooLarge, ClausesAreRead, ClausesAreTooMany};

/// The reader reads what the grammar writes, and nothing else: the tokens that it reads as a tree are that tree's,
/// and each tree is read from its tokens. It does nothing: its contract is this law.
pub fn reader_reads_the_grammar()
    ensures expressions_sound { ExpressionsAreSound }
    ensures expressions_complete { ExpressionsAreComplete }
    ensures expressions_unambiguous { ExpressionsAreUnambiguous }
    ensures clauses_sound { ClausesAreSound }
    ensures clauses_complete { ClausesAreComplete }
    ensures clauses_unambiguous { ClausesAreUnambiguous }
{}

/// The tokens of a text need no count of steps: each front leaves less of the text, more steps than bytes give the same
/// tokens, and so the tokens are what the front makes of those after it. It does nothing: its contract is this law.
pub fn tokens_go_on()
    ensures less { FrontsLeaveLess }
    ensures enough { StepsAreEnough }
    ensures step { TokensGoOn }
{}

/// The reader needs no count of steps: an expression leaves fewer tokens, more steps than tokens read the same, and so
/// expressions, sums, products, series, bodies and clauses are read from whole expressions inside them. It does nothing: its
/// contract is this law.
pub fn expressions_go_on()
    ensures enough { ReaderStepsAreEnough }
    ensures less { ExpressionsLeaveLess }
    ensures expression { ExpressionsGoOn }
    ensures sum { SumsGoOn }
    ensures product { ProductsGoOn }
    ensures series { SeriesGoOn }
    ensures body { BodiesGoOn }
    ensures clause { ClausesGoOn }
{}

/// A printed goal reads back as the goal that was printed, with the same numbers of variables; the print of any printable
/// term stands on one line and reads as that term, and so no two of them have one print. It does nothing: its contract is this law.
pub fn printed_goal_reads_back()
    ensures plain { PrintsArePlain }
    ensures tokens { PrintsAreTokens }
    ensures terms { PrintsAreTerms }
    ensures goals { PrintedGoalsReadBack }
    ensures one_to_one { PrintingIsOneToOne }
{}

/// A goal that was read has its variables numbered by first occurrence, so it can be read from its print; a text is of the
/// strict form exactly if it is such a print. It does nothing: its contract is this law.
pub fn strict_texts_are_prints()
    ensures read { GoalsReadArePrintable }
    ensures strict { StrictTextsArePrints }
{}

/// The variables of each clause of a module that was read are numbered from 1 by first occurrence, those of the head first. It does
/// nothing: its contract is this law.
pub fn clauses_are_numbered()
    ensures { ClausesAreNumbered }
{}

/// The guard of each clause of a module that was read has variables of its head alone. It does nothing: its contract is this law.
pub fn clauses_are_guarded()
    ensures { ClausesAreGuarded }
{}

/// Some texts with what they are, computed from the definitions. It does nothing: this is its contract.
pub fn worked_texts()
    ensures bytes { AppHasBytes }
    ensures app { AppIsRead }
    ensures test { TestIsBad }
    ensures long_name { LongNameIsRead }
    ensures longer_name { LongerNameIsBad }
    ensures long_variable { LongVariableIsRead }
    ensures longer_variable { LongerVariableIsBad }
    ensures dot { DotInsideIsBad }
    ensures comments { CommentsAreBad }
    ensures goal { GoalIsRead }
    ensures least { LeastIsRead }
    ensures too_large { TooLargeIsBad }
    ensures loose_minus { LooseMinusIsBad }
{}

/// Some texts that are bad, and the good ones next to them, computed from the definitions. It does nothing: this is its contract.
pub fn worked_faults()
    ensures line { FirstLineOfItem }
    ensures end { EndIsMissing }
    ensures byte { ByteIsBroken }
    ensures comment { CommentIsBroken }
    ensures quote { QuoteIsOpen }
    ensures repeats { HeadRepeats }
    ensures operator { HeadIsOperator }
    ensures head_true { HeadIsTrue }
    ensures apart { ClausesStandApart }
    ensures shoen { ModuleIsShoen }
    ensures empty { ModuleIsEmpty }
    ensures unqualified { GoalIsUnqualified }
    ensures qualified { GoalIsQualified }
    ensures underscores { UnderscoresDiffer }
    ensures spellings { SpellingsAreOne }
    ensures arguments { ArgumentsAreTooMany }
    ensures deep { DepthIsRead }
    ensures deeper { DepthIsTooLarge }
    ensures clauses { ClausesAreRead }
    ensures more_clauses { ClausesAreTooMany }
{}
