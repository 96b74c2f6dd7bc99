//! Laws of shoens: of their tree, of what they are charged, of how they end, and of their control streams.
ghost use Rattle.kl1_model.specs.laws.TreeLaws.{PathsGoOn, PathsFollowParents, FreshIsTree, TreesStay, HeldBackBelow, ChargesPath, ReductionsCharge, MonitorsChargeNobody, OthersChargeNobody, FreshIsOfLiving, EndedHaveNoGoals, RefusalsChangeNothing, AbortEndsAllBelow, AbortRemovesAllBelow, TerminationsEnd, TerminationsEndAlone, EndingHaveNoGoals, ReachedGoOn};
ghost use Rattle.kl1_model_laws.specs.AllowanceLaws.{ReductionsHaveAllowance, ReductionsStayWithin, NoneIsChargedMore};
ghost use Rattle.kl1_model_laws.specs.ControlLaws.{ControlTailsAreUnbound, ControlStreamsAreMessages};
ghost use Rattle.kl1_model_laws.specs.EndingLaws.{EndingAreDue, DueTerminate, DueTerminateAlone, NoneIsLeftDue, NoneIsLeftDueAlone, LivingHaveGoals};
ghost use Rattle.kl1_model_laws.specs.GoalLaws.{GoalsAreFew};

/// The path of a shoen is that shoen and then the path of its parent: by its place, if parents have lesser numbers, and by its
/// number, if shoens are a tree. They are one in a fresh account, and after each event. It does nothing: its contract is this law.
pub fn paths_go_on()
    ensures paths { PathsGoOn }
    ensures parents { PathsFollowParents }
    ensures fresh { FreshIsTree }
    ensures stay { TreesStay }
{}

/// Goals in and below a shoen that is stopped, has ended or is exhausted are not enabled. It does nothing: its contract is this
/// law.
pub fn goals_are_held_back_below()
    ensures { HeldBackBelow }
{}

/// A reduction of a goal charges its shoen and each of its ancestors one more, and no other shoen, whatever comes of it. What a
/// monitor reads charges nobody, and neither does any other event. It does nothing: its contract is this law.
pub fn reductions_charge_their_path()
    ensures path { ChargesPath }
    ensures reductions { ReductionsCharge }
    ensures monitors { MonitorsChargeNobody }
    ensures others { OthersChargeNobody }
{}

/// A goal is reduced only if each shoen on its path was charged less than its allowance, and if shoens are a tree, as
/// `paths_go_on` says of each account, none of them is charged more than its allowance then. So no shoen of an account was charged
/// more than its allowance, whichever rules the account keeps to, and whatever was done to it since it was fresh. It does nothing:
/// its contract is this law.
pub fn reductions_stay_within_allowances()
    ensures before { ReductionsHaveAllowance }
    ensures after { ReductionsStayWithin }
    ensures most { NoneIsChargedMore }
{}

/// An account has at most as many goals alive as its rules allow, whatever was done to it since it was fresh. It does
/// nothing: its contract is this law.
pub fn goals_alive_are_few()
    ensures { GoalsAreFew }
{}

/// Goals and monitors are of living shoens, in a fresh account and after each event: a shoen that has ended has none. It does
/// nothing: its contract is this law.
pub fn ended_shoens_have_no_goals()
    ensures fresh { FreshIsOfLiving }
    ensures stay { EndedHaveNoGoals }
{}

/// An event that is refused changes nothing. It does nothing: its contract is this law.
pub fn refusals_change_nothing()
    ensures { RefusalsChangeNothing }
{}

/// An abort ends a shoen and all that live below it as aborted, and no other, and takes all goals and monitors in it and below it
/// away, and no other. It does nothing: its contract is this law.
pub fn abort_ends_all_below()
    ensures lives { AbortEndsAllBelow }
    ensures goals { AbortRemovesAllBelow }
{}

/// After a reduction those shoens of the path terminate, and no other, that live and have no goal and no living child when those
/// before them have ended, and none such is left; those report before that they are exhausted that were charged just what they may
/// be, and don't end now. It does nothing: its contract is this law.
pub fn terminations_end_shoens_without_goals()
    ensures charged { TerminationsEnd }
    ensures alone { TerminationsEndAlone }
    ensures goals { EndingHaveNoGoals }
    ensures due { EndingAreDue }
    ensures terminate { DueTerminate }
    ensures terminate_alone { DueTerminateAlone }
    ensures left { NoneIsLeftDue }
    ensures left_alone { NoneIsLeftDueAlone }
    ensures reached { ReachedGoOn }
{}

/// Each living shoen of an account has a goal or a living child, whichever rules the account keeps to, and whatever was done to it
/// since it was fresh, so that none is left idle. It does nothing: its contract is this law.
pub fn living_shoens_have_goals()
    ensures { LivingHaveGoals }
{}

/// The tail of the control stream that the console keeps of a shoen is unbound, whichever rules the account keeps to, and whatever
/// was done to it since it was fresh; and what the shoen's monitor has still to read is messages, and then that tail. It does
/// nothing: its contract is this law.
pub fn control_tails_are_unbound()
    ensures tails { ControlTailsAreUnbound }
    ensures streams { ControlStreamsAreMessages }
{}
