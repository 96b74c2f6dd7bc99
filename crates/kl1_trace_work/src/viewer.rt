// What looks at an account before and after each step.

use crate::changes::{Shoens, changed_among, last_of, raised_among};
use crate::predicates::{Predicates, is_monitor};
use crate::prints::{is_cut, variables_of};
use crate::seen::{NewGoal, Next, Observer, Seen};
use crate::waits::{ALL, Waits};
use kl1_command::{UnbookedHost, Views};
use kl1_user_events::{ClauseNo, Extent, GoalNo, GoalView, ShoenNo, ShoenView, Usage};
use std::alloc::{AllocError, Global};

/// The most bytes of the text of a goal that an observer looks at.
pub const MOST_TEXT: usize = 400;

/// What came of a step that was tried.
#[derive(Clone, Copy)]
pub enum Watched {
    /// It was done, and more are wanted.
    More,
    /// It was done, and no more are wanted.
    Enough,
    /// It was refused, or no goal can step.
    Refused,
}

/// What looks at an account before and after each step, for an observer.
#[derive(Drop)]
pub struct Viewer<O> {
    alloc: Global,
    pub observer: O,
    pub predicates: Predicates,
    /// The goals that were there at the beginning.
    pub begun: Vec<NewGoal>,
    /// How many steps were seen.
    pub number: u64,
    /// The greatest number of a goal so far.
    pub last_goal: u64,
    /// How many reports were made before the step.
    reports: u64,
    shoens: Vec<ShoenView>,
    /// The goals that can't step, unless who wakes doesn't matter.
    waits: Option<Waits>,
}

/// What is known before a step.
#[derive(Drop)]
struct Before {
    step: Next,
    text: Option<Vec<u8>>,
    is_built_in: bool,
}

/// What became in a step of what was there before it.
#[derive(Drop)]
struct Others {
    woken: Vec<GoalNo>,
    shoens: Shoens,
}

impl<O: Drop> Viewer<O> {
    /// What looks at an account as it is now; at who wakes only if that matters.
    pub fn new<H: Views>(
        alloc: Global,
        host: &mut H,
        observer: O,
        is_waking: bool,
    ) -> Result<Self, AllocError> {
        let mut viewer = Viewer {
            alloc,
            observer,
            predicates: Predicates::new(alloc)?,
            begun: Vec::new(alloc),
            number: 0,
            last_goal: 0,
            reports: 0,
            shoens: Vec::new(alloc),
            waits: if is_waking {
                Some(Waits::new(alloc))
            } else {
                None
            },
        };
        viewer.begun = viewer.look_anew(host)?;
        Ok(viewer)
    }

    /// Looks at an account in which something else than a step was done. Answers the goals that are new.
    pub fn look_anew<H: Views>(&mut self, host: &mut H) -> Result<Vec<NewGoal>, AllocError> {
        let new = host.goals_from(GoalNo(self.last_goal.saturating_add(1)), ALL)?;
        self.reports = host.usage().reports.count;
        self.shoens = host.shoens_from(ShoenNo(0), ALL)?;
        if let Some(waits) = &mut self.waits {
            let mut woken = Vec::new(self.alloc);
            waits.look_at_all(host, self.last_goal, &mut woken)?;
            waits.take(host, new.as_slice())?;
        }
        self.last_goal = last_of(new.as_slice(), self.last_goal);
        self.predicates.take(host, new.as_slice())
    }

    /// What became of the shoens in a step, of which reports were made if something did.
    fn look_at_shoens<H: Views>(&mut self, host: &H) -> Result<Shoens, AllocError> {
        let shoens = host.shoens_from(ShoenNo(0), ALL)?;
        let opened = shoens.as_slice().get(self.shoens.len()..).unwrap_or(&[]);
        let seen = Shoens {
            opened: Vec::from_slice(self.alloc, opened)?,
            changed: changed_among(self.alloc, self.shoens.as_slice(), shoens.as_slice())?,
        };
        self.shoens = shoens;
        Ok(seen)
    }

    /// The goals that a step woke: of those that were there, and if not all may have been, of those that wait for a variable of its goal.
    fn woken_by<H: Views>(
        &mut self,
        host: &H,
        before: &Before,
        all: bool,
    ) -> Result<Vec<GoalNo>, AllocError> {
        let mut woken = Vec::new(self.alloc);
        let Some(waits) = &mut self.waits else {
            return Ok(woken);
        };
        if !all && !before.is_built_in {
            return Ok(woken);
        }
        let variables = match &before.text {
            Some(text) if !all && !is_cut(text.as_slice()) => {
                Some(variables_of(self.alloc, text.as_slice())?)
            }
            _ => None,
        };
        match variables {
            Some(variables) => waits.look(host, variables.as_slice(), &mut woken)?,
            None => waits.look_at_all(host, self.last_goal, &mut woken)?,
        }
        woken.sort_by_key(|goal: &GoalNo| goal.0)?;
        Ok(woken)
    }
}

/// The goal of a number, as it is now, if there is one.
fn view_of<H: Views>(host: &H, goal: GoalNo) -> Result<Option<GoalView>, AllocError> {
    match host.goals_from(goal, 1)?.as_slice() {
        [view, ..] if view.number.0 == goal.0 => Ok(Some(*view)),
        _ => Ok(None),
    }
}

/// As much of the text of a goal as is wanted, if it is.
fn text_if<H: Views>(
    host: &mut H,
    goal: GoalNo,
    wanted: Option<Extent>,
) -> Result<Option<Vec<u8>>, AllocError> {
    match wanted {
        Some(extent) => host.goal_text(goal, extent),
        None => Ok(None),
    }
}

impl<O> Viewer<O> {
    /// Whether a goal of the predicate of a place is built in.
    fn is_built_in(&self, place: usize) -> bool {
        match self.predicates.called(place) {
            Some(called) => called.module.is_none(),
            None => false,
        }
    }
}

/// What is known before a step; `None` if there is no such goal.
fn look_before<H: UnbookedHost + Views, O: Observer<H> + Drop>(
    viewer: &Viewer<O>,
    host: &mut H,
    goal: GoalNo,
    clause: ClauseNo,
) -> Result<Option<Before>, AllocError> {
    let Some(view) = view_of(host, goal)? else {
        return Ok(None);
    };
    let step = Next {
        number: viewer.number.saturating_add(1),
        goal: view,
        predicate: viewer.predicates.of(goal),
        clause,
    };
    let is_built_in = viewer.is_built_in(step.predicate);
    let is_waking = is_built_in && viewer.waits.is_some();
    let is_wanted = is_waking || viewer.observer.wants_text(&viewer.predicates, &step);
    let wanted = if is_wanted {
        Some(viewer.predicates.extent_of(step.predicate, MOST_TEXT))
    } else {
        None
    };
    let text = text_if(host, goal, wanted)?;
    Ok(Some(Before {
        step,
        text,
        is_built_in,
    }))
}

impl<O: Drop> Viewer<O> {
    /// What became in a step of the shoens and goals that were there before it. `goals` are new, and are looked at from now on.
    fn look_at_others<H: Views>(
        &mut self,
        host: &H,
        before: &Before,
        goals: &[GoalView],
        usage: &Usage,
    ) -> Result<Others, AllocError> {
        let is_told = is_monitor(&before.step.goal)
            || usage.reports.count != self.reports
            || usage.shoens.count != self.shoens.len() as u64;
        let shoens = if is_told {
            self.look_at_shoens(host)?
        } else {
            Shoens {
                opened: Vec::new(self.alloc),
                changed: Vec::new(self.alloc),
            }
        };
        let woken = self.woken_by(host, before, is_told)?;
        if let Some(waits) = &mut self.waits {
            waits.take(host, goals)?;
        }
        self.reports = usage.reports.count;
        Ok(Others { woken, shoens })
    }

    /// What is seen of a step that was done.
    fn look_after<H: Views>(&mut self, host: &mut H, before: Before) -> Result<Seen, AllocError> {
        let goals = host.goals_from(GoalNo(self.last_goal.saturating_add(1)), ALL)?;
        let usage = host.usage();
        let others = self.look_at_others(host, &before, goals.as_slice(), &usage)?;
        self.last_goal = last_of(goals.as_slice(), self.last_goal);
        self.number = before.step.number;
        let Before { step, text, .. } = before;
        let new = self.predicates.take_after(host, &step, goals.as_slice())?;
        Ok(Seen {
            step,
            text,
            raised: raised_among(new.as_slice()) as u64,
            new,
            woken: others.woken,
            opened: others.shoens.opened,
            changed: others.shoens.changed,
            alive: usage.goals.count,
        })
    }
}

/// Reduces a goal by a clause, and has that seen.
pub fn watch_step<H: UnbookedHost + Views, O: Observer<H> + Drop>(
    host: &mut H,
    goal: GoalNo,
    clause: ClauseNo,
    viewer: &mut Viewer<O>,
) -> Result<Watched, AllocError> {
    let Some(before) = look_before(viewer, host, goal, clause)? else {
        return Ok(Watched::Refused);
    };
    match host.reduce(goal, clause) {
        Ok(None) => {
            let seen = viewer.look_after(host, before)?;
            let goes = viewer.observer.see(host, &viewer.predicates, &seen)?;
            if goes {
                Ok(Watched::More)
            } else {
                Ok(Watched::Enough)
            }
        }
        Ok(Some(_refusal)) => Ok(Watched::Refused),
        Err(error) => Err(error),
    }
}

/// Does the first step, and has it seen.
pub fn watch_once<H: UnbookedHost + Views, O: Observer<H> + Drop>(
    host: &mut H,
    viewer: &mut Viewer<O>,
) -> Result<Watched, AllocError> {
    let Some((goal, clause)) = host.pick() else {
        return Ok(Watched::Refused);
    };
    watch_step(host, goal, clause, viewer)
}

/// Does first steps, at most `most`, and has each seen; ends if none can be done, or no more are wanted. Answers what came of the last.
pub fn watch_first<H: UnbookedHost + Views, O: Observer<H> + Drop>(
    host: &mut H,
    most: u64,
    viewer: &mut Viewer<O>,
) -> Result<Watched, AllocError> {
    for _ in 0..most {
        let watched = watch_once(host, viewer)?;
        match watched {
            Watched::More => {}
            Watched::Enough => return Ok(Watched::Enough),
            Watched::Refused => return Ok(Watched::Refused),
        }
    }
    Ok(Watched::More)
}
