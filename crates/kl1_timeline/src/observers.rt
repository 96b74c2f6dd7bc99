// Observers of one run.

use crate::timeline::Timeline;
use kl1_command::{UnbookedHost, Views};
use kl1_trace_work::{NewGoal, Next, Observer, Predicates, Profile, Seen, Trace};
use std::alloc::AllocError;
use std::io::Write;

/// What is told of the steps of a run: a trace, a profile, a picture.
#[derive(Drop)]
pub struct Observers<'a, W> {
    pub trace: Option<Trace<'a, W>>,
    pub profile: Option<Profile>,
    pub timeline: Option<Timeline>,
}

impl<W> Observers<'_, W> {
    /// Whether it matters who wakes.
    pub fn is_waking(&self) -> bool {
        self.trace.is_some() || self.timeline.is_some()
    }
}

impl<H: UnbookedHost + Views, W: Write + Drop> Observer<H> for Observers<'_, W> {
    fn wants_text(&self, predicates: &Predicates, step: &Next) -> bool {
        if let Some(trace) = &self.trace {
            if trace.may_tell(predicates, step) {
                return true;
            }
        }
        match &self.timeline {
            Some(timeline) => timeline.may_draw(predicates, step),
            None => false,
        }
    }

    fn see(
        &mut self,
        host: &mut H,
        predicates: &Predicates,
        seen: &Seen,
    ) -> Result<bool, AllocError> {
        let is_traced = trace_step(&mut self.trace, host, predicates, seen)?;
        let is_counted = count_step(&mut self.profile, seen)?;
        let is_drawn = draw_step(&mut self.timeline, host, predicates, seen)?;
        Ok(is_traced || is_counted || is_drawn)
    }
}

/// Has a step told, if there is a trace. Answers whether later steps may be told.
fn trace_step<H: Views, W: Write + Drop>(
    trace: &mut Option<Trace<'_, W>>,
    host: &mut H,
    predicates: &Predicates,
    seen: &Seen,
) -> Result<bool, AllocError> {
    match trace {
        Some(trace) => trace.take(host, predicates, seen),
        None => Ok(false),
    }
}

/// Has a step counted, if there is a profile. Answers whether there is.
fn count_step(profile: &mut Option<Profile>, seen: &Seen) -> Result<bool, AllocError> {
    match profile {
        Some(profile) => {
            profile.take(seen)?;
            Ok(true)
        }
        None => Ok(false),
    }
}

/// Has goals drawn that are there at the beginning, or that came up otherwise than in a step, if there is a picture: after this step.
pub fn draw_new<H: Views>(
    timeline: &mut Option<Timeline>,
    host: &mut H,
    predicates: &Predicates,
    goals: &[NewGoal],
    step: u64,
) -> Result<(), AllocError> {
    match timeline {
        Some(timeline) => timeline.begin(host, predicates, goals, step),
        None => Ok(()),
    }
}

/// Has a step drawn, if there is a picture. Answers whether later steps may be drawn.
fn draw_step<H: Views>(
    timeline: &mut Option<Timeline>,
    host: &mut H,
    predicates: &Predicates,
    seen: &Seen,
) -> Result<bool, AllocError> {
    match timeline {
        Some(timeline) => timeline.take(host, predicates, seen),
        None => Ok(false),
    }
}
