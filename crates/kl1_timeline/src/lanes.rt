// The lanes of a run, and what one of them does to another.

use crate::drawn::{Arrow, Bar, Lane};
use kl1_user_events::ShoenNo;
use std::alloc::{AllocError, Global};
use std::collections::HashMap;

/// The most lanes that are drawn.
pub const MOST_LANES: usize = 40;

/// Lanes, the times in which their goals couldn't step, and what one lane did to another.
#[derive(Drop)]
pub struct Lanes {
    pub lanes: Vec<Lane>,
    /// How many lanes more there are.
    pub left_out: u64,
    pub bars: Vec<Bar>,
    pub arrows: Vec<Arrow>,
    /// The lanes of goals; `MOST_LANES` for one that isn't drawn.
    places: HashMap<u64, usize>,
}

impl Lanes {
    /// No lane.
    pub fn new(alloc: Global) -> Self {
        Lanes {
            lanes: Vec::new(alloc),
            left_out: 0,
            bars: Vec::new(alloc),
            arrows: Vec::new(alloc),
            places: HashMap::new(alloc),
        }
    }

    /// Whether a goal has a lane, be it drawn or not.
    pub fn has(&self, goal: u64) -> bool {
        self.places.contains_key(&goal)
    }

    /// The lane of a goal, if it is drawn.
    pub fn place_of(&self, goal: u64) -> Option<usize> {
        let place = *self.places.get(&goal)?;
        if place < self.lanes.len() {
            Some(place)
        } else {
            None
        }
    }

    /// Begins a lane for a goal, unless there are enough.
    pub fn open(
        &mut self,
        goal: u64,
        label: Vec<u8>,
        shoen: ShoenNo,
        begin: u64,
    ) -> Result<(), AllocError> {
        let place = if self.lanes.len() < MOST_LANES {
            self.lanes.push(Lane {
                label,
                shoen: shoen.0,
                begin,
                end: None,
                alive: 1,
            })?;
            self.lanes.len().saturating_sub(1)
        } else {
            self.left_out = self.left_out.saturating_add(1);
            MOST_LANES
        };
        let _before = self.places.insert(goal, place)?;
        Ok(())
    }

    /// Puts a goal into a lane.
    pub fn join(&mut self, goal: u64, place: usize) -> Result<(), AllocError> {
        let _before = self.places.insert(goal, place)?;
        if let Some(lane) = self.lanes.get_mut(place) {
            lane.alive = lane.alive.saturating_add(1);
        }
        Ok(())
    }

    /// Takes a goal that is gone out of its lane, which ends if it was the last.
    pub fn leave(&mut self, goal: u64, step: u64) {
        if let Some(place) = self.places.remove(&goal) {
            if let Some(lane) = self.lanes.get_mut(place) {
                lane.alive = lane.alive.saturating_sub(1);
                if lane.alive == 0 && lane.end.is_none() {
                    lane.end = Some(step);
                }
            }
        }
    }

    /// Puts that a lane made the lane of a goal, if both are drawn.
    pub fn fork(&mut self, parent: Option<usize>, goal: u64, step: u64) -> Result<(), AllocError> {
        if let (Some(from), Some(to)) = (parent, self.place_of(goal)) {
            self.arrows.push(Arrow {
                from,
                to,
                step,
                woken: None,
            })?;
        }
        Ok(())
    }

    /// Begins a time in which a goal can't step.
    pub fn wait(&mut self, goal: u64, step: u64) -> Result<(), AllocError> {
        if let Some(lane) = self.place_of(goal) {
            self.bars.push(Bar {
                lane,
                goal,
                begin: step,
                end: None,
            })?;
        }
        Ok(())
    }

    /// Ends the time in which a goal couldn't step.
    pub fn wake(&mut self, goal: u64, step: u64, place: Option<usize>) -> Result<(), AllocError> {
        for bar in &mut self.bars {
            if bar.goal == goal && bar.end.is_none() {
                bar.end = Some(step);
            }
        }
        if let (Some(from), Some(to)) = (place, self.place_of(goal)) {
            if from != to {
                self.arrows.push(Arrow {
                    from,
                    to,
                    step,
                    woken: Some(goal),
                })?;
            }
        }
        Ok(())
    }

    /// Ends the lanes of a shoen whose goals are gone.
    pub fn end_all(&mut self, shoen: ShoenNo, step: u64) {
        for (place, lane) in self.lanes.iter_mut().enumerate() {
            if lane.shoen == shoen.0 && lane.end.is_none() {
                lane.end = Some(step);
                for bar in &mut self.bars {
                    if bar.lane == place && bar.end.is_none() {
                        bar.end = Some(step);
                    }
                }
            }
        }
    }
}
