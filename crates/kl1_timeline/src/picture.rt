// Lanes as a picture.

use crate::drawn::{Arrow, Bar, Dot, Lane, Mark, Report};
use crate::lanes::MOST_LANES;
use crate::svg::{LEGEND, STYLE, put_escaped, put_tenths, put_text};
use crate::timeline::Timeline;
use kl1_lines::put_decimal;
use kl1_trace_work::put_front;
use std::alloc::{AllocError, Global};

/// All places in a picture are tenths of its units.
const LEFT: u64 = 2_100;

const RIGHT: u64 = 300;

const TOP: u64 = 760;

const ROW: u64 = 220;

/// How wide the steps are together, if there are few, and the least and the most of a step.
const WIDTH: u64 = 9_600;

const LEAST_STEP: u64 = 12;

const MOST_STEP: u64 = 300;

/// The most bytes of a title.
const MOST_TITLE: usize = 110;

/// The height of a line of reports, and the width of a letter of it.
const REPORT_ROW: u64 = 130;

const LETTER: u64 = 56;

/// How many tenths a step is wide.
fn step_width(steps: u64) -> u64 {
    (WIDTH / steps.max(1)).max(LEAST_STEP).min(MOST_STEP)
}

/// A picture that is being written.
#[derive(Drop)]
struct Picture<'a> {
    timeline: &'a Timeline,
    step: u64,
    out: &'a mut Vec<u8>,
}

/// Where the rows of reports end, by the place from which each is free.
#[derive(Drop)]
struct Rows {
    ends: Vec<u64>,
}

impl Rows {
    /// The first row that is free from a place on, which is taken up to another.
    fn take(&mut self, from: u64, to: u64) -> Result<u64, AllocError> {
        for (row, end) in self.ends.iter_mut().enumerate() {
            if *end <= from {
                *end = to;
                return Ok(row as u64);
            }
        }
        let row = self.ends.len() as u64;
        self.ends.push(to)?;
        Ok(row)
    }
}

/// How far apart numbers of steps stand.
fn apart(steps: u64) -> u64 {
    if steps <= 20 {
        1
    } else if steps <= 200 {
        10
    } else {
        100
    }
}

impl Picture<'_> {
    /// Puts text.
    fn put(&mut self, text: &[u8]) -> Result<(), AllocError> {
        self.out.extend_from_slice(text)
    }

    /// Puts a name, and tenths as its value.
    fn put_at(&mut self, name: &[u8], tenths: u64) -> Result<(), AllocError> {
        self.out.push(b' ')?;
        self.out.extend_from_slice(name)?;
        self.out.extend_from_slice(b"=\"")?;
        put_tenths(tenths, self.out)?;
        self.out.push(b'"')?;
        Ok(())
    }

    /// Puts a name, and a number as its value.
    fn put_number(&mut self, name: &[u8], number: u64) -> Result<(), AllocError> {
        self.out.push(b' ')?;
        self.out.extend_from_slice(name)?;
        self.out.extend_from_slice(b"=\"")?;
        put_decimal(self.out, number)?;
        self.out.push(b'"')?;
        Ok(())
    }

    /// How many steps are drawn.
    fn steps(&self) -> u64 {
        if self.timeline.first == 0 {
            0
        } else {
            (self.timeline.last - self.timeline.first.min(self.timeline.last)).saturating_add(1)
        }
    }

    /// The place of a step from the left: the one before the first is at the edge.
    fn across(&self, step: u64) -> u64 {
        let before = self.timeline.first.saturating_sub(1);
        LEFT.saturating_add(step.saturating_sub(before).saturating_mul(self.step))
    }

    /// The place of the middle of a lane from the top.
    fn down(&self, lane: usize) -> u64 {
        TOP.saturating_add((lane as u64).saturating_mul(ROW))
            .saturating_add(ROW / 2)
    }

    /// The lower edge of the lanes.
    fn bottom(&self) -> u64 {
        TOP.saturating_add((self.timeline.drawn.lanes.len() as u64).saturating_mul(ROW))
    }

    /// Puts the places of a line.
    fn put_line(&mut self, from: (u64, u64), to: (u64, u64)) -> Result<(), AllocError> {
        self.put_at(b"x1", from.0)?;
        self.put_at(b"y1", from.1)?;
        self.put_at(b"x2", to.0)?;
        self.put_at(b"y2", to.1)?;
        self.put(b"/>\n")
    }

    /// Puts the numbers of steps, and a line under each.
    fn put_grid(&mut self) -> Result<(), AllocError> {
        let each = apart(self.steps());
        let bottom = self.bottom();
        let first = self.timeline.first.saturating_sub(1);
        for step in first..self.timeline.last.saturating_add(1) {
            if let Some(0) = step.checked_rem(each) {
                let x = self.across(step);
                self.put(b"<line class=\"grid\"")?;
                self.put_line((x, TOP), (x, bottom))?;
                self.put(b"<text class=\"number\"")?;
                self.put_at(b"x", x)?;
                self.put_at(b"y", TOP.saturating_sub(40))?;
                self.put(b">")?;
                put_decimal(self.out, step)?;
                self.put(b"</text>\n")?;
            }
        }
        Ok(())
    }

    /// Puts a lane: its label, and a line from its beginning to its end.
    fn put_lane(&mut self, place: usize, lane: &Lane) -> Result<(), AllocError> {
        let y = self.down(place);
        self.put(b"<text class=\"label\"")?;
        self.put_at(b"x", LEFT.saturating_sub(80))?;
        self.put_at(b"y", y.saturating_add(40))?;
        self.put(b">")?;
        put_escaped(lane.label.as_slice(), self.out)?;
        if lane.shoen != 1 {
            self.put(b"<tspan class=\"shoen\" dx=\"4\">s")?;
            put_decimal(self.out, lane.shoen)?;
            self.put(b"</tspan>")?;
        }
        self.put(b"</text>\n<line class=\"lane\"")?;
        self.put_number(b"data-lane", place as u64)?;
        let begin = self.across(lane.begin);
        let end = self.across(lane.end.unwrap_or(self.timeline.last.saturating_add(1)));
        self.put_line((begin, y), (end, y))
    }

    /// Puts a time in which a goal couldn't step.
    fn put_bar(&mut self, bar: &Bar) -> Result<(), AllocError> {
        let x = self.across(bar.begin);
        let end = self.across(bar.end.unwrap_or(self.timeline.last.saturating_add(1)));
        let y = self.down(bar.lane).saturating_sub(40);
        self.put(b"<rect class=\"wait\"")?;
        self.put_number(b"data-goal", bar.goal)?;
        self.put_number(b"data-from", bar.begin)?;
        if let Some(end) = bar.end {
            self.put_number(b"data-to", end)?;
        }
        self.put_at(b"x", x)?;
        self.put_at(b"y", y)?;
        self.put_at(b"width", end.saturating_sub(x).max(10))?;
        self.put_at(b"height", 80)?;
        self.put(b"/>\n")
    }

    /// Puts what one lane did to another.
    fn put_arrow(&mut self, arrow: &Arrow) -> Result<(), AllocError> {
        let x = self.across(arrow.step);
        let from = self.down(arrow.from);
        let to = self.down(arrow.to);
        match arrow.woken {
            None => self.put(b"<line class=\"fork\"")?,
            Some(goal) => {
                self.put(b"<line class=\"wake\" marker-end=\"url(#head)\"")?;
                self.put_number(b"data-goal", goal)?;
            }
        }
        self.put_number(b"data-step", arrow.step)?;
        // The head ends at the edge of the other lane's bars.
        let end = match arrow.woken {
            None => to,
            Some(_goal) if from < to => to.saturating_sub(50),
            Some(_goal) => to.saturating_add(50),
        };
        self.put_line((x, from), (x, end))
    }

    /// Puts a step.
    fn put_dot(&mut self, dot: &Dot) -> Result<(), AllocError> {
        let x = self.across(dot.step);
        let y = self.down(dot.lane);
        match dot.mark {
            Mark::Exception => {
                self.put(b"<rect class=\"exception\" width=\"8\" height=\"8\"")?;
                self.put_at(b"x", x.saturating_sub(40))?;
                self.put_at(b"y", y.saturating_sub(40))?;
            }
            Mark::Reduction => self.put_circle(b"reduction", x, y, 32)?,
            Mark::BuiltIn => self.put_circle(b"built-in", x, y, 18)?,
        }
        self.put_number(b"data-step", dot.step)?;
        self.put(b"><title>")?;
        put_decimal(self.out, dot.step)?;
        self.put(b": ")?;
        put_escaped(dot.text.as_slice(), self.out)?;
        match dot.mark {
            Mark::Exception => self.put(b"</title></rect>\n"),
            _ => self.put(b"</title></circle>\n"),
        }
    }

    /// Puts a circle, which isn't ended.
    fn put_circle(&mut self, class: &[u8], x: u64, y: u64, radius: u64) -> Result<(), AllocError> {
        self.put(b"<circle class=\"")?;
        self.put(class)?;
        self.put(b"\"")?;
        self.put_at(b"cx", x)?;
        self.put_at(b"cy", y)?;
        self.put_at(b"r", radius)
    }

    /// Puts a report, and a line from its step to it, in the first row under the lanes that is free there.
    fn put_report(
        &mut self,
        report: &Report,
        right: u64,
        rows: &mut Rows,
    ) -> Result<(), AllocError> {
        let step = self.across(report.step);
        let width = (report.text.len() as u64).saturating_mul(LETTER);
        let x = step.min(right.saturating_sub(width.saturating_add(60)));
        let row = rows.take(x, x.saturating_add(width).saturating_add(80))?;
        let y = self
            .bottom()
            .saturating_add(180)
            .saturating_add(row.saturating_mul(REPORT_ROW));
        let class: &[u8] = if report.is_exception {
            b"raised"
        } else {
            b"report"
        };
        self.put(b"<line class=\"")?;
        self.put(class)?;
        self.put(b"\"")?;
        self.put_number(b"data-step", report.step)?;
        self.put_line((step, TOP), (step, y.saturating_sub(90)))?;
        self.put(b"<text class=\"")?;
        self.put(class)?;
        self.put(b"-text\"")?;
        self.put_at(b"x", x)?;
        self.put_at(b"y", y)?;
        self.put(b">")?;
        put_escaped(report.text.as_slice(), self.out)?;
        self.put(b"</text>\n")
    }
}

/// What is said of the steps, and of what isn't drawn.
fn note_of(alloc: Global, timeline: &Timeline) -> Result<Vec<u8>, AllocError> {
    let mut note = Vec::new(alloc);
    note.extend_from_slice(b"steps ")?;
    put_decimal(&mut note, timeline.first)?;
    note.extend_from_slice(b" to ")?;
    put_decimal(&mut note, timeline.last)?;
    if timeline.is_cut {
        note.extend_from_slice(b"; cut here: the run goes on")?;
    }
    if 0 < timeline.drawn.left_out {
        note.extend_from_slice(b"; only the first ")?;
        put_decimal(&mut note, MOST_LANES as u64)?;
        note.extend_from_slice(b" processes are drawn, not ")?;
        put_decimal(&mut note, timeline.drawn.left_out)?;
        note.extend_from_slice(b" more")?;
    }
    Ok(note)
}

/// Puts all that stands in a picture after the bytes. Answers its lower edge.
fn put_all(
    alloc: Global,
    timeline: &Timeline,
    step: u64,
    right: u64,
    out: &mut Vec<u8>,
) -> Result<u64, AllocError> {
    let mut picture = Picture {
        timeline,
        step,
        out,
    };
    picture.put_grid()?;
    for (place, lane) in timeline.drawn.lanes.iter().enumerate() {
        picture.put_lane(place, lane)?;
    }
    for bar in timeline.drawn.bars.as_slice() {
        picture.put_bar(bar)?;
    }
    for arrow in timeline.drawn.arrows.as_slice() {
        picture.put_arrow(arrow)?;
    }
    for dot in timeline.dots.as_slice() {
        picture.put_dot(dot)?;
    }
    let mut rows = Rows {
        ends: Vec::new(alloc),
    };
    for report in timeline.reports.as_slice() {
        picture.put_report(report, right, &mut rows)?;
    }
    let lines = rows.ends.len() as u64;
    Ok(
        picture
            .bottom()
            .saturating_add(280)
            .saturating_add(lines.saturating_mul(REPORT_ROW)),
    )
}

/// Puts the picture of lanes, with a title, after the bytes.
pub fn put_picture(
    alloc: Global,
    timeline: &Timeline,
    title: &[u8],
    out: &mut Vec<u8>,
) -> Result<(), AllocError> {
    let steps = timeline
        .last
        .saturating_sub(timeline.first)
        .saturating_add(1);
    let step = step_width(steps);
    let right = LEFT
        .saturating_add(steps.saturating_add(1).saturating_mul(step))
        .saturating_add(RIGHT)
        .max(10_000);
    let mut inner = Vec::new(alloc);
    let bottom = put_all(alloc, timeline, step, right, &mut inner)?;
    out.extend_from_slice(b"<svg xmlns=\"http://www.w3.org/2000/svg\" width=\"")?;
    put_tenths(right, out)?;
    out.extend_from_slice(b"\" height=\"")?;
    put_tenths(bottom, out)?;
    out.extend_from_slice(b"\">\n")?;
    out.extend_from_slice(STYLE)?;
    let mut front = Vec::new(alloc);
    put_front(title, MOST_TITLE, &mut front)?;
    put_text(b"title", 20, front.as_slice(), out)?;
    put_text(b"legend", 36, LEGEND, out)?;
    put_text(b"legend", 52, note_of(alloc, timeline)?.as_slice(), out)?;
    out.extend_from_slice(inner.as_slice())?;
    out.extend_from_slice(b"</svg>\n")
}
