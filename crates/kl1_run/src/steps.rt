// What is told of the steps of a run or of a journal: a trace, a profile, a picture.

use crate::kept_files::{PICTURE, file_for};
use kl1_command::Views;
use kl1_timeline::{Observers, Timeline, put_picture};
use kl1_trace_work::{Pattern, Profile, Texts, Trace, Viewer, profile_json, put_table};
use kl1_words::{Asked, Fault, FileId, Program, named_line};
use std::alloc::Global;
use std::io::Write;

/// How it is told what each predicate did.
#[derive(Clone, Copy)]
pub enum Profiles {
    /// Not at all.
    None,
    /// As a table.
    Table,
    /// As JSON.
    Json,
}

/// What is to be told of steps, and by which program.
#[derive(Clone, Copy)]
pub struct StepsAsked<'a> {
    program: &'static Program,
    /// The patterns of the steps that are told; `None` if none is.
    pub trace: Option<&'a str>,
    /// How it is told what each predicate did.
    pub profile: Profiles,
    /// The name of the file to which a picture is written; `None` if it is written nowhere.
    pub timeline: Option<&'a str>,
    /// The patterns of the lanes that are drawn.
    pub lanes: Option<&'a str>,
}

impl<'a> StepsAsked<'a> {
    /// What the words of a program ask for.
    pub fn of(program: &'static Program, asked: &Asked<'a>) -> Self {
        StepsAsked {
            program,
            trace: asked.text("trace"),
            profile: match asked.text("profile") {
                Some("json") => Profiles::Json,
                Some(_) => Profiles::Table,
                None => Profiles::None,
            },
            timeline: asked.text("timeline"),
            lanes: asked.text("lanes"),
        }
    }

    /// The same, but each step if there is nothing else to be told.
    pub fn or_all(self) -> Self {
        if self.is_any() {
            return self;
        }
        StepsAsked {
            trace: Some(""),
            ..self
        }
    }

    /// Whether anything is to be told.
    pub fn is_any(&self) -> bool {
        if self.trace.is_some() || self.timeline.is_some() {
            return true;
        }
        match self.profile {
            Profiles::None => false,
            Profiles::Table | Profiles::Json => true,
        }
    }
}

/// The pattern of these words, which stand between commas.
fn pattern_in(alloc: Global, program: &Program, words: &str) -> Result<Pattern, Fault> {
    let mut pattern = Pattern::all(alloc);
    for word in words.split(',') {
        if !word.is_empty() && !pattern.narrow(word.as_bytes())? {
            return Err(named_line(alloc, program, "no pattern of steps", word));
        }
    }
    Ok(pattern)
}

/// What tells the steps as the words ask for it, a trace to `out`.
pub fn observers_for<'a, W: Write + Drop>(
    asked: &StepsAsked<'_>,
    texts: Texts<'a>,
    out: W,
) -> Result<Observers<'a, W>, Fault> {
    let alloc = texts.alloc;
    let trace = match asked.trace {
        None => None,
        Some(words) => {
            let pattern = pattern_in(alloc, asked.program, words)?;
            Some(Trace::new(texts, pattern, out))
        }
    };
    let profile = match asked.profile {
        Profiles::None => None,
        Profiles::Table | Profiles::Json => Some(Profile::new(alloc)),
    };
    let timeline = match asked.timeline {
        None => None,
        Some(_file) => {
            let pattern = pattern_in(alloc, asked.program, asked.lanes.unwrap_or(""))?;
            Some(Timeline::new(alloc, pattern))
        }
    };
    Ok(Observers {
        trace,
        profile,
        timeline,
    })
}

/// The lines of a profile, in the form that is asked for; none if there is no profile.
fn profile_lines<H: Views, W>(
    alloc: Global,
    asked: &StepsAsked<'_>,
    viewer: &Viewer<Observers<'_, W>>,
    host: &H,
) -> Result<Vec<u8>, Fault> {
    let mut lines = Vec::new(alloc);
    let Some(profile) = &viewer.observer.profile else {
        return Ok(lines);
    };
    let usage = host.usage();
    let predicates = &viewer.predicates;
    let rows = profile.rows(alloc)?;
    let rows = rows.as_slice();
    match asked.profile {
        Profiles::Json => {
            let value = profile_json(
                alloc,
                predicates,
                rows,
                profile.steps,
                profile.alive,
                &usage,
            )?;
            lines.extend_from_slice(value.to_string(alloc)?.as_bytes())?;
            lines.push(b'\n')?;
        }
        _ => put_table(
            alloc,
            predicates,
            rows,
            profile.steps,
            profile.alive,
            &usage,
            &mut lines,
        )?,
    }
    Ok(lines)
}

/// Writes the picture of a run to a file, which is none of these modules.
fn write_picture(
    rt: &HostRuntime,
    asked: &StepsAsked<'_>,
    title: &str,
    modules: &[FileId],
    timeline: &Timeline,
) -> Result<(), Fault> {
    let Some(name) = asked.timeline else {
        return Ok(());
    };
    let alloc = rt.alloc();
    let mut file = file_for(rt, asked.program, PICTURE, name, modules)?;
    let mut picture = Vec::new(alloc);
    put_picture(alloc, timeline, title.as_bytes(), &mut picture)?;
    match file.write_all(picture.as_slice()) {
        Ok(()) => Ok(()),
        Err(error) => Err(Fault::Write(error)),
    }
}

/// Ends a trace, and writes the profile and the picture.
pub fn finish<H: Views, W: Write + Drop>(
    rt: &HostRuntime,
    asked: &StepsAsked<'_>,
    title: &str,
    modules: &[FileId],
    viewer: &mut Viewer<Observers<'_, W>>,
    host: &H,
    out: &mut W,
) -> Result<(), Fault> {
    if let Some(trace) = &mut viewer.observer.trace {
        trace.flush();
        if let Some(error) = trace.failure.take() {
            return Err(Fault::Write(error));
        }
    }
    let lines = profile_lines(rt.alloc(), asked, viewer, host)?;
    if let Err(error) = out.write_all(lines.as_slice()) {
        return Err(Fault::Write(error));
    }
    match &viewer.observer.timeline {
        Some(timeline) => write_picture(rt, asked, title, modules, timeline),
        None => Ok(()),
    }
}
