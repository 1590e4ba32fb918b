//! What was seen of a plan text over all its runs, and the text with frames that all of it agrees with.

ghost use Rattle.std.specs.Prelude.{IfOk};
ghost use Rattle.burr_lines.specs.FilledTexts.{IsFilledIn};

use crate::arrivals::{Arrivals, Labels};
use crate::fit::Slots;
use crate::frame::{Frame, Outline, Visit};
use crate::needs::Needs;
use crate::trace::Snapshot;
use burr_code::limits::MOST_BUDGET;
use burr_lines::{Due, Line, Part, Report, Unframed};
use std::alloc::{AllocError, Global};
use std::collections::BTreeMap;

/// What was seen at a place: what held, each once, and the most steps that its activation still made
/// then.
type Seen = BTreeMap<Snapshot, u64>;

/// What was seen of a plan text over all its runs.
#[derive(Drop)]
pub struct Sightings {
    alloc: Global,
    /// At each label.
    at_labels: Vec<Seen>,
    /// Where each procedure returns.
    at_returns: Vec<Seen>,
}

impl Sightings {
    /// Nothing yet of a plan text with these labels.
    pub fn new(alloc: Global, labels: &Labels<'_, '_>) -> Result<Sightings, AllocError> {
        Ok(Sightings {
            alloc,
            at_labels: nothing_at(alloc, labels.as_slice().len())?,
            at_returns: nothing_at(alloc, labels.plan.container.proc_count())?,
        })
    }

    /// Takes what was seen of a run that came to its end.
    pub fn add_run(&mut self, mut run: Arrivals<'_, '_, '_>) -> Result<(), AllocError> {
        run.close()?;
        for arrival in run.arrivals {
            add_to(
                &mut self.at_labels,
                arrival.label,
                arrival.snapshot,
                arrival.cost,
            )?;
        }
        for (procedure, snapshot) in run.returns {
            add_to(&mut self.at_returns, procedure, snapshot, 0)?;
        }
        Ok(())
    }

    /// The text with frames in place of `auto` that all of this agrees with, where there are any.
    pub fn fill(
        &self,
        unframed: &Unframed<'_>,
        labels: &Labels<'_, '_>,
    ) -> Result<Filled, AllocError>
        ensures { IfOk result (λ filled. IsFilledIn unframed.now filled.text.items) }
    {
        let parts = unframed.parts();
        let needs = self.needs(parts, labels)?;
        let mut fills = Vec::new(self.alloc);
        let mut left = None;
        let mut notes = Report::new(self.alloc);
        for (n, part) in parts.iter().enumerate() {
            let (lines, lack) = self.lines_for(part, parts, labels, &needs)?;
            let lines = lines.into_text()?;
            if let Some(why) = lack {
                let number = n.saturating_add(1);
                let line = Line {
                    number,
                    bytes: part.line,
                };
                left = left.or(Some(number));
                notes.add_line(labels.plan.file, &line);
                notes.add_note(why);
                notes.add_words(&lines);
            }
            fills.push(lack.is_none().then_some(lines))?;
        }
        Ok(Filled {
            text: unframed.with(&fills)?,
            left,
            notes: notes.into_text()?,
        })
    }

    /// The slots that each label needs, and those that forms have in place of `auto` where slots that are
    /// needed already do not do.
    fn needs(&self, parts: &[Part<'_>], labels: &Labels<'_, '_>) -> Result<Needs, AllocError> {
        let mut needs = Needs::of(self.alloc, labels)?;
        for part in parts {
            if let Some(Due::Label(label)) = part.due {
                let slots = needs.at(label);
                let outline = Outline {
                    slots,
                    others: !slots,
                    ..Outline::default()
                };
                let frame = self.frame(label, &outline)?;
                needs.add(label, frame.slots_in_forms);
            }
        }
        needs.spread();
        Ok(needs)
    }

    /// The lines in place of the one of this part as far as they are found, and why an `auto` stays there.
    fn lines_for(
        &self,
        part: &Part<'_>,
        parts: &[Part<'_>],
        labels: &Labels<'_, '_>,
        needs: &Needs,
    ) -> Result<(Report, Option<&'static str>), AllocError> {
        let frame = match part.due {
            None => return Ok((Report::new(self.alloc), None)),
            Some(Due::Budget) => return self.budget(part, parts, labels, needs),
            Some(Due::Exit { procedure, .. }) => self.exit(procedure, labels)?,
            Some(Due::Label(label)) => self.needed_frame(label, needs)?,
        };
        let lack = frame.lack();
        Ok((frame.lines, lack))
    }

    /// The first line with the cost of the plan's first frame as its budget, or why `auto` stays there.
    fn budget(
        &self,
        part: &Part<'_>,
        parts: &[Part<'_>],
        labels: &Labels<'_, '_>,
        needs: &Needs,
    ) -> Result<(Report, Option<&'static str>), AllocError> {
        let is_due = |part: &Part<'_>| matches!(part.due, Some(Due::Label(0)));
        let cost = if parts.iter().any(is_due) {
            self.needed_frame(0, needs)?.cost_at_start
        } else {
            let frame = labels.plan.frame(0, 0);
            frame.map_or(0, |frame| frame.cost().constant)
        };
        let mut line = Report::new(self.alloc);
        if cost < 1 || i64::from(MOST_BUDGET) < cost {
            return Ok((line, Some("no run tells of a budget")));
        }
        part.add_with_budget(cost, &mut line);
        Ok((line, None))
    }

    /// The exit frame of a procedure.
    fn exit(&self, procedure: usize, labels: &Labels<'_, '_>) -> Result<Frame, AllocError> {
        let visits = visits_of(self.alloc, &self.at_returns, procedure)?;
        let outline = Outline {
            slots: Slots::MAX,
            others: 0,
            has_guards: labels.plan.container.header().version == 2,
            parameters: Some(usize::from(labels.plan.parameters(procedure))),
        };
        Frame::of(self.alloc, &visits, &outline)
    }

    /// The frame of a label that has the slots that the label needs.
    fn needed_frame(&self, label: usize, needs: &Needs) -> Result<Frame, AllocError> {
        let outline = Outline {
            slots: needs.at(label),
            has_guards: true,
            ..Outline::default()
        };
        self.frame(label, &outline)
    }

    /// The frame of a label.
    fn frame(&self, label: usize, outline: &Outline) -> Result<Frame, AllocError> {
        let visits = visits_of(self.alloc, &self.at_labels, label)?;
        Frame::of(self.alloc, &visits, outline)
    }
}

/// A plan text that was filled in.
#[derive(Drop)]
pub struct Filled {
    pub text: Vec<u8>,
    /// The first line with an `auto` that stays; none where all are filled in.
    pub left: Option<usize>,
    /// Each line with one, and why it stays.
    pub notes: String,
}

/// This many places at which nothing was seen.
fn nothing_at(alloc: Global, count: usize) -> Result<Vec<Seen>, AllocError> {
    (0..count).map(|_| BTreeMap::new(alloc)).collect(alloc)
}

/// Takes a visit of the place of this number.
fn add_to(
    places: &mut Vec<Seen>,
    place: usize,
    snapshot: Snapshot,
    cost: u64,
) -> Result<(), AllocError> {
    if let Some(seen) = places.get_mut(place) {
        match seen.get_mut(&snapshot) {
            Some(most) => *most = cost.max(*most),
            None => {
                seen.insert(snapshot, cost)?;
            }
        }
    }
    Ok(())
}

/// The visits of the place of this number.
fn visits_of(alloc: Global, places: &[Seen], place: usize) -> Result<Vec<Visit<'_>>, AllocError> {
    let Some(seen) = places.get(place) else {
        return Ok(Vec::new(alloc));
    };
    let visits = seen.iter().map(|(snapshot, cost)| Visit {
        snapshot,
        cost: *cost,
    });
    visits.collect(alloc)
}
