//! A trace: what held whenever the run came to a label, and what was seen at each.

use crate::arrivals::{Arrival, Arrivals, Label, Labels, Stand};
use crate::fit::{NUMBER, PLACES, Point, Slots};
use crate::frame::{Frame, Outline, Visit};
use burr_code::Placement;
use burr_code::limits::SLOTS;
use burr_lines::{PlanPart, Report, Shown};
use burr_state::BenchState;
use burr_voxels::Cell;
use std::alloc::{AllocError, Global};

/// What held whenever the run came to a label: where the text of this file names the label, the steps
/// that were made, the answer last taken, and the lines of a frame that this alone agrees with, with the
/// steps that the activation still made as its cost. And at the end for each label how often the run came
/// to it, and the lines of a frame that all of it agrees with, in forms of the slots. Nothing where no
/// run was made.
pub fn trace_of(
    alloc: Global,
    file: &str,
    mut arrivals: Arrivals<'_, '_, '_>,
) -> Result<String, AllocError> {
    let mut report = Report::new(alloc);
    let Some(stand) = arrivals.close()? else {
        return report.into_text();
    };
    let labels = arrivals.labels;
    for arrival in &arrivals.arrivals {
        if let Some(label) = labels.as_slice().get(arrival.label) {
            add_label(&mut report, file, label);
            add_moment(&mut report, arrival);
            add_frame(alloc, &mut report, &[arrival.visit()])?;
        }
    }
    if !stand.has_ended {
        add_end(&mut report, file, labels, &stand);
    }
    for (number, label) in labels.as_slice().iter().enumerate() {
        let here = arrivals
            .arrivals
            .iter()
            .filter(|arrival| arrival.label == number);
        let visits: Vec<Visit<'_>> = here.map(|arrival| arrival.visit()).collect(alloc)?;
        let times = visits.len();
        add_label(&mut report, file, label);
        report.add_words(format_args!("times {times}\n"));
        add_frame(alloc, &mut report, &visits)?;
    }
    report.into_text()
}

/// Adds an empty line, and begins a comment with the line that names a label.
fn add_label(report: &mut Report, file: &str, label: &Label<'_>) {
    let number = label.line.number;
    let name = Shown(label.line.word(1));
    let procedure = Shown(label.procedure_name);
    report.add_words(format_args!("\n; {file}:{number}: label {name} of {procedure}: "));
}

/// Ends a comment with the steps and the answer before an arrival.
fn add_moment(report: &mut Report, arrival: &Arrival) {
    let steps = arrival.steps;
    report.add_words(format_args!("steps {steps}"));
    if let Some(answer) = arrival.answer {
        report.add_words(format_args!(", answer {answer}"));
    }
    report.add_words("\n");
}

/// Adds the lines of the frame that these visits agree with.
fn add_frame(alloc: Global, report: &mut Report, visits: &[Visit<'_>]) -> Result<(), AllocError> {
    let outline = Outline {
        slots: Slots::MAX,
        ..Outline::default()
    };
    let frame = Frame::of(alloc, visits, &outline)?;
    report.add_words(frame.lines.into_text()?);
    Ok(())
}

/// Adds the line where a run stands that did not come to its end.
fn add_end(report: &mut Report, file: &str, labels: &Labels<'_, '_>, stand: &Stand) {
    let part = PlanPart::Code {
        procedure: stand.procedure,
        pc: stand.pc,
    };
    if let Some(line) = labels.lines.line_of(part) {
        report.add_words("\n; the run stands at ");
        report.add_line(file, &line);
    }
}

// What holds where a run stands.

/// Where a piece lies.
#[derive(Clone, Copy, Default, Drop, PartialEq, Eq, PartialOrd, Ord)]
pub struct Lie {
    /// None where the piece is apart.
    pub tray: Option<u8>,
    /// How far it lies from home; 0 where it is apart.
    pub x: i32,
    pub y: i32,
    pub z: i32,
}

impl From<Placement<Cell>> for Lie {
    fn from(place: Placement<Cell>) -> Lie {
        match place {
            Placement::Apart => Lie::default(),
            Placement::On { tray, position } => Lie {
                tray: Some(tray),
                x: position.x,
                y: position.y,
                z: position.z,
            },
        }
    }
}

/// What holds where a run stands, as far as a frame tells of it.
#[derive(Drop, PartialEq, Eq, PartialOrd, Ord)]
pub struct Snapshot {
    /// The current tray.
    pub tray: u8,
    /// The gripped pieces: bit p is piece p.
    pub grip: u32,
    /// What each slot holds; none where it is empty.
    slots: Vec<Option<i32>>,
    /// The top last.
    pub operands: Vec<i32>,
    /// Where each piece lies.
    pub places: Vec<Lie>,
}

impl Snapshot {
    /// What holds where a bench stands, with what this many slots hold and with these operands.
    pub fn of(
        alloc: Global,
        state: &BenchState,
        slots: u8,
        operands: &[i32],
    ) -> Result<Snapshot, AllocError> {
        let mut snapshot = Snapshot {
            tray: state.tray(),
            grip: state.grip(),
            slots: Vec::new(alloc),
            operands: Vec::from_slice(alloc, operands)?,
            places: Vec::new(alloc),
        };
        for slot in 0..slots.min(SLOTS as u8) {
            snapshot.slots.push(state.slot(slot))?;
        }
        for piece in 0..state.piece_count() {
            snapshot.places.push(Lie::from(state.place(piece)))?;
        }
        Ok(snapshot)
    }

    /// What holds where a bench is about to return, as an exit frame tells of it: in place of the slots
    /// stand the parameters and, after them, the results, which are the operands at the top.
    pub fn at_return(
        alloc: Global,
        state: &BenchState,
        parameters: u8,
        results: u8,
    ) -> Result<Snapshot, AllocError> {
        let mut snapshot = Snapshot::of(alloc, state, parameters, &[])?;
        let operands = state.operands();
        let below = operands.len().saturating_sub(usize::from(results));
        for operand in operands.iter().skip(below) {
            snapshot.slots.push(Some(*operand))?;
        }
        Ok(snapshot)
    }

    /// The slots that hold a number.
    pub fn live(&self) -> Slots {
        let mut live = 0;
        for slot in 0..SLOTS {
            if let Some(Some(_)) = self.slots.get(slot) {
                live |= 1 << slot;
            }
        }
        live
    }

    /// A number that was seen then, beside what the slots held; 0 where one was empty.
    pub fn point(&self, number: i64) -> Point {
        let mut point = [0; PLACES];
        point[0] = 1;
        for (place, slot) in point[1..].iter_mut().zip(&self.slots) {
            *place = i64::from(slot.unwrap_or(0));
        }
        point[NUMBER] = number;
        point
    }

    /// An operand, counted from the bottom; 0 where there is no such operand.
    pub fn operand(&self, n: usize) -> i32 {
        self.operands.get(n).copied().unwrap_or(0)
    }

    /// Where a piece lies.
    pub fn lie(&self, piece: usize) -> Lie {
        self.places.get(piece).copied().unwrap_or_default()
    }
}
