//! What a run of a plan text comes to: its labels, and the ends of its procedures.

use crate::frame::Visit;
use crate::questions::Question;
use crate::trace::Snapshot;
use burr_code::Instr;
use burr_code::limits::SLOTS;
use burr_lines::{Line, PlanLines, PlanPart, PlanText, Unframed};
use burr_runs::Observer;
use burr_state::{BenchState, Mode};
use std::alloc::{AllocError, Global};

/// An arrival of a run at a label.
#[derive(Drop)]
pub struct Arrival {
    /// The number of the label.
    pub label: usize,
    /// How many activations there were, its own included.
    depth: usize,
    /// The steps that were made before it.
    pub steps: u64,
    /// The steps from there to the end of the activation, or of the run; 0 while that goes on.
    pub cost: u64,
    /// The answer that was taken last; none before the first.
    pub answer: Option<i32>,
    pub snapshot: Snapshot,
}

impl Arrival {
    /// What held then, and the steps that still came.
    pub fn visit(&self) -> Visit<'_> {
        Visit {
            snapshot: &self.snapshot,
            cost: self.cost,
        }
    }
}

/// Where a run stood when it was last seen.
#[derive(Clone, Copy)]
pub struct Stand {
    pub procedure: usize,
    pub pc: usize,
    /// Whether the run had ended, with all pieces apart.
    pub has_ended: bool,
    steps: u64,
    /// The answers that were left: their number, and the next.
    left: usize,
    next: Option<i32>,
}

/// What the run of a plan text came to: who makes the run lets this look on.
#[derive(Drop)]
pub struct Arrivals<'x, 'a, 'c> {
    alloc: Global,
    pub labels: &'x Labels<'a, 'c>,
    /// In their order.
    pub arrivals: Vec<Arrival>,
    /// The returns from procedures, each with the procedure.
    pub returns: Vec<(usize, Snapshot)>,
    /// The numbers of the arrivals whose activations go on, the innermost last.
    open: Vec<usize>,
    stand: Option<Stand>,
    /// The answer that was taken last.
    answer: Option<i32>,
    /// Whether nothing was left out for want of memory.
    is_whole: bool,
}

impl<'x, 'a, 'c> Arrivals<'x, 'a, 'c> {
    /// Before the run of a plan text with these labels.
    pub fn new(alloc: Global, labels: &'x Labels<'a, 'c>) -> Arrivals<'x, 'a, 'c> {
        Arrivals {
            alloc,
            labels,
            arrivals: Vec::new(alloc),
            returns: Vec::new(alloc),
            open: Vec::new(alloc),
            stand: None,
            answer: None,
            is_whole: true,
        }
    }

    /// Ends what is seen of the run, and gives where it stood when it was last seen; none where it was not
    /// made. Costs are counted up to there. An error where memory was wanting meanwhile.
    pub fn close(&mut self) -> Result<Option<Stand>, AllocError> {
        if !self.is_whole {
            return Err(AllocError);
        }
        if let Some(stand) = self.stand {
            self.close_above(0, stand.steps);
        }
        Ok(self.stand)
    }

    /// The question at which the run stood when it was last seen; none where it asked nothing there.
    pub fn question(&self) -> Option<Question> {
        let stand = self.stand?;
        match self.labels.plan.instruction_at(stand.procedure, stand.pc)? {
            Instr::Ask(least, greatest) => Some(Question::number(
                i32::from(least),
                i32::from(greatest),
            )),
            Instr::Pick(offer) => Some(Question::choice(offer.len())),
            _ => None,
        }
    }

    /// Counts the costs of arrivals above this many activations, which have ended after these steps.
    fn close_above(&mut self, depth: usize, steps: u64) {
        for _ in 0..self.open.len() {
            let Some(number) = self.open.last().copied() else {
                return;
            };
            match self.arrivals.get_mut(number) {
                Some(arrival) if depth < arrival.depth => {
                    arrival.cost = steps.saturating_sub(arrival.steps);
                }
                _ => return,
            }
            self.open.pop();
        }
    }

    /// Notes that a step has led the bench to where it stands.
    fn note(&mut self, state: &BenchState, stand: &Stand) -> Result<(), AllocError> {
        self.close_above(state.depth(), stand.steps);
        if stand.has_ended {
            return Ok(());
        }
        if let Some(label) = self.labels.at(stand.procedure, stand.pc) {
            self.note_arrival(label, state, stand)?;
        }
        match self.labels.plan.instruction_at(stand.procedure, stand.pc) {
            Some(Instr::Ret) => self.note_return(stand.procedure, state),
            _ => Ok(()),
        }
    }

    /// Notes that the bench has come to a label.
    fn note_arrival(
        &mut self,
        label: usize,
        state: &BenchState,
        stand: &Stand,
    ) -> Result<(), AllocError> {
        self.open.push(self.arrivals.len())?;
        self.arrivals.push(Arrival {
            label,
            depth: state.depth(),
            steps: stand.steps,
            cost: 0,
            answer: self.answer,
            snapshot: Snapshot::of(self.alloc, state, SLOTS as u8, state.operands())?,
        })?;
        Ok(())
    }

    /// Notes that the bench is about to return from a procedure.
    fn note_return(&mut self, procedure: usize, state: &BenchState) -> Result<(), AllocError> {
        let Some(returning) = self.labels.plan.procedure(procedure) else {
            return Ok(());
        };
        let (parameters, results) = (returning.params(), returning.results());
        let snapshot = Snapshot::at_return(self.alloc, state, parameters, results)?;
        self.returns.push((procedure, snapshot))?;
        Ok(())
    }
}

impl Observer for Arrivals<'_, '_, '_> {
    fn observe(&mut self, state: &BenchState, answers: &[i32]) {
        let stand = Stand {
            procedure: usize::from(state.procedure()),
            pc: state.pc(),
            has_ended: state.mode() == Mode::Ended,
            steps: state.steps(),
            left: answers.len(),
            next: answers.first().copied(),
        };
        let before = self.stand;
        self.stand = Some(stand);
        match before {
            // an answer was passed over
            Some(before) if before.steps == stand.steps => return,
            Some(before) if stand.left < before.left => self.answer = before.next,
            _ => {}
        }
        if self.note(state, &stand).is_err() {
            self.is_whole = false;
        }
    }
}

// The labels of a plan text.

/// A label of a plan text.
#[derive(Clone, Copy)]
pub struct Label<'a> {
    /// The number of its procedure.
    pub procedure: usize,
    /// Its own number within that.
    pub number: usize,
    /// The name of its procedure.
    pub procedure_name: &'a [u8],
    /// Where it stands in the procedure's code.
    pub pc: usize,
    /// The line that names it.
    pub line: Line<'a>,
}

/// A plan text with its labels, in its order: that of procedures and, within each, of places.
#[derive(Drop)]
pub struct Labels<'a, 'c> {
    pub plan: PlanText<'a, 'c>,
    pub lines: PlanLines<'a>,
    labels: Vec<Label<'a>>,
}

impl<'a, 'c> Labels<'a, 'c> {
    /// The labels of a plan text that was assembled with these frames that say nothing in place of `auto`.
    pub fn of(
        alloc: Global,
        plan: PlanText<'a, 'c>,
        unframed: &Unframed<'_>,
        blank: &[u8],
    ) -> Result<Labels<'a, 'c>, AllocError> {
        let lines = PlanLines::with(alloc, plan.text, unframed.parts_of(blank)?)?;
        let mut labels = Vec::new(alloc);
        let mut procedure_name: &[u8] = b"";
        for (part, number) in lines.parts() {
            let line = lines.line(*number);
            match *part {
                PlanPart::Procedure(_) => procedure_name = line.word(1),
                PlanPart::Label { procedure, label } => labels.push(Label {
                    procedure,
                    number: label,
                    procedure_name,
                    pc: plan.position(procedure, label).unwrap_or(0),
                    line,
                })?,
                _ => {}
            }
        }
        Ok(Labels {
            plan,
            lines,
            labels,
        })
    }

    /// The labels.
    pub fn as_slice(&self) -> &[Label<'a>] {
        &self.labels
    }

    /// The number, from 0, of the label at a place of a procedure's code; none where none stands
    /// there.
    pub fn at(&self, procedure: usize, pc: usize) -> Option<usize> {
        let wanted = (procedure, pc);
        let labels = &self.labels;
        let number = labels.partition_point(|label| (label.procedure, label.pc) < wanted);
        let label = labels.get(number)?;
        ((label.procedure, label.pc) == wanted).then_some(number)
    }

    /// The number, from 0, of a label that a procedure's code names.
    pub fn named(&self, procedure: usize, label: u16) -> usize {
        self.labels
            .partition_point(|other| other.procedure < procedure)
            .saturating_add(usize::from(label))
    }
}
