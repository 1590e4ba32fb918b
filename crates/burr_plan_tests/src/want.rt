//! What comes of calls while memory is wanting.

use crate::calls::{assembly_of, rows_of};
use crate::plans::CUP_PLAN;
use crate::puts::put_bare;
use crate::sources::input_of;
use crate::tables::{Table, bytes_of};
use crate::ways::{Question, answer};
use burr_assembly::Assembly;
use burr_blocking::{Blocking, CellTables, RowTables};
use burr_container::Container;
use burr_runs::{AnswersFault, read_answers, upgrade};
use burr_sheet::expand;
use burr_step::Stepper;
use burr_testing::plans::{CUP, DUO, RESULT_PLAN};
use burr_testing::{MemoryHog, Outcome, Portions, Trial, outcomes_in_want};
use burr_verify::accept;
use std::alloc::{AllocError, Global};
use std::io::Cursor;
use std::process::Abort;

/// All memory that can be had.
pub fn memory_taken(rt: &impl Abort, alloc: Global) -> MemoryHog {
    let mut hog = MemoryHog::new(alloc).expect(rt, "memory");
    hog.take_all();
    assert!(rt; Vec::<u8>::with_capacity(alloc, 1).is_err());
    hog
}

/// Asserts that of a trial, while memory is wanting, there comes what is right and that memory is
/// wanting, and nothing else. It has no source.
pub fn assert_wants<T: Trial>(rt: &impl Abort, alloc: Global, trial: &mut T) {
    let outcomes = outcomes_in_want(alloc, trial).expect(rt, "memory");
    assert!(rt; outcomes.want && outcomes.right);
    assert!(rt; !outcomes.early_want && !outcomes.wrong);
}

/// What came where memory was not wanting.
fn right_if(is_right: bool) -> Outcome {
    if is_right {
        Outcome::Right
    } else {
        Outcome::Wrong
    }
}

/// An input of bare code, how many bytes of it each call gives, and how it ends, with which text.
#[derive(Drop)]
struct BareRun<'a> {
    input: &'a str,
    portion: usize,
    wanted: (&'a str, &'a str),
}

impl Trial for BareRun<'_> {
    /// The source and the sink need no memory.
    fn outcome(&mut self, alloc: Global) -> Outcome {
        let mut room = [0; 1024];
        let mut source = Portions::new(self.input.as_bytes(), self.portion);
        let mut written = Cursor::new(room.as_mut_slice());
        let word = put_bare(alloc, &mut source, &mut written);
        let count = written.position() as usize;
        if word == "Memory" && count == 0 {
            return if source.has_ended {
                Outcome::Want
            } else {
                Outcome::EarlyWant
            };
        }
        let (end, text) = self.wanted;
        right_if(word == end && room.get(..count) == Some(text.as_bytes()))
    }
}

/// Whether of a case's input, whole and a byte a call, while memory is wanting there comes what is
/// right and, before the source has told its end and after that, that memory is wanting; and
/// nothing else.
pub fn wants_memory(
    rt: &impl Abort,
    alloc: Global,
    table: &Table,
    given: &str,
    wanted: &str,
) -> bool {
    let input = input_of(rt, alloc, table, given);
    let mut run = BareRun {
        input: &input,
        portion: usize::MAX,
        wanted: wanted.split_once(" | ").expect(rt, "a text"),
    };
    let whole = outcomes_in_want(alloc, &mut run).expect(rt, "memory");
    run.portion = 1;
    let bytewise = outcomes_in_want(alloc, &mut run).expect(rt, "memory");
    (whole.early_want || bytewise.early_want)
        && (whole.want || bytewise.want)
        && (whole.right && bytewise.right)
        && !(whole.wrong || bytewise.wrong)
}

/// A text of 200 answers, which are read.
#[derive(Drop)]
struct Answers<'a>(&'a str);

impl Trial for Answers<'_> {
    fn outcome(&mut self, alloc: Global) -> Outcome {
        match read_answers(alloc, self.0.as_bytes()) {
            Ok(answers) => right_if(answers.len() == 200),
            Err(AnswersFault::Memory) => Outcome::Want,
            Err(_) => Outcome::Wrong,
        }
    }
}

/// The list of answers grows by doubling, so each of its requests is refused at a time when those
/// before it are met.
#[test]
fn tells_a_want_of_memory_for_answers(rt: HostRuntime) {
    let text = "7\n".repeat(rt.alloc(), 200).expect(&rt, "memory");
    assert_wants(&rt, rt.alloc(), &mut Answers(&text));
}

/// The duo, whose tables are built.
#[derive(Drop)]
struct Tables<'a>(&'a Assembly);

impl Trial for Tables<'_> {
    fn outcome(&mut self, alloc: Global) -> Outcome {
        let Ok(cells) = CellTables::build(alloc, self.0) else {
            return Outcome::Want;
        };
        match RowTables::build(alloc, self.0) {
            Ok(rows) => right_if(is_of_duo(&cells) && is_of_duo(&rows)),
            Err(_) => Outcome::Want,
        }
    }
}

/// Whether the cubes of the duo overlap after a unit along x.
fn is_of_duo<B: Blocking>(tables: &B) -> bool {
    let beside = Question {
        pieces: (0, 1),
        at: (1, 0, 0),
        direction: None,
    };
    answer(tables, &beside) == Some(true)
}

/// The duo, and lines of 200 of its motions.
#[derive(Drop)]
struct Lines<'a>(&'a Assembly, &'a str);

impl Trial for Lines<'_> {
    fn outcome(&mut self, alloc: Global) -> Outcome {
        match expand(alloc, self.0, self.1.as_bytes()) {
            Ok(Some(motions)) => right_if(motions.len() == 200),
            Ok(None) => Outcome::Wrong,
            Err(AllocError) => Outcome::Want,
        }
    }
}

#[test]
fn tells_a_want_of_memory_for_an_assembly(rt: HostRuntime) {
    let duo = assembly_of(&rt, rt.alloc(), DUO);
    assert_wants(&rt, rt.alloc(), &mut Tables(&duo));
    assert_wants(&rt, rt.alloc(), &mut Lines(&duo, "1 t0 A -x 200\n"));
}

/// A container of version 2, which `upgrade` makes again as it is.
#[derive(Drop)]
struct Upgrade<'a>(&'a [u8]);

impl Trial for Upgrade<'_> {
    fn outcome(&mut self, alloc: Global) -> Outcome {
        let Ok(container) = Container::parse(self.0) else {
            return Outcome::Wrong;
        };
        match upgrade(alloc, &container) {
            Ok(made) => right_if(made.as_slice() == self.0),
            Err(AllocError) => Outcome::Want,
        }
    }
}

/// A procedure of the plan has a result.
#[test]
fn tells_a_want_of_memory_for_upgrades(rt: HostRuntime) {
    let bytes = bytes_of(&rt, rt.alloc(), RESULT_PLAN);
    assert_wants(&rt, rt.alloc(), &mut Upgrade(&bytes));
}

/// An assembly's rows of bits and a container of a plan for it, whose stepper is made.
#[derive(Drop)]
struct Steps<'a, 'b>(&'a RowTables<'b>, &'a [u8]);

impl Trial for Steps<'_, '_> {
    fn outcome(&mut self, alloc: Global) -> Outcome {
        let Ok(container) = Container::parse(self.1) else {
            return Outcome::Wrong;
        };
        let Ok(accepted) = accept(&container, self.0) else {
            return Outcome::Wrong;
        };
        match Stepper::new(alloc, &accepted) {
            Ok(_stepper) => Outcome::Right,
            Err(AllocError) => Outcome::Want,
        }
    }
}

#[test]
fn tells_a_want_of_memory_for_steps(rt: HostRuntime) {
    let assembly = assembly_of(&rt, rt.alloc(), CUP);
    let bytes = bytes_of(&rt, rt.alloc(), CUP_PLAN);
    let rows = rows_of(&rt, rt.alloc(), &assembly);
    assert_wants(&rt, rt.alloc(), &mut Steps(&rows, &bytes));
}
