//! Memory that is held, so that others are refused theirs, and what comes of their trials meanwhile.
use std::alloc::{AllocError, Global};
use std::ops::Range;

/// The most blocks of memory that are held.
const MOST_BLOCKS: usize = 60_000;

/// Sizes of small blocks, each 16 bytes above the one before. The C library keeps free blocks of
/// each of these sizes for requests of that size alone.
const SMALL: Range<usize> = 24..1040;

/// How many it keeps so of each small size.
const KEPT: usize = 7;

/// Blocks of memory that are held.
#[derive(Drop)]
pub struct MemoryHog {
    alloc: Global,
    blocks: Vec<Vec<u8>>,
}

impl MemoryHog {
    /// One that holds no block yet, and has room to list what it will hold.
    pub fn new(alloc: Global) -> Result<MemoryHog, AllocError> {
        let blocks = Vec::with_capacity(alloc, MOST_BLOCKS)?;
        Ok(MemoryHog { alloc, blocks })
    }

    /// Takes `count` blocks of a size, or as many as can be had.
    fn take(&mut self, size: usize, count: usize) {
        for _ in 0..count {
            if self.blocks.len() >= MOST_BLOCKS {
                break;
            }
            let Ok(block) = Vec::with_capacity(self.alloc, size) else {
                break;
            };
            if self.blocks.push(block).is_err() {
                break;
            }
        }
    }

    /// Takes `count` blocks of each small size, or as many as can be had.
    fn take_small(&mut self, count: usize) {
        for size in SMALL.step_by(16).rev() {
            self.take(size, count);
        }
    }

    /// Takes all memory that can be had, in blocks of halving sizes, and then of each small size.
    pub fn take_all(&mut self) {
        let mut size = 1usize << 46;
        for _ in 0..47 {
            self.take(size, MOST_BLOCKS);
            size = (size / 2).max(1);
        }
        self.take_small(MOST_BLOCKS);
    }

    /// Gives back the block that was taken last; whether there was one.
    pub fn give_back(&mut self) -> bool {
        self.blocks.pop().is_some()
    }
}

/// What comes of a trial.
#[derive(Clone, Copy)]
pub enum Outcome {
    /// It wants memory, and has begun so little that this is told apart.
    EarlyWant,
    /// It wants memory.
    Want,
    /// What should.
    Right,
    /// Something else.
    Wrong,
}

/// Which outcomes came of all trials so far.
#[derive(Clone, Copy)]
pub struct Outcomes {
    pub early_want: bool,
    pub want: bool,
    pub right: bool,
    pub wrong: bool,
}

impl Outcomes {
    /// Notes an outcome.
    fn note(&mut self, outcome: Outcome) {
        match outcome {
            Outcome::EarlyWant => self.early_want = true,
            Outcome::Want => self.want = true,
            Outcome::Right => self.right = true,
            Outcome::Wrong => self.wrong = true,
        }
    }
}

/// What is tried again and again.
pub trait Trial {
    /// Tries it once, and tells what came, for which it needs no memory.
    fn outcome(&mut self, alloc: Global) -> Outcome;
}

/// Trials of one thing while memory is held.
#[derive(Drop)]
struct InWant<'a, T: Trial> {
    alloc: Global,
    trial: &'a mut T,
    outcomes: Outcomes,
}

impl<T: Trial> InWant<'_, T> {
    /// Tries it; whether what came was right.
    fn is_right(&mut self) -> bool {
        let outcome = self.trial.outcome(self.alloc);
        self.outcomes.note(outcome);
        matches!(outcome, Outcome::Right)
    }

    /// Tries it, and again with each block that is given back, the last first; up to the right
    /// outcome, if it is to end so.
    fn repeat(&mut self, hog: &mut MemoryHog, ends: bool) {
        for _ in 0..=MOST_BLOCKS {
            let is_right = self.is_right();
            if is_right && ends {
                break;
            }
            if !hog.give_back() {
                break;
            }
        }
    }

    /// Tries it, for each small size, while a few blocks of the others can be had, and of this one
    /// none, and one more each time.
    fn repeat_with_each_size(&mut self, small: &mut MemoryHog) {
        for size in SMALL.step_by(16) {
            small.take(size, MOST_BLOCKS);
            self.repeat(small, false);
        }
    }
}

/// Which outcomes come of something while no memory can be had; then, for each small size, while a
/// few blocks of the others can be had, and of this one none, and one more each time; then with each
/// other block that is given back, until it is right. So most requests are refused at a time when
/// those before them are met.
pub fn outcomes_in_want<T: Trial>(alloc: Global, trial: &mut T) -> Result<Outcomes, AllocError> {
    let mut hog = MemoryHog::new(alloc)?;
    let mut small = MemoryHog::new(alloc)?;
    // with ample memory first: then the stack has grown as far as the calls need, which it can't do
    // while all memory is taken
    trial.outcome(alloc);
    let outcomes = Outcomes {
        early_want: false,
        want: false,
        right: false,
        wrong: false,
    };
    let mut tried = InWant {
        alloc,
        trial,
        outcomes,
    };
    small.take_small(KEPT);
    hog.take_all();
    if tried.is_right() {
        // an allocator that still has memory
        return Ok(tried.outcomes);
    }
    small.blocks.clear();
    tried.repeat_with_each_size(&mut small);
    tried.repeat(&mut hog, true);
    Ok(tried.outcomes)
}
