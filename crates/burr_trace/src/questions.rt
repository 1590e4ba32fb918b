//! The lists of answers that the questions of a plan have, one after the other.

use std::alloc::{AllocError, Global};

/// How many lists there may be for each answer to be given.
const MOST_LISTS: u64 = 20_000;

/// How many runs are made at most.
pub const MOST_RUNS: usize = 40_000;

/// A question of a run, with the answer that it is given.
#[derive(Clone, Copy)]
pub struct Question {
    least: i32,
    greatest: i32,
    /// Whether it offers ways.
    is_choice: bool,
    answer: i32,
}

impl Question {
    /// A question for a number from the least to the greatest, which is given the least.
    pub fn number(least: i32, greatest: i32) -> Question {
        Question {
            least,
            greatest,
            is_choice: false,
            answer: least,
        }
    }

    /// A question that offers this many ways, which is given the first.
    pub fn choice(ways: usize) -> Question {
        let last = i32::try_from(ways).unwrap_or(1).saturating_sub(1);
        Question {
            is_choice: true,
            ..Question::number(0, last)
        }
    }

    /// How many answers it has.
    fn count(&self) -> u64 {
        u64::from(self.greatest.abs_diff(self.least)).saturating_add(1)
    }

    /// The next greater answer, of all or, at a question for a number, of the least, the middle and the
    /// greatest; none after the greatest.
    fn next(&self, has_all: bool) -> Option<i32> {
        let middle = self.least.midpoint(self.greatest);
        if self.greatest <= self.answer {
            return None;
        }
        if has_all || self.is_choice {
            return Some(self.answer.saturating_add(1));
        }
        Some(if self.answer < middle {
            middle
        } else {
            self.greatest
        })
    }
}

/// A list of answers, and those that come after it, depth first: the last question is given its next
/// answer, or none any more and the one before it its next.
#[derive(Drop)]
pub struct Questions {
    asked: Vec<Question>,
    /// Whether each answer of a range is given, or only the least, the middle and the greatest.
    has_all: bool,
    /// How many lists have come to their ends.
    lists: u64,
}

impl Questions {
    /// No answer yet.
    pub fn new(alloc: Global) -> Questions {
        Questions {
            asked: Vec::new(alloc),
            has_all: true,
            lists: 0,
        }
    }

    /// The answers, each in a line.
    pub fn text(&self, alloc: Global) -> Result<String, AllocError> {
        let mut text = String::new(alloc);
        for asked in &self.asked {
            let answer = asked.answer;
            writeln!(text, "{answer}")?;
        }
        Ok(text)
    }

    /// A note of the answers; nothing where there are none.
    pub fn note(&self, alloc: Global) -> Result<String, AllocError> {
        let mut note = String::new(alloc);
        for asked in &self.asked {
            let answer = asked.answer;
            let before = if note.is_empty() { "    answers:" } else { "" };
            write!(note, "{before} {answer}")?;
        }
        if !note.is_empty() {
            note.push_str("\n")?;
        }
        Ok(note)
    }

    /// What was left out of the lists of answers, where the last one has been tried or not; nothing where
    /// each list was tried.
    pub fn gaps(&self, is_done: bool) -> &'static str {
        match (is_done, self.has_all) {
            (false, _) => "not all answers were tried: 40000 runs are the most\n",
            (true, false) => {
                "not all answers were tried: of each range the least, the middle and the greatest\n"
            }
            (true, true) => "",
        }
    }

    /// Adds a question that the run with these answers comes to.
    pub fn ask(&mut self, question: Question) -> Result<(), AllocError> {
        self.asked.push(question)?;
        Ok(())
    }

    /// Goes on to the next list; false where this was the last. With the answers of the first list there
    /// may be too many, or there have been: from then on some are passed over.
    pub fn advance(&mut self) -> bool {
        let lists = self.lists;
        self.lists = lists.saturating_add(1);
        if lists == 0 {
            self.has_all = self.product() <= MOST_LISTS;
        } else if lists == MOST_LISTS && self.has_all {
            self.has_all = false;
            self.asked.clear();
            return true;
        }
        self.next_list()
    }

    /// How many lists there are, if each answer leads to the same questions.
    fn product(&self) -> u64 {
        self.asked.iter().fold(
            1,
            |product: u64, asked| product.saturating_mul(asked.count()),
        )
    }

    /// Gives the last question that has one its next answer, and drops those after it.
    fn next_list(&mut self) -> bool {
        let has_all = self.has_all;
        for _ in 0..self.asked.len() {
            if let Some(last) = self.asked.last_mut() {
                if let Some(answer) = last.next(has_all) {
                    last.answer = answer;
                    return true;
                }
            }
            self.asked.pop();
        }
        false
    }
}
