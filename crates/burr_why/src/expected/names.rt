//! Names that are taken, or that nothing has.

use super::grammar::Operand;
use super::{Expectation, text_of};
use burr_lines::{Line, Shown};
use burr_text::is_name;
use std::alloc::{AllocError, Global};
use strsim::osa_distance;

/// What a line `label` or `proc` gives a name to.
const LABEL: &str = "label of this procedure";

const PROCEDURE: &str = "procedure";

impl<'a> Expectation<'a> {
    /// Says which name of a line is taken, or has nothing that it names.
    pub(super) fn add_name(&mut self, line: &Line<'a>) -> Result<(), AllocError> {
        match (line.word(0), self.before.procedure) {
            (b"label", Some(procedure)) => self.add_taken(line, LABEL, procedure.number),
            (b"proc", _) => self.add_taken(line, PROCEDURE, 0),
            _ => return self.add_unknown(line),
        }
        Ok(())
    }

    /// Names the first line, after those of a number, that gives the same name to such a thing.
    fn add_taken(&mut self, line: &Line<'a>, thing: &str, before: usize) {
        let (word, name) = (line.word(0), line.word(1));
        let mut lines = self.lines.iter().skip(before);
        let same = lines.find(|other| other.word(0) == word && other.word(1) == name);
        if let Some(other) = same.copied() {
            let name = Shown(name);
            self.note(format_args!("the name `{name}` is taken by another {thing}"));
            self.report.add_line(self.file, &other);
        }
    }

    /// Says which of the names in a line of code nothing has.
    fn add_unknown(&mut self, line: &Line<'a>) -> Result<(), AllocError> {
        let (word, thing) = match line.word(0) {
            b"call" => ("proc", PROCEDURE),
            _ => ("label", LABEL),
        };
        for bytes in line.bytes.split(|byte| *byte == b' ').skip(1) {
            let name = text_of(bytes).unwrap_or("");
            let nearest = self.nearest_to(name, word)?;
            if is_name(bytes) && !nearest.is_exact() {
                self.note(format_args!("no {thing} has the name `{name}`"));
                let elsewhere = format!(in self.alloc; "{word} {name}")?;
                if self
                    .lines
                    .iter()
                    .any(|other| other.bytes == elsewhere.as_bytes())
                {
                    self.note("a label of another procedure has it, and is known there alone");
                } else {
                    self.add_meant(nearest.word());
                }
                return Ok(());
            }
        }
        Ok(())
    }

    /// The nearest name of such a thing; of a label in the same procedure.
    fn nearest_to<'w>(&self, name: &'w str, word: &str) -> Result<Nearest<'w, 'a>, AllocError> {
        let mut nearest = Nearest::new(self.alloc, name);
        let mut procedures: usize = 0;
        for line in &self.lines {
            if line.word(0) == b"proc".as_slice() {
                procedures = procedures.saturating_add(1);
            }
            let is_here = word == "proc" || procedures == self.before.procedures;
            if is_here && line.word(0) == word.as_bytes() {
                nearest.offer(text_of(line.word(1)).unwrap_or(""))?;
            }
        }
        Ok(nearest)
    }
}

// What may have been meant by a word.

/// The nearest of the words that are offered for one.
#[derive(Drop)]
pub struct Nearest<'w, 'a> {
    alloc: Global,
    word: &'w str,
    /// By how many letters the nearest one differs, and that word.
    found: Option<(usize, &'a str)>,
}

impl<'w, 'a> Nearest<'w, 'a> {
    /// None yet.
    pub fn new(alloc: Global, word: &'w str) -> Nearest<'w, 'a> {
        Nearest {
            alloc,
            word,
            found: None,
        }
    }

    /// Offers one more word.
    pub fn offer(&mut self, word: &'a str) -> Result<(), AllocError> {
        let distance = osa_distance(self.alloc, self.word, word)?;
        if self.found.is_none_or(|(least, _)| distance < least) {
            self.found = Some((distance, word));
        }
        Ok(())
    }

    /// The nearest one, where half of its letters are the same, or all but for capitals.
    pub fn word(&self) -> Option<&'a str> {
        let (distance, word) = self.found?;
        let is_near = distance <= self.word.len().max(word.len()) / 2;
        (is_near || word.eq_ignore_ascii_case(self.word)).then_some(word)
    }

    /// Whether the word itself is offered.
    pub fn is_exact(&self) -> bool {
        self.found.is_some_and(|(distance, _)| distance == 0)
    }
}

/// What may stand before a word that is almost a number or a form.
const MISSING: [&str; 4] = ["", "0", "0+", "0+1"];

/// A word that is right where this one is not, if one comes of small letters, without a sign or
/// zeros that are too much, or with a number that is missing.
pub fn mended(alloc: Global, operand: &Operand, word: &str) -> Result<Option<String>, AllocError> {
    let small = word.to_ascii_lowercase(alloc)?;
    let full = small
        .replace(alloc, "+v", "+1v")?
        .replace(alloc, "-v", "-1v")?;
    if let Some(guess) = completed(alloc, operand, &full)? {
        return Ok(Some(guess));
    }
    let bare = word.trim_start_matches('+').trim_start_matches('0');
    completed(alloc, operand, bare)
}

/// The word that is right with what is missing before it, if one is.
fn completed(alloc: Global, operand: &Operand, word: &str) -> Result<Option<String>, AllocError> {
    for missing in MISSING {
        let guess = format!(in alloc; "{missing}{word}")?;
        if operand.is_written(&guess) {
            return Ok(Some(guess));
        }
    }
    Ok(None)
}
