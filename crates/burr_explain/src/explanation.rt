//! Explanations, and which key asks for one.

ghost use Rattle.std.specs.Prelude.{◌≡◌, ◌↔◌, IsTrue, All, Contains, List, MatchOption, ℕ};
ghost use Rattle.burr_io.specs.Sink.{Puts};
ghost use Rattle.burr_explain.specs.Asked.{IsAfterDigits, IsAskedBy, lower_case, IsDigits, IsFirstWord, IsKeyOf, IsKeyOfCut, IsKeyOfLower, IsLead, IsSaid, keys_among, known_keys};
ghost use Rattle.burr_explain.specs.Layout.{explanation_text, heading, paragraph, paragraph_if_any};

use crate::{assembly, container, output, plan_text, rules, stepper, traps};
use burr_io::{Sink, WriteFault, put_all, put_words};
use burr_text::cut_at;

/// What is explained.
#[derive(Clone, Copy)]
pub enum Subject {
    /// A refusal, by what it names, as `A4` or `input`.
    Refusal(&'static str),
    /// A trap, by its number and its name.
    Trap(&'static str, &'static str),
    /// Another line that is printed, by the word that it begins with; `move` is a sheet's move.
    Line(&'static str),
}

/// What a line means that burr prints. Its texts have a line feed between two lines, and none at
/// their ends.
#[derive(Clone, Copy)]
pub struct Explanation {
    pub subject: Subject,
    pub meaning: &'static str,
    /// What has mostly happened where it is met; empty where that is no question.
    pub cause: &'static str,
    /// What to do next, where something is; else empty.
    pub remedy: &'static str,
    /// What it shows, or what holds where it stands; an empty line; and lines of a text, a plan or a
    /// sheet, or bytes, each after four blanks.
    pub example: &'static str,
}

impl Explanation {
    /// Whether its word, number or name is the key, in lower case.
    pub fn is_asked_by(&self, key: &[u8]) -> bool
        ensures { IsTrue result ↔ IsAskedBy (lower_case key.now) self.now }
    {
        match self.subject {
            Subject::Refusal(word) | Subject::Line(word) => is_same(word, key),
            Subject::Trap(number, name) => is_same(number, key) || is_same(name, key),
        }
    }
}

/// Whether these are the same in lower case.
fn is_same(word: &str, key: &[u8]) -> bool
    ensures { IsTrue result ↔ (lower_case word.now ≡ lower_case key.now) }
{
    word.as_bytes().eq_ignore_ascii_case(key)
}

// What of a line asks for its explanation.

/// The key of a line, in its own case: the word that says what is to be explained.
fn key_of_printed(line: &[u8]) -> &[u8]
    ensures { IsKeyOf line.now (lower_case result.now) }
{
    match said_of(line) {
        Some(said) => key_of(said),
        None => key_of(line),
    }
}

/// What follows the number and the status of a line of `judge`.
fn said_of(line: &[u8]) -> Option<&[u8]>
    ensures { MatchOption result ((said : List ℕ) → ¬ IsSaid (lower_case line.now) said)
        (λ said. IsSaid (lower_case line.now) (lower_case said.now)) }
{
    after_digits(after_digits(line)?)
}

/// What follows a first word of digits.
fn after_digits(line: &[u8]) -> Option<&[u8]>
    ensures { MatchOption result ((rest : List ℕ) → ¬ IsAfterDigits (lower_case line.now) rest)
        (λ rest. IsAfterDigits (lower_case line.now) (lower_case rest.now)) }
{
    let (word, rest) = cut_at(line, b' ')?;
    if is_digits(word) {
        return Some(rest);
    }
    None
}

/// The key of a line that is not of `judge`.
fn key_of(line: &[u8]) -> &[u8]
    ensures { IsKeyOfLower (lower_case line.now) (lower_case result.now) }
{
    match cut_at(line, b' ') {
        Some((word, rest)) => key_of_cut(word, rest),
        None => line,
    }
}

/// The key of a line that has more words than this first one.
fn key_of_cut<'a>(word: &'a [u8], rest: &'a [u8]) -> &'a [u8]
    ensures { IsKeyOfCut (lower_case word.now) (lower_case rest.now) (lower_case result.now) }
{
    if is_lead(word) {
        first_word(rest)
    } else if is_digits(word) {
        b"move"
    } else {
        word
    }
}

/// What stands before the first blank, or all where there is no blank.
fn first_word(line: &[u8]) -> &[u8]
    ensures { IsFirstWord (lower_case line.now) (lower_case result.now) }
{
    match cut_at(line, b' ') {
        Some((word, _)) => word,
        None => line,
    }
}

/// Whether the word only says of what kind the next one is.
fn is_lead(word: &[u8]) -> bool
    ensures { IsTrue result ↔ IsLead (lower_case word.now) }
{
    word.eq_ignore_ascii_case(b"refused") || word.eq_ignore_ascii_case(b"trap")
}

/// Whether these are digits alone, and at least one.
fn is_digits(word: &[u8]) -> bool
    ensures { IsTrue result ↔ IsDigits word.now }
{
    !word.is_empty() && word.iter().all(|byte| 48 <= *byte && *byte <= 57)
}

// Which explanation a line asks for.

/// The explanation that a word or a whole line asks for, as burr prints it, in any case: a
/// refusal's own word, as `A4`, `V15` or `input`, a trap's number or name, as `3` or `NotFree`, the
/// first word of another line, as `waiting` or `after`, or `move`; of a line of `judge` what it
/// says of a pair. None for every other.
pub fn explanation_of(line: &[u8]) -> Option<&'static Explanation>
    ensures { (key : List ℕ) → IsKeyOf line.now key → MatchOption result
        (¬ Contains known_keys key) (λ e. Contains known_keys key × IsAskedBy key e.now) }
{
    explanation_under(key_of_printed(line))
}

/// The explanation that a key asks for.
fn explanation_under(key: &[u8]) -> Option<&'static Explanation>
    ensures { MatchOption result (¬ Contains known_keys (lower_case key.now))
        (λ e. Contains known_keys (lower_case key.now) × IsAskedBy (lower_case key.now) e.now) }
{
    let families = [
        assembly::faults(),
        container::faults(),
        plan_text::faults(),
        rules::code::rules(),
        rules::space::rules(),
        rules::frames::rules(),
        output::lines(),
        stepper::lines(),
        traps::traps(),
    ];
    find_in_families(&families, key)
}

/// The first of all these explanations that the key asks for.
fn find_in_families<'a>(families: &[&'a [Explanation]], key: &[u8]) -> Option<&'a Explanation>
    ensures { MatchOption result (¬ Contains (keys_among families.now) (lower_case key.now))
        (λ e. Contains (keys_among families.now) (lower_case key.now)
        × IsAskedBy (lower_case key.now) e.now) }
{
    families.iter().find_map(|family| find_in(family, key))
}

/// The first of these explanations that the key asks for.
fn find_in<'a>(family: &'a [Explanation], key: &[u8]) -> Option<&'a Explanation>
    ensures { MatchOption result (All (λ e. ¬ IsAskedBy (lower_case key.now) e) family.now)
        (λ e. Contains family.now e.now × IsAskedBy (lower_case key.now) e.now) }
{
    family
        .iter()
        .find(|explanation| explanation.is_asked_by(key))
}

// How an explanation is written.

/// Puts an explanation: its heading as the program prints it, and a paragraph each for its
/// meaning, its usual cause and what to do, where those are told, and an example.
pub fn put_explanation<W: Sink>(entry: &Explanation, sink: &mut W) -> Result<(), WriteFault>
    ensures { Puts W.Sink sink.old sink.new (explanation_text entry.now) result }
{
    put_heading(&entry.subject, sink)?;
    put_paragraph(b"\n", entry.meaning, sink)?;
    put_if_any(b"\nUsual cause: ", entry.cause, sink)?;
    put_if_any(b"\nWhat to do: ", entry.remedy, sink)?;
    put_paragraph(b"\nExample: ", entry.example, sink)
}

/// Puts the first line, `refused A4`, `trap 3 NotFree` or `waiting`.
fn put_heading<W: Sink>(subject: &Subject, sink: &mut W) -> Result<(), WriteFault>
    ensures { Puts W.Sink sink.old sink.new (heading subject.now) result }
{
    match *subject {
        Subject::Refusal(word) => put_words(&[b"refused", word.as_bytes()], sink),
        Subject::Trap(number, name) => {
            put_words(&[b"trap", number.as_bytes(), name.as_bytes()], sink)
        }
        Subject::Line(word) => put_words(&[word.as_bytes()], sink),
    }
}

/// Puts a text after these bytes, and a line feed; nothing where the text is empty.
fn put_if_any<W: Sink>(before: &[u8], text: &str, sink: &mut W) -> Result<(), WriteFault>
    ensures { Puts W.Sink sink.old sink.new (paragraph_if_any before.now text.now) result }
{
    if text.is_empty() {
        return Ok(());
    }
    put_paragraph(before, text, sink)
}

/// Puts a text after these bytes, and a line feed.
fn put_paragraph<W: Sink>(before: &[u8], text: &str, sink: &mut W) -> Result<(), WriteFault>
    ensures { Puts W.Sink sink.old sink.new (paragraph before.now text.now) result }
{
    put_all(before, sink)?;
    put_words(&[text.as_bytes()], sink)
}
