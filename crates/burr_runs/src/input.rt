//! The input: an assembly's text, and after it a last line with code.

ghost use Rattle.std.specs.Prelude.{◌≡◌, ◌≢◌, ℕ, ◌<◌, List, [], ◌∷◌, ◌++◌, length, slice_index, Contains, IfOk, MatchOption, IfErr};
ghost use Rattle.std.specs.List.{list_all};
ghost use Rattle.burr_text.specs.Lines.{IsLines};
ghost use Rattle.burr_runs.specs.Rules.Input.{IsCodeLine, IsInput, is_hex_digit};
ghost use Rattle.burr_runs.specs.Views.ReadWhole.{IsWholeInput, ReadFails};
ghost use Rattle.burr_runs.specs.Rules.Answers.{answer_line, answers_text, BeginsWithNone, IsAnswersFault};

use burr_code::limits::MOST_CODE;
use burr_io::{IoFailed, Source, WriteFault, last_line_end};
use burr_text::{cut_at, integer};
use hex::FromHexError;
use std::alloc::{AllocError, AllocFailed, Global};
use thiserror::Error;

/// The text of an input, and the code of its last line; None where the input isn't of this form.
pub fn parse_input<'a>(
    alloc: Global,
    input: &'a [u8],
) -> Result<Option<(&'a [u8], Vec<u8>)>, AllocError>
    ensures { IfOk result (λ found. MatchOption found
        ((text code : List ℕ) → ¬ IsInput input.now text code)
        (λ parts. IsInput input.now parts.0.now parts.1.items)) }
{
    let Some((text, line)) = split_last_line(input) else {
        return Ok(None);
    };
    match code_of(alloc, line)? {
        Some(code) => Ok(Some((text, code))),
        None => Ok(None),
    }
}

/// The last line of the input without its end, and what stands before it; None where the last line
/// has no end.
fn split_last_line(input: &[u8]) -> Option<(&[u8], &[u8])>
    ensures { MatchOption result
        ((front : List ℕ) → input.now ≢ front ++ 10 ∷ [])
        (λ parts. (input.now ≡ parts.0.now ++ parts.1.now ++ 10 ∷ []) × IsLines parts.0.now
        × (¬ Contains parts.1.now 10)) }
{
    let (end, lines) = input.split_last()?;
    if *end != b'\n' {
        return None;
    }
    match last_line_end(lines) {
        Some(last) => Some(lines.split_at(last + 1)),
        None => Some((b"", lines)),
    }
}

/// The code of a line `code` with its hexadecimal digits; None where the line isn't of this form.
fn code_of(alloc: Global, line: &[u8]) -> Result<Option<Vec<u8>>, AllocError>
    ensures { IfOk result (λ found. MatchOption found
        ((code : List ℕ) → ¬ IsCodeLine line.now code)
        (λ code. IsCodeLine line.now code.items)) }
{
    let Some(digits) = line.strip_prefix(b"code ") else {
        return Ok(None);
    };
    if digits.is_empty() || digits.len() > 2 * MOST_CODE || !are_digits(digits) {
        return Ok(None);
    }
    match hex::decode(alloc, digits) {
        Ok(code) => Ok(Some(code)),
        Err(fault) => match fault {
            FromHexError::OutOfMemory => Err(AllocError),
            _ => Ok(None),
        },
    }
}

/// Whether all bytes are lower case hexadecimal digits.
fn are_digits(bytes: &[u8]) -> bool
    ensures { result ≡ list_all is_hex_digit bytes.now }
{
    bytes
        .iter()
        .all(|byte| matches!(byte, b'0'..=b'9' | b'a'..=b'f'))
}

/// The most bytes of an input.
pub const LIMIT: usize = 16_777_216;

/// The bytes of a source to its end. `Read` comes only where a call of the source failed, and
/// `TooLong` where it gave more than the most bytes of an input.
pub fn read_whole<R: Source>(alloc: Global, source: &mut R) -> Result<Vec<u8>, BenchFault>
    ensures ok { IfOk result (λ bytes. IsWholeInput
        (R.left source.old) (R.left source.new) (R.has_failed source.new) bytes.items) }
    ensures err { IfErr result (λ fault. ReadFails
        (R.left source.old) (R.left source.new) (R.has_failed source.new) fault) }
{
    let mut bytes = Vec::new(alloc);
    let mut buffer = [0u8; 8192];
    while bytes.len() <= LIMIT {
        let count = source.pull(&mut buffer)?;
        if count == 0 {
            return Ok(bytes);
        }
        bytes.extend_from_slice(&buffer[..count])?;
    }
    Err(BenchFault::TooLong)
}

// The operator's answers.

/// Why answers can't be read.
#[derive(Clone, Copy, Debug, PartialEq, Eq, Error)]
pub enum AnswersFault {
    /// The first faulty line, counted from 1.
    #[error("line {0} is no answer")]
    Line(usize),
    #[error("no memory")]
    Memory,
}

impl From<AllocError> for AnswersFault {
    ghost use Rattle.std.specs.Prelude.{◌≡◌};
    ghost use Rattle.burr_runs.specs.declared.input.AnswersFault.TheVariants.{Memory};

    ghost from_gives = { λ _ e. e ≡ Memory };

    fn from(_e: AllocError) -> AnswersFault {
        AnswersFault::Memory
    }
}

impl<T: Drop> From<AllocFailed<T>> for AnswersFault {
    ghost use Rattle.std.specs.Prelude.{◌≡◌};
    ghost use Rattle.burr_runs.specs.declared.input.AnswersFault.TheVariants.{Memory};

    ghost from_gives = { λ _ e. e ≡ Memory };

    fn from(_e: AllocFailed<T>) -> AnswersFault {
        AnswersFault::Memory
    }
}

/// The answers of a text: one number of 32 bits on each line, each line ended by a line feed. An
/// empty text has no answers. The fault names the first line that is not an answer, or is `Memory`
/// where a request for memory was refused.
pub fn read_answers(alloc: Global, text: &[u8]) -> Result<Vec<i32>, AnswersFault>
    ensures ok { IfOk result (λ answers. text.now ≡ answers_text answers.items) }
    ensures err { IfErr result (IsAnswersFault text.now) }
{
    let mut answers = Vec::new(alloc);
    let mut rest = text;
    while !rest.is_empty() {
        let Some((answer, after)) = first_answer(rest) else {
            return Err(AnswersFault::Line(answers.len() + 1));
        };
        answers.push(answer)?;
        rest = after;
    }
    Ok(answers)
}

/// The answer that the first line of a text is, and what stands after the line.
fn first_answer(text: &[u8]) -> Option<(i32, &[u8])>
    ensures { MatchOption result (BeginsWithNone text.now) (λ found.
        text.now ≡ answer_line found.0 ++ found.1.now) }
{
    let (line, after) = cut_at(text, b'\n')?;
    Some((integer(line)?, after))
}

/// Why an input has no outcome.
#[derive(Clone, Copy, Debug, PartialEq, Eq, Error)]
pub enum BenchFault {
    #[error("the input cannot be read")]
    Read,
    #[error("the input has more than 16777216 bytes")]
    TooLong,
    #[error("the output cannot be written")]
    Write,
    #[error("no memory")]
    Memory,
}

impl From<IoFailed> for BenchFault {
    ghost use Rattle.std.specs.Prelude.{◌≡◌};
    ghost use Rattle.burr_runs.specs.declared.input.BenchFault.TheVariants.{Read};

    ghost from_gives = { λ _ e. e ≡ Read };

    fn from(_e: IoFailed) -> BenchFault {
        BenchFault::Read
    }
}

impl From<WriteFault> for BenchFault {
    ghost use Rattle.std.specs.Prelude.{◌≡◌};
    ghost use Rattle.burr_runs.specs.declared.input.BenchFault.TheVariants.{Write};

    ghost from_gives = { λ _ e. e ≡ Write };

    fn from(_e: WriteFault) -> BenchFault {
        BenchFault::Write
    }
}

impl From<AllocError> for BenchFault {
    ghost use Rattle.std.specs.Prelude.{◌≡◌};
    ghost use Rattle.burr_runs.specs.declared.input.BenchFault.TheVariants.{Memory};

    ghost from_gives = { λ _ e. e ≡ Memory };

    fn from(_e: AllocError) -> BenchFault {
        BenchFault::Memory
    }
}

impl<T: Drop> From<AllocFailed<T>> for BenchFault {
    ghost use Rattle.std.specs.Prelude.{◌≡◌};
    ghost use Rattle.burr_runs.specs.declared.input.BenchFault.TheVariants.{Memory};

    ghost from_gives = { λ _ e. e ≡ Memory };

    fn from(_e: AllocFailed<T>) -> BenchFault {
        BenchFault::Memory
    }
}
