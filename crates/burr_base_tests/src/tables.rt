//! Tables of cases. A table is four texts: the kind of its answers (`answers` has a list), what its
//! inputs are made of, what its wanted answers are made of, and its cases: a case a line, and
//! headings that begin with `;`. After the last `|` of a case stands what is wanted, and before it
//! the input: `inputs` says how both are written.

use crate::answers::answer_to;
use burr_testing::bytes_of;
use std::alloc::{AllocError, Global};
use std::process::Abort;

/// Asserts each case of some tables.
pub fn assert_tables(rt: &impl Abort, alloc: Global, tables: &[[&str; 4]]) {
    for table in tables {
        assert_table(rt, alloc, table);
    }
}

/// Asserts each case of a table.
fn assert_table(rt: &impl Abort, alloc: Global, table: &[&str; 4]) {
    for case in table[3].lines() {
        if !case.starts_with(';') {
            assert_case(rt, alloc, table, case).expect(rt, "memory");
        }
    }
}

/// Asserts that a case of a table has the answer that is wanted.
fn assert_case(
    rt: &impl Abort,
    alloc: Global,
    table: &[&str; 4],
    case: &str,
) -> Result<(), AllocError> {
    let [kind, base, wanted, _cases] = *table;
    let (input, want) = case.rsplit_once('|').unwrap_or((case, "a case has a bar"));
    let input = input_of(alloc, kind, base, input)?;
    let found = answer_to(alloc, kind, &input)?;
    let want = text_of(alloc, wanted, want)?;
    assert_answer(rt, case, &found, &want);
    Ok(())
}

/// Asserts the answer to a case.
pub fn assert_answer(rt: &impl Abort, case: &str, found: &str, want: &str) {
    assert!(rt; found == want, "{case}: {found}");
}

// How inputs and wanted answers are written. In them `/` is the end of a line, and `<3 ab%>` is
// `ab1ab2ab3`: what stands there is repeated, and `%` is the number of the repetition. An input is
// put into a text, in place of its `@`. Where the text has no `@`, the input edits lines of the
// text: `4 cost 7|9 halt` puts `cost 7` in the place of the fourth line and `halt` in that of the
// ninth.

/// The bytes of an input to answers of a kind.
pub fn input_of(alloc: Global, kind: &str, base: &str, input: &str) -> Result<Vec<u8>, AllocError> {
    let text = text_of(alloc, base, input)?;
    match kind {
        // a word that is no number would be the fault of a table
        "code" | "labels" | "container" | "written" | "plan" => {
            bytes_of(alloc, &text).ok_or(AllocError)
        }
        _ => Vec::from_slice(alloc, text.as_bytes()),
    }
}

/// The text that is made of another one and an input.
pub fn text_of(alloc: Global, base: &str, input: &str) -> Result<String, AllocError> {
    let text = match base.split_once('@') {
        Some((front, rest)) => format!(in alloc; "{front}{input}{rest}")?,
        None => edited(alloc, base, input)?,
    };
    repeated(alloc, text)?.replace(alloc, '/', "\n")
}

/// A text in which all that is to be repeated is.
fn repeated(alloc: Global, text: String) -> Result<String, AllocError> {
    let mut text = text;
    // as often as there is something to repeat
    for _ in 0..100u32 {
        match with_repetition(alloc, &text)? {
            Some(longer) => text = longer,
            None => break,
        }
    }
    Ok(text)
}

/// A text with others in the place of some of its lines, which are counted from 1.
fn edited(alloc: Global, base: &str, edits: &str) -> Result<String, AllocError> {
    let mut text = String::new(alloc);
    for (index, kept) in base.split_terminator('\n').enumerate() {
        text.push_str(edit_of(edits, index.wrapping_add(1)).unwrap_or(kept))?;
        text.push('\n')?;
    }
    Ok(text)
}

/// What edits put in the place of the line with this number.
fn edit_of(edits: &str, number: usize) -> Option<&str> {
    for edit in edits.split('|') {
        let (place, put) = edit.split_once(' ')?;
        if number_of(place) == Some(number) {
            return Some(put);
        }
    }
    None
}

/// A text in which the last of what is to be repeated is; None where there is nothing of that.
fn with_repetition(alloc: Global, text: &str) -> Result<Option<String>, AllocError> {
    let Some((front, count, part, rest)) = repetition(text) else {
        return Ok(None);
    };
    let mut longer = String::from_str(alloc, front)?;
    add_repeated(alloc, count, part, &mut longer)?;
    longer.push_str(rest)?;
    Ok(Some(longer))
}

/// Adds a part `count` times, each with its number.
fn add_repeated(
    alloc: Global,
    count: usize,
    part: &str,
    text: &mut String,
) -> Result<(), AllocError> {
    for number in 1..=count {
        add_numbered(alloc, number, part, text)?;
    }
    Ok(())
}

/// Adds a part with the number of its repetition.
fn add_numbered(
    alloc: Global,
    number: usize,
    part: &str,
    text: &mut String,
) -> Result<(), AllocError> {
    let number = format!(in alloc; "{number}")?;
    text.push_str(&part.replace(alloc, '%', &number)?)
}

/// What stands before the last repetition of a text, how often it is, what it is of, and what
/// stands after it.
fn repetition(text: &str) -> Option<(&str, usize, &str, &str)> {
    let (front, rest) = text.rsplit_once('<')?;
    let (repeated, rest) = rest.split_once('>')?;
    let (count, part) = repeated.split_once(' ')?;
    Some((front, number_of(count)?, part, rest))
}

/// The number that a text is.
pub fn number_of(text: &str) -> Option<usize> {
    text.parse().ok()
}
