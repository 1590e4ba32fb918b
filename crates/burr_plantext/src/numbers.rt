//! Numbers, sets of pieces and the ends of lines, added to a text.

ghost use Rattle.std.specs.Prelude.{◌≡◌, ◌++◌, ◌∷◌, [], OnOk};
ghost use Rattle.burr_plantext.specs.Rules.Listing.{set_word};

use itoa::{Buffer, Integer};
use std::alloc::AllocError;

/// What comes of adding to a text: it is added, or memory for it is refused.
pub type Added = Result<(), AllocError>;

/// Adds bytes, and then a number.
pub fn add_number<Number: Integer>(text: &mut Vec<u8>, before: &[u8], number: Number) -> Added
    ensures { OnOk result (text.new.items ≡ text.old.items ++ (before.now ++ Number.text number)) }
{
    match before {
        [] => {}
        [byte] => text.push(*byte)?,
        _ => text.extend_from_slice(before)?,
    }
    text.extend_from_slice(Buffer::new().format(number).as_bytes())
}

/// Adds the end of a line.
pub fn end_line(text: &mut Vec<u8>) -> Added
    ensures { OnOk result (text.new.items ≡ text.old.items ++ 10 ∷ []) }
{
    text.push(b'\n')?;
    Ok(())
}

/// Adds bytes, and then a set of pieces: `-`, or the rising numbers of its pieces joined by `,`.
pub fn add_set(text: &mut Vec<u8>, before: &[u8], set: u32) -> Added
    ensures { OnOk result (text.new.items ≡ text.old.items ++ (before.now ++ set_word set)) }
{
    text.extend_from_slice(before)?;
    let mut separator: &[u8] = b"";
    let mut rest = set;
    for piece in 0..32u8 {
        if rest % 2 == 1 {
            add_number(text, separator, piece)?;
            separator = b",";
        }
        rest /= 2;
    }
    if separator.is_empty() {
        text.push(b'-')?;
    }
    Ok(())
}
