//! The numbers that words are, each None where it is out of its range.

ghost use Rattle.std.specs.Prelude.{◌<◌, ◌≤◌, ◌≤ℤ◌, if◌then◌else◌, IfSome};
ghost use Rattle.std.specs.Int.{w16, w32};
ghost use Rattle.burr_code.specs.Instruction.{IsInNumberRange};
ghost use Rattle.burr_code.specs.declared.limits.TheConstants.{MOST_BUDGET, SLOTS, TRAYS};
ghost use Rattle.burr_asm.specs.declared.text.numbers.TheConstants.{MOST_RESULTS};
ghost use Rattle.burr_asm.specs.Views.LineWords.{word_if_any};
ghost use Rattle.burr_asm.specs.Views.Numbers.{IsBelow, IsWithin, IsOperand, AreEnds, IsOfWidth};
ghost use Rattle.burr_asm.specs.Views.Numbers.{IsResultCount};

use crate::text::words::NumberWord;
use burr_code::limits::{MOST_BUDGET, SLOTS, TRAYS};

/// The fewest and the most pieces of a plan.
pub const FEWEST_PIECES: u8 = 2;

pub const MOST_PIECES: u8 = 32;

/// The most results of a procedure.
const MOST_RESULTS: u8 = 2;

/// A number of 0 to 255.
pub fn byte(number: NumberWord<'_>) -> Option<u8>
    ensures { IsBelow 256 number.entry.bytes.now result }
{
    number.as_str().parse().ok()
}

/// A number of 0 to 4,294,967,295.
fn long(number: NumberWord<'_>) -> Option<u32>
    ensures { IsBelow 4294967296 number.entry.bytes.now result }
{
    number.as_str().parse().ok()
}

/// The number of an element of a list.
pub fn index(number: NumberWord<'_>) -> Option<usize>
    ensures { IsBelow 18446744073709551616 number.entry.bytes.now result }
{
    number.as_str().parse().ok()
}

/// A number that is at least the one, and at most the other.
pub fn within(number: NumberWord<'_>, least: u8, most: u8) -> Option<u8>
    ensures few { IfSome result (λ found. found ≤ most) }
    ensures many { IfSome result (λ found. least ≤ found) }
    ensures value { IsWithin least most number.entry.bytes.now result }
{
    let found = byte(number)?;
    (least <= found && found <= most).then_some(found)
}

/// The budget of a plan: 1 to 1,000,000.
pub fn budget(number: NumberWord<'_>) -> Option<u32>
    ensures { IsWithin 1 MOST_BUDGET number.entry.bytes.now result }
{
    let budget = long(number)?;
    (1 <= budget && budget <= MOST_BUDGET).then_some(budget)
}

/// How many results a procedure has: none for main, else 0 to 2; none too where nothing is said of
/// them.
pub fn result_count(number: Option<NumberWord<'_>>, main: bool) -> Option<u8>
    ensures few { IfSome result (λ count. count ≤ MOST_RESULTS) }
    ensures value { IsResultCount (if main then 0 else 2) (word_if_any number.entry) result }
{
    match number {
        Some(number) => count_of(number, main, MOST_RESULTS),
        None => Some(0),
    }
}

/// How many parameters or results a procedure has: none for main, else 0 to `most`.
pub fn count_of(number: NumberWord<'_>, main: bool, most: u8) -> Option<u8>
    ensures few { IfSome result (λ count. count ≤ most) }
    ensures value { IsWithin 0 (if main then 0 else most) number.entry.bytes.now result }
{
    if main {
        within(number, 0, 0)
    } else {
        within(number, 0, most)
    }
}

/// A tray: 0 to 31.
pub fn tray(number: NumberWord<'_>) -> Option<u8>
    ensures few { IfSome result (λ tray. tray < TRAYS) }
    ensures value { IsBelow TRAYS number.entry.bytes.now result }
{
    let tray = byte(number)?;
    (tray < TRAYS).then_some(tray)
}

/// A slot: 0 to 7.
pub fn slot(number: NumberWord<'_>) -> Option<u8>
    ensures few { IfSome result (λ slot. slot < SLOTS) }
    ensures value { IsBelow SLOTS number.entry.bytes.now result }
{
    let slot = byte(number)?;
    (usize::from(slot) < SLOTS).then_some(slot)
}

/// What a slot or an operand may hold: -32,767 to 32,767.
pub fn operand(number: NumberWord<'_>) -> Option<i16>
    ensures range { IfSome result IsInNumberRange }
    ensures value { IsOperand number.entry.bytes.now result }
{
    let operand = coefficient(number)?;
    (operand != i16::MIN).then_some(operand)
}

/// A range of operands, the lower end first.
pub fn range(low: NumberWord<'_>, high: NumberWord<'_>) -> Option<(i16, i16)>
    ensures low { IfSome result (λ range. IsInNumberRange range.0) }
    ensures high { IfSome result (λ range. IsInNumberRange range.1) }
    ensures order { IfSome result (λ range. range.0 ≤ℤ range.1) }
    ensures value { AreEnds low.entry.bytes.now high.entry.bytes.now result }
{
    let (low, high) = (operand(low)?, operand(high)?);
    (low <= high).then_some((low, high))
}

/// The constant of a form: any of 32 bits.
pub fn constant(number: NumberWord<'_>) -> Option<i32>
    ensures { IsOfWidth w32 number.entry.bytes.now result }
{
    number.as_str().parse().ok()
}

/// The coefficient of a slot: any of 16 bits.
pub fn coefficient(number: NumberWord<'_>) -> Option<i16>
    ensures { IsOfWidth w16 number.entry.bytes.now result }
{
    number.as_str().parse().ok()
}
