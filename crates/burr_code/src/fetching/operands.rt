//! Operands, each read from the front of the bytes, with the bytes after it. None exactly where
//! the bytes begin with no operand in its range.

ghost use Rattle.std.specs.Prelude.{◌≢◌, ◌<◌, ◌^◌, ◌∷◌, []};
ghost use Rattle.byteorder.specs.Endian.{big_bytes};
ghost use Rattle.burr_voxels.specs.Grid.{number_of};
ghost use Rattle.burr_code.specs.declared.limits.TheConstants.{SLOTS, TRAYS};
ghost use Rattle.burr_code.specs.Instruction.{IsInNumberRange, signed_word};
ghost use Rattle.burr_code.specs.Meaning.{IsOperand};

use crate::limits::{SLOTS, TRAYS};
use burr_voxels::Direction;
use byteorder::{BigEndian, ByteOrder};

/// A slot: one byte.
pub fn slot(bytes: &[u8]) -> Option<(u8, &[u8])>
    ensures { IsOperand (λ slot. slot < SLOTS) (λ slot. slot ∷ []) bytes.now result }
{
    let (slot, rest) = bytes.split_first()?;
    if usize::from(*slot) >= SLOTS {
        return None;
    }
    Some((*slot, rest))
}

/// A tray: one byte.
pub fn tray(bytes: &[u8]) -> Option<(u8, &[u8])>
    ensures { IsOperand (λ tray. tray < TRAYS) (λ tray. tray ∷ []) bytes.now result }
{
    let (tray, rest) = bytes.split_first()?;
    if *tray >= TRAYS {
        return None;
    }
    Some((*tray, rest))
}

/// A direction: one byte.
pub fn direction(bytes: &[u8]) -> Option<(Direction, &[u8])>
    ensures { IsOperand (λ direction. Unit {0}) (λ direction. number_of direction ∷ [])
        bytes.now result }
{
    let (number, rest) = bytes.split_first()?;
    let direction = Direction::of(*number)?;
    Some((direction, rest))
}

/// A label: two bytes.
pub fn label(bytes: &[u8]) -> Option<(u16, &[u8])>
    ensures { IsOperand (λ label. label < 2 ^ 16) (λ label. big_bytes 2 label) bytes.now result }
{
    let rest = bytes.get(2..)?;
    Some((BigEndian::read_u16(bytes), rest))
}

/// A number of -32767 to 32767: two bytes.
pub fn number(bytes: &[u8]) -> Option<(i16, &[u8])>
    ensures { IsOperand IsInNumberRange signed_word bytes.now result }
{
    let rest = bytes.get(2..)?;
    match BigEndian::read_i16(bytes) {
        i16::MIN => None,
        number => Some((number, rest)),
    }
}

/// A set of pieces that is not empty: four bytes.
pub fn set(bytes: &[u8]) -> Option<(u32, &[u8])>
    ensures { IsOperand (λ set. (set ≢ 0) × (set < 2 ^ 32)) (λ set. big_bytes 4 set)
        bytes.now result }
{
    let rest = bytes.get(4..)?;
    match BigEndian::read_u32(bytes) {
        0 => None,
        set => Some((set, rest)),
    }
}
