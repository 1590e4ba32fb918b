//! Reading the parts of a container, from its front on.

mod cursor;
mod parts;

ghost use Rattle.std.specs.Prelude.{◌&&◌, ◌<◌, nat_le};
ghost use Rattle.burr_container.specs.declared.fault.ContainerFault.TheVariants.{C4 as C4_at};
ghost use Rattle.burr_container.specs.Rules.Fitting.{is_tray, is_set_of};
ghost use Rattle.burr_container.specs.Rules.Faults.{number, range as range_part};
ghost use Rattle.burr_container.specs.Views.Reading.{Reads};

use crate::fault::ContainerFault;
use crate::layout::Layout;
use burr_code::limits::TRAYS;
pub use cursor::Cursor;
pub use parts::{exit_frame, frame, header, main_procedure, other_procedure};

/// A byte within a range, both ends in it; else C4 at it.
pub fn byte_within(cursor: &mut Cursor<'_>, low: u8, high: u8) -> Result<u8, ContainerFault>
    ensures { Reads (number 1 C4_at (λ n. nat_le low n && nat_le n high))
        cursor.old cursor.new result }
{
    let at = cursor.at;
    let byte = cursor.byte()?;
    if byte < low || high < byte {
        return Err(ContainerFault::C4 { at });
    }
    Ok(byte)
}

/// A count of one byte within a range, both ends in it; else C4 at it.
pub fn count_within(
    cursor: &mut Cursor<'_>,
    low: usize,
    high: usize,
) -> Result<usize, ContainerFault>
    ensures { Reads (number 1 C4_at (λ n. nat_le low n && nat_le n high))
        cursor.old cursor.new result }
{
    let at = cursor.at;
    let byte = cursor.byte()?;
    let count = usize::from(byte);
    if count < low || high < count {
        return Err(ContainerFault::C4 { at });
    }
    Ok(count)
}

/// A number of 16 bits within a range, both ends in it; else C4 at it.
pub fn word_within(
    cursor: &mut Cursor<'_>,
    low: usize,
    high: usize,
) -> Result<usize, ContainerFault>
    ensures { Reads (number 2 C4_at (λ n. nat_le low n && nat_le n high))
        cursor.old cursor.new result }
{
    let at = cursor.at;
    let word = cursor.word()?;
    let number = usize::from(word);
    if number < low || high < number {
        return Err(ContainerFault::C4 { at });
    }
    Ok(number)
}

/// The number of a tray.
pub fn tray(cursor: &mut Cursor<'_>) -> Result<u8, ContainerFault>
    ensures { Reads (number 1 C4_at is_tray) cursor.old cursor.new result }
{
    let at = cursor.at;
    let tray = cursor.byte()?;
    if TRAYS <= tray {
        return Err(ContainerFault::C4 { at });
    }
    Ok(tray)
}

/// A set of some of the pieces.
pub fn piece_set(layout: Layout, cursor: &mut Cursor<'_>) -> Result<u32, ContainerFault>
    ensures { Reads (number 4 C4_at (is_set_of layout.pieces)) cursor.old cursor.new result }
{
    let at = cursor.at;
    let set = cursor.long()?;
    if u64::from(set) >= 1u64 << layout.pieces {
        return Err(ContainerFault::C4 { at });
    }
    Ok(set)
}

/// The range of a live slot: two numbers of -32,767 to 32,767, the lower first.
pub fn range(cursor: &mut Cursor<'_>) -> Result<(i16, i16), ContainerFault>
    ensures { Reads range_part cursor.old cursor.new result }
{
    let low_at = cursor.at;
    let low = cursor.signed()?;
    if low == i16::MIN {
        return Err(ContainerFault::C4 { at: low_at });
    }
    let high_at = cursor.at;
    let high = cursor.signed()?;
    if high < low {
        return Err(ContainerFault::C4 { at: high_at });
    }
    Ok((low, high))
}
