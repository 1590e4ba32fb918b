ghost use Rattle.std.specs.Prelude.{◌≡◌, [], ◌≤◌, ◌<◌, ℕ, List, Some, length, slice_get, true, IfOk};
ghost use Rattle.burr_code.specs.declared.limits.TheConstants.{MOST_LABELS};
ghost use Rattle.burr_container.specs.Rules.Plans.{Frame};
ghost use Rattle.burr_container.specs.Rules.Faults.{number, label as label_part};
ghost use Rattle.burr_container.specs.declared.fault.ContainerFault.TheVariants.{C5 as C5_at};
ghost use Rattle.burr_container.specs.Views.Reading.{Reads};
ghost use Rattle.burr_container.specs.Views.Refs.{ReadsInPlace, frame_of};
ghost use Rattle.burr_container.specs.Views.InPlace.{AreFor, IsLabel};
ghost use Rattle.burr_container.specs.Views.Readable.{NeverFails};

use crate::fault::ContainerFault;
use crate::frame_ref::FrameRef;
use crate::layout::Layout;
use crate::reading::{Cursor, frame};
use arrayvec::ArrayVec;
use burr_code::limits::MOST_LABELS;
use std::marker::Model;

/// The labels of a procedure, read in place: the bytes from the first one on, and where in them each
/// label begins, so that it can be read again. These numbers have 32 bits, since a container asks
/// for no memory and so lies on the stack, with up to 4,096 of them.
#[derive(Drop)]
pub struct LabelTable<'a> {
    pub layout: Layout,
    pub bytes: &'a [u8],
    pub begins: ArrayVec<u32, MOST_LABELS>,
}

impl<'a> Model for LabelTable<'a> {
    ghost use Rattle.burr_container.specs.Views.Readable.{LabelsView, AreReadable, labels_at};

    ghost Value = { LabelsView };

    ghost view = { λ table. labels_at table.layout table.bytes.now table.begins.items };

    ghost invariant = { λ table.
        AreReadable table.layout.pieces table.bytes.now table.begins.items };
}

/// No label.
impl<'a> Default for LabelTable<'a> {
    ghost is_default = { λ table. (table.layout.pieces ≡ 0) × (table.starts ≡ []) };

    fn default() -> LabelTable<'a> {
        LabelTable {
            layout: Layout {
                version: 0,
                pieces: 0,
            },
            bytes: &[],
            begins: ArrayVec::new(),
        }
    }
}

// Reading labels again, each from its first byte on.
impl<'a> LabelTable<'a> {
    /// How many labels there are.
    pub fn count(&self) -> usize
        ensures count { result ≡ length self.now.starts }
        ensures few { result ≤ MOST_LABELS }
    {
        self.begins.len()
    }

    /// The position of label n in the code. Its frame is not read.
    pub fn position(&self, n: usize) -> u16
        requires { n < length self.now.starts }
        ensures { (pieces : ℕ) (ls : List (ℕ × Frame)) (l : ℕ × Frame)
            → AreFor (IsLabel pieces) self.now.starts ls → slice_get ls n ≡ Some l
            → result ≡ l.0 }
    {
        let Ok(position) = any_position(&mut self.begin(n)) else {
            unreachable!();
        };
        position
    }

    /// The position of label n in the code, and its frame.
    pub fn label(&self, n: usize) -> (u16, FrameRef<'a>)
        requires { n < length self.now.starts }
        ensures places { result.1.places.count ≡ self.now.layout.pieces }
        ensures label { (ls : List (ℕ × Frame)) (l : ℕ × Frame)
            → AreFor (IsLabel self.now.layout.pieces) self.now.starts ls
            → slice_get ls n ≡ Some l → (result.0 ≡ l.0) × (frame_of result.1 ≡ l.1) }
    {
        let Ok(label) = label(self.layout, &mut self.begin(n)) else {
            unreachable!();
        };
        label
    }

    /// At the begin of label n, which can be read there.
    fn begin(&self, n: usize) -> Cursor<'a>
        requires { n < length self.now.starts }
        ensures begin { slice_get self.now.starts n ≡ Some result.rest.now }
        ensures readable { NeverFails (label_part (λ position. true) self.now.layout.pieces)
            result.rest.now }
    {
        let begin = self.begins[n] as usize;
        Cursor::new(&self.bytes[begin..])
    }
}

/// A position; any number will do here.
fn any_position(cursor: &mut Cursor<'_>) -> Result<u16, ContainerFault>
    ensures { Reads (number 2 C5_at (λ p. true)) cursor.old cursor.new result }
{
    cursor.word()
}

/// A label: its position, for which any number will do here, and its frame.
fn label<'a>(layout: Layout, cursor: &mut Cursor<'a>) -> Result<(u16, FrameRef<'a>), ContainerFault>
    ensures places { IfOk result (λ ok. ok.1.places.count ≡ layout.pieces) }
    ensures reads { ReadsInPlace (λ kept. (kept.0, frame_of kept.1))
        (label_part (λ p. true) layout.pieces) cursor.old cursor.new result }
{
    let position = any_position(cursor)?;
    let frame = frame(layout, cursor)?;
    Ok((position, frame))
}
