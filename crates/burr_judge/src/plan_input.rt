ghost use Rattle.std.specs.Prelude.{IfErr, IfOk};
ghost use Rattle.std.specs.Cow.{cow_slice_items};
ghost use Rattle.burr_judge.specs.Inputs.{AreBytesOf, IsPlanInput, RefusesInput};
ghost use Rattle.burr_judge.specs.Stops.{Refuses};

use crate::stop::Stop;
use burr_asm::assemble;
use std::alloc::Global;
use std::borrow::CowSlice;

/// A plan, as it is given: a container, or a text to be assembled.
#[derive(Clone, Copy)]
pub enum PlanInput<'x> {
    Container(&'x [u8]),
    Text(&'x [u8]),
}

impl<'x> PlanInput<'x> {
    /// Returns a container if the bytes begin with a container's magic, else a plan text.
    pub fn of(bytes: &'x [u8]) -> PlanInput<'x>
        ensures { IsPlanInput bytes.entry.now result }
    {
        if bytes.starts_with(b"BPLN") {
            PlanInput::Container(bytes)
        } else {
            PlanInput::Text(bytes)
        }
    }

    /// Returns the bytes of the container; a text is assembled.
    pub fn bytes<'y>(self, alloc: Global) -> Result<CowSlice<'x, u8, Global>, Stop<'y>>
        ensures ok { IfOk result (λ bytes. AreBytesOf self.entry (cow_slice_items bytes)) }
        ensures err { IfErr result (Refuses (RefusesInput self.entry)) }
    {
        match self {
            PlanInput::Container(bytes) => Ok(CowSlice::Borrowed(bytes)),
            PlanInput::Text(text) => Ok(CowSlice::Owned(assemble(alloc, text)?)),
        }
    }
}
