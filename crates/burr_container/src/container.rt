ghost use Rattle.std.specs.Prelude.{◌≡◌, ◌≤◌, ◌<◌, [], length, slice_get, IfSome};
ghost use Rattle.burr_code.specs.declared.limits.TheConstants.{MOST_BUDGET, MOST_CODE, MOST_PARAMETERS, MOST_PROCEDURES};
ghost use Rattle.burr_container.specs.Rules.Plans.{Plan};
ghost use Rattle.burr_container.specs.Rules.Faults.{procedures as procedures_part};
ghost use Rattle.burr_container.specs.Views.Reading.{ReadsInto};
ghost use Rattle.burr_container.specs.Views.Refs.{frame_of};
ghost use Rattle.burr_container.specs.Views.InPlace.{AreFor, IsProcedure, IsExit};
ghost use Rattle.burr_container.specs.Views.Containers.{ReadsContainer, IsContainer, HasPlan, IsHeader, HasLabel, OfProcedure, OfLabel};
ghost use Rattle.burr_container.specs.Views.Lent.{IsLent};

use crate::fault::ContainerFault;
use crate::frame_ref::{ExitRef, FrameRef};
use crate::layout::Layout;
use crate::procedure_ref::{ProcedureRef, StoredProcedure};
use crate::reading::{Cursor, count_within, header, main_procedure, other_procedure};
use arrayvec::ArrayVec;
use burr_code::limits::MOST_PROCEDURES;
use std::marker::Model;

/// A plan in its binary format of version 1 or 2, read in place. There is a plan that it is the
/// container of.
#[derive(Drop)]
pub struct Container<'a> {
    pub(crate) header: Header<'a>,
    pub(crate) procedures: ArrayVec<StoredProcedure<'a>, MOST_PROCEDURES>,
}

impl<'a> Model for Container<'a> {
    ghost use Rattle.burr_container.specs.Views.Containers.{ContainerView, container_view, HasPlan};

    ghost Value = { ContainerView };

    ghost view = { λ c. container_view c.header c.procedures.items };

    ghost invariant = { λ c. HasPlan (container_view c.header c.procedures.items) };
}

// Reading a container.
impl<'a> Container<'a> {
    /// The container with these bytes, or the first fault of them. Each byte is looked at a bounded
    /// number of times.
    pub fn parse(bytes: &'a [u8]) -> Result<Container<'a>, ContainerFault>
        ensures { ReadsContainer bytes.now result }
    {
        let mut cursor = Cursor::new(bytes);
        let header = header(&mut cursor)?;
        let layout = Layout {
            version: header.version,
            pieces: header.pieces,
        };
        let mut procedures = ArrayVec::new();
        read_procedures(layout, &mut cursor, &mut procedures)?;
        if !cursor.rest.is_empty() {
            return Err(ContainerFault::C6 { at: cursor.at });
        }
        Ok(Container { header, procedures })
    }

    /// Version, budget, number of pieces and name. What a reference to a container holds is one.
    pub fn header(&self) -> Header<'a>
        ensures header { result ≡ self.now.header }
        ensures container { HasPlan self.now }
        ensures plan { (p : Plan) → IsContainer self.now p → IsHeader result p }
        ensures budget { result.budget ≤ MOST_BUDGET }
    {
        self.header
    }

    /// How many procedures there are, 1 to 16; main is procedure 0.
    pub fn proc_count(&self) -> usize
        ensures count { result ≡ length self.now.procedures }
        ensures some { 1 ≤ result }
        ensures few { result ≤ MOST_PROCEDURES }
        ensures plan { (p : Plan) → IsContainer self.now p → result ≡ length p.procedures }
    {
        self.procedures.len()
    }

    /// Procedure i, which its readers ask of without its number.
    pub fn procedure(&self, i: usize) -> ProcedureRef<'_, 'a>
        requires { i < length self.now.procedures }
        ensures { IsLent self.now i result }
    {
        ProcedureRef {
            container: self,
            number: i,
        }
    }

    /// How many parameters procedure i has, 0 to 4.
    pub fn params(&self, i: usize) -> u8
        requires { i < length self.now.procedures }
        ensures few { result ≤ MOST_PARAMETERS }
        ensures plan { OfProcedure self.now i (λ p q. result ≡ q.parameters) }
    {
        self.procedures[i].parameters
    }

    /// How many results procedure i has, 0 to 2.
    pub fn results(&self, i: usize) -> u8
        requires { i < length self.now.procedures }
        ensures few { result ≤ 2 }
        ensures plan { OfProcedure self.now i (λ p q. result ≡ q.results) }
    {
        self.procedures[i].results
    }

    /// How many labels procedure i has, 1 to 256.
    pub fn label_count(&self, i: usize) -> usize
        requires { i < length self.now.procedures }
        ensures count { IfSome (slice_get self.now.procedures i)
            (λ p. result ≡ length p.labels.starts) }
        ensures few { result ≤ 256 }
        ensures plan { OfProcedure self.now i (λ p q. result ≡ length q.labels) }
    {
        self.procedures[i].labels.count()
    }

    /// The position in its code of label n of procedure i.
    pub fn label(&self, i: usize, n: usize) -> u16
        requires procedure { i < length self.now.procedures }
        requires label { HasLabel self.now i n }
        ensures { OfLabel self.now i n (λ l. result ≡ l.0) }
    {
        self.procedures[i].labels.position(n)
    }

    /// The frame of label n of procedure i.
    pub fn frame(&self, i: usize, n: usize) -> FrameRef<'a>
        requires procedure { i < length self.now.procedures }
        requires label { HasLabel self.now i n }
        ensures places { result.places.count ≡ self.now.header.pieces }
        ensures plan { OfLabel self.now i n (λ l. frame_of result ≡ l.1) }
    {
        self.procedures[i].labels.label(n).1
    }

    /// The exit frame of procedure i; None for main.
    pub fn exit(&self, i: usize) -> Option<ExitRef<'a>>
        requires { i < length self.now.procedures }
        ensures { OfProcedure self.now i
            (λ p q. IsExit p.pieces q.parameters q.results result q.exit) }
    {
        self.procedures[i].exit
    }

    /// The code of procedure i, 1 to 4,096 bytes.
    pub fn code(&self, i: usize) -> &'a [u8]
        requires { i < length self.now.procedures }
        ensures short { length result.now ≤ MOST_CODE }
        ensures plan { OfProcedure self.now i (λ p q. result.now ≡ q.code) }
    {
        self.procedures[i].code
    }
}

/// Reads the procedures of a plan, with their count in front of them, into a list that is empty.
/// They are read where they are to stay, since they take much of the stack.
fn read_procedures<'a>(
    layout: Layout,
    cursor: &mut Cursor<'a>,
    procedures: &mut ArrayVec<StoredProcedure<'a>, MOST_PROCEDURES>,
) -> Result<(), ContainerFault>
    requires { procedures.old.items ≡ [] }
    ensures { ReadsInto (AreFor (IsProcedure layout.pieces)) procedures.new.items
        (procedures_part layout.version layout.pieces) cursor.old cursor.new result }
{
    let count = count_within(cursor, 1, MOST_PROCEDURES)?;
    let main = main_procedure(layout, cursor)?;
    procedures.push(main);
    for _ in 0..count - 1 {
        let procedure = other_procedure(layout, cursor)?;
        procedures.push(procedure);
    }
    Ok(())
}

/// What stands at the front of a container.
#[derive(Clone, Copy)]
pub struct Header<'a> {
    /// The version of the format: 1, or 2, where procedures may have results.
    pub version: u16,
    /// How many steps a run may take, 1 to 1,000,000.
    pub budget: u32,
    /// How many pieces the assembly has, 2 to 32.
    pub pieces: u8,
    /// The name of the assembly.
    pub name: &'a [u8],
}
