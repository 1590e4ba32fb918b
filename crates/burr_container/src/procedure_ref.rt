ghost use Rattle.std.specs.Prelude.{◌<◌, length, ◌≡◌, ◌≤◌, slice_get, IfSome};
ghost use Rattle.burr_code.specs.declared.limits.TheConstants.{MOST_CODE, MOST_PARAMETERS, MOST_PROCEDURES};

use crate::container::Container;
use crate::frame_ref::{ExitRef, FrameRef};
use crate::label_table::LabelTable;

/// A procedure that a container has, lent by it.
#[derive(Clone, Copy)]
pub struct ProcedureRef<'a, 'c: 'a> {
    pub(crate) container: &'a Container<'c>,
    pub(crate) number: usize,
    ghost in_range: { number < length container.now.procedures },
}

// Readers of procedures that a container lends.
impl<'a, 'c: 'a> ProcedureRef<'a, 'c> {
    ghost use Rattle.burr_container.specs.Views.Refs.{frame_of};
    ghost use Rattle.burr_container.specs.Views.InPlace.{IsExit};
    ghost use Rattle.burr_container.specs.Views.Lent.{IsLent, IsFoundInPlan, OfLent, LentHasLabel, OfLentLabel};

    /// Its number, 0 to 15; main is procedure 0.
    pub fn number(&self) -> u8
        ensures number { result ≡ self.now.number }
        ensures few { result < MOST_PROCEDURES }
    {
        // A container has 16 procedures at most.
        let _count = self.container.proc_count();
        self.number as u8
    }

    /// The container that lends it.
    pub fn container(&self) -> &'a Container<'c>
        ensures { result.now ≡ self.now.container.now }
    {
        self.container
    }

    /// The procedure of this number in the same container; None where there is no such procedure.
    pub fn sibling(&self, number: u8) -> Option<ProcedureRef<'a, 'c>>
        ensures lent { IfSome result (IsLent self.now.container.now number) }
        ensures plan { IsFoundInPlan self.now number result }
    {
        let number = usize::from(number);
        if self.container.proc_count() <= number {
            return None;
        }
        Some(self.container.procedure(number))
    }

    /// How many parameters it has, 0 to 4.
    pub fn params(&self) -> u8
        ensures few { result ≤ MOST_PARAMETERS }
        ensures plan { OfLent self.now (λ p q. result ≡ q.parameters) }
    {
        self.container.params(self.number)
    }

    /// How many results it has, 0 to 2.
    pub fn results(&self) -> u8
        ensures few { result ≤ 2 }
        ensures plan { OfLent self.now (λ p q. result ≡ q.results) }
    {
        self.container.results(self.number)
    }

    /// How many labels it has, 1 to 256.
    pub fn label_count(&self) -> usize
        ensures count { IfSome (slice_get self.now.container.now.procedures self.now.number)
            (λ p. result ≡ length p.labels.starts) }
        ensures few { result ≤ 256 }
        ensures plan { OfLent self.now (λ p q. result ≡ length q.labels) }
    {
        self.container.label_count(self.number)
    }

    /// The position in its code of label n.
    pub fn label(&self, n: usize) -> u16
        requires { LentHasLabel self.now n }
        ensures { OfLentLabel self.now n (λ l. result ≡ l.0) }
    {
        self.container.label(self.number, n)
    }

    /// The frame of label n.
    pub fn frame(&self, n: usize) -> FrameRef<'c>
        requires { LentHasLabel self.now n }
        ensures places { result.places.count ≡ self.now.container.now.header.pieces }
        ensures plan { OfLentLabel self.now n (λ l. frame_of result ≡ l.1) }
    {
        self.container.frame(self.number, n)
    }

    /// Its exit frame; None for main.
    pub fn exit(&self) -> Option<ExitRef<'c>>
        ensures { OfLent self.now
            (λ p q. IsExit p.pieces q.parameters q.results result q.exit) }
    {
        self.container.exit(self.number)
    }

    /// Its code, 1 to 4,096 bytes.
    pub fn code(&self) -> &'c [u8]
        ensures short { length result.now ≤ MOST_CODE }
        ensures plan { OfLent self.now (λ p q. result.now ≡ q.code) }
    {
        self.container.code(self.number)
    }
}

/// A procedure as its container keeps it.
#[derive(Drop, Default)]
pub struct StoredProcedure<'a> {
    pub parameters: u8,
    pub results: u8,
    pub exit: Option<ExitRef<'a>>,
    pub labels: LabelTable<'a>,
    pub code: &'a [u8],
}
