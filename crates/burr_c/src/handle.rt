//! What a program in C keeps of a run.

ghost use Rattle.std.specs.Prelude.{◌≡◌, Option, None, Some, MatchOption};
ghost use Rattle.burr_c.specs.declared.handle.KeptRun.{KeptRun as KeptRunOf};
ghost use Rattle.burr_c.specs.Boxed.{C};
ghost use Rattle.burr_c.specs.Keeps.{keeps, owns_block};

use burr_judge::OwnedStepper;
use burr_step::OwnedDrive;
use std::alloc::Global;
use std::marker::Model;
use std::mem::replace;
use std::ptr::null_mut;

/// A run that is open, by a pointer to its box; or none. An open handle owns its run. The pointer is
/// one to bytes, since C is shown no type that owns memory.
#[repr(C)]
pub struct Handle {
    at: *mut u8,
    is_open: bool,
    pub ghost value: { Option KeptRunOf },
}

impl Model for Handle {
    ghost also_owns = { λ h. keeps C h.is_open h.at h.value };
}

// The first three make a handle and take it apart, and are proved by hand. The others call them.
impl Handle {
    /// No run.
    pub fn none() -> Handle
        ensures { result.value ≡ None }
    {
        Handle {
            at: null_mut(),
            is_open: false,
        }
    }

    fn of_loose(loose: Loose<KeptRun>) -> Handle
        ensures { result.value ≡ Some loose.value }
    {
        let Loose { at } = loose;
        Handle {
            at: at as *mut u8,
            is_open: true,
        }
    }

    /// The run, if one is open.
    pub fn into_box(self, alloc: Global) -> Option<Box<KeptRun>>
        ensures { MatchOption result (self.value ≡ None) (λ run. self.value ≡ Some run.value) }
    {
        let Handle { at, is_open } = self;
        if !is_open {
            return None;
        }
        let run = unsafe { Box::from_raw(alloc, at as *mut KeptRun) };
        Some(run)
    }

    /// Takes the run out, if one is open. The handle then has none.
    pub fn take(&mut self, alloc: Global) -> Option<Box<KeptRun>>
        ensures taken { MatchOption result (self.old.value ≡ None) (λ run.
            self.old.value ≡ Some run.value) }
        ensures left { self.new.value ≡ None }
    {
        replace(self, Handle::none()).into_box(alloc)
    }

    /// Puts a run in. One that was open is closed.
    pub fn put(&mut self, alloc: Global, run: Box<KeptRun>)
        ensures { self.new.value ≡ Some run.value }
    {
        let _closed = replace(self, Handle::of_loose(Loose::of(run))).into_box(alloc);
    }
}

/// A run that a program in C keeps.
#[derive(Drop)]
pub enum KeptRun {
    /// It is led move by move.
    Drive(OwnedDrive),
    /// It is gone through step by step.
    Stepper(OwnedStepper),
}

// A box as its pointer, so that a handle can keep the pointer.

/// What a box owns, by its pointer: the value there, and the right to free the block.
pub struct Loose<T> {
    pub at: *mut T,
    pub ghost value: { T },
}

impl<T> Model for Loose<T> {
    ghost also_owns = { λ l. owns_block T.row l.at l.value };
}

impl<T: Drop> Loose<T> {
    /// The box, by its pointer. Proved by hand.
    pub fn of(whole: Box<T>) -> Loose<T>
        ensures { result.value ≡ whole.value }
    {
        Loose {
            at: Box::into_raw(whole),
        }
    }
}
