//! The limits that instructions, plans and the bench share.

/// An assembly has at most this many pieces.
pub const MOST_PIECES: usize = 32;

/// The trays are numbered from 0 to one below this.
pub const TRAYS: u8 = 32;

/// The slots of an activation are numbered from 0 to one below this.
pub const SLOTS: usize = 8;

/// An activation has at most this many operands.
pub const MOST_OPERANDS: usize = 8;

/// The code of a procedure has at most this many bytes.
pub const MOST_CODE: usize = 4096;

/// A procedure has at most this many labels.
pub const MOST_LABELS: usize = 256;

/// A plan has at most this many procedures.
pub const MOST_PROCEDURES: usize = 16;

/// The budget of a plan is at most this many steps.
pub const MOST_BUDGET: u32 = 1_000_000;

/// A procedure has at most this many parameters.
pub const MOST_PARAMETERS: u8 = 4;

/// A frame has at most this many guards.
pub const MOST_GUARDS: usize = 4;

/// A procedure has at most this many results.
pub const MOST_RESULTS: usize = 2;

/// A state of the verifier has at most this many guards.
pub const MOST_STATE_GUARDS: usize = 8;

/// A number of the bench, an operand or one in a slot, is at most this, either way.
pub const MOST_NUMBER: u16 = 32_767;

/// A piece in a tray lies at most this far from home, a coordinate, either way.
pub const MOST_OFFSET: u16 = 256;
