//! Records of steps, by which a bench goes back.

use crate::activation::Activation;
use arrayvec::ArrayVec;
use burr_code::Placement;
use burr_code::limits::{MOST_OPERANDS, MOST_PIECES, SLOTS};
use burr_voxels::Cell;
use std::marker::Model;

/// What an instruction changes besides the position, the steps and the mode, as it was before.
#[derive(Drop)]
pub enum Change {
    /// Nothing else.
    Nothing,
    /// Numbers of the running activation: its slots, and its operands, the bottom first.
    Numbers([Option<i32>; SLOTS], ArrayVec<i32, MOST_OPERANDS>),
    /// The current tray, and the grip.
    Choice(u8, u32),
    /// Where each piece was, and the grip.
    Places(ArrayVec<Placement<Cell>, MOST_PIECES>, u32),
    /// An activation more; the caller's operands, the bottom first, its arguments with them.
    Deeper(ArrayVec<i32, MOST_OPERANDS>),
    /// An activation less; the one that ended, and how many results it gave.
    Higher(Activation, u8),
}

/// The record of a step: where its instruction stands, and what the step changes, as it was before.
#[derive(Drop)]
pub struct Undo {
    /// Where the instruction stands in its procedure's code.
    pub(crate) pc: u16,
    pub(crate) change: Change,
}

impl Model for Undo {
    ghost use Rattle.burr_state.specs.Rules.Undo.{Undo as UndoOf};
    ghost use Rattle.burr_state.specs.Views.Records.{undo, kept_change};

    ghost Value = { UndoOf };

    ghost view = { λ u. undo u.pc (kept_change u.change) };
}
