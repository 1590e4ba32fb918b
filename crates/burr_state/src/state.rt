mod instructions;
mod undoing;

ghost use Rattle.std.specs.Prelude.{◌≡◌, ◌≢◌, ◌≤◌, ◌<◌, ◌+◌, ℕ, length, IfSome, Some, None, slice_get, get_or, reverse, ◌↔◌, IsTrue, pos};
ghost use Rattle.burr_voxels.specs.Near.{IsWithin};
ghost use Rattle.burr_code.specs.declared.limits.TheConstants.{MOST_OFFSET, MOST_CODE, MOST_PIECES, SLOTS};
ghost use Rattle.burr_code.specs.PieceSets.{IsInSet};
ghost use Rattle.burr_code.specs.Places.{AllLieIn, AllApart, IsPartOfTray, IsEmptyTray, at_position};
ghost use Rattle.burr_state.specs.Views.StateViews.{at_start, IsOffsetHere, StaysOnBench, PieceStaysOnBench, after, moved_grip, gone_aside};
ghost use Rattle.burr_state.specs.Views.Offsets.{AreNear, PositionHolds};
ghost use Rattle.burr_state.specs.declared.effect.Mode.TheVariants.{Trapped};
ghost use Rattle.burr_voxels.specs.Grid.{along, plus};
ghost use Rattle.burr_state.specs.Rules.Space.{moved_places};

use crate::activation::Activation;
use crate::effect::{Mode, Trap};
use arrayvec::ArrayVec;
use burr_code::limits::{MOST_OFFSET, MOST_PIECES, MOST_PROCEDURES};
use burr_code::{Placement, all_lie_in, are_all_apart, is_empty_tray, is_part_of_tray, take_aside};
use burr_voxels::{Cell, Direction};
use std::marker::Model;

/// The most activations that can wait for a running one: each calls one of a higher number.
const MOST_CALLERS: usize = MOST_PROCEDURES - 1;

/// Where a run stands: the pieces' places, the current tray, the grip, the running activation, the
/// steps made, and whether the run goes on. What is run is no part of it.
#[derive(Debug, Drop)]
pub struct BenchState {
    /// Where each piece is.
    places: ArrayVec<Placement<Cell>, MOST_PIECES>,
    /// The current tray.
    tray: u8,
    /// The pieces of the current tray that are gripped: bit p is piece p.
    grip: u32,
    running: Activation,
    /// The activations that wait for the running one, the nearest last.
    callers: ArrayVec<Activation, MOST_CALLERS>,
    /// The steps made.
    steps: u64,
    mode: Mode,
}

impl Model for BenchState {
    ghost use Rattle.std.specs.Prelude.{reverse};
    ghost use Rattle.burr_state.specs.Rules.Bench.{BenchState as BenchStateOf};
    ghost use Rattle.burr_state.specs.Views.StateViews.{standing, IsOrderly};

    ghost Value = { BenchStateOf };

    ghost view = { λ s.
        standing s.places.items s.tray s.grip s.running (reverse s.callers.items) s.steps s.mode };

    ghost invariant = { λ s. IsOrderly (standing s.places.items s.tray s.grip s.running
        (reverse s.callers.items) s.steps s.mode) };
}

impl BenchState {
    /// The start of a run with this many pieces: all in tray 0 at home, nothing gripped.
    pub(crate) fn start(pieces: u8) -> BenchState
        requires { pieces ≤ 32 }
        ensures { result ≡ at_start pieces }
    {
        let mut places = ArrayVec::new();
        for _piece in 0..pieces {
            places.push(Placement::On {
                tray: 0,
                position: Cell::ORIGIN,
            });
        }
        BenchState {
            places,
            tray: 0,
            grip: 0,
            running: Activation::default(),
            callers: ArrayVec::new(),
            steps: 0,
            mode: Mode::Running,
        }
    }

    /// Whether the run goes on, has ended or has met a trap.
    pub fn mode(&self) -> Mode
        ensures { result ≡ self.now.mode }
    {
        self.mode
    }

    /// The steps made so far; the count stays at its greatest value.
    pub fn steps(&self) -> u64
        ensures { result ≡ self.now.steps }
    {
        self.steps
    }

    /// The current tray, 0 to 31.
    pub fn tray(&self) -> u8
        ensures { result ≡ self.now.tray }
    {
        self.tray
    }

    /// The pieces of the current tray that are gripped: bit p is piece p.
    pub fn grip(&self) -> u32
        ensures { result ≡ self.now.grip }
    {
        self.grip
    }

    /// The number of the running procedure.
    pub fn procedure(&self) -> u8
        ensures { result ≡ self.now.running.procedure }
    {
        self.running.procedure
    }

    /// Where the next instruction stands in the running procedure's code, within 16 bits.
    pub fn pc(&self) -> usize
        ensures pc { result ≡ self.now.running.pc }
        ensures within { result < 65536 }
    {
        self.running.pc
    }

    /// The number of pieces, at most 32. Each that isn't apart lies within 256 of home.
    pub fn piece_count(&self) -> u8
        ensures places { result ≡ length self.now.places }
        ensures few { result ≤ 32 }
        ensures near { AreNear self.now.places }
    {
        self.places.len() as u8
    }

    /// The number of activations: the running one and those that wait for it.
    pub fn depth(&self) -> usize
        ensures { result ≡ length self.now.callers + 1 }
    {
        self.callers.len() + 1
    }

    /// The value of a slot of the running activation; None where it is empty. Slots are numbered
    /// from 0 to 7, the caller's condition.
    pub fn slot(&self, slot: u8) -> Option<i32>
        requires { slot < SLOTS }
        ensures { result ≡ get_or self.now.running.slots slot None }
    {
        self.running.slot(slot)
    }

    /// The operands of the running activation, the bottom first.
    pub fn operands(&self) -> &[i32]
        ensures { result.now ≡ reverse self.now.running.operands }
    {
        self.running.operands.as_slice()
    }

    /// Where a piece is: apart, or in a tray, 0 to 31, and how far from home it lies there. Its
    /// number is below the count of pieces, the caller's condition.
    pub fn place(&self, piece: u8) -> Placement<Cell>
        requires { piece < length self.now.places }
        ensures place { slice_get self.now.places piece ≡ Some result }
        ensures near { PositionHolds (IsWithin MOST_OFFSET) result }
    {
        self.places[usize::from(piece)]
    }

    /// How far from home a piece lies in the current tray; None where it isn't there.
    pub fn offset_here(&self, piece: u8) -> Option<Cell>
        ensures offset { IsOffsetHere self.now piece result }
        ensures near { IfSome result (IsWithin MOST_OFFSET) }
    {
        self.places.get(usize::from(piece))?.position_in(self.tray)
    }

    /// Whether each piece of a set lies in the current tray.
    pub fn all_lie_here(&self, set: u32) -> bool
        ensures { IsTrue result ↔ AllLieIn self.now.places self.now.tray set }
    {
        all_lie_in(self.places.as_slice(), self.tray, set)
    }

    /// Whether the grip has a piece, and not all of the current tray.
    pub fn is_part_gripped(&self) -> bool
        ensures { IsTrue result ↔ IsPartOfTray self.now.grip self.now.places self.now.tray }
    {
        is_part_of_tray(self.grip, self.places.as_slice(), self.tray)
    }

    /// Whether each piece of the current tray is on the bench after one unit of the grip along a
    /// direction.
    pub fn stays_on_bench(&self, direction: Direction) -> bool
        ensures { IsTrue result ↔ StaysOnBench self.now direction }
    {
        let mut rest = self.grip;
        while rest != 0 {
            let piece = take_lowest(&mut rest);
            if !self.piece_stays_on_bench(piece, direction) {
                return false;
            }
        }
        true
    }

    /// Whether a piece, if it lies in the current tray, is on the bench one unit along a direction.
    fn piece_stays_on_bench(&self, piece: u8, direction: Direction) -> bool
        ensures { IsTrue result ↔ PieceStaysOnBench self.now direction piece }
    {
        match self.offset_here(piece) {
            None => true,
            Some(offset) => is_on_bench(one_unit_on(offset, direction)),
        }
    }

    /// Whether no piece is in a tray.
    pub fn is_empty(&self, tray: u8) -> bool
        ensures { IsTrue result ↔ IsEmptyTray self.now.places tray }
    {
        is_empty_tray(self.places.as_slice(), tray)
    }

    /// Whether all pieces are apart.
    pub fn are_all_apart(&self) -> bool
        ensures { IsTrue result ↔ AllApart self.now.places }
    {
        are_all_apart(self.places.as_slice())
    }

    /// A trap: nothing but the mode changes.
    pub(crate) fn trap(&mut self, trap: Trap)
        ensures { self.new ≡ record self.old { mode = Trapped trap } }
    {
        self.mode = Mode::Trapped(trap);
    }

    /// The step of a `step` of this many bytes: the grip goes one unit along a direction, and stays
    /// on the bench.
    pub(crate) fn move_grip(&mut self, direction: Direction, size: usize)
        requires on_bench { StaysOnBench self.old direction }
        requires within { self.old.running.pc + size ≤ MOST_CODE }
        ensures { self.new ≡ moved_grip direction size self.old }
    {
        shift_group(self.places.as_mut_slice(), self.grip, direction);
        self.go_after(size);
    }

    /// The step of an `aside` of `size` bytes: the grip goes to an empty tray, a piece that is then
    /// alone in one of the two trays is apart, and nothing is gripped.
    pub(crate) fn go_aside(&mut self, tray: u8, size: usize)
        requires within { self.old.running.pc + size ≤ MOST_CODE }
        ensures { self.new ≡ gone_aside tray size self.old }
    {
        take_aside(self.places.as_mut_slice(), self.grip, self.tray, tray);
        self.grip = 0;
        self.go_after(size);
    }

    /// Makes a step after which the run goes on `size` bytes further.
    pub(crate) fn go_after(&mut self, size: usize)
        requires within { self.old.running.pc + size ≤ MOST_CODE }
        ensures { self.new ≡ after size self.old }
    {
        self.running.pc += size;
        self.steps = self.steps.saturating_add(1);
    }
}

/// The place one unit along a direction, of a piece that lies within 256 of home; a piece that is
/// apart stays so.
pub fn shifted(place: Placement<Cell>, direction: Direction) -> Placement<Cell>
    requires { PositionHolds (IsWithin MOST_OFFSET) place }
    ensures { result ≡ at_position (λ offset. plus offset (along direction (pos 1))) place }
{
    match place {
        Placement::Apart => Placement::Apart,
        Placement::On { tray, position } => Placement::On {
            tray,
            position: one_unit_on(position, direction),
        },
    }
}

/// One unit along a direction from an offset on the bench.
pub fn one_unit_on(offset: Cell, direction: Direction) -> Cell
    requires { IsWithin MOST_OFFSET offset }
    ensures { result ≡ plus offset (along direction (pos 1)) }
{
    offset + direction.unit()
}

/// Whether an offset is on the bench: within 256 a coordinate.
pub fn is_on_bench(offset: Cell) -> bool
    ensures { IsTrue result ↔ IsWithin MOST_OFFSET offset }
{
    let most = i32::from(MOST_OFFSET);
    if offset.x < -most || most < offset.x {
        return false;
    }
    if offset.y < -most || most < offset.y {
        return false;
    }
    -most <= offset.z && offset.z <= most
}

/// Moves the pieces of a group that aren't apart one unit along a direction.
pub fn shift_group(places: &mut [Placement<Cell>], group: u32, direction: Direction)
    requires few { length places.old ≤ 32 }
    requires near { AreNear places.old }
    ensures { places.new ≡ moved_places group direction places.old }
{
    let mut rest = group;
    while rest != 0 {
        let piece = usize::from(take_lowest(&mut rest));
        if piece < places.len() {
            places[piece] = shifted(places[piece], direction);
        }
    }
}

/// Takes a piece out of a set that has one.
fn take_lowest(set: &mut u32) -> u8
    requires { set.old ≢ 0 }
    ensures taken { IsInSet set.old result }
    ensures rest { (p : ℕ) → IsInSet set.new p ↔ (IsInSet set.old p × (p ≢ result)) }
    ensures fewer { set.new < set.old }
{
    let piece = set.trailing_zeros() as u8;
    *set ^= 1 << piece;
    piece
}
