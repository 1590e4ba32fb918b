//! What holds at a place of the code, at one point: numbers in place of the forms of a state.

ghost use Rattle.std.specs.Prelude.{◌≡◌, ◌≤◌, ◌<◌, ◌∷◌, [], ℕ, length, map, get_or, option_map, None};
ghost use Rattle.burr_code.specs.declared.limits.TheConstants.{MOST_OPERANDS, MOST_PIECES};
ghost use Rattle.burr_code.specs.Places.{at_position};
ghost use Rattle.burr_forms.specs.Rules.Forms.{AllNear, AllSmallForms, IsNear, value, values};
ghost use Rattle.burr_frames.specs.Rules.SpaceRules.{AllSmallPlaces};
ghost use Rattle.burr_frames.specs.Rules.States.{cell_at, places_at};
ghost use Rattle.burr_verify.specs.Views.PointNumbers.{AreNumbersAt, cell_of};

use crate::forming::exit_places;
use arrayvec::ArrayVec;
use burr_code::Placement;
use burr_code::limits::{MOST_OPERANDS, MOST_PIECES, SLOTS};
use burr_container::{ExitRef, FormOffset};
use burr_forms::limits::MOST_SYMBOLS;
use burr_forms::{Form, Point};
use burr_frames::State;
use std::fmt;

/// What holds at a place of the code, at one point: numbers in place of the verifier's forms.
#[derive(Default, Drop)]
pub struct PointState {
    /// The numbers that were open, in the order of the point.
    pub symbols: Point,
    pub slots: [Option<i64>; SLOTS],
    /// The top last.
    pub operands: ArrayVec<i64, MOST_OPERANDS>,
    pub places: ArrayVec<Placement<Offset>, MOST_PIECES>,
    pub tray: u8,
    pub grip: u32,
    pub cost: i64,
}

impl PointState {
    /// No piece, and no number.
    pub fn new() -> PointState {
        PointState::default()
    }

    /// A state at a point; a number that the point does not have is the lowest of its range.
    pub fn at(state: &State, point: &[i32]) -> PointState
        ensures { length point.now ≡ length state.now.ranges → AllNear point.now
            → AreNumbersAt state.now point.now result }
    {
        let mut symbols = Point::new();
        for (n, range) in state.ranges().iter().enumerate() {
            symbols.push(number_at(point, n, range.0));
        }
        PointState {
            slots: slots_at(state, &symbols),
            operands: operands_at(state.operands(), &symbols),
            places: places_of(state.places(), &symbols),
            tray: state.tray(),
            grip: state.grip(),
            cost: state.cost().value_at(&symbols),
            symbols,
        }
    }

    /// What an exit frame says, for these values of its symbols.
    pub fn at_exit(exit: &ExitRef<'_>, numbers: &[i64]) -> PointState
        ensures near { AllNear result.symbols.items }
    {
        let symbols = point_of(numbers);
        let places = exit_places(exit);
        PointState {
            places: places_of(places.as_slice(), &symbols),
            symbols,
            tray: exit.tray(),
            grip: exit.grip(),
            ..PointState::new()
        }
    }

    /// Where a piece is; apart where there is no such piece.
    pub fn place(&self, piece: u8) -> Placement<Offset> {
        self.places
            .get(usize::from(piece))
            .copied()
            .unwrap_or_default()
    }

    /// The arguments of a procedure with this many parameters: the topmost operands.
    pub fn arguments(&self, parameters: u8) -> ArrayVec<i64, MOST_SYMBOLS> {
        let below = self.operands.len().saturating_sub(usize::from(parameters));
        let mut arguments = ArrayVec::new();
        let _ = arguments.try_extend_from_slice(&self.operands[below..]);
        arguments
    }
}

/// How far a piece lies from home, in cells.
#[derive(Clone, Copy, Default, PartialEq, Eq, Drop)]
pub struct Offset {
    pub x: i64,
    pub y: i64,
    pub z: i64,
}

impl fmt::Display for Offset {
    fn fmt<W: fmt::Write>(&self, f: &mut fmt::Formatter<W>) -> fmt::Result {
        let Offset { x, y, z } = *self;
        write!(f, "{x} {y} {z}")
    }
}

/// The numbers that are known in the slots of a state.
fn slots_at(state: &State, symbols: &Point) -> [Option<i64>; SLOTS]
    requires near { AllNear symbols.now.items }
    ensures { (v : ℕ) → v < 8
        → get_or result v None
        ≡ option_map (value symbols.now.items) (get_or state.now.slots v None) }
{
    let mut slots = [None; SLOTS];
    for v in 0..SLOTS as u8 {
        slots[usize::from(v)] = slot_at(state, v, symbols);
    }
    slots
}

/// The number that is known in a slot.
fn slot_at(state: &State, v: u8, symbols: &Point) -> Option<i64>
    requires near { AllNear symbols.now.items }
    ensures { option_map (value symbols.now.items) (get_or state.now.slots v None) ≡ result }
{
    Some(state.slot(v)?.value_at(symbols))
}

/// What forms come to.
fn operands_at(forms: &[Form], symbols: &Point) -> ArrayVec<i64, MOST_OPERANDS>
    requires few { length forms.now ≤ MOST_OPERANDS }
    requires small { AllSmallForms forms.now }
    requires near { AllNear symbols.now.items }
    ensures { result.items ≡ values symbols.now.items forms.now }
{
    let mut numbers = ArrayVec::new();
    for form in forms {
        numbers.push(form.value_at(symbols));
    }
    numbers
}

/// The places that forms give.
fn places_of(
    places: &[Placement<FormOffset>],
    symbols: &Point,
) -> ArrayVec<Placement<Offset>, MOST_PIECES>
    requires few { length places.now ≤ MOST_PIECES }
    requires small { AllSmallPlaces places.now }
    requires near { AllNear symbols.now.items }
    ensures { map (at_position cell_of) result.items ≡ places_at symbols.now.items places.now }
{
    let mut placed = ArrayVec::new();
    for place in places {
        placed.push(place_at(place, symbols));
    }
    placed
}

/// The place that forms give.
fn place_at(place: &Placement<FormOffset>, symbols: &Point) -> Placement<Offset>
    requires small { AllSmallPlaces (place.now ∷ []) }
    requires near { AllNear symbols.now.items }
    ensures { at_position cell_of result ≡ at_position (cell_at symbols.now.items) place.now }
{
    match place {
        Placement::Apart => Placement::Apart,
        Placement::On { tray, position } => Placement::On {
            tray: *tray,
            position: Offset {
                x: position.x.value_at(symbols),
                y: position.y.value_at(symbols),
                z: position.z.value_at(symbols),
            },
        },
    }
}

/// A number of a point; where the point does not have it, the one that stands for it.
fn number_at(point: &[i32], n: usize, missing: i32) -> i32
    ensures near { IsNear result }
    ensures same { n < length point.now → AllNear point.now → result ≡ get_or point.now n missing }
{
    near(i64::from(point.get(n).copied().unwrap_or(missing)))
}

/// The number within ±32,767 that is nearest: all numbers of a run are such.
fn near(number: i64) -> i32
    ensures near { IsNear result }
    ensures same { IsNear number → result ≡ number }
{
    number.clamp(-32_767, 32_767) as i32
}

/// These numbers as values of symbols.
pub fn point_of(numbers: &[i64]) -> Point
    ensures near { AllNear result.items }
{
    let mut point = Point::new();
    for number in numbers {
        let _ = point.try_push(near(*number));
    }
    point
}
