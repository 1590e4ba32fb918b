//! What holds at a place of a draft.

ghost use Rattle.std.specs.Prelude.{◌<◌};
ghost use Rattle.burr_code.specs.declared.limits.TheConstants.{TRAYS};

use burr_code::limits::{MOST_PIECES, SLOTS, TRAYS};
use burr_code::{Placement, is_empty_tray, is_in_set, take_aside};
use burr_container::{ExitFrame, Frame, Place, PlanForm};
use burr_voxels::{Cell, Direction};
use std::alloc::{AllocError, Global};

/// What holds at a place of a draft: the current tray, the grip, and where each piece is.
#[derive(Clone, Copy)]
pub struct Situation {
    /// How many pieces there are.
    pieces: u8,
    pub tray: u8,
    pub grip: u32,
    /// Of each piece that isn't apart its tray, and how far it lies from home. Numbers that no piece
    /// has count as apart.
    places: [Placement<Cell>; MOST_PIECES],
}

impl Situation {
    /// Where a run begins: tray 0 is current, and in it this many pieces lie at home.
    pub fn at_start(pieces: u8) -> Situation {
        let mut places = [Placement::Apart; MOST_PIECES];
        for place in places.iter_mut().take(usize::from(pieces)) {
            *place = Placement::On {
                tray: 0,
                position: Cell::ORIGIN,
            };
        }
        Situation {
            pieces,
            tray: 0,
            grip: 0,
            places,
        }
    }

    /// Makes a tray the current one.
    pub fn turn_to(&mut self, tray: u8) {
        self.tray = tray;
        self.grip = 0;
    }

    /// Moves the grip by one unit.
    pub fn step(&mut self, direction: Direction) {
        let unit = direction.unit();
        for (piece, place) in self.places.iter_mut().enumerate() {
            if is_in_set(self.grip, piece as u8) {
                *place = moved(*place, unit);
            }
        }
    }

    /// Takes the grip out, to a tray.
    pub fn go_aside(&mut self, there: u8) {
        take_aside(&mut self.places, self.grip, self.tray, there);
        self.grip = 0;
    }

    /// The lowest tray in which no piece lies.
    pub fn lowest_empty_tray(&self) -> u8
        ensures { result < TRAYS }
    {
        for tray in 0..TRAYS {
            if is_empty_tray(&self.places, tray) {
                return tray;
            }
        }
        // There are 32 pieces at most, and none is alone in a tray.
        0
    }

    /// The frame of a label to which a run comes so, with this many steps still to come.
    pub fn frame(&self, alloc: Global, steps: i32) -> Result<Frame, AllocError> {
        Ok(Frame {
            tray: self.tray,
            grip: self.grip_in_tray(),
            slots: [None; SLOTS],
            guards: Vec::new(alloc),
            stack: Vec::new(alloc),
            cost: constant(steps),
            places: self.places(alloc)?,
        })
    }

    /// The exit frame of a procedure that returns so.
    pub fn exit_frame(&self, alloc: Global) -> Result<ExitFrame, AllocError> {
        Ok(ExitFrame {
            tray: self.tray,
            grip: self.grip_in_tray(),
            results: Vec::new(alloc),
            guards: Vec::new(alloc),
            places: self.places(alloc)?,
        })
    }

    /// The gripped pieces that lie in the current tray. A frame names no others, so that a wrong
    /// grip is refused where it is taken, and not in a frame after it.
    fn grip_in_tray(&self) -> u32 {
        let mut here = 0;
        for (piece, place) in self.places.iter().enumerate() {
            if place.is_in(self.tray) {
                here |= 1 << piece;
            }
        }
        self.grip & here
    }

    /// Where each piece lies, as a frame tells it.
    fn places(&self, alloc: Global) -> Result<Vec<Place>, AllocError> {
        let mut places = Vec::new(alloc);
        for place in self.places.iter().take(usize::from(self.pieces)) {
            places.push(match place {
                Placement::Apart => Place::Apart,
                Placement::On { tray, position } => Place::On(
                    *tray,
                    constant(position.x),
                    constant(position.y),
                    constant(position.z),
                ),
            })?;
        }
        Ok(places)
    }
}

/// Where a piece is that was moved by a unit.
fn moved(place: Placement<Cell>, unit: Cell) -> Placement<Cell> {
    match place {
        Placement::Apart => Placement::Apart,
        Placement::On { tray, position } => Placement::On {
            tray,
            position: Cell {
                x: position.x.saturating_add(unit.x),
                y: position.y.saturating_add(unit.y),
                z: position.z.saturating_add(unit.z),
            },
        },
    }
}

/// The form that is this number.
fn constant(number: i32) -> PlanForm {
    PlanForm {
        constant: number,
        coefs: [0; SLOTS],
    }
}
