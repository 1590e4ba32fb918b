//! Pieces: which are gripped, where they lie, and which are in each other's way.

ghost use Rattle.std.specs.Prelude.{◌<◌};

use super::{Reasons, Site};
use crate::pieces::{Group, Meeting, Whereabouts, first_meeting, lies_at};
use burr_code::is_in_set;
use burr_code::limits::{MOST_OFFSET, MOST_PIECES};
use burr_frames::Rule;
use burr_lines::{FramePart, PlanPart, Shown};
use burr_verify::{Offset, PointState, Refusal};
use burr_voxels::Direction;

impl Reasons<'_, '_> {
    /// The pieces of a set that are not in the current tray.
    pub(super) fn add_pieces_elsewhere(&mut self, set: u32, site: &Site) {
        let tray = site.before.tray;
        self.note(format_args!("the current tray is {tray}"));
        for piece in 0..MOST_PIECES as u8 {
            if is_in_set(set, piece) && !site.before.place(piece).is_in(tray) {
                self.add_piece_elsewhere(piece, site);
            }
        }
    }

    /// A piece that is not in the current tray, with its line of the last frame.
    fn add_piece_elsewhere(&mut self, piece: u8, site: &Site) {
        if site.before.places.len() <= usize::from(piece) {
            return self.note(format_args!("there is no piece {piece}"));
        }
        let name = self.plan.piece_name(piece);
        let place = Whereabouts(site.before.place(piece).tray());
        self.note(format_args!("{name} is {place}"));
        self.add_told(FramePart::Piece(piece), site);
    }

    /// Nothing is gripped, or the whole tray.
    pub(super) fn add_wrong_grip(&mut self, site: &Site) {
        if site.before.grip == 0 {
            self.note("nothing is gripped");
        } else {
            let tray = site.before.tray;
            self.note(format_args!("all pieces of tray {tray} are gripped"));
        }
        self.add_grip_line(site);
    }

    /// Names the line that tells which pieces are gripped.
    fn add_grip_line(&mut self, site: &Site) {
        let procedure = site.procedure;
        match site.gripped_at {
            Some(pc) => self.add_part(PlanPart::Code { procedure, pc }),
            None => self.add_told(FramePart::Head, site),
        }
    }

    /// A piece of a tray that should be empty.
    pub(super) fn add_full_tray(&mut self, tray: u8, site: &Site) {
        for piece in 0..MOST_PIECES as u8 {
            if site.before.place(piece).is_in(tray) {
                let name = self.plan.piece_name(piece);
                self.note(format_args!("tray {tray} has {name}"));
                return self.add_told(FramePart::Piece(piece), site);
            }
        }
    }

    /// The pieces of the current tray that are too far from home, once the grip goes one unit along a
    /// direction where one is given.
    pub(super) fn add_far_pieces(&mut self, direction: Option<Direction>, site: &Site) {
        for piece in 0..MOST_PIECES as u8 {
            if let Some(offset) = offset_after(&site.before, piece, direction).filter(is_far) {
                let name = self.plan.piece_name(piece);
                self.note(format_args!(
                    "{name} is {offset} from home, and {MOST_OFFSET} is as far as it may be"
                ));
            }
        }
        self.add_point(site, &site.before);
    }

    /// Where a gripped piece that goes along a direction meets another one, and their lines in the last
    /// frame.
    pub(super) fn add_meeting(&mut self, refusal: &Refusal, direction: Direction, site: &Site) {
        let Some((piece, other)) = refusal.pieces else {
            return;
        };
        let meeting = first_meeting(&self.plan, piece, other, direction, &site.before);
        if let Some(Meeting { cell, units }) = meeting {
            let (name, other) = (self.plan.piece_name(piece), self.plan.piece_name(other));
            if refusal.rule == Rule::Collision {
                self.note(format_args!("after it {name} and {other} overlap at cell {cell}"));
            } else {
                let way = direction.name();
                let way = Shown(&way);
                self.note(format_args!(
                    "{name} and {other} overlap at cell {cell}, {units} along {way}"
                ));
            }
        }
        self.add_point(site, &site.before);
        self.add_grip_line(site);
        let grip = Group(self.plan.assembly, site.before.grip);
        self.note(format_args!("gripped: {grip}"));
        self.add_told(FramePart::Piece(piece), site);
        self.add_told(FramePart::Piece(other), site);
    }
}

/// How far from home a piece of the current tray lies, once the grip goes one unit along a direction
/// where one is given; none of another piece.
fn offset_after(state: &PointState, piece: u8, direction: Option<Direction>) -> Option<Offset>
    requires { piece < 32 }
{
    let offset = state.place(piece).position_in(state.tray)?;
    match direction {
        Some(direction) if is_in_set(state.grip, piece) => {
            Some(lies_at(&direction.unit(), offset))
        }
        _ => Some(offset),
    }
}

/// Whether a piece is too far from home.
fn is_far(offset: &Offset) -> bool {
    let farthest = offset.x.saturating_abs().max(offset.y.saturating_abs());
    farthest.max(offset.z.saturating_abs()) > i64::from(MOST_OFFSET)
}
