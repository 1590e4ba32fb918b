//! Pieces of a tray that may be in each other's way.

ghost use Rattle.std.specs.Prelude.{◌≡◌, ◌<◌, ◌≤◌, ◌*◌, ◌+◌, ◌^◌, ℕ, [], All, length, option_map};
ghost use Rattle.burr_voxels.specs.Near.{IsWithin};
ghost use Rattle.burr_code.specs.declared.limits.TheConstants.{MOST_OFFSET};
ghost use Rattle.burr_blocking.specs.Rules.Counted.{with_more};
ghost use Rattle.burr_frames.specs.Rules.Looks.{until_one_fails, pairs_of};
ghost use Rattle.burr_frames.specs.Views.Ranges.{AllInReach};
ghost use Rattle.burr_frames.specs.Views.Clearing.{cell_of, gripped_pieces, left_pieces, row_of, IsPairClear, FirstPairOf, HasOffset, IsNoneOf};

use arrayvec::ArrayVec;
use burr_blocking::{Blocking, Looks, Query};
use burr_code::limits::MOST_PIECES;
use burr_code::{Placement, is_in_set};
use burr_container::FormOffset;
use burr_forms::{Asking, Form};
use burr_voxels::Cell;

/// A piece of a tray, and its number among the pieces of the tray.
#[derive(Clone, Copy, Default)]
pub struct TrayPiece {
    pub piece: u8,
    pub number: u8,
}

/// The condition that no gripped piece is in the way of a piece that is left in the tray. Each pair
/// of the two is looked at, one by one, until one is not clear; each that is looked at counts as a
/// look.
#[derive(Drop)]
pub struct Clearing<'a, 'b, B: Blocking> {
    /// The offsets of the tray's pieces, three forms for each.
    pub forms: &'a [Form],
    pub gripped: &'a [TrayPiece],
    pub left: &'a [TrayPiece],
    pub query: Query,
    pub looks: &'a mut Looks<'b, B>,
    /// The first pair that was not clear when the condition was last judged.
    pub found: Option<(u8, u8)>,
    ghost gripped_known: { All (HasOffset looks.now.assembly (length forms.now)) gripped.now },
    ghost left_known: { All (HasOffset looks.now.assembly (length forms.now)) left.now },
    ghost others: { All (IsNoneOf left.now) gripped.now },
    ghost few: { length gripped.now + length left.now ≤ 32 },
}

impl<'a, 'b, B: Blocking> Asking for Clearing<'a, 'b, B> {
    ghost use Rattle.std.specs.Prelude.{All};
    ghost use Rattle.burr_code.specs.declared.limits.TheConstants.{MOST_OFFSET};
    ghost use Rattle.burr_frames.specs.Rules.Looks.{until_one_fails, pairs_of};
    ghost use Rattle.burr_frames.specs.Views.Ranges.{AllInReach};
    ghost use Rattle.burr_frames.specs.Views.Clearing.{Asked, asked_of, IsPairClear, FirstPairOf};

    ghost Subject = { Asked };

    ghost subject = { λ c. asked_of c.looks.ghost_name c.looks.now.assembly c.forms.now
        (pairs_of c.gripped.now c.left.now) c.query };

    ghost count = { λ c. c.looks.now.count };

    ghost wanted = { λ s. s.forms };

    ghost Promised = { λ _ values. AllInReach MOST_OFFSET values };

    ghost Says = { λ s values. All (IsPairClear s.assembly s.query values) s.pairs };

    ghost most = { λ _. 256 };

    ghost Counts = { λ s values n.
        until_one_fails (IsPairClear s.assembly s.query values) s.pairs n };

    ghost Kept = { λ c s values. FirstPairOf s.assembly s.query values s.pairs c.found };

    fn wanted_forms(&self) -> &[Form] {
        self.forms
    }

    fn ask(&mut self, values: &[i64]) -> bool {
        self.found = first_pair(self.looks, self.query, self.gripped, self.left, values);
        self.found.is_none()
    }
}

/// The first pair of a gripped piece and one that is left which is not clear where the offsets have
/// these values. The pieces, 32 at most, are of the assembly that is looked at, their offsets stand
/// among the values, all within ±256, no gripped one is left, and at most 2^61 looks were made so
/// far: the caller's conditions.
fn first_pair<B: Blocking>(
    looks: &mut Looks<'_, B>,
    query: Query,
    gripped: &[TrayPiece],
    left: &[TrayPiece],
    values: &[i64],
) -> Option<(u8, u8)>
    requires gripped { All (HasOffset looks.old.assembly (length values.now)) gripped.now }
    requires left { All (HasOffset looks.old.assembly (length values.now)) left.now }
    requires others { All (IsNoneOf left.now) gripped.now }
    requires few { length gripped.now + length left.now ≤ 32 }
    requires reach { AllInReach MOST_OFFSET values.now }
    requires room { looks.old.count ≤ 2 ^ 61 }
    ensures found { FirstPairOf looks.old.assembly query values.now
        (pairs_of gripped.now left.now) result }
    ensures counted { (n : ℕ) × (n ≤ 256)
        × until_one_fails (IsPairClear looks.old.assembly query values.now)
        (pairs_of gripped.now left.now) n
        × (looks.new ≡ with_more n looks.old) }
{
    for piece in gripped {
        if let Some(other) = first_in_way(looks, query, *piece, left, values) {
            return Some((piece.piece, other));
        }
    }
    None
}

/// The first of other pieces that a piece is not clear of; the same conditions.
fn first_in_way<B: Blocking>(
    looks: &mut Looks<'_, B>,
    query: Query,
    piece: TrayPiece,
    left: &[TrayPiece],
    values: &[i64],
) -> Option<u8>
    requires piece { HasOffset looks.old.assembly (length values.now) piece }
    requires left { All (HasOffset looks.old.assembly (length values.now)) left.now }
    requires others { IsNoneOf left.now piece }
    requires few { length left.now ≤ 32 }
    requires reach { AllInReach MOST_OFFSET values.now }
    requires room { looks.old.count ≤ 2 ^ 61 + 256 }
    ensures found { FirstPairOf looks.old.assembly query values.now (row_of piece left.now)
        (option_map (λ other. (piece.piece, other)) result) }
    ensures counted { (n : ℕ) × (n ≤ length left.now)
        × until_one_fails (IsPairClear looks.old.assembly query values.now)
        (row_of piece left.now) n
        × (looks.new ≡ with_more n looks.old) }
{
    let offset = offset_of(values, piece.number);
    for other in left {
        let displacement = offset - offset_of(values, other.number);
        if !looks.clears(query, piece.piece, other.piece, displacement) {
            return Some(other.piece);
        }
    }
    None
}

/// The offset with this number, of values that stand three by three, each within ±256.
fn offset_of(values: &[i64], number: u8) -> Cell
    requires inside { 3 * number + 3 ≤ length values.now }
    requires reach { AllInReach MOST_OFFSET values.now }
    ensures value { result ≡ cell_of values.now number }
    ensures near { IsWithin MOST_OFFSET result }
{
    let offset = &values[3 * usize::from(number)..];
    Cell {
        x: offset[0] as i32,
        y: offset[1] as i32,
        z: offset[2] as i32,
    }
}

/// Puts the pieces of a tray into two empty lists, in order: those that are gripped, and those that
/// are left. There are at most 32 places, the caller's condition.
pub fn put_pieces(
    tray: u8,
    grip: u32,
    places: &[Placement<FormOffset>],
    gripped: &mut ArrayVec<TrayPiece, MOST_PIECES>,
    left: &mut ArrayVec<TrayPiece, MOST_PIECES>,
)
    requires few { length places.now ≤ 32 }
    requires empty { gripped.old.items ≡ [] }
    requires left { left.old.items ≡ [] }
    ensures gripped { gripped.new.items ≡ gripped_pieces tray grip places.now }
    ensures left { left.new.items ≡ left_pieces tray grip places.now }
{
    let mut number = 0;
    for piece in 0..places.len() {
        if !places[piece].is_in(tray) {
            continue;
        }
        let member = TrayPiece {
            piece: piece as u8,
            number,
        };
        if is_in_set(grip, piece as u8) {
            gripped.push(member);
        } else {
            left.push(member);
        }
        number += 1;
    }
}
