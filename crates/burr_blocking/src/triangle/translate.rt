ghost use Rattle.std.specs.Prelude.{◌≡◌, ◌⊎◌, ◌≤ℤ◌, ◌*ℤ◌, IfSome, MatchOption, neg_ℤ, pos};
ghost use Rattle.std.specs.List.{All};
ghost use Rattle.burr_voxels.specs.declared.cell.Cell.{Cell as CellOf};
ghost use Rattle.burr_voxels.specs.Near.{IsWithin};
ghost use Rattle.burr_blocking.specs.Views.Translates.{IsTranslate, sign_of};

use crate::extent::first_of;
use burr_voxels::{Cell, Direction};

/// A piece by its class and by what it is displaced from its class's representative: its cells are
/// a translate of that one's.
#[derive(Clone, Copy, Debug)]
pub struct Translate {
    pub class: usize,
    pub displacement: Cell,
    ghost near: { IsWithin 158 displacement },
}

/// What is found once of two pieces, so that queries of them are answered at once: the numbers under
/// which something is kept of them, those of their classes or their own, and how it is asked.
#[derive(Clone, Copy, Debug)]
pub struct Pair {
    pub earlier: usize,
    pub later: usize,
    /// What the first representative is displaced by where the first piece is displaced by nothing.
    pub shift: Cell,
    /// The first piece is of the later class.
    pub is_turned: bool,
    /// -1 where it is, else 1: a product takes the place of a choice in each look.
    pub sign: i32,
    ghost near: { IsWithin 316 shift },
    ghost signed: { sign ≡ sign_of is_turned },
}

impl Pair {
    ghost use Rattle.burr_blocking.specs.Views.Triangles.{IsTurnedBy, way_of};

    /// The displacement of the representative of the earlier class where the first piece has this
    /// one.
    pub fn way(&self, displacement: Cell) -> Cell
        requires { IsWithin 512 displacement }
        ensures value { result ≡ way_of self.now displacement }
        ensures near { IsWithin 828 result }
    {
        let way = self.shift + displacement;
        Cell {
            x: signed(way.x, self.sign),
            y: signed(way.y, self.sign),
            z: signed(way.z, self.sign),
        }
    }

    /// The direction in which that one goes as the first piece goes along this one.
    pub fn direction(&self, direction: Direction) -> Direction
        ensures { IsTurnedBy self.now.is_turned direction result }
    {
        if self.is_turned {
            direction.opposite()
        } else {
            direction
        }
    }
}

/// A number as it is, or turned round, by a sign of 1 or -1.
fn signed(number: i32, sign: i32) -> i32
    requires sign { (sign ≡ pos 1) ⊎ (sign ≡ neg_ℤ (pos 1)) }
    requires from { neg_ℤ (pos 828) ≤ℤ number }
    requires to { number ≤ℤ pos 828 }
    ensures { result ≡ number *ℤ sign }
{
    number * sign
}

/// By how much the first cells have to be displaced to be the second ones, in their order; `None`
/// where they differ otherwise.
pub fn displacement_between(from: &[Cell], to: &[Cell]) -> Option<Cell>
    requires near { All (IsWithin 79) from.now }
    requires to_near { All (IsWithin 79) to.now }
    ensures translate { MatchOption result
        ((d : CellOf) → ¬ IsTranslate from.now d to.now) (λ d. IsTranslate from.now d to.now) }
    ensures near { IfSome result (λ d. IsWithin 158 d) }
{
    let count = from.len();
    let displacement = first_of(to) - first_of(from);
    if to.len() != count {
        return None;
    }
    for i in 0..count {
        if to[i] - from[i] != displacement {
            return None;
        }
    }
    Some(displacement)
}
