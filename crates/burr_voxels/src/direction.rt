ghost use Rattle.std.specs.Prelude.{◌≡◌, ◌≢◌, ◌≤ℤ◌, ◌<◌, ℤ, pos, neg_ℤ, MatchOption, ◌↔◌, ℕ, IsTrue};
ghost use Rattle.burr_voxels.specs.declared.direction.Direction.{Direction as DirectionOf};
ghost use Rattle.burr_voxels.specs.Grid.{along, minus, name_of, number_of, origin};
ghost use Rattle.burr_voxels.specs.Turns.{axes_name, turned, IsRotation};
ghost use Rattle.burr_voxels.specs.Near.{IsWithin};

use crate::cell::Cell;

/// One of the six directions along an axis.
#[derive(Clone, Copy, Debug, PartialEq, Eq)]
pub enum Direction {
    PlusX = 0,
    MinusX = 1,
    PlusY = 2,
    MinusY = 3,
    PlusZ = 4,
    MinusZ = 5,
}

impl Direction {
    /// The direction with a number of 0 to 5: +x, -x, +y, -y, +z, -z; None at any other number.
    pub fn of(number: u8) -> Option<Direction>
        ensures { MatchOption result ((d : DirectionOf) → number_of d ≢ number) (λ d.
            number_of d ≡ number) }
    {
        match number {
            0 => Some(Direction::PlusX),
            1 => Some(Direction::MinusX),
            2 => Some(Direction::PlusY),
            3 => Some(Direction::MinusY),
            4 => Some(Direction::PlusZ),
            5 => Some(Direction::MinusZ),
            _ => None,
        }
    }

    /// The direction's number, 0 to 5.
    pub fn number(self) -> u8
        ensures { result ≡ number_of self }
    {
        self as u8
    }

    /// One unit along the direction, from the origin.
    pub fn unit(self) -> Cell
        ensures { result ≡ along self (pos 1) }
    {
        self.along(1)
    }

    /// This many units along the direction, from the origin; the other way for a number below 0.
    pub fn along(self, units: i32) -> Cell
        requires { neg_ℤ (pos 1000000) ≤ℤ units }
        ensures { result ≡ along self units }
    {
        let (x, y, z) = match self {
            Direction::PlusX => (units, 0, 0),
            Direction::MinusX => (-units, 0, 0),
            Direction::PlusY => (0, units, 0),
            Direction::MinusY => (0, -units, 0),
            Direction::PlusZ => (0, 0, units),
            Direction::MinusZ => (0, 0, -units),
        };
        Cell { x, y, z }
    }

    /// The direction the other way along the same axis.
    pub fn opposite(self) -> Direction
        ensures { (k : ℤ) → along result k ≡ minus origin (along self k) }
    {
        match self {
            Direction::PlusX => Direction::MinusX,
            Direction::MinusX => Direction::PlusX,
            Direction::PlusY => Direction::MinusY,
            Direction::MinusY => Direction::PlusY,
            Direction::PlusZ => Direction::MinusZ,
            Direction::MinusZ => Direction::PlusZ,
        }
    }

    /// The direction's name: a sign and an axis, as `+x`.
    pub fn name(self) -> [u8; 2]
        ensures { result ≡ name_of self }
    {
        match self {
            Direction::PlusX => *b"+x",
            Direction::MinusX => *b"-x",
            Direction::PlusY => *b"+y",
            Direction::MinusY => *b"-y",
            Direction::PlusZ => *b"+z",
            Direction::MinusZ => *b"-z",
        }
    }

    /// The direction with a name; None where no direction has it.
    pub fn named(name: &[u8]) -> Option<Direction>
        ensures { MatchOption result ((d : DirectionOf) → name_of d ≢ name.now) (λ d.
            name_of d ≡ name.now) }
    {
        match name {
            b"+x" => Some(Direction::PlusX),
            b"-x" => Some(Direction::MinusX),
            b"+y" => Some(Direction::PlusY),
            b"-y" => Some(Direction::MinusY),
            b"+z" => Some(Direction::PlusZ),
            b"-z" => Some(Direction::MinusZ),
            _ => None,
        }
    }
}

/// One of the 24 turns of a cube, by the images of the three axes.
#[derive(Clone, Copy, Debug)]
pub struct Orientation {
    pub x: Direction,
    pub y: Direction,
    pub z: Direction,
    ghost rotation: { IsRotation x y z },
}

/// Whether the axes are taken there by a turn and not by a mirror: the axes change places in a
/// circle and an even number of them is turned round, or two change places and an odd number is.
fn is_rotation(x: Direction, y: Direction, z: Direction) -> bool
    ensures { IsTrue result ↔ IsRotation x y z }
{
    let (a, b, c) = (x.number() / 2, y.number() / 2, z.number() / 2);
    let in_circle = b == (a + 1) % 3 && c == (a + 2) % 3;
    let two_change = b == (a + 2) % 3 && c == (a + 1) % 3;
    let is_odd = (x.number() + y.number() + z.number()) % 2 == 1;
    (in_circle && !is_odd) || (two_change && is_odd)
}

impl Orientation {
    /// The orientation with a name as `-y+x+z`, the images of x, y and z; None where the bytes name
    /// none of the 24.
    pub fn parse(name: &[u8]) -> Option<Orientation>
        ensures { MatchOption result
            ((x y z : DirectionOf) → IsRotation x y z → axes_name x y z ≢ name.now)
            (λ o. axes_name o.x o.y o.z ≡ name.now) }
    {
        let (x, rest) = name.split_at_checked(2)?;
        let (y, z) = rest.split_at_checked(2)?;
        Orientation::of(
            Direction::named(x)?,
            Direction::named(y)?,
            Direction::named(z)?,
        )
    }

    /// The orientation with these images of the axes; None where they are those of no turn.
    pub fn of(x: Direction, y: Direction, z: Direction) -> Option<Orientation>
        ensures { MatchOption result (¬ IsRotation x y z) (λ o. (o.x ≡ x) × (o.y ≡ y) × (o.z ≡ z)) }
    {
        if is_rotation(x, y, z) {
            Some(Orientation { x, y, z })
        } else {
            None
        }
    }

    /// The orientation's name: the names of the images of x, y and z.
    pub fn name(&self) -> [u8; 6]
        ensures { result ≡ axes_name self.now.x self.now.y self.now.z }
    {
        let [a, b] = self.x.name();
        let [c, d] = self.y.name();
        let [e, f] = self.z.name();
        [a, b, c, d, e, f]
    }

    /// Where the turn takes a cell, whose coordinates lie within 1,000,000, the caller's condition.
    pub fn turn(&self, cell: Cell) -> Cell
        requires { IsWithin 1000000 cell }
        ensures value { result ≡ turned self.now.x self.now.y self.now.z cell }
        ensures near { (n : ℕ) → IsWithin n cell → IsWithin n result }
    {
        self.x.along(cell.x) + self.y.along(cell.y) + self.z.along(cell.z)
    }
}
