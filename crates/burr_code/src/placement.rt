ghost use Rattle.std.specs.Prelude.{◌≡◌, ◌≤◌, ◌↔◌, length, IsTrue, ◌<◌};
ghost use Rattle.burr_code.specs.Places.{LiesIn, AllLieIn, AllApart, IsPartOfTray, HasRest, IsEmptyTray, count_in, aside_places, parted, parted_in, changed, to_tray};
ghost use Rattle.burr_code.specs.PieceSets.{IsInSet};

use crate::limits::MOST_PIECES;

/// Where a piece is: apart from all others, or in a tray, at a position.
#[derive(Clone, Copy, Debug, PartialEq, Eq)]
pub enum Placement<P> {
    Apart,
    On { tray: u8, position: P },
}

impl<P> Placement<P> {
    ghost use Rattle.std.specs.Prelude.{◌≡◌, ◌↔◌, IsTrue};
    ghost use Rattle.burr_code.specs.declared.placement.Placement.TheVariants.{Apart};
    ghost use Rattle.burr_code.specs.Places.{is_in, to_tray, tray_of};

    /// Whether the piece is apart.
    pub fn is_apart(&self) -> bool
        ensures { IsTrue result ↔ (self.now ≡ Apart) }
    {
        matches!(self, Placement::Apart)
    }

    /// Whether the piece is in a tray.
    pub fn is_in(&self, wanted: u8) -> bool
        ensures { result ≡ is_in wanted self.now }
    {
        match self {
            Placement::Apart => false,
            Placement::On { tray, .. } => *tray == wanted,
        }
    }

    /// The tray; None where the piece is apart.
    pub fn tray(&self) -> Option<u8>
        ensures { result ≡ tray_of self.now }
    {
        match self {
            Placement::Apart => None,
            Placement::On { tray, .. } => Some(*tray),
        }
    }

    /// Puts the piece into another tray, at the same position; a piece that is apart stays so.
    pub fn move_to(&mut self, wanted: u8)
        ensures { self.new ≡ to_tray wanted self.old }
    {
        match self {
            Placement::Apart => {}
            Placement::On { tray, .. } => *tray = wanted,
        }
    }
}

impl<P: Copy> Placement<P> {
    ghost use Rattle.std.specs.Prelude.{◌≡◌};
    ghost use Rattle.burr_code.specs.Places.{position_in};

    /// The position in a tray; None where the piece isn't in that tray.
    pub fn position_in(&self, wanted: u8) -> Option<P>
        ensures { result ≡ position_in wanted self.now }
    {
        match self {
            Placement::On { tray, position } if *tray == wanted => Some(*position),
            _ => None,
        }
    }
}

impl<P> Default for Placement<P> {
    ghost use Rattle.std.specs.Prelude.{◌≡◌};
    ghost use Rattle.burr_code.specs.declared.placement.Placement.TheVariants.{Apart};

    ghost is_default = { λ place. place ≡ Apart };

    fn default() -> Placement<P> {
        Placement::Apart
    }
}

/// Whether a piece lies in a tray.
pub fn lies_in<P>(places: &[Placement<P>], piece: u8, tray: u8) -> bool
    ensures { IsTrue result ↔ LiesIn places.now piece tray }
{
    match places.get(usize::from(piece)) {
        Some(place) => place.is_in(tray),
        None => false,
    }
}

/// Whether each piece of a set lies in a tray.
pub fn all_lie_in<P>(places: &[Placement<P>], tray: u8, set: u32) -> bool
    ensures { IsTrue result ↔ AllLieIn places.now tray set }
{
    for piece in 0..MOST_PIECES as u8 {
        if is_in_set(set, piece) && !lies_in(places, piece, tray) {
            return false;
        }
    }
    true
}

/// Whether a group has a piece, and not all that lie in a tray.
pub fn is_part_of_tray<P>(group: u32, places: &[Placement<P>], tray: u8) -> bool
    requires { length places.now ≤ 32 }
    ensures { IsTrue result ↔ IsPartOfTray group places.now tray }
{
    group != 0 && has_rest(places, tray, group)
}

/// Whether a piece of a tray is not in a group.
fn has_rest<P>(places: &[Placement<P>], tray: u8, group: u32) -> bool
    requires { length places.now ≤ 32 }
    ensures { IsTrue result ↔ HasRest places.now tray group }
{
    for piece in 0..places.len() as u8 {
        if lies_in(places, piece, tray) && !is_in_set(group, piece) {
            return true;
        }
    }
    false
}

/// Whether all pieces are apart.
pub fn are_all_apart<P>(places: &[Placement<P>]) -> bool
    ensures { IsTrue result ↔ AllApart places.now }
{
    places.iter().all(Placement::is_apart)
}

/// Whether no piece is in a tray.
pub fn is_empty_tray<P>(places: &[Placement<P>], tray: u8) -> bool
    ensures { IsTrue result ↔ IsEmptyTray places.now tray }
{
    count_in_tray(places, tray) == 0
}

/// Moves a group from the tray `here` to the tray `there`, which was empty; a piece that is then
/// alone in one of the two is apart.
pub fn take_aside<P: Copy>(places: &mut [Placement<P>], group: u32, here: u8, there: u8)
    requires { length places.old ≤ 32 }
    ensures { places.new ≡ aside_places group here there places.old }
{
    move_group(places, group, there);
    part_lone(places, here);
    part_lone(places, there);
}

/// Moves the pieces of a group that aren't apart to a tray.
fn move_group<P>(places: &mut [Placement<P>], group: u32, tray: u8)
    requires { length places.old ≤ 32 }
    ensures { places.new ≡ changed (to_tray tray) group 0 places.old }
{
    for (piece, place) in places.iter_mut().enumerate() {
        if is_in_set(group, piece as u8) {
            place.move_to(tray);
        }
    }
}

/// A piece that is alone in a tray is apart.
fn part_lone<P: Copy>(places: &mut [Placement<P>], tray: u8)
    ensures { places.new ≡ parted tray places.old }
{
    if count_in_tray(places, tray) == 1 {
        part_all(places, tray);
    }
}

/// The number of pieces in a tray.
pub fn count_in_tray<P>(places: &[Placement<P>], tray: u8) -> usize
    ensures { result ≡ count_in tray places.now }
{
    let mut count = 0;
    for place in places {
        if place.is_in(tray) {
            count += 1;
        }
    }
    count
}

/// The pieces of a tray are apart.
fn part_all<P: Copy>(places: &mut [Placement<P>], tray: u8)
    ensures { places.new ≡ parted_in tray places.old }
{
    for place in places.iter_mut() {
        if place.is_in(tray) {
            *place = Placement::Apart;
        }
    }
}

/// Whether a piece of number 0 to 31 is in a set, in which bit p stands for piece p.
pub fn is_in_set(set: u32, piece: u8) -> bool
    requires { piece < 32 }
    ensures { IsTrue result ↔ IsInSet set piece }
{
    set & (1 << piece) != 0
}
