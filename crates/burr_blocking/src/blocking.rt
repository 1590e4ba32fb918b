ghost use Rattle.std.specs.Prelude.{◌≡◌, ◌≢◌, ◌↔◌, ◌<◌, length, IsTrue, ℕ, ◌^◌};
ghost use Rattle.burr_voxels.specs.Near.{IsWithin};
ghost use Rattle.burr_assembly.specs.Rules.Text.{Assembly as AssemblyOf};
ghost use Rattle.burr_assembly.specs.Rules.Homes.{homes_of, home_at};
ghost use Rattle.burr_blocking.specs.declared.triangle.translate.Pair.{Pair as PairOf};
ghost use Rattle.burr_blocking.specs.Rules.Pairs.{IsBlocked, IsFreeFrom, Clears};
ghost use Rattle.burr_blocking.specs.Rules.Counted.{counted, with_more, pair_of};

use crate::triangle::translate::Pair;
use burr_assembly::Assembly;
use burr_voxels::{Cell, Direction};
use std::marker::Model;

/// Answers of how one piece of an assembly, displaced, meets another one at home. Each
/// implementation proves that its answers are those of the pieces' cells. An answer takes no
/// memory.
pub trait Blocking {
    /// The assembly whose pieces the answers are about.
    ghost subject: { Self → AssemblyOf };

    /// It was found of these two pieces: the one that is displaced, and the other at home.
    ghost IsPair: { Self → ℕ → ℕ → PairOf → Type 0 };

    /// The assembly whose pieces the answers are about.
    fn assembly(&self) -> &Assembly
        ensures { result.now ≡ subject self.now };

    /// What is found of two pieces; queries displace the first one. They are two of the assembly's,
    /// and not the same, the caller's conditions.
    fn pair(&self, piece: u8, other: u8) -> Pair
        requires piece { piece < length (subject self.now).pieces }
        requires other { other < length (subject self.now).pieces }
        requires two { piece ≢ other }
        ensures { IsPair self.now piece other result };

    /// Whether the first of two pieces, displaced from home against the second one at home,
    /// overlaps it. The pair was found of two pieces, and the displacement lies within 512 a
    /// coordinate, the caller's conditions.
    fn pair_blocked(&self, pair: &Pair, displacement: Cell) -> bool
        requires known { (p q : ℕ) × IsPair self.now p q pair.now }
        requires near { IsWithin 512 displacement }
        ensures { (p q : ℕ) → IsPair self.now p q pair.now → IsTrue result
            ↔ IsBlocked (home_at (homes_of (subject self.now)) p)
            (home_at (homes_of (subject self.now)) q) displacement };

    /// Whether the first of two pieces, displaced and from there shifted any whole number of units,
    /// at least one, along a direction, never overlaps the second one at home; the same conditions.
    fn pair_free(&self, pair: &Pair, displacement: Cell, direction: Direction) -> bool
        requires known { (p q : ℕ) × IsPair self.now p q pair.now }
        requires near { IsWithin 512 displacement }
        ensures { (p q : ℕ) → IsPair self.now p q pair.now → IsTrue result
            ↔ IsFreeFrom (home_at (homes_of (subject self.now)) p)
            (home_at (homes_of (subject self.now)) q) displacement direction };

    /// Whether a piece, displaced from home against another one at home, overlaps it. The pieces
    /// are two of the assembly's, and the displacement lies within 512 a coordinate, the caller's
    /// conditions.
    final fn blocked(&self, piece: u8, other: u8, displacement: Cell) -> bool
        requires piece { piece < length (subject self.now).pieces }
        requires other { other < length (subject self.now).pieces }
        requires two { piece ≢ other }
        requires near { IsWithin 512 displacement }
        ensures { IsTrue result ↔ IsBlocked (home_at (homes_of (subject self.now)) piece)
            (home_at (homes_of (subject self.now)) other) displacement }
    {
        let pair = self.pair(piece, other);
        self.pair_blocked(&pair, displacement)
    }

    /// Whether a piece, displaced and from there shifted any whole number of units, at least one,
    /// along a direction, never overlaps another one at home; the same conditions.
    final fn free(&self, piece: u8, other: u8, displacement: Cell, direction: Direction) -> bool
        requires piece { piece < length (subject self.now).pieces }
        requires other { other < length (subject self.now).pieces }
        requires two { piece ≢ other }
        requires near { IsWithin 512 displacement }
        ensures { IsTrue result ↔ IsFreeFrom (home_at (homes_of (subject self.now)) piece)
            (home_at (homes_of (subject self.now)) other) displacement direction }
    {
        let pair = self.pair(piece, other);
        self.pair_free(&pair, displacement, direction)
    }

    /// Whether a piece, displaced against another one at home, keeps clear of it as a query asks;
    /// the same conditions.
    final fn clears(&self, query: Query, piece: u8, other: u8, displacement: Cell) -> bool
        requires piece { piece < length (subject self.now).pieces }
        requires other { other < length (subject self.now).pieces }
        requires two { piece ≢ other }
        requires near { IsWithin 512 displacement }
        ensures { IsTrue result ↔ Clears query (home_at (homes_of (subject self.now)) piece)
            (home_at (homes_of (subject self.now)) other) displacement }
    {
        match query {
            Query::Overlap => !self.blocked(piece, other, displacement),
            Query::Exit(direction) => self.free(piece, other, displacement, direction),
        }
    }
}

/// A question about two pieces of an assembly, one displaced from home against the other at home:
/// whether the first keeps clear of the second, where it is displaced to or all the way out from
/// there.
#[derive(Clone, Copy, Debug, PartialEq, Eq)]
pub enum Query {
    /// It does not overlap the other where it is displaced to.
    Overlap,
    /// It goes out along the direction: shifted from there any whole number of units, at least one,
    /// it never overlaps the other.
    Exit(Direction),
}

/// Two pieces of an assembly, prepared so that many queries of them are answered fast. `Looks` asks
/// them, and counts.
#[derive(Drop)]
pub struct PreparedPair<'a, B: Blocking> {
    blocking: &'a B,
    piece: u8,
    other: u8,
    pair: Pair,
}

impl<'a, B: Blocking> Model for PreparedPair<'a, B> {
    ghost use Rattle.burr_blocking.specs.Rules.Counted.{PiecePair, pair_of};

    ghost Value = { PiecePair };

    ghost view = { λ p. pair_of (B.subject p.blocking.now) p.piece p.other };

    ghost invariant = { λ p. B.IsPair p.blocking.now p.piece p.other p.pair };
}

impl<'a, B: Blocking> PreparedPair<'a, B> {
    /// Whether the one, displaced against the other at home, keeps clear of it as a query asks.
    fn clears(&self, query: Query, displacement: Cell) -> bool
        requires { IsWithin 512 displacement }
        ensures { IsTrue result ↔ Clears query
            (home_at (homes_of self.now.assembly) self.now.piece)
            (home_at (homes_of self.now.assembly) self.now.other) displacement }
    {
        match query {
            Query::Overlap => !self.blocking.pair_blocked(&self.pair, displacement),
            Query::Exit(direction) => self.blocking.pair_free(&self.pair, displacement, direction),
        }
    }
}

/// What answers for the pieces of an assembly, each query counted: a counted one is a look. It is
/// lent to nobody, so that no query passes uncounted.
#[derive(Drop)]
pub struct Looks<'a, B: Blocking> {
    blocking: &'a B,
    count: u64,
}

impl<'a, B: Blocking> Model for Looks<'a, B> {
    ghost use Rattle.burr_blocking.specs.Rules.Counted.{Counted, counted};

    ghost Value = { Counted };

    ghost view = { λ l. counted (B.subject l.blocking.now) l.count };
}

impl<'a, B: Blocking> Looks<'a, B> {
    /// No look was made yet.
    pub fn new(blocking: &'a B) -> Looks<'a, B>
        ensures { result ≡ counted (B.subject blocking.entry.now) 0 }
    {
        Looks { blocking, count: 0 }
    }

    /// The assembly whose pieces the queries are about.
    pub fn assembly(&self) -> &'a Assembly
        ensures { result.now ≡ self.now.assembly }
    {
        self.blocking.assembly()
    }

    /// How many looks were made.
    pub fn count(&self) -> u64
        ensures { result ≡ self.now.count }
    {
        self.count
    }

    /// Whether a piece, displaced, overlaps another one at home, as `Blocking::blocked`; the same
    /// conditions, and fewer than 2^62 looks so far.
    pub fn blocked(&mut self, piece: u8, other: u8, displacement: Cell) -> bool
        requires piece { piece < length self.old.assembly.pieces }
        requires other { other < length self.old.assembly.pieces }
        requires two { piece ≢ other }
        requires near { IsWithin 512 displacement }
        requires room { self.old.count < 2 ^ 62 }
        ensures answer { IsTrue result ↔ IsBlocked (home_at (homes_of self.old.assembly) piece)
            (home_at (homes_of self.old.assembly) other) displacement }
        ensures counted { self.new ≡ with_more 1 self.old }
    {
        self.count += 1;
        self.blocking.blocked(piece, other, displacement)
    }

    /// Whether a piece, displaced and from there shifted along a direction, never overlaps another
    /// one at home, as `Blocking::free`; the same conditions.
    pub fn free(&mut self, piece: u8, other: u8, displacement: Cell, direction: Direction) -> bool
        requires piece { piece < length self.old.assembly.pieces }
        requires other { other < length self.old.assembly.pieces }
        requires two { piece ≢ other }
        requires near { IsWithin 512 displacement }
        requires room { self.old.count < 2 ^ 62 }
        ensures answer { IsTrue result ↔ IsFreeFrom (home_at (homes_of self.old.assembly) piece)
            (home_at (homes_of self.old.assembly) other) displacement direction }
        ensures counted { self.new ≡ with_more 1 self.old }
    {
        self.count += 1;
        self.blocking.free(piece, other, displacement, direction)
    }

    /// Whether a piece, displaced against another one at home, keeps clear of it as a query asks,
    /// as `Blocking::clears`; the same conditions. It is one look.
    pub fn clears(&mut self, query: Query, piece: u8, other: u8, displacement: Cell) -> bool
        requires piece { piece < length self.old.assembly.pieces }
        requires other { other < length self.old.assembly.pieces }
        requires two { piece ≢ other }
        requires near { IsWithin 512 displacement }
        requires room { self.old.count < 2 ^ 62 }
        ensures answer { IsTrue result ↔ Clears query (home_at (homes_of self.old.assembly) piece)
            (home_at (homes_of self.old.assembly) other) displacement }
        ensures counted { self.new ≡ with_more 1 self.old }
    {
        let pair = self.pair(piece, other);
        self.pair_clears(query, &pair, displacement)
    }

    /// Two different pieces of the assembly, prepared for many looks.
    pub fn pair(&self, piece: u8, other: u8) -> PreparedPair<'a, B>
        requires piece { piece < length self.now.assembly.pieces }
        requires other { other < length self.now.assembly.pieces }
        requires two { piece ≢ other }
        ensures { result ≡ pair_of self.now.assembly piece other }
    {
        PreparedPair {
            blocking: self.blocking,
            piece,
            other,
            pair: self.blocking.pair(piece, other),
        }
    }

    /// Whether the first of two prepared pieces, displaced against the other at home, keeps clear
    /// of it as a query asks. The displacement lies within 512 a coordinate, and fewer than 2^62
    /// looks were made so far, the caller's conditions. It is one look.
    pub fn pair_clears(
        &mut self,
        query: Query,
        pair: &PreparedPair<'a, B>,
        displacement: Cell,
    ) -> bool
        requires near { IsWithin 512 displacement }
        requires room { self.old.count < 2 ^ 62 }
        ensures answer { IsTrue result ↔ Clears query
            (home_at (homes_of pair.now.assembly) pair.now.piece)
            (home_at (homes_of pair.now.assembly) pair.now.other) displacement }
        ensures counted { self.new ≡ with_more 1 self.old }
    {
        self.count += 1;
        pair.clears(query, displacement)
    }
}
