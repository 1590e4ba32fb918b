pub mod translate;

ghost use Rattle.std.specs.Prelude.{◌≡◌, length, vec_len, IfOk, ◌<◌, slice_index_or, ◌↔◌, ◌+◌, ◌++◌, ◌∷◌, [], IsTrue, MatchOption};
ghost use Rattle.std.specs.List.{All};
ghost use Rattle.burr_voxels.specs.Near.{IsWithin};
ghost use Rattle.burr_assembly.specs.Rules.Text.{IsAssembly};
ghost use Rattle.burr_assembly.specs.Rules.Homes.{homes_of, DiameterAtMost};
ghost use Rattle.burr_blocking.specs.Views.Classes.{AreClasses};
ghost use Rattle.burr_blocking.specs.Views.Triangles.{AreClassPairs, AreFirstPairs, held};
ghost use Rattle.burr_blocking.specs.declared.triangle.translate.Translate.{Translate as TranslateOf};

use crate::blocking::Blocking;
use crate::cell_tables::PairAnswers;
use crate::triangle::translate::{Pair, Translate, displacement_between};
use burr_assembly::Assembly;
use burr_voxels::{Cell, Direction};
use std::alloc::{AllocError, Global};
use std::marker::Model;

/// The queries of pieces, answered by the representatives of their classes: for each class, what is
/// kept of the one before it against it. A query of two pieces is one of their representatives,
/// displaced by what the pieces are displaced from them. Where the two come in the other order, the
/// query is turned round: the second one is displaced back.
#[derive(Debug, Drop)]
pub struct Triangle<'a, P: PairAnswers> {
    assembly: Held<'a>,
    classes: Classes,
    pairs: Vec<Vec<P>>,
    /// For each piece a row with the pairs of its class and those of all pieces, found once: a query
    /// reads them.
    rows: Vec<Vec<Pair>>,
}

impl<'a, P: PairAnswers> Model for Triangle<'a, P> {
    ghost use Rattle.burr_assembly.specs.Rules.Homes.{homes_of};
    ghost use Rattle.burr_blocking.specs.Views.Triangles.{AreRows, ClassedAssembly, IsTriangle, held};

    ghost Value = { ClassedAssembly };

    ghost view = { λ t. record { assembly = held t.assembly; classes = t.classes } };

    ghost invariant = { λ t.
        IsTriangle P.Overlaps (homes_of (held t.assembly)) t.classes t.pairs.items
        × AreRows t.classes t.rows.items };
}

impl<'a, P: PairAnswers> Triangle<'a, P> {
    /// The tables of an assembly's pieces.
    pub fn build(alloc: Global, assembly: &'a Assembly) -> Result<Triangle<'a, P>, AllocError>
        ensures { IfOk result (λ t.
            ⟦<Triangle<'a, P> as Blocking>⟧.subject t ≡ assembly.entry.now) }
    {
        Triangle::holding(alloc, Held::Lent(assembly))
    }

    /// The tables of the pieces of an assembly, which they keep.
    pub fn owning(alloc: Global, assembly: Assembly) -> Result<Triangle<'static, P>, AllocError>
        ensures { IfOk result (λ t.
            ⟦<Triangle<'static, P> as Blocking>⟧.subject t ≡ assembly) }
    {
        Triangle::holding(alloc, Held::Owned(assembly))
    }

    /// The tables of the pieces of an assembly that is lent or owned.
    fn holding(alloc: Global, assembly: Held<'a>) -> Result<Triangle<'a, P>, AllocError>
        ensures { IfOk result (λ t. t.assembly ≡ held assembly.entry) }
    {
        let classes = Classes::build(alloc, assembly.lent())?;
        let pairs = pairs_of(alloc, assembly.lent(), &classes)?;
        let rows = classes.rows(alloc)?;
        Ok(Triangle {
            assembly,
            classes,
            pairs,
            rows,
        })
    }
}

impl<'a, P: PairAnswers> Blocking for Triangle<'a, P> {
    ghost use Rattle.burr_blocking.specs.Views.Triangles.{IsPairIn};

    ghost subject = { λ t. t.assembly };

    ghost IsPair = { IsPairIn };

    fn assembly(&self) -> &Assembly {
        self.assembly.lent()
    }

    fn pair(&self, piece: u8, other: u8) -> Pair {
        self.rows[usize::from(piece)][usize::from(other)]
    }

    fn pair_blocked(&self, pair: &Pair, displacement: Cell) -> bool {
        self.pairs[pair.later][pair.earlier].blocked(pair.way(displacement))
    }

    fn pair_free(&self, pair: &Pair, displacement: Cell, direction: Direction) -> bool {
        self.pairs[pair.later][pair.earlier].free(pair.way(displacement), pair.direction(direction))
    }
}

/// An assembly that is lent, or owned.
#[derive(Debug, Drop)]
pub enum Held<'a> {
    Lent(&'a Assembly),
    Owned(Assembly),
}

impl Held<'_> {
    /// The assembly.
    fn lent(&self) -> &Assembly
        ensures { result.now ≡ held self.now }
    {
        match self {
            Held::Lent(assembly) => assembly,
            Held::Owned(assembly) => assembly,
        }
    }
}

/// The pairs of the classes of an assembly's pieces, class by class.
fn pairs_of<P: PairAnswers>(
    alloc: Global,
    assembly: &Assembly,
    classes: &Classes,
) -> Result<Vec<Vec<P>>, AllocError>
    requires assembly { IsAssembly assembly.now }
    requires classes { AreClasses (homes_of assembly.now) classes.now }
    ensures count { IfOk result (λ v. vec_len v ≡ length classes.now.representatives.items) }
    ensures each { IfOk result (λ v.
        AreFirstPairs P.Overlaps (homes_of assembly.now) classes.now v.items) }
{
    let count = classes.representatives.len();
    let mut pairs = Vec::with_capacity(alloc, count)?;
    for later in 0..count {
        pairs.push(pairs_of_class(alloc, assembly, classes, later)?)?;
    }
    Ok(pairs)
}

/// The pairs of a class: for each class before it, that one's representative against its own, and
/// its own against itself where it has two pieces.
fn pairs_of_class<P: PairAnswers>(
    alloc: Global,
    assembly: &Assembly,
    classes: &Classes,
    later: usize,
) -> Result<Vec<P>, AllocError>
    requires assembly { IsAssembly assembly.now }
    requires classes { AreClasses (homes_of assembly.now) classes.now }
    requires class { later < length classes.now.representatives.items }
    ensures { IfOk result (AreClassPairs P.Overlaps (homes_of assembly.now) classes.now later) }
{
    let others = classes.cells(assembly, later);
    let count = later + usize::from(classes.has_several(later));
    let mut pairs = Vec::with_capacity(alloc, count)?;
    for earlier in 0..count {
        pairs.push(P::build(alloc, classes.cells(assembly, earlier), others)?)?;
    }
    Ok(pairs)
}

/// The pieces of an assembly in classes: two are of one class where their cells differ by a
/// displacement alone. The first piece of a class is its representative.
#[derive(Debug, Drop)]
pub struct Classes {
    representatives: Vec<u8>,
    translates: Vec<Translate>,
}

impl Classes {
    ghost use Rattle.burr_blocking.specs.Views.Translates.{representative_at};
    ghost use Rattle.burr_blocking.specs.Views.Classes.{AreClasses, AreFirstClasses, HasSeveral, IsAnother, IsPairCount, IsOfClass};
    ghost use Rattle.burr_blocking.specs.Views.Triangles.{AreRows, IsRowOf, IsPairOfTwo};

    /// The classes of an assembly's pieces.
    pub fn build(alloc: Global, assembly: &Assembly) -> Result<Classes, AllocError>
        ensures classes { IfOk result (AreClasses (homes_of assembly.now)) }
        ensures assembly { IsAssembly assembly.now }
    {
        let count = assembly.piece_count();
        let mut classes = Classes {
            representatives: Vec::new(alloc),
            translates: Vec::with_capacity(alloc, usize::from(count))?,
        };
        for piece in 0..count {
            classes = classes.with_piece(assembly, piece)?;
        }
        Ok(classes)
    }

    /// These classes with one more piece.
    fn with_piece(mut self, assembly: &Assembly, piece: u8) -> Result<Classes, AllocError>
        requires assembly { IsAssembly assembly.now }
        requires piece { piece < length assembly.now.pieces }
        requires classes { AreFirstClasses (homes_of assembly.now) piece self }
        ensures { IfOk result (AreFirstClasses (homes_of assembly.now) (piece + 1)) }
    {
        let translate = match self.find(assembly, assembly.cells(piece)) {
            Some(translate) => translate,
            None => {
                let class = self.representatives.len();
                self.representatives.push(piece)?;
                Translate {
                    class,
                    displacement: Cell::ORIGIN,
                }
            }
        };
        self.translates.push(translate)?;
        Ok(self)
    }

    /// The first class such that the cells are a translate of its representative's cells; `None`
    /// where there is no such class.
    fn find(&self, assembly: &Assembly, cells: &[Cell]) -> Option<Translate>
        requires assembly { IsAssembly assembly.now }
        requires representatives { All (λ p. p < length (homes_of assembly.now))
            self.now.representatives.items }
        requires near { All (IsWithin 79) cells.now }
        ensures { MatchOption result
            ((t : TranslateOf)
            → ¬ IsOfClass (homes_of assembly.now) self.now.representatives.items cells.now t)
            (IsOfClass (homes_of assembly.now) self.now.representatives.items cells.now) }
    {
        for class in 0..self.representatives.len() {
            match displacement_between(self.cells(assembly, class), cells) {
                Some(displacement) => {
                    return Some(Translate {
                        class,
                        displacement,
                    });
                }
                None => {}
            }
        }
        None
    }

    /// The home cells of the representative of a class.
    pub fn cells<'a>(&self, assembly: &'a Assembly, class: usize) -> &'a [Cell]
        requires assembly { IsAssembly assembly.now }
        requires representatives { All (λ p. p < length (homes_of assembly.now))
            self.now.representatives.items }
        requires class { class < length self.now.representatives.items }
        ensures cells { result.now ≡ representative_at (homes_of assembly.now)
            self.now.representatives.items class }
        ensures near { All (IsWithin 79) result.now }
        ensures small { DiameterAtMost 15 result.now }
    {
        assembly.cells(self.representatives[class])
    }

    /// For each piece a row with the pairs of its class and those of all pieces, in their order.
    pub fn rows(&self, alloc: Global) -> Result<Vec<Vec<Pair>>, AllocError>
        ensures { IfOk result (λ rows. AreRows self.now rows.items) }
    {
        let count = self.translates.len();
        let mut rows = Vec::with_capacity(alloc, count)?;
        for piece in 0..count {
            rows.push(self.row(alloc, piece)?)?;
        }
        Ok(rows)
    }

    /// The pairs of a piece's class and those of all pieces.
    fn row(&self, alloc: Global, piece: usize) -> Result<Vec<Pair>, AllocError>
        requires { piece < length self.now.translates.items }
        ensures { IfOk result (λ row. IsRowOf self.now piece row.items) }
    {
        let count = self.translates.len();
        let mut row = Vec::with_capacity(alloc, count)?;
        for other in 0..count {
            row.push(self.pair(piece, other))?;
        }
        Ok(row)
    }

    /// The pair of the classes of two pieces.
    fn pair(&self, piece: usize, other: usize) -> Pair
        requires piece { piece < length self.now.translates.items }
        requires other { other < length self.now.translates.items }
        ensures { IsPairOfTwo self.now piece other result }
    {
        let from = self.translates[piece];
        let to = self.translates[other];
        let shift = from.displacement - to.displacement;
        if to.class < from.class {
            return Pair {
                earlier: to.class,
                later: from.class,
                shift,
                is_turned: true,
                sign: -1,
            };
        }
        Pair {
            earlier: from.class,
            later: to.class,
            shift,
            is_turned: false,
            sign: 1,
        }
    }

    /// Whether a class has another piece than its representative.
    fn has_several(&self, class: usize) -> bool
        requires { class < length self.now.representatives.items }
        ensures { IsTrue result ↔ HasSeveral self.now class }
    {
        for piece in 0..self.translates.len() {
            if piece != usize::from(self.representatives[class])
                && self.translates[piece].class == class
            {
                return true;
            }
        }
        false
    }
}
