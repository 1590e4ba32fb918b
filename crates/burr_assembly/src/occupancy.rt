ghost use Rattle.std.specs.Prelude.{◌≡◌, ◌<◌, ◌≤◌, ◌++◌, ◌∷◌, [], length, None, IfOk, OnOk};
ghost use Rattle.std.specs.HashMap.{get};
ghost use Rattle.burr_assembly.specs.Views.HomedPieces.{IsFirstMeeting, Owns, lesser, same_cell};

use crate::piece::Piece;
use burr_voxels::Cell;
use std::alloc::{AllocError, Global};
use std::collections::HashMap;
use std::marker::Model;

/// The most pieces of an assembly.
pub const MOST_PIECES: usize = 32;

/// At most 32 pieces, numbered from 0, and of each cell the first of them that has it.
#[derive(Drop)]
pub struct Occupancy {
    pieces: Vec<Piece>,
    owners: HashMap<Cell, u8>,
}

impl Model for Occupancy {
    ghost use Rattle.std.specs.Prelude.{List, ◌≤◌, vec_len};
    ghost use Rattle.std.specs.HashMap.{get};
    ghost use Rattle.burr_assembly.specs.Views.HomedPieces.{HomedPiece, AreOwners, same_cell};

    ghost Value = { List HomedPiece };

    ghost view = { λ o. o.pieces.items };

    ghost invariant = { λ o. (vec_len o.pieces ≤ 32)
        × AreOwners o.pieces.items (get same_cell o.owners) };
}

impl Occupancy {
    /// No piece yet.
    pub fn new(alloc: Global) -> Occupancy
        ensures { result ≡ [] }
    {
        Occupancy {
            pieces: Vec::new(alloc),
            owners: HashMap::new(alloc),
        }
    }

    pub fn pieces(&self) -> &[Piece]
        ensures pieces { result.now ≡ self.now }
        ensures few { length result.now ≤ MOST_PIECES }
    {
        self.pieces.as_slice()
    }

    pub fn into_pieces(self) -> Vec<Piece>
        ensures { result.items ≡ self }
    {
        self.pieces
    }

    /// The first of the pieces that has one of these cells.
    pub fn first_with(&self, cells: &[Cell]) -> Option<u8>
        ensures { IsFirstMeeting self.now cells.now result }
    {
        let mut first = None;
        for cell in cells {
            first = lesser(first, self.owners.get(cell).copied());
        }
        first
    }

    /// These pieces and after them one more, which has none of their cells.
    pub fn with(self, piece: Piece) -> Result<Occupancy, AllocError>
        requires room { length self < MOST_PIECES }
        requires free { IsFirstMeeting self piece.cells None }
        ensures { IfOk result (λ o. o ≡ self ++ piece ∷ []) }
    {
        let Occupancy {
            mut pieces,
            mut owners,
        } = self;
        own(&mut owners, piece.cells(), pieces.len() as u8)?;
        pieces.push(piece)?;
        Ok(Occupancy { pieces, owners })
    }
}

/// Of two numbers the lesser, and where there is but one, that one.
fn lesser(a: Option<u8>, b: Option<u8>) -> Option<u8>
    ensures { result ≡ lesser a b }
{
    match (a, b) {
        (Some(a), Some(b)) => Some(a.min(b)),
        (only, None) | (None, only) => only,
    }
}

/// Makes a piece the owner of cells.
fn own(owners: &mut HashMap<Cell, u8>, cells: &[Cell], piece: u8) -> Result<(), AllocError>
    ensures { OnOk result
        (Owns piece cells.now (get same_cell owners.old) (get same_cell owners.new)) }
{
    for cell in cells {
        owners.insert(*cell, piece)?;
    }
    Ok(())
}
