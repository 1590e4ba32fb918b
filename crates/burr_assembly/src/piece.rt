ghost use Rattle.std.specs.Prelude.{◌≡◌, IfOk, ◌≤◌, ◌<◌, ◌++◌, ◌∷◌, [], length, OnOk, vec_len, All};
ghost use Rattle.burr_voxels.specs.Near.{IsWithin};
ghost use Rattle.burr_text.specs.Names.{IsName};
ghost use Rattle.burr_assembly.specs.Rules.Text.{home_cells, drawn_cells, drawn_sides, row_cells, layer_cells};
ghost use Rattle.burr_assembly.specs.Views.HomedPieces.{turn_of, homed_piece};

use burr_text::Name;
use burr_voxels::{Cell, Cells, Orientation, Shape};
use std::alloc::{AllocError, Global};
use std::marker::Model;

/// A piece: a shape, turned and put in its place, with its cells at home.
#[derive(Debug, Drop)]
pub struct Piece {
    name: Name,
    shape: Name,
    orientation: Orientation,
    position: Cell,
    cells: Vec<Cell>,
}

impl Model for Piece {
    ghost use Rattle.std.specs.List.{All};
    ghost use Rattle.burr_voxels.specs.Near.{IsWithin};
    ghost use Rattle.burr_assembly.specs.Views.HomedPieces.{HomedPiece, homed_piece};

    ghost Value = { HomedPiece };

    ghost view = { λ p. homed_piece p.name p.shape p.orientation p.position p.cells.items };

    ghost invariant = { λ p. All (IsWithin 79) p.cells.items };
}

impl Piece {
    /// The piece of this name and shape; its cells are those of the shape, each turned, and then
    /// moved to the position.
    pub fn new(
        alloc: Global,
        name: &[u8],
        shape: &DrawnShape,
        orientation: Orientation,
        position: Cell,
    ) -> Result<Piece, AllocError>
        requires name { IsName name.now }
        requires position { IsWithin 64 position }
        ensures { IfOk result (λ p. p ≡ homed_piece name.now shape.now.name orientation position
            (home_cells (turn_of orientation) position (drawn_cells shape.now.layers))) }
    {
        let mut cells = Vec::with_capacity(alloc, shape.cells().len())?;
        for cell in shape.cells() {
            cells.push(orientation.turn(*cell) + position)?;
        }
        Ok(Piece {
            name: Name::new(alloc, name)?,
            shape: Name::new(alloc, shape.name().as_bytes())?,
            orientation,
            position,
            cells,
        })
    }

    pub fn name(&self) -> &Name
        ensures { result.now ≡ self.now.piece.name }
    {
        &self.name
    }

    pub fn shape(&self) -> &Name
        ensures { result.now ≡ self.now.piece.shape }
    {
        &self.shape
    }

    pub fn orientation(&self) -> Orientation
        ensures { turn_of result ≡ self.now.piece.turn }
    {
        self.orientation
    }

    pub fn position(&self) -> Cell
        ensures { result ≡ self.now.piece.position }
    {
        self.position
    }

    /// Its cells at home: the shape's in their order, each turned and moved.
    pub fn cells(&self) -> &[Cell]
        ensures cells { result.now ≡ self.now.cells }
        ensures near { All (IsWithin 79) result.now }
    {
        self.cells.as_slice()
    }
}

/// A shape with its name, as it is drawn and as its cells.
#[derive(Debug, Drop)]
pub struct DrawnShape {
    name: Name,
    layers: Vec<Layer>,
    shape: Shape,
}

impl Model for DrawnShape {
    ghost use Rattle.std.specs.Prelude.{◌≡◌, All};
    ghost use Rattle.burr_voxels.specs.Near.{IsWithin};
    ghost use Rattle.burr_assembly.specs.Rules.Text.{Drawing, drawn_cells, drawn_sides};

    ghost Value = { Drawing };

    ghost view = { λ s. record { name = s.name; layers = s.layers.items } };

    ghost invariant = { λ s.
        (s.shape.sides ≡ drawn_sides s.layers.items)
        × (s.shape.cells ≡ drawn_cells s.layers.items)
        × All (IsWithin 15) s.shape.cells };
}

impl DrawnShape {
    /// The shape of this name that these layers draw: its cells are those of the layers upwards, in
    /// each its rows, in each x rising.
    pub fn new(alloc: Global, name: Name, layers: Vec<Layer>) -> Result<DrawnShape, AllocError>
        requires { vec_len layers ≤ SIDE }
        ensures { IfOk result (λ s. s ≡ record { name = name; layers = layers.items }) }
    {
        let mut cells = Vec::new(alloc);
        for (z, layer) in layers.iter().enumerate() {
            add_layer_cells(&mut cells, layer.rows(), z)?;
        }
        let shape = Shape {
            sides: sides_of(&layers),
            cells: Cells::new(cells),
        };
        Ok(DrawnShape {
            name,
            layers,
            shape,
        })
    }

    pub fn name(&self) -> &Name
        ensures { result.now ≡ self.now.name }
    {
        &self.name
    }

    pub fn layers(&self) -> &[Layer]
        ensures { result.now ≡ self.now.layers }
    {
        self.layers.as_slice()
    }

    pub fn cells(&self) -> &[Cell]
        ensures cells { result.now ≡ drawn_cells self.now.layers }
        ensures near { All (IsWithin 15) result.now }
    {
        self.shape.cells.as_slice()
    }
}

/// The longest side of a shape's box.
pub const SIDE: usize = 16;

/// The mark of a cell in a drawing; a `.` marks a place without a cell.
const CELL: u8 = b'#';

/// A row of a drawing, x rising: at most 16 marks, `#` or `.`.
#[derive(Debug, Drop)]
pub struct Row {
    marks: Vec<u8>,
}

impl Model for Row {
    ghost use Rattle.std.specs.Prelude.{◌≤◌, List, ℕ, vec_len};

    ghost Value = { List ℕ };

    ghost view = { λ r. r.marks.items };

    ghost invariant = { λ r. vec_len r.marks ≤ 16 };
}

impl Row {
    pub fn new(marks: Vec<u8>) -> Row
        requires { vec_len marks ≤ SIDE }
        ensures { result ≡ marks.items }
    {
        Row { marks }
    }

    pub fn marks(&self) -> &[u8]
        ensures marks { result.now ≡ self.now }
        ensures narrow { length result.now ≤ SIDE }
    {
        self.marks.as_slice()
    }
}

/// A layer of a drawing: at most 16 rows, y rising.
#[derive(Debug, Drop)]
pub struct Layer {
    rows: Vec<Row>,
}

impl Model for Layer {
    ghost use Rattle.std.specs.Prelude.{◌≤◌, List, ℕ, vec_len};

    ghost Value = { List (List ℕ) };

    ghost view = { λ l. l.rows.items };

    ghost invariant = { λ l. vec_len l.rows ≤ 16 };
}

impl Layer {
    /// A layer without rows.
    pub fn new(alloc: Global) -> Layer
        ensures { result ≡ [] }
    {
        Layer {
            rows: Vec::new(alloc),
        }
    }

    pub fn rows(&self) -> &[Row]
        ensures rows { result.now ≡ self.now }
        ensures shallow { length result.now ≤ SIDE }
    {
        self.rows.as_slice()
    }

    /// Adds a row after the others.
    pub fn push(&mut self, row: Row) -> Result<(), AllocError>
        requires { length self.old < SIDE }
        ensures { OnOk result (self.new ≡ self.old ++ row ∷ []) }
    {
        self.rows.push(row)?;
        Ok(())
    }
}

/// Adds the cells of a row of a drawing.
fn add_row_cells(cells: &mut Vec<Cell>, marks: &[u8], y: usize, z: usize) -> Result<(), AllocError>
    requires narrow { length marks.now ≤ SIDE }
    requires y { y < SIDE }
    requires z { z < SIDE }
    requires near { All (IsWithin 15) cells.old.items }
    ensures cells { OnOk result (cells.new.items ≡ cells.old.items ++ row_cells 0 y z marks.now) }
    ensures near { OnOk result (All (IsWithin 15) cells.new.items) }
{
    for (x, mark) in marks.iter().enumerate() {
        if *mark == CELL {
            let (x, y, z) = (x as i32, y as i32, z as i32);
            cells.push(Cell { x, y, z })?;
        }
    }
    Ok(())
}

/// Adds the cells of a layer of a drawing.
fn add_layer_cells(cells: &mut Vec<Cell>, rows: &[Row], z: usize) -> Result<(), AllocError>
    requires shallow { length rows.now ≤ SIDE }
    requires z { z < SIDE }
    requires near { All (IsWithin 15) cells.old.items }
    ensures cells { OnOk result (cells.new.items ≡ cells.old.items ++ layer_cells 0 z rows.now) }
    ensures near { OnOk result (All (IsWithin 15) cells.new.items) }
{
    for (y, row) in rows.iter().enumerate() {
        add_row_cells(cells, row.marks(), y, z)?;
    }
    Ok(())
}

/// The sides of the box of a drawing.
fn sides_of(layers: &[Layer]) -> Cell
    requires { length layers.now ≤ SIDE }
    ensures { result ≡ drawn_sides layers.now }
{
    let rows = layers.first().map_or(&[][..], Layer::rows);
    let width = rows.first().map_or(0, |row| row.marks().len());
    Cell {
        x: width as i32,
        y: rows.len() as i32,
        z: layers.len() as i32,
    }
}
