ghost use Rattle.std.specs.Prelude.{◌≡◌, ◌≤◌, ◌<◌, ◌↔◌, ◌++◌, ◌∷◌, [], ℕ, List, None, Ok, Err, length, IsTrue, IfOk, IfErr, All};
ghost use Rattle.burr_assembly.specs.Rules.Lines.{LayerLine, RowLine, EndLine};
ghost use Rattle.burr_assembly.specs.Rules.Faults.{IsFinishedLayer, IsRow, Shapes};
ghost use Rattle.burr_assembly.specs.Views.ReaderViews.{sketched, SketchGives, IsDue};

use crate::fault::AssemblyFault;
use crate::piece::{DrawnShape, Layer, Row, SIDE};
use burr_text::Name;
use std::alloc::Global;
use std::marker::Model;

/// The most cells of a shape.
const MOST_CELLS: usize = 512;

/// A shape that has not ended: the layers that are finished, fewer than 16 and none without rows,
/// and the layer that has begun after them.
#[derive(Drop)]
pub struct Sketch {
    name: Name,
    layers: Vec<Layer>,
    begun: Option<Layer>,
}

impl Model for Sketch {
    ghost use Rattle.std.specs.Prelude.{◌<◌, List, ℕ, length, vec_len, All};
    ghost use Rattle.burr_assembly.specs.Views.Drawings.{Sketched};

    ghost Value = { Sketched };

    ghost view = { λ s. record
        { drawing = record { name = s.name; layers = s.layers.items }; begun = s.begun } };

    ghost invariant = { λ s. (vec_len s.layers < 16)
        × All (λ (rows : List (List ℕ)). 0 < length rows) s.layers.items };
}

impl Sketch {
    /// A shape with nothing drawn yet.
    pub fn new(alloc: Global, name: Name) -> Sketch
        ensures { result ≡ record { drawing = record { name = name; layers = [] }; begun = None } }
    {
        Sketch {
            name,
            layers: Vec::new(alloc),
            begun: None,
        }
    }

    /// A line `layer`: finishes the layer that has begun, and begins the next.
    pub fn begin_layer(self, alloc: Global, line: usize) -> Result<Sketch, AssemblyFault>
        ensures ok { IfOk result (λ s.
            SketchGives line self LayerLine (λ name shapes. Ok (sketched name shapes s))) }
        ensures err { IfErr result (λ e. IsDue e (SketchGives line self LayerLine (λ _ _. Err e))) }
    {
        let (name, mut layers, begun) = (self.name, self.layers, self.begun);
        let next = Some(Layer::new(alloc));
        let Some(layer) = begun else {
            return Ok(Sketch {
                name,
                layers,
                begun: next,
            });
        };
        if !is_finished_layer(&layers, &layer) || layers.len() + 1 >= SIDE {
            return Err(AssemblyFault::A3 { line });
        }
        layers.push(layer)?;
        Ok(Sketch {
            name,
            layers,
            begun: next,
        })
    }

    /// A row of the layer that has begun; where none has, no row may stand here.
    pub fn add_row(self, alloc: Global, marks: &[u8], line: usize) -> Result<Sketch, AssemblyFault>
        ensures ok { IfOk result (λ s. SketchGives line self (RowLine marks.now) (λ name shapes.
            Ok (sketched name shapes s))) }
        ensures err { IfErr result (λ e.
            IsDue e (SketchGives line self (RowLine marks.now) (λ _ _. Err e))) }
    {
        let (name, layers, begun) = (self.name, self.layers, self.begun);
        let Some(mut layer) = begun else {
            return Err(AssemblyFault::A1 { line });
        };
        if !is_row_of(&layers, &layer, marks) {
            return Err(AssemblyFault::A3 { line });
        }
        layer.push(Row::new(Vec::from_slice(alloc, marks)?))?;
        Ok(Sketch {
            name,
            layers,
            begun: Some(layer),
        })
    }

    /// A line `end`: the shape, with its last layer finished; where no layer has begun, it may not
    /// end here.
    pub fn finish(self, alloc: Global, line: usize) -> Result<DrawnShape, AssemblyFault>
        ensures ok { IfOk result (λ s.
            SketchGives line self EndLine (λ name shapes. Ok (Shapes name (shapes ++ s ∷ [])))) }
        ensures err { IfErr result (λ e. IsDue e (SketchGives line self EndLine (λ _ _. Err e))) }
    {
        let (name, mut layers, begun) = (self.name, self.layers, self.begun);
        let Some(layer) = begun else {
            return Err(AssemblyFault::A1 { line });
        };
        if !is_finished_layer(&layers, &layer) {
            return Err(AssemblyFault::A3 { line });
        }
        layers.push(layer)?;
        let shape = DrawnShape::new(alloc, name, layers)?;
        let cells = shape.cells();
        if cells.is_empty() || cells.len() > MOST_CELLS {
            return Err(AssemblyFault::A3 { line });
        }
        Ok(shape)
    }
}

/// Whether a layer may be finished after others: it has rows, as many as the first.
fn is_finished_layer(layers: &[Layer], layer: &Layer) -> bool
    ensures { IsTrue result ↔ IsFinishedLayer layers.now layer.now }
{
    let height = layer.rows().len();
    height >= 1
        && layers
            .first()
            .is_none_or(|first| first.rows().len() == height)
}

/// Whether a row may stand after those of a layer: there is room, and it is as wide as the shape's
/// first row.
fn is_row_of(layers: &[Layer], layer: &Layer, marks: &[u8]) -> bool
    requires { All (λ (rows : List (List ℕ)). 0 < length rows) layers.now }
    ensures { IsTrue result ↔ IsRow layers.now layer.now marks.now }
{
    let first_layer = layers.first().map_or(layer.rows(), Layer::rows);
    marks.len() <= SIDE
        && layer.rows().len() < SIDE
        && first_layer
            .first()
            .is_none_or(|row| row.marks().len() == marks.len())
}
