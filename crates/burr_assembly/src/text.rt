pub mod beginning;
mod line;
mod sketch;

ghost use Rattle.std.specs.Prelude.{◌≡◌, ◌++◌, ◌∷◌, [], OnOk};
ghost use Rattle.burr_assembly.specs.Rules.Text.{shape_text, layer_text, piece_text};
ghost use Rattle.std.specs.Fmt.{signed_decimal};
ghost use Rattle.std.specs.List.{flat_map};
ghost use Rattle.burr_assembly.specs.Views.HomedPieces.{pieces_of};

use crate::piece::{DrawnShape, Layer, Piece};
use itoa::Buffer;
pub use line::piece_name;
use std::alloc::AllocError;

/// Adds the lines of shapes.
pub fn add_shapes(text: &mut Vec<u8>, shapes: &[DrawnShape]) -> Result<(), AllocError>
    ensures { OnOk result (text.new.items ≡ text.old.items ++ flat_map shape_text shapes.now) }
{
    for shape in shapes {
        add_shape(text, shape)?;
    }
    Ok(())
}

/// Adds the lines of pieces.
pub fn add_pieces(text: &mut Vec<u8>, pieces: &[Piece]) -> Result<(), AllocError>
    ensures { OnOk result (text.new.items ≡
        text.old.items ++ flat_map piece_text (pieces_of pieces.now)) }
{
    for piece in pieces {
        add_piece(text, piece)?;
    }
    Ok(())
}

fn add_shape(text: &mut Vec<u8>, shape: &DrawnShape) -> Result<(), AllocError>
    ensures { OnOk result (text.new.items ≡ text.old.items ++ shape_text shape.now) }
{
    text.extend_from_slice(b"shape ")?;
    text.extend_from_slice(shape.name().as_bytes())?;
    text.push(b'\n')?;
    add_layers(text, shape.layers())?;
    text.extend_from_slice(b"end\n")
}

fn add_layers(text: &mut Vec<u8>, layers: &[Layer]) -> Result<(), AllocError>
    ensures { OnOk result (text.new.items ≡ text.old.items ++ flat_map layer_text layers.now) }
{
    for layer in layers {
        add_layer(text, layer)?;
    }
    Ok(())
}

fn add_layer(text: &mut Vec<u8>, layer: &Layer) -> Result<(), AllocError>
    ensures { OnOk result (text.new.items ≡ text.old.items ++ layer_text layer.now) }
{
    text.extend_from_slice(b"layer\n")?;
    for row in layer.rows() {
        text.extend_from_slice(row.marks())?;
        text.push(b'\n')?;
    }
    Ok(())
}

fn add_piece(text: &mut Vec<u8>, piece: &Piece) -> Result<(), AllocError>
    ensures { OnOk result (text.new.items ≡ text.old.items ++ piece_text piece.now.piece) }
{
    let position = piece.position();
    text.extend_from_slice(b"piece ")?;
    text.extend_from_slice(piece.name().as_bytes())?;
    text.push(b' ')?;
    text.extend_from_slice(piece.shape().as_bytes())?;
    text.push(b' ')?;
    text.extend_from_slice(&piece.orientation().name())?;
    add_number(text, position.x)?;
    add_number(text, position.y)?;
    add_number(text, position.z)?;
    text.push(b'\n')?;
    Ok(())
}

/// Adds a blank and a number.
fn add_number(text: &mut Vec<u8>, number: i32) -> Result<(), AllocError>
    ensures { OnOk result (text.new.items ≡ text.old.items ++ 32 ∷ signed_decimal number) }
{
    text.push(b' ')?;
    text.extend_from_slice(Buffer::new().format(number).as_bytes())
}
