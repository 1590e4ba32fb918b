//! Assembly texts: their faults, their assemblies, and the names in them.

mod words;

use crate::answers::answer_to;
use crate::tables::{assert_answer, assert_tables, input_of};
use burr_testing::plans::{CUP, DUO, RING};
use std::alloc::{AllocError, Global};
use std::process::Abort;
use words::*;

/// Lines that are changed, or end too early, and drawings.
const LINES: [[&str; 4]; 7] = [
    ["assembly", DUO, "@", CHANGES],
    ["assembly", "@", "@", FRONTS],
    ["assembly", UP_TO_PIECES, "@", ENDS],
    ["assembly", DRAWN, "@", DRAWINGS],
    ["assembly", UP_TO_BARS, "@", BARS],
    ["assembly", DUO, "@", FORMLESS],
    ["assembly", DUO, "@", LONG_WORDS],
];

const POSITIONED: [[&str; 4]; 4] = [
    ["assembly", FIRST_OF_THREE, "@", NUMBERS],
    ["assembly", SECOND_OF_THREE, "@", NUMBERS],
    ["assembly", THIRD_OF_THREE, "@", NUMBERS],
    ["assembly", ALL_THREE, "@", POSITIONS],
];

/// Texts at the limits of the format.
const AT_LIMITS: [[&str; 4]; 6] = [
    ["assembly", SHAPES, "@", BEHIND_SHAPES],
    ["assembly", PIECES_31, "@", BEHIND_31_PIECES],
    ["assembly", PIECES_32, "@", BEHIND_32_PIECES],
    ["cells", PIECES_32, "@", CELLS_OF_32_PIECES],
    ["assembly", BOX, "@", BOXES],
    ["assembly", BOX_512, "@", LAST_ROWS],
];

const CELLS: [[&str; 4]; 5] = [
    ["cells", DUO, "@", "|duo; A 0,0,0; B 1,0,0"],
    ["cells", RING, "@", RING_CELLS],
    ["cells", CUP, "@", CUP_CELLS],
    ["cells", "@", "@", ASSEMBLIES],
    ["cells", TURNED, TURNED_CELLS, TURNS],
];

const NAMES: [[&str; 4]; 8] = [
    ["name 0", DUO, "@", "|A"],
    ["name 1", DUO, "@", "|B"],
    ["name 2", DUO, "@", "|"],
    ["name 255", DUO, "@", "|"],
    ["name 1", CUP, "@", "|B"],
    ["name 0", "@", "@", "|"],
    ["name 0", "@", "@", NAMED],
    ["name 1", "@", "@", "piece A a +x 0 0 0/piece B a +x 0 0 0|"],
];

#[test]
fn judges_lines_of_assemblies(rt: HostRuntime) {
    assert_tables(&rt, rt.alloc(), &LINES);
}

#[test]
fn judges_positions(rt: HostRuntime) {
    assert_tables(&rt, rt.alloc(), &POSITIONED);
}

#[test]
fn takes_assemblies_at_limits(rt: HostRuntime) {
    assert_tables(&rt, rt.alloc(), &AT_LIMITS);
}

#[test]
fn gives_home_cells(rt: HostRuntime) {
    assert_tables(&rt, rt.alloc(), &CELLS);
}

#[test]
fn finds_names_of_pieces(rt: HostRuntime) {
    assert_tables(&rt, rt.alloc(), &NAMES);
}

/// The images of an axis.
const IMAGES: [&str; 6] = ["+x", "-x", "+y", "-y", "+z", "-z"];

/// The images of all axes, by a number below 216.
fn images_of(alloc: Global, number: usize) -> Result<String, AllocError> {
    let (x, y, z) = (number / 36 % 6, number / 6 % 6, number % 6);
    format!(in alloc; "{}{}{}", IMAGES[x], IMAGES[y], IMAGES[z])
}

/// Whether a piece may be turned so; where it may not, this has to be the fault.
fn is_turn(rt: &impl Abort, alloc: Global, images: &str) -> Result<bool, AllocError> {
    let text = input_of(alloc, "assembly", TURNED, images)?;
    let found = answer_to(alloc, "assembly", &text)?;
    let is_right = found.as_str() == "right";
    if !is_right {
        assert_answer(rt, images, &found, "A4 { line: 20 }");
    }
    Ok(is_right)
}

#[test]
fn turns_pieces_no_other_way(rt: HostRuntime) {
    let mut right = 0u32;
    for number in 0..216usize {
        let images = images_of(rt.alloc(), number).expect(&rt, "memory");
        if is_turn(&rt, rt.alloc(), &images).expect(&rt, "memory") {
            right = right.wrapping_add(1);
        }
    }
    assert!(rt; right == 24);
}

/// The duo around one of the coordinates of its last position, or around them all.
const FIRST_OF_THREE: &str = "\
assembly duo/shape cube/layer/#/end/piece A cube +x+y+z 0 0 0/piece B cube +x+y+z @ 5 5/";

const SECOND_OF_THREE: &str = "\
assembly duo/shape cube/layer/#/end/piece A cube +x+y+z 0 0 0/piece B cube +x+y+z 5 @ 5/";

const THIRD_OF_THREE: &str = "\
assembly duo/shape cube/layer/#/end/piece A cube +x+y+z 0 0 0/piece B cube +x+y+z 5 5 @/";

const ALL_THREE: &str = "\
assembly duo/shape cube/layer/#/end/piece A cube +x+y+z 0 0 0/piece B cube +x+y+z @/";

// What a right text gives: names and home cells.

/// The cells of the cup.
pub const CUP_CELLS: &str = "|\
cup; A 1,1,1; B 0,0,0 1,0,0 2,0,0 0,1,0 1,1,0 2,1,0 0,2,0 1,2,0 2,2,0 0,0,1 1,0,1 2,0,1 \
0,1,1 2,1,1 0,2,1 1,2,1 2,2,1";

/// The cells of the ring.
pub const RING_CELLS: &str = "|\
ring; A 1,1,0 1,1,1 1,1,2; B 0,0,0 1,0,0 2,0,0 0,1,0 2,1,0 0,2,0 1,2,0 2,2,0";

/// Texts, and the cells of their assemblies.
pub const ASSEMBLIES: &str = "\
assembly ell/shape ell/layer/##/#./end/piece A ell -y+x+z 5 5 0/piece B ell +x+y+z 0 0 0/|\
ell; A 5,5,0 5,4,0 6,5,0; B 0,0,0 1,0,0 0,1,0
; a margin without cells, shapes that no piece has, and names that a thing of another kind has
assembly Burr_9-x/shape Burr_9-x/layer/../.#/layer/#./../end/shape z/layer/#/end/shape Z/\
layer/#/end/piece Burr_9-x z -x-y+z -64 64 0/piece z Burr_9-x +y+z+x -1 -64 10/|\
Burr_9-x; Burr_9-x -64,64,0; z -1,-63,11 0,-64,10
; names of 32 bytes that differ in the last alone
assembly a123456789_123456789-123456789_1/shape a123456789_123456789-123456789_2/layer/#/\
end/shape a123456789_123456789-123456789_3/layer/##/end/\
piece a123456789_123456789-123456789_4 a123456789_123456789-123456789_2 +x+y+z 0 0 0/\
piece a123456789_123456789-123456789_5 a123456789_123456789-123456789_3 +x+y+z 1 0 0/|\
a123456789_123456789-123456789_1; a123456789_123456789-123456789_4 0,0,0; \
a123456789_123456789-123456789_5 1,0,0 2,0,0
";

/// A text around the orientation of a shape of the cell 1,2,3 alone.
pub const TURNED: &str = "assembly dots/shape dot/<3 layer/../../../>layer/../../.#/end/\
piece A dot @ 0 0 0/piece B dot +x+y+z 9 8 7/";

/// The cells of its assembly around that of the first piece.
pub const TURNED_CELLS: &str = "dots; A @; B 10,10,10";

/// The orientations, and where each takes the cell 1,2,3.
pub const TURNS: &str = "\
+x+y+z|1,2,3
+x-y-z|1,-2,-3
+x+z-y|1,-3,2
+x-z+y|1,3,-2
-x+y-z|-1,2,-3
-x-y+z|-1,-2,3
-x+z+y|-1,3,2
-x-z-y|-1,-3,-2
+y+x-z|2,1,-3
+y-x+z|-2,1,3
+y+z+x|3,1,2
+y-z-x|-3,1,-2
-y+x+z|2,-1,3
-y-x-z|-2,-1,-3
-y+z-x|-3,-1,2
-y-z+x|3,-1,-2
+z+x+y|2,3,1
+z-x-y|-2,-3,1
+z+y-x|-3,2,1
+z-y+x|3,-2,1
-z+x-y|2,-3,-1
-z-x+y|-2,3,-1
-z+y+x|3,2,-1
-z-y-x|-3,-2,-1
";

/// Texts that need not be right, and the name of piece 0 that is found in them.
pub const NAMED: &str = "\
; after the piece the text may be wrong, and it may end without the end of a line
piece A a +x 0 0 0/x/piece B|A
; lines of a shape named as a piece, and of no form
shape piece/piece A a +x 0 0 0/|A
piece A/piece B b +x 0 0/piece C c x -1 10 0/|C
piece A b c 01 0 0/piece  B b c 0 0 0/piece D b c 0 0 0/|D
";

// Limits that are met, and passed by one.

/// The front of a text, up to the 32nd shape, of 4 lines each.
pub const SHAPES: &str = "\
assembly many/shape a/layer/#/end/shape b/layer/#/end/shape c/layer/#/end/shape d/layer/#/\
end/shape e/layer/#/end/shape f/layer/#/end/shape g/layer/#/end/shape h/layer/#/end/shape i/\
layer/#/end/shape j/layer/#/end/shape k/layer/#/end/shape l/layer/#/end/shape m/layer/#/end/\
shape n/layer/#/end/shape o/layer/#/end/shape p/layer/#/end/shape q/layer/#/end/shape r/\
layer/#/end/shape s/layer/#/end/shape t/layer/#/end/shape u/layer/#/end/shape v/layer/#/end/\
shape w/layer/#/end/shape x/layer/#/end/shape y/layer/#/end/shape z/layer/#/end/shape A/\
layer/#/end/shape B/layer/#/end/shape C/layer/#/end/shape D/layer/#/end/shape E/layer/#/end/\
shape F/layer/#/end/@";

/// What stands after 32 shapes, from line 130 on.
pub const BEHIND_SHAPES: &str = "\
piece A a +x+y+z 0 0 0/piece B F +x+y+z 1 0 0/|right
piece A a +x+y+z 0 0 0/piece B G +x+y+z 1 0 0/|A6 { line: 131 }
|A7 { line: 130 }
piece A a +x+y+z 0 0 0/|A7 { line: 131 }
shape G/|A7 { line: 130 }
shape a/|A7 { line: 130 }
shape 1/|A7 { line: 130 }
shape/|A1 { line: 130 }
shape G G/|A1 { line: 130 }
shape G|A1 { line: 130 }
piece A a +x+y+z 0 0 0/shape G/|A1 { line: 131 }
";

/// The front of a text, up to 31 pieces, the first of them at line 6.
pub const PIECES_31: &str = "\
assembly many/shape cube/layer/#/end/piece a cube +x+y+z 0 0 0/piece b cube +x+y+z 1 0 0/\
piece c cube +x+y+z 2 0 0/piece d cube +x+y+z 3 0 0/piece e cube +x+y+z 4 0 0/\
piece f cube +x+y+z 5 0 0/piece g cube +x+y+z 6 0 0/piece h cube +x+y+z 7 0 0/\
piece i cube +x+y+z 0 1 0/piece j cube +x+y+z 1 1 0/piece k cube +x+y+z 2 1 0/\
piece l cube +x+y+z 3 1 0/piece m cube +x+y+z 4 1 0/piece n cube +x+y+z 5 1 0/\
piece o cube +x+y+z 6 1 0/piece p cube +x+y+z 7 1 0/piece q cube +x+y+z 0 2 0/\
piece r cube +x+y+z 1 2 0/piece s cube +x+y+z 2 2 0/piece t cube +x+y+z 3 2 0/\
piece u cube +x+y+z 4 2 0/piece v cube +x+y+z 5 2 0/piece w cube +x+y+z 6 2 0/\
piece x cube +x+y+z 7 2 0/piece y cube +x+y+z 0 3 0/piece z cube +x+y+z 1 3 0/\
piece A cube +x+y+z 2 3 0/piece B cube +x+y+z 3 3 0/piece C cube +x+y+z 4 3 0/\
piece D cube +x+y+z 5 3 0/piece E cube +x+y+z 6 3 0/@";

/// What stands after 31 pieces, from line 37 on; the last of them is in 6, 3, 0.
pub const BEHIND_31_PIECES: &str = "\
|right
piece F cube +x+y+z 7 3 0/|right
piece F cube +x+y+z 6 3 0/|A8 { line: 37, earlier: 30, piece: 31 }
piece F cube +x+y+z 0 0 0/|A8 { line: 37, earlier: 0, piece: 31 }
piece E cube +x+y+z 7 3 0/|A2 { line: 37 }
";

/// The same with 32 pieces.
pub const PIECES_32: &str = "\
assembly many/shape cube/layer/#/end/piece a cube +x+y+z 0 0 0/piece b cube +x+y+z 1 0 0/\
piece c cube +x+y+z 2 0 0/piece d cube +x+y+z 3 0 0/piece e cube +x+y+z 4 0 0/\
piece f cube +x+y+z 5 0 0/piece g cube +x+y+z 6 0 0/piece h cube +x+y+z 7 0 0/\
piece i cube +x+y+z 0 1 0/piece j cube +x+y+z 1 1 0/piece k cube +x+y+z 2 1 0/\
piece l cube +x+y+z 3 1 0/piece m cube +x+y+z 4 1 0/piece n cube +x+y+z 5 1 0/\
piece o cube +x+y+z 6 1 0/piece p cube +x+y+z 7 1 0/piece q cube +x+y+z 0 2 0/\
piece r cube +x+y+z 1 2 0/piece s cube +x+y+z 2 2 0/piece t cube +x+y+z 3 2 0/\
piece u cube +x+y+z 4 2 0/piece v cube +x+y+z 5 2 0/piece w cube +x+y+z 6 2 0/\
piece x cube +x+y+z 7 2 0/piece y cube +x+y+z 0 3 0/piece z cube +x+y+z 1 3 0/\
piece A cube +x+y+z 2 3 0/piece B cube +x+y+z 3 3 0/piece C cube +x+y+z 4 3 0/\
piece D cube +x+y+z 5 3 0/piece E cube +x+y+z 6 3 0/piece F cube +x+y+z 7 3 0/@";

/// What stands after 32 pieces, from line 38 on.
pub const BEHIND_32_PIECES: &str = "\
|right
piece G cube +x+y+z 0 0 1/|A7 { line: 38 }
piece 1 cube +x+y+z 0 0 1/|A7 { line: 38 }
piece F cube +x+y+z 0 0 1/|A7 { line: 38 }
piece G block +x+y+z 0 0 1/|A7 { line: 38 }
piece G cube -x+y+z 0 0 1/|A7 { line: 38 }
piece G cube +x+y+z 0 0 65/|A7 { line: 38 }
piece G cube +x+y+z 0 0 0/|A7 { line: 38 }
piece G cube +x+y+z 0 0/|A1 { line: 38 }
piece G cube +x+y+z 0 0 -0/|A1 { line: 38 }
shape rod/|A1 { line: 38 }
/|A1 { line: 38 }
";

/// The cells of 32 pieces.
pub const CELLS_OF_32_PIECES: &str = "|\
many; a 0,0,0; b 1,0,0; c 2,0,0; d 3,0,0; e 4,0,0; f 5,0,0; g 6,0,0; h 7,0,0; i 0,1,0; j \
1,1,0; k 2,1,0; l 3,1,0; m 4,1,0; n 5,1,0; o 6,1,0; p 7,1,0; q 0,2,0; r 1,2,0; s 2,2,0; t \
3,2,0; u 4,2,0; v 5,2,0; w 6,2,0; x 7,2,0; y 0,3,0; z 1,3,0; A 2,3,0; B 3,3,0; C 4,3,0; D \
5,3,0; E 6,3,0; F 7,3,0";

/// A text around the layers of a shape.
pub const BOX: &str =
    "assembly boxes/shape box/@end/piece A box +x+y+z 0 0 0/piece B box +x+y+z 16 0 0/";

/// Layers of like rows, and the fault.
pub const BOXES: &str = "\
<1 layer/<1 #/>>|right
<1 layer/<1 #.............../>>|right
<1 layer/<1 #................/>>|A3 { line: 4 }
<1 layer/<16 #/>>|right
<1 layer/<17 #/>>|A3 { line: 20 }
<16 layer/<1 #/>>|right
<17 layer/<1 #/>>|A3 { line: 35 }
<16 layer/<16 #.............../>>|right
<16 layer/<16 #................/>>|A3 { line: 4 }
<16 layer/<17 #.............../>>|A3 { line: 20 }
<17 layer/<16 #.............../>>|A3 { line: 275 }
<17 layer/<17 #................/>>|A3 { line: 4 }
; cells that are too many or too few
<8 layer/<8 ########/>>|right
<2 layer/<16 ################/>>|right
<3 layer/<16 ################/>>|A3 { line: 54 }
<16 layer/<16 ################/>>|A3 { line: 275 }
<16 layer/<16 ................/>>|A3 { line: 275 }
";

/// A text around the last row of a third layer, after 512 cells and 15 rows without any.
pub const BOX_512: &str = "\
assembly boxes/shape box/<2 layer/<16 ################/>>layer/<15 ................/>@\
end/piece A box +x+y+z 0 0 0/piece B box +x+y+z 16 0 0/";

/// That row, and the fault.
pub const LAST_ROWS: &str = "\
................/|right
...............#/|A3 { line: 54 }
";
