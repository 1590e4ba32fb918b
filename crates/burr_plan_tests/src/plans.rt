//! Plans that these tests alone are about, as hexadecimal digits: the header, then each procedure
//! with its labels, their frames, and its code.

use burr_testing::plans::{CUP, DUO, DUO_PLAN, RESULT_PLAN, RING, RING_PLAN};

/// The digits of the plan with this name; of any other words, themselves.
pub fn plan_named(name: &'static str) -> &'static str {
    match name {
        "choice" => CHOICE_PLAN,
        "cup" => CUP_PLAN,
        "duo" => DUO_PLAN,
        "duo code" => DUO_CODE,
        "frame" => FRAME_PLAN,
        "labelled code" => LABELLED_CODE,
        "lift" => LIFT_PLAN,
        "result" => RESULT_PLAN,
        "ring" => RING_PLAN,
        "square code" => SQUARE_CODE,
        _ => name,
    }
}

/// Code for the duo, whose only label is its first: its cost and, after its length, the code.
pub const DUO_CODE: &str = "\
    42504c4e 0001 000f4240 02 03 64756f 01 00 0001 \
    0000 00 00000000 00 00 00 ? \
    00 00000000 00000000 00000000 \
    00 00000000 00000000 00000000 \
    ?";

/// The same for four cubes in a square.
pub const SQUARE_CODE: &str = "\
    42504c4e 0001 000f4240 04 06 737175617265 01 00 0001 \
    0000 00 00000000 00 00 00 ? \
    00 00000000 00000000 00000000 \
    00 00000000 00000000 00000000 \
    00 00000000 00000000 00000000 \
    00 00000000 00000000 00000000 \
    ?";

/// Code for the duo with a second label: where that stands, and the code after its length.
pub const LABELLED_CODE: &str = "\
    42504c4e 0001 00000009 02 03 64756f 01 00 0002 \
    0000 00 00000000 00 00 00 00000009 \
    00 00000000 00000000 00000000 \
    00 00000000 00000000 00000000 \
    ? 00 00000000 00 00 00 00000000 \
    00 00000000 00000000 00000000 \
    00 00000000 00000000 00000000 \
    ?";

/// A dot in a cup is lifted as far as the operator says, and then taken out.
pub const CUP_PLAN: &str = "\
    42504c4e 0001 0000000e 02 03 637570 01 \
    00 0003 \
    0000 00 00000000 00 00 00 0000000e \
    00 00000000 00000000 00000000 \
    00 00000000 00000000 00000000 \
    0010 00 00000001 03 0000 0002 0000 0002 01 00000000 0001 ffff 00 00000003 0000 0003 \
    00 00000000 0000 0000 00000000 0000 0000 00000000 0001 ffff \
    00 00000000 0000 0000 00000000 0000 0000 00000000 0000 0000 \
    0018 00 00000001 03 0000 0002 0000 0001 01 ffffffff 0001 ffff 00 00000005 0000 0003 \
    00 00000000 0000 0000 00000000 0000 0000 ffffffff 0001 ffff \
    00 00000000 0000 0000 00000000 0000 0000 00000000 0000 0000 \
    001d 10 00000001 22 0000 0002 03 00 02 00 03 01 21 01 0002 12 04 01 00 11 04 20 0001";

/// A dot in a cup is lifted twice, by a procedure: its parameter is 0 to 3, the dot comes at z
/// `0+1v0` and leaves at `1+1v0`, at a cost of 2.
pub const LIFT_PLAN: &str = "\
    42504c4e 0001 0000000b 02 03 637570 02 \
    00 0001 \
    0000 00 00000000 00 00 00 0000000b \
    00 00000000 00000000 00000000 \
    00 00000000 00000000 00000000 \
    0013 10 00000001 01 0000 24 01 01 0001 24 01 12 04 01 00 \
    01 00 00000001 \
    00 00000000 0000 00000000 0000 00000001 0001 \
    00 00000000 0000 00000000 0000 00000000 0000 \
    0001 \
    0000 00 00000001 01 0000 0003 00 00 00000002 0000 \
    00 00000000 0000 00000000 0000 00000000 0001 \
    00 00000000 0000 00000000 0000 00000000 0000 \
    0003 11 04 25";

/// The operator says which of two cubes is taken out.
pub const CHOICE_PLAN: &str = "\
    42504c4e 0001 00000004 02 03 64756f 01 \
    00 0003 \
    0000 00 00000000 00 00 00 00000004 \
    00 00000000 00000000 00000000 00 00000000 00000000 00000000 \
    0006 00 00000000 00 00 00 00000003 \
    00 00000000 00000000 00000000 00 00000000 00000000 00000000 \
    000f 00 00000000 00 00 00 00000003 \
    00 00000000 00000000 00000000 00 00000000 00000000 00000000 \
    0018 23 02 0001 0002 10 00000001 12 01 01 00 10 00000002 12 00 01 00";

/// Two cubes are taken apart. After that stands a frame to which nothing comes, with its own
/// `halt`.
pub const FRAME_PLAN: &str = "\
    42504c4e 0001 00000003 02 03 64756f 01 \
    00 0002 \
    0000 00 00000000 00 00 00 00000003 \
    00 00000000 00000000 00000000 00 00000000 00000000 00000000 \
    0009 00 00000000 00 00 00 00000001 ff ff \
    000a 10 00000001 12 01 01 00 00";

// Assemblies that these tests alone are about. In their texts `/` stands for a line end too.

/// The text of the assembly with this name; of any other words, themselves.
pub fn assembly_named(name: &'static str) -> &'static str {
    match name {
        "cup" => CUP,
        "duo" => DUO,
        "none" => "",
        "ring" => RING,
        "square" => SQUARE,
        _ => name,
    }
}

/// Four cubes in a square.
pub const SQUARE: &str = "\
assembly square/shape cube/layer/#/end/piece A cube +x+y+z 0 0 0/piece B cube +x+y+z 1 0 0/\
piece C cube +x+y+z 0 1 0/piece D cube +x+y+z 1 1 0/";

/// Two combs, as long as a shape can be, across each other, and a hook between them.
pub const COMBS: &str = "\
assembly combs
shape comb
layer
################
#.#.#.#.#.#.#.#.
end
shape hook
layer
#####
#....
#....
layer
#....
.....
.....
layer
#....
....#
.....
end
piece A comb -y+x+z 0 0 0
piece B hook +z+x+y 3 2 -1
piece C comb +z-x-y 5 -2 2
";

/// Four stairs, each turned another way.
pub const STAIRS: &str = "\
assembly stairs
shape stair
layer
##..
#...
....
layer
.##.
....
....
layer
..##
...#
...#
end
piece A stair +x+y+z 0 0 0
piece B stair +y-x+z 2 2 0
piece C stair -z+y+x -3 5 5
piece D stair -x+z+y -1 2 1
";

/// Three pieces of one form in one orientation, one of them by a shape of another name, and a turned
/// one: what is kept of two of the three serves the others.
pub const TWINS: &str = "\
assembly twins
shape ell
layer
##
#.
layer
#.
..
end
shape hook
layer
##
#.
layer
#.
..
end
piece A ell +x+y+z 0 0 0
piece B ell +x+y+z 3 0 0
piece C hook +x+y+z 0 3 1
piece D ell -y+x+z 6 6 0
";

/// Two rods of 16 cells along x, side by side.
pub const RODS: &str = "\
assembly rods/shape rod/layer/################/end/\
piece A rod +x+y+z 0 0 0/piece B rod +x+y+z 0 1 0/";

/// A rod, and a shape whose rows fill the `?`, as it is and turned.
pub const ROWS: &str = "\
assembly rows/shape rod/layer/################/end/shape many/layer/?end/\
piece A rod +x+y+z 0 0 0/piece B many +x+y+z -4 2 3/piece C many +z+x+y 20 2 3/";
