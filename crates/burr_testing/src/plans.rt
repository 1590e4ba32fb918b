//! Containers of plans as hexadecimal digits, a field a line: the magic, the version, the budget,
//! the pieces, the length of the name and the name, the procedures; the parameters of main, in
//! version 2 its results, and its labels. Of a label: its position, its tray, grip and live slots,
//! the ranges of these, the guards, the operands and the cost, and of each piece the tray and the
//! offset. Then the size of the code, and the code.

/// Two cubes: the grip takes the first one out, aside along -x.
pub const DUO_PLAN: &str = "\
42504c4e
0001
00000003
02
03
64756f
01
00
0001
0000
00
00000000
00
00
00
00000003
00
00000000 00000000 00000000
00
00000000 00000000 00000000
0009
10 00000001 12 01 01 00
";

/// A rod in a ring is moved up by three units in a loop, and then taken out. At the loop, at 10,
/// slot 0 is 0 to 2, the cost `4+2v0`, and the rod at z `2-1v0`: from line 21 on.
pub const RING_PLAN: &str = "\
42504c4e
0001
0000000b
02
04
72696e67
01
00
0002
0000
00
00000000
00
00
00
0000000b
00
00000000 00000000 00000000
00
00000000 00000000 00000000
000a
00
00000001
01
0000
0002
00
00
00000004 0002
00
00000000 0000 00000000 0000 00000002 ffff
00
00000000 0000 00000000 0000 00000000 0000
0014
10 00000001 01 0002 03 00 11 04 21 00 0001 12 04 01 00
";

/// A dot in a cup is lifted by a procedure, which asks how far, 0 to 2, and gives that back; it
/// leaves the dot at z `0+1v0`, where v0 is its result, of 0 to 2. Its `ret` stands at 17. From line
/// 24 on it has its parameters and its results; of its exit frame the tray, the grip, the lowest and
/// the highest of the result, the guards, and of each piece the tray and the offset; and its labels,
/// the ranges of both slots on one line.
pub const RESULT_PLAN: &str = "\
42504c4e
0002
00000012
02
03
637570
02
00
00
0001
0000
00
00000000
00
00
00
00000012
00
00000000 00000000 00000000
00
00000000 00000000 00000000
000c
10 00000001 24 01 06 12 04 01 00
00
01
00
00000001
0000
0002
00
00
00000000 0000 00000000 0000 00000000 0001
00
00000000 0000 00000000 0000 00000000 0000
0003
0000
00
00000001
00
00
00
0000000d
00
00000000 00000000 00000000
00
00000000 00000000 00000000
000b
00
00000001
03
0000 0002 0000 0002
01
00000000 0001 ffff
00
00000003 0000 0003
00
00000000 0000 0000 00000000 0000 0000 00000000 0001 ffff
00
00000000 0000 0000 00000000 0000 0000 00000000 0000 0000
0012
00
00000001
03
0000 0002 0000 0001
01
ffffffff 0001 ffff
00
00000005 0000 0003
00
00000000 0000 0000 00000000 0000 0000 ffffffff 0001 ffff
00
00000000 0000 0000 00000000 0000 0000 00000000 0000 0000
0017
22 0000 0002 03 00 02 00 03 01 21 01 0002 02 00 25 11 04 20 0001
";

// Texts of assemblies.

/// Two cubes side by side along x.
pub const DUO: &str = "\
assembly duo
shape cube
layer
#
end
piece A cube +x+y+z 0 0 0
piece B cube +x+y+z 1 0 0
";

/// A rod in the hole of a ring.
pub const RING: &str = "\
assembly ring
shape rod
layer
#
layer
#
layer
#
end
shape ring
layer
###
#.#
###
end
piece A rod +x+y+z 1 1 0
piece B ring +x+y+z 0 0 0
";

/// A dot in a bowl.
pub const CUP: &str = "\
assembly cup
shape dot
layer
#
end
shape bowl
layer
###
###
###
layer
###
#.#
###
end
piece A dot +x+y+z 1 1 1
piece B bowl +x+y+z 0 0 0
";
