//! Plans that are checked and run, and texts of answers.

/// Texts of answers, and what is read of each.
pub const ANSWERS: &str = "\
none | ?
7/-1/2/ | Ok([7, -1, 2])
 | Ok([])
-2147483648/2147483647/ | Ok([-2147483648, 2147483647])
1/-0/ | Err(Line(2))
2147483648/ | Err(Line(1))
/ | Err(Line(1))
1 | Err(Line(1))
1//3/ | Err(Line(2))
1/2/01/ | Err(Line(3))
1\r/ | Err(Line(1))
 1/ | Err(Line(1))";

/// Checks of the plan of the dot in the cup: as it stands, and without its guards.
pub const LIFT_CHECKS: &str = "\
cup | cup
none | accepted | accepted cost 14 budget 14 looks 6/
01 00000000 0001 ffff 00 > 00 00, 01 ffffffff 0001 ffff 00 > 00 00 | refused \
| refused V15 proc 0 pc 24 pieces A B point 0 1/";

/// Runs of the plan of the dot in the cup.
pub const LIFT_RUNS: &str = "\
cup | cup
0/ | Apart | 1 t0 A +z 0 out/levels 1/apart in 8 steps/
1/ | Apart | 1 t0 A +z 1 out/levels 1/apart in 11 steps/
2/ | Apart | 1 t0 A +z 2 out/levels 1/apart in 14 steps/
# answers that do not fit are passed over; none is left
7/-1/2/ | Apart | 1 t0 A +z 2 out/levels 1/apart in 14 steps/
 | Waiting | levels -/waiting 0 2 after 1 steps/";

/// More plans that are checked.
pub const CHECKS: &str = "\
duo | duo
# A goes out along -x; along +x, where B is in the way; 4,096 bytes of code without an end
none | accepted | accepted cost 3 budget 3 looks 1/
12 01 01 > 12 00 01 | refused | refused V16 proc 0 pc 5 pieces A B/
0001 00000003 > 0001 00000800, 00 00 00 00000003 > 00 00 00 00000800, \
0009 10 00000001 12 01 01 00 > 1000 trays | refused | refused V5 proc 0 pc 4094/

ring | ring
# with a budget of one step less than its cost; with a cost at the loop that grows by 1 for each
# turn, where a turn makes two steps
none | accepted | accepted cost 11 budget 11 looks 4/
0001 0000000b > 0001 0000000a | refused | refused V28 proc 0 pc 0/
00000004 0002 > 00000004 0001 | refused | refused V21 proc 0 pc 12 point 1/

duo | choice
none | accepted | accepted cost 4 budget 4 looks 2/

cup | choice
# another assembly
none | refused | refused V1 proc 0 pc 0/

square | square code
00000008, 001b 10 0000000c 12 02 01 10 00000001 12 01 02 13 01 10 00000004 12 01 02 00 | accepted \
| accepted cost 8 budget 1000000 looks 6/

cup | result
# with a range of results and with an exit place that are too small
none | accepted | accepted cost 18 budget 18 looks 6/
00 01 00 00000001 0000 0002 > 00 01 00 00000001 0000 0001 | refused \
| refused V22 proc 1 pc 17 point 2 0/
00000000 0000 00000000 0001 > 00000000 0000 00000000 0000 | refused \
| refused V22 proc 1 pc 17 point 1 0/";

/// More plans that are run.
pub const RUNS: &str = "\
duo | duo
# no answers
 | Apart | 1 t0 A -x 0 out/levels 1/apart in 3 steps/

ring | ring
# answers for which nothing asks
0/-3/ | Apart | 1 t0 A +z 3 out/levels 1/apart in 11 steps/

duo | choice
0/ | Apart | 1 t0 A -x 0 out/levels 1/apart in 4 steps/
1/ | Apart | 1 t0 B +x 0 out/levels 1/apart in 4 steps/
# an answer that does not fit, and none is left
2/ | Waiting | levels -/waiting 0 1 after 0 steps/

cup | result
0/ | Apart | 1 t0 A +z 0 out/levels 1/apart in 12 steps/
2/ | Apart | 1 t0 A +z 2 out/levels 1/apart in 18 steps/
 | Waiting | levels -/waiting 0 2 after 2 steps/";

/// What is said of a plan for an assembly, and for others.
pub const FITS: &str = "\
duo | duo
none | accepted

cup | duo
none | V1 proc 0 pc 0

assembly duo/shape cube/layer/#/end/piece A cube +x+y+z 0 0 0/piece B cube +x+y+z 1 0 0/\
piece C cube +x+y+z 2 0 0/ | duo
none | V1 proc 0 pc 0";

/// How many steps the machine makes, and the bench that tests each move: with each instruction that
/// moves a piece or counts, and with questions.
pub const BOTH: &str = "\
ring | ring
none | 11
# 256 turns of the loop
0001 0000000b > 0001 00000205, 00 00 00 0000000b > 00 00 00 00000205, \
0000 0002 00 > 0000 00ff 00, 00000002 ffff > 000000ff ffff, 01 0002 03 > 01 00ff 03 | 517

cup | lift
none | 11

duo | duo code
# numbers that are added and dropped
00000009, 0015 01 0001 01 0002 04 01 0001 05 06 10 00000001 12 01 01 00 | 9

square | square code
# a tour of three trays
00000008, 001b 10 0000000c 12 02 01 10 00000001 12 01 02 13 01 10 00000004 12 01 02 00 | 8

cup | cup
# a question for a number
none | 14

duo | choice
# a question for one of two labels
none | 4

cup | result
# a question in a procedure that hands the answer back
none | 18";

/// Plans of version 1, and the edits that make them plans of version 2: a count of results for main,
/// and with it a count of guards for another procedure. A plan of version 2 is left.
pub const UPGRADES: &str = "\
duo | duo
none | 42504c4e 0001 > 42504c4e 0002, 64756f 01 00 0001 > 64756f 01 00 00 0001

cup | lift
none | 42504c4e 0001 > 42504c4e 0002, 637570 02 00 0001 > 637570 02 00 00 0001, \
01 00 00000001 00 00000000 > 01 00 00 00000001 00 00 00000000

cup | result
none | none";

/// How many bytes plans have, how many in version 2, and of these the ones at 5 and at 17.
pub const SIZES: &str = "\
duo | duo
none | 70 71 Some(2) Some(0)

ring | ring
none | 140 141 Some(2) Some(0)

cup | cup
none | 258 259 Some(2) Some(0)

cup | lift
# one byte for main, and two for another procedure
none | 189 192 Some(2) Some(0)

cup | result
# a plan of version 2
none | 359 359 Some(2) Some(0)";

/// Plans that are refused alike in version 2.
pub const REFUSED: &str = "\
ring | ring
00000004 0002 > 00000004 0001 | refused | refused V21 proc 0 pc 12 point 1/

cup | lift
01 0000 24 > 01 0001 24 | refused | refused V20 proc 0 pc 8/";

/// Plans that are tried, as they are or after edits.
pub const TRIED: &str = "\
ring | ring
# with a budget of one step less; 256 turns of the loop, and 257
0001 0000000b > 0001 0000000a | Stopped | 1 t0 A +z 3 out/levels 1/stopped after 10 steps/
0001 0000000b > 0001 00000205, 00 00 00 0000000b > 00 00 00 00000205, \
0000 0002 00 > 0000 00ff 00, 00000002 ffff > 000000ff ffff, 01 0002 03 > 01 00ff 03 \
| Apart | 1 t0 A +z 256 out/levels 1/apart in 517 steps/
0001 0000000b > 0001 00000207, 00 00 00 0000000b > 00 00 00 00000207, \
0000 0002 00 > 0000 0100 00, 00000002 ffff > 00000100 ffff, 01 0002 03 > 01 0100 03 \
| Trapped | 1 t0 A +z 256/levels -/trap 14 OffBench proc 0 pc 10 after 515 steps/

duo | duo code
# a grip of a piece that is apart
00000004, 000e 10 00000001 12 01 01 10 00000001 00 | Trapped \
| 1 t0 A -x 0 out/levels 1/trap 2 GripOff proc 0 pc 8 after 2 steps/
# an operand and none to add it to; nine operands
00000003, 0005 01 0001 04 00 | Trapped | levels -/trap 6 MissingOperand proc 0 pc 3 after 1 steps/
00000009, 001b 01 0001 01 0001 01 0001 01 0001 01 0001 01 0001 01 0001 01 0001 01 0001 | Trapped \
| levels -/trap 7 StackFull proc 0 pc 24 after 8 steps/

square | square code
# a tour of three trays, and one that comes to a tray in use
00000008, 001b 10 0000000c 12 02 01 10 00000001 12 01 02 13 01 10 00000004 12 01 02 00 | Apart \
| 1 t0 C,D +y 0 out/2 t0 A -x 0 out/3 t1 C -x 0 out/levels 1.1.1/apart in 8 steps/
00000008, 001b 10 0000000c 12 02 01 10 00000001 12 01 01 13 01 10 00000004 12 01 02 00 | Trapped \
| 1 t0 C,D +y 0 out/levels 1/trap 5 TrayInUse proc 0 pc 13 after 3 steps/

cup | lift
# a procedure that is called twice
none | Apart | 1 t0 A +z 2 out/levels 1/apart in 11 steps/

cup | duo
# a plan for another assembly
none | refused | ";

// Texts of lines of motions, and the motions that they are.

/// Texts for the duo, and what comes of each; of more than four motions, how many they are.
pub const MOTIONS: &str = "\
duo | ?
 | Some([])
1 t0 A -x 0 out/ | Some([Motion { group: 1, tray: 0, dir: MinusX, out: true }])
1 t0 A -x 1/ | Some([Motion { group: 1, tray: 0, dir: MinusX, out: false }])
1 t31 B +z 2 out/ | Some([Motion { group: 2, tray: 31, dir: PlusZ, out: false }, \
Motion { group: 2, tray: 31, dir: PlusZ, out: false }, \
Motion { group: 2, tray: 31, dir: PlusZ, out: true }])
1 t0 A,B +y 2/ | Some([Motion { group: 3, tray: 0, dir: PlusY, out: false }, \
Motion { group: 3, tray: 0, dir: PlusY, out: false }])
1 t0 A -x 1 out/2 t0 A -x 1/ | Some([\
Motion { group: 1, tray: 0, dir: MinusX, out: false }, \
Motion { group: 1, tray: 0, dir: MinusX, out: true }, \
Motion { group: 1, tray: 0, dir: MinusX, out: false }])
1 t0 A -x 1/2 t0 A +x 1/3 t1 A +x 1/4 t1 B +x 1/ | Some([\
Motion { group: 1, tray: 0, dir: MinusX, out: false }, \
Motion { group: 1, tray: 0, dir: PlusX, out: false }, \
Motion { group: 1, tray: 1, dir: PlusX, out: false }, \
Motion { group: 2, tray: 1, dir: PlusX, out: false }])
1 t0 A -x 2/2 t0 A -x 1/ | None
1 t0 A -x 2/2 t0 A -x 1 out/ | None
1 t0 A -x 0/ | None
1 t0 B,A -x 1/ | None
1 t0 A,A -x 1/ | None
1 t0 A, -x 1/ | None
1 t0  -x 1/ | None
1 t0 C -x 1/ | None
1 t32 A -x 1/ | None
1 t00 A -x 1/ | None
2 t0 A -x 1/ | None
1 t0 A -x 01/ | None
1 t0 A -x 1 outs/ | None
1 t0 A -x 1  out/ | None
1 t0 A x 1/ | None
1 t0 A -x 1 | None
1 t0 A -x 1// | None
# a million motions, and more
1 t0 A -x 1000000/ | 1000000
1 t0 A -x 999999 out/ | 1000000
1 t0 A -x 999999/2 t0 B -x 1/ | 1000000
1 t0 A -x 1000001/ | None
1 t0 A -x 1000000 out/ | None
1 t0 A -x 999999/2 t0 B -x 2/ | None";
