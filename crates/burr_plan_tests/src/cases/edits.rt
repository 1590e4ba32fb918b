//! Edits of whole plans, and what is said of these.

/// Plans that are judged after edits.
pub const EDITS: &str = "\
ring | ring
# Of the rod in the ring.
# as it stands, and with a budget below the cost of main
none | accepted
0001 0000000b > 0001 0000000a | V28 proc 0 pc 0
# the cost at the loop: `4+1v0`, `3+2v0`
00000004 0002 > 00000004 0001 | V21 proc 0 pc 12 point 1
00000004 0002 > 00000003 0002 | V24 proc 0 pc 19 point 0
00000004 0002 > 00000001 0000 | V24 proc 0 pc 12 point 0
# the counter is known to be 0, and asked seven times more, and eight times: eight guards, and nine
0001 0000000b > 0001 00000012, 00 00 00 0000000b > 00 00 00 00000012, \
00000004 0002 > 0000000b 0002, 0014 10 > 0030 10, \
21 00 0001 > 21 00 0001 21 00 0001 21 00 0001 21 00 0001 21 00 0001 21 00 0001 21 00 0001 \
21 00 0001 \
| accepted
0001 0000000b > 0001 00000012, 00 00 00 0000000b > 00 00 00 00000012, \
00000004 0002 > 00000009 0002, 0014 10 > 0034 10, \
21 00 0001 > 21 00 0001 21 00 0001 21 00 0001 21 00 0001 21 00 0001 21 00 0001 21 00 0001 \
21 00 0001 21 00 0001 \
| V25 proc 0 pc 44
# 256 units, and 257
0001 0000000b > 0001 00000205, 00 00 00 0000000b > 00 00 00 00000205, \
0000 0002 00 > 0000 00ff 00, 00000002 ffff > 000000ff ffff, 01 0002 03 > 01 00ff 03 \
| accepted
0001 0000000b > 0001 00000207, 00 00 00 0000000b > 00 00 00 00000207, \
0000 0002 00 > 0000 0100 00, 00000002 ffff > 00000100 ffff, 01 0002 03 > 01 0100 03 \
| V18 proc 0 pc 10 point 0
# the range at the loop: 0 to 1, 1 to 2, -1 to 2
0000 0002 00 00 > 0000 0001 00 00 | V21 proc 0 pc 8 point
0000 0002 00 00 > 0001 0002 00 00 | V21 proc 0 pc 12 point 1
0000 0002 00 00 > ffff 0002 00 00 | V11 proc 0 pc 12 point -1
# the rod at z `2-2v0`, another tray, another grip; a slot of which nothing is known
00000002 ffff > 00000002 fffe | V21 proc 0 pc 8 point
000a 00 00000001 > 000a 01 00000001 | V27 proc 0 pc 10
000a 00 00000001 > 000a 00 00000002 | V21 proc 0 pc 8
01 0002 03 00 > 01 0002 03 01 | V21 proc 0 pc 8

cup | cup
# Of the dot in the cup that is lifted as far as the operator says.
none | accepted
# without both guards, without the second, without the first
01 00000000 0001 ffff 00 > 00 00, 01 ffffffff 0001 ffff 00 > 00 00 \
| V15 proc 0 pc 24 pieces 0 1 point 0 1
01 ffffffff 0001 ffff 00 > 00 00 | V15 proc 0 pc 24 pieces 0 1 point 0 1
01 00000000 0001 ffff 00 > 00 00 | V21 proc 0 pc 16 point 0 1
# an answer more
22 0000 0002 > 22 0000 0003 | V21 proc 0 pc 14 point 3

cup | lift
# Of the dot that a procedure lifts.
none | accepted
# the first argument is 1; it is an answer of 0 or 1
01 0000 24 > 01 0001 24 | V20 proc 0 pc 8 point
0013 10 00000001 01 0000 24 > 0015 10 00000001 22 0000 0001 24 | V20 proc 0 pc 10 point 1
# a budget of 10, also with a cost of 10; an entry cost of 1
0001 0000000b > 0001 0000000a | V28 proc 0 pc 0
0001 0000000b > 0001 0000000a, 00 00 00 0000000b > 00 00 00 0000000a | V24 proc 0 pc 18 point
00000002 0000 > 00000001 0000 | V24 proc 1 pc 2 point 0
# the dot no_successor at `2+1v0`; a parameter of 0 alone; another grip; another live slot
00000001 0001 > 00000002 0001 | V20 proc 0 pc 13 point
0000 0003 00 00 > 0000 0000 00 00 | V20 proc 0 pc 13 point
0000 00 00000001 01 > 0000 00 00000002 01 | V20 proc 0 pc 8
00000001 01 0000 0003 > 00000001 02 0000 0003 | V27 proc 1 pc 0
# a call of main, and one without an operand
01 0001 24 01 12 > 01 0001 24 00 12 | V19 proc 0 pc 13
01 0001 24 01 12 > 06 13 00 24 01 12 | V6 proc 0 pc 10
# a cost that the callee's is too much for, also where the first argument is 1
00 00 00 0000000b > 00 00 00 00000003 | V24 proc 0 pc 8 point
00 00 00 0000000b > 00 00 00 00000003, 01 0000 24 > 01 0001 24 | V20 proc 0 pc 8 point
# in the procedure a call of itself, a write of the parameter, and of it with no such label
0003 11 04 25 > 0003 24 01 25 | V19 proc 1 pc 0
0003 11 04 25 > 0003 03 00 25 | V9 proc 1 pc 0
0003 11 04 25 > 0005 21 00 0000 25 | V9 proc 1 pc 0
0003 11 04 25 > 0005 21 00 0001 25 | V10 proc 1 pc 0
# in the procedure `halt`, another tray, a step into the bowl
0003 11 04 25 > 0003 00 00 00 | V22 proc 1 pc 0
0003 11 04 25 > 0003 13 00 25 | V22 proc 1 pc 2
00000002 0000 > 00000001 0000, 0003 11 04 25 > 0003 13 00 25 | V24 proc 1 pc 2 point 0
0003 11 04 25 > 0003 11 02 25 | V15 proc 1 pc 0 pieces 0 1 point 0
# Of the dot that a procedure lifts, where `0+2^40v0` is handed to it, which leaves the dot at its
# parameter and one or, at the second, twice that and one.
0001 0000000b > 0001 00000200, 00 00 00 0000000b > 00 00 00 00000200, \
0013 10 00000001 01 0000 24 > 0131 10 00000001 22 0000 0000 03 00 doubled40 02 00 24 | accepted
0001 0000000b > 0001 00000200, 00 00 00 0000000b > 00 00 00 00000200, \
0013 10 00000001 01 0000 24 > 0131 10 00000001 22 0000 0000 03 00 doubled40 02 00 24, \
00000001 0001 > 00000001 0002 | V26 proc 0 pc 294

duo | choice
# Of two cubes of which the operator picks one.
none | accepted
# another name, a label inside an instruction, a label that is missing
64756f > 64756e | V1 proc 0 pc 0
0006 00 > 0005 00 | V3 proc 0 pc 0
23 02 0001 0002 > 23 02 0001 0003 | V10 proc 0 pc 0
# the cost at the first label, the grip at the second
0006 00 00000000 00 00 00 00000003 > 0006 00 00000000 00 00 00 00000004 | V21 proc 0 pc 0 point
000f 00 00000000 00 00 00 00000003 > 000f 00 00000001 00 00 00 00000003 | V21 proc 0 pc 0
# the grip at the first label, the cost at the second, which the instruction names first
23 02 0001 0002 > 23 02 0002 0001, 0006 00 00000000 > 0006 00 00000001, \
000f 00 00000000 00 00 00 00000003 > 000f 00 00000000 00 00 00 00000004 | V21 proc 0 pc 0 point

duo | frame
# Of the frame to which nothing comes.
none | accepted
# 4,096 points, and 4,097
00 00 00 00000001 ff > 01 0000 0fff 00 00 00000001 0000 ff | accepted
00 00 00 00000001 ff > 01 0000 1000 00 00 00000001 0000 ff | V25 proc 0 pc 9
# 64 times 64 points, and 64 times 65
00 00 00 00000001 ff > 81 0000 003f ffe0 001f 00 00 00000001 0000 0000 ff | accepted
00 00 00 00000001 ff > 81 0000 003f ffe0 0020 00 00 00000001 0000 0000 ff | V25 proc 0 pc 9
# eight slots of any number
00 00 00 00000001 ff > ff 8001 7fff 8001 7fff 8001 7fff 8001 7fff 8001 7fff 8001 7fff 8001 7fff \
8001 7fff 00 00 00000001 0000 0000 0000 0000 0000 0000 0000 0000 ff | V25 proc 0 pc 9
# a guard that no_successor no point, so that a cost below zero is none; guards that leave points
00 00 00 00000001 ff > 01 0000 0005 01 ffffffff 0000 00 fffffff0 0000 ff | accepted
00 00 00 00000001 ff > 01 0000 0005 01 fffffffe 0001 00 00000000 0001 ff | accepted
00 00 00 00000001 ff > 01 0000 0005 01 ffffffff 0001 00 fffffffe 0001 ff \
| V24 proc 0 pc 9 point 1
# a grip of a piece that is apart, a piece alone in a tray
0009 00 00000000 > 0009 00 00000001 | V27 proc 0 pc 9
00000001 ff ff > 00000001 ff 1f 00000000 00000000 00000000 | V27 proc 0 pc 9
# at 257 units from home, where the other is in the way or its tray is in use: a motion out
0009 00 00000000 00 00 00 00000001 ff ff > 0009 00 00000001 00 00 00 00000001 \
00 00000101 00000000 00000000 00 00000101 00000000 00000000, \
000a 10 00000001 12 01 01 00 00 > 000c 10 00000001 12 01 01 00 12 00 01 | V18 proc 0 pc 9 point
0009 00 00000000 00 00 00 00000001 ff ff > 0009 00 00000001 00 00 00 00000001 \
00 00000101 00000000 00000000 00 00000101 00000000 00000000, \
000a 10 00000001 12 01 01 00 00 > 000c 10 00000001 12 01 01 00 12 00 00 | V17 proc 0 pc 9
# the start: a live slot, an operand, guards, tray, grip, a place
00 00 00 00000003 00 00000000 00000000 00000000 00 00000000 00000000 00000000 > \
01 0000 0000 00 00 00000003 0000 00 00000000 0000 00000000 0000 00000000 0000 \
00 00000000 0000 00000000 0000 00000000 0000 | V27 proc 0 pc 0
0000 00 00000000 00 00 00 > 0000 00 00000000 00 00 01 00000000 | V27 proc 0 pc 0
0000 00 00000000 00 00 00 > 0000 00 00000000 00 01 ffffffff 00 | V27 proc 0 pc 0
0000 00 00000000 00 00 00 > 0000 00 00000000 00 01 00000000 00 | accepted
0000 00 00000000 00 00 00 > 0000 01 00000000 00 00 00 | V27 proc 0 pc 0
0000 00 00000000 00 00 00 > 0000 00 00000001 00 00 00 | V27 proc 0 pc 0
00000003 00 00000000 > 00000003 00 00000001 | V27 proc 0 pc 0
# a cost above the budget, and one that is used up
00 00 00 00000003 > 00 00 00 00000004 | V28 proc 0 pc 0
00 00 00 00000003 > 00 00 00 00000002 | V24 proc 0 pc 8 point

cup | result
# Of the dot that a procedure lifts as far as it then says.
none | accepted
# the range of the result; where the dot is left
00 01 00 00000001 0000 0002 > 00 01 00 00000001 0000 0001 | V22 proc 1 pc 17 point 2 0
00 01 00 00000001 0000 0002 > 00 01 00 00000001 0001 0002 | V22 proc 1 pc 17 point 0 0
00000000 0000 00000000 0001 > 00000000 0000 00000000 0000 | V22 proc 1 pc 17 point 1 0
# a guard that holds of each result, and one that does not
0000 0002 00 00 > 0000 0002 01 00000002 ffff 00 | accepted
0000 0002 00 00 > 0000 0002 01 00000001 ffff 00 | V22 proc 1 pc 17 point 2 0
# what the caller knows of the result: its range and its guard
000c 10 00000001 24 01 06 > 000f 10 00000001 24 01 21 00 0000 | V8 proc 0 pc 7
00000012 02 > 00000016 02, 00 00 00 00000012 > 00 00 00 00000016, \
000c 10 00000001 24 01 06 > 0015 10 00000001 24 01 01 0002 05 03 00 21 00 0000 \
| V11 proc 0 pc 13 point 0
# nothing to give back, and another grip
02 00 25 > 13 00 25 | V6 proc 1 pc 17
# eight operands, where one comes; seven
00000012 02 > 0000001a 02, 00 00 00 00000012 > 00 00 00 0000001a, 000c 10 00000001 24 > \
0024 10 00000001 01 0000 01 0000 01 0000 01 0000 01 0000 01 0000 01 0000 01 0000 24 \
| V7 proc 0 pc 29
00000012 02 > 00000019 02, 00 00 00 00000012 > 00 00 00 00000019, 000c 10 00000001 24 > \
0021 10 00000001 01 0000 01 0000 01 0000 01 0000 01 0000 01 0000 01 0000 24 \
| accepted
# eight symbols before the call, and seven
00000012 02 > 00000022 02, 00 00 00 00000012 > 00 00 00 00000022, 000c 10 00000001 24 > 003c 10 00000001 \
22 0000 0000 06 22 0000 0000 06 22 0000 0000 06 22 0000 0000 06 22 0000 0000 06 \
22 0000 0000 06 22 0000 0000 06 22 0000 0000 06 24 | V25 proc 0 pc 53
00000012 02 > 00000020 02, 00 00 00 00000012 > 00 00 00 00000020, 000c 10 00000001 24 > 0036 10 00000001 \
22 0000 0000 06 22 0000 0000 06 22 0000 0000 06 22 0000 0000 06 22 0000 0000 06 \
22 0000 0000 06 22 0000 0000 06 24 | accepted
# 1,366 points three times, and 1,365; a range of all numbers
00000012 02 > 00000014 02, 00 00 00 00000012 > 00 00 00 00000014, \
000c 10 00000001 24 > 0012 10 00000001 22 0000 0555 06 24 | V25 proc 0 pc 11
00000012 02 > 00000014 02, 00 00 00 00000012 > 00 00 00 00000014, \
000c 10 00000001 24 > 0012 10 00000001 22 0000 0554 06 24 | accepted
00 01 00 00000001 0000 0002 > 00 01 00 00000001 8001 7fff | V25 proc 0 pc 5";
