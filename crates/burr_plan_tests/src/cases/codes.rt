//! Code for plans with one frame or two, and what is said of these: its cost or the place
//! of its second label, and the code after its length.

/// Code that is judged.
pub const CODES: &str = "\
duo | duo code
# out to the left; to the right, where B is; once more, when it is apart
00000003, 0009 10 00000001 12 01 01 00 | accepted
00000003, 0009 10 00000001 12 00 01 00 | V16 proc 0 pc 5 pieces 0 1 point
00000004, 000e 10 00000001 12 01 01 10 00000001 00 | V13 proc 0 pc 8
# too few operands, and too many
00000003, 0005 01 0001 04 00 | V6 proc 0 pc 3
00000009, 001b 01 0001 01 0001 01 0001 01 0001 01 0001 01 0001 01 0001 01 0001 01 0001 \
| V7 proc 0 pc 24
# 4,096 answers, and 4,097
00000005, 000f 22 0000 0fff 06 10 00000001 12 01 01 00 | accepted
00000005, 000f 22 0000 1000 06 10 00000001 12 01 01 00 | V25 proc 0 pc 0
# eight symbols, and nine
00000013, 0039 22 0000 0000 06 22 0000 0000 06 22 0000 0000 06 22 0000 0000 06 22 0000 0000 06 \
22 0000 0000 06 22 0000 0000 06 22 0000 0000 06 10 00000001 12 01 01 00 | accepted
00000013, 0036 22 0000 0000 06 22 0000 0000 06 22 0000 0000 06 22 0000 0000 06 22 0000 0000 06 \
22 0000 0000 06 22 0000 0000 06 22 0000 0000 06 22 0000 0000 06 | V25 proc 0 pc 48
# no instruction; no frame, though no instruction stands there; the end
00000000, 0001 07 | V2 proc 0 pc 0
00000009, 0004 10 000000 | V2 proc 0 pc 0
00000003, 000a 10 00000001 12 01 01 00 00 | V4 proc 0 pc 9
00000003, 000a 10 00000001 12 01 01 00 ff | V4 proc 0 pc 9
00000002, 0008 10 00000001 12 01 01 | V5 proc 0 pc 5
# what comes before the cost
00000000, 0001 04 | V6 proc 0 pc 0
00000000, 0002 02 07 | V8 proc 0 pc 0
00000000, 0003 20 0001 | V10 proc 0 pc 0
00000000, 0004 21 00 0000 | V8 proc 0 pc 0
00000000, 0005 10 00000004 | V13 proc 0 pc 0
00000000, 0002 11 00 | V14 proc 0 pc 0
00000001, 0007 10 00000001 11 00 | V15 proc 0 pc 5 pieces 0 1 point
00000001, 0008 10 00000002 12 01 01 | V16 proc 0 pc 5 pieces 1 0 point
00000001, 0008 10 00000001 12 00 00 | V17 proc 0 pc 5
00000000, 0002 24 00 | V19 proc 0 pc 0
00000000, 0002 24 01 | V19 proc 0 pc 0
00000000, 0001 25 | V22 proc 0 pc 0
00000000, 0001 00 | V23 proc 0 pc 0
00000000, 0005 22 0000 1000 | V25 proc 0 pc 0
00000000, 0002 03 00 | V6 proc 0 pc 0
00000000, 0001 06 | V6 proc 0 pc 0
00000008, 001b 01 0001 01 0001 01 0001 01 0001 01 0001 01 0001 01 0001 01 0001 01 0001 \
| V7 proc 0 pc 24
0000000a, 001f 01 0000 03 00 01 0001 01 0001 01 0001 01 0001 01 0001 01 0001 01 0001 01 0001 02 \
00 | V7 proc 0 pc 29
00000008, 001a 01 0001 01 0001 01 0001 01 0001 01 0001 01 0001 01 0001 01 0001 02 00 \
| V8 proc 0 pc 24
00000008, 001d 01 0001 01 0001 01 0001 01 0001 01 0001 01 0001 01 0001 01 0001 22 0000 1000 \
| V7 proc 0 pc 24
# the cost
00000000, 0005 10 00000001 | V24 proc 0 pc 0 point
00000002, 0009 10 00000001 12 01 01 00 | V24 proc 0 pc 8 point
00000000, 0005 22 0000 0001 | V24 proc 0 pc 0 point
00000000, 0003 20 0000 | V24 proc 0 pc 0 point
00000000, 0006 23 02 0000 0000 | V24 proc 0 pc 0 point
00000000, 0002 13 01 | V24 proc 0 pc 0 point
# a label that is missing, also where another one's frame is not met
00000000, 0004 21 00 0001 | V10 proc 0 pc 0
00000005, 0006 23 02 0000 0001 | V10 proc 0 pc 0
00000005, 0003 20 0000 | V21 proc 0 pc 0 point
00000005, 0006 23 02 0000 0000 | V21 proc 0 pc 0 point
# sums and differences out of their range
00000005, 0007 01 7fff 01 0001 04 | V12 proc 0 pc 6 point
00000002, 0007 01 8001 01 0001 05 | V12 proc 0 pc 6 point
00000005, 0009 22 0000 0005 01 7ffd 04 | V12 proc 0 pc 8 point 3
00000005, 0009 01 8001 22 0000 0003 05 | V12 proc 0 pc 8 point 1
# grips
00000009, 0005 10 80000001 | V13 proc 0 pc 0
00000009, 0008 10 00000003 12 01 00 | V14 proc 0 pc 5
# a cost below zero, and one above the budget
ffffffff, 0001 00 | V23 proc 0 pc 0
000f4241, 0001 00 | V28 proc 0 pc 0

square | square code
# two trays, each with two pieces; the same with a tray that is in use
00000008, 001b 10 0000000c 12 02 01 10 00000001 12 01 02 13 01 10 00000004 12 01 02 00 | accepted
00000008, 0010 10 0000000c 12 02 01 10 00000001 12 01 01 | V17 proc 0 pc 13
00000008, 000d 10 0000000c 12 02 01 10 00000004 | V13 proc 0 pc 8
# the first pair, whose gripped piece is named first
00000008, 0007 10 0000000a 11 01 | V15 proc 0 pc 5 pieces 1 0 point
00000008, 0007 10 00000009 11 01 | V15 proc 0 pc 5 pieces 3 2 point
00000008, 0008 10 0000000a 12 01 01 | V16 proc 0 pc 5 pieces 1 0 point
00000008, 0008 10 00000004 12 03 01 | V16 proc 0 pc 5 pieces 2 0 point
00000008, 0009 10 0000000c 12 02 01 00 | V23 proc 0 pc 8

duo | duo code
# For two cubes: `doubled40` doubles slot 0 forty times, which then holds `0+2^40v0`, and `far`
# goes 256 units.
# numbers of forms are at most 2 to the 40
000f4240, 0120 22 0000 0000 03 00 doubled40 00 | V23 proc 0 pc 287
000f4240, 0126 22 0000 0000 03 00 doubled41 | V26 proc 0 pc 291
# a sum that is no operand's value, 32,768 and more: a large number is named before a large value
000f4240, 0130 22 0000 0000 03 00 doubled40 02 00 01 7fff 04 03 01 02 00 01 0001 04 02 01 04 \
| V26 proc 0 pc 303
000f4240, 0129 22 0000 0000 03 00 doubled39 02 00 01 7fff 04 03 01 02 00 01 0001 04 02 01 04 \
| V12 proc 0 pc 296 point 0
# both cubes are 256 units from home, one steps on into the other: too far is named first
000f4240, 040c 10 00000002 far 10 00000001 far 11 00 | V18 proc 0 pc 1034 point
000f4240, 040c 10 00000002 far 11 01 10 00000001 far | V15 proc 0 pc 1034 pieces 0 1 point

duo | labelled code
# each instruction, and a `halt` after it: labels inside it, and the label of the `halt`
0001, 0004 01 0000 00 | V3 proc 0 pc 0
0002, 0004 01 0000 00 | V3 proc 0 pc 0
0003, 0004 01 0000 00 | V21 proc 0 pc 0
0001, 0003 02 00 00 | V3 proc 0 pc 0
0002, 0003 02 00 00 | V8 proc 0 pc 0
0001, 0003 03 00 00 | V3 proc 0 pc 0
0002, 0003 03 00 00 | V6 proc 0 pc 0
0001, 0006 10 00000001 00 | V3 proc 0 pc 0
0002, 0006 10 00000001 00 | V3 proc 0 pc 0
0003, 0006 10 00000001 00 | V3 proc 0 pc 0
0004, 0006 10 00000001 00 | V3 proc 0 pc 0
0005, 0006 10 00000001 00 | V21 proc 0 pc 0
0001, 0003 11 00 00 | V3 proc 0 pc 0
0002, 0003 11 00 00 | V14 proc 0 pc 0
0001, 0004 12 00 00 00 | V3 proc 0 pc 0
0002, 0004 12 00 00 00 | V3 proc 0 pc 0
0003, 0004 12 00 00 00 | V14 proc 0 pc 0
0001, 0003 13 00 00 | V3 proc 0 pc 0
0002, 0003 13 00 00 | V23 proc 0 pc 2
0001, 0004 20 0001 00 | V3 proc 0 pc 0
0002, 0004 20 0001 00 | V3 proc 0 pc 0
0003, 0004 20 0001 00 | V23 proc 0 pc 3
0001, 0005 21 00 0001 00 | V3 proc 0 pc 0
0002, 0005 21 00 0001 00 | V3 proc 0 pc 0
0003, 0005 21 00 0001 00 | V3 proc 0 pc 0
0004, 0005 21 00 0001 00 | V8 proc 0 pc 0
0001, 0006 22 0000 0000 00 | V3 proc 0 pc 0
0002, 0006 22 0000 0000 00 | V3 proc 0 pc 0
0003, 0006 22 0000 0000 00 | V3 proc 0 pc 0
0004, 0006 22 0000 0000 00 | V3 proc 0 pc 0
0005, 0006 22 0000 0000 00 | V21 proc 0 pc 0
0001, 0007 23 02 0001 0001 00 | V3 proc 0 pc 0
0002, 0007 23 02 0001 0001 00 | V3 proc 0 pc 0
0003, 0007 23 02 0001 0001 00 | V3 proc 0 pc 0
0004, 0007 23 02 0001 0001 00 | V3 proc 0 pc 0
0005, 0007 23 02 0001 0001 00 | V3 proc 0 pc 0
0006, 0007 23 02 0001 0001 00 | V23 proc 0 pc 6
0001, 0013 23 08 0001 0001 0001 0001 0001 0001 0001 0001 00 | V3 proc 0 pc 0
0002, 0013 23 08 0001 0001 0001 0001 0001 0001 0001 0001 00 | V3 proc 0 pc 0
0003, 0013 23 08 0001 0001 0001 0001 0001 0001 0001 0001 00 | V3 proc 0 pc 0
0004, 0013 23 08 0001 0001 0001 0001 0001 0001 0001 0001 00 | V3 proc 0 pc 0
0005, 0013 23 08 0001 0001 0001 0001 0001 0001 0001 0001 00 | V3 proc 0 pc 0
0006, 0013 23 08 0001 0001 0001 0001 0001 0001 0001 0001 00 | V3 proc 0 pc 0
0007, 0013 23 08 0001 0001 0001 0001 0001 0001 0001 0001 00 | V3 proc 0 pc 0
0008, 0013 23 08 0001 0001 0001 0001 0001 0001 0001 0001 00 | V3 proc 0 pc 0
0009, 0013 23 08 0001 0001 0001 0001 0001 0001 0001 0001 00 | V3 proc 0 pc 0
000a, 0013 23 08 0001 0001 0001 0001 0001 0001 0001 0001 00 | V3 proc 0 pc 0
000b, 0013 23 08 0001 0001 0001 0001 0001 0001 0001 0001 00 | V3 proc 0 pc 0
000c, 0013 23 08 0001 0001 0001 0001 0001 0001 0001 0001 00 | V3 proc 0 pc 0
000d, 0013 23 08 0001 0001 0001 0001 0001 0001 0001 0001 00 | V3 proc 0 pc 0
000e, 0013 23 08 0001 0001 0001 0001 0001 0001 0001 0001 00 | V3 proc 0 pc 0
000f, 0013 23 08 0001 0001 0001 0001 0001 0001 0001 0001 00 | V3 proc 0 pc 0
0010, 0013 23 08 0001 0001 0001 0001 0001 0001 0001 0001 00 | V3 proc 0 pc 0
0011, 0013 23 08 0001 0001 0001 0001 0001 0001 0001 0001 00 | V3 proc 0 pc 0
0012, 0013 23 08 0001 0001 0001 0001 0001 0001 0001 0001 00 | V23 proc 0 pc 18
0001, 0003 24 00 00 | V3 proc 0 pc 0
0002, 0003 24 00 00 | V19 proc 0 pc 0";

// Bare code after an assembly's text, and how its run ends with which sheet.

/// Two cubes side by side are taken apart.
pub const APART: &str = "\
duo | code ?/
100000000112010100 | Apart | 1 t0 A -x 0 out/levels 1/apart in 3 steps/";

/// Four cubes in a square are taken apart: two trays, and three outs.
pub const LEVELS: &str = "\
square | code ?/
100000000c12020110000000011201021301100000000412010200 | Apart | 1 t0 C,D +y 0 out/\
2 t0 A -x 0 out/3 t1 C -x 0 out/levels 1.1.1/apart in 8 steps/";

/// The most pieces, and a fault of the text.
pub const FULL: &str = "\
assembly row/shape cube/layer/#/end/piece c0 cube +x+y+z 0 0 0/piece c1 cube +x+y+z 1 0 0/\
piece c2 cube +x+y+z 2 0 0/piece c3 cube +x+y+z 3 0 0/piece c4 cube +x+y+z 4 0 0/\
piece c5 cube +x+y+z 5 0 0/piece c6 cube +x+y+z 6 0 0/piece c7 cube +x+y+z 7 0 0/\
piece c8 cube +x+y+z 8 0 0/piece c9 cube +x+y+z 9 0 0/piece c10 cube +x+y+z 10 0 0/\
piece c11 cube +x+y+z 11 0 0/piece c12 cube +x+y+z 12 0 0/piece c13 cube +x+y+z 13 0 0/\
piece c14 cube +x+y+z 14 0 0/piece c15 cube +x+y+z 15 0 0/piece c16 cube +x+y+z 16 0 0/\
piece c17 cube +x+y+z 17 0 0/piece c18 cube +x+y+z 18 0 0/piece c19 cube +x+y+z 19 0 0/\
piece c20 cube +x+y+z 20 0 0/piece c21 cube +x+y+z 21 0 0/piece c22 cube +x+y+z 22 0 0/\
piece c23 cube +x+y+z 23 0 0/piece c24 cube +x+y+z 24 0 0/piece c25 cube +x+y+z 25 0 0/\
piece c26 cube +x+y+z 26 0 0/piece c27 cube +x+y+z 27 0 0/piece c28 cube +x+y+z 28 0 0/\
piece c29 cube +x+y+z 29 0 0/piece c30 cube +x+y+z 30 0 0/piece c31 cube +x+y+z 31 0 0/ | code ?/
# they are taken from an end one by one: the most outs of a run; a piece that is alone is apart, so
# one tray serves them all
100000000112010110000000021201011000000004120101100000000812010110000000101201011000000020120101\
100000004012010110000000801201011000000100120101100000020012010110000004001201011000000800120101\
100000100012010110000020001201011000004000120101100000800012010110000100001201011000020000120101\
100004000012010110000800001201011000100000120101100020000012010110004000001201011000800000120101\
100100000012010110020000001201011004000000120101100800000012010110100000001201011020000000120101\
104000000012010100 | Apart | \
1 t0 c0 -x 0 out/2 t0 c1 -x 0 out/3 t0 c2 -x 0 out/4 t0 c3 -x 0 out/\
5 t0 c4 -x 0 out/6 t0 c5 -x 0 out/7 t0 c6 -x 0 out/8 t0 c7 -x 0 out/\
9 t0 c8 -x 0 out/10 t0 c9 -x 0 out/11 t0 c10 -x 0 out/12 t0 c11 -x 0 out/\
13 t0 c12 -x 0 out/14 t0 c13 -x 0 out/15 t0 c14 -x 0 out/16 t0 c15 -x 0 out/\
17 t0 c16 -x 0 out/18 t0 c17 -x 0 out/19 t0 c18 -x 0 out/20 t0 c19 -x 0 out/\
21 t0 c20 -x 0 out/22 t0 c21 -x 0 out/23 t0 c22 -x 0 out/24 t0 c23 -x 0 out/\
25 t0 c24 -x 0 out/26 t0 c25 -x 0 out/27 t0 c26 -x 0 out/28 t0 c27 -x 0 out/\
29 t0 c28 -x 0 out/30 t0 c29 -x 0 out/31 t0 c30 -x 0 out/\
levels 1.1.1.1.1.1.1.1.1.1.1.1.1.1.1.1.1.1.1.1.1.1.1.1.1.1.1.1.1.1.1/apart in 63 steps/

assembly duo/shape cube/layer/#/end/\
piece A cube +x+y+z 0 0 0/ | ?code 00/
# two pieces in one place
piece B cube +x+y+z 0 0 0/ | Refused | refused A8 line 7 A B/";

/// More bare code.
pub const MORE: &str = "\
duo | code ?/
100000000112000100 | Trapped | levels -/trap 3 NotFree proc 0 pc 5 after 1 steps/
1000000001120101100000000100 | Trapped | 1 t0 A -x 0 out/levels 1/\
trap 2 GripOff proc 0 pc 8 after 2 steps/
00 | Trapped | levels -/trap 15 NotApart proc 0 pc 0 after 0 steps/
25 | Trapped | levels -/trap 16 Misplaced proc 0 pc 0 after 0 steps/
2401 | Trapped | levels -/trap 11 BadCall proc 0 pc 0 after 0 steps/
230200000001 | Trapped | levels -/trap 9 BadJump proc 0 pc 0 after 0 steps/
017fff01000104 | Trapped | levels -/trap 13 NumberRange proc 0 pc 6 after 2 steps/
0100010400 | Trapped | levels -/trap 6 MissingOperand proc 0 pc 3 after 1 steps/
010001010001010001010001010001010001010001010001010001 | Trapped \
| levels -/trap 7 StackFull proc 0 pc 24 after 8 steps/
100000000122fffe0005 | Waiting | levels -/waiting -2 5 after 1 steps/
1000000001 | Trapped | levels -/trap 10 BadCode proc 0 pc 5 after 1 steps/
1000000004 | Trapped | levels -/trap 2 GripOff proc 0 pc 0 after 0 steps/
1080000000 | Trapped | levels -/trap 2 GripOff proc 0 pc 0 after 0 steps/
120101 | Trapped | levels -/trap 4 BadGroup proc 0 pc 0 after 0 steps/
1000000003120101 | Trapped | levels -/trap 4 BadGroup proc 0 pc 5 after 1 steps/
1000000001120100 | Trapped | levels -/trap 5 TrayInUse proc 0 pc 5 after 1 steps/
10000000011100 | Trapped | levels -/trap 1 Collision proc 0 pc 5 after 1 steps/
1000000001110112010100 | Apart | 1 t0 A -x 1 out/levels 1/apart in 4 steps/
10000000011101110312010100 | Apart | 1 t0 A -x 1/2 t0 A -y 1/3 t0 A -x 0 out/levels 3/\
apart in 5 steps/
1000000003110210000000011201011101 | Trapped | 1 t0 A,B +y 1/2 t0 A -x 0 out/levels 2/\
trap 4 BadGroup proc 0 pc 15 after 4 steps/
# 4,096 bytes, and 4,097
trays | Trapped | levels -/trap 10 BadCode proc 0 pc 4096 after 2048 steps/
trays13 | Refused | refused input/

assembly cubes/shape cube/layer/#/end/piece A cube +x+y+z 0 0 0/piece M cube +x+y+z 1 0 0/\
piece C cube +x+y+z 2 0 0/ | code ?/
1000000002120201100000000112010100 | Apart | 1 t0 M +y 0 out/2 t0 A -x 0 out/levels 1.1/\
apart in 5 steps/
1000000002120001 | Trapped | levels -/trap 3 NotFree proc 0 pc 5 after 1 steps/

assembly cubes/shape cube/layer/#/end/\
piece A cube +x+y+z 0 0 0/piece B cube +x+y+z 3 0 0/ | code ?/
# a gap between them
100000000112000100 | Trapped | levels -/trap 3 NotFree proc 0 pc 5 after 1 steps/
1000000001110011001100 | Trapped | 1 t0 A +x 2/levels -/\
trap 1 Collision proc 0 pc 9 after 3 steps/

square | code ?/
100000000c1202011000000001120101 | Trapped | 1 t0 C,D +y 0 out/levels 1/\
trap 5 TrayInUse proc 0 pc 13 after 3 steps/

assembly box/shape cube/layer/#/end/\
shape box/layer/####/####/####/layer/####/#..#/####/layer/####/##.#/####/end/\
piece A cube +x+y+z 1 1 1/piece B box +x+y+z 0 0 0/ | code ?/
# a hole in the lid
1000000001110012040100 | Apart | 1 t0 A +x 1/2 t0 A +z 0 out/levels 2/apart in 4 steps/
10000000011100110012040100 | Trapped | 1 t0 A +x 1/levels -/\
trap 1 Collision proc 0 pc 7 after 2 steps/

none | ?
# whole inputs
# no last line with code
/ | Refused | refused input/
 | Refused | refused input/
code 00 | Refused | refused input/
code 0/ | Refused | refused input/
code / | Refused | refused input/
code/ | Refused | refused input/
code 0A/ | Refused | refused input/
code 0a / | Refused | refused input/
code  0a/ | Refused | refused input/
Code 0a/ | Refused | refused input/
code 00// | Refused | refused input/
# a fault of the text before it
code 00/ | Refused | refused A1 line 1/
assembly duo/code 00/ | Refused | refused A1 line 2/
assembly 9/code 00/ | Refused | refused A2 line 1/
code 00/code 00/ | Refused | refused A1 line 1/
assembly duo/shape big/layer/#################/end/code 00/ | Refused | refused A3 line 4/

assembly duo/shape cube/layer/#/end/\
piece A cube +x+y+z 0 0 0/ | ?code 00/
# what stands after the first piece, from line 7 on, and before the code
piece B cube -x+y+z 1 0 0/ | Refused | refused A4 line 7/
piece B cube +x+y+z 65 0 0/ | Refused | refused A5 line 7/
 | Refused | refused A7 line 7/
piece A block +x+y+z 1 0 0/ | Refused | refused A2 line 7/
piece B block -x+y+z 99 0 0/ | Refused | refused A6 line 7/
piece B cube +x+y+z 1 0 0/piece C cube +x+y+z 1 0 0/ | Refused | refused A8 line 8 B C/
shape big/layer/#################/end/ | Refused | refused A1 line 7/";
