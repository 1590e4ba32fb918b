//! Each fault with its line, and which comes first, in the plan of a counted loop.

/// The lines up to the first frame.
pub const HEADINGS: &str = "\
; the plan's line
1 plan ring 2|P1 { line: 1 }
1 plan ring 2 11 |P1 { line: 1 }
1 plan 9 2 3|P1 { line: 1 }
1 plan ring 02 11|P1 { line: 1 }
1 plan ring 2 -0|P1 { line: 1 }
1 plan ring +2 11|P1 { line: 1 }
1 plan ring 2 11 0|P1 { line: 1 }
1 Plan ring 2 11|P1 { line: 1 }
1  plan ring 2 11|P1 { line: 1 }
1 plan  ring 2 11|P1 { line: 1 }
1 plan ring\t2 11|P1 { line: 1 }
1 plan|P1 { line: 1 }
1 plan ring,x 2 11|P1 { line: 1 }
1 plan abcdefghijklmnopqrstuvwxyz0123456 2 11|P1 { line: 1 }
1 proc main 0|P1 { line: 1 }
1 label start|P1 { line: 1 }
1 halt|P1 { line: 1 }
1  |P1 { line: 1 }
1 plan ring 1 11|P3 { line: 1 }
1 plan ring 33 11|P3 { line: 1 }
1 plan ring -2 11|P3 { line: 1 }
1 plan ring 0 11|P3 { line: 1 }
1 plan ring 2 0|P3 { line: 1 }
1 plan ring 2 -1|P3 { line: 1 }
1 plan ring 2 1000001|P3 { line: 1 }
1 plan ring 2 99999999999999999999|P3 { line: 1 }
1 plan ring 99999999999999999999 11|P3 { line: 1 }
1 plan ring 2 1000000|right
1 plan ring 2 1|right
1 plan abcdefghijklmnopqrstuvwxyz012345 2 11|right
1 ; a plan//plan ring 2 11|right
1 ; a plan/plan ring 1 11|P3 { line: 2 }
1 plan ring 3 11|P1 { line: 8 }
1 plan ring 2 11/plan ring 2 11|P1 { line: 2 }
; main's line
2 proc 9 0|P1 { line: 2 }
2 proc main|P1 { line: 2 }
2 proc main 0 0|P1 { line: 2 }
2 proc main 00|P1 { line: 2 }
2 proc  main 0|P1 { line: 2 }
2 exit 0 -|P1 { line: 2 }
2 Proc main 0|P1 { line: 2 }
2 frame 0 -|P1 { line: 2 }
2 halt|P1 { line: 2 }
2 proc main 1|P3 { line: 2 }
2 proc main -1|P3 { line: 2 }
2 proc main 99999999999|P3 { line: 2 }
2 proc lid 0|right
2 proc ring 0|right
2 ; main/proc main 0|right
2 proc main 0/exit 0 -|P5 { line: 3 }
2 proc main 0/proc other 0|P5 { line: 3 }
2 proc main 0/halt|P5 { line: 3 }
; the first label's line
3 label 9x|P1 { line: 3 }
3 label|P1 { line: 3 }
3 label |P1 { line: 3 }
3 label start x|P1 { line: 3 }
3 label  start|P1 { line: 3 }
3 label start |P1 { line: 3 }
3 label abcdefghijklmnopqrstuvwxyz0123456|P1 { line: 3 }
3  label start|P5 { line: 3 }
3 labels start|P5 { line: 3 }
3 Label start|P5 { line: 3 }
3 halt|P5 { line: 3 }
3 frame 0 -|P5 { line: 3 }
3  |P5 { line: 3 }
3 \tlabel start|P5 { line: 3 }
3 proc main|P5 { line: 3 }
3 ; a label/label start|right
3 /label start|right
3 label main|right
3 label ring|right
3 ;/label 9x|P1 { line: 4 }
3 ;/labels|P5 { line: 4 }
3 label L|P2 { line: 11 }
";

/// Frames, up to the operands.
pub const FRAMES: &str = "\
; the frame's line
4 frame 0|P1 { line: 4 }
4 frame  0 -|P1 { line: 4 }
4 frame 0 0,|P1 { line: 4 }
4 frame 0 ,|P1 { line: 4 }
4 frame 0 ,0|P1 { line: 4 }
4 frame 0 00|P1 { line: 4 }
4 frame 0 -,1|P1 { line: 4 }
4 frame 0 1,-|P1 { line: 4 }
4 frame 0 |P1 { line: 4 }
4 frame 0 0,,1|P1 { line: 4 }
4 frame 0 0 1|P1 { line: 4 }
4 frame 0 --1|P1 { line: 4 }
4 frame 00 -|P1 { line: 4 }
4 frame x -|P1 { line: 4 }
4 frame 0 0,1 |P1 { line: 4 }
4 frame -|P1 { line: 4 }
4 frame|P1 { line: 4 }
4 frame 32 -|P3 { line: 4 }
4 frame -1 -|P3 { line: 4 }
4 frame 256 -|P3 { line: 4 }
4 frame 0 1,0|P3 { line: 4 }
4 frame 0 0,0|P3 { line: 4 }
4 frame 0 2|P3 { line: 4 }
4 frame 0 -1|P3 { line: 4 }
4 frame 0 0,-1|P3 { line: 4 }
4 frame 0 99999999999|P3 { line: 4 }
4 frame 0 0,1,2|P3 { line: 4 }
4 frame 32 2|P3 { line: 4 }
4 fram 0 -|P5 { line: 4 }
4  frame 0 -|P5 { line: 4 }
4 cost 11|P5 { line: 4 }
4 label start|P5 { line: 4 }
4 halt|P5 { line: 4 }
4 frames 0 -|P5 { line: 4 }
4  |P5 { line: 4 }
4 proc other 0|P5 { line: 4 }
4 exit 0 -|P5 { line: 4 }
4 frame 0 0,1|right
4 frame 31 1|right
4 ; a frame//frame 0 -|right
; slots
13 slot 0 0|P1 { line: 13 }
13 slot 0 0 2 3|P1 { line: 13 }
13 slot 0 00 2|P1 { line: 13 }
13 slot 0 0 +2|P1 { line: 13 }
13 slot|P1 { line: 13 }
13 slot 0  0 2|P1 { line: 13 }
13 slot v0 0 2|P1 { line: 13 }
13 slot 0 2 0|P3 { line: 13 }
13 slot 8 0 2|P3 { line: 13 }
13 slot -1 0 2|P3 { line: 13 }
13 slot 0 -32768 2|P3 { line: 13 }
13 slot 0 0 32768|P3 { line: 13 }
13 slot 0 -32768 -32768|P3 { line: 13 }
13 slot 0 0 99999999999999999999|P3 { line: 13 }
13 slot 256 0 2|P3 { line: 13 }
13 slot 0 -32767 32767|right
13 slot 0 2 2|right
13 slot 0 0 2/slot 7 0 2|right
13 ; a slot/slot 0 0 2|right
13 slot 0 0 2/slot 0 0 2|P3 { line: 14 }
13 slot 1 0 2/slot 0 0 2|P3 { line: 14 }
13 slot 7 0 2/slot 0 0 2|P3 { line: 14 }
13 slot 0 0 2/guard 1/slot 1 0 2|P1 { line: 15 }
13 slot 0 0 2/stack 1/slot 1 0 2|P1 { line: 15 }
13 slot 1 0 2|P3 { line: 14 }
13 slot 0 0 2/slot 1 0|P1 { line: 14 }
; guards and operands
13 slot 0 0 2/guard 1/guard 1/guard 1/guard 1|right
13 slot 0 0 2/guard 1/guard 1/guard 1/guard 1/guard 1|P4 { line: 18 }
13 slot 0 0 2/guard 1/guard 1/guard 1/guard 1/guard 1+1v1|P3 { line: 18 }
13 slot 0 0 2/guard 1/guard 1/guard 1/guard 1/guard 01|P1 { line: 18 }
13 slot 0 0 2/guard|P1 { line: 14 }
13 slot 0 0 2/guard 1 1|P1 { line: 14 }
13 slot 0 0 2/guard 1+1v1|P3 { line: 14 }
13 slot 0 0 2/stack 1/stack 1/stack 1/stack 1/stack 1/stack 1/stack 1/stack 1|right
13 slot 0 0 2/stack 1/stack 1/stack 1/stack 1/stack 1/stack 1/stack 1/stack 1/stack 1|\
P4 { line: 22 }
13 slot 0 0 2/stack 1/stack 1/stack 1/stack 1/stack 1/stack 1/stack 1/stack 1/stack 1+1v1|\
P3 { line: 22 }
13 slot 0 0 2/stack 1/guard 1|P1 { line: 15 }
13 slot 0 0 2/guard 1/stack 1/stack 0-1v0|right
";

/// Forms, and the pieces of a frame.
pub const FORMS: &str = "\
; the cost, by all forms
14 cost|P1 { line: 14 }
14 cost 4+2v01|P1 { line: 14 }
14 cost 4+2v|P1 { line: 14 }
14 cost 4+2v-1|P1 { line: 14 }
14 cost 4+02v0|P1 { line: 14 }
14 cost 4+0v0|P1 { line: 14 }
14 cost 4-0v0|P1 { line: 14 }
14 cost 4+-2v0|P1 { line: 14 }
14 cost +2v0|P1 { line: 14 }
14 cost 4+2|P1 { line: 14 }
14 cost 4 +2v0|P1 { line: 14 }
14 cost -0+2v0|P1 { line: 14 }
14 cost 04|P1 { line: 14 }
14 cost 4*2v0|P1 { line: 14 }
14 cost --4|P1 { line: 14 }
14 cost 4+2v0-|P1 { line: 14 }
14 cost 4+2v0-1|P1 { line: 14 }
14 cost 4+v0|P1 { line: 14 }
14 cost 4+2V0|P1 { line: 14 }
14 cost 4+2v0 |P1 { line: 14 }
14 cost  4|P1 { line: 14 }
14 cost v0|P1 { line: 14 }
14 cost 2v0|P1 { line: 14 }
14 cost 4+2v0+|P1 { line: 14 }
14 cost 4+2vv0|P1 { line: 14 }
14 cost 4+2v0v0|P1 { line: 14 }
14 cost 4+2v+1v0|P1 { line: 14 }
14 cost -|P1 { line: 14 }
14 cost 4.0|P1 { line: 14 }
14 cost 4+1 v0|P1 { line: 14 }
14 cost 4+2v00|P1 { line: 14 }
14 cost 4++2v0|P1 { line: 14 }
14 cost 4+2v1|P3 { line: 14 }
14 cost 4+2v9|P3 { line: 14 }
14 cost 4+2v8|P3 { line: 14 }
14 cost 4+2v123456|P3 { line: 14 }
14 cost 4+2v0+1v0|P3 { line: 14 }
14 cost 4+2v0-2v0|P3 { line: 14 }
14 cost 4+1v1+1v0|P3 { line: 14 }
14 cost 2147483648|P3 { line: 14 }
14 cost -2147483649|P3 { line: 14 }
14 cost 1+32768v0|P3 { line: 14 }
14 cost 1-32769v0|P3 { line: 14 }
14 cost 4+99999999999999v0|P3 { line: 14 }
14 cost 99999999999999999999|P3 { line: 14 }
14 cost 4+99999999999999v99999999999|P3 { line: 14 }
14 cost 2147483647|right
14 cost -2147483648|right
14 cost 1-32768v0|right
14 cost 1+32767v0|right
14 cost 0|right
14 cost -4-2v0|right
14 ; a cost/cost 4|right
14 at 0 0 0 0 2-1v0|P1 { line: 14 }
14 cost 4+2v0/cost 4|P1 { line: 15 }
14 step +z|P1 { line: 14 }
14 label M|P1 { line: 14 }
14 frame 0 0|P1 { line: 14 }
14 guard 1/at 0 apart|P1 { line: 15 }
; pieces
6 at 1 0 0 0 0|P1 { line: 6 }
6 at 2 apart|P1 { line: 6 }
6 at -1 apart|P1 { line: 6 }
6 at 99999999999999999999 apart|P1 { line: 6 }
6 at 0 apart 0|P1 { line: 6 }
6 at 0 0 0 0|P1 { line: 6 }
6 at 0 0 0 0 0 0|P1 { line: 6 }
6 at 00 apart|P1 { line: 6 }
6 at 0 Apart|P1 { line: 6 }
6 at 1 32 0 0 0|P1 { line: 6 }
6 at 0|P1 { line: 6 }
6 at|P1 { line: 6 }
6 at 0 0 0 0 +1|P1 { line: 6 }
6 at 0 0 0  0 0|P1 { line: 6 }
6 at apart|P1 { line: 6 }
6 grip 0|P1 { line: 6 }
6 cost 11|P1 { line: 6 }
6 at 0 32 0 0 0|P3 { line: 6 }
6 at 0 -1 0 0 0|P3 { line: 6 }
6 at 0 0 0 0 1+1v0|P3 { line: 6 }
6 at 0 0 1+1v0 0 0|P3 { line: 6 }
6 at 0 0 0 99999999999 0|P3 { line: 6 }
6 at 0 256 0 0 0|P3 { line: 6 }
6 at 0 apart|right
6 at 0 31 1 -1 2147483647|right
6 ; a piece/at 0 apart|right
7 at 1 apart/at 2 apart|P1 { line: 8 }
7 at 0 0 0 0 0|P1 { line: 7 }
7 grip 0|P1 { line: 7 }
7 label x|P1 { line: 7 }
7 proc x 0|P1 { line: 7 }
7 ; nothing/at 1 apart|right
";

/// Lines of code, labels, and names that are unknown.
pub const CODE: &str = "\
; operands
8 grip|P1 { line: 8 }
8 grip 0,|P1 { line: 8 }
8 grip 0 1|P1 { line: 8 }
8 grip ,|P1 { line: 8 }
8 grip 00|P1 { line: 8 }
8 grip -,1|P1 { line: 8 }
8 grip 0,-|P1 { line: 8 }
8 push|P1 { line: 8 }
8 push 1 2|P1 { line: 8 }
8 push x|P1 { line: 8 }
8 push 01|P1 { line: 8 }
8 push +1|P1 { line: 8 }
8 load|P1 { line: 8 }
8 load v0|P1 { line: 8 }
8 store|P1 { line: 8 }
8 halt |P1 { line: 8 }
8 halt 1|P1 { line: 8 }
8 HALT|P1 { line: 8 }
8 hal|P1 { line: 8 }
8 add 1|P1 { line: 8 }
8 step|P1 { line: 8 }
8 step x|P1 { line: 8 }
8 step +w|P1 { line: 8 }
8 step +x 1|P1 { line: 8 }
8 step +X|P1 { line: 8 }
8 step x+|P1 { line: 8 }
8 aside +x|P1 { line: 8 }
8 aside x 1|P1 { line: 8 }
8 aside +x 01|P1 { line: 8 }
8 aside +x 1 1|P1 { line: 8 }
8 tray|P1 { line: 8 }
8 tray -0|P1 { line: 8 }
8 jump 9x|P1 { line: 8 }
8 jump|P1 { line: 8 }
8 jump L |P1 { line: 8 }
8 jump L L|P1 { line: 8 }
8 down L 0|P1 { line: 8 }
8 down 0|P1 { line: 8 }
8 down 0 9|P1 { line: 8 }
8 down 00 L|P1 { line: 8 }
8 ask 0|P1 { line: 8 }
8 ask 0 2 3|P1 { line: 8 }
8 ask 0 02|P1 { line: 8 }
8 pick|P1 { line: 8 }
8 pick L|P1 { line: 8 }
8 pick L 9|P1 { line: 8 }
8 pick L  L|P1 { line: 8 }
8 pick L L |P1 { line: 8 }
8 pick L L L L L L L L L|P1 { line: 8 }
8 pick 2 L L|P1 { line: 8 }
8 call|P1 { line: 8 }
8 call 0|P1 { line: 8 }
8 call 9x|P1 { line: 8 }
8 byte|P1 { line: 8 }
8 byte FF|P1 { line: 8 }
8 byte f|P1 { line: 8 }
8 byte fff|P1 { line: 8 }
8 byte 0x|P1 { line: 8 }
8 byte fg|P1 { line: 8 }
8 byte -1|P1 { line: 8 }
8 byte ff |P1 { line: 8 }
8 ret 0|P1 { line: 8 }
8 frame 0 -|P1 { line: 8 }
8 slot 0 0 2|P1 { line: 8 }
8 guard 1|P1 { line: 8 }
8 stack 1|P1 { line: 8 }
8 cost 1|P1 { line: 8 }
8 at 2 apart|P1 { line: 8 }
8 exit 0 -|P1 { line: 8 }
8 plan ring 2 11|P1 { line: 8 }
8 end|P1 { line: 8 }
8  |P1 { line: 8 }
8  ; x|P1 { line: 8 }
8 \t|P1 { line: 8 }
8 grip -|P3 { line: 8 }
8 grip 32|P3 { line: 8 }
8 grip 31,0|P3 { line: 8 }
8 grip 0,0|P3 { line: 8 }
8 grip -1|P3 { line: 8 }
8 grip 0,-1|P3 { line: 8 }
8 grip 0,99999999999|P3 { line: 8 }
8 push 32768|P3 { line: 8 }
8 push -32768|P3 { line: 8 }
8 push 99999999999|P3 { line: 8 }
8 load 8|P3 { line: 8 }
8 load -1|P3 { line: 8 }
8 store 8|P3 { line: 8 }
8 store -1|P3 { line: 8 }
8 aside +x 32|P3 { line: 8 }
8 aside -z -1|P3 { line: 8 }
8 tray 32|P3 { line: 8 }
8 tray 256|P3 { line: 8 }
8 down 8 L|P3 { line: 8 }
8 down 8 none|P3 { line: 8 }
8 ask 2 0|P3 { line: 8 }
8 ask -32768 0|P3 { line: 8 }
8 ask 0 32768|P3 { line: 8 }
8 ask -32768 -32768|P3 { line: 8 }
8 jump l|P2 { line: 8 }
8 jump none|P2 { line: 8 }
8 jump main|P2 { line: 8 }
8 jump ring|P2 { line: 8 }
8 down 0 none|P2 { line: 8 }
8 pick L none|P2 { line: 8 }
8 pick none L|P2 { line: 8 }
8 call L|P2 { line: 8 }
8 call none|P2 { line: 8 }
8 call start|P2 { line: 8 }
8 grip 0,31|right
8 grip 31|right
8 push 32767|right
8 push -32767|right
8 push 0|right
8 load 7|right
8 store 0|right
8 add|right
8 sub|right
8 drop|right
8 ret|right
8 halt|right
8 step -x|right
8 aside -y 31|right
8 tray 0|right
8 jump L|right
8 jump start|right
8 down 7 start|right
8 ask 0 0|right
8 ask -32767 32767|right
8 pick L start|right
8 pick L L L L L L L L|right
8 call main|right
8 byte ff|right
8 byte 0a|right
8 |right
8 ;|right
8 ; any é|right
8 jump L//;/; x|right
; labels
11 label start|P2 { line: 11 }
8 label x/frame 0 -/cost 1/at 0 apart/at 1 apart|P4 { line: 8 }
8 label start/frame 0 -/cost 1/at 0 apart/at 1 apart|P2 { line: 8 }
8 label 9/frame 0 -/cost 1/at 0 apart/at 1 apart|P1 { line: 8 }
11 label start/fram|P2 { line: 11 }
11 label x/frame 0 -/cost 1/at 0 apart/at 1 apart/label L|P4 { line: 16 }
20 halt/label end/frame 0 -/cost 1/at 0 apart/at 1 apart|P4 { line: 21 }
20 halt/label end/frame 0 -/cost 1/at 0 apart/at 1 apart/;|P4 { line: 21 }
20 halt/label end/frame 0 -/cost 1/at 0 apart/at 1 apart//;|P4 { line: 21 }
20 halt/label end/frame 0 -/cost 1/at 0 apart/at 1 apart/halt|right
20 halt/label end|P5 { line: 22 }
20 halt/label end/; x|P5 { line: 23 }
20 halt/label end/frame 0 -|P1 { line: 23 }
20 halt/label end/frame 0 -/cost 1/at 0 apart|P1 { line: 25 }
; a label at the end of the code, and the procedure after it
20 halt/label end/frame 0 -/cost 1/at 0 apart/at 1 apart/proc main 0|P4 { line: 21 }
20 halt/label end/frame 0 -/cost 1/at 0 apart/at 1 apart/proc x 5|P4 { line: 21 }
20 halt/label end/frame 0 -/cost 1/at 0 apart/at 1 apart/proc x 0/halt|P4 { line: 21 }
20 halt/label end/frame 0 -/cost 1/at 0 apart/at 1 apart/proc x|P1 { line: 26 }
20 halt/label end/frame 0 -/cost 1/at 0 apart/at 1 apart/proc 9 0|P1 { line: 26 }
20 halt/label end/frame 0 -/cost 1/at 0 apart/at 1 apart/proc x 00|P1 { line: 26 }
20 halt/label end/frame 0 -/cost 1/at 0 apart/at 1 apart/exit 0 -|P1 { line: 26 }
20 halt/label end/frame 0 -/cost 1/at 0 apart/at 1 apart/label more|P4 { line: 26 }
20 halt/label end/frame 0 -/cost 1/at 0 apart/at 1 apart/label end|P2 { line: 26 }
; unknown names come last
18 down 0 none|20 halt/label end/frame 0 -/cost 1/at 0 apart/at 1 apart|P4 { line: 21 }
18 down 0 none|20 halts|P1 { line: 20 }
18 down 0 none|20 push 32768|P3 { line: 20 }
18 down 0 none|20 halt/label L|P2 { line: 21 }
18 down 0 none|20 halt/label end|P5 { line: 22 }
18 down 0 none|20 halt/label end/frame 0 -|P1 { line: 23 }
18 down 0 none|19 jump no|P2 { line: 18 }
8 call no|18 down 0 none|P2 { line: 8 }
";

/// Fronts of a plan that end without the end of a line, or too early.
pub const ENDS: &str = "\
|P1 { line: 1 }
/|P1 { line: 2 }
; x/|P1 { line: 2 }
; x|P1 { line: 1 }
plan ring 2 11|P1 { line: 1 }
plan ring 1 11|P1 { line: 1 }
plan ring 2 11/|P1 { line: 2 }
plan ring 2 11/proc main 0|P1 { line: 2 }
plan ring 2 11/proc main 0/|P5 { line: 3 }
plan ring 2 11/proc main 0//;/|P5 { line: 5 }
plan ring 2 11/proc main 0/label|P1 { line: 3 }
plan ring 2 11/proc main 0/label start|P1 { line: 3 }
plan ring 2 11/proc main 0/labels|P5 { line: 3 }
plan ring 2 11/proc main 0/labe|P5 { line: 3 }
plan ring 2 11/proc main 0/ |P5 { line: 3 }
plan ring 2 11/proc main 0/; x|P1 { line: 3 }
plan ring 2 11/proc main 0/label start/|P5 { line: 4 }
plan ring 2 11/proc main 0/label start/frame|P1 { line: 4 }
plan ring 2 11/proc main 0/label start/frame 0 -|P1 { line: 4 }
plan ring 2 11/proc main 0/label start/halt|P5 { line: 4 }
plan ring 2 11/proc main 0/label start/;|P1 { line: 4 }
plan ring 2 11/proc main 0/label start/frame 0 -/|P1 { line: 5 }
plan ring 2 11/proc main 0/label start/frame 0 -/cost 1/|P1 { line: 6 }
plan ring 2 11/proc main 0/label start/frame 0 -/cost 1/at 0 apart/|P1 { line: 7 }
plan ring 2 11/proc main 0/label start/frame 0 -/cost 1/at 0 apart/at 1 apart/|P4 { line: 3 }
plan ring 2 11/proc main 0/label start/frame 0 -/cost 1/at 0 apart/at 1 apart/halt|P1 { line: 8 }
plan ring 2 11/proc main 0/label start/frame 0 -/cost 1/at 0 apart/at 1 apart/halt/; x|\
P1 { line: 9 }
; a label at the end of the code, and the line of a procedure: with its end, and without
plan ring 2 11/proc main 0/label start/frame 0 -/cost 1/at 0 apart/at 1 apart/halt/\
label end/frame 0 -/cost 1/at 0 apart/at 1 apart/proc x 0/|P4 { line: 9 }
plan ring 2 11/proc main 0/label start/frame 0 -/cost 1/at 0 apart/at 1 apart/halt/\
label end/frame 0 -/cost 1/at 0 apart/at 1 apart/proc x 0|P1 { line: 14 }
plan ring 2 11/proc main 0/label start/frame 0 -/cost 1/at 0 apart/at 1 apart/halt/\
label end/frame 0 -/cost 1/at 0 apart/at 1 apart/|P4 { line: 9 }
";

/// Worked damages.
pub const WORKED: &str = "\
14 cost 4+2v1|P3 { line: 14 }
18 down 0 M|P2 { line: 18 }
";

/// Plans without a label, without its frame, and without code.
pub const WORKED_FRONTS: &str = "\
plan ring 2 11/proc main 0/frame 0 -/cost 11/at 0 0 0 0 0/at 1 0 0 0 0/\
grip 0/push 2/store 0/|P5 { line: 3 }
plan ring 2 11/proc main 0/label start/frame 0 -/cost 11/at 0 0 0 0 0/at 1 0 0 0 0/\
grip 0/push 2/store 0/label L/|P5 { line: 12 }
plan ring 2 11/|P1 { line: 2 }
";
