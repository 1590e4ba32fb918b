//! Plans of procedures and of version 2: their faults with their lines, and what they are assembled
//! to and listed as.

/// A dot in a bowl: a procedure asks how far it is lifted, and gives the answer as its result.
pub const ANSWERED_LIFT: &str = "plan2 cup 2 18\n\
     proc main 0 0\n\
     label start\n\
     frame 0 -\n\
     cost 18\n\
     at 0 0 0 0 0\n\
     at 1 0 0 0 0\n\
     grip 0\n\
     call lift\n\
     drop\n\
     aside +z 1\n\
     halt\n\
     proc lift 0 1\n\
     exit 0 0\n\
     result 0 2\n\
     at 0 0 0 0 0+1v0\n\
     at 1 0 0 0 0\n\
     label start\n\
     frame 0 0\n\
     cost 13\n\
     at 0 0 0 0 0\n\
     at 1 0 0 0 0\n\
     ask 0 2\n\
     store 0\n\
     load 0\n\
     store 1\n\
     label L\n\
     frame 0 0\n\
     slot 0 0 2\n\
     slot 1 0 2\n\
     guard 0+1v0-1v1\n\
     cost 3+3v1\n\
     at 0 0 0 0 0+1v0-1v1\n\
     at 1 0 0 0 0\n\
     down 1 M\n\
     load 0\n\
     ret\n\
     label M\n\
     frame 0 0\n\
     slot 0 0 2\n\
     slot 1 0 1\n\
     guard -1+1v0-1v1\n\
     cost 5+3v1\n\
     at 0 0 0 0 -1+1v0-1v1\n\
     at 1 0 0 0 0\n\
     step +z\n\
     jump L\n";

/// The same, listed with places: the labels of the procedure are at 0, 11 and 18.
pub const ANSWERED_LIFT_PLACES: &str = "version 2, 359 bytes\n\
     plan2 cup 2 18\n\
     proc p0 0 0\n\
     label L0\n\
     frame 0 -\n\
     cost 18\n\
     at 0 0 0 0 0\n\
     at 1 0 0 0 0\n\
     ; proc 0 pc 0\n\
     grip 0\n\
     ; proc 0 pc 5\n\
     call p1\n\
     ; proc 0 pc 7\n\
     drop\n\
     ; proc 0 pc 8\n\
     aside +z 1\n\
     ; proc 0 pc 11\n\
     halt\n\
     proc p1 0 1\n\
     exit 0 0\n\
     result 0 2\n\
     at 0 0 0 0 0+1v0\n\
     at 1 0 0 0 0\n\
     label L0\n\
     frame 0 0\n\
     cost 13\n\
     at 0 0 0 0 0\n\
     at 1 0 0 0 0\n\
     ; proc 1 pc 0\n\
     ask 0 2\n\
     ; proc 1 pc 5\n\
     store 0\n\
     ; proc 1 pc 7\n\
     load 0\n\
     ; proc 1 pc 9\n\
     store 1\n\
     label L1\n\
     frame 0 0\n\
     slot 0 0 2\n\
     slot 1 0 2\n\
     guard 0+1v0-1v1\n\
     cost 3+3v1\n\
     at 0 0 0 0 0+1v0-1v1\n\
     at 1 0 0 0 0\n\
     ; proc 1 pc 11\n\
     down 1 L2\n\
     ; proc 1 pc 15\n\
     load 0\n\
     ; proc 1 pc 17\n\
     ret\n\
     label L2\n\
     frame 0 0\n\
     slot 0 0 2\n\
     slot 1 0 1\n\
     guard -1+1v0-1v1\n\
     cost 5+3v1\n\
     at 0 0 0 0 -1+1v0-1v1\n\
     at 1 0 0 0 0\n\
     ; proc 1 pc 18\n\
     step +z\n\
     ; proc 1 pc 20\n\
     jump L1\n";

/// Two cubes in version 2, listed with places.
pub const DUO_2_PLACES: &str = "version 2, 71 bytes\n\
     plan2 duo 2 3\n\
     proc p0 0 0\n\
     label L0\n\
     frame 0 -\n\
     cost 3\n\
     at 0 0 0 0 0\n\
     at 1 0 0 0 0\n\
     ; proc 0 pc 0\n\
     grip 0\n\
     ; proc 0 pc 5\n\
     aside -x 1\n\
     ; proc 0 pc 8\n\
     halt\n";

/// The text of that.
pub const DUO_2: &str = "\
plan2 duo 2 3/proc main 0 0/label start/frame 0 -/cost 3/at 0 0 0 0 0/at 1 0 0 0 0/\
grip 0/aside -x 1/halt/@";

/// All that an exit frame may say.
pub const ALL_OF_EXITS: &str = "plan2 All_9- 2 1000000\n\
     proc p0 0 0\n\
     label L0\n\
     frame 0 -\n\
     cost 1\n\
     at 0 apart\n\
     at 1 apart\n\
     call p1\n\
     call p2\n\
     proc p1 4 2\n\
     exit 31 0,1\n\
     result -32767 32767\n\
     result -1 -1\n\
     guard -2147483648-32768v0+32767v5\n\
     guard 0+1v3-1v4\n\
     guard 1+1v4\n\
     guard 2147483647\n\
     at 0 5 1-1v0 2+2v1-3v2 3+4v3-5v4+6v5\n\
     at 1 apart\n\
     label L0\n\
     frame 0 -\n\
     cost 1\n\
     at 0 apart\n\
     at 1 apart\n\
     ret\n\
     proc p2 1 0\n\
     exit 0 -\n\
     guard 0-1v0\n\
     at 0 apart\n\
     at 1 0 0 0 0+1v0\n\
     label L0\n\
     frame 0 -\n\
     cost 1\n\
     at 0 apart\n\
     at 1 apart\n\
     ret\n";

/// Lines of a plan of version 2 that asks.
pub const RESULTS: &str = "\
; the plan's line
1 plan2 cup 2|P1 { line: 1 }
1 plan2 cup 2 18 0|P1 { line: 1 }
1 plan2|P1 { line: 1 }
1 plan3 cup 2 18|P1 { line: 1 }
1 plan1 cup 2 18|P1 { line: 1 }
1 Plan2 cup 2 18|P1 { line: 1 }
1 plan 2 cup 2 18|P1 { line: 1 }
1 plan2 cup 33 18|P3 { line: 1 }
1 plan2 cup 2 1000001|P3 { line: 1 }
1 plan2 cup 2 18/plan2 cup 2 18|P1 { line: 2 }
1 plan cup 2 18|P1 { line: 2 }
1 ; a plan/plan2 cup 2 18|right
8 plan2 cup 2 18|P1 { line: 8 }
; the line of a procedure
2 proc main 0|P1 { line: 2 }
2 proc main 0 |P1 { line: 2 }
2 proc main 0  0|P1 { line: 2 }
2 proc main 0 0 0|P1 { line: 2 }
2 proc main 0 00|P1 { line: 2 }
2 proc main 0 x|P1 { line: 2 }
2 proc main x 0|P1 { line: 2 }
2 proc main 0 1|P3 { line: 2 }
2 proc main 0 -1|P3 { line: 2 }
2 proc main 1 0|P3 { line: 2 }
13 proc lift 0|P1 { line: 13 }
13 proc main 0|P1 { line: 13 }
13 proc lift 5|P1 { line: 13 }
13 proc lift 0 01|P1 { line: 13 }
13 proc lift 0 1 1|P1 { line: 13 }
13 proc 9 0 1|P1 { line: 13 }
13 proc main 0 3|P2 { line: 13 }
13 proc main 5 1|P2 { line: 13 }
13 proc lift 0 3|P3 { line: 13 }
13 proc lift 0 -1|P3 { line: 13 }
13 proc lift 0 256|P3 { line: 13 }
13 proc lift 0 99999999999|P3 { line: 13 }
13 proc lift 5 1|P3 { line: 13 }
13 proc lift 4 1|right
3 proc lift 0 1|P5 { line: 3 }
; results: as many as there are
13 proc lift 0 0|P1 { line: 15 }
13 proc lift 0 2|P1 { line: 16 }
13 proc lift 0 0|15 ;|P3 { line: 16 }
13 proc lift 0 0|15 ;|16 at 0 apart|right
13 proc lift 0 2|15 result 0 2/result -1 1|right
15 result 0 2/result 0 2|P1 { line: 16 }
15 result 0|P1 { line: 15 }
15 result 0 2 3|P1 { line: 15 }
15 result 0  2|P1 { line: 15 }
15 result 00 2|P1 { line: 15 }
15 result 0 +2|P1 { line: 15 }
15 result|P1 { line: 15 }
15 results 0 2|P1 { line: 15 }
15 slot 0 0 2|P1 { line: 15 }
15 guard 1|P1 { line: 15 }
15 label start|P1 { line: 15 }
15 at 0 0 0 0 0|P1 { line: 15 }
15 at 0 32 0 0 0|P1 { line: 15 }
15 result 2 0|P3 { line: 15 }
15 result -32768 2|P3 { line: 15 }
15 result 0 32768|P3 { line: 15 }
15 result 0 99999999999|P3 { line: 15 }
15 result -32767 32767|right
15 result 2 2|right
15 ; a result//result 0 2|right
; guards after the results
15 result 0 2/guard 0+1v0/guard 1/guard 1/guard 1|right
15 result 0 2/guard 1/guard 1/guard 1/guard 1/guard 1|P4 { line: 20 }
15 result 0 2/guard 1/guard 1/guard 1/guard 1/guard 0+1v1|P3 { line: 20 }
15 result 0 2/guard 1/guard 1/guard 1/guard 1/guard 01|P1 { line: 20 }
15 result 0 2/guard 1/guard 1/guard 1/guard 1/result 2 0|P1 { line: 20 }
15 result 0 2/guard|P1 { line: 16 }
15 result 0 2/guard 1/result 0 2|P1 { line: 17 }
15 result 0 2/guard 0+1v1|P3 { line: 16 }
15 result 0 2/slot 0 0 2|P1 { line: 16 }
15 result 0 2/stack 1|P1 { line: 16 }
15 result 0 2/cost 1|P1 { line: 16 }
13 proc lift 0 0|15 guard 1|16 at 0 apart|right
13 proc lift 0 0|15 guard 0+1v0|16 at 0 apart|P3 { line: 15 }
; pieces after the guards, and forms over parameters and results
16 at 0 0 0 0 0+1v0/guard 1|P1 { line: 17 }
16 at 0 0 0 0 0+1v0/result 0 2|P1 { line: 17 }
16 at 0 0 0 0 0+1v1|P3 { line: 16 }
17 at 1 apart/guard 1|P5 { line: 18 }
17 at 1 apart/result 0 2|P5 { line: 18 }
13 proc lift 4 1|16 at 0 0 0 0 0+1v4|right
13 proc lift 4 1|16 at 0 0 0 0 0+1v5|P3 { line: 16 }
13 proc lift 4 2|15 result 0 2/result 0 2/guard 0+1v0+1v1+1v2+1v3+1v4+1v5|right
13 proc lift 4 2|15 result 0 2/result 0 2/guard 0+1v6|P3 { line: 17 }
13 proc lift 1 2|15 result 0 2/result 0 2/guard 0+1v3|P3 { line: 17 }
; results elsewhere
5 result 0 2|P1 { line: 5 }
8 result 0 2|P1 { line: 8 }
29 result 0 2|P1 { line: 29 }
; a label at the end of the code, and the procedure after it
12 halt/label end/frame 0 -/cost 1/at 0 apart/at 1 apart|P4 { line: 13 }
12 halt/label end/frame 0 -/cost 1/at 0 apart/at 1 apart|13 proc lift 0 3|P4 { line: 13 }
12 halt/label end/frame 0 -/cost 1/at 0 apart/at 1 apart|13 proc lift 0|P1 { line: 18 }
; unknown names come last
9 call lid|P2 { line: 9 }
9 call lid|15 result 2 0|P3 { line: 15 }
9 call lid|15 at 0 apart|P1 { line: 15 }
";

/// Lines of version 2 in a plan of version 1.
pub const OF_VERSION_2: &str = "\
1 plan2 cup 2 11|P1 { line: 2 }
15 proc main 1 0|P1 { line: 15 }
15 proc lift 1 3|P1 { line: 15 }
14 halt/label end/frame 0 -/cost 1/at 0 apart/at 1 apart|15 proc lift 1 0|P1 { line: 20 }
16 exit 0 0/result 0 2|P1 { line: 17 }
16 exit 0 0/result 2 0|P1 { line: 17 }
16 exit 0 0/guard 0+1v1|P1 { line: 17 }
17 at 0 0 0 0 0/guard 1|P1 { line: 18 }
";

/// A plan of version 2 up to the first line of an exit frame.
pub const EXIT: &str = "\
plan2 cup 2 9/proc main 0 0/label start/frame 0 -/cost 1/at 0 apart/at 1 apart/halt/\
proc lift 0 1/exit 0 -/@";

/// Ends of a plan of version 2 within its exit frame, and after it.
pub const BEHIND_EXIT: &str = "\
|P1 { line: 11 }
result 0 2|P1 { line: 11 }
result 0 2/|P1 { line: 12 }
result 0 2/guard 1|P1 { line: 12 }
result 0 2/guard 1/|P1 { line: 13 }
result 0 2/at 0 apart/|P1 { line: 13 }
result 0 2/at 0 apart/at 1 apart/|P5 { line: 14 }
result 0 2/at 0 apart/at 1 apart/guard 1|P5 { line: 14 }
result 0 2/at 0 apart/at 1 apart/label x|P1 { line: 14 }
";

/// Plans of one procedure in both versions.
pub const SIZES_OF_RING: &str = "\
|version 1, 140 bytes
1 plan2 ring 2 11|2 proc main 0 0|version 2, 141 bytes
";

pub const SIZES_OF_CUP: &str = "\
|version 1, 258 bytes
1 plan2 cup 2 14|2 proc main 0 0|version 2, 259 bytes
";

/// A plan of two procedures in both versions.
pub const SIZES_OF_LIFT: &str = "\
|version 1, 189 bytes
1 plan2 cup 2 11|2 proc main 0 0|15 proc lift 1 0|version 2, 192 bytes
";

// Each fault with its line, and which comes first, in a plan of two procedures.

/// Lines of both procedures, and names that one of them has.
pub const PROCEDURES: &str = "\
; the line of a procedure
15 proc 9 1|P1 { line: 15 }
15 proc lift|P1 { line: 15 }
15 proc lift 01|P1 { line: 15 }
15 proc lift 1 0|P1 { line: 15 }
15 proc  lift 1|P1 { line: 15 }
15 exit 0 0|P1 { line: 15 }
15 proc main 1|P2 { line: 15 }
15 proc main 5|P2 { line: 15 }
15 proc lift 5|P3 { line: 15 }
15 proc lift -1|P3 { line: 15 }
15 proc lift 256|P3 { line: 15 }
15 proc lift 99999999999|P3 { line: 15 }
15 proc lift 1|right
15 proc lift 4|right
15 ; a procedure/proc lift 1|right
15 proc lift 0|P3 { line: 17 }
15 proc start 1|P2 { line: 10 }
15 proc start 9|P3 { line: 15 }
; main needn't be called so, and another procedure may be
2 proc lid 0|10 call main|12 call main|15 proc main 1|right
2 proc lid 0|10 call lid|12 call lid|right
; its exit frame
16 exit 0|P1 { line: 16 }
16 exit 0 0,|P1 { line: 16 }
16 exit 0 0 0|P1 { line: 16 }
16 label up|P1 { line: 16 }
16 frame 0 0|P1 { line: 16 }
16 at 0 apart|P1 { line: 16 }
16 halt|P1 { line: 16 }
16 exits 0 0|P1 { line: 16 }
16  exit 0 0|P1 { line: 16 }
16 exit|P1 { line: 16 }
16 exit 32 0|P3 { line: 16 }
16 exit 0 2|P3 { line: 16 }
16 exit 0 1,0|P3 { line: 16 }
16 exit -1 0|P3 { line: 16 }
16 exit 0 -1|P3 { line: 16 }
16 exit 0 0,-1|P3 { line: 16 }
16 exit 0 00|P1 { line: 16 }
16 exit 0 ,|P1 { line: 16 }
16 exit 0 -,1|P1 { line: 16 }
16 exit 0 -|right
16 exit 31 0,1|right
16 ; an exit/exit 0 0|right
16 exit 0 0/exit 0 0|P1 { line: 17 }
16 exit 0 0/slot 0 0 3|P1 { line: 17 }
16 exit 0 0/guard 1|P1 { line: 17 }
16 exit 0 0/cost 1|P1 { line: 17 }
17 at 1 apart|P1 { line: 17 }
17 label up|P1 { line: 17 }
17 at 0 0 0 0|P1 { line: 17 }
17 at 0 0 0 0 1+1v1|P3 { line: 17 }
17 at 0 0 0 0 1+1v0+1v1|P3 { line: 17 }
17 at 0 0 0 0 1+1v123456|P3 { line: 17 }
17 at 0 0 0 0 1+1v01|P1 { line: 17 }
17 at 0 0 0 0 1+1v|P1 { line: 17 }
17 at 0 0 0 0 1+1v-1|P1 { line: 17 }
17 at 0 32 0 0 0|P3 { line: 17 }
17 at 0 apart|right
17 at 0 0 0-32768v0 0 0|right
18 label up|P1 { line: 18 }
18 halt|P1 { line: 18 }
18 at 0 0 0 0 0|P1 { line: 18 }
18 at 1 apart/at 2 apart|P5 { line: 19 }
18 at 1 apart/halt|P5 { line: 19 }
18 at 1 apart/; x//labels|P5 { line: 21 }
18 at 1 apart/label 9|P1 { line: 19 }
; its labels and its code
19 label main|right
19 label up|right
20 cost 2|P5 { line: 20 }
25 jump start|right
25 call main|right
25 call lift|right
26 ret/label start|P2 { line: 27 }
26 ret/label end/frame 0 0/cost 2/at 0 apart/at 1 apart|P4 { line: 27 }
; labels are known in their procedure only
19 label up|10 jump up|P2 { line: 10 }
19 label up|25 jump up|right
3 label down|25 jump down|P2 { line: 25 }
3 label down|10 jump down|right
; the first line with an unknown name, of labels and procedures together
10 call lid|25 jump up|P2 { line: 10 }
10 jump up|12 call lid|P2 { line: 10 }
12 call lid|10 jump start|P2 { line: 12 }
12 pick start up|25 call lid|P2 { line: 12 }
25 jump up|26 call lid|P2 { line: 25 }
; and only where all else is right
10 jump up|26 retx|P1 { line: 26 }
10 jump up|15 proc main 1|P2 { line: 15 }
10 call lid|26 retx|P1 { line: 26 }
10 call lid|15 proc main 1|P2 { line: 15 }
10 call lid|17 at 0 0 0 0 1+1v1|P3 { line: 17 }
10 call lid|26 ret/proc x 0|P1 { line: 28 }
10 call lid|26 ret/label up|P5 { line: 28 }
10 call lid|26 ret/label up/frame 0 0/cost 2/at 0 apart/at 1 apart|P4 { line: 27 }
; a label at the end of main's code
14 halt/label end/frame 0 -/cost 1/at 0 apart/at 1 apart|P4 { line: 15 }
14 halt/label end/frame 0 -/cost 1/at 0 apart/at 1 apart|15 proc main 9|P4 { line: 15 }
14 halt/label end/frame 0 -/cost 1/at 0 apart/at 1 apart|15 proc lift x|P1 { line: 20 }
14 halt/label end/frame 0 -/cost 1/at 0 apart/at 1 apart|15 proc 9 1|P1 { line: 20 }
; an exit that is missing, and main without code
14 halt/proc lid 0|P1 { line: 16 }
14 halt/proc lid 0/exit 0 -|P1 { line: 17 }
8 ;|9 ;|10 ;|11 ;|12 ;|13 ;|14 ;|P4 { line: 3 }
";
