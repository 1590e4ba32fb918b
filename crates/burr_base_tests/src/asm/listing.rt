//! How containers are listed, and the bytes that texts are assembled to.

/// Two cubes, listed with places.
pub const DUO_PLACES: &str = "version 1, 70 bytes\n\
     plan duo 2 3\n\
     proc p0 0\n\
     label L0\n\
     frame 0 -\n\
     cost 3\n\
     at 0 0 0 0 0\n\
     at 1 0 0 0 0\n\
     ; proc 0 pc 0\n\
     grip 0\n\
     ; proc 0 pc 5\n\
     aside -x 1\n\
     ; proc 0 pc 8\n\
     halt\n";

/// Two cubes, listed.
pub const LISTED_DUO: &str = "plan duo 2 3\n\
     proc p0 0\n\
     label L0\n\
     frame 0 -\n\
     cost 3\n\
     at 0 0 0 0 0\n\
     at 1 0 0 0 0\n\
     grip 0\n\
     aside -x 1\n\
     halt\n";

/// The counted loop, listed with places.
pub const RING_PLACES: &str = "version 1, 140 bytes\n\
     plan ring 2 11\n\
     proc p0 0\n\
     label L0\n\
     frame 0 -\n\
     cost 11\n\
     at 0 0 0 0 0\n\
     at 1 0 0 0 0\n\
     ; proc 0 pc 0\n\
     grip 0\n\
     ; proc 0 pc 5\n\
     push 2\n\
     ; proc 0 pc 8\n\
     store 0\n\
     label L1\n\
     frame 0 0\n\
     slot 0 0 2\n\
     cost 4+2v0\n\
     at 0 0 0 0 2-1v0\n\
     at 1 0 0 0 0\n\
     ; proc 0 pc 10\n\
     step +z\n\
     ; proc 0 pc 12\n\
     down 0 L1\n\
     ; proc 0 pc 16\n\
     aside +z 1\n\
     ; proc 0 pc 19\n\
     halt\n";

/// The question, listed with places: its labels are at 0, 16 and 24.
pub const CUP_PLACES: &str = "version 1, 258 bytes\n\
     plan cup 2 14\n\
     proc p0 0\n\
     label L0\n\
     frame 0 -\n\
     cost 14\n\
     at 0 0 0 0 0\n\
     at 1 0 0 0 0\n\
     ; proc 0 pc 0\n\
     grip 0\n\
     ; proc 0 pc 5\n\
     ask 0 2\n\
     ; proc 0 pc 10\n\
     store 0\n\
     ; proc 0 pc 12\n\
     load 0\n\
     ; proc 0 pc 14\n\
     store 1\n\
     label L1\n\
     frame 0 0\n\
     slot 0 0 2\n\
     slot 1 0 2\n\
     guard 0+1v0-1v1\n\
     cost 3+3v1\n\
     at 0 0 0 0 0+1v0-1v1\n\
     at 1 0 0 0 0\n\
     ; proc 0 pc 16\n\
     down 1 L2\n\
     ; proc 0 pc 20\n\
     aside +z 1\n\
     ; proc 0 pc 23\n\
     halt\n\
     label L2\n\
     frame 0 0\n\
     slot 0 0 2\n\
     slot 1 0 1\n\
     guard -1+1v0-1v1\n\
     cost 5+3v1\n\
     at 0 0 0 0 -1+1v0-1v1\n\
     at 1 0 0 0 0\n\
     ; proc 0 pc 24\n\
     step +z\n\
     ; proc 0 pc 26\n\
     jump L1\n";

/// The container of two cubes with a second label at its second byte, listed with places.
pub const SECOND_LABEL_PLACES: &str = "version 1, 110 bytes\n\
     plan duo 2 3\n\
     proc p0 0\n\
     label L0\n\
     frame 0 -\n\
     cost 3\n\
     at 0 0 0 0 0\n\
     at 1 0 0 0 0\n\
     ; proc 0 pc 0\n\
     byte 10\n\
     label L1\n\
     frame 0 -\n\
     cost 3\n\
     at 0 0 0 0 0\n\
     at 1 0 0 0 0\n\
     ; proc 0 pc 1\n\
     halt\n\
     ; proc 0 pc 2\n\
     halt\n\
     ; proc 0 pc 3\n\
     halt\n\
     ; proc 0 pc 4\n\
     push 4609\n\
     ; proc 0 pc 7\n\
     byte 01\n\
     ; proc 0 pc 8\n\
     halt\n";

/// A lift by a procedure, listed.
pub const LISTED_LIFT: &str = "plan cup 2 11\n\
     proc p0 0\n\
     label L0\n\
     frame 0 -\n\
     cost 11\n\
     at 0 0 0 0 0\n\
     at 1 0 0 0 0\n\
     grip 0\n\
     push 0\n\
     call p1\n\
     push 1\n\
     call p1\n\
     aside +z 1\n\
     halt\n\
     proc p1 1\n\
     exit 0 0\n\
     at 0 0 0 0 1+1v0\n\
     at 1 0 0 0 0\n\
     label L0\n\
     frame 0 0\n\
     slot 0 0 3\n\
     cost 2\n\
     at 0 0 0 0 0+1v0\n\
     at 1 0 0 0 0\n\
     step +z\n\
     ret\n";

/// A label of the same name in each of two procedures, second in one and first in the other.
pub const UPS: &str = "10 call lift/label up/frame 0 -/cost 1/at 0 apart/at 1 apart\
|12 jump up|19 label up|25 jump up|";

/// The listing of that: each goes to the label of its own procedure.
pub const LISTED_UPS: &str = "plan cup 2 11\n\
     proc p0 0\n\
     label L0\n\
     frame 0 -\n\
     cost 11\n\
     at 0 0 0 0 0\n\
     at 1 0 0 0 0\n\
     grip 0\n\
     push 0\n\
     call p1\n\
     label L1\n\
     frame 0 -\n\
     cost 1\n\
     at 0 apart\n\
     at 1 apart\n\
     push 1\n\
     jump L1\n\
     aside +z 1\n\
     halt\n\
     proc p1 1\n\
     exit 0 0\n\
     at 0 0 0 0 1+1v0\n\
     at 1 0 0 0 0\n\
     label L0\n\
     frame 0 0\n\
     slot 0 0 3\n\
     cost 2\n\
     at 0 0 0 0 0+1v0\n\
     at 1 0 0 0 0\n\
     jump L0\n\
     ret\n";

/// All that a frame may say, and all instructions.
pub const ALL: &str = "plan All_9- 3 1000000\n\
     proc p0 0\n\
     label L0\n\
     frame 31 -\n\
     slot 2 -32767 32767\n\
     slot 7 -1 -1\n\
     guard -2147483648-32768v2+32767v7\n\
     guard 0\n\
     stack 2147483647\n\
     stack 0+1v7\n\
     cost 0-1v2\n\
     at 0 31 0 1-1v2 2+1v7\n\
     at 1 apart\n\
     at 2 0 0 0 0\n\
     add\n\
     sub\n\
     drop\n\
     load 7\n\
     store 0\n\
     grip 0,2,31\n\
     step -x\n\
     aside +y 0\n\
     tray 31\n\
     jump L1\n\
     down 7 L0\n\
     ask -32767 32767\n\
     pick L1 L0 L1\n\
     pick L0 L0 L0 L0 L0 L0 L0 L1\n\
     call p1\n\
     call p0\n\
     ret\n\
     byte ff\n\
     byte 0f\n\
     label L1\n\
     frame 0 0,1,2\n\
     cost 0\n\
     at 0 apart\n\
     at 1 apart\n\
     at 2 apart\n\
     push -32767\n\
     halt\n\
     proc p1 4\n\
     exit 1 1\n\
     at 0 5 1-1v0 2+2v1-3v2 3+4v3\n\
     at 1 apart\n\
     at 2 0 0 0 0\n\
     label L0\n\
     frame 0 -\n\
     slot 0 0 0\n\
     cost 1\n\
     at 0 apart\n\
     at 1 apart\n\
     at 2 apart\n\
     ret\n";

/// The text of two cubes around its code.
pub const CODE_OF_DUO: &str = "\
plan duo 2 3/proc main 0/label start/frame 0 -/cost 3/at 0 0 0 0 0/at 1 0 0 0 0/@/;/;/";

/// Its listing around the code.
pub const LISTED_CODE_OF_DUO: &str = "\
plan duo 2 3/proc p0 0/label L0/frame 0 -/cost 3/at 0 0 0 0 0/at 1 0 0 0 0/@/";

/// Raw bytes in the place of the code of two cubes, and how they are listed.
pub const CODES: &str = "\
; no such label, no such procedure
byte 20/byte 00/byte 01|byte 20/halt/byte 01
byte 20/byte 00/byte 00|jump L0
byte 21/byte 00/byte 00/byte 01|byte 21/halt/halt/byte 01
byte 24/byte 00|call p0
byte 24/byte 01|byte 24/byte 01
byte 23/byte 02/byte 00/byte 00/byte 00/byte 00|pick L0 L0
byte 23/byte 02/byte 00/byte 00/byte 00/byte 01|byte 23/load 0/halt/halt/byte 01
; pieces that the plan hasn't
byte 10/byte 80/byte 00/byte 00/byte 04|grip 2,31
byte 10/byte 00/byte 00/byte 00/byte 00|byte 10/halt/halt/halt/halt
; operands out of range, and cut off
byte 01/byte 80/byte 00|byte 01/byte 80/halt
byte 01/byte 80/byte 01|push -32767
byte 11/byte 06|byte 11/drop
byte 05/byte 11|sub/byte 11
";
