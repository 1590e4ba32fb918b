//! Traps of a run.
ghost use Rattle.std.specs.Prelude.{◌≡◌};
ghost use Rattle.burr_explain.specs.Asked.{words_in};
ghost use Rattle.burr_explain.specs.Known.{trap_words};

use crate::explanation::{Explanation, Subject};

/// Traps 1 to 17.
pub fn traps() -> &'static [Explanation]
    ensures { words_in result.now ≡ trap_words }
{
    TRAPS
}

const TRAPS: &[Explanation] = &[
    Explanation {
        subject: Subject::Trap("1", "Collision"),
        meaning: "The step would make two pieces of the current tray overlap.",
        cause: "a step too far, or along a direction that is blocked.",
        remedy: "",
        example: "cubes A at 0 0 0 and B at 1 0 0

    grip 0
    step +x",
    },
    Explanation {
        subject: Subject::Trap("2", "GripOff"),
        meaning: "A piece that would be gripped is not in the current tray, is apart, or has a\n\
                  number that no piece has.",
        cause: "a piece that is apart already, or that went to another tray:\n\
                `tray` makes that one current first.",
        remedy: "",
        example: "cubes A and B side by side, both apart after the `aside`

    grip 0
    aside -x 1
    grip 0",
    },
    Explanation {
        subject: Subject::Trap("3", "NotFree"),
        meaning: "The gripped pieces are not free along the direction: somewhere on their way out\n\
                  they would overlap another piece of the tray.",
        cause: "the wrong direction, or a piece that is in the way farther out:\n\
                free for one unit is not enough.",
        remedy: "",
        example: "cubes A at 0 0 0 and B at 3 0 0

    grip 0
    aside +x 1",
    },
    Explanation {
        subject: Subject::Trap("4", "BadGroup"),
        meaning: "The grip is empty, or `aside` would take the whole tray.",
        cause: "no `grip` since the last `aside` or `tray`, which empty the grip.",
        remedy: "",
        example: "`tray` has emptied the grip

    grip 0
    tray 0
    step +z",
    },
    Explanation {
        subject: Subject::Trap("5", "TrayInUse"),
        meaning: "`aside` names a tray that has pieces.",
        cause: "the current tray, or one in which pieces still lie together.",
        remedy: "",
        example: "four cubes in a square; C and D go to tray 1 together

    grip 2,3
    aside +y 1
    grip 0
    aside -x 1",
    },
    Explanation {
        subject: Subject::Trap("6", "MissingOperand"),
        meaning: "The instruction takes more operands than there are. A `call` takes one for each\n\
                  parameter of its callee, a `ret` one for each result of its procedure.",
        cause: "a `push` too few, or a value that was stored or dropped before.",
        remedy: "",
        example: "`add` takes two operands, and there is one

    push 1
    add",
    },
    Explanation {
        subject: Subject::Trap("7", "StackFull"),
        meaning: "There would be more than eight operands. A `call` takes its arguments off, and\n\
                  then there has to be room for its callee's results.",
        cause: "operands that are kept where a slot would do, by `store`.",
        remedy: "",
        example: "with eight operands

    push 1",
    },
    Explanation {
        subject: Subject::Trap("8", "EmptySlot"),
        meaning: "The slot holds no value.",
        cause: "a slot that is read before any `store`, or the wrong slot.",
        remedy: "",
        example: "slot 1 is stored, and slot 2 is read

    push 5
    store 1
    load 2",
    },
    Explanation {
        subject: Subject::Trap("9", "BadJump"),
        meaning: "The procedure has no label of this number.",
        cause: "code that was not made from a plan text, which names its labels.",
        remedy: "",
        example: "`jump` to label 7 of a procedure that has fewer

    20 0007",
    },
    Explanation {
        subject: Subject::Trap("10", "BadCode"),
        meaning: "No instruction stands here: no such code, an operand out of its range, or code\n\
                  that ends before or within it.",
        cause: "a digit too many or too few in the code before it; no `halt`.",
        remedy: "",
        example: "`aside` to tray 32, and 31 is the last one

    12 01 20",
    },
    Explanation {
        subject: Subject::Trap("11", "BadCall"),
        meaning: "There is no such procedure, or its number is not above that of the procedure\n\
                  which calls it.",
        cause: "a procedure that calls itself or an earlier one.",
        remedy: "",
        example: "in procedure 1

    24 01",
    },
    Explanation {
        subject: Subject::Trap("12", "BadCount"),
        meaning: "The slot that `down` counts is below 0.",
        cause: "an answer or a difference below 0 that was stored as a counter.",
        remedy: "",
        example: "slot 0 is -1

    push -1
    store 0
    down 0 L",
    },
    Explanation {
        subject: Subject::Trap("13", "NumberRange"),
        meaning: "The sum or the difference lies outside -32,767 to 32,767.",
        cause: "a sum that grows in a loop.",
        remedy: "",
        example: "the sum would be 32,768

    push 32767
    push 1
    add",
    },
    Explanation {
        subject: Subject::Trap("14", "OffBench"),
        meaning: "A piece of the current tray would lie more than 256 units from its home along\n\
                  an axis.",
        cause: "a loop that makes too many steps; `aside` takes pieces out at once.",
        remedy: "",
        example: "A lies 256 units from home along +z

    grip 0
    step +z",
    },
    Explanation {
        subject: Subject::Trap("15", "NotApart"),
        meaning: "`halt` ends the run, and a piece is not apart.",
        cause: "a tray that still holds pieces together.",
        remedy: "",
        example: "three cubes in a row; M goes up, and A and C are left in tray 0

    grip 1
    aside +y 2
    halt",
    },
    Explanation {
        subject: Subject::Trap("16", "Misplaced"),
        meaning: "`ret` stands in main, or `halt` in another procedure.",
        cause: "code that was moved from one procedure to another.",
        remedy: "",
        example: "in main

    ret",
    },
    Explanation {
        subject: Subject::Trap("17", "ParamWritten"),
        meaning: "The slot is a parameter of the procedure, and parameters are not written.",
        cause: "a counter in a slot that is a parameter: `down` writes its slot.",
        remedy: "",
        example: "in a procedure with 1 parameter, which is slot 0

    push 5
    store 0",
    },
];
