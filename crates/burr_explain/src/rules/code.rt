//! Rules on the code of a plan: instructions, operands, slots and labels.
ghost use Rattle.std.specs.Prelude.{◌≡◌};
ghost use Rattle.burr_explain.specs.Asked.{words_in};
ghost use Rattle.burr_explain.specs.Known.{code_rule_words};

use crate::explanation::{Explanation, Subject};

/// V1 to V12.
pub fn rules() -> &'static [Explanation]
    ensures { words_in result.now ≡ code_rule_words }
{
    RULES
}

const RULES: &[Explanation] = &[
    Explanation {
        subject: Subject::Refusal("V1"),
        meaning: "The plan is one for another assembly: its name or its number of pieces differs.",
        cause: "files of two puzzles, or an assembly that was renamed.",
        remedy: "take the assembly and the plan that belong together; or correct the\n\
                 `plan` line, which names the assembly and counts its pieces, and assemble\n\
                 again.",
        example: "given with the assembly duo, which has 2 pieces

    plan ring 2 11",
    },
    Explanation {
        subject: Subject::Refusal("V2"),
        meaning: "No instruction stands here: no such code, an operand out of its range, or code\n\
                  that ends within the instruction.",
        cause: "a `byte` line, or a container that is damaged.",
        remedy: "write the instruction in place of its `byte` lines; where the text\n\
                 has none, assemble the plan again from its text.",
        example: "no instruction begins with ff

    byte ff",
    },
    Explanation {
        subject: Subject::Refusal("V3"),
        meaning: "A label stands inside an instruction, after its first byte.",
        cause: "`byte` lines that spell an instruction, with a label among them.",
        remedy: "put the label before the instruction's first byte or after its\n\
                 last one.",
        example: "a label at 1, and the `grip` at 0 has 5 bytes

    10 00000001 12 01 01 00",
    },
    Explanation {
        subject: Subject::Refusal("V4"),
        meaning: "A frame is missing: what stands before never goes on here, and without a label\n\
                  nothing says what holds here.",
        cause: "code after `jump`, `pick`, `halt` or `ret` that nothing reaches.",
        remedy: "put a label with its frame there; where nothing is to come there,\n\
                 take the lines out.",
        example: "no label stands after the `halt`

    halt
    drop",
    },
    Explanation {
        subject: Subject::Refusal("V5"),
        meaning: "The procedure goes on after its last instruction, where no code is.",
        cause: "a missing `halt` in main, or a missing `ret` in another procedure.",
        remedy: "end main with `halt`, another procedure with `ret`, or go back to a\n\
                 label with `jump`.",
        example: "the last lines of main

    grip 0
    aside -x 1",
    },
    Explanation {
        subject: Subject::Refusal("V6"),
        meaning: "The instruction takes more operands than there are. A `call` takes one for each\n\
                  parameter of its callee, a `ret` one for each result of its procedure.",
        cause: "a `push` too few, or a value that was stored or dropped before.",
        remedy: "count the operands from the last frame on, its `stack` lines first;\n\
                 put a `push` or `load` before.",
        example: "`add` takes two operands, and there is one

    push 1
    add",
    },
    Explanation {
        subject: Subject::Refusal("V7"),
        meaning: "There would be more than eight operands. A `call` takes its arguments off, and\n\
                  then there has to be room for its callee's results.",
        cause: "operands that are kept where a slot would do, by `store`.",
        remedy: "put operands into slots with `store`, or take those that nothing\n\
                 needs away with `drop`.",
        example: "with eight operands

    push 1",
    },
    Explanation {
        subject: Subject::Refusal("V8"),
        meaning: "Nothing is known of the slot's value. After a label the slots of its frame are\n\
                  known and no others, whatever was stored before.",
        cause: "a `slot` line too few in a frame, or a slot that was never stored.",
        remedy: "store into the slot before; after a label also give its frame a\n\
                 `slot` line for it, with its range.",
        example: "slot 1 was stored before L, and the frame names slot 0 alone

    label L
    frame 0 0
    slot 0 0 2
    cost 4+2v0
    at 0 0 0 0 0
    at 1 0 0 0 0
    load 1",
    },
    Explanation {
        subject: Subject::Refusal("V9"),
        meaning: "The slot is a parameter of the procedure, and parameters are not written.",
        cause: "a counter in a slot that is a parameter: `down` writes its slot.",
        remedy: "copy the parameter into a slot that is not a parameter, with\n\
                 `load` and `store`, and count in that one.",
        example: "in a procedure with 1 parameter, which is slot 0

    push 5
    store 0",
    },
    Explanation {
        subject: Subject::Refusal("V10"),
        meaning: "The procedure has no label of this number.",
        cause: "a container that was not made from a plan text.",
        remedy: "assemble the plan from its text, where labels have names.",
        example: "`jump` to label 7 of a procedure that has fewer

    20 0007",
    },
    Explanation {
        subject: Subject::Refusal("V11"),
        meaning: "The slot that `down` counts may be below 0 here, at the point that is named.",
        cause: "a frame or an `ask` that lets the counter begin below 0.",
        remedy: "let the range of the `slot`, `ask` or `result` line begin at 0, or\n\
                 add a `guard` that is below 0 at the point named.",
        example: "answer -1 makes a counter of -1

    ask -1 2
    store 0
    down 0 L",
    },
    Explanation {
        subject: Subject::Refusal("V12"),
        meaning: "The sum or the difference may lie outside -32,767 to 32,767; the point that is\n\
                  named shows where it does.",
        cause: "a `slot`, `ask` or `result` range that is wider than it has to be.",
        remedy: "make the range of the `slot`, `ask` or `result` line smaller, or add\n\
                 a `guard` that is below 0 at the point named.",
        example: "answer 4 makes 32,768

    ask 0 4
    push 32764
    add",
    },
];
