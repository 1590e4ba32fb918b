//! Rules on calls, frames, costs and forms.
ghost use Rattle.std.specs.Prelude.{◌≡◌};
ghost use Rattle.burr_explain.specs.Asked.{words_in};
ghost use Rattle.burr_explain.specs.Known.{frame_rule_words};

use crate::explanation::{Explanation, Subject};

/// V19 to V28.
pub fn rules() -> &'static [Explanation]
    ensures { words_in result.now ≡ frame_rule_words }
{
    RULES
}

const RULES: &[Explanation] = &[
    Explanation {
        subject: Subject::Refusal("V19"),
        meaning: "There is no such procedure, or its number is not above that of the procedure\n\
                  which calls it.",
        cause: "a procedure that calls itself or an earlier one.",
        remedy: "put the procedure after all that call it; in place of a call of\n\
                 itself write a loop.",
        example: "in the procedure lift itself

    call lift",
    },
    Explanation {
        subject: Subject::Refusal("V20"),
        meaning: "What holds at the `call` does not meet the callee's first frame. First are\n\
                  compared the current tray, the grip, and for each piece whether it is apart or\n\
                  else its tray: a failure there names no point. Next, at each point, the\n\
                  arguments in their slots' ranges, the guards, and the offsets of the pieces: the\n\
                  first point at which one of them fails is named. Where the state at the `call`\n\
                  has no open numbers there is no point to name, so a refusal without a point may\n\
                  also be a wrong argument, guard or offset.",
        cause: "pieces moved or gripped between two calls, or a wrong argument.",
        remedy: "put the callee's `at` lines, with the arguments in their slots,\n\
                 beside where the pieces are before the `call`. Without a point compare the\n\
                 current tray, the grip and the trays of the pieces first; where they agree,\n\
                 and with a point always, each argument, guard and offset. Then change the\n\
                 moves before, the argument, or the callee's first frame.",
        example: "lift takes how far up A is, and A is at home

    push 1
    call lift",
    },
    Explanation {
        subject: Subject::Refusal("V21"),
        meaning: "What holds here does not meet the label's frame. First are compared the current\n\
                  tray, the grip, the number of operands, for each piece whether it is apart or\n\
                  else its tray, and that each slot of the frame is known: a failure there names\n\
                  no point. Next, at each point, the slots' ranges, the guards, the operands, the\n\
                  offsets of the pieces, and the cost that is left, which may not be below the\n\
                  frame's: the first point at which one of them fails is named. Where the state\n\
                  that comes has no open numbers there is no point to name, so a refusal without\n\
                  a point may also be a wrong range, guard, operand, offset or cost.",
        cause: "a loop that moves a piece whose `at` line does not count it.",
        remedy: "without a point, compare current tray, grip, number of operands,\n\
                 trays of pieces and live slots with the frame's; where they agree, nothing is\n\
                 open, and each slot, guard, operand, offset and the cost is a single number to\n\
                 compare. With a point, put its numbers in on both sides, and compare each slot\n\
                 with its range, each guard, operand and offset, and last the cost.",
        example: "A goes up by each turn, and its `at` line leaves it where it is

    label L
    frame 0 0
    slot 0 0 2
    cost 4+2v0
    at 0 0 0 0 0
    at 1 0 0 0 0
    step +z
    down 0 L",
    },
    Explanation {
        subject: Subject::Refusal("V22"),
        meaning: "What holds at the `ret` does not meet the procedure's exit frame. First are\n\
                  compared the current tray, the grip, and for each piece whether it is apart or\n\
                  else its tray: a failure there names no point. Next, at each point, the results,\n\
                  which are the topmost operands, in their ranges, the exit frame's guards, and\n\
                  the offsets of the pieces: the first point at which one of them fails is named.\n\
                  Where the state at the `ret` has no open numbers there is no point to name, so\n\
                  a refusal without a point may also be a wrong result, guard or offset. Slots\n\
                  and the operands below the results are not compared. A `ret` in main and a\n\
                  `halt` in another procedure are V22 too.",
        cause: "a path through the procedure on which a step is missing, a\n\
                `result` range that is too narrow, or two results in the wrong order: the one\n\
                that was pushed last is the last one.",
        remedy: "compare current tray, grip and trays of pieces with the exit frame;\n\
                 where they agree, and with a point always, each result with its range, each\n\
                 guard and each offset, with the parameters' and results' values in the exit\n\
                 frame's forms. End main with `halt`, other procedures with `ret`.",
        example: "in main

    ret",
    },
    Explanation {
        subject: Subject::Refusal("V23"),
        meaning: "`halt` ends the run, and a piece is not apart.",
        cause: "a tray that still holds pieces together.",
        remedy: "make each tray that still has pieces current with `tray`, and take\n\
                 its pieces out, before the `halt`.",
        example: "three cubes in a row; M goes up, and A and C are left in tray 0

    grip 1
    aside +y 2
    halt",
    },
    Explanation {
        subject: Subject::Refusal("V24"),
        meaning: "The cost that is left is below what is needed: each instruction takes 1, and a\n\
                  `call` its callee's cost too.",
        cause: "an instruction more, and no more in the `cost` lines before it.",
        remedy: "raise the cost of the frame before to the number of steps from\n\
                 there to the end, a call counted as 1 and its callee's cost; then the costs of\n\
                 the frames that lead there, and the budget.",
        example: "three instructions after a frame whose cost is 2

    cost 2
    at 0 0 0 0 0
    at 1 0 0 0 0
    grip 0
    aside -x 1
    halt",
    },
    Explanation {
        subject: Subject::Refusal("V25"),
        meaning: "Too much is open at once: more than 8 slots, answers and results, more than 8\n\
                  guards, or more than 4,096 points, which are all ways to choose these numbers. A\n\
                  `call` opens each result of its callee and adds the guards of its exit frame.",
        cause: "several wide `slot`, `ask` or `result` ranges in one frame's code.",
        remedy: "make ranges smaller; or put a label in between whose frame has only\n\
                 the slots that are still needed, since a frame forgets all others.",
        example: "4,097 answers

    ask 0 4096",
    },
    Explanation {
        subject: Subject::Refusal("V26"),
        meaning: "A form is too large: a number in it would pass 2^40, above or below, though what\n\
                  it comes to may be small.",
        cause: "forms that are added again and again and cancel each other out.",
        remedy: "store the value in a slot and put a label after it whose frame has\n\
                 the slot with its range: from there on its form is small.",
        example: "-5+1v0 on top with slot 0 in 5..5, which is 0; these lines 40 times

    store 1
    load 1
    load 1
    add",
    },
    Explanation {
        subject: Subject::Refusal("V27"),
        meaning: "A frame is malformed: a parameter has no `slot` line, a first frame an operand\n\
                  or another slot, a grip is not in its tray, or a tray has a single piece; or the\n\
                  start, with all pieces at home in tray 0, does not meet main's first frame.",
        cause: "a piece that is left alone in its tray, which makes it apart.",
        remedy: "correct the frame: a `slot` line for each parameter and, in a first\n\
                 frame, for nothing else; grip only what lies in its tray; a piece alone in its\n\
                 tray is `apart`; main begins with all pieces in tray 0 at 0 0 0 and no grip.",
        example: "B is alone in tray 0, so its line has to be `at 1 apart`

    at 0 apart
    at 1 0 0 0 0",
    },
    Explanation {
        subject: Subject::Refusal("V28"),
        meaning: "The plan's budget is below the cost of main's first frame.",
        cause: "a cost that was raised, and not the budget in the `plan` line.",
        remedy: "raise the budget in the `plan` line to the cost of main's first\n\
                 frame.",
        example: "the budget is 10, and the cost 11

    plan ring 2 10
    proc main 0
    label start
    frame 0 -
    cost 11",
    },
];
