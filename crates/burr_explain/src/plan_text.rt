//! Refusals of a plan text.
ghost use Rattle.std.specs.Prelude.{◌≡◌};
ghost use Rattle.burr_explain.specs.Asked.{words_in};
ghost use Rattle.burr_explain.specs.Known.{plan_text_words};

use crate::explanation::{Explanation, Subject};

/// P1 to P5.
pub fn faults() -> &'static [Explanation]
    ensures { words_in result.now ≡ plan_text_words }
{
    FAULTS
}

const FAULTS: &[Explanation] = &[
    Explanation {
        subject: Subject::Refusal("P1"),
        meaning: "The line is not of the grammar, may not stand here or has no line feed, or the\n\
                  text ends too early. Results are for texts that begin with `plan2`: there each\n\
                  `proc` line ends with their number, and as many `result` lines follow `exit`.",
        cause: "a misspelt word, one in upper case, an `at` or a `result` line too\n\
                few; indented lines, tabs, a blank too many or at a line's end; lines that end\n\
                by carriage return and line feed (CRLF), a byte order mark; `4+v0` in place of\n\
                `4+1v0`, or `1v0` in place of `0+1v0`; a comment after the words of a line: `;`\n\
                makes a comment only as a line's first byte; or a word `auto`.",
        remedy: "fill in what `auto` stands for by `burr frames`.",
        example: "a comment after the words of a line

    push 2 ; two units",
    },
    Explanation {
        subject: Subject::Refusal("P2"),
        meaning: "A name is taken already, or nothing has it. A label is known in its procedure\n\
                  alone. Names that nothing has are named last, after all other faults.",
        cause: "a slip in a name, or a label of another procedure.",
        remedy: "",
        example: "the labels of the procedure are start and L

    jump l",
    },
    Explanation {
        subject: Subject::Refusal("P3"),
        meaning: "A number, a set or a form is out of its range, or a form names a slot that is\n\
                  not live: one without a `slot` line in its frame. In an exit frame v0, v1, ..\n\
                  are the parameters and then the results, and nothing else is live. Main has\n\
                  neither; another procedure has at most 4 parameters and 2 results. Slots and\n\
                  the pieces of a set stand in rising order.",
        cause: "a `slot` line that is missing, or a set such as `2,0`.",
        remedy: "",
        example: "the frame has slot 0 alone, and its cost names slot 1

    frame 0 0
    slot 0 0 2
    cost 4+2v1",
    },
    Explanation {
        subject: Subject::Refusal("P4"),
        meaning: "There is too much: a 17th procedure, a 257th label, a 5th guard of a frame or an\n\
                  exit frame, a 9th operand of a frame or more than 4,096 bytes of code; or two\n\
                  labels stand at one place, or a label at the end of the code.",
        cause: "two labels with no instruction between; one can serve for both.",
        remedy: "",
        example: "label M stands where L does

    label L
    frame 0 -
    cost 4
    at 0 0 0 0 0
    at 1 0 0 0 0
    label M",
    },
    Explanation {
        subject: Subject::Refusal("P5"),
        meaning: "No `frame` is next after `label`, or a procedure's first label is missing: its\n\
                  code begins with a label and that label's frame.",
        cause: "code right after the `proc` line, a label without a frame, or a\n\
                `frame` line that is indented or in upper case; or a line `auto`.",
        remedy: "fill in what `auto` stands for by `burr frames`.",
        example: "code where main's first label is due

    proc main 0
    grip 0",
    },
];
