//! Lines of the stepper.
ghost use Rattle.std.specs.Prelude.{◌≡◌};
ghost use Rattle.burr_explain.specs.Asked.{words_in};
ghost use Rattle.burr_explain.specs.Known.{stepper_words};

use crate::explanation::{Explanation, Subject};

/// The refusals of the stepper's commands, and what it says of one that it has taken.
pub fn lines() -> &'static [Explanation]
    ensures { words_in result.now ≡ stepper_words }
{
    LINES
}

const LINES: &[Explanation] = &[
    Explanation {
        subject: Subject::Refusal("S1"),
        meaning: "The run has ended: all pieces are apart, and no step follows the `halt`. So\n\
                  `forward`, `over`, `until` and `answer` are refused. Nothing has changed.",
        cause: "one command too many; the last line said `ended`.",
        remedy: "go back, as by `back 1`, look at the state by `show`, or `quit`.",
        example: "the run of examples/duo.plan has 3 steps

    until 0 0
    after 3 steps ended
    forward
    refused S1",
    },
    Explanation {
        subject: Subject::Refusal("S2"),
        meaning: "The run waits for an answer, so `forward`, `over` and `until` are refused. The\n\
                  last line said `asks LO HI`: a number of LO to HI is wanted. Nothing has\n\
                  changed.",
        cause: "a question that was not answered; `over` and `until` stop at one\n\
                too.",
        remedy: "give a number of LO to HI, as by `answer 2`, or go back.",
        example: "the second step of examples/cup.plan asks for 0 to 2

    forward
    after 1 steps asks 0 2
    forward
    refused S2",
    },
    Explanation {
        subject: Subject::Refusal("S3"),
        meaning: "The run has not ended, and the answer fits no question: it lies outside the\n\
                  range that is asked for, or nothing is asked. Nothing has changed: unlike an\n\
                  answer of `run`, it is not passed over.",
        cause: "an answer before the question, or one out of its range.",
        remedy: "go on to the question by `forward` or `until`, and answer within its\n\
                 range.",
        example: "the second step of examples/cup.plan asks for 0 to 2

    forward
    after 1 steps asks 0 2
    answer 5
    refused S3",
    },
    Explanation {
        subject: Subject::Refusal("S4"),
        meaning: "`back N` with more steps than the run has made. Nothing has changed.",
        cause: "a count from the sheet, whose lines are moves and not steps.",
        remedy: "go back by at most as many steps as the last line has after `after`.",
        example: "two steps were made

    after 2 steps
    back 3
    refused S4",
    },
    Explanation {
        subject: Subject::Refusal("command"),
        meaning: "A line that is no command of the stepper: `forward`, `over`, `until P L`,\n\
                  `answer N`, `back N`, `show` or `quit`, in small letters, with one blank before\n\
                  each number. Numbers have no plus sign and no zero in front. The plan has a\n\
                  label L in its procedure P, both counted from 0. Nothing has changed.",
        cause: "a line of blanks, or an empty one; a blank or a carriage return at\n\
                its end; a label's name in place of its number; a line of more than 64 bytes.",
        remedy: "look up the label's number by `list`: L0 is label 0 of its\n\
                 procedure.",
        example: "the plan has one label

    until 0 9
    refused command
    Forward
    refused command",
    },
    Explanation {
        subject: Subject::Line("after"),
        meaning: "`after N steps`: a command of the stepper was taken, and the run has made N\n\
                  steps now. `asks LO HI` says that it waits for a number of LO to HI, and `ended`\n\
                  that all pieces are apart. Of `show` the line has `proc P pc C` after it: the\n\
                  procedure that runs, and where in its code the next instruction begins.",
        cause: "",
        remedy: "",
        example: "examples/cup.plan

    forward
    after 1 steps asks 0 2",
    },
];
