//! Lines that burr prints beside refusals of texts and plans, and traps.
ghost use Rattle.std.specs.Prelude.{◌≡◌};
ghost use Rattle.burr_explain.specs.Asked.{words_in};
ghost use Rattle.burr_explain.specs.Known.{output_words};

use crate::explanation::{Explanation, Subject};

/// The refusals of answers, of sheets, of frames that are left out and of pairs of files; the closing
/// lines of sheets but traps, their levels and moves; and the verdict of a plan that is accepted.
pub fn lines() -> &'static [Explanation]
    ensures { words_in result.now ≡ output_words }
{
    LINES
}

const LINES: &[Explanation] = &[
    Explanation {
        subject: Subject::Refusal("answers"),
        meaning: "A line of the answers that were read from standard input is not an answer: `0`,\n\
                  or an optional `-` and digits that do not begin with 0, from -2147483648 to\n\
                  2147483647, and a line feed after it. The first such line is named, counted\n\
                  from 1. Without any bytes there are no answers, and that is no fault.",
        cause: "a last line without its line feed, two answers on one line, an\n\
                empty line, a blank, or `+2` or `02` in place of `2`; lines that end by carriage\n\
                return and line feed (CRLF).",
        remedy: "write each answer on a line of its own, as `echo 2` does. An answer\n\
                 that does not fit its question is no fault: it is passed over.",
        example: "the second answer has a plus sign; `refused answers line 2`

    1
    +2",
    },
    Explanation {
        subject: Subject::Refusal("sheet"),
        meaning: "`burr plan` can't go on at the line of the sheet that is named, counted from 1.\n\
                  It is not the next move line of this assembly's pieces, or with it the plan has\n\
                  more than 61,425 bytes of code, which is some 30,000 moves of a unit.",
        cause: "a number of a line left out or twice, pieces out of their order, a\n\
                name that the assembly does not have, `x` in place of `+x`, two lines that are\n\
                one since pieces, tray and direction are the same, or no line feed at the end.",
        remedy: "write each line as `burr run` prints it. A way out to any\n\
                 distance is one `out`, and needs no units.",
        example: "the second line has the number 3; `refused sheet line 2`

    1 t0 rod +z 3
    3 t0 rod +x 0 out",
    },
    Explanation {
        subject: Subject::Refusal("frame"),
        meaning: "`burr frames` finds nothing to put in place of the `auto` in the line that is\n\
                  named, counted from 1. No run comes there, whatever is answered, or the runs\n\
                  come there with pieces that no frame can tell of.",
        cause: "a label that nothing leads to; two ways that meet with a piece in\n\
                two trays, or with another grip; a loop in which a piece moves by no fixed\n\
                number of units for each count of a slot.",
        remedy: "the lines below show what was seen there. Let each way have a label\n\
                 of its own, or keep in a slot what differs, and then fill in the rest.",
        example: "nothing jumps to the label; `refused frame line 12`

    label spare
    auto",
    },
    Explanation {
        subject: Subject::Refusal("pair"),
        meaning: "A line of the list that `burr judge` reads is not two names of files with a tab\n\
                  between them. The lines after it are judged all the same.",
        cause: "blanks in place of the tab, a second tab, a name left out, an empty\n\
                line, a name that is not UTF-8, or a line of 8,192 bytes or more.",
        remedy: "write the assembly, a tab and the plan, by\n\
                 `printf '%s\\t%s\\n'`, say.",
        example: "the second line names no plan; `2 1 refused pair`

    examples/cup.assembly\texamples/cup.plan
    examples/duo.assembly",
    },
    Explanation {
        subject: Subject::Line("waiting"),
        meaning: "`waiting LO HI after N steps`: after N steps the run asks for a number of LO to\n\
                  HI, and no answer is left. `ask LO HI` asks for such a number; `pick` with k\n\
                  labels asks for 0 to k-1, which counts them from 0. Status 5.",
        cause: "too few answers on standard input, or none that fits: one that\n\
                does not fit its question is passed over.",
        remedy: "give one more number of LO to HI, on a line after the answers before\n\
                 it, and run again: each run begins at the start.",
        example: "`ask 0 2` comes after one step, and there are no answers

    levels -
    waiting 0 2 after 1 steps",
    },
    Explanation {
        subject: Subject::Line("stopped"),
        meaning: "`stopped after N steps`: the budget is used up, and the run has not ended. Bare\n\
                  code has a budget of 1,000,000 steps, a plan that of its `plan` line. Only `try`\n\
                  and bare code can be stopped, since `run` runs accepted plans alone. Status 1.",
        cause: "a loop that does not end, or a budget that is too small.",
        remedy: "let the loop end, or raise the budget; `check` says whether a plan's\n\
                 budget is enough.",
        example: "a plan with a budget of 2 that makes 3 steps to its end

    1 t0 A -x 0 out
    levels 1
    stopped after 2 steps",
    },
    Explanation {
        subject: Subject::Line("apart"),
        meaning: "`apart in N steps`: the run has ended, and all pieces are apart. A step is one\n\
                  instruction carried out, the `halt` at the end too. Status 0.",
        cause: "",
        remedy: "",
        example: "three instructions: `grip 0`, `aside -x 1` and `halt`

    1 t0 A -x 0 out
    levels 1
    apart in 3 steps",
    },
    Explanation {
        subject: Subject::Line("levels"),
        meaning: "`levels 8.1.2`: how many lines of the sheet led to each out. The first number\n\
                  counts the lines up to the first out, each next one those after the out before\n\
                  it, the out's own line too. `-` stands where nothing went out. This is of the\n\
                  plan, and not the level of the puzzle that catalogues print, unless the plan is\n\
                  a shortest one.",
        cause: "",
        remedy: "",
        example: "two lines to the first out, and one more to the second

    1 t0 A +z 2
    2 t0 A +x 0 out
    3 t0 B +y 0 out
    levels 2.1",
    },
    Explanation {
        subject: Subject::Line("accepted"),
        meaning: "`accepted cost C budget B looks N`: no run of the plan meets a trap or makes\n\
                  more than C steps, whatever it is answered. A step is one instruction carried\n\
                  out. C is the cost of main's first frame, and B the budget in the `plan` line,\n\
                  which is not below C. N says how much work the check was: a look is one question\n\
                  of two pieces at one point, at a `step` or an `aside`. Status 0.",
        cause: "",
        remedy: "",
        example: "what `check` prints of examples/cup.plan

    accepted cost 14 budget 14 looks 6",
    },
    Explanation {
        subject: Subject::Line("move"),
        meaning: "A line that begins with its number, counted from 1, is a move of the sheet. Next\n\
                  come the tray, as `t0`; the pieces that move together, with commas between them;\n\
                  the direction; and the number of unit steps. A last word `out` says that these\n\
                  pieces are then taken out of the tray, along the same direction.",
        cause: "",
        remedy: "",
        example: "in tray 0 A and B go up by 3 units together, and on out of the tray

    1 t0 A,B +z 3 out",
    },
];
