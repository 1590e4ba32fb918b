//! Refusals of an input and of its assembly text.
ghost use Rattle.std.specs.Prelude.{◌≡◌};
ghost use Rattle.burr_explain.specs.Asked.{words_in};
ghost use Rattle.burr_explain.specs.Known.{assembly_words};

use crate::explanation::{Explanation, Subject};

/// `input`, and A1 to A8.
pub fn faults() -> &'static [Explanation]
    ensures { words_in result.now ≡ assembly_words }
{
    FAULTS
}

const FAULTS: &[Explanation] = &[
    Explanation {
        subject: Subject::Refusal("input"),
        meaning: "The last line of the input is not one of code: `code `, 1 to 4,096 bytes of two\n\
                  lower case hexadecimal digits each, and a line feed. It is judged first.",
        cause: "no code line, or an empty line after it; no line feed at its\n\
                end; lines that end by carriage return and line feed (CRLF); a byte order mark\n\
                before `code`; upper case digits, an odd number of them, or a blank among or\n\
                after them.",
        remedy: "",
        example: "a digit in upper case

    code 10000000011201010A",
    },
    Explanation {
        subject: Subject::Refusal("A1"),
        meaning: "No line of this form may stand here, or the text ends too early: within a shape,\n\
                  or before the first `end`. A last line without its line feed is A1 too.",
        cause: "a blank too many, also at a line's begin or end; a tab, an empty\n\
                line or a comment; a number such as `+1` or `01`; lines that end by carriage\n\
                return and line feed (CRLF); a byte order mark before the first line.",
        remedy: "",
        example: "two blanks between two words

    piece B cube  +x+y+z 1 0 0",
    },
    Explanation {
        subject: Subject::Refusal("A2"),
        meaning: "A name is badly formed or taken. A name is 1 to 32 of `A-Z a-z 0-9 _ -` and\n\
                  begins with a letter. No two shapes share a name, and no two pieces.",
        cause: "a copied line whose name was not changed, or a name that begins\n\
                with a digit.",
        remedy: "",
        example: "the second piece has the name of the first one

    piece A cube +x+y+z 0 0 0
    piece A cube +x+y+z 1 0 0",
    },
    Explanation {
        subject: Subject::Refusal("A3"),
        meaning: "A shape is drawn unevenly, too large, or with no cell. All its rows are equally\n\
                  wide and all its layers have equally many rows, with at most 16 marks, 16 rows\n\
                  and 16 layers; 1 to 512 marks are `#`.",
        cause: "a row with a mark too few, or a layer with a row too few.",
        remedy: "",
        example: "the second row is wider than the first one

    shape ell
    layer
    #.
    ###
    end",
    },
    Explanation {
        subject: Subject::Refusal("A4"),
        meaning: "The orientation is not one of the 24 turns. It says where the shape's x, y and\n\
                  z axes point, as `+x+y+z` or `-y+x+z`. Mirrors are not among them.",
        cause: "one sign turned round alone, a mirror; or an axis named twice.",
        remedy: "",
        example: "the x axis alone is turned round

    piece B cube -x+y+z 1 0 0",
    },
    Explanation {
        subject: Subject::Refusal("A5"),
        meaning: "A coordinate of the piece's place lies outside -64 to 64.",
        cause: "a digit too many, or an assembly that is drawn far from 0 0 0.",
        remedy: "",
        example: "x is 65

    piece B cube +x+y+z 65 0 0",
    },
    Explanation {
        subject: Subject::Refusal("A6"),
        meaning: "No shape of this name is drawn above the pieces.",
        cause: "a slip in the shape's name; `Cube` and `cube` are two names.",
        remedy: "",
        example: "the only shape is named cube

    piece B Cube +x+y+z 1 0 0",
    },
    Explanation {
        subject: Subject::Refusal("A7"),
        meaning: "There is a 33rd shape or piece; or the text ends with fewer than 2 pieces, where\n\
                  the line after the last one is named.",
        cause: "an assembly of one piece, which cannot come apart.",
        remedy: "",
        example: "the text ends after its first piece

    end
    piece A cube +x+y+z 0 0 0",
    },
    Explanation {
        subject: Subject::Refusal("A8"),
        meaning: "The piece shares a cell with an earlier one. Both are named: the earliest piece\n\
                  with which it does, and the new one.",
        cause: "two pieces at one place; or a turn that was not reckoned with: a\n\
                shape turns about its cell 0 0 0 and not about its middle.",
        remedy: "",
        example: "both cubes stand at 0 0 0

    piece A cube +x+y+z 0 0 0
    piece B cube +x+y+z 0 0 0",
    },
];
