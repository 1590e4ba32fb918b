//! Refusals of a container.
ghost use Rattle.std.specs.Prelude.{◌≡◌};
ghost use Rattle.burr_explain.specs.Asked.{words_in};
ghost use Rattle.burr_explain.specs.Known.{container_words};

use crate::explanation::{Explanation, Subject};

/// C1 to C6.
pub fn faults() -> &'static [Explanation]
    ensures { words_in result.now ≡ container_words }
{
    FAULTS
}

const FAULTS: &[Explanation] = &[
    Explanation {
        subject: Subject::Refusal("C1"),
        meaning: "The container is cut short: it ends within a field. The position is its length.",
        cause: "a copy that broke off, or an empty file.",
        remedy: "",
        example: "it ends within the version, and `refused C1 at 5` is printed

    42504c4e 00",
    },
    Explanation {
        subject: Subject::Refusal("C2"),
        meaning: "The file does not begin with the bytes `BPLN`, so it is no container.",
        cause: "a plan text, which has to be assembled first, or another file.",
        remedy: "",
        example: "a plan text begins with `plan`; `refused C2 at 0`

    706c616e 20",
    },
    Explanation {
        subject: Subject::Refusal("C3"),
        meaning: "The version after the first four bytes is neither 1 nor 2.",
        cause: "a damaged file, or one that another program wrote.",
        remedy: "",
        example: "the version is 3; `refused C3 at 4`

    42504c4e 0003",
    },
    Explanation {
        subject: Subject::Refusal("C4"),
        meaning: "A number is out of its range, or the name is badly formed. A range's high end\n\
                  may not be below its low end, a frame's grip names the plan's pieces alone, a\n\
                  procedure has at most 2 results and main none, and the code goes on after the\n\
                  last label. The position is the field's first byte.",
        cause: "a damaged file, or one that was not made from a plan text.",
        remedy: "",
        example: "a plan of 1 piece, and 2 to 32 may be; `refused C4 at 10`

    42504c4e 0001 00000003 01",
    },
    Explanation {
        subject: Subject::Refusal("C5"),
        meaning: "A procedure's first label is not at the begin of its code, or a label does not\n\
                  stand after the label before it. The position is that of the label's place.",
        cause: "labels that are not sorted by their places, or two at one place.",
        remedy: "",
        example: "the first label is at 5; `refused C5 at 19`

    42504c4e 0001 00000003 02 03 64756f 01 00 0001 0005",
    },
    Explanation {
        subject: Subject::Refusal("C6"),
        meaning: "Bytes stand after the last procedure. The first of them is named.",
        cause: "a line feed that an editor put at the end, or two files in one.",
        remedy: "",
        example: "the end of 70 bytes, and one byte more; `refused C6 at 70`

    0009 10 00000001 12 01 01 00 0a",
    },
];
