//! Rules on the pieces: grips, steps, ways out and trays.
ghost use Rattle.std.specs.Prelude.{◌≡◌};
ghost use Rattle.burr_explain.specs.Asked.{words_in};
ghost use Rattle.burr_explain.specs.Known.{space_rule_words};

use crate::explanation::{Explanation, Subject};

/// V13 to V18.
pub fn rules() -> &'static [Explanation]
    ensures { words_in result.now ≡ space_rule_words }
{
    RULES
}

const RULES: &[Explanation] = &[
    Explanation {
        subject: Subject::Refusal("V13"),
        meaning: "A piece that would be gripped is not in the current tray, is apart, or has a\n\
                  number that no piece has.",
        cause: "a piece that is apart already, or that went to another tray:\n\
                `tray` makes that one current first.",
        remedy: "put `tray` with the piece's tray before the `grip`; leave out\n\
                 pieces that are apart.",
        example: "cubes A and B side by side, both apart after the `aside`

    grip 0
    aside -x 1
    grip 0",
    },
    Explanation {
        subject: Subject::Refusal("V14"),
        meaning: "The grip is empty, or `aside` would take the whole tray.",
        cause: "no `grip` since the last `aside` or `tray`, which empty the grip.",
        remedy: "put a `grip` before; for `aside` leave a piece of the tray out of\n\
                 it.",
        example: "`tray` has emptied the grip

    grip 0
    tray 0
    step +z",
    },
    Explanation {
        subject: Subject::Refusal("V15"),
        meaning: "The step may make two pieces of the tray overlap: the first one named, which is\n\
                  gripped, and the other one, at the point that is named.",
        cause: "a step too far, a direction that is blocked, a frame without the\n\
                `guard` that leaves such points out, or a slot in which only each fourth number\n\
                occurs, as 0, 4, 8 and 12.",
        remedy: "ask whether a run can come to the point named. Where none can, add\n\
                 a `guard` that is below 0 there to the last frame, or make a range smaller; of\n\
                 a slot with strides count the periods, 0 to 3, and write `0+4v0` in the forms.\n\
                 Where one can, step along another direction or less far, or take the other\n\
                 piece out first.",
        example: "cubes A at 0 0 0 and B at 1 0 0

    grip 0
    step +x",
    },
    Explanation {
        subject: Subject::Refusal("V16"),
        meaning: "The gripped pieces may not be free along the direction: somewhere on its way out\n\
                  the first piece named would overlap the other one, at the point that is named.",
        cause: "the wrong direction, or a piece that is in the way farther out:\n\
                free for one unit is not enough.",
        remedy: "as for V15: leave the point out by a `guard` or a smaller range; or\n\
                 take another direction, step the grip to where its way is free, or take the\n\
                 other piece out first.",
        example: "cubes A at 0 0 0 and B at 3 0 0

    grip 0
    aside +x 1",
    },
    Explanation {
        subject: Subject::Refusal("V17"),
        meaning: "`aside` names a tray that has pieces.",
        cause: "the current tray, or one in which pieces still lie together.",
        remedy: "name a tray that has no piece at this place; the last frame's `at`\n\
                 lines and the `aside` lines after it say which do.",
        example: "four cubes in a square; C and D go to tray 1 together

    grip 2,3
    aside +y 1
    grip 0
    aside -x 1",
    },
    Explanation {
        subject: Subject::Refusal("V18"),
        meaning: "A piece of the current tray may lie more than 256 units from its home along an\n\
                  axis, at the point that is named.",
        cause: "a loop that makes too many steps; `aside` takes pieces out at once.",
        remedy: "make the range that counts the steps smaller, or take the piece out\n\
                 with `aside`, which needs no steps.",
        example: "A lies 256 units from home along +z

    grip 0
    step +z",
    },
];
