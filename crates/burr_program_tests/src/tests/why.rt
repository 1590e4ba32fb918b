//! Why plan texts are refused: the lines that are named, and what is said of them.
use super::results::LIFT;
use super::transcript::{assert_examples, assert_transcript};

/// A plan that is accepted, and faults of plan texts.
const TEXTS: &str = "\
@cup.plan
=x.plan
$burr why cup x.plan
>accepted cost 14 budget 14 looks 6
?0
@cup.plan
/ask 0 2/ask 2 0
=x.plan
$burr why cup x.plan
>refused P3 line 9
>x.plan:9: ask 2 0
>    LO stands before HI, and is above it
>A number, a set or a form is out of its range, or a form names a slot that is
>not live: one without a `slot` line in its frame.
>`burr explain P3` says more
?1
@cup.plan
/down 1 M/down 1 N
=x.plan
$burr why cup x.plan
>refused P2 line 21
>x.plan:21: down 1 N
>    no label of this procedure has the name `N`
>A name is taken already, or nothing has it.
>`burr explain P2` says more
?1
@cup.plan
/jump L/jump L;
=x.plan
$burr why cup x.plan
>refused P1 line 33
>x.plan:33: jump L;
>    a comment stands on a line of its own, which begins with `;`
>The line is not of the grammar, may not stand here or has no line feed, or the
>text ends too early.
>`burr explain P1` says more
?1
@duo
/piece B cube +x+y+z 1/piece B cube +x+y+z 0
=clash
$burr why clash duo.plan
>refused A8 line 7 A B
>clash:7: piece B cube +x+y+z 0 0 0
>The piece shares a cell with an earlier one.
>`burr explain A8` says more
?1
$burr why cup none
!cannot read none
?3
";

/// Code without instructions or an end, operands, slots.
const CODE: &str = "\
@duo.plan
=x.plan
$burr why ring x.plan
>refused V1 proc 0 pc 0
>x.plan:1: plan duo 2 3
>    the assembly is ring and has 2 pieces
>The plan is one for another assembly: its name or its number of pieces differs.
>`burr explain V1` says more
?1
@ring.plan
/step +z/byte 11
=x.plan
$burr why ring x.plan
>refused V2 proc 0 pc 10
>x.plan:17: byte 11
>    in main, after label L
>    no instruction begins with these bytes
>No instruction stands here: no such code, an operand out of its range, or code
>that ends within the instruction.
>`burr explain V2` says more
?1
@ring.plan
/down 0 L/down 1 L
=x.plan
$burr why ring x.plan
>refused V8 proc 0 pc 12
>x.plan:18: down 1 L
>    in main, after label L
>    slot 1 is not known
>x.plan:12: frame 0 0
>    this frame has no line of slot 1
>Nothing is known of the slot's value.
>`burr explain V8` says more
?1
@ring.plan
/push 2/drop
=x.plan
$burr why ring x.plan
>refused V6 proc 0 pc 5
>x.plan:9: drop
>    in main, after label start
>    operands: 0 are there, 1 are needed
>The instruction takes more operands than there are.
>`burr explain V6` says more
?1
@ring.plan
/halt/tray 0
=x.plan
$burr why ring x.plan
>refused V5 proc 0 pc 19
>x.plan:20: tray 0
>    in main, after label L
>    the code ends here, and this instruction goes on after it
>The procedure goes on after its last instruction, where no code is.
>`burr explain V5` says more
?1
@cup.plan
/ask 0 2/ask -1 2
/slot 0 0 2/slot 0 -1 2
/slot 1 0 2/slot 1 -1 2
=x.plan
$burr why cup x.plan
>refused V11 proc 0 pc 16 point -1 -1
>x.plan:21: down 1 M
>    in main, after label L
>    slot 1 is -1, and counts down from 0 or more
>    where slot 0 is -1, slot 1 is -1
>x.plan:16: slot 1 -1 2
>The slot that `down` counts may be below 0 here, at the point that is named.
>`burr explain V11` says more
?1
";

/// Pieces that can't be gripped or moved so.
const SPACE: &str = "\
@cup.plan
/guard 0+1v0-1v1/;
/guard -1+1v0-1v1/;
=x.plan
$burr why cup x.plan
>refused V15 proc 0 pc 24 pieces A B point 0 1
>x.plan:32: step +z
>    in main, after label M
>    after it A and B overlap at cell 1 1 0
>    where slot 0 is 0, slot 1 is 1
>x.plan:25: frame 0 0
>    gripped: A
>x.plan:30: at 0 0 0 0 -1+1v0-1v1
>x.plan:31: at 1 0 0 0 0
>The step may make two pieces of the tray overlap: the first one named, which is
>gripped, and the other one, at the point that is named.
>`burr explain V15` says more
?1
@duo.plan
/aside -x 1/aside +x 1
=x.plan
$burr why duo x.plan
>refused V16 proc 0 pc 5 pieces A B
>x.plan:9: aside +x 1
>    in p0, after label L0
>    A and B overlap at cell 1 0 0, 1 along +x
>x.plan:8: grip 0
>    gripped: A
>x.plan:6: at 0 0 0 0 0
>x.plan:7: at 1 0 0 0 0
>The gripped pieces may not be free along the direction: somewhere on its way out
>the first piece named would overlap the other one, at the point that is named.
>`burr explain V16` says more
?1
@duo.plan
/grip 0/grip 0,1
=x.plan
$burr why duo x.plan
>refused V14 proc 0 pc 5
>x.plan:9: aside -x 1
>    in p0, after label L0
>    all pieces of tray 0 are gripped
>x.plan:8: grip 0,1
>The grip is empty, or `aside` would take the whole tray.
>`burr explain V14` says more
?1
@duo.plan
/grip 0/tray 3
=x.plan
$burr why duo x.plan
>refused V14 proc 0 pc 2
>x.plan:9: aside -x 1
>    in p0, after label L0
>    nothing is gripped
>x.plan:4: frame 0 -
>The grip is empty, or `aside` would take the whole tray.
>`burr explain V14` says more
?1
@duo.plan
/aside -x 1/aside -x 0
=x.plan
$burr why duo x.plan
>refused V17 proc 0 pc 5
>x.plan:9: aside -x 0
>    in p0, after label L0
>    tray 0 has A
>x.plan:6: at 0 0 0 0 0
>`aside` names a tray that has pieces.
>`burr explain V17` says more
?1
@ring.plan
/halt/grip 0
=x.plan
$burr why ring x.plan
>refused V13 proc 0 pc 19
>x.plan:20: grip 0
>    in main, after label L
>    the current tray is 0
>    A is apart
>x.plan:15: at 0 0 0 0 2-1v0
>A piece that would be gripped is not in the current tray, is apart, or has a
>number that no piece has.
>`burr explain V13` says more
?1
@ring.plan
/aside +z 1/push 1
=x.plan
$burr why ring x.plan
>refused V23 proc 0 pc 19
>x.plan:20: halt
>    in main, after label L
>    A is in tray 0, and not apart
>    B is in tray 0, and not apart
>`halt` ends the run, and a piece is not apart.
>`burr explain V23` says more
?1
";

/// Frames that are not met, or malformed; costs, and what is too much.
const FRAMES: &str = "\
@ring.plan
/frame 0 0/frame 0 -
=x.plan
$burr why ring x.plan
>refused V21 proc 0 pc 8
>x.plan:10: store 0
>    in main, after label start
>    what holds after it is not what the frame of L says
>x.plan:12: frame 0 -
>    gripped: A, the frame says nothing
>What holds here does not meet the label's frame.
>`burr explain V21` says more
?1
@ring.plan
/slot 0 0 2/slot 0 0 1
=x.plan
$burr why ring x.plan
>refused V21 proc 0 pc 8
>x.plan:10: store 0
>    in main, after label start
>    what holds after it is not what the frame of L says
>x.plan:13: slot 0 0 1
>    slot 0 is 2, the frame wants 0 to 1
>What holds here does not meet the label's frame.
>`burr explain V21` says more
?1
@ring.plan
/cost 4+2v0/cost 4+1v0
=x.plan
$burr why ring x.plan
>refused V21 proc 0 pc 12 point 1
>x.plan:18: down 0 L
>    in main, after label L
>    where slot 0 is 1
>    what holds after it is not what the frame of L says
>x.plan:14: cost 4+1v0
>    cost 3 is left, the frame wants 4
>What holds here does not meet the label's frame.
>`burr explain V21` says more
?1
@cup.plan
/cost 5+3v1/cost 6+3v1
=x.plan
$burr why cup x.plan
>refused V21 proc 0 pc 16 point 1 1
>x.plan:21: down 1 M
>    in main, after label L
>    where slot 0 is 1, slot 1 is 1
>    what holds after it is not what the frame of M says
>x.plan:29: cost 6+3v1
>    cost 5 is left, the frame wants 6
>x.plan:18: cost 3+3v1
>    what is left is counted down from here
>What holds here does not meet the label's frame.
>`burr explain V21` says more
?1
@ring.plan
/store 0/push 3
=x.plan
$burr why ring x.plan
>refused V21 proc 0 pc 8
>x.plan:10: push 3
>    in main, after label start
>    what holds after it is not what the frame of L says
>x.plan:12: frame 0 0
>    operands: 2 are there, the frame says 0
>x.plan:13: slot 0 0 2
>    slot 0 is not known
>What holds here does not meet the label's frame.
>`burr explain V21` says more
?1
@ring.plan
/cost 11/cost 2
=x.plan
$burr why ring x.plan
>refused V24 proc 0 pc 8
>x.plan:10: store 0
>    in main, after label start
>    cost 0 is left, 1 is needed
>x.plan:5: cost 2
>The cost that is left is below what is needed: each instruction takes 1, and a
>`call` its callee's cost too.
>`burr explain V24` says more
?1
@ring.plan
/plan ring 2 11/plan ring 2 10
=x.plan
$burr why ring x.plan
>refused V28 proc 0 pc 0
>x.plan:1: plan ring 2 10
>    the budget is 10, so below what main costs
>x.plan:5: cost 11
>The plan's budget is below the cost of main's first frame.
>`burr explain V28` says more
?1
@cup.plan
/ask 0 2/ask 0 4096
=x.plan
$burr why cup x.plan
>refused V25 proc 0 pc 5
>x.plan:9: ask 0 4096
>    in main, after label start
>    with 0 to 4096 the open numbers have more than 4096 points
>Too much is open at once: more than 8 slots, answers and results, more than 8
>guards, or more than 4,096 points, which are all ways to choose these numbers.
>`burr explain V25` says more
?1
@duo.plan
/at 1 0 0 0 0/at 1 apart
=x.plan
$burr why duo x.plan
>refused V27 proc 0 pc 0
>x.plan:6: at 0 0 0 0 0
>    A is alone in its tray, so it is apart
>A frame is malformed: a parameter has no `slot` line, a first frame an operand
>or another slot, a grip is not in its tray, or a tray has a single piece; or the
>start, with all pieces at home in tray 0, does not meet main's first frame.
>`burr explain V27` says more
?1
@duo.plan
/frame 0 -/frame 0 0
=x.plan
$burr why duo x.plan
>refused V27 proc 0 pc 0
>x.plan:3: label L0
>    a run begins here, with all pieces at home in tray 0 and nothing gripped
>x.plan:4: frame 0 0
>    gripped: nothing, the frame says A
>A frame is malformed: a parameter has no `slot` line, a first frame an operand
>or another slot, a grip is not in its tray, or a tray has a single piece; or the
>start, with all pieces at home in tray 0, does not meet main's first frame.
>`burr explain V27` says more
?1
";

/// Procedures with results.
const CALLS: &str = "\
@lift.plan
/result 0 2/result 0 1
=x.plan
$burr why cup x.plan
>refused V22 proc 1 pc 17 point 2 0
>x.plan:37: ret
>    in lift, after label L
>    where slot 0 is 2, slot 1 is 0
>x.plan:15: result 0 1
>    result 0 is 2, the frame wants 0 to 1
>What holds at the `ret` does not meet the procedure's exit frame.
>`burr explain V22` says more
?1
@lift.plan
/at 0 0 0 0 0+1v0/at 0 0 0 0 1+1v0
=x.plan
$burr why cup x.plan
>refused V21 proc 1 pc 9 point 0
>x.plan:26: store 1
>    in lift, after label start
>    where the answer of line 23 is 0
>    what holds after it is not what the frame of L says
>x.plan:33: at 0 0 0 0 1+1v0-1v1
>    z of A is 0, the frame says 1
>What holds here does not meet the label's frame.
>`burr explain V21` says more
?1
@lift.plan
/call lift/call main
=x.plan
$burr why cup x.plan
>refused V19 proc 0 pc 5
>x.plan:9: call main
>    in main, after label start
>    main calls only procedures that stand after it
>x.plan:2: proc main 0 0
>There is no such procedure, or its number is not above that of the procedure
>which calls it.
>`burr explain V19` says more
?1
@lift.plan
/cost 13/cost 20
=x.plan
$burr why cup x.plan
>refused V24 proc 0 pc 5
>x.plan:9: call lift
>    in main, after label start
>    cost 17 is left, 21 is needed
>x.plan:20: cost 20
>    a call takes 1 more than this
>x.plan:5: cost 18
>The cost that is left is below what is needed: each instruction takes 1, and a
>`call` its callee's cost too.
>`burr explain V24` says more
?1
@lift.plan
/grip 0/tray 0
=x.plan
$burr why cup x.plan
>refused V20 proc 0 pc 2
>x.plan:9: call lift
>    in main, after label start
>x.plan:19: frame 0 0
>    gripped: nothing, the frame says A
>What holds at the `call` does not meet the callee's first frame.
>`burr explain V20` says more
?1
";

/// Lines of texts that are not of the grammar, or out of their ranges.
const WORDS: &str = "\
@ring.plan
/grip 0/grip runner
=x.plan
$burr why ring x.plan
>refused P1 line 8
>x.plan:8: grip runner
>    `runner` stands where SET belongs: rising numbers of pieces, as `0,2`
>    such a line is written `grip SET`
>The line is not of the grammar, may not stand here or has no line feed, or the
>text ends too early.
>`burr explain P1` says more
?1
@ring.plan
/cost 4+2v0/cost 4v0
=x.plan
$burr why ring x.plan
>refused P1 line 14
>x.plan:14: cost 4v0
>    `4v0` stands where FORM belongs: a number, and then terms of rising slots, as `4+2v0-3v1`
>    perhaps `0+4v0` is meant
>    such a line is written `cost FORM`
>The line is not of the grammar, may not stand here or has no line feed, or the
>text ends too early.
>`burr explain P1` says more
?1
@ring.plan
/step +z/step +z 2
=x.plan
$burr why ring x.plan
>refused P1 line 17
>x.plan:17: step +z 2
>    `2` stands where the line has to end
>    such a line is written `step DIRECTION`
>    a step is one unit
>The line is not of the grammar, may not stand here or has no line feed, or the
>text ends too early.
>`burr explain P1` says more
?1
@ring.plan
/aside +z 1/aside +z
=x.plan
$burr why ring x.plan
>refused P1 line 19
>x.plan:19: aside +z
>    the line ends where TRAY belongs: a number of 0 to 31
>    such a line is written `aside DIRECTION TRAY`
>The line is not of the grammar, may not stand here or has no line feed, or the
>text ends too early.
>`burr explain P1` says more
?1
@ring.plan
/aside +z 1/aside +z 32
=x.plan
$burr why ring x.plan
>refused P3 line 19
>x.plan:19: aside +z 32
>    `32` stands where TRAY belongs: a number of 0 to 31
>    such a line is written `aside DIRECTION TRAY`
>A number, a set or a form is out of its range, or a form names a slot that is
>not live: one without a `slot` line in its frame.
>`burr explain P3` says more
?1
@ring.plan
/halt/Halt
=x.plan
$burr why ring x.plan
>refused P1 line 20
>x.plan:20: Halt
>    no line begins with `Halt`: words are in small letters
>    perhaps `halt` is meant
>The line is not of the grammar, may not stand here or has no line feed, or the
>text ends too early.
>`burr explain P1` says more
?1
@ring.plan
/frame 0 0/fame 0 0
=x.plan
$burr why ring x.plan
>refused P5 line 12
>x.plan:12: fame 0 0
>    no line begins with `fame`
>    perhaps `frame` is meant
>No `frame` is next after `label`, or a procedure's first label is missing: its
>code begins with a label and that label's frame.
>`burr explain P5` says more
?1
";

/// Lines of frames that do not stand there, or are missing.
const PLACES: &str = "\
@ring.plan
/slot 0 0 2/cost 1
=x.plan
$burr why ring x.plan
>refused P1 line 14
>x.plan:14: cost 4+2v0
>    `at 0` belongs here
>    after `label` come, in this order: `frame`, `slot`, `guard`, `stack`, `cost`, `at`
>The line is not of the grammar, may not stand here or has no line feed, or the
>text ends too early.
>`burr explain P1` says more
?1
@ring.plan
/at 0 0 0 0 2-1v0/;
=x.plan
$burr why ring x.plan
>refused P1 line 16
>x.plan:16: at 1 0 0 0 0
>    `at 0` belongs here
>    after `label` come, in this order: `frame`, `slot`, `guard`, `stack`, `cost`, `at`
>x.plan:11: label L
>    `at` lines of its frame: 1, pieces of the plan: 2
>The line is not of the grammar, may not stand here or has no line feed, or the
>text ends too early.
>`burr explain P1` says more
?1
@cup.plan
/plan cup 2/plan cup 3
=x.plan
$burr why cup x.plan
>refused P1 line 8
>x.plan:8: grip 0
>    `at 2` belongs here
>    after `label` come, in this order: `frame`, `slot`, `guard`, `stack`, `cost`, `at`
>x.plan:3: label start
>    `at` lines of its frame: 2, pieces of the plan: 3
>x.plan:1: plan cup 3 14
>    `at` lines of each frame: 2
>The line is not of the grammar, may not stand here or has no line feed, or the
>text ends too early.
>`burr explain P1` says more
?1
@ring.plan
/halt/label M
=x.plan
$burr why ring x.plan
>refused P5 line 21
>x.plan:21: the text ends before this line
>    `frame TRAY SET` belongs here
>    after `label` come, in this order: `frame`, `slot`, `guard`, `stack`, `cost`, `at`
>No `frame` is next after `label`, or a procedure's first label is missing: its
>code begins with a label and that label's frame.
>`burr explain P5` says more
?1
";

/// Names that are taken, or that nothing has.
const NAMES: &str = "\
@lift.plan
/call lift/call lfit
=x.plan
$burr why cup x.plan
>refused P2 line 9
>x.plan:9: call lfit
>    no procedure has the name `lfit`
>    perhaps `lift` is meant
>A name is taken already, or nothing has it.
>`burr explain P2` says more
?1
@lift.plan
/call lift/jump L
=x.plan
$burr why cup x.plan
>refused P2 line 9
>x.plan:9: jump L
>    no label of this procedure has the name `L`
>    a label of another procedure has it, and is known there alone
>A name is taken already, or nothing has it.
>`burr explain P2` says more
?1
@lift.plan
/label L/label start
=x.plan
$burr why cup x.plan
>refused P2 line 27
>x.plan:27: label start
>    the name `start` is taken by another label of this procedure
>x.plan:18: label start
>A name is taken already, or nothing has it.
>`burr explain P2` says more
?1
";

#[test]
fn says_what_is_wrong(rt: HostRuntime) {
    assert_examples(&rt, TEXTS);
    assert_transcript(&rt, CODE);
    assert_transcript(&rt, SPACE);
    assert_transcript(&rt, FRAMES);
    assert_transcript(&rt, LIFT);
    assert_transcript(&rt, CALLS);
}

#[test]
fn says_what_was_expected(rt: HostRuntime) {
    assert_examples(&rt, WORDS);
    assert_transcript(&rt, PLACES);
    assert_transcript(&rt, LIFT);
    assert_transcript(&rt, NAMES);
}
