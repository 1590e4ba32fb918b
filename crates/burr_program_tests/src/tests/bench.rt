//! Bare code after an assembly text, without words.

use super::transcript::{assert_examples, assert_transcript};
use super::*;

/// Two cubes, which come apart by one code and not by another; an assembly with a mirror; and inputs that
/// are no assembly with code after it.
const INPUTS: &str = "\
<assembly duo
<shape cube
<layer
<#
<end
<piece A cube +x+y+z 0 0 0
<piece B cube +x+y+z 1 0 0
=duo
@duo
<code 100000000112010100
$burr
>1 t0 A -x 0 out
>levels 1
>apart in 3 steps
?0
@duo
<code 100000000112010100
$
>1 t0 A -x 0 out
>levels 1
>apart in 3 steps
?0
@duo
<code 100000000112000100
$burr
>levels -
>trap 3 NotFree proc 0 pc 5 after 1 steps
?1
@duo
/B cube +x/B cube -x
<code 00
$burr
>refused A4 line 7
?1
$burr
>refused input
?1
<code 0
$burr
>refused input
?1
";

#[test]
fn ends_runs_by_their_outcome(rt: HostRuntime) {
    assert_transcript(&rt, INPUTS);
}

// Each trap by a plan, two calls deep.

/// A plan for the two cubes, up to the code of its last procedure: main calls `one`, which fills a
/// slot and pushes two numbers, and calls `two`, whose parameter is the second of them. So six
/// steps are made before the code of `two`, and its caller has a slot and an operand of its own.
const CALLS: &str = "\
<plan duo 2 1000
<proc main 0
<label start
<frame 0 -
<cost 1000
<at 0 0 0 0 0
<at 1 0 0 0 0
<call one
<halt
<proc one 0
<exit 0 -
<at 0 0 0 0 0
<at 1 0 0 0 0
<label start
<frame 0 -
<cost 998
<at 0 0 0 0 0
<at 1 0 0 0 0
<push 7
<store 1
<push 1
<push 2
<call two
<ret
<proc two 1
<exit 0 -
<at 0 0 0 0 0
<at 1 0 0 0 0
<label start
<frame 0 -
<slot 0 2 2
<cost 992
<at 0 0 0 0 0
<at 1 0 0 0 0
=calls
";

/// A transcript with a trap a line: the code of `two`, with what stands after it, and what is printed.
/// A `;` stands for the end of a line, and ` = ` for what tries the plan. Where a tray is in use the
/// piece is not free either; nothing is asked where there are eight operands; the labels that are
/// missing are 1; both calls return to main for the trap of its `halt`, since a halt elsewhere is
/// misplaced whatever is apart.
const TRAPS: &str = "\
@calls;<grip 0;<step -x;<step +x;<step +x; = >1 t0 A -x 1;>2 t0 A +x 1;>levels -;>trap 1 Collision proc 2 pc 9 after 9 steps;?1
@calls;<grip 2; = >levels -;>trap 2 GripOff proc 2 pc 0 after 6 steps;?1
@calls;<tray 1;<grip 0; = >levels -;>trap 2 GripOff proc 2 pc 2 after 7 steps;?1
@calls;<grip 0;<aside -x 1;<grip 0; = >1 t0 A -x 0 out;>levels 1;>trap 2 GripOff proc 2 pc 8 after 8 steps;?1
@calls;<grip 0;<aside -x 1;<grip 1; = >1 t0 A -x 0 out;>levels 1;>trap 2 GripOff proc 2 pc 8 after 8 steps;?1
@calls;<grip 0;<aside +x 1; = >levels -;>trap 3 NotFree proc 2 pc 5 after 7 steps;?1
@calls;<step +z; = >levels -;>trap 4 BadGroup proc 2 pc 0 after 6 steps;?1
@calls;<aside +z 1; = >levels -;>trap 4 BadGroup proc 2 pc 0 after 6 steps;?1
@calls;<grip 0,1;<aside +z 0; = >levels -;>trap 4 BadGroup proc 2 pc 5 after 7 steps;?1
@calls;<grip 0;<aside +x 0; = >levels -;>trap 5 TrayInUse proc 2 pc 5 after 7 steps;?1
@calls;<drop; = >levels -;>trap 6 MissingOperand proc 2 pc 0 after 6 steps;?1
@calls;<push 1;<add; = >levels -;>trap 6 MissingOperand proc 2 pc 3 after 7 steps;?1
@calls;<call three;<proc three 1;<exit 0 -;<at 0 0 0 0 0;<at 1 0 0 0 0;<label start;<frame 0 -;<slot 0 0 0;<cost 1;<at 0 0 0 0 0;<at 1 0 0 0 0;<ret; = >levels -;>trap 6 MissingOperand proc 2 pc 0 after 6 steps;?1
@calls;<push 0;<push 0;<push 0;<push 0;<push 0;<push 0;<push 0;<push 0;<push 0; = >levels -;>trap 7 StackFull proc 2 pc 24 after 14 steps;?1
@calls;<push 0;<push 0;<push 0;<push 0;<push 0;<push 0;<push 0;<push 0;<load 0; = >levels -;>trap 7 StackFull proc 2 pc 24 after 14 steps;?1
@calls;<push 0;<push 0;<push 0;<push 0;<push 0;<push 0;<push 0;<push 0;<ask 0 1; = >levels -;>trap 7 StackFull proc 2 pc 24 after 14 steps;?1
@calls;<load 1; = >levels -;>trap 8 EmptySlot proc 2 pc 0 after 6 steps;?1
@calls;<down 1 start; = >levels -;>trap 8 EmptySlot proc 2 pc 0 after 6 steps;?1
@calls;<byte 20;<byte 00;<byte 01; = >levels -;>trap 9 BadJump proc 2 pc 0 after 6 steps;?1
@calls;<byte 21;<byte 00;<byte 00;<byte 01; = >levels -;>trap 9 BadJump proc 2 pc 0 after 6 steps;?1
@calls;<byte 23;<byte 02;<byte 00;<byte 00;<byte 00;<byte 01; = >levels -;>trap 9 BadJump proc 2 pc 0 after 6 steps;?1
@calls;<byte 07; = >levels -;>trap 10 BadCode proc 2 pc 0 after 6 steps;?1
@calls;<push 0; = >levels -;>trap 10 BadCode proc 2 pc 3 after 7 steps;?1
@calls;<call one; = >levels -;>trap 11 BadCall proc 2 pc 0 after 6 steps;?1
@calls;<call two; = >levels -;>trap 11 BadCall proc 2 pc 0 after 6 steps;?1
@calls;<byte 24;<byte 03; = >levels -;>trap 11 BadCall proc 2 pc 0 after 6 steps;?1
@calls;<push -1;<store 1;<down 1 start; = >levels -;>trap 12 BadCount proc 2 pc 5 after 8 steps;?1
@calls;<push 32767;<push 1;<add; = >levels -;>trap 13 NumberRange proc 2 pc 6 after 8 steps;?1
@calls;<push -32767;<push 1;<sub; = >levels -;>trap 13 NumberRange proc 2 pc 6 after 8 steps;?1
@calls;<grip 0;<label L;<frame 0 0;<slot 0 2 2;<cost 9;<at 0 0 0 0 0;<at 1 0 0 0 0;<step -x;<jump L; = >1 t0 A -x 256;>levels -;>trap 14 OffBench proc 2 pc 5 after 519 steps;?1
@calls;<ret; = >levels -;>trap 15 NotApart proc 0 pc 2 after 8 steps;?1
@calls;<halt; = >levels -;>trap 16 Misplaced proc 2 pc 0 after 6 steps;?1
@calls;<push 1;<store 0; = >levels -;>trap 17 ParamWritten proc 2 pc 3 after 7 steps;?1
@calls;<store 0; = >levels -;>trap 17 ParamWritten proc 2 pc 0 after 6 steps;?1
@calls;<down 0 start; = >levels -;>trap 17 ParamWritten proc 2 pc 0 after 6 steps;?1
";

/// Makes a container of the lines of a plan, and tries it.
const TRIED: &str = "=plan;$burr asm plan bpln;?0;<0;$burr try duo bpln;";

#[test]
fn tells_each_trap(rt: HostRuntime) {
    assert_examples(&rt, CALLS);
    let tried = replaced(&rt, TRAPS, " = ", TRIED);
    assert_transcript(&rt, &replaced(&rt, &tried, ";", "\n"));
}
