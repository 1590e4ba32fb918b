//! What holds at each label of a plan text's run.
use super::results::LIFT;
use super::transcript::{assert_examples, assert_transcript};

/// A loop that is counted down, the same without an answer, and what is no run.
const LOOPS: &str = "\
<2
$burr trace cup cup.plan
>1 t0 A +z 2 out
>levels 1
>apart in 14 steps
>
>; cup.plan:3: label start of main: steps 0
>frame 0 -
>cost 14
>at 0 0 0 0 0
>at 1 0 0 0 0
>
>; cup.plan:13: label L of main: steps 5, answer 2
>frame 0 0
>slot 0 2 2
>slot 1 2 2
>cost 9
>at 0 0 0 0 0
>at 1 0 0 0 0
>
>; cup.plan:24: label M of main: steps 6, answer 2
>frame 0 0
>slot 0 2 2
>slot 1 1 1
>cost 8
>at 0 0 0 0 0
>at 1 0 0 0 0
>
>; cup.plan:13: label L of main: steps 8, answer 2
>frame 0 0
>slot 0 2 2
>slot 1 1 1
>cost 6
>at 0 0 0 0 1
>at 1 0 0 0 0
>
>; cup.plan:24: label M of main: steps 9, answer 2
>frame 0 0
>slot 0 2 2
>slot 1 0 0
>cost 5
>at 0 0 0 0 1
>at 1 0 0 0 0
>
>; cup.plan:13: label L of main: steps 11, answer 2
>frame 0 0
>slot 0 2 2
>slot 1 0 0
>cost 3
>at 0 0 0 0 2
>at 1 0 0 0 0
>
>; cup.plan:3: label start of main: times 1
>frame 0 -
>cost 14
>at 0 0 0 0 0
>at 1 0 0 0 0
>
>; cup.plan:13: label L of main: times 3
>frame 0 0
>slot 0 2 2
>slot 1 0 2
>cost 3+3v1
>at 0 0 0 0 2-1v1
>at 1 0 0 0 0
>
>; cup.plan:24: label M of main: times 2
>frame 0 0
>slot 0 2 2
>slot 1 0 1
>cost 5+3v1
>at 0 0 0 0 1-1v1
>at 1 0 0 0 0
?0
$burr trace cup cup.plan
>levels -
>waiting 0 2 after 1 steps
>
>; cup.plan:3: label start of main: steps 0
>frame 0 -
>cost 1
>at 0 0 0 0 0
>at 1 0 0 0 0
>
>; the run stands at cup.plan:9: ask 0 2
>
>; cup.plan:3: label start of main: times 1
>frame 0 -
>cost 1
>at 0 0 0 0 0
>at 1 0 0 0 0
>
>; cup.plan:13: label L of main: times 0
>
>; cup.plan:24: label M of main: times 0
?5
<1
<two
$burr trace cup cup.plan
>refused answers line 2
?1
$burr trace ring duo.plan
>refused V1 proc 0 pc 0
>duo.plan:1: plan duo 2 3
>    the assembly is ring and has 2 pieces
>The plan is one for another assembly: its name or its number of pieces differs.
>`burr explain V1` says more
?1
@cup.plan
/jump L/jump N
=t.plan
$burr trace cup t.plan
>refused P2 line 33
>t.plan:33: jump N
>    no label of this procedure has the name `N`
>A name is taken already, or nothing has it.
>`burr explain P2` says more
?1
";

/// A procedure with a result before a trap, and what no one frame agrees with.
const ENDS: &str = "\
@lift.plan
/aside +z 1/aside -z 1
=t.plan
<0
$burr trace cup t.plan
>levels -
>trap 3 NotFree proc 0 pc 8 after 10 steps
>
>; t.plan:3: label start of main: steps 0
>frame 0 -
>cost 10
>at 0 0 0 0 0
>at 1 0 0 0 0
>
>; t.plan:18: label start of lift: steps 2
>frame 0 0
>cost 7
>at 0 0 0 0 0
>at 1 0 0 0 0
>
>; t.plan:27: label L of lift: steps 6, answer 0
>frame 0 0
>slot 0 0 0
>slot 1 0 0
>cost 3
>at 0 0 0 0 0
>at 1 0 0 0 0
>
>; the run stands at t.plan:11: aside -z 1
>
>; t.plan:3: label start of main: times 1
>frame 0 -
>cost 10
>at 0 0 0 0 0
>at 1 0 0 0 0
>
>; t.plan:18: label start of lift: times 1
>frame 0 0
>cost 7
>at 0 0 0 0 0
>at 1 0 0 0 0
>
>; t.plan:27: label L of lift: times 1
>frame 0 0
>slot 0 0 0
>slot 1 0 0
>cost 3
>at 0 0 0 0 0
>at 1 0 0 0 0
>
>; t.plan:38: label M of lift: times 0
?1
<plan duo 2 20
<proc main 0
<label start
<frame 0 -
<cost 20
<at 0 0 0 0 0
<at 1 0 0 0 0
<push 1
<store 0
<label L
<frame 0 -
<slot 0 0 1
<cost 9
<at 0 0 0 0 0
<at 1 0 0 0 0
<push 3
<grip 0
<down 0 L
<drop
<aside -x 1
<halt
=t.plan
$burr trace duo t.plan
>1 t0 A -x 0 out
>levels 1
>apart in 11 steps
>
>; t.plan:3: label start of main: steps 0
>frame 0 -
>cost 11
>at 0 0 0 0 0
>at 1 0 0 0 0
>
>; t.plan:10: label L of main: steps 2
>frame 0 -
>slot 0 1 1
>cost 9
>at 0 0 0 0 0
>at 1 0 0 0 0
>
>; t.plan:10: label L of main: steps 5
>frame 0 0
>slot 0 0 0
>stack 3
>cost 6
>at 0 0 0 0 0
>at 1 0 0 0 0
>
>; t.plan:3: label start of main: times 1
>frame 0 -
>cost 11
>at 0 0 0 0 0
>at 1 0 0 0 0
>
>; t.plan:10: label L of main: times 2
>; frame: not always one tray and grip
>slot 0 0 1
>; stack: not always as many operands
>cost 6+3v0
>at 0 0 0 0 0
>at 1 0 0 0 0
?0
";

#[test]
fn tells_what_holds_and_where_a_run_stops_short(rt: HostRuntime) {
    assert_examples(&rt, LOOPS);
    assert_transcript(&rt, LIFT);
    assert_transcript(&rt, ENDS);
}
