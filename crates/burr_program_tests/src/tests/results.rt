//! Plans of procedures with results, and plans of version 1 in version 2.
use super::transcript::{assert_examples, assert_transcript};

/// A dot in a cup is lifted by a procedure that asks how far and gives that back: its listing, its
/// runs, and what is said where the range of the result or the exit place is too small.
pub const LIFT: &str = "\
<plan2 cup 2 18
<proc main 0 0
<label start
<frame 0 -
<cost 18
<at 0 0 0 0 0
<at 1 0 0 0 0
<grip 0
<call lift
<drop
<aside +z 1
<halt
<proc lift 0 1
<exit 0 0
<result 0 2
<at 0 0 0 0 0+1v0
<at 1 0 0 0 0
<label start
<frame 0 0
<cost 13
<at 0 0 0 0 0
<at 1 0 0 0 0
<ask 0 2
<store 0
<load 0
<store 1
<label L
<frame 0 0
<slot 0 0 2
<slot 1 0 2
<guard 0+1v0-1v1
<cost 3+3v1
<at 0 0 0 0 0+1v0-1v1
<at 1 0 0 0 0
<down 1 M
<load 0
<ret
<label M
<frame 0 0
<slot 0 0 2
<slot 1 0 1
<guard -1+1v0-1v1
<cost 5+3v1
<at 0 0 0 0 -1+1v0-1v1
<at 1 0 0 0 0
<step +z
<jump L
=lift.plan
$burr asm lift.plan lift.bpln
?0
$burr check cup lift.bpln
>accepted cost 18 budget 18 looks 6
?0
<0
$burr run cup lift.bpln
>1 t0 A +z 0 out
>levels 1
>apart in 12 steps
?0
<2
$burr run cup lift.bpln
>1 t0 A +z 2 out
>levels 1
>apart in 18 steps
?0
$burr run cup lift.bpln
>levels -
>waiting 0 2 after 2 steps
?5
<2
$burr try cup lift.bpln
>1 t0 A +z 2 out
>levels 1
>apart in 18 steps
?0
@lift.plan
/result 0 2/result 0 1
=plan
$burr asm plan bpln
?0
$burr check cup bpln
>refused V22 proc 1 pc 17 point 2 0
?1
@lift.plan
/0+1v0-1v1/S
/0+1v0/0
/S/0+1v0-1v1
=plan
$burr asm plan bpln
?0
$burr check cup bpln
>refused V22 proc 1 pc 17 point 1 0
?1
@lift.plan
/result 0 2/result 0 2 3
=plan
$burr asm plan bpln
>refused P1 line 15
?1
";

/// Plans that give back a number that they have not, or one for which there is no room.
const TRAPS: &str = "\
<plan2 duo 2 9
<proc main 0 0
<label start
<frame 0 -
<cost 9
<at 0 0 0 0 0
<at 1 0 0 0 0
<call give
<halt
<proc give 0 1
<exit 0 -
<result 0 0
<at 0 0 0 0 0
<at 1 0 0 0 0
<label start
<frame 0 -
<cost 1
<at 0 0 0 0 0
<at 1 0 0 0 0
<ret
=plan
$burr asm plan bpln
?0
$burr try duo bpln
>levels -
>trap 6 MissingOperand proc 1 pc 0 after 1 steps
?1
<plan2 duo 2 9
<proc main 0 0
<label start
<frame 0 -
<cost 9
<at 0 0 0 0 0
<at 1 0 0 0 0
<push 0
<push 0
<push 0
<push 0
<push 0
<push 0
<push 0
<push 0
<call give
<halt
<proc give 0 1
<exit 0 -
<result 0 0
<at 0 0 0 0 0
<at 1 0 0 0 0
<label start
<frame 0 -
<cost 1
<at 0 0 0 0 0
<at 1 0 0 0 0
<ret
=plan
$burr asm plan bpln
?0
$burr try duo bpln
>levels -
>trap 7 StackFull proc 0 pc 24 after 8 steps
?1
$burr check duo bpln
>refused V7 proc 0 pc 24
?1
";

/// Plans of version 1 in version 2, which are those that texts of version 2 stand for, and what is no
/// plan.
const UPGRADES: &str = "\
$burr upgrade duo.bpln two.bpln
?0
$burr list two.bpln
>plan2 duo 2 3
>proc p0 0 0
>label L0
>frame 0 -
>cost 3
>at 0 0 0 0 0
>at 1 0 0 0 0
>grip 0
>aside -x 1
>halt
?0
@duo.plan
/plan duo/plan2 duo
/proc p0 0/proc p0 0 0
=two.plan
$burr asm two.plan again.bpln
?0
~two.bpln again.bpln
$burr run duo two.bpln
>1 t0 A -x 0 out
>levels 1
>apart in 3 steps
?0
$burr upgrade two.bpln same.bpln
?0
~same.bpln two.bpln
$burr upgrade ring.bpln two.ring
?0
@ring.plan
/plan ring/plan2 ring
/proc main 0/proc main 0 0
=two.plan
$burr asm two.plan again.ring
?0
~two.ring again.ring
$burr check ring two.ring
>accepted cost 11 budget 11 looks 4
?0
<kept
=as.before
@as.before
=kept
$burr upgrade duo.plan kept
>refused C2 at 0
?1
$burr upgrade none kept
!cannot read none
?3
~kept as.before
$burr upgrade duo.bpln duo.bpln
!error: OUT is PLAN itself: duo.bpln
?2
$burr upgrade duo.bpln none/two
!cannot write none/two
?3
";

#[test]
fn checks_runs_and_upgrades_plans_with_results(rt: HostRuntime) {
    assert_examples(&rt, LIFT);
    assert_transcript(&rt, TRAPS);
    assert_transcript(&rt, UPGRADES);
}
