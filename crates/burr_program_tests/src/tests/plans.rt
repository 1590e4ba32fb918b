//! The commands on assemblies and plans, which are files.
use super::transcript::{assert_examples, assert_transcript};
use std::fs;

/// Containers, also under names that could be options, and what is listed of them. A plan for one of
/// two pieces has code after each of three labels, whose places are told.
const CONTAINERS: &str = "\
$burr list duo.bpln
>plan duo 2 3
>proc p0 0
>label L0
>frame 0 -
>cost 3
>at 0 0 0 0 0
>at 1 0 0 0 0
>grip 0
>aside -x 1
>halt
?0
$burr asm duo.plan -
?0
$burr list -
>plan duo 2 3
>proc p0 0
>label L0
>frame 0 -
>cost 3
>at 0 0 0 0 0
>at 1 0 0 0 0
>grip 0
>aside -x 1
>halt
?0
$burr asm duo.plan --duo
?0
$burr list --places --duo
>plan duo 2 3
>proc p0 0
>label L0
>frame 0 -
>cost 3
>at 0 0 0 0 0
>at 1 0 0 0 0
>; proc 0 pc 0
>grip 0
>; proc 0 pc 5
>aside -x 1
>; proc 0 pc 8
>halt
?0
";

/// The container of the two cubes' plan.
const DUO_BYTES: &[u8] = b"BPLN\x00\x01\x00\x00\x00\x03\x02\x03duo\x01\
\x00\x00\x01\x00\x00\x00\x00\x00\x00\x00\x00\x00\x00\x00\x00\x00\x03\
\x00\x00\x00\x00\x00\x00\x00\x00\x00\x00\x00\x00\x00\
\x00\x00\x00\x00\x00\x00\x00\x00\x00\x00\x00\x00\x00\
\x00\x09\x10\x00\x00\x00\x01\x12\x01\x01\x00";

/// Two pieces of one shape: the second is turned, and lies on both sides of 0. And a text that is
/// no assembly.
const HOMES: &str = "\
<assembly two-ells
<shape ell
<layer
<##
<#.
<end
<piece first ell +x+y+z 2 0 0
<piece B ell -y+x+z -1 0 -3
=ells
$burr cells ells
>first 2 0 0
>first 3 0 0
>first 2 1 0
>B -1 0 -3
>B -1 -1 -3
>B 0 0 -3
?0
@ells
/-y+x+z/+y+x+z
=ells
$burr cells ells
>refused A4 line 8
?1
";

#[test]
fn prints_home_cells(rt: HostRuntime) {
    assert_transcript(&rt, HOMES);
}

#[test]
fn assembles_and_lists(rt: HostRuntime) {
    assert_examples(&rt, CONTAINERS);
    let made = fs::read(&rt, "--duo");
    assert!(rt; made.is_ok_and(|bytes| bytes.as_slice() == DUO_BYTES));
}

/// Files that can't be read or written, or are refused. Files are read in their order and then standard
/// input, before anything is judged: the text, the container, the plan, and the answers. A refusal, and
/// an input that can't be read, leave the output file alone.
const REFUSALS: &str = "\
<plan duo 2 3
=wrong
=empty
<assembly duo
<shape cube
<layer
<#
<end
<piece A cube +x+y+z 0 0 0
<piece B cube +x+y+z 0 0 0
=crowd
<as before
=as.before
@as.before
=kept
$burr asm wrong kept
>refused P1 line 2
?1
$burr asm none kept
!cannot read none
?3
~kept as.before
$burr asm none none/kept
!cannot read none
?3
$burr asm duo.plan none/kept
!cannot write none/kept
?3
$burr list none
!cannot read none
?3
$burr list -none
!cannot read -none
?3
$burr list empty
>refused C1 at 0
?1
$burr list duo.plan
>refused C2 at 0
?1
$burr try none none
!cannot read none
?3
$burr try crowd none
!cannot read none
?3
$burr try duo.plan empty
>refused A1 line 1
?1
$burr try crowd empty
>refused A8 line 7 A B
?1
$burr try duo empty
>refused C1 at 0
?1
<x
$burr try cup duo.bpln
>refused V1 proc 0 pc 0
?1
<x
$burr try duo duo.bpln
>refused answers line 1
?1
$burr check crowd none
!cannot read none
?3
$burr check crowd empty
>refused A8 line 7 A B
?1
$burr check duo empty
>refused C1 at 0
?1
$burr check cup duo.bpln
>refused V1 proc 0 pc 0
?1
$burr run none none
!cannot read none
?3
$burr run crowd empty
>refused A8 line 7 A B
?1
$burr run duo empty
>refused C1 at 0
?1
<x
$burr run cup duo.bpln
>refused V1 proc 0 pc 0
?1
<0
<-0
$burr run duo duo.bpln
>refused answers line 2
?1
$burr explain A9
!error: nothing is explained under A9
?2
$burr explain -x
!error: nothing is explained under -x
?2
";

/// Plans that are accepted, and how they run; `check` leaves standard input alone. An answer that does
/// not fit is passed over.
const ACCEPTED: &str = "\
$burr check duo duo.bpln
>accepted cost 3 budget 3 looks 1
?0
$burr run duo duo.bpln
>1 t0 A -x 0 out
>levels 1
>apart in 3 steps
?0
$burr check ring ring.bpln
>accepted cost 11 budget 11 looks 4
?0
<0
<-3
$burr run ring ring.bpln
>1 t0 A +z 3 out
>levels 1
>apart in 11 steps
?0
<x
$burr check cup cup.bpln
>accepted cost 14 budget 14 looks 6
?0
<0
$burr run cup cup.bpln
>1 t0 A +z 0 out
>levels 1
>apart in 8 steps
?0
<1
$burr run cup cup.bpln
>1 t0 A +z 1 out
>levels 1
>apart in 11 steps
?0
<7
<-1
<2
$burr run cup cup.bpln
>1 t0 A +z 2 out
>levels 1
>apart in 14 steps
?0
<3
<-1
$burr run cup cup.bpln
>levels -
>waiting 0 2 after 1 steps
?5
$burr run cup cup.bpln
>levels -
>waiting 0 2 after 1 steps
?5
";

/// Plans that are refused, each made of an accepted one by changes, and how they are tried all the same.
/// Where there is a refusal, answers are not judged.
const REFUSED: &str = "\
@ring.plan
/ring 2 11/ring 2 10
=plan
$burr asm plan bpln
?0
$burr check ring bpln
>refused V28 proc 0 pc 0
?1
<x
$burr run ring bpln
>refused V28 proc 0 pc 0
?1
$burr try ring bpln
>1 t0 A +z 3 out
>levels 1
>stopped after 10 steps
?1
@ring.plan
/cost 4+2v0/cost 4+1v0
=plan
$burr asm plan bpln
?0
$burr check ring bpln
>refused V21 proc 0 pc 12 point 1
?1
$burr run ring bpln
>refused V21 proc 0 pc 12 point 1
?1
@cup.plan
/guard 0+1v0-1v1/guard 0
/guard -1+1v0-1v1/guard 0
=plan
$burr asm plan bpln
?0
$burr check cup bpln
>refused V15 proc 0 pc 24 pieces A B point 0 1
?1
<2
$burr run cup bpln
>refused V15 proc 0 pc 24 pieces A B point 0 1
?1
<2
$burr try cup bpln
>1 t0 A +z 2 out
>levels 1
>apart in 14 steps
?0
@duo.plan
/aside -x/aside +x
=plan
$burr asm plan bpln
?0
$burr check duo bpln
>refused V16 proc 0 pc 5 pieces A B
?1
$burr run duo bpln
>refused V16 proc 0 pc 5 pieces A B
?1
$burr try duo bpln
>levels -
>trap 3 NotFree proc 0 pc 5 after 1 steps
?1
@duo
<piece C cube +x+y+z 2 0 0
=trio
$burr check trio duo.bpln
>refused V1 proc 0 pc 0
?1
$burr try trio duo.bpln
>refused V1 proc 0 pc 0
?1
";

/// Code that traps where it is refused; a label inside an instruction, to which no run comes; a question with
/// as many answers as there may be, and one with one more.
const CODES: &str = "\
@duo.plan
/plan duo 2 3/plan duo 2 4
/cost 3/cost 4
/halt/grip 0
<halt
=plan
$burr asm plan bpln
?0
$burr check duo bpln
>refused V13 proc 0 pc 8
?1
$burr try duo bpln
>1 t0 A -x 0 out
>levels 1
>trap 2 GripOff proc 0 pc 8 after 2 steps
?1
<plan duo 2 3
<proc main 0
<label start
<frame 0 -
<cost 3
<at 0 0 0 0 0
<at 1 0 0 0 0
<push 1
<add
<halt
=plan
$burr asm plan bpln
?0
$burr check duo bpln
>refused V6 proc 0 pc 3
?1
$burr try duo bpln
>levels -
>trap 6 MissingOperand proc 0 pc 3 after 1 steps
?1
<plan duo 2 9
<proc main 0
<label start
<frame 0 -
<cost 9
<at 0 0 0 0 0
<at 1 0 0 0 0
<push 1
<push 1
<push 1
<push 1
<push 1
<push 1
<push 1
<push 1
<push 1
=plan
$burr asm plan bpln
?0
$burr check duo bpln
>refused V7 proc 0 pc 24
?1
$burr try duo bpln
>levels -
>trap 7 StackFull proc 0 pc 24 after 8 steps
?1
<plan duo 2 3
<proc main 0
<label start
<frame 0 -
<cost 3
<at 0 0 0 0 0
<at 1 0 0 0 0
<byte 10
<label inside
<frame 0 -
<cost 3
<at 0 0 0 0 0
<at 1 0 0 0 0
<byte 00
<byte 00
<byte 00
<byte 01
<aside -x 1
<halt
=plan
$burr asm plan bpln
?0
$burr check duo bpln
>refused V3 proc 0 pc 0
?1
$burr try duo bpln
>1 t0 A -x 0 out
>levels 1
>apart in 3 steps
?0
<plan duo 2 5
<proc main 0
<label start
<frame 0 -
<cost 5
<at 0 0 0 0 0
<at 1 0 0 0 0
<ask 0 4095
<drop
<grip 0
<aside -x 1
<halt
=plan
$burr asm plan bpln
?0
$burr check duo bpln
>accepted cost 5 budget 5 looks 4096
?0
<4096
<4095
$burr run duo bpln
>1 t0 A -x 0 out
>levels 1
>apart in 5 steps
?0
@plan
/4095/4096
=plan
$burr asm plan bpln
?0
$burr check duo bpln
>refused V25 proc 0 pc 0
?1
<4096
$burr try duo bpln
>1 t0 A -x 0 out
>levels 1
>apart in 5 steps
?0
";

/// A loop as far as the bench goes, and one unit farther.
const FAR: &str = "\
@ring.plan
/11/517
/push 2/push 255
/slot 0 0 2/slot 0 0 255
/2-1v0/255-1v0
=plan
$burr asm plan bpln
?0
$burr check ring bpln
>accepted cost 517 budget 517 looks 257
?0
$burr run ring bpln
>1 t0 A +z 256 out
>levels 1
>apart in 517 steps
?0
$burr try ring bpln
>1 t0 A +z 256 out
>levels 1
>apart in 517 steps
?0
@plan
/517/519
/255/256
=plan
$burr asm plan bpln
?0
$burr run ring bpln
>refused V18 proc 0 pc 10 point 0
?1
$burr try ring bpln
>1 t0 A +z 256
>levels -
>trap 14 OffBench proc 0 pc 10 after 515 steps
?1
";

/// A dot that goes up by two calls.
const CALLS: &str = "\
<plan cup 2 11
<proc main 0
<label start
<frame 0 -
<cost 11
<at 0 0 0 0 0
<at 1 0 0 0 0
<grip 0
<push 0
<call up
<push 1
<call up
<aside +z 1
<halt
<proc up 1
<exit 0 0
<at 0 0 0 0 1+1v0
<at 1 0 0 0 0
<label start
<frame 0 0
<slot 0 0 3
<cost 2
<at 0 0 0 0 0+1v0
<at 1 0 0 0 0
<step +z
<ret
=plan
$burr asm plan bpln
?0
$burr check cup bpln
>accepted cost 11 budget 11 looks 5
?0
$burr run cup bpln
>1 t0 A +z 2 out
>levels 1
>apart in 11 steps
?0
$burr try cup bpln
>1 t0 A +z 2 out
>levels 1
>apart in 11 steps
?0
@plan
/push 0/push 1
=plan
$burr asm plan bpln
?0
$burr run cup bpln
>refused V20 proc 0 pc 8
?1
";

/// One of two cubes goes out, whichever the operator picks. On the cup, whose pieces are in each other's
/// way, neither can.
const CHOICES: &str = "\
<plan duo 2 4
<proc main 0
<label start
<frame 0 -
<cost 4
<at 0 0 0 0 0
<at 1 0 0 0 0
<pick a b
<label a
<frame 0 -
<cost 3
<at 0 0 0 0 0
<at 1 0 0 0 0
<grip 0
<aside -x 1
<halt
<label b
<frame 0 -
<cost 3
<at 0 0 0 0 0
<at 1 0 0 0 0
<grip 1
<aside +x 1
<halt
=plan
$burr asm plan bpln
?0
$burr check duo bpln
>accepted cost 4 budget 4 looks 2
?0
<2
<1
<0
$burr run duo bpln
>1 t0 B +x 0 out
>levels 1
>apart in 4 steps
?0
<0
$burr try duo bpln
>1 t0 A -x 0 out
>levels 1
>apart in 4 steps
?0
<2
$burr try duo bpln
>levels -
>waiting 0 1 after 0 steps
?5
$burr try duo bpln
>levels -
>waiting 0 1 after 0 steps
?5
$burr run duo bpln
>levels -
>waiting 0 1 after 0 steps
?5
@plan
/duo/cup
=plan
$burr asm plan bpln
?0
$burr check cup bpln
>refused V16 proc 0 pc 11 pieces A B
?1
<0
$burr try cup bpln
>levels -
>trap 3 NotFree proc 0 pc 11 after 2 steps
?1
<1
$burr try cup bpln
>levels -
>trap 3 NotFree proc 0 pc 20 after 2 steps
?1
";

/// Four cubes in a square, which two trays take apart; a tray that is in use does not.
const TRAYS: &str = "\
<assembly cubes
<shape cube
<layer
<#
<end
<piece A cube +x+y+z 0 0 0
<piece B cube +x+y+z 1 0 0
<piece C cube +x+y+z 0 1 0
<piece D cube +x+y+z 1 1 0
=cubes
<plan cubes 4 8
<proc main 0
<label start
<frame 0 -
<cost 8
<at 0 0 0 0 0
<at 1 0 0 0 0
<at 2 0 0 0 0
<at 3 0 0 0 0
<grip 2,3
<aside +y 1
<grip 0
<aside -x 2
<tray 1
<grip 2
<aside -x 2
<halt
=plan
$burr asm plan bpln
?0
$burr run cubes bpln
>1 t0 C,D +y 0 out
>2 t0 A -x 0 out
>3 t1 C -x 0 out
>levels 1.1.1
>apart in 8 steps
?0
$burr try cubes bpln
>1 t0 C,D +y 0 out
>2 t0 A -x 0 out
>3 t1 C -x 0 out
>levels 1.1.1
>apart in 8 steps
?0
@plan
/aside -x 2/aside -x 1
=plan
$burr asm plan bpln
?0
$burr check cubes bpln
>refused V17 proc 0 pc 13
?1
$burr try cubes bpln
>1 t0 C,D +y 0 out
>levels 1
>trap 5 TrayInUse proc 0 pc 13 after 3 steps
?1
";

#[test]
fn ends_commands_by_what_they_met(rt: HostRuntime) {
    assert_examples(&rt, REFUSALS);
}

#[test]
fn checks_and_runs_plans(rt: HostRuntime) {
    assert_examples(&rt, ACCEPTED);
    assert_transcript(&rt, REFUSED);
    assert_transcript(&rt, CODES);
    assert_transcript(&rt, FAR);
    assert_transcript(&rt, CALLS);
    assert_transcript(&rt, CHOICES);
    assert_transcript(&rt, TRAYS);
}
