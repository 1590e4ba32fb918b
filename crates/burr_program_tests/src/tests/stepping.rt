//! Accepted plans, step by step, by commands on standard input.
use super::transcript::{assert_examples, assert_transcript};
use super::*;

/// Commands for the cup: forwards, an answer, until labels, back, what is shown; what is no command;
/// and a dialogue without any.
const CUP: &str = "\
<until 0 2
<answer 1
<until 0 2
<until 0 1
<back 3
<until 0 1
<until 0 0
<forward
<back 11
$burr step cup cup.bpln
>after 1 steps asks 0 2
>after 2 steps
>after 6 steps
>after 8 steps
>after 5 steps
>after 8 steps
>after 11 steps ended
>refused S1
>after 0 steps
?0
<forward
<answer 1
<show
$burr step cup cup.bpln
>after 1 steps asks 0 2
>after 2 steps
>after 2 steps proc 0 pc 10
>tray 0 grip A
>slots - - - - - - - -
>stack 1
>A tray 0 at 0 0 0
>B tray 0 at 0 0 0
?0
<forward
<forward
<answer 5
<back 2
<
< forward
<until 0 9
<over
<quit
<forward
$burr step cup cup.bpln
>after 1 steps asks 0 2
>refused S2
>refused S3
>refused S4
>refused command
>refused command
>refused command
>refused S2
?0
$burr step cup cup.bpln
?0
";

/// What is refused, or can't be read, before a command is read.
const REFUSED: &str = "\
<forward
$burr step cup duo.bpln
>refused V1 proc 0 pc 0
?1
<forward
$burr step cup none
!cannot read none
?3
<forward
$burr step duo cup.bpln
>refused V1 proc 0 pc 0
?1
<forward
$burr step duo.bpln duo.bpln
>refused A1 line 1
?1
<forward
$burr step duo duo
>refused C2 at 0
?1
";

/// A last line may lack its end, and nothing after `quit` is read.
#[test]
fn reads_up_to_the_end_or_quit(rt: HostRuntime) {
    assert_examples(&rt, "");
    let line = "burr step cup cup.bpln";
    let end = end_of(&rt, line, "forward\nanswer 1");
    let both = "after 1 steps asks 0 2\nafter 2 steps\n";
    assert_case(&rt, "end", end.is(0, both, ""));
    let mut rest = Drips::of("forward\nquit\nforward\n");
    let quit = end_with(&rt, line, &mut rest);
    assert_case(&rt, "quit", quit.is(0, "after 1 steps asks 0 2\n", ""));
    assert_case(&rt, "rest", rest.left == b"forward\n".as_slice());
}

/// A line of 64 bytes and longer ones, of up to 50,005 bytes, are no commands, whatever they begin with.
const LONG: &str = "\
<back 00000000000000000000000000000000000000000000000000000000000
<forward
$burr step cup cup.bpln
>refused command
>after 1 steps asks 0 2
?0
<back 000000000000000000000000000000000000000000000000000000000000
<forward
$burr step cup cup.bpln
>refused command
>after 1 steps asks 0 2
?0
<back 0000000000000000000000000000000000000000000000000000000000000
<forward
$burr step cup cup.bpln
>refused command
>after 1 steps asks 0 2
?0
<back 0
/0/00000
/0/0000000000
/0/0000000000
/0/0000000000
/0/0000000000
<forward
$burr step cup cup.bpln
>refused command
>after 1 steps asks 0 2
?0
";

/// Where standard input fails, the commands before are answered.
const FAILING: &str = "\
&
$burr step cup cup.bpln
!cannot read -
?3
&forward
$burr step cup cup.bpln
!cannot read -
?3
<forward
&
$burr step cup cup.bpln
>after 1 steps asks 0 2
!cannot read -
?3
<forward
&a
$burr step cup cup.bpln
>after 1 steps asks 0 2
!cannot read -
?3
<forward
&answer 1
$burr step cup cup.bpln
>after 1 steps asks 0 2
!cannot read -
?3
";

#[test]
fn answers_commands(rt: HostRuntime) {
    assert_examples(&rt, CUP);
    assert_transcript(&rt, REFUSED);
    assert_transcript(&rt, LONG);
    assert_transcript(&rt, FAILING);
}
