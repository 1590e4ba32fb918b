//! Accepted plans that are led move by move, by commands on standard input.
use super::transcript::{assert_examples, assert_transcript};
use super::*;

/// A container and its text are led alike: with the digest of both files, moves, a question, an answer
/// that does not fit and one that does, and the end.
const LED: &str = "\
<next
<next
<quit
<next
$burr drive duo duo.bpln
>ready 04628b243834a3e56bed450fddb3666a81111728c2465e0c897a015fe021392a
>move 1 t0 A -x 0 out t1 apart A,B
>end 3
?0
<next
<next
$burr drive duo duo.plan
>ready 04628b243834a3e56bed450fddb3666a81111728c2465e0c897a015fe021392a
>move 1 t0 A -x 0 out t1 apart A,B
>end 3
?0
<next
<answer 1 3
<answer 1 2
<next
<next
$burr drive cup cup.bpln
>ready b4fb2d488d4a4ecc8e0b80f745a8287728ee823a3297d7f0cd2022f79b647f65
>ask 1 0 2 proc 0 pc 5
>refused answer
>taken 1
>move 1 t0 A +z 2 out t1 apart A,B
>end 14
?0
";

/// Where a question is left open, the status says so; elsewhere it does not.
const LEFT: &str = "\
$burr drive cup cup.plan
>ready b4fb2d488d4a4ecc8e0b80f745a8287728ee823a3297d7f0cd2022f79b647f65
?5
$burr drive duo duo.plan
>ready 04628b243834a3e56bed450fddb3666a81111728c2465e0c897a015fe021392a
?0
<next
$burr drive cup cup.plan
>ready b4fb2d488d4a4ecc8e0b80f745a8287728ee823a3297d7f0cd2022f79b647f65
>ask 1 0 2 proc 0 pc 5
?5
<goto 1
<quit
$burr drive cup cup.plan
>ready b4fb2d488d4a4ecc8e0b80f745a8287728ee823a3297d7f0cd2022f79b647f65
>ask 1 0 2 proc 0 pc 5
?5
<next
<answer 1 0
$burr drive cup cup.plan
>ready b4fb2d488d4a4ecc8e0b80f745a8287728ee823a3297d7f0cd2022f79b647f65
>ask 1 0 2 proc 0 pc 5
>taken 1
?0
<next
<answer 1 1
<goto 1
<goto 0
<goto 2
$burr drive cup cup.plan
>ready b4fb2d488d4a4ecc8e0b80f745a8287728ee823a3297d7f0cd2022f79b647f65
>ask 1 0 2 proc 0 pc 5
>taken 1
>at 1
>refused command
>end 11
?0
<next00000000000000000000000000000000000000000000000000000000000000
<forward
$burr drive duo duo.plan
>ready 04628b243834a3e56bed450fddb3666a81111728c2465e0c897a015fe021392a
>refused command
>refused command
?0
";

/// What is refused, or can't be read, before a command is read.
const REFUSED: &str = "\
<next
$burr drive cup duo.bpln
>refused V1 proc 0 pc 0
?1
<next
$burr drive cup duo.plan
>refused V1 proc 0 pc 0
?1
<next
$burr drive cup none
!cannot read none
?3
<next
$burr drive duo.bpln duo.bpln
>refused A1 line 1
?1
";

/// Where standard input fails, the commands before are answered.
const FAILING: &str = "\
<next
&next
$burr drive cup cup.bpln
>ready b4fb2d488d4a4ecc8e0b80f745a8287728ee823a3297d7f0cd2022f79b647f65
>ask 1 0 2 proc 0 pc 5
!cannot read -
?3
";

/// Real burrs: a question in the middle of a line of the sheet, so that the moves before and after it are
/// two; two questions, one of them for a number of units; groups of several pieces, and more trays.
pub const PUZZLES: &str = "\
<plan cup 2 6
<proc main 0
<label start
<frame 0 -
<cost 6
<at 0 0 0 0 0
<at 1 0 0 0 0
<grip 0
<step +z
<pick out more
<
<label out
<frame 0 0
<cost 2
<at 0 0 0 0 1
<at 1 0 0 0 0
<aside +z 1
<halt
<
<label more
<frame 0 0
<cost 3
<at 0 0 0 0 1
<at 1 0 0 0 0
<step +z
<aside +z 1
<halt
=cup-pause.plan
<next
<next
<answer 1 0
<next
<next
<goto 1
<show
$burr drive cup cup-pause.plan
>ready c7ba1d1451babae4f8ab8bababcb1cc31d7bf812810c9780bc6da9e19e1391e4
>move 1 t0 A +z 1
>ask 1 0 1 proc 0 pc 7
>taken 1
>move 2 t0 A +z 0 out t1 apart A,B
>end 5
>refused command
>after 5 steps proc 0 pc 16 ended
>tray 0 grip -
>slots - - - - - - - -
>stack -
>A apart
>B apart
?0
<next
<next
<answer 1 1
<next
<next
<goto 3
<goto 2
$burr drive cup cup-pause.plan
>ready c7ba1d1451babae4f8ab8bababcb1cc31d7bf812810c9780bc6da9e19e1391e4
>move 1 t0 A +z 1
>ask 1 0 1 proc 0 pc 7
>taken 1
>move 2 t0 A +z 1 out t1 apart A,B
>end 6
>end 6
>at 2
?0
<assembly solid-six
<shape x-front
<layer
<######
<###..#
<layer
<##..##
<##...#
<end
<shape x-back
<layer
<#.##.#
<######
<layer
<#....#
<##..##
<end
<shape y-low
<layer
<##
<##
<.#
<.#
<##
<##
<layer
<##
<..
<.#
<..
<..
<##
<end
<shape y-top
<layer
<##
<##
<##
<##
<##
<##
<layer
<##
<##
<##
<##
<##
<##
<end
<shape z-left
<layer
<##
<##
<layer
<##
<##
<layer
<..
<#.
<layer
<..
<#.
<layer
<#.
<#.
<layer
<##
<##
<end
<shape z-right
<layer
<##
<##
<layer
<.#
<.#
<layer
<.#
<.#
<layer
<.#
<.#
<layer
<.#
<.#
<layer
<##
<##
<end
<piece x-front x-front +x+y+z 0 1 2
<piece x-back x-back +x+y+z 0 3 2
<piece y-low y-low +x+y+z 2 0 1
<piece y-top y-top +x+y+z 2 0 3
<piece z-left z-left +x+y+z 1 2 0
<piece z-right z-right +x+y+z 3 2 0
=solid-six
<plan solid-six 6 29
<proc main 0
<label start
<frame 0 -
<cost 29
<at 0 0 0 0 0
<at 1 0 0 0 0
<at 2 0 0 0 0
<at 3 0 0 0 0
<at 4 0 0 0 0
<at 5 0 0 0 0
<pick front back
<
<label front
<frame 0 -
<cost 28
<at 0 0 0 0 0
<at 1 0 0 0 0
<at 2 0 0 0 0
<at 3 0 0 0 0
<at 4 0 0 0 0
<at 5 0 0 0 0
<grip 3
<aside -y 1
<jump keyless
<
<label back
<frame 0 -
<cost 27
<at 0 0 0 0 0
<at 1 0 0 0 0
<at 2 0 0 0 0
<at 3 0 0 0 0
<at 4 0 0 0 0
<at 5 0 0 0 0
<grip 3
<aside +y 1
<
<label keyless
<frame 0 -
<cost 25
<at 0 0 0 0 0
<at 1 0 0 0 0
<at 2 0 0 0 0
<at 3 apart
<at 4 0 0 0 0
<at 5 0 0 0 0
<grip 1
<step +z
<ask 0 3
<store 0
<load 0
<store 1
<
<label draw
<frame 0 1
<slot 0 0 3
<slot 1 0 3
<guard 0+1v0-1v1
<cost 10+3v1
<at 0 0 0 0 0
<at 1 0 0 0+1v0-1v1 1
<at 2 0 0 0 0
<at 3 apart
<at 4 0 0 0 0
<at 5 0 0 0 0
<down 1 unit
<aside +y 1
<grip 0,2,5
<aside +x 1
<tray 1
<grip 5
<aside +y 2
<grip 0
<aside +z 2
<halt
<
<label unit
<frame 0 1
<slot 0 0 3
<slot 1 0 2
<guard -1+1v0-1v1
<cost 12+3v1
<at 0 0 0 0 0
<at 1 0 0 -1+1v0-1v1 1
<at 2 0 0 0 0
<at 3 apart
<at 4 0 0 0 0
<at 5 0 0 0 0
<step +y
<jump draw
=solid-six.plan
<next
<answer 1 0
<next
<next
<next
<answer 2 3
<next
<next
<next
<next
<next
<answer 3 0
<goto 7
$burr drive solid-six solid-six.plan
>ready d0c8b997aa8652b4f0fb0af6b272abb2e398b21fbea076695bfc59938808f14e
>ask 1 0 1 proc 0 pc 0
>taken 1
>move 1 t0 y-top -y 0 out t1 apart y-top
>move 2 t0 x-back +z 1
>ask 2 0 3 proc 0 pc 32
>taken 2
>move 3 t0 x-back +y 3 out t1 apart x-back
>move 4 t0 x-front,y-low,z-right +x 0 out t1 apart z-left
>move 5 t1 z-right +y 0 out t2 apart z-right
>move 6 t1 x-front +z 0 out t2 apart x-front,y-low
>end 29
>refused answer
>end 29
?0
<next
<answer 1 1
<next
<next
<next
<answer 2 0
<next
<next
<next
<next
<next
<quit
$burr drive solid-six solid-six.plan
>ready d0c8b997aa8652b4f0fb0af6b272abb2e398b21fbea076695bfc59938808f14e
>ask 1 0 1 proc 0 pc 0
>taken 1
>move 1 t0 y-top +y 0 out t1 apart y-top
>move 2 t0 x-back +z 1
>ask 2 0 3 proc 0 pc 32
>taken 2
>move 3 t0 x-back +y 0 out t1 apart x-back
>move 4 t0 x-front,y-low,z-right +x 0 out t1 apart z-left
>move 5 t1 z-right +y 0 out t2 apart z-right
>move 6 t1 x-front +z 0 out t2 apart x-front,y-low
>end 19
?0
<next
<answer 1 1
<next
<next
<next
<goto 3
<answer 1 0
$burr drive solid-six solid-six.plan
>ready d0c8b997aa8652b4f0fb0af6b272abb2e398b21fbea076695bfc59938808f14e
>ask 1 0 1 proc 0 pc 0
>taken 1
>move 1 t0 y-top +y 0 out t1 apart y-top
>move 2 t0 x-back +z 1
>ask 2 0 3 proc 0 pc 32
>ask 2 0 3 proc 0 pc 32
>refused answer
?5
<assembly six-boards
<shape x-low
<layer
<######
<#...##
<#....#
<######
<end
<shape x-high
<layer
<######
<#....#
<#...##
<######
<end
<shape y-left
<layer
<#
<#
<.
<.
<#
<#
<layer
<#
<.
<.
<.
<.
<#
<layer
<#
<.
<.
<.
<.
<#
<layer
<#
<#
<#
<#
<#
<#
<end
<shape y-right
<layer
<#
<#
<.
<.
<#
<#
<layer
<#
<.
<.
<.
<.
<#
<layer
<#
<.
<.
<.
<.
<#
<layer
<#
<#
<#
<#
<#
<#
<end
<shape z-front
<layer
<####
<layer
<#..#
<layer
<#...
<layer
<#..#
<layer
<#..#
<layer
<####
<end
<shape z-back
<layer
<####
<layer
<#.##
<layer
<#...
<layer
<#...
<layer
<#..#
<layer
<####
<end
<piece x-low x-low +x+y+z 0 1 2
<piece x-high x-high +x+y+z 0 1 3
<piece y-left y-left +x+y+z 2 0 1
<piece y-right y-right +x+y+z 3 0 1
<piece z-front z-front +x+y+z 1 2 0
<piece z-back z-back +x+y+z 1 3 0
=six-boards
<plan six-boards 6 51
<proc main 0
<label start
<frame 0 -
<cost 51
<at 0 0 0 0 0
<at 1 0 0 0 0
<at 2 0 0 0 0
<at 3 0 0 0 0
<at 4 0 0 0 0
<at 5 0 0 0 0
<grip 0
<step -x
<step -x
<grip 4
<step +z
<grip 1
<step -x
<step -x
<grip 4
<step -z
<grip 0
<step +x
<step +x
<grip 5
<step +z
<grip 2,3,4
<step +x
<grip 0,5
<step -x
<grip 4
<step +z
<grip 3
<step -z
<aside +x 1
<
<label five
<frame 0 -
<cost 27
<at 0 0 -1 0 0
<at 1 0 -2 0 0
<at 2 0 1 0 0
<at 3 apart
<at 4 0 1 0 1
<at 5 0 -1 0 1
<grip 2
<step +x
<step -z
<aside +x 1
<
<label four
<frame 0 -
<cost 23
<at 0 0 -1 0 0
<at 1 0 -2 0 0
<at 2 apart
<at 3 apart
<at 4 0 1 0 1
<at 5 0 -1 0 1
<grip 1
<step +x
<grip 5
<step -z
<grip 1,5
<step +x
<step +x
<grip 4
<step -z
<grip 0
<step +x
<step +x
<grip 1,5
<aside +z 1
<
<label pairs
<frame 0 -
<cost 9
<at 0 0 1 0 0
<at 1 1 1 0 0
<at 2 apart
<at 3 apart
<at 4 0 1 0 0
<at 5 1 1 0 0
<grip 4
<step +y
<grip 0
<aside +z 2
<tray 1
<grip 1
<step +y
<aside +z 2
<halt
=six-boards.plan
<next
<next
<next
<next
<next
<next
<next
<next
<next
<next
<next
<next
<next
<next
<next
<next
<next
<next
<next
<next
<next
<next
<next
<next
<next
<next
<goto 24
$burr drive six-boards six-boards.plan
>ready 3f3c23ba039df070dfdb37abdc04f770fc7b288a851a6ad0ec2c53aa9a217ad1
>move 1 t0 x-low -x 2
>move 2 t0 z-front +z 1
>move 3 t0 x-high -x 2
>move 4 t0 z-front -z 1
>move 5 t0 x-low +x 2
>move 6 t0 z-back +z 1
>move 7 t0 y-left,y-right,z-front +x 1
>move 8 t0 x-low,z-back -x 1
>move 9 t0 z-front +z 1
>move 10 t0 y-right -z 1
>move 11 t0 y-right +x 0 out t1 apart y-right
>move 12 t0 y-left +x 1
>move 13 t0 y-left -z 1
>move 14 t0 y-left +x 0 out t1 apart y-left
>move 15 t0 x-high +x 1
>move 16 t0 z-back -z 1
>move 17 t0 x-high,z-back +x 2
>move 18 t0 z-front -z 1
>move 19 t0 x-low +x 2
>move 20 t0 x-high,z-back +z 0 out t1
>move 21 t0 z-front +y 1
>move 22 t0 x-low +z 0 out t2 apart x-low,z-front
>move 23 t1 x-high +y 1
>move 24 t1 x-high +z 0 out t2 apart x-high,z-back
>end 51
>end 51
>at 24
?0
";

#[test]
fn leads_real_burrs(rt: HostRuntime) {
    assert_examples(&rt, PUZZLES);
}

#[test]
fn leads_move_by_move(rt: HostRuntime) {
    assert_examples(&rt, LED);
    assert_transcript(&rt, LEFT);
    assert_transcript(&rt, REFUSED);
    assert_transcript(&rt, FAILING);
}

/// A pair of four cubes that goes out as one lies in a tray of its own, and is taken apart there.
pub const GROUP: &str = "\
<assembly square
<shape cube
<layer
<#
<end
<piece A cube +x+y+z 0 0 0
<piece B cube +x+y+z 1 0 0
<piece C cube +x+y+z 0 1 0
<piece D cube +x+y+z 1 1 0
=square
<plan square 4 8
<proc main 0
<label start
<frame 0 -
<cost 8
<at 0 0 0 0 0
<at 1 0 0 0 0
<at 2 0 0 0 0
<at 3 0 0 0 0
<grip 2,3
<aside +y 1
<grip 0
<aside -x 2
<tray 1
<grip 2
<aside -x 2
<halt
=square.plan
";

#[test]
fn tells_where_a_group_goes(rt: HostRuntime) {
    assert_transcript(&rt, GROUP);
    let end = end_of(
        &rt,
        "burr drive square square.plan",
        "next\nnext\nnext\nnext\n",
    );
    let moves = "move 1 t0 C,D +y 0 out t1\nmove 2 t0 A -x 0 out t2 apart A,B\n\
        move 3 t1 C -x 0 out t2 apart C,D\nend 8\n";
    let told = end.output.text().split_once('\n').map(|lines| lines.1);
    assert_case(&rt, "moves", end.status == 0 && told == Some(moves));
}
