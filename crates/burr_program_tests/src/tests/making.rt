//! Plan texts that are made of sheets, and frames that are filled in.
use super::transcript::{assert_examples, assert_transcript};
use super::*;

/// Sheets with a plan and without, and an OUT that is read.
const SHEETS: &str = "\
<1 t0 A -x 0 out
<levels 1
<apart in 3 steps
=s.sheet
$burr plan duo s.sheet s.plan
?0
$burr why duo s.plan
>accepted cost 3 budget 3 looks 1
?0
$burr asm s.plan s.bpln
?0
$burr list s.bpln
>plan duo 2 3
>proc p0 0
>label L0
>frame 0 -
>cost 3
>at 0 0 0 0 0
>at 1 0 0 0 0
>grip 0
>aside -x 1
>halt
?0
<1 t0 A -y 2
<2 t0 A +z 0 out
=s.sheet
$burr plan duo s.sheet s.plan
?0
$burr why duo s.plan
>accepted cost 5 budget 5 looks 3
?0
<1 t0 A -y 2
<3 t0 A +z 0 out
=s.sheet
$burr plan duo s.sheet s.plan
>refused sheet line 2
>s.sheet:2: 3 t0 A +z 0 out
>    the number of the line is 3, and 2 is next
>`burr plan` can't go on at the line of the sheet that is named, counted from 1.
>`burr explain sheet` says more
?1
<1 t0 A -y 1
<2 t0 A +x 0 out
=s.sheet
$burr plan duo s.sheet s.plan
?0
<1 t0 A +x 0 out
=s.sheet
$burr plan duo s.sheet s.plan
>refused V16 proc 0 pc 5 pieces A B
>s.sheet:1: 1 t0 A +x 0 out
>draft:9: aside +x 1
>    in p0, after label L0
>    A and B overlap at cell 1 0 0, 1 along +x
>draft:8: grip 0
>    gripped: A
>draft:6: at 0 0 0 0 0
>draft:7: at 1 0 0 0 0
>The gripped pieces may not be free along the direction: somewhere on its way out
>the first piece named would overlap the other one, at the point that is named.
>`burr explain V16` says more
?1
<levels -
=s.sheet
$burr plan duo s.sheet s.plan
>refused V23 proc 0 pc 0
>s.sheet:1: levels -
>draft:8: halt
>    in p0, after label L0
>    A is in tray 0, and not apart
>    B is in tray 0, and not apart
>`halt` ends the run, and a piece is not apart.
>`burr explain V23` says more
?1
<1 t0 A -y 200
<2 t0 A +y 31000
=s.sheet
$burr plan duo s.sheet s.plan
>refused sheet line 2
>s.sheet:2: 2 t0 A +y 31000
>    with it the code has no room in 16 procedures
>`burr plan` can't go on at the line of the sheet that is named, counted from 1.
>`burr explain sheet` says more
?1
$burr plan duo s.sheet s.sheet
!error: OUT is SHEET itself: s.sheet
?2
$burr plan duo s.sheet duo
!error: OUT is ASSEMBLY itself: duo
?2
$burr plan duo none s.plan
!cannot read none
?3
@duo
/piece B/piece A
=clash
$burr plan clash s.sheet s.plan
>refused A2 line 7
>clash:7: piece A cube +x+y+z 1 0 0
>A name is badly formed or taken.
>`burr explain A2` says more
?1
$burr why duo s.plan
>accepted cost 4 budget 4 looks 2
?0
";

/// Lines that are each faulty as the second one of a sheet, and what is said of them.
const FAULTY_LINES: &str = "\
|a move line has the form `3 t0 A,B +x 2 out`, one blank between words
A +z|a move line has the form `3 t0 A,B +x 2 out`, one blank between words
2  t0 A +z 1|a move line has the form `3 t0 A,B +x 2 out`, one blank between words
2 t0 A +z 1 |a move line has the form `3 t0 A,B +x 2 out`, one blank between words
2 t0 A +z|words are missing: a move line has the form `3 t0 A,B +x 2 out`
2 t0 A +z 1 out B|there are too many words: a move line has the form `3 t0 A,B +x 2 out`
2 t0 A +z 1\r|a carriage return stands before the line feed
7 t0 A +z 1|the number of the line is 7, and 2 is next
2 0 A +z 1|`0` is no tray: trays are written t0 to t31
2 t32 A +z 1|`t32` is no tray: trays are written t0 to t31
2 t0 A,C +z 1|no piece of the assembly is named `C`
2 t0 A, +z 1|no piece of the assembly is named ``
2 t0 A,A +z 1|A is named twice
2 t0 B,A +z 1|A comes too late: pieces are named in the assembly's order
2 t0 A z 1|`z` is no direction: these are +x -x +y -y +z -z
2 t0 A +z out|`out` is no number of units: these are 0 to 1000000
2 t0 A +z 1000001|`1000001` is no number of units: these are 0 to 1000000
2 t0 A +z 01|`01` is no number of units: these are 0 to 1000000
2 t0 A +z 1 Out|`Out` stands where only `out` may stand
2 t0 A +z 0|0 units are a move only before `out`
2 t0 A -y 1|it goes on with the line before: the units of both stand in one line
2 t0 A +z 1000000|with it there are more than 1000000 moves of a unit
";

/// Texts without frames, whose runs come to their ends or do not.
const FRAMES: &str = "\
<plan ring 2 11
<proc main 0
<label start
<auto
<grip 0
<push 2
<store 0
<label L
<auto
<step +z
<down 0 L
<aside +z 1
<halt
=f.plan
$burr why ring f.plan
>refused P5 line 4
>f.plan:4: auto
>    `auto` stands here until `burr frames` fills it in
>No `frame` is next after `label`, or a procedure's first label is missing: its
>code begins with a label and that label's frame.
>`burr explain P5` says more
?1
$burr frames ring f.plan g.plan
?0
$burr why ring g.plan
>accepted cost 11 budget 11 looks 4
?0
$burr frames ring f.plan f.plan
!error: OUT is TEXT itself: f.plan
?2
$burr frames ring f.plan ring
!error: OUT is ASSEMBLY itself: ring
?2
$burr frames duo f.plan h.plan
>refused V1 proc 0 pc 0
>f.plan:1: plan ring 2 11
>    the assembly is duo and has 2 pieces
>The plan is one for another assembly: its name or its number of pieces differs.
>`burr explain V1` says more
?1
@f.plan
/down 0 L/down 0 M
=f.plan
$burr frames ring f.plan h.plan
>refused P2 line 11
>f.plan:11: down 0 M
>    no label of this procedure has the name `M`
>A name is taken already, or nothing has it.
>`burr explain P2` says more
?1
@f.plan
/down 0 M/jump L
=f.plan
$burr frames ring f.plan h.plan
>1 t0 A +z 4
>levels -
>stopped after 11 steps
?1
@f.plan
/jump L/pick L M
/halt/label M;auto;halt
=f.plan
$burr frames ring f.plan h.plan
>refused P1 line 13
>f.plan:13: label M;auto;halt
>    a comment stands on a line of its own, which begins with `;`
>The line is not of the grammar, may not stand here or has no line feed, or the
>text ends too early.
>`burr explain P1` says more
?1
<plan duo 2 20
<proc main 0
<label start
<frame 0 -
<cost 20
<at 0 0 0 0 0
<at 1 0 0 0 0
<push 1
<store 0
<label L
<auto
<push 3
<grip 0
<down 0 L
<aside -x 1
<halt
=f.plan
$burr frames duo f.plan h.plan
>refused frame line 11
>f.plan:11: auto
>    no frame agrees with all that the runs come here with:
>; frame: not always one tray and grip
>slot 0 0 1
>; stack: not always as many operands
>cost 5+3v0
>at 0 0 0 0 0
>at 1 0 0 0 0
>`burr frames` finds nothing to put in place of the `auto` in the line that is
>named, counted from 1.
>`burr explain frame` says more
?1
<plan duo 2 auto
<proc main 0
<label start
<auto
<jump M
<label L
<auto
<halt
<label M
<auto
<grip 0
<aside -x 1
<halt
=f.plan
$burr why duo f.plan
>refused P1 line 1
>f.plan:1: plan duo 2 auto
>    `auto` stands here until `burr frames` fills it in
>The line is not of the grammar, may not stand here or has no line feed, or the
>text ends too early.
>`burr explain P1` says more
?1
$burr frames duo f.plan h.plan
>refused frame line 7
>f.plan:7: auto
>    no run comes here
>`burr frames` finds nothing to put in place of the `auto` in the line that is
>named, counted from 1.
>`burr explain frame` says more
?1
$burr why duo h.plan
>refused P5 line 10
>h.plan:10: auto
>    `auto` stands here until `burr frames` fills it in
>No `frame` is next after `label`, or a procedure's first label is missing: its
>code begins with a label and that label's frame.
>`burr explain P5` says more
?1
";

/// Texts with questions, without frames, exit frames and budgets.
const QUESTIONS: &str = "\
<plan cup 2 auto
<proc main 0
<label start
<auto
<grip 0
<ask 0 2
<store 0
<load 0
<store 1
<label L
<auto
<down 1 M
<aside +z 1
<halt
<label M
<auto
<step +z
<jump L
=q.plan
$burr frames cup q.plan w.plan
?0
$burr why cup w.plan
>accepted cost 14 budget 14 looks 6
?0
$burr frames cup cup.plan w.plan
?0
~w.plan cup.plan
<1
$burr trace cup q.plan
>1 t0 A +z 1 out
>levels 1
>apart in 11 steps
>
>; q.plan:3: label start of main: steps 0
>frame 0 -
>cost 11
>at 0 0 0 0 0
>at 1 0 0 0 0
>
>; q.plan:10: label L of main: steps 5, answer 1
>frame 0 0
>slot 0 1 1
>slot 1 1 1
>cost 6
>at 0 0 0 0 0
>at 1 0 0 0 0
>
>; q.plan:15: label M of main: steps 6, answer 1
>frame 0 0
>slot 0 1 1
>slot 1 0 0
>cost 5
>at 0 0 0 0 0
>at 1 0 0 0 0
>
>; q.plan:10: label L of main: steps 8, answer 1
>frame 0 0
>slot 0 1 1
>slot 1 0 0
>cost 3
>at 0 0 0 0 1
>at 1 0 0 0 0
>
>; q.plan:3: label start of main: times 1
>frame 0 -
>cost 11
>at 0 0 0 0 0
>at 1 0 0 0 0
>
>; q.plan:10: label L of main: times 2
>frame 0 0
>slot 0 1 1
>slot 1 0 1
>cost 3+3v1
>at 0 0 0 0 1-1v1
>at 1 0 0 0 0
>
>; q.plan:15: label M of main: times 1
>frame 0 0
>slot 0 1 1
>slot 1 0 0
>cost 5
>at 0 0 0 0 0
>at 1 0 0 0 0
?0
<plan2 cup 2 auto
<proc main 0 0
<label start
<auto
<grip 0
<call lift
<drop
<aside +z 1
<halt
<proc lift 0 1
<auto
<label in
<auto
<ask 0 2
<store 0
<load 0
<store 1
<label L
<auto
<down 1 M
<load 0
<ret
<label M
<auto
<step +z
<jump L
=r.plan
$burr frames cup r.plan w.plan
?0
$burr why cup w.plan
>accepted cost 18 budget 18 looks 6
?0
<plan ring 2 auto
<proc main 0
<label start
<auto
<grip 0
<ask 0 1
<drop
<pick a b
<label a
<auto
<aside +z 1
<halt
<label b
<auto
<step +x
<aside +z 1
<halt
=t.plan
$burr frames ring t.plan w.plan
>levels -
>trap 1 Collision proc 0 pc 21 after 4 steps
>    answers: 0 1
?1
<plan ring 2 auto
<proc main 0
<label start
<auto
<ask 0 200
<drop
<label next
<auto
<ask 0 200
<drop
<grip 0
<aside +z 1
<halt
=u.plan
$burr frames ring u.plan w.plan
>not all answers were tried: of each range the least, the middle and the greatest
?0
$burr why ring w.plan
>accepted cost 7 budget 7 looks 201
?0
";

/// Texts whose runs are told of by hundreds: with 221 answers to a question, all or up to one whose run
/// is stopped.
const MANY_RUNS: &str = "\
<plan cup 2 auto
<proc main 0
<label start
<auto
<grip 0
<ask 0 220
<store 0
<label L
<auto
<down 0 L
<aside +z 1
<halt
=q.plan
$burr frames cup q.plan w.plan
!frames: 100 runs
!frames: 200 runs
?0
$burr why cup w.plan
>accepted cost 226 budget 226 looks 1
?0
$burr frames cup q.plan none/w.plan
!frames: 100 runs
!frames: 200 runs
!cannot write none/w.plan
?3
@q.plan
/2 auto/2 126
=r.plan
$burr frames cup r.plan v.plan
!frames: 100 runs
>1 t0 A +z 0 out
>levels 1
>stopped after 126 steps
>    answers: 121
?1
$burr why cup v.plan
!cannot read v.plan
?3
";

/// Three cubes in a row.
const ROW: &str = "\
<assembly row
<shape cube
<layer
<#
<end
<piece A cube +x+y+z 0 0 0
<piece B cube +x+y+z 1 0 0
<piece C cube +x+y+z 2 0 0
=row
";

/// What the run of a plan puts whose code has 9,618 bytes, so that it takes three procedures beside main.
const LONG_SHEET: &str = "\
1 t0 A,B -x 200
2 t0 A,B +x 200
3 t0 A,B -x 200
4 t0 A,B +x 200
5 t0 A,B -x 200
6 t0 A,B +x 200
7 t0 A,B -x 200
8 t0 A,B +x 200
9 t0 A,B -x 200
10 t0 A,B +x 200
11 t0 A,B -x 200
12 t0 A,B +x 200
13 t0 A,B -x 0 out
14 t1 A -x 200
15 t1 A +x 200
16 t1 A -x 200
17 t1 A +x 200
18 t1 A -x 200
19 t1 A +x 200
20 t1 A -x 200
21 t1 A +x 200
22 t1 A -x 200
23 t1 A +x 200
24 t1 A -x 200
25 t1 A +x 200
26 t1 A -x 0 out
levels 13.13
apart in 4812 steps
";

/// What becomes of that sheet, and of one whose last move is not safe.
const OF_LONG_SHEET: &str = "\
$burr plan row s.sheet s.plan
?0
$burr asm s.plan s.bpln
?0
$burr check row s.bpln
>accepted cost 4812 budget 4812 looks 7203
?0
@s.sheet
/26 t1 A -x/26 t1 B -x
=wrong.sheet
$burr plan row wrong.sheet s.plan
>refused V16 proc 3 pc 1431 pieces B A
>wrong.sheet:26: 26 t1 B -x 0 out
>draft:4853: aside -x 0
>    in p3, after label L0
>    B and A overlap at cell 0 0 0, 1 along -x
>draft:4852: grip 1
>    gripped: B
>draft:4137: at 1 1 0 0 0
>draft:4136: at 0 1 -87 0 0
>The gripped pieces may not be free along the direction: somewhere on its way out
>the first piece named would overlap the other one, at the point that is named.
>`burr explain V16` says more
?1
$burr run row s.bpln
";

/// Asserts what is said of the second line of a sheet, which ends so.
fn assert_faulty_line<T: Abort + Files + AllocGlobal>(rt: &T, line: &str, end: &str, note: &str) {
    let sheet = format!(in rt.alloc(); "1 t0 A -y 2\n{line}{end}").expect(rt, "memory");
    assert!(rt; fs::write(rt, "s.sheet", &sheet).is_ok());
    let shown = replaced(rt, line, "\r", "?");
    let transcript = format!(in rt.alloc();
        "$burr plan duo s.sheet s.plan\n\
        >refused sheet line 2\n\
        >s.sheet:2: {shown}\n\
        >    {note}\n\
        >`burr plan` can't go on at the line of the sheet that is named, counted from 1.\n\
        >`burr explain sheet` says more\n\
        ?1\n"
    )
    .expect(rt, "memory");
    assert_transcript(rt, &transcript);
}

#[test]
fn makes_plans_of_sheets_and_fills_in_frames(rt: HostRuntime) {
    assert_examples(&rt, SHEETS);
    assert_transcript(&rt, FRAMES);
    assert_examples(&rt, QUESTIONS);
}

#[test]
fn tells_how_many_runs_were_made(rt: HostRuntime) {
    assert_examples(&rt, MANY_RUNS);
    let words = words_of(&rt, "burr frames cup q.plan u.plan");
    for told in ["", "fra", "frames: 100 runs\n", "frames: 100 runs\nf"] {
        let mut end = End::new();
        end.complaint.room = told.len();
        end.call(&rt, &words, Drips::of(""));
        assert!(rt; end.is(0, "", told));
        assert!(rt; are_alike(&rt, "u.plan", "w.plan"));
    }
}

/// Eleven questions have 177,147 lists of answers. Standard error has room for some of the lines.
#[test]
fn makes_no_more_than_40000_runs(rt: HostRuntime) {
    assert_examples(&rt, "");
    let questions = "ask -1 1\ndrop\n"
        .repeat(rt.alloc(), 11)
        .expect(&rt, "memory");
    let text = format!(in rt.alloc();
        "plan cup 2 auto\nproc main 0\nlabel start\nauto\n{questions}grip 0\naside +z 1\nhalt\n"
    ).expect(&rt, "memory");
    assert!(rt; fs::write(&rt, "q.plan", &text).is_ok());
    let mut told = String::new(rt.alloc());
    for hundreds in 1..400 {
        assert!(rt; writeln!(told, "frames: {hundreds}00 runs").is_ok());
    }
    let end = end_of(&rt, "burr frames cup q.plan w.plan", "");
    let told = told.get(..MOST).unwrap_or("");
    assert!(rt;
        end.is(
            0,
            "not all answers were tried: 40000 runs are the most\n",
            told
        )
    );
}

#[test]
fn says_what_is_wrong_with_a_line_of_a_sheet(rt: HostRuntime) {
    assert_examples(&rt, "");
    for case in FAULTY_LINES.lines() {
        let (line, note) = case.split_once('|').expect(&rt, "a note");
        assert_faulty_line(&rt, line, "\n", note);
    }
    assert_faulty_line(&rt, "2 t0 A +z 1", "", "no line feed ends the line");
}

#[test]
fn makes_plans_of_several_procedures(rt: HostRuntime) {
    assert_transcript(&rt, ROW);
    assert!(rt; fs::write(&rt, "s.sheet", LONG_SHEET).is_ok());
    let mut transcript = String::from_str(rt.alloc(), OF_LONG_SHEET).expect(&rt, "memory");
    for line in LONG_SHEET.lines() {
        assert!(rt; writeln!(transcript, ">{line}").is_ok());
    }
    assert!(rt; transcript.push_str("?0\n").is_ok());
    assert_transcript(&rt, &transcript);
}
