//! Words, and what they ask for: help, the version, faults, jobs.
use crate::asserts::assert_text;
use burr_command::{Job, Request, request_of};
use std::alloc::{AllocError, Global};
use std::process::Abort;

/// The words of a command line, the program's name first; a blank stands between two of them.
fn words_of(alloc: Global, line: &str) -> Result<Vec<String>, AllocError> {
    let mut words = Vec::new(alloc);
    for word in line.split(' ') {
        words.push(String::from_str(alloc, word)?)?;
    }
    Ok(words)
}

/// What the words of a line ask for, as text: `>` and each line of a reply, `!` and each line of a
/// fault, or `=` and a job.
fn answer_of(alloc: Global, line: &str) -> Result<String, AllocError> {
    let mut answer = String::new(alloc);
    add_answer(alloc, line, &mut answer)?;
    Ok(answer)
}

/// Adds what the words of a line ask for.
fn add_answer(alloc: Global, line: &str, answer: &mut String) -> Result<(), AllocError> {
    let words = words_of(alloc, line)?;
    let request = request_of(alloc, &words)?;
    add_request(&request, answer)
}

/// Adds what words ask for.
fn add_request(request: &Request<'_>, answer: &mut String) -> Result<(), AllocError> {
    match request {
        Request::Reply(reply) => {
            add_marked(if reply.is_fault { "!" } else { ">" }, &reply.text, answer)
        }
        Request::Job(job) => add_job(job, answer),
    }
}

/// Adds a job: its command, and its files or its line.
fn add_job(job: &Job<'_>, answer: &mut String) -> Result<(), AllocError> {
    answer.push('=')?;
    answer.push_str(job_name(job))?;
    match job {
        Job::Explain { line } => add_words(&[line.as_str()], answer),
        _ => add_words(&job_files(job), answer),
    }
}

/// Adds the lines of a text, each after a mark.
fn add_marked(mark: &str, text: &str, answer: &mut String) -> Result<(), AllocError> {
    for line in text.lines() {
        answer.push_str(mark)?;
        answer.push_str(line)?;
        answer.push('\n')?;
    }
    Ok(())
}

/// Adds words up to the first that is empty, a blank before each, and the end of the line.
fn add_words(words: &[&str], answer: &mut String) -> Result<(), AllocError> {
    for word in words {
        if word.is_empty() {
            break;
        }
        answer.push(' ')?;
        answer.push_str(word)?;
    }
    answer.push('\n')
}

/// The command of a job, with its option.
fn job_name(job: &Job<'_>) -> &'static str {
    match job {
        Job::Cells { .. } => "cells",
        Job::Assemble { .. } => "asm",
        Job::List { places, .. } => { if *places { "list --places" } else { "list" } }
        Job::Upgrade { .. } => "upgrade",
        Job::Check { .. } => "check",
        Job::Judge { null } => { if *null { "judge --null" } else { "judge" } }
        Job::Run { .. } => "run",
        Job::Try { .. } => "try",
        Job::Step { .. } => "step",
        Job::Drive { .. } => "drive",
        Job::Why { .. } => "why",
        Job::Trace { .. } => "trace",
        Job::Frames { .. } => "frames",
        Job::PlanSheet { .. } => "plan",
        Job::Explain { .. } => "explain",
    }
}

/// The files of a job in the order of its command line, and an empty word for each that it lacks.
fn job_files<'a>(job: &Job<'a>) -> [&'a str; 3] {
    match job {
        Job::Cells { assembly } => [assembly, "", ""],
        Job::Assemble { text, out } => [text, out, ""],
        Job::List { plan, .. } => [plan, "", ""],
        Job::Upgrade { plan, out } => [plan, out, ""],
        Job::Check { assembly, plan }
        | Job::Run { assembly, plan }
        | Job::Try { assembly, plan }
        | Job::Step { assembly, plan }
        | Job::Drive { assembly, plan } => [assembly, plan, ""],
        Job::Why { assembly, text } | Job::Trace { assembly, text } => [assembly, text, ""],
        Job::Frames {
            assembly,
            text,
            out,
        } => [assembly, text, out],
        Job::PlanSheet {
            assembly,
            sheet,
            out,
        } => [assembly, sheet, out],
        Job::Judge { .. } | Job::Explain { .. } => ["", "", ""],
    }
}

/// Asserts the answers to command lines, between which `$` stands, each before the lines of its
/// answer.
fn assert_answers(rt: &impl Abort, alloc: Global, cases: &str) {
    for case in cases.split('$') {
        let (lines, wanted) = case.split_once('\n').expect(rt, "a case has a first line");
        assert_alike(rt, alloc, lines, wanted);
    }
}

/// Asserts the answer to each of some command lines, between which `;` stands.
fn assert_alike(rt: &impl Abort, alloc: Global, lines: &str, wanted: &str) {
    for line in lines.split(';') {
        let answer = answer_of(alloc, line).expect(rt, "memory");
        assert_text(rt, line, &answer, wanted);
    }
}

/// What the program says of itself.
const HELP: &str = "\
burr --help;burr -h;burr -h run;burr -hV;burr help
>Checks and runs plans that take burr puzzles apart, and prints move sheets.
>
>Usage: burr <COMMAND>
>       burr < INPUT
>
>Commands:
>  cells    Prints the cells in which the pieces of an assembly lie
>  asm      Assembles a plan text into a container
>  list     Prints the plan text of a container
>  upgrade  Makes the container of version 2 of a plan
>  check    Says whether a plan is accepted
>  judge    Says whether plans are accepted, pair by pair
>  run      Runs a plan that is accepted
>  try      Runs a plan on the bench, without accepting it
>  step     Goes through a plan that is accepted, step by step
>  drive    Leads a gripper through a plan that is accepted, move by move
>  why      Says why a plan text is refused, and which lines are at fault
>  trace    Runs a plan text, and prints what holds at each label
>  frames   Fills in frames that a plan text leaves out
>  plan     Makes a plan text from a sheet of moves
>  explain  Says what a refusal, a trap or another line means
>  help     Print this message or the help of the given subcommand(s)
>
>Options:
>  -h, --help     Print help
>  -V, --version  Print version
>
>An assembly is a text that draws a puzzle: shapes in layers, and its pieces. A
>plan is a text too: code that takes the puzzle apart, and at each label what
>holds there. You write both, or a program of yours does: burr does not search
>for a way to take a puzzle apart, it checks and runs the one that it is given.
>
>Example, to be pasted in the folder of burr:
>
>./burr asm examples/six-bars.plan /tmp/six-bars.bpln
>./burr check examples/six-bars.assembly /tmp/six-bars.bpln
>./burr run examples/six-bars.assembly /tmp/six-bars.bpln < /dev/null
>
>The first makes a container of the plan text. The second says `accepted`: then
>no run of the plan fails. The third prints the moves, and ends with `apart`.
>
>docs/ASSEMBLIES.md says how a puzzle is drawn, docs/PLANS.md how a plan is
>written, and docs/REFERENCE.md has all instructions and limits. Whatever is
>printed and not understood: burr explain 'THE LINE'.
>
>Without a command the input is an assembly and a line of code in hexadecimal
>digits, and its run is printed; docs/FORMATS.md has the rules.
>
>Exit statuses:
>
>  0  all pieces are apart; a plan is accepted; a command is done; help, version
>  1  refused, trapped or stopped, as printed
>  2  a fault of the command line; `explain` of a word that it does not know
>  3  a file or a stream failed, or one that is read has more than 16777216 bytes
>  4  out of memory
>  5  the run waits for an answer
$burr --version;burr -V;burr -Vh run
>burr 1.0.0 (rattle-kit-13f logic dac8208d650f15bf)
";

/// What is said of each command.
const COMMAND_HELP: &str = "\
burr cells --help
>Prints the cells in which the pieces of an assembly lie
>
>Usage: burr cells <ASSEMBLY>
>
>Arguments:
>  <ASSEMBLY>  The assembly text
>
>Options:
>  -h, --help  Print help
>
>A line is printed for each home cell, as `A 0 -1 2`: the piece, x, y and z. The
>pieces stand in the order of the text, the cells of each as its shape is drawn.
>A text that is no assembly is refused, as `refused A3 line 5`.
>
>Example: ./burr cells examples/cup.assembly
$burr asm --help;burr asm -h;burr help asm
>Assembles a plan text into a container
>
>Usage: burr asm <TEXT> <OUT>
>
>Arguments:
>  <TEXT>  The plan text
>  <OUT>   The container that is made
>
>Options:
>  -h, --help  Print help
>
>OUT is written last, and left alone where TEXT is refused: `refused P2 line 9`.
>A file OUT is replaced whole: until all of the container is written, the old
>one stands. OUT may not be TEXT itself.
>
>Example: ./burr asm examples/ring.plan /tmp/ring.bpln
$burr list --help
>Prints the plan text of a container
>
>Usage: burr list [OPTIONS] <PLAN>
>
>Arguments:
>  <PLAN>  The container
>
>Options:
>      --places  Says before each line of code where it stands
>  -h, --help    Print help
>
>A file that is no container is refused: `refused C1 at 12`. What is printed is
>assembled to the same bytes again.
>
>Example: ./burr list /tmp/ring.bpln
$burr upgrade --help
>Makes the container of version 2 of a plan
>
>Usage: burr upgrade <PLAN> <OUT>
>
>Arguments:
>  <PLAN>  The container
>  <OUT>   The container that is made
>
>Options:
>  -h, --help  Print help
>
>OUT has the same plan in version 2 of the format, where procedures may have
>results; of a container of version 2 it has the same bytes. OUT is written last,
>and left alone where PLAN is refused: `refused C1 at 12`. A file OUT is replaced
>whole. OUT may not be PLAN itself.
>
>Example: ./burr upgrade /tmp/ring.bpln /tmp/ring2.bpln
$burr check --help
>Says whether a plan is accepted
>
>Usage: burr check <ASSEMBLY> <PLAN>
>
>Arguments:
>  <ASSEMBLY>  The assembly text
>  <PLAN>      The container
>
>Options:
>  -h, --help  Print help
>
>The plan is judged, and not run: standard input is not read. `accepted cost 14
>budget 14 looks 6` says that no run of it meets a trap or makes more than 14
>steps, and that the check looked at two pieces 6 times. Else the first rule that
>fails is named, as `refused V28 proc 0 pc 0`, with status 1.
>
>Example: ./burr check examples/cup.assembly /tmp/cup.bpln
$burr judge --help;burr judge -h;burr help judge
>Says whether plans are accepted, pair by pair
>
>Usage: burr judge [OPTIONS]
>
>Options:
>      --null  Reads names that each end by a byte 0, as those of `find -print0`
>  -h, --help  Print help
>
>Pairs of files are read from standard input, one a line: an assembly text and a
>plan, a container or a plan text, with a tab between them. Each is judged as by
>`asm` and `check`, and answered before the next line is read: by its number, the
>status, and what would be printed, as `1 0 accepted cost 14 budget 14 looks 6`
>or `2 1 refused P2 line 9`. A file that can't be read is `3 3 cannot read`, and
>a line that is no such pair `4 1 refused pair`. No name is printed. An assembly
>that the pair before names too is not read again.
>
>The status is the greatest of those of the pairs: 0 where all are accepted.
>
>Example: printf 'examples/cup.assembly\\texamples/cup.plan\\n' | ./burr judge
$burr run --help;burr run -h;burr help run
>Runs a plan that is accepted
>
>Usage: burr run <ASSEMBLY> <PLAN>
>
>Arguments:
>  <ASSEMBLY>  The assembly text
>  <PLAN>      The container
>
>Options:
>  -h, --help  Print help
>
>A plan that `check` refuses is not run: the refusal is printed, with status 1.
>Answers to questions are read from standard input, a number on each line. The
>sheet that is printed ends with all pieces apart, or, where no answer is left,
>with what the run waits for and status 5.
>
>Example: echo 2 | ./burr run examples/cup.assembly /tmp/cup.bpln
$burr try --help
>Runs a plan on the bench, without accepting it
>
>Usage: burr try <ASSEMBLY> <PLAN>
>
>Arguments:
>  <ASSEMBLY>  The assembly text
>  <PLAN>      The container
>
>Options:
>  -h, --help  Print help
>
>Answers to questions are read from standard input, a number on each line. Each
>move is checked on the bench; the sheet that is printed ends with how the run
>closed. Status 5: it waits for an answer.
>
>Example: echo 2 | ./burr try examples/cup.assembly /tmp/cup.bpln
$burr step --help
>Goes through a plan that is accepted, step by step
>
>Usage: burr step <ASSEMBLY> <PLAN>
>
>Arguments:
>  <ASSEMBLY>  The assembly text
>  <PLAN>      The container
>
>Options:
>  -h, --help  Print help
>
>A plan that `check` refuses is not run: the refusal is printed, with status 1.
>Else commands are read from standard input, one a line, and each is answered
>before the next one is read:
>
>  forward     one step
>  over        one step, and where it is a call the whole procedure
>  until P L   on to label L of procedure P, both counted from 0
>  answer N    gives the number N that is asked for
>  back N      N steps back
>  show        where the run stands, its slots, operands and pieces
>  quit        the end; so is the end of the input
>
>An answer is `after 3 steps`, with `asks 0 2` or `ended` after it where that
>holds, or a refusal that changes nothing: `refused S2`, `refused command`. The
>status is 0 whatever was refused. docs/STEPPER.md says more.
>
>Example: echo forward | ./burr step examples/cup.assembly /tmp/cup.bpln
$burr drive --help
>Leads a gripper through a plan that is accepted, move by move
>
>Usage: burr drive <ASSEMBLY> <PLAN>
>
>Arguments:
>  <ASSEMBLY>  The assembly text
>  <PLAN>      The container, or the plan text
>
>Options:
>  -h, --help  Print help
>
>PLAN may be a plan text too, which is assembled. What `check` refuses is not
>led: the refusal is printed, with status 1. Else `ready D` is printed, with the
>SHA-256 of the assembly text and the container. Then commands are read from
>standard input, one a line, and each is answered before the next one is read:
>
>  next        the next whole move, or a question, or the end
>  answer Q N  gives the number N to question Q
>  goto K      goes on to behind move K, and tells no move
>  show        where the run stands, its slots, operands and pieces
>  quit        the end; so is the end of the input
>
>A move is `move 1 t0 A +z 2 out t1 apart A,B`: what moves, and where it goes out
>the tray it goes to, and which pieces are apart by it. A question is
>`ask 1 0 2 proc 0 pc 7`, the end `end 14`. `refused answer` and `refused command`
>change nothing. The status is 5 where a question is left open, and else 0.
>docs/GRIPPER.md says more.
>
>Example: echo next | ./burr drive examples/cup.assembly examples/cup.plan
$burr why --help
>Says why a plan text is refused, and which lines are at fault
>
>Usage: burr why <ASSEMBLY> <TEXT>
>
>Arguments:
>  <ASSEMBLY>  The assembly text
>  <TEXT>      The plan text
>
>Options:
>  -h, --help  Print help
>
>TEXT is assembled and judged, and no file is written. The first line that is
>printed, and the status, are those of `asm` and `check`. Where TEXT is refused,
>the lines at fault are named below, as `cup.plan:35: jump L`, each with what was
>compared there and what was found, and at the end what the refusal means.
>
>Example: ./burr why examples/cup.assembly examples/cup.plan
$burr trace --help
>Runs a plan text, and prints what holds at each label
>
>Usage: burr trace <ASSEMBLY> <TEXT>
>
>Arguments:
>  <ASSEMBLY>  The assembly text
>  <TEXT>      The plan text
>
>Options:
>  -h, --help  Print help
>
>TEXT is assembled and run as by `try`, and no file is written; `auto` may stand
>in it as for `frames`. Answers are read from standard input, a number on each
>line. What is printed begins with what `try` prints. Below, whenever the run
>came to a label, stand the lines of a frame that holds there, with the steps that
>were still to come as its cost; and at the end, for each label, how often the run
>came to it, and the lines of one frame for all of these times. What no line of a
>frame can say is a comment.
>
>Example: echo 2 | ./burr trace examples/cup.assembly examples/cup.plan
$burr frames --help
>Fills in frames that a plan text leaves out
>
>Usage: burr frames <ASSEMBLY> <TEXT> <OUT>
>
>Arguments:
>  <ASSEMBLY>  The assembly text
>  <TEXT>      The plan text, with `auto` in place of frames
>  <OUT>       The plan text that is made
>
>Options:
>  -h, --help  Print help
>
>In TEXT a line `auto` may stand after a label in place of its frame, after a
>`proc` line in place of its exit frame, and the word `auto` in place of the
>budget. The plan is run as by `try` with all answers that its questions have, and
>OUT is TEXT with frames that agree with all these runs. Where a run does not come
>to its end, what `try` prints is printed, and OUT is left alone. Where nothing is
>found for an `auto`, it stays, and is named, as `refused frame line 12`, with what
>was seen there. Whether OUT is accepted, `check` says.
>
>Example: ./burr frames puzzle.assembly draft.plan whole.plan
$burr plan --help
>Makes a plan text from a sheet of moves
>
>Usage: burr plan <ASSEMBLY> <SHEET> <OUT>
>
>Arguments:
>  <ASSEMBLY>  The assembly text
>  <SHEET>     The sheet
>  <OUT>       The plan text that is made
>
>Options:
>  -h, --help  Print help
>
>SHEET has lines of moves, as `run` prints them: `1 t0 rod +z 3 out`. What stands
>from a line `levels` on is left aside. OUT is the text of a plan that makes these
>moves: it is accepted, and `run` prints the same lines of it. Where there is no
>such plan, the line of SHEET that fails is named, and why, and OUT is left alone.
>
>Example: ./burr plan examples/cup.assembly moves.sheet /tmp/moves.plan
$burr explain --help;burr explain -h;burr help explain
>Says what a refusal, a trap or another line means
>
>Usage: burr explain <LINE>...
>
>Arguments:
>  <LINE>...  A word or a line that was printed
>
>Options:
>  -h, --help  Print help
>
>LINE is a word or a whole line that burr printed, in any case: A1 to A8, C1 to
>C6, P1 to P5, V1 to V28, S1 to S4, `input`, `answers`, `command`, `sheet`,
>`frame`, `pair`, a trap by its number or name, or `waiting`, `stopped`, `apart`,
>`levels`, `accepted`, `after` and the lines of moves. docs/FAULTS.md has all of
>them.
>
>Examples: ./burr explain A8
>          ./burr explain refused V15 proc 0 pc 24 pieces A B point 0 1
";

/// Words that are faulty.
const FAULTS: &str = "\
burr solve
!error: unrecognized subcommand 'solve'
!
!Usage: burr <COMMAND>
!       burr < INPUT
!
!For more information, try '--help'.
$/usr/bin/other solve --help
!error: unrecognized subcommand 'solve'
!
!Usage: burr <COMMAND>
!       burr < INPUT
!
!For more information, try '--help'.
$burr 
!error: unrecognized subcommand ''
!
!Usage: burr <COMMAND>
!       burr < INPUT
!
!For more information, try '--help'.
$burr -
!error: unrecognized subcommand '-'
!
!Usage: burr <COMMAND>
!       burr < INPUT
!
!For more information, try '--help'.
$burr --
!error: unexpected argument '--' found
!
!Usage: burr <COMMAND>
!       burr < INPUT
!
!For more information, try '--help'.
$burr -- --help
!error: unrecognized subcommand '--help'
!
!  tip: a similar subcommand exists: 'help'
!
!Usage: burr <COMMAND>
!       burr < INPUT
!
!For more information, try '--help'.
$burr -x
!error: unexpected argument '-x' found
!
!Usage: burr <COMMAND>
!       burr < INPUT
!
!For more information, try '--help'.
$burr --hepl
!error: unexpected argument '--hepl' found
!
!  tip: a similar argument exists: '--help'
!
!Usage: burr <COMMAND>
!       burr < INPUT
!
!For more information, try '--help'.
$burr --help=me
!error: unexpected value 'me' for '--help' found; no more were expected
!
!Usage: burr <COMMAND>
!       burr < INPUT
!
!For more information, try '--help'.
$burr asm text
!error: the following required arguments were not provided:
!  <OUT>
!
!Usage: burr asm <TEXT> <OUT>
!
!For more information, try '--help'.
$burr list
!error: the following required arguments were not provided:
!  <PLAN>
!
!Usage: burr list <PLAN>
!
!For more information, try '--help'.
$burr run assembly
!error: the following required arguments were not provided:
!  <PLAN>
!
!Usage: burr run <ASSEMBLY> <PLAN>
!
!For more information, try '--help'.
$burr list x -- 
!error: unexpected argument '' found
!
!Usage: burr list [OPTIONS] <PLAN>
!
!For more information, try '--help'.
$burr check assembly plan 2
!error: unexpected argument '2' found
!
!Usage: burr check <ASSEMBLY> <PLAN>
!
!For more information, try '--help'.
$burr judge list
!error: unexpected argument 'list' found
!
!Usage: burr judge [OPTIONS]
!
!For more information, try '--help'.
$burr judge -x
!error: unexpected argument '-x' found
!
!Usage: burr judge [OPTIONS]
!
!For more information, try '--help'.
$burr explain
!error: the following required arguments were not provided:
!  <LINE>...
!
!Usage: burr explain <LINE>...
!
!For more information, try '--help'.
$burr help solve
!error: unrecognized subcommand 'solve'
!
!Usage: burr <COMMAND>
!       burr < INPUT
!
!For more information, try '--help'.
";

/// Words that ask for a job; paths are taken as they stand.
const JOBS: &str = "\
burr cells a
=cells a
$burr asm a b
=asm a b
$burr asm -- -h --help
=asm -h --help
$burr list x
=list x
$burr list --places x
=list --places x
$burr list x --places
=list --places x
$burr upgrade a b
=upgrade a b
$burr check a -dash
=check a -dash
$burr judge;burr judge --
=judge
$burr judge --null
=judge --null
$burr run a b
=run a b
$burr try a b
=try a b
$burr step a b
=step a b
$burr drive a b
=drive a b
$burr explain V15
=explain V15
$burr explain refused V15 proc 0 pc 24 pieces A B point 0 -1
=explain refused V15 proc 0 pc 24 pieces A B point 0 -1
$burr explain -
=explain -
$burr why a t
=why a t
$burr trace a t
=trace a t
$burr frames a t o
=frames a t o
$burr plan a s o
=plan a s o
$burr asm a -- b;burr asm a b --
=asm a b
$burr cells -x
=cells -x
$burr check a --places
=check a --places
$burr step -- a b
=step a b
$burr list -- --places
=list --places
$burr list --places -- --places
=list --places --places
$burr judge --null --
=judge --null
$burr explain -- a b
=explain a b
$burr explain a -- b
=explain a -- b
$burr explain -- -- a
=explain -- a
$burr explain a --help
=explain a --help
";

#[test]
fn says_what_it_is(rt: HostRuntime) {
    assert_answers(&rt, rt.alloc(), HELP);
}

#[test]
fn gives_help_of_each_command(rt: HostRuntime) {
    assert_answers(&rt, rt.alloc(), COMMAND_HELP);
}

#[test]
fn tells_faults_of_words(rt: HostRuntime) {
    assert_answers(&rt, rt.alloc(), FAULTS);
}

#[test]
fn takes_words_of_jobs(rt: HostRuntime) {
    assert_answers(&rt, rt.alloc(), JOBS);
}
