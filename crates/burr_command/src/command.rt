//! The commands, with their words and options.

use clap::{Arg, ArgAction, Command};
use std::alloc::{AllocError, Global};

/// A command by its name, with what may stand after it.
struct Syntax {
    name: &'static str,
    about: &'static str,
    /// What its help says last.
    after_help: &'static str,
    arguments: &'static [Argument],
}

/// What may stand after a command's name: its own name, and what help says of it.
#[derive(Clone, Copy)]
enum Argument {
    /// One word as it stands: one that begins with a hyphen too. It has to be given.
    Word(&'static str, &'static str),
    /// Such words, one or more.
    Words(&'static str, &'static str),
    /// The name after two hyphens, or nothing.
    Flag(&'static str, &'static str),
}

const ASSEMBLY: Argument = Argument::Word("ASSEMBLY", "The assembly text");

const TEXT: Argument = Argument::Word("TEXT", "The plan text");

const PLAN: Argument = Argument::Word("PLAN", "The container");

/// The words of each command, in the order in which help lists them.
const COMMANDS: &[Syntax] = &[
    Syntax {
        name: "cells",
        about: "Prints the cells in which the pieces of an assembly lie",
        after_help: "\
A line is printed for each home cell, as `A 0 -1 2`: the piece, x, y and z. The
pieces stand in the order of the text, the cells of each as its shape is drawn.
A text that is no assembly is refused, as `refused A3 line 5`.

Example: ./burr cells examples/cup.assembly",
        arguments: &[ASSEMBLY],
    },
    Syntax {
        name: "asm",
        about: "Assembles a plan text into a container",
        after_help: "\
OUT is written last, and left alone where TEXT is refused: `refused P2 line 9`.
A file OUT is replaced whole: until all of the container is written, the old
one stands. OUT may not be TEXT itself.

Example: ./burr asm examples/ring.plan /tmp/ring.bpln",
        arguments: &[TEXT, Argument::Word("OUT", "The container that is made")],
    },
    Syntax {
        name: "list",
        about: "Prints the plan text of a container",
        after_help: "\
A file that is no container is refused: `refused C1 at 12`. What is printed is
assembled to the same bytes again.

Example: ./burr list /tmp/ring.bpln",
        arguments: &[
            PLAN,
            Argument::Flag("places", "Says before each line of code where it stands"),
        ],
    },
    Syntax {
        name: "upgrade",
        about: "Makes the container of version 2 of a plan",
        after_help: "\
OUT has the same plan in version 2 of the format, where procedures may have
results; of a container of version 2 it has the same bytes. OUT is written last,
and left alone where PLAN is refused: `refused C1 at 12`. A file OUT is replaced
whole. OUT may not be PLAN itself.

Example: ./burr upgrade /tmp/ring.bpln /tmp/ring2.bpln",
        arguments: &[PLAN, Argument::Word("OUT", "The container that is made")],
    },
    Syntax {
        name: "check",
        about: "Says whether a plan is accepted",
        after_help: "\
The plan is judged, and not run: standard input is not read. `accepted cost 14
budget 14 looks 6` says that no run of it meets a trap or makes more than 14
steps, and that the check looked at two pieces 6 times. Else the first rule that
fails is named, as `refused V28 proc 0 pc 0`, with status 1.

Example: ./burr check examples/cup.assembly /tmp/cup.bpln",
        arguments: &[ASSEMBLY, PLAN],
    },
    Syntax {
        name: "judge",
        about: "Says whether plans are accepted, pair by pair",
        after_help: "\
Pairs of files are read from standard input, one a line: an assembly text and a
plan, a container or a plan text, with a tab between them. Each is judged as by
`asm` and `check`, and answered before the next line is read: by its number, the
status, and what would be printed, as `1 0 accepted cost 14 budget 14 looks 6`
or `2 1 refused P2 line 9`. A file that can't be read is `3 3 cannot read`, and
a line that is no such pair `4 1 refused pair`. No name is printed. An assembly
that the pair before names too is not read again.

The status is the greatest of those of the pairs: 0 where all are accepted.

Example: printf 'examples/cup.assembly\\texamples/cup.plan\\n' | ./burr judge",
        arguments: &[Argument::Flag(
            "null",
            "Reads names that each end by a byte 0, as those of `find -print0`",
        )],
    },
    Syntax {
        name: "run",
        about: "Runs a plan that is accepted",
        after_help: "\
A plan that `check` refuses is not run: the refusal is printed, with status 1.
Answers to questions are read from standard input, a number on each line. The
sheet that is printed ends with all pieces apart, or, where no answer is left,
with what the run waits for and status 5.

Example: echo 2 | ./burr run examples/cup.assembly /tmp/cup.bpln",
        arguments: &[ASSEMBLY, PLAN],
    },
    Syntax {
        name: "try",
        about: "Runs a plan on the bench, without accepting it",
        after_help: "\
Answers to questions are read from standard input, a number on each line. Each
move is checked on the bench; the sheet that is printed ends with how the run
closed. Status 5: it waits for an answer.

Example: echo 2 | ./burr try examples/cup.assembly /tmp/cup.bpln",
        arguments: &[ASSEMBLY, PLAN],
    },
    Syntax {
        name: "step",
        about: "Goes through a plan that is accepted, step by step",
        after_help: "\
A plan that `check` refuses is not run: the refusal is printed, with status 1.
Else commands are read from standard input, one a line, and each is answered
before the next one is read:

  forward     one step
  over        one step, and where it is a call the whole procedure
  until P L   on to label L of procedure P, both counted from 0
  answer N    gives the number N that is asked for
  back N      N steps back
  show        where the run stands, its slots, operands and pieces
  quit        the end; so is the end of the input

An answer is `after 3 steps`, with `asks 0 2` or `ended` after it where that
holds, or a refusal that changes nothing: `refused S2`, `refused command`. The
status is 0 whatever was refused. docs/STEPPER.md says more.

Example: echo forward | ./burr step examples/cup.assembly /tmp/cup.bpln",
        arguments: &[ASSEMBLY, PLAN],
    },
    Syntax {
        name: "drive",
        about: "Leads a gripper through a plan that is accepted, move by move",
        after_help: "\
PLAN may be a plan text too, which is assembled. What `check` refuses is not
led: the refusal is printed, with status 1. Else `ready D` is printed, with the
SHA-256 of the assembly text and the container. Then commands are read from
standard input, one a line, and each is answered before the next one is read:

  next        the next whole move, or a question, or the end
  answer Q N  gives the number N to question Q
  goto K      goes on to behind move K, and tells no move
  show        where the run stands, its slots, operands and pieces
  quit        the end; so is the end of the input

A move is `move 1 t0 A +z 2 out t1 apart A,B`: what moves, and where it goes out
the tray it goes to, and which pieces are apart by it. A question is
`ask 1 0 2 proc 0 pc 7`, the end `end 14`. `refused answer` and `refused command`
change nothing. The status is 5 where a question is left open, and else 0.
docs/GRIPPER.md says more.

Example: echo next | ./burr drive examples/cup.assembly examples/cup.plan",
        arguments: &[
            ASSEMBLY,
            Argument::Word("PLAN", "The container, or the plan text"),
        ],
    },
    Syntax {
        name: "why",
        about: "Says why a plan text is refused, and which lines are at fault",
        after_help: "\
TEXT is assembled and judged, and no file is written. The first line that is
printed, and the status, are those of `asm` and `check`. Where TEXT is refused,
the lines at fault are named below, as `cup.plan:35: jump L`, each with what was
compared there and what was found, and at the end what the refusal means.

Example: ./burr why examples/cup.assembly examples/cup.plan",
        arguments: &[ASSEMBLY, TEXT],
    },
    Syntax {
        name: "trace",
        about: "Runs a plan text, and prints what holds at each label",
        after_help: "\
TEXT is assembled and run as by `try`, and no file is written; `auto` may stand
in it as for `frames`. Answers are read from standard input, a number on each
line. What is printed begins with what `try` prints. Below, whenever the run
came to a label, stand the lines of a frame that holds there, with the steps that
were still to come as its cost; and at the end, for each label, how often the run
came to it, and the lines of one frame for all of these times. What no line of a
frame can say is a comment.

Example: echo 2 | ./burr trace examples/cup.assembly examples/cup.plan",
        arguments: &[ASSEMBLY, TEXT],
    },
    Syntax {
        name: "frames",
        about: "Fills in frames that a plan text leaves out",
        after_help: "\
In TEXT a line `auto` may stand after a label in place of its frame, after a
`proc` line in place of its exit frame, and the word `auto` in place of the
budget. The plan is run as by `try` with all answers that its questions have, and
OUT is TEXT with frames that agree with all these runs. Where a run does not come
to its end, what `try` prints is printed, and OUT is left alone. Where nothing is
found for an `auto`, it stays, and is named, as `refused frame line 12`, with what
was seen there. Whether OUT is accepted, `check` says.

Example: ./burr frames puzzle.assembly draft.plan whole.plan",
        arguments: &[
            ASSEMBLY,
            Argument::Word("TEXT", "The plan text, with `auto` in place of frames"),
            Argument::Word("OUT", "The plan text that is made"),
        ],
    },
    Syntax {
        name: "plan",
        about: "Makes a plan text from a sheet of moves",
        after_help: "\
SHEET has lines of moves, as `run` prints them: `1 t0 rod +z 3 out`. What stands
from a line `levels` on is left aside. OUT is the text of a plan that makes these
moves: it is accepted, and `run` prints the same lines of it. Where there is no
such plan, the line of SHEET that fails is named, and why, and OUT is left alone.

Example: ./burr plan examples/cup.assembly moves.sheet /tmp/moves.plan",
        arguments: &[
            ASSEMBLY,
            Argument::Word("SHEET", "The sheet"),
            Argument::Word("OUT", "The plan text that is made"),
        ],
    },
    Syntax {
        name: "explain",
        about: "Says what a refusal, a trap or another line means",
        after_help: "\
LINE is a word or a whole line that burr printed, in any case: A1 to A8, C1 to
C6, P1 to P5, V1 to V28, S1 to S4, `input`, `answers`, `command`, `sheet`,
`frame`, `pair`, a trap by its number or name, or `waiting`, `stopped`, `apart`,
`levels`, `accepted`, `after` and the lines of moves. docs/FAULTS.md has all of
them.

Examples: ./burr explain A8
          ./burr explain refused V15 proc 0 pc 24 pieces A B point 0 1",
        arguments: &[Argument::Words("LINE", "A word or a line that was printed")],
    },
];

/// The command line: the commands, help and the version.
pub fn command<'a>(alloc: Global) -> Result<Command<'a>, AllocError> {
    let mut command = without_commands(alloc);
    for syntax in COMMANDS {
        command = command.subcommand(syntax.command(alloc)?)?;
    }
    Ok(command)
}

/// The command line without its commands.
fn without_commands<'a>(alloc: Global) -> Command<'a> {
    Command::new(alloc, "burr")
        .about(ABOUT)
        .version(VERSION)
        .override_usage(USAGE)
        .after_help(OVERVIEW)
}

impl Syntax {
    /// The command with these words.
    fn command<'a>(&self, alloc: Global) -> Result<Command<'a>, AllocError> {
        let mut command = Command::new(alloc, self.name)
            .about(self.about)
            .after_help(self.after_help);
        for argument in self.arguments {
            command = command.arg(argument.arg(alloc))?;
        }
        Ok(command)
    }
}

impl Argument {
    /// The argument as clap takes it.
    fn arg<'a>(self, alloc: Global) -> Arg<'a> {
        match self {
            Argument::Word(name, help) => word(alloc, name, help),
            Argument::Words(name, help) => word(alloc, name, help).num_args(1..),
            Argument::Flag(name, help) => Arg::new(alloc, name)
                .action(ArgAction::SetTrue)
                .long(name)
                .help(help),
        }
    }
}

/// A word that has to be given, as it stands.
fn word<'a>(alloc: Global, name: &'a str, help: &'a str) -> Arg<'a> {
    Arg::new(alloc, name)
        .required(true)
        .allow_hyphen_values(true)
        .help(help)
}

// What help of the program says beyond the lists of commands and options.

/// The version, and the kit that the program is proved and made by, as `rt --version` names it.
pub const VERSION: &str = "1.0.0 (rattle-kit-13f logic dac8208d650f15bf)";

/// What help says first.
pub const ABOUT: &str =
    "Checks and runs plans that take burr puzzles apart, and prints move sheets.";

/// How the program is called.
pub const USAGE: &str = "burr <COMMAND>\n       burr < INPUT";

/// What help says after the options.
pub const OVERVIEW: &str = "\
An assembly is a text that draws a puzzle: shapes in layers, and its pieces. A
plan is a text too: code that takes the puzzle apart, and at each label what
holds there. You write both, or a program of yours does: burr does not search
for a way to take a puzzle apart, it checks and runs the one that it is given.

Example, to be pasted in the folder of burr:

./burr asm examples/six-bars.plan /tmp/six-bars.bpln
./burr check examples/six-bars.assembly /tmp/six-bars.bpln
./burr run examples/six-bars.assembly /tmp/six-bars.bpln < /dev/null

The first makes a container of the plan text. The second says `accepted`: then
no run of the plan fails. The third prints the moves, and ends with `apart`.

docs/ASSEMBLIES.md says how a puzzle is drawn, docs/PLANS.md how a plan is
written, and docs/REFERENCE.md has all instructions and limits. Whatever is
printed and not understood: burr explain 'THE LINE'.

Without a command the input is an assembly and a line of code in hexadecimal
digits, and its run is printed; docs/FORMATS.md has the rules.

Exit statuses:

  0  all pieces are apart; a plan is accepted; a command is done; help, version
  1  refused, trapped or stopped, as printed
  2  a fault of the command line; `explain` of a word that it does not know
  3  a file or a stream failed, or one that is read has more than 16777216 bytes
  4  out of memory
  5  the run waits for an answer";
