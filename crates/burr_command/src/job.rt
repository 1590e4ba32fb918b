//! What words ask for.
ghost use Rattle.std.specs.Prelude.{◌≡◌, IfOk, IfSome, codes, map, string_bytes};
ghost use Rattle.burr_command.specs.Asking.{explained, is_flag, is_flagged, operands};
ghost use Rattle.burr_command.specs.Asking.{AsksFor, IsAnswer, IsAsked};

use crate::command::command;
use clap::error::ErrorKind;
use clap::{Command, Error};
use std::alloc::{AllocError, Global};

/// A command, with the words after its name.
#[derive(Drop)]
pub enum Job<'a> {
    /// Prints the home cells of an assembly's pieces.
    Cells {
        assembly: &'a str,
    },
    /// Assembles a plan text into a container.
    Assemble {
        text: &'a str,
        out: &'a str,
    },
    /// Prints the plan text of a container, with the places of code or without.
    List {
        plan: &'a str,
        places: bool,
    },
    /// Makes the container of version 2 of a container's plan.
    Upgrade {
        plan: &'a str,
        out: &'a str,
    },
    /// Says whether a plan is accepted for an assembly.
    Check {
        assembly: &'a str,
        plan: &'a str,
    },
    /// Says the same of each pair of files that standard input names, a pair a line, or with a byte
    /// 0 after each name.
    Judge {
        null: bool,
    },
    /// Runs a plan, where it is accepted, with the answers of standard input.
    Run {
        assembly: &'a str,
        plan: &'a str,
    },
    /// Runs a plan with the answers of standard input, without accepting it.
    Try {
        assembly: &'a str,
        plan: &'a str,
    },
    /// Goes through an accepted plan by the commands of standard input.
    Step {
        assembly: &'a str,
        plan: &'a str,
    },
    /// Leads an accepted plan, a container or a plan text, move by move by the commands of standard
    /// input.
    Drive {
        assembly: &'a str,
        plan: &'a str,
    },
    /// Says why a plan text is refused for an assembly.
    Why {
        assembly: &'a str,
        text: &'a str,
    },
    /// Runs a plan text with the answers of standard input, without accepting it, and prints what
    /// holds at each label that the run reaches.
    Trace {
        assembly: &'a str,
        text: &'a str,
    },
    /// Fills in the frames of a plan text that are left out, for an assembly.
    Frames {
        assembly: &'a str,
        text: &'a str,
        out: &'a str,
    },
    /// Makes the plan text of the move lines of a sheet, for an assembly.
    PlanSheet {
        assembly: &'a str,
        sheet: &'a str,
        out: &'a str,
    },
    /// Says what a word or a line means that the program prints.
    Explain {
        line: String,
    },
}

/// A text that is the reply to words.
#[derive(Drop)]
pub struct Reply {
    pub text: String,
    /// Whether the text says what is wrong with the words, and is no text that they ask for.
    pub is_fault: bool,
}

/// What words ask for.
#[derive(Drop)]
pub enum Request<'a> {
    Reply(Reply),
    Job(Job<'a>),
}

/// Returns what the words of a command line ask for: a job, or a reply. The first word is the
/// program's name, and there are more. A reply is help or the version if the words ask for it, else
/// it says what is wrong with them.
pub fn request_of<'a>(alloc: Global, words: &'a [String]) -> Result<Request<'a>, AllocError>
    ensures { IfOk result (IsAnswer (map string_bytes words.now)) }
{
    let mut command = command(alloc)?;
    if let Err(error) = command.try_get_matches_from_mut(words) {
        return Ok(Request::Reply(reply_of(alloc, &error)?));
    }
    match job_of(alloc, words)? {
        Some(job) => Ok(Request::Job(job)),
        None => Ok(Request::Reply(refusal_of_hyphens(alloc, command)?)),
    }
}

/// Returns the reply to words that name no command, but have two hyphens that end the options.
fn refusal_of_hyphens(alloc: Global, mut command: Command<'_>) -> Result<Reply, AllocError> {
    let error = command.error(ErrorKind::UnknownArgument, "unexpected argument '--' found")?;
    reply_of(alloc, &error)
}

/// Returns what clap answers to words that it does not take.
fn reply_of(alloc: Global, error: &Error) -> Result<Reply, AllocError> {
    if error.kind() == ErrorKind::OutOfMemory {
        return Err(AllocError);
    }
    Ok(Reply {
        text: format!(in alloc; "{error}")?,
        is_fault: error.use_stderr(),
    })
}

/// Returns the job of words that clap takes, or `None` if they name no command.
fn job_of<'a>(alloc: Global, words: &'a [String]) -> Result<Option<Job<'a>>, AllocError>
    ensures { IfOk result (λ job. IfSome job (IsAsked (map string_bytes words.now))) }
{
    let [_, name, rest @ ..] = words else {
        return Ok(None);
    };
    match name.as_str() {
        "explain" => explain_of(alloc, rest),
        name => job_of_operands(alloc, name, rest),
    }
}

/// Returns the job of a command other than `explain`, from its name and the words after it, or
/// `None` if no command of this name has that number of operands.
fn job_of_operands<'a>(
    alloc: Global,
    name: &str,
    words: &'a [String],
) -> Result<Option<Job<'a>>, AllocError>
    ensures { IfOk result (λ job. IfSome job (AsksFor name.now (map string_bytes words.now))) }
{
    let operands = operands_of(alloc, name, words)?;
    let is_flagged = has_flag(name, words);
    Ok(match (name, operands.as_slice()) {
        ("cells", [assembly]) => Some(Job::Cells { assembly }),
        ("asm", [text, out]) => Some(Job::Assemble { text, out }),
        ("list", [plan]) => Some(Job::List {
            plan,
            places: is_flagged,
        }),
        ("upgrade", [plan, out]) => Some(Job::Upgrade { plan, out }),
        ("check", [assembly, plan]) => Some(Job::Check { assembly, plan }),
        ("judge", []) => Some(Job::Judge { null: is_flagged }),
        ("run", [assembly, plan]) => Some(Job::Run { assembly, plan }),
        ("try", [assembly, plan]) => Some(Job::Try { assembly, plan }),
        ("step", [assembly, plan]) => Some(Job::Step { assembly, plan }),
        ("drive", [assembly, plan]) => Some(Job::Drive { assembly, plan }),
        ("why", [assembly, text]) => Some(Job::Why { assembly, text }),
        ("trace", [assembly, text]) => Some(Job::Trace { assembly, text }),
        ("frames", [assembly, text, out]) => Some(Job::Frames {
            assembly,
            text,
            out,
        }),
        ("plan", [assembly, sheet, out]) => Some(Job::PlanSheet {
            assembly,
            sheet,
            out,
        }),
        _ => None,
    })
}

/// Returns the job `explain` from the words after its name, or `None` if there is nothing to
/// explain.
fn explain_of<'a>(alloc: Global, words: &[String]) -> Result<Option<Job<'a>>, AllocError>
    ensures { IfOk result (λ job. IfSome job
        (AsksFor (codes "explain") (map string_bytes words.now))) }
{
    let explained = explained_words(words);
    if explained.is_empty() {
        return Ok(None);
    }
    let line = explained.join(alloc, " ")?;
    Ok(Some(Job::Explain { line }))
}

/// Returns the words to explain: all but a `--` before them.
fn explained_words(words: &[String]) -> &[String]
    ensures { map string_bytes result.now ≡ explained (map string_bytes words.now) }
{
    match words {
        [first, rest @ ..] if first.as_str() == "--" => rest,
        _ => words,
    }
}

/// Returns the operands among the words after a command's name.
fn operands_of<'a>(
    alloc: Global,
    name: &str,
    words: &'a [String],
) -> Result<Vec<&'a str>, AllocError>
    ensures { IfOk result (λ v. map (λ operand. operand.now) v.items
        ≡ operands name.now (map string_bytes words.now)) }
{
    let mut operands = Vec::new(alloc);
    let mut is_after_hyphens = false;
    for word in words {
        let word = word.as_str();
        if is_after_hyphens {
            operands.push(word)?;
        } else if word == "--" {
            is_after_hyphens = true;
        } else if !is_flag(name, word) {
            operands.push(word)?;
        }
    }
    Ok(operands)
}

/// Returns whether the words after a command's name have its flag before the first `--`.
fn has_flag(name: &str, words: &[String]) -> bool
    ensures { result ≡ is_flagged name.now (map string_bytes words.now) }
{
    for word in words {
        if word.as_str() == "--" {
            return false;
        }
        if is_flag(name, word.as_str()) {
            return true;
        }
    }
    false
}

/// Returns whether a word is the flag of the command of this name.
fn is_flag(name: &str, word: &str) -> bool
    ensures { result ≡ is_flag name.now word.now }
{
    matches!((name, word), ("list", "--places") | ("judge", "--null"))
}
