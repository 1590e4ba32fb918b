ghost use Rattle.std.specs.Prelude.{◌∷◌, [], codes};
ghost use Rattle.burr_program.specs.Commands.{SilentResult, UpgradeCommand, UpgradeDone};
ghost use Rattle.burr_program.specs.FileFaults.{CannotRewrite};

use crate::done::Done;
use crate::files::{check_out_not_input, read_file, write_file};
use burr_container::Container;
use burr_judge::{Status, Stop};
use burr_runs::upgrade as upgraded;
use std::rt::Files;

/// Writes the container in version 2 of a container's plan to OUT, which may not be the plan itself.
#[inline(never)]
pub fn upgrade<'a, F: Files + AllocGlobal>(
    files: &F,
    plan: &'a str,
    out: &'a str,
) -> Result<Done<'a>, Stop<'a>>
    ensures { SilentResult (UpgradeDone plan.entry.now out.entry.now) UpgradeCommand
        (CannotRewrite (plan.entry.now ∷ []) (codes "PLAN" ∷ []) out.entry.now) result }
{
    check_out_not_input(files, &[("PLAN", plan)], out)?;
    let source = read_file(files, plan)?;
    let container = Container::parse(source.bytes())?;
    let bytes = upgraded(files.alloc(), &container)?;
    let written = write_file(files, out, bytes)?;
    Ok(Done {
        status: Status::Done,
        assembly: None,
        source: Some(source),
        written: Some(written),
    })
}
