ghost use Rattle.std.specs.Prelude.{◌∷◌, [], codes};
ghost use Rattle.burr_program.specs.Commands.{AsmCommand, AsmDone, SilentResult};
ghost use Rattle.burr_program.specs.FileFaults.{CannotRewrite};

use crate::done::Done;
use crate::files::{check_out_not_input, read_file, write_file};
use burr_asm::assemble;
use burr_judge::{Status, Stop};
use std::rt::Files;

/// Writes the container of a plan text to OUT, which may not be the text itself.
#[inline(never)]
pub fn asm<'a, F: Files + AllocGlobal>(
    files: &F,
    text: &'a str,
    out: &'a str,
) -> Result<Done<'a>, Stop<'a>>
    ensures { SilentResult (AsmDone text.entry.now out.entry.now) AsmCommand
        (CannotRewrite (text.entry.now ∷ []) (codes "TEXT" ∷ []) out.entry.now) result }
{
    check_out_not_input(files, &[("TEXT", text)], out)?;
    let source = read_file(files, text)?;
    let container = assemble(files.alloc(), source.bytes())?;
    let written = write_file(files, out, container)?;
    Ok(Done {
        status: Status::Done,
        assembly: None,
        source: Some(source),
        written: Some(written),
    })
}
