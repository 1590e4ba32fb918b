ghost use Rattle.std.specs.Prelude.{◌∷◌, [], IfOk};
ghost use Rattle.burr_judge.specs.PlanEnds.{never};
ghost use Rattle.burr_program.specs.Commands.{CommandResult, IsContainerListing, ListCommand, ListDone};
ghost use Rattle.burr_program.specs.FileFaults.{CannotRead};

use crate::done::Done;
use crate::files::read_file;
use burr_asm::{list as listing, list_with_places};
use burr_container::Container;
use burr_io::{Sink, put_all};
use burr_judge::{Status, Stop};
use std::alloc::{AllocError, Global};
use std::rt::Files;

/// Prints the plan text of a container, with the place of each line of code or without.
#[inline(never)]
pub fn list<'a, F: Files + AllocGlobal, W: Sink>(
    files: &F,
    plan: &'a str,
    places: bool,
    sink: &mut W,
) -> Result<Done<'a>, Stop<'a>>
    ensures { CommandResult W.Sink sink.old sink.new (ListDone places plan.entry.now)
        (ListCommand places) (CannotRead (plan.entry.now ∷ [])) never result }
{
    let source = read_file(files, plan)?;
    let container = Container::parse(source.bytes())?;
    let text = text_of(files.alloc(), &container, places)?;
    put_all(&text, sink)?;
    Ok(Done {
        status: Status::Done,
        assembly: None,
        source: Some(source),
        written: None,
    })
}

/// Returns the plan text of a container.
fn text_of(alloc: Global, container: &Container<'_>, places: bool) -> Result<Vec<u8>, AllocError>
    ensures { IfOk result (λ text. IsContainerListing places container.now text.items) }
{
    if places {
        list_with_places(alloc, container)
    } else {
        listing(alloc, container)
    }
}
