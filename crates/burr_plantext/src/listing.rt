//! The text of a container's plan.

ghost use Rattle.std.specs.Prelude.{◌≡◌, ◌<◌, ◌++◌, length, IfOk, OnOk};
ghost use Rattle.burr_container.specs.Rules.Plans.{Plan};
ghost use Rattle.burr_container.specs.Views.Containers.{IsContainer, HasPlan, OfProcedure};
ghost use Rattle.burr_plantext.specs.Rules.Lines.{ProcLine};
ghost use Rattle.burr_plantext.specs.Rules.Writing.{line_text};
ghost use Rattle.burr_plantext.specs.Rules.Listing.{IsListing, head_of};
ghost use Rattle.burr_plantext.specs.Views.Parts.{title_text};
ghost use Rattle.burr_plantext.specs.Rules.ListedPlaces.{IsListedText, IsListingWithPlaces, HasListedLines};
ghost use Rattle.burr_plantext.specs.Views.Listings.{IsProcedureAdded};

use crate::code::add_code;
use crate::frames::add_exit;
use crate::numbers::{Added, add_number, end_line};
use burr_container::{Container, Header};
use std::alloc::{AllocError, Global};

/// The text of a container's plan: procedures are named `p0`, `p1` and so on, and the labels of
/// each `L0`, `L1` and so on. It stands for this plan (`a_listing_stands_for_its_plan` of
/// burr_plantext), so that `assemble` gives the container back from it.
pub fn list(alloc: Global, container: &Container<'_>) -> Result<Vec<u8>, AllocError>
    ensures { IfOk result (λ text. (p : Plan) → IsContainer container.now p
        → IsListing p text.items) }
{
    list_lines(alloc, container, false)
}

/// The same with a comment before each line of code that tells where it stands, as
/// `; proc 0 pc 12`, since a trap names a procedure and a position. `assemble` gives the container
/// back from it too.
pub fn list_with_places(alloc: Global, container: &Container<'_>) -> Result<Vec<u8>, AllocError>
    ensures places { IfOk result (λ text. (p : Plan) → IsContainer container.now p
        → IsListingWithPlaces p text.items) }
    ensures lines { IfOk result (λ text. (p : Plan) → IsContainer container.now p
        → HasListedLines p text.items) }
{
    list_lines(alloc, container, true)
}

/// The text of a container's plan, with places or without.
fn list_lines(alloc: Global, container: &Container<'_>, places: bool) -> Result<Vec<u8>, AllocError>
    ensures { IfOk result (λ text. (p : Plan) → IsContainer container.now p
        → IsListedText places p text.items) }
{
    let mut text = title(alloc, &container.header())?;
    for i in 0..container.proc_count() {
        add_procedure(&mut text, container, i, places)?;
    }
    Ok(text)
}

/// The plan's line.
fn title(alloc: Global, header: &Header<'_>) -> Result<Vec<u8>, AllocError>
    ensures { IfOk result (λ text. text.items
        ≡ title_text header.now.version header.now.name.now header.now.pieces
        header.now.budget) }
{
    let word: &[u8] = if header.version == 2 {
        b"plan2 "
    } else {
        b"plan "
    };
    let mut text = Vec::from_slice(alloc, word)?;
    text.extend_from_slice(header.name)?;
    add_number(&mut text, b" ", header.pieces)?;
    add_number(&mut text, b" ", header.budget)?;
    end_line(&mut text)?;
    Ok(text)
}

/// Adds procedure i, with places or without.
fn add_procedure(text: &mut Vec<u8>, container: &Container<'_>, i: usize, places: bool) -> Added
    requires procedure { i < length container.now.procedures }
    requires plan { HasPlan container.now }
    ensures { OnOk result (OfProcedure container.now i (λ p q.
        IsProcedureAdded places p i q text.old.items text.new.items)) }
{
    add_head(text, container, i)?;
    if let Some(exit) = container.exit(i) {
        add_exit(text, &exit)?;
    }
    add_code(text, container, i, places)
}

/// Adds the line with which procedure i begins.
fn add_head(text: &mut Vec<u8>, container: &Container<'_>, i: usize) -> Added
    requires procedure { i < length container.now.procedures }
    ensures { OnOk result (OfProcedure container.now i (λ p q.
        text.new.items ≡ text.old.items ++ line_text (ProcLine (head_of p.version i q)))) }
{
    add_number(text, b"proc p", i)?;
    add_number(text, b" ", container.params(i))?;
    if container.header().version == 2 {
        add_number(text, b" ", container.results(i))?;
    }
    end_line(text)
}
