//! What the crates say of an input, as text. A kind of answers is a word:
//!
//! - `code`: the instructions that follow on each other in code, as `Debug` writes them, and then
//!   `nothing` where another would begin and none does
//! - `labels`: how many labels bytes are, and each by its number, or `none`
//! - `assembly`: `right`, or the fault of a text
//! - `cells`: the name of an assembly, and of each piece its name and home cells
//! - `name 3`: the name of piece 3 that is found in a text
//! - `asm`: `right`, or the fault of a text
//! - `listing`: the listing of what a text is assembled to
//! - `places`: the same with places, after the version and the size
//! - `size`: the version and the size of what a text is assembled to
//! - `container`: the fault of bytes, or what `places` tells of them
//! - `written`: the fault of bytes, or `right`
//! - `plan`: whether the plan of two cubes is written as these bytes
//!
//! `unlike` stands in an answer where what was read is not written, spelled or assembled again as
//! it was, and `Memory` where a request for memory was refused.

use crate::container::two_cubes;
use crate::tables::number_of;
use burr_asm::{AsmFault, assemble, list, list_with_places};
use burr_assembly::{Assembly, piece_name};
use burr_code::{Labels, encode, fetch};
use burr_container::{Container, Plan, write};
use burr_voxels::Cell;
use std::alloc::{AllocError, Global};
use std::fmt::Write;

/// Adds the answer of a kind to an input.
pub fn answer(
    alloc: Global,
    kind: &str,
    input: &[u8],
    found: &mut String,
) -> Result<(), AllocError> {
    match kind {
        "code" => add_code(alloc, input, found),
        "labels" => add_labels(input, found),
        "assembly" | "cells" => add_assembly(alloc, kind, input, found),
        "asm" | "listing" | "places" | "size" => add_assembled(alloc, kind, input, found),
        "container" | "written" => add_container(alloc, kind, input, found),
        "plan" => add_plan(alloc, input, found),
        _ => add_name(kind, input, found),
    }
}

/// The answer of a kind to an input.
pub fn answer_to(alloc: Global, kind: &str, input: &[u8]) -> Result<String, AllocError> {
    let mut found = String::new(alloc);
    answer(alloc, kind, input, &mut found)?;
    Ok(found)
}

fn add_code(alloc: Global, code: &[u8], found: &mut String) -> Result<(), AllocError> {
    let mut at = 0usize;
    for _ in 0..=code.len() {
        let size = add_instr(alloc, code, at, found)?;
        if size == 0 {
            break;
        }
        at = at.saturating_add(size);
    }
    found.push_str(end_of_code(code, at))
}

/// Adds the instruction at a position, and gives its size; 0 where no instruction stands there.
fn add_instr(
    alloc: Global,
    code: &[u8],
    at: usize,
    found: &mut String,
) -> Result<usize, AllocError> {
    let Some((instr, size)) = fetch(code, at) else {
        return Ok(0);
    };
    found.push_str(if at == 0 { "" } else { " " })?;
    write!(found, "{instr:?}")?;
    let spelled = encode(alloc, &instr)?;
    let bytes = code.get(at..at.saturating_add(size)).unwrap_or(b"");
    let is_right = instr.size() == size && is_one(bytes, &spelled);
    found.push_str(if is_right { "" } else { " unlike" })?;
    Ok(size)
}

/// Whether the bytes of an instruction are those it is spelled with, and no front of them is one.
fn is_one(bytes: &[u8], spelled: &[u8]) -> bool {
    let front = bytes.get(..bytes.len().saturating_sub(1)).unwrap_or(b"");
    bytes == spelled && fetch(front, 0).is_none()
}

/// What is said where no instruction begins.
fn end_of_code(code: &[u8], at: usize) -> &'static str {
    if at == code.len() && fetch(code, usize::MAX).is_none() {
        return "";
    }
    if at == 0 { "nothing" } else { " nothing" }
}

fn add_labels(bytes: &[u8], found: &mut String) -> Result<(), AllocError> {
    let Some(labels) = Labels::new(bytes) else {
        return found.push_str("none");
    };
    write!(found, "{}:", labels.len())?;
    for number in 0..=labels.len() {
        add_label(labels.get(number), found)?;
    }
    let has_more = labels.get(usize::MAX).is_some();
    found.push_str(if has_more { " more" } else { "" })
}

fn add_label(label: Option<u16>, found: &mut String) -> Result<(), AllocError> {
    match label {
        Some(label) => write!(found, " {label}"),
        None => found.push_str(" -"),
    }
}

fn add_assembly(
    alloc: Global,
    kind: &str,
    text: &[u8],
    found: &mut String,
) -> Result<(), AllocError> {
    match Assembly::read(alloc, text) {
        Ok(assembly) => add_read(alloc, kind, text, &assembly, found),
        Err(fault) => write!(found, "{fault:?}"),
    }
}

/// Adds what an assembly is that was read of a text.
fn add_read(
    alloc: Global,
    kind: &str,
    text: &[u8],
    assembly: &Assembly,
    found: &mut String,
) -> Result<(), AllocError> {
    if assembly.write(alloc)?.as_slice() != text {
        return found.push_str("unlike");
    }
    if kind == "assembly" {
        return found.push_str("right");
    }
    add_pieces(assembly, found)
}

fn add_pieces(assembly: &Assembly, found: &mut String) -> Result<(), AllocError> {
    found.push_str(assembly.name())?;
    for piece in 0..assembly.piece_count() {
        write!(found, "; {}", assembly.piece_name(piece))?;
        add_cells(assembly.cells(piece), found)?;
    }
    Ok(())
}

fn add_cells(cells: &[Cell], found: &mut String) -> Result<(), AllocError> {
    for cell in cells {
        write!(found, " {},{},{}", cell.x, cell.y, cell.z)?;
    }
    Ok(())
}

fn add_name(kind: &str, text: &[u8], found: &mut String) -> Result<(), AllocError> {
    let number = number_of(kind.strip_prefix("name ").unwrap_or(""));
    match u8::try_from(number.unwrap_or(usize::MAX)) {
        Ok(piece) => add_bytes(piece_name(text, piece), found),
        Err(_fault) => found.push_str("no such kind"),
    }
}

/// Adds a text that is given as bytes.
fn add_bytes(text: &[u8], found: &mut String) -> Result<(), AllocError> {
    found.push_str(str::from_utf8(text).unwrap_or("no text"))
}

fn add_assembled(
    alloc: Global,
    kind: &str,
    text: &[u8],
    found: &mut String,
) -> Result<(), AllocError> {
    match assemble(alloc, text) {
        Ok(bytes) => add_container(alloc, kind, &bytes, found),
        Err(fault) => write!(found, "{fault:?}"),
    }
}

fn add_container(
    alloc: Global,
    kind: &str,
    bytes: &[u8],
    found: &mut String,
) -> Result<(), AllocError> {
    match Container::parse(bytes) {
        Ok(container) => add_parsed(alloc, kind, bytes, &container, found),
        Err(fault) => write!(found, "{fault:?}"),
    }
}

/// Adds what a container is that was read of bytes.
fn add_parsed(
    alloc: Global,
    kind: &str,
    bytes: &[u8],
    container: &Container<'_>,
    found: &mut String,
) -> Result<(), AllocError> {
    if !is_rewritten(alloc, container, bytes)? {
        return found.push_str("unlike");
    }
    if kind == "written" {
        return found.push_str("right");
    }
    let text = listed(alloc, kind, container)?;
    let version = container.header().version;
    add_listed(
        kind,
        version,
        bytes,
        &text,
        assembled(alloc, &text, bytes),
        found,
    )
}

/// The listing of a container, without places for some kinds of answers.
fn listed(alloc: Global, kind: &str, container: &Container<'_>) -> Result<Vec<u8>, AllocError> {
    match kind {
        "asm" | "listing" => list(alloc, container),
        _ => list_with_places(alloc, container),
    }
}

/// What comes of a text that should be assembled to these bytes.
fn assembled(alloc: Global, text: &[u8], bytes: &[u8]) -> &'static str {
    match assemble(alloc, text) {
        Ok(again) if again.as_slice() == bytes => "right",
        Err(AsmFault::Memory) => "Memory",
        _ => "unlike",
    }
}

/// Adds what is asked for of a listing, where what comes of it is right.
fn add_listed(
    kind: &str,
    version: u16,
    bytes: &[u8],
    text: &[u8],
    comes: &str,
    found: &mut String,
) -> Result<(), AllocError> {
    if kind == "asm" || comes != "right" {
        return found.push_str(comes);
    }
    if kind != "listing" {
        write!(found, "version {version}, {} bytes", bytes.len())?;
        if kind == "size" {
            return Ok(());
        }
        found.push('\n')?;
    }
    add_bytes(text, found)
}

/// Whether the plan of a container is written as its bytes again.
fn is_rewritten(
    alloc: Global,
    container: &Container<'_>,
    bytes: &[u8],
) -> Result<bool, AllocError> {
    let plan = Plan::of(alloc, container)?;
    is_written(alloc, &plan, bytes)
}

/// Whether a plan is within the format, and written as these bytes.
pub fn is_written(alloc: Global, plan: &Plan, bytes: &[u8]) -> Result<bool, AllocError> {
    if !plan.fits() {
        return Ok(false);
    }
    Ok(write(alloc, plan)?.as_slice() == bytes)
}

fn add_plan(alloc: Global, bytes: &[u8], found: &mut String) -> Result<(), AllocError> {
    let plan = two_cubes(alloc)?;
    let is_right = is_written(alloc, &plan, bytes)?;
    found.push_str(if is_right { "right" } else { "unlike" })
}
