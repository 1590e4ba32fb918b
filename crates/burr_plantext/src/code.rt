//! The labels and the code of a procedure, added to a text.

ghost use Rattle.std.specs.Prelude.{◌≡◌, ◌<◌, ◌≤◌, ◌+◌, [], ◌∷◌, ◌++◌, length, drop, OnOk, IfOk, IfSome, MatchOption, Some, None, if◌then◌else◌, nat_lt, map, codes};
ghost use Rattle.std.specs.List.{list_all, join_with_byte};
ghost use Rattle.burr_code.specs.Instruction.{IsInRange, spelled};
ghost use Rattle.burr_code.specs.Meaning.{meaning};
ghost use Rattle.burr_code.specs.declared.limits.TheConstants.{MOST_CODE};
ghost use Rattle.burr_container.specs.Views.Containers.{HasLabel, HasPlan, OfProcedure};
ghost use Rattle.burr_plantext.specs.Rules.Listing.{has_names, label_name, instruction_listed};
ghost use Rattle.burr_plantext.specs.Rules.Lines.{CodeLine};
ghost use Rattle.burr_plantext.specs.Rules.Writing.{line_text, hex_digit as digit, statement_words};
ghost use Rattle.burr_plantext.specs.Views.Listings.{begin_of, IsLineAdded, IsCodeAdded, IsBlockAdded, AreBlocksAdded};
ghost use Rattle.burr_voxels.specs.Grid.{name_of};
ghost use Rattle.burr_plantext.specs.Rules.Statements.{Alone, Byte, bare_of, bares, code_of};

use crate::frames::add_frame;
use crate::numbers::{Added, add_number, add_set, end_line};
use burr_code::{Instr, Labels, fetch};
use burr_container::Container;
use burr_voxels::Direction;
use std::alloc::AllocError;

/// How many labels a procedure has, and how many procedures its plan: what its code may name. Its
/// number, where each line of its code has its place in front of it.
#[derive(Clone, Copy)]
struct Reach {
    labels: usize,
    procedures: usize,
    placed: Option<usize>,
}

/// Adds the labels and the code of procedure i, with places or without.
pub fn add_code(text: &mut Vec<u8>, container: &Container<'_>, i: usize, places: bool) -> Added
    requires procedure { i < length container.now.procedures }
    requires plan { HasPlan container.now }
    ensures { OnOk result (OfProcedure container.now i (λ p q.
        AreBlocksAdded p q (if places then Some i else None) text.old.items text.new.items)) }
{
    let reach = Reach {
        labels: container.label_count(i),
        procedures: container.proc_count(),
        placed: places.then_some(i),
    };
    for n in 0..container.label_count(i) {
        add_block(text, container, i, n, reach)?;
    }
    Ok(())
}

/// Adds label n of procedure i, with its frame and its code.
fn add_block(
    text: &mut Vec<u8>,
    container: &Container<'_>,
    i: usize,
    n: usize,
    reach: Reach,
) -> Added
    requires procedure { i < length container.now.procedures }
    requires label { HasLabel container.now i n }
    requires plan { HasPlan container.now }
    ensures { OnOk result (OfProcedure container.now i (λ p q.
        IsBlockAdded reach.labels reach.procedures reach.placed q n text.old.items
        text.new.items)) }
{
    add_number(text, b"label L", n)?;
    end_line(text)?;
    add_frame(text, &container.frame(i, n))?;
    let code = container.code(i);
    let start = usize::from(container.label(i, n));
    let end = block_end(container, i, n);
    add_lines(text, start, &code[start..end], reach)
}

/// Where the block of label n of procedure i ends: at the next label, or where the code does.
fn block_end(container: &Container<'_>, i: usize, n: usize) -> usize
    requires procedure { i < length container.now.procedures }
    requires label { HasLabel container.now i n }
    ensures { OfProcedure container.now i (λ p q.
        result ≡ begin_of (length q.code) (drop (n + 1) q.labels)) }
{
    let count = container.label_count(i);
    if n + 1 < count {
        usize::from(container.label(i, n + 1))
    } else {
        container.code(i).len()
    }
}

/// Adds the lines of code that begins at a position, and within which no label stands.
fn add_lines(text: &mut Vec<u8>, start: usize, block: &[u8], reach: Reach) -> Added
    requires { start + length block.now ≤ MOST_CODE }
    ensures { OnOk result
        (IsCodeAdded reach.labels reach.procedures reach.placed start block.now
        text.old.items text.new.items) }
{
    let mut rest = block;
    let mut at = start;
    while !rest.is_empty() {
        if let Some(procedure) = reach.placed {
            add_number(text, b"; proc ", procedure)?;
            add_number(text, b" pc ", at)?;
            end_line(text)?;
        }
        let size = reach.add_line(text, rest)?;
        rest = &rest[size..];
        at += size;
    }
    Ok(())
}

impl Reach {
    /// Adds the line with which code begins: of an instruction, if all that it names is there, else
    /// of the first byte. Gives how many bytes it stands for.
    fn add_line(self, text: &mut Vec<u8>, code: &[u8]) -> Result<usize, AllocError>
        requires { 0 < length code.now }
        ensures { IfOk result (λ size.
            IsLineAdded self.labels self.procedures code.now text.old.items text.new.items
            size) }
    {
        match fetch(code, 0) {
            Some((instr, size)) if self.has_names_of(&instr) => {
                add_words(text, &instr)?;
                end_line(text)?;
                Ok(size)
            }
            _ => {
                add_byte(text, code[0])?;
                Ok(1)
            }
        }
    }

    /// Whether all labels and procedures that an instruction names are there.
    fn has_names_of(self, instr: &Instr<'_>) -> bool
        ensures { result ≡ has_names self.labels self.procedures (meaning instr.now) }
    {
        match instr {
            Instr::Jump(label) | Instr::Down(_, label) => usize::from(*label) < self.labels,
            Instr::Pick(labels) => self.has_labels(labels),
            Instr::Call(procedure) => usize::from(*procedure) < self.procedures,
            _ => true,
        }
    }

    fn has_labels(self, labels: &Labels<'_>) -> bool
        ensures { result ≡ list_all (λ label. nat_lt label self.labels) labels.now }
    {
        for n in 0..labels.len() {
            if !matches!(labels.get(n), Some(label) if usize::from(label) < self.labels) {
                return false;
            }
        }
        true
    }
}

// Lines of code, added to a text.

/// Adds the words of an instruction.
fn add_words(text: &mut Vec<u8>, instr: &Instr<'_>) -> Added
    ensures { OnOk result
        (text.new.items ≡ text.old.items
        ++ join_with_byte 32 (statement_words (instruction_listed (meaning instr.now)))) }
{
    match instr {
        Instr::Halt => text.extend_from_slice(b"halt"),
        Instr::Push(number) => add_number(text, b"push ", *number),
        Instr::Load(slot) => add_number(text, b"load ", *slot),
        Instr::Store(slot) => add_number(text, b"store ", *slot),
        Instr::Add => text.extend_from_slice(b"add"),
        Instr::Sub => text.extend_from_slice(b"sub"),
        Instr::Drop => text.extend_from_slice(b"drop"),
        Instr::Grip(set) => add_set(text, b"grip ", *set),
        Instr::Step(direction) => add_direction(text, b"step ", *direction),
        Instr::Aside(direction, tray) => {
            add_direction(text, b"aside ", *direction)?;
            add_number(text, b" ", *tray)
        }
        Instr::Tray(tray) => add_number(text, b"tray ", *tray),
        Instr::Jump(label) => add_number(text, b"jump L", *label),
        Instr::Down(slot, label) => {
            add_number(text, b"down ", *slot)?;
            add_number(text, b" L", *label)
        }
        Instr::Ask(low, high) => {
            add_number(text, b"ask ", *low)?;
            add_number(text, b" ", *high)
        }
        Instr::Pick(labels) => add_pick(text, labels),
        Instr::Call(procedure) => add_number(text, b"call p", *procedure),
        Instr::Ret => text.extend_from_slice(b"ret"),
    }
}

/// Adds a word with its blank, and a direction.
fn add_direction(text: &mut Vec<u8>, word: &[u8], direction: Direction) -> Added
    ensures { OnOk result
        (text.new.items ≡ text.old.items ++ (word.now ++ name_of direction)) }
{
    text.extend_from_slice(word)?;
    text.extend_from_slice(&direction.name())
}

fn add_pick(text: &mut Vec<u8>, labels: &Labels<'_>) -> Added
    ensures { OnOk result
        (text.new.items
        ≡ text.old.items ++ join_with_byte 32 (codes "pick" ∷ map label_name labels.now)) }
{
    text.extend_from_slice(b"pick")?;
    for n in 0..labels.len() {
        if let Some(label) = labels.get(n) {
            add_number(text, b" L", label)?;
        }
    }
    Ok(())
}

/// Adds the line of one raw byte.
fn add_byte(text: &mut Vec<u8>, byte: u8) -> Added
    ensures { OnOk result
        (text.new.items ≡ text.old.items ++ line_text (CodeLine (Byte byte))) }
{
    text.extend_from_slice(b"byte ")?;
    text.push(hex_digit(byte / 16))?;
    text.push(hex_digit(byte % 16))?;
    end_line(text)
}

/// The digit of base 16 for a number of 0 to 15.
fn hex_digit(number: u8) -> u8
    requires { number < 16 }
    ensures { result ≡ digit number }
{
    if number < 10 {
        b'0' + number
    } else {
        b'a' + (number - 10)
    }
}

/// The instruction without operands that has this word.
pub fn bare_instr(word: &[u8]) -> Option<Instr<'static>>
    ensures range { IfSome result (λ instr. IsInRange (meaning instr)) }
    ensures short { IfSome result (λ instr. length (spelled (meaning instr)) ≡ 1) }
    ensures value { MatchOption result (code_of word.now [] ≡ None) (λ instr.
        code_of word.now [] ≡ Some (Alone (bare_of bares (meaning instr)))) }
{
    match word {
        b"halt" => Some(Instr::Halt),
        b"add" => Some(Instr::Add),
        b"sub" => Some(Instr::Sub),
        b"drop" => Some(Instr::Drop),
        b"ret" => Some(Instr::Ret),
        _ => None,
    }
}
