mod operands;

ghost use Rattle.std.specs.Prelude.{◌≤◌, ◌+◌, length, IfSome, MatchOption, ◌∷◌};
ghost use Rattle.burr_code.specs.Meaning.{IsDecoded, IsFoundAt, NoneStandsAt};

use crate::fetching::operands::{label, number, slot};
use crate::instr::Instr;
use crate::labels::Labels;

/// The instruction at a position of the code, and the number of its bytes; None exactly where no
/// instruction stands there.
pub fn fetch(code: &[u8], pc: usize) -> Option<(Instr<'_>, usize)>
    ensures stands { MatchOption result (NoneStandsAt code.now pc) (IsFoundAt code.now pc) }
    ensures within { IfSome result (λ found. pc + found.1 ≤ length code.now) }
{
    let instr = decode(code.get(pc..)?)?;
    let size = instr.size();
    Some((instr, size))
}

/// The instruction with which bytes begin; None exactly where they begin with none.
fn decode(bytes: &[u8]) -> Option<Instr<'_>>
    ensures { IsDecoded bytes.now result }
{
    let (first, operands) = bytes.split_first()?;
    match *first {
        0x00 => Some(Instr::Halt),
        0x01 => push(operands),
        0x02 => load(operands),
        0x03 => store(operands),
        0x04 => Some(Instr::Add),
        0x05 => Some(Instr::Sub),
        0x06 => Some(Instr::Drop),
        0x10 => grip(operands),
        0x11 => step(operands),
        0x12 => aside(operands),
        0x13 => tray(operands),
        0x20 => jump(operands),
        0x21 => down(operands),
        0x22 => ask(operands),
        0x23 => pick(operands),
        0x24 => call(operands),
        0x25 => Some(Instr::Ret),
        _ => None,
    }
}

// The instructions of the flow of control that have operands.

/// The `jump` with these operands: a label.
fn jump(operands: &[u8]) -> Option<Instr<'_>>
    ensures { IsDecoded (0x20 ∷ operands.now) result }
{
    let (label, _rest) = label(operands)?;
    Some(Instr::Jump(label))
}

/// The `down` with these operands: a slot and a label.
fn down(operands: &[u8]) -> Option<Instr<'_>>
    ensures { IsDecoded (0x21 ∷ operands.now) result }
{
    let (slot, operands) = slot(operands)?;
    let (label, _rest) = label(operands)?;
    Some(Instr::Down(slot, label))
}

/// The `call` with these operands: the number of a procedure, in one byte.
fn call(operands: &[u8]) -> Option<Instr<'_>>
    ensures { IsDecoded (0x24 ∷ operands.now) result }
{
    let callee = operands.first()?;
    Some(Instr::Call(*callee))
}

// The instructions on numbers that have operands.

/// The `push` with these operands: a number.
fn push(operands: &[u8]) -> Option<Instr<'_>>
    ensures { IsDecoded (0x01 ∷ operands.now) result }
{
    let (number, _rest) = number(operands)?;
    Some(Instr::Push(number))
}

/// The `load` with these operands: a slot.
fn load(operands: &[u8]) -> Option<Instr<'_>>
    ensures { IsDecoded (0x02 ∷ operands.now) result }
{
    let (slot, _rest) = slot(operands)?;
    Some(Instr::Load(slot))
}

/// The `store` with these operands: a slot.
fn store(operands: &[u8]) -> Option<Instr<'_>>
    ensures { IsDecoded (0x03 ∷ operands.now) result }
{
    let (slot, _rest) = slot(operands)?;
    Some(Instr::Store(slot))
}

// The instructions that ask.

/// The `ask` with these operands: two numbers, the second no lower than the first.
fn ask(operands: &[u8]) -> Option<Instr<'_>>
    ensures { IsDecoded (0x22 ∷ operands.now) result }
{
    let (low, operands) = number(operands)?;
    let (high, _rest) = number(operands)?;
    if high < low {
        return None;
    }
    Some(Instr::Ask(low, high))
}

/// The `pick` with these operands: how many labels there are, in one byte, and the labels.
fn pick(operands: &[u8]) -> Option<Instr<'_>>
    ensures { IsDecoded (0x23 ∷ operands.now) result }
{
    let (count, rest) = operands.split_first()?;
    let labels = Labels::new(rest.get(..2 * usize::from(*count))?)?;
    Some(Instr::Pick(labels))
}

// The instructions that move pieces.

/// The `grip` with these operands: a set of pieces that is not empty.
fn grip(operands: &[u8]) -> Option<Instr<'_>>
    ensures { IsDecoded (0x10 ∷ operands.now) result }
{
    let (set, _rest) = operands::set(operands)?;
    Some(Instr::Grip(set))
}

/// The `step` with these operands: a direction.
fn step(operands: &[u8]) -> Option<Instr<'_>>
    ensures { IsDecoded (0x11 ∷ operands.now) result }
{
    let (direction, _rest) = operands::direction(operands)?;
    Some(Instr::Step(direction))
}

/// The `aside` with these operands: a direction and a tray.
fn aside(operands: &[u8]) -> Option<Instr<'_>>
    ensures { IsDecoded (0x12 ∷ operands.now) result }
{
    let (direction, operands) = operands::direction(operands)?;
    let (tray, _rest) = operands::tray(operands)?;
    Some(Instr::Aside(direction, tray))
}

/// The `tray` with these operands: a tray.
fn tray(operands: &[u8]) -> Option<Instr<'_>>
    ensures { IsDecoded (0x13 ∷ operands.now) result }
{
    let (tray, _rest) = operands::tray(operands)?;
    Some(Instr::Tray(tray))
}
