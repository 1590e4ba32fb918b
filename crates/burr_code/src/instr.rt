ghost use Rattle.std.specs.Prelude.{◌≡◌, length, ◌∷◌, ◌++◌, IfOk};
ghost use Rattle.burr_code.specs.Instruction.{spelled, IsInRange, label_bytes, signed_word};
ghost use Rattle.burr_code.specs.Meaning.{meaning};
ghost use Rattle.byteorder.specs.Endian.{big_bytes};

use crate::labels::Labels;
use burr_voxels::Direction;
use byteorder::{BigEndian, ByteOrder};
use std::alloc::{AllocError, Global};

/// An instruction of a plan, with its operands. A number is of -32767 to 32767, a slot of 0 to 7, a
/// tray of 0 to 31; labels and procedures are told by their numbers, from 0.
#[derive(Debug, Drop, PartialEq, Eq)]
pub enum Instr<'a> {
    /// Ends the run; needs all pieces apart.
    Halt,
    /// Pushes a number.
    Push(i16),
    /// Pushes what a slot holds.
    Load(u8),
    /// Pops a number into a slot.
    Store(u8),
    /// Pops two numbers and pushes their sum.
    Add,
    /// Pops two numbers and pushes the lower on the stack less the upper.
    Sub,
    /// Pops a number.
    Drop,
    /// Makes these pieces the grip: bit p is piece p, and at least one bit is set.
    Grip(u32),
    /// Moves the grip by one unit along a direction.
    Step(Direction),
    /// Takes the grip out along a direction, to a tray.
    Aside(Direction, u8),
    /// Makes a tray the current one, and lets go of the grip.
    Tray(u8),
    /// Goes on at a label.
    Jump(u16),
    /// Goes on with the next instruction where a slot holds 0, else counts the slot down and goes
    /// on at a label.
    Down(u8, u16),
    /// Asks for a number of the first to the second, which is not below the first, and pushes it.
    Ask(i16, i16),
    /// Asks which of the labels to go on at, by its number from 0.
    Pick(Labels<'a>),
    /// Calls a procedure; its parameters are popped.
    Call(u8),
    /// Ends a call, and pushes its results where it was called.
    Ret,
}

impl Instr<'_> {
    /// How many bytes the instruction has: 1 to 18.
    pub fn size(&self) -> usize
        ensures { result ≡ length (spelled (meaning self.now)) }
    {
        match self {
            Instr::Halt | Instr::Add | Instr::Sub | Instr::Drop | Instr::Ret => 1,
            Instr::Load(_) | Instr::Store(_) | Instr::Step(_) => 2,
            Instr::Tray(_) | Instr::Call(_) => 2,
            Instr::Push(_) | Instr::Aside(..) | Instr::Jump(_) => 3,
            Instr::Down(..) => 4,
            Instr::Grip(_) | Instr::Ask(..) => 5,
            Instr::Pick(labels) => 2 + labels.as_bytes().len(),
        }
    }
}

/// The bytes of an instruction whose operands are in their ranges. An error is want of memory.
pub fn encode(alloc: Global, instr: &Instr<'_>) -> Result<Vec<u8>, AllocError>
    requires { IsInRange (meaning instr.now) }
    ensures { IfOk result (λ bytes. bytes.items ≡ spelled (meaning instr.now)) }
{
    match instr {
        Instr::Halt => Vec::from_slice(alloc, &[0x00]),
        Instr::Push(number) => word(alloc, 0x01, number.cast_unsigned()),
        Instr::Load(slot) => Vec::from_slice(alloc, &[0x02, *slot]),
        Instr::Store(slot) => Vec::from_slice(alloc, &[0x03, *slot]),
        Instr::Add => Vec::from_slice(alloc, &[0x04]),
        Instr::Sub => Vec::from_slice(alloc, &[0x05]),
        Instr::Drop => Vec::from_slice(alloc, &[0x06]),
        Instr::Grip(set) => grip(alloc, *set),
        Instr::Step(direction) => Vec::from_slice(alloc, &[0x11, direction.number()]),
        Instr::Aside(direction, tray) => {
            Vec::from_slice(alloc, &[0x12, direction.number(), *tray])
        }
        Instr::Tray(tray) => Vec::from_slice(alloc, &[0x13, *tray]),
        Instr::Jump(label) => word(alloc, 0x20, *label),
        Instr::Down(slot, label) => down(alloc, *slot, *label),
        Instr::Ask(low, high) => ask(alloc, *low, *high),
        Instr::Pick(labels) => pick(alloc, labels),
        Instr::Call(callee) => Vec::from_slice(alloc, &[0x24, *callee]),
        Instr::Ret => Vec::from_slice(alloc, &[0x25]),
    }
}

/// An instruction's first byte, and two bytes.
fn word(alloc: Global, first: u8, word: u16) -> Result<Vec<u8>, AllocError>
    ensures { IfOk result (λ bytes. bytes.items ≡ first ∷ big_bytes 2 word) }
{
    let mut bytes = [first, 0, 0];
    BigEndian::write_u16(&mut bytes[1..], word);
    Vec::from_slice(alloc, &bytes)
}

/// The bytes of a `grip`.
fn grip(alloc: Global, set: u32) -> Result<Vec<u8>, AllocError>
    ensures { IfOk result (λ bytes. bytes.items ≡ 0x10 ∷ big_bytes 4 set) }
{
    let mut bytes = [0x10, 0, 0, 0, 0];
    BigEndian::write_u32(&mut bytes[1..], set);
    Vec::from_slice(alloc, &bytes)
}

/// The bytes of a `down`.
fn down(alloc: Global, slot: u8, label: u16) -> Result<Vec<u8>, AllocError>
    ensures { IfOk result (λ bytes. bytes.items ≡ 0x21 ∷ slot ∷ big_bytes 2 label) }
{
    let mut bytes = [0x21, slot, 0, 0];
    BigEndian::write_u16(&mut bytes[2..], label);
    Vec::from_slice(alloc, &bytes)
}

/// The bytes of an `ask`.
fn ask(alloc: Global, low: i16, high: i16) -> Result<Vec<u8>, AllocError>
    ensures { IfOk result (λ bytes. bytes.items ≡ 0x22 ∷ signed_word low ++ signed_word high) }
{
    let mut bytes = [0x22, 0, 0, 0, 0];
    BigEndian::write_i16(&mut bytes[1..], low);
    BigEndian::write_i16(&mut bytes[3..], high);
    Vec::from_slice(alloc, &bytes)
}

/// The bytes of a `pick`.
fn pick(alloc: Global, labels: &Labels<'_>) -> Result<Vec<u8>, AllocError>
    ensures { IfOk result (λ bytes.
        bytes.items ≡ 0x23 ∷ length labels.now ∷ label_bytes labels.now) }
{
    let mut bytes = Vec::from_slice(alloc, &[0x23, labels.len() as u8])?;
    bytes.extend_from_slice(labels.as_bytes())?;
    Ok(bytes)
}
