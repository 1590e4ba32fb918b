ghost use Rattle.std.specs.Prelude.{◌≡◌, ◌+◌, ◌<◌, ◌^◌, ◌∷◌, [], length, IfOk, MatchResult};
ghost use Rattle.byteorder.specs.Endian.{big_bytes};
ghost use Rattle.burr_code.specs.Instruction.{signed_word};
ghost use Rattle.burr_container.specs.Views.Cuts.{AreBytes, IsCut, IsShort};

use crate::fault::ContainerFault;
use byteorder::{BigEndian, ByteOrder};

/// What is still to be read of a container, and its position.
#[derive(Clone, Copy)]
pub struct Cursor<'a> {
    pub at: usize,
    pub rest: &'a [u8],
    ghost ends: { at + length rest.now < 2 ^ 64 },
    ghost bytes: { AreBytes rest.now },
}

impl<'a> Cursor<'a> {
    ghost use Rattle.burr_container.specs.Views.Reading.{Takes};

    /// At the begin of some bytes.
    pub fn new(bytes: &'a [u8]) -> Cursor<'a>
        ensures at { result.at ≡ 0 }
        ensures rest { result.rest.now ≡ bytes.now }
    {
        let _length = bytes.len();
        Cursor { at: 0, rest: bytes }
    }

    /// The next `count` bytes.
    pub fn bytes(&mut self, count: usize) -> Result<&'a [u8], ContainerFault>
        ensures small { IfOk result (λ ok. AreBytes ok.now) }
        ensures taken { MatchResult result
            (λ ok. (length ok.now ≡ count)
            × IsCut self.old.at self.old.rest.now ok.now self.new.at self.new.rest.now)
            (λ fault. IsShort count self.old.at self.old.rest.now fault) }
    {
        match self.rest.split_at_checked(count) {
            None => Err(ContainerFault::C1 {
                at: self.at + self.rest.len(),
            }),
            Some((bytes, rest)) => {
                let at = self.at + count;
                *self = Cursor { at, rest };
                Ok(bytes)
            }
        }
    }

    /// The next byte.
    pub fn byte(&mut self) -> Result<u8, ContainerFault>
        ensures { Takes 1 (λ byte. byte ∷ []) self.old self.new result }
    {
        let bytes = self.bytes(1)?;
        Ok(bytes[0])
    }

    /// The next number of 16 bits.
    pub fn word(&mut self) -> Result<u16, ContainerFault>
        ensures { Takes 2 (big_bytes 2) self.old self.new result }
    {
        let bytes = self.bytes(2)?;
        Ok(BigEndian::read_u16(bytes))
    }

    /// The next signed number of 16 bits.
    pub fn signed(&mut self) -> Result<i16, ContainerFault>
        ensures { Takes 2 signed_word self.old self.new result }
    {
        let bytes = self.bytes(2)?;
        Ok(BigEndian::read_i16(bytes))
    }

    /// The next number of 32 bits.
    pub fn long(&mut self) -> Result<u32, ContainerFault>
        ensures { Takes 4 (big_bytes 4) self.old self.new result }
    {
        let bytes = self.bytes(4)?;
        Ok(BigEndian::read_u32(bytes))
    }
}
