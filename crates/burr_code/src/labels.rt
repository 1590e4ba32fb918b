ghost use Rattle.std.specs.Prelude.{◌≡◌, ◌≢◌, ◌≤◌, ℕ, List, length, slice_get, MatchOption};
ghost use Rattle.burr_code.specs.Instruction.{AreLabels, label_bytes};

use byteorder::{BigEndian, ByteOrder};
use std::marker::Model;

/// The labels that `pick` offers, 2 to 8 of them, as they stand in the code: two bytes a label, the
/// higher first.
#[derive(Debug, Drop)]
pub struct Labels<'a> {
    bytes: &'a [u8],
}

impl<'a> Model for Labels<'a> {
    ghost use Rattle.std.specs.Prelude.{List, ℕ};
    ghost use Rattle.burr_code.specs.LabelBytes.{labels_in, IsOffer};

    ghost Value = { List ℕ };

    ghost view = { λ l. labels_in l.bytes.now };

    ghost invariant = { λ l. IsOffer l.bytes.now };
}

impl<'a> Labels<'a> {
    /// The labels with these bytes; None where the bytes are not those of 2 to 8 labels.
    pub fn new(bytes: &'a [u8]) -> Option<Labels<'a>>
        ensures { MatchOption result
            ((labels : List ℕ) → AreLabels labels → bytes.now ≢ label_bytes labels)
            (λ labels. AreLabels labels × (bytes.now ≡ label_bytes labels)) }
    {
        if bytes.len() % 2 != 0 {
            return None;
        }
        match bytes.len() / 2 {
            2..=8 => Some(Labels { bytes }),
            _ => None,
        }
    }

    /// How many labels there are: 2 to 8.
    pub fn len(&self) -> usize
        ensures count { result ≡ length self.now }
        ensures several { 2 ≤ result }
        ensures few { result ≤ 8 }
    {
        self.bytes.len() / 2
    }

    /// The label of a number from 0; None from the number of labels on.
    pub fn get(&self, number: usize) -> Option<u16>
        ensures { result ≡ slice_get self.now number }
    {
        if number >= self.len() {
            return None;
        }
        Some(BigEndian::read_u16(&self.bytes[2 * number..]))
    }

    /// The bytes of the labels.
    pub fn as_bytes(&self) -> &[u8]
        ensures labels { result.now ≡ label_bytes self.now }
        ensures in_range { AreLabels self.now }
    {
        self.bytes
    }
}

impl<'a> PartialEq for Labels<'a> {
    ghost use Rattle.std.specs.Prelude.{nat_eq};
    ghost use Rattle.std.specs.Cmp.{partial_equiv_from_equiv};
    ghost use Rattle.std.specs.Cmp.Lexicographic.{pointwise, nat_list_eq_equiv};

    ghost eq = { pointwise nat_eq };

    ghost laws = { partial_equiv_from_equiv nat_list_eq_equiv };

    fn eq(&self, other: &Labels<'a>) -> bool {
        self.bytes == other.bytes
    }
}

impl<'a> Eq for Labels<'a> {
    ghost use Rattle.std.specs.Cmp.Lexicographic.{nat_list_eq_equiv};

    ghost laws = { nat_list_eq_equiv };
}
