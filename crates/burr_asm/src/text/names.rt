ghost use Rattle.std.specs.Prelude.{◌≡◌, ◌<◌, ◌++◌, ◌∷◌, [], false, length, IfOk, ◌≤◌, IsTrue, MatchOption, None, Some};
ghost use Rattle.std.specs.List.{list_all};
ghost use Rattle.burr_container.specs.Rules.Fitting.{is_name_text};
ghost use Rattle.burr_plantext.specs.Rules.Checks.{is_known};
ghost use Rattle.burr_plantext.specs.Rules.Statements.{offer, Pick};
ghost use Rattle.burr_plantext.specs.Rules.Texts.{words_of};
ghost use Rattle.burr_asm.specs.Views.Names.{number_if_known};
ghost use Rattle.burr_asm.specs.Views.Offers.{AreCounted};

use burr_text::{cut_at, is_name};
use std::alloc::{AllocError, Global};
use std::collections::HashMap;
use std::marker::Model;

/// At most 256 different names, numbered from 0 in their order.
#[derive(Drop)]
pub struct Names<'a> {
    names: Vec<&'a [u8]>,
    numbers: HashMap<&'a [u8], u8>,
}

impl<'a> Model for Names<'a> {
    ghost use Rattle.std.specs.Prelude.{List, ℕ, ◌≤◌, vec_len};
    ghost use Rattle.burr_asm.specs.Views.Names.{AreNumbered, texts};

    ghost Value = { List (List ℕ) };

    ghost view = { λ n. texts n.names.items };

    ghost invariant = { λ n.
        (vec_len n.names ≤ 256) × AreNumbered (texts n.names.items) n.numbers };
}

impl<'a> Names<'a> {
    /// No name yet.
    pub fn new(alloc: Global) -> Names<'a>
        ensures { result ≡ [] }
    {
        Names {
            names: Vec::new(alloc),
            numbers: HashMap::new(alloc),
        }
    }

    /// How many names there are: at most 256.
    pub fn count(&self) -> usize
        ensures { result ≡ length self.now }
    {
        self.names.len()
    }

    /// The number of a name; None where it is not among these names.
    pub fn number(&self, name: &[u8]) -> Option<u8>
        ensures { result ≡ number_if_known self.now name.now }
    {
        self.numbers.get(name).copied()
    }

    /// Adds a name that is not among these yet.
    pub fn add(&mut self, name: &'a [u8]) -> Result<(), AllocError>
        requires room { length self.now < 256 }
        requires new { is_known self.now name.now ≡ false }
        ensures { IfOk result (λ _done. self.new ≡ self.old ++ name.now ∷ []) }
    {
        let number = self.names.len() as u8;
        self.names.reserve(1)?;
        self.numbers.insert(name, number)?;
        self.names.push(name)?;
        Ok(())
    }
}

/// The words of a `pick`: the names of 2 to 8 labels, joined by blanks.
#[derive(Clone, Copy)]
pub struct OfferWords<'a> {
    pub names: &'a [u8],
    /// How many names there are.
    pub count: usize,
    ghost few: { count ≤ 8 },
    ghost several: { 2 ≤ count },
    ghost counted: { length (words_of names.now) ≡ count },
    ghost named: { IsTrue (list_all is_name_text (words_of names.now)) },
}

impl OfferWords<'_> {
    /// The 2 to 8 names that bytes are, joined by blanks.
    pub fn parse(bytes: &[u8]) -> Option<OfferWords<'_>>
        ensures { MatchOption result (offer (words_of bytes.now) ≡ None) (λ offered.
            offer (words_of bytes.now) ≡ Some (Pick (words_of offered.names.now))) }
    {
        let count = count_names(bytes)?;
        if count < 2 {
            return None;
        }
        Some(OfferWords {
            names: bytes,
            count,
        })
    }
}

/// How many names the bytes are, joined by blanks; None where one of the words is no
/// name, or where there are more than 8.
fn count_names(bytes: &[u8]) -> Option<usize>
    ensures { AreCounted (words_of bytes.now) result }
{
    let mut count = 1;
    let mut rest = bytes;
    while let Some((word, more)) = cut_at(rest, b' ') {
        if count == 8 || !is_name(word) {
            return None;
        }
        count += 1;
        rest = more;
    }
    is_name(rest).then_some(count)
}
