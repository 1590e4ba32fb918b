ghost use Rattle.std.specs.Prelude.{◌≡◌, ◌++◌, ◌∷◌, [], false, map, not, true, IsTrue, MatchResult};
ghost use Rattle.std.specs.List.{list_all};
ghost use Rattle.burr_code.specs.Instruction.{label_bytes, spelled};
ghost use Rattle.burr_plantext.specs.Rules.Checks.{is_in_range, is_known, names_unknown};
ghost use Rattle.burr_plantext.specs.Rules.Meaning.{number_of, statement_bytes};
ghost use Rattle.burr_plantext.specs.Rules.Texts.{words_of};
ghost use Rattle.burr_asm.specs.Views.Faults.{IsUnknownAt};
ghost use Rattle.burr_asm.specs.Views.LineWords.{code_words};
ghost use Rattle.burr_asm.specs.Views.Names.{has_byte};
ghost use Rattle.burr_code.specs.Instruction as instruction;

use crate::fault::AsmFault;
use crate::text::code::CodeLine;
use crate::text::names::{Names, OfferWords};
use crate::text::numbers::slot;
use burr_code::{Instr, Labels, encode};
use burr_text::cut_at;
use std::alloc::Global;

/// A line of code whose numbers and sets are in their ranges. What it names is not looked for yet.
#[derive(Clone, Copy)]
pub struct Statement<'a> {
    /// The number of the line.
    pub line: usize,
    pub code: CodeLine<'a>,
    ghost in_range: { IsTrue (is_in_range (code_words code)) },
}

impl Statement<'_> {
    /// Its bytes; else its line's fault, where a name is unknown.
    pub fn encode(
        &self,
        alloc: Global,
        labels: &Names<'_>,
        procedures: &Names<'_>,
    ) -> Result<Vec<u8>, AsmFault>
        ensures { let words = code_words self.now.code in
            MatchResult result
            (λ bytes. (names_unknown labels.now procedures.now words ≡ false)
            × (bytes.items ≡ statement_bytes labels.now procedures.now words))
            (IsUnknownAt (names_unknown labels.now procedures.now words) self.now.line) }
    {
        let line = self.line;
        match self.code {
            CodeLine::Plain(plain) => match plain.instr() {
                Some(instr) => Ok(encode(alloc, &instr)?),
                None => unreachable!(),
            },
            CodeLine::Jump(label) => {
                let label = known(labels, label, line)?;
                Ok(encode(alloc, &Instr::Jump(u16::from(label)))?)
            }
            CodeLine::Down(word, label) => {
                let label = known(labels, label, line)?;
                match slot(word) {
                    Some(slot) => Ok(encode(alloc, &Instr::Down(slot, u16::from(label)))?),
                    None => unreachable!(),
                }
            }
            CodeLine::Pick(offer) => pick(alloc, labels, offer, line),
            CodeLine::Call(procedure) => {
                let procedure = known(procedures, procedure, line)?;
                Ok(encode(alloc, &Instr::Call(procedure))?)
            }
            CodeLine::Byte(byte) => Ok(Vec::from_slice(alloc, &[byte])?),
        }
    }
}

/// The number of a name, or the fault of the line in which an unknown name stands.
fn known(names: &Names<'_>, name: &[u8], line: usize) -> Result<u8, AsmFault>
    ensures { MatchResult result
        (λ number. (is_known names.now name.now ≡ true)
        × (number ≡ number_of names.now name.now))
        (IsUnknownAt (not (is_known names.now name.now)) line) }
{
    match names.number(name) {
        Some(number) => Ok(number),
        None => Err(AsmFault::P2 { line }),
    }
}

/// The bytes of a `pick` that offers the labels of these names.
fn pick(
    alloc: Global,
    labels: &Names<'_>,
    offer: OfferWords<'_>,
    line: usize,
) -> Result<Vec<u8>, AsmFault>
    ensures { MatchResult result
        (λ bytes. (list_all (is_known labels.now) (words_of offer.entry.names.now) ≡ true)
        × (bytes.items ≡ spelled
        (instruction.Pick (map (number_of labels.now) (words_of offer.entry.names.now)))))
        (IsUnknownAt (not (list_all (is_known labels.now) (words_of offer.entry.names.now))) line) }
{
    let bytes = offered_bytes(alloc, labels, offer.names, line)?;
    match Labels::new(&bytes) {
        Some(offer) => Ok(encode(alloc, &Instr::Pick(offer))?),
        None => unreachable!(),
    }
}

/// The bytes of the labels of these names, which are joined by blanks.
fn offered_bytes(
    alloc: Global,
    labels: &Names<'_>,
    names: &[u8],
    line: usize,
) -> Result<Vec<u8>, AsmFault>
    ensures { MatchResult result
        (λ bytes. (list_all (is_known labels.now) (words_of names.now) ≡ true)
        × (list_all (has_byte labels.now) (words_of names.now) ≡ true)
        × (bytes.items ≡ label_bytes (map (number_of labels.now) (words_of names.now))))
        (IsUnknownAt (not (list_all (is_known labels.now) (words_of names.now))) line) }
{
    let mut bytes = Vec::new(alloc);
    let mut rest = names;
    while let Some((name, more)) = cut_at(rest, b' ') {
        put_label(&mut bytes, labels, name, line)?;
        rest = more;
    }
    put_label(&mut bytes, labels, rest, line)?;
    Ok(bytes)
}

/// Adds the two bytes of the label of this name.
fn put_label(
    bytes: &mut Vec<u8>,
    labels: &Names<'_>,
    name: &[u8],
    line: usize,
) -> Result<(), AsmFault>
    ensures { MatchResult result
        (λ _done. (is_known labels.now name.now ≡ true)
        × (has_byte labels.now name.now ≡ true)
        × (bytes.new.items
        ≡ bytes.old.items ++ label_bytes (number_of labels.now name.now ∷ [])))
        (IsUnknownAt (not (is_known labels.now name.now)) line) }
{
    let label = u16::from(known(labels, name, line)?);
    bytes.extend_from_slice(&label.to_be_bytes())?;
    Ok(())
}
