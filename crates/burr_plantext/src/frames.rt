//! Frames of labels and of exits, added to a text.

ghost use Rattle.std.specs.Prelude.{◌≡◌, ◌++◌, OnOk, length, Some};
ghost use Rattle.burr_container.specs.Rules.Plans.{live_slots as live_ones};
ghost use Rattle.burr_container.specs.Views.Refs.{exit_frame_of, frame_of, placement_view};
ghost use Rattle.burr_plantext.specs.Rules.Listing.{term_word};
ghost use Rattle.burr_plantext.specs.Views.Parts.{slots_text, guards_text, stack_text, places_text, frame_text, results_text, exit_text, grip_text, range_text};
ghost use Rattle.burr_plantext.specs.Views.Symbols.{AreSymbols, HasSymbols, IsOverLive, IsOverFirst, symbol_word, symbol_line, symbol_piece};

use crate::numbers::{Added, add_number, add_set, end_line};
use burr_code::limits::SLOTS;
use burr_container::{ExitRef, FrameRef};
use burr_forms::Form;

/// Adds the lines of a label's frame.
pub fn add_frame(text: &mut Vec<u8>, frame: &FrameRef<'_>) -> Added
    requires { IsOverLive (frame_of frame.now) }
    ensures { OnOk result (text.new.items ≡ text.old.items ++ frame_text (frame_of frame.now)) }
{
    let symbols = live_slots(frame);
    add_grip(text, b"frame ", frame.tray(), frame.grip())?;
    add_slots(text, frame)?;
    add_guards(text, &symbols, frame)?;
    add_stack(text, &symbols, frame)?;
    add_form_line(text, b"cost ", &symbols, &frame.cost())?;
    add_places(text, &symbols, frame)
}

/// The live slots in rising order, which are the symbols of the frame's forms; after them 0.
fn live_slots(frame: &FrameRef<'_>) -> [u8; SLOTS]
    requires { length (frame_of frame.now).slots ≡ 8 }
    ensures { AreSymbols (live_ones (frame_of frame.now).slots) result }
{
    let mut symbols = [0; SLOTS];
    let mut count = 0;
    for slot in 0..8u8 {
        if frame.slot(slot).is_some() {
            symbols[count] = slot;
            count += 1;
        }
    }
    symbols
}

fn add_slots(text: &mut Vec<u8>, frame: &FrameRef<'_>) -> Added
    requires { length (frame_of frame.now).slots ≡ 8 }
    ensures { OnOk result
        (text.new.items ≡ text.old.items ++ slots_text 0 (frame_of frame.now).slots) }
{
    for slot in 0..8u8 {
        if let Some(range) = frame.slot(slot) {
            add_number(text, b"slot ", slot)?;
            add_range(text, b" ", range)?;
        }
    }
    Ok(())
}

fn add_guards(text: &mut Vec<u8>, symbols: &[u8; SLOTS], frame: &FrameRef<'_>) -> Added
    requires { HasSymbols (frame_of frame.now) symbols.now }
    ensures { OnOk result
        (text.new.items ≡ text.old.items ++ guards_text (frame_of frame.now).guards) }
{
    for n in 0..frame.guard_count() {
        add_form_line(text, b"guard ", symbols, &frame.guard(n))?;
    }
    Ok(())
}

fn add_stack(text: &mut Vec<u8>, symbols: &[u8; SLOTS], frame: &FrameRef<'_>) -> Added
    requires { HasSymbols (frame_of frame.now) symbols.now }
    ensures { OnOk result
        (text.new.items ≡ text.old.items ++ stack_text (frame_of frame.now).stack) }
{
    for n in 0..frame.stack_count() {
        add_form_line(text, b"stack ", symbols, &frame.stack(n))?;
    }
    Ok(())
}

fn add_places(text: &mut Vec<u8>, symbols: &[u8; SLOTS], frame: &FrameRef<'_>) -> Added
    requires { HasSymbols (frame_of frame.now) symbols.now }
    ensures { OnOk result
        (text.new.items ≡ text.old.items ++ places_text 0 (frame_of frame.now).places) }
{
    for piece in 0..frame.piece_count() {
        add_piece(text, symbols, piece, frame.place(piece))?;
    }
    Ok(())
}

// Exit frames.

/// The symbols of an exit frame: parameters, and then results.
const EXIT_SYMBOLS: [u8; SLOTS] = [0, 1, 2, 3, 4, 5, 6, 7];

/// Adds the lines of an exit frame.
pub fn add_exit(text: &mut Vec<u8>, exit: &ExitRef<'_>) -> Added
    requires { IsOverFirst exit.now.places.live (exit_frame_of exit.now) }
    ensures { OnOk result
        (text.new.items ≡ text.old.items ++ exit_text (Some (exit_frame_of exit.now))) }
{
    add_grip(text, b"exit ", exit.tray(), exit.grip())?;
    add_results(text, exit)?;
    add_exit_guards(text, exit)?;
    add_exit_places(text, exit)
}

fn add_results(text: &mut Vec<u8>, exit: &ExitRef<'_>) -> Added
    ensures { OnOk result
        (text.new.items ≡ text.old.items ++ results_text (exit_frame_of exit.now).results) }
{
    for n in 0..exit.result_count() {
        add_range(text, b"result ", exit.result(n))?;
    }
    Ok(())
}

fn add_exit_guards(text: &mut Vec<u8>, exit: &ExitRef<'_>) -> Added
    requires { IsOverFirst exit.now.places.live (exit_frame_of exit.now) }
    ensures { OnOk result
        (text.new.items ≡ text.old.items ++ guards_text (exit_frame_of exit.now).guards) }
{
    for n in 0..exit.guard_count() {
        add_form_line(text, b"guard ", &EXIT_SYMBOLS, &exit.guard(n))?;
    }
    Ok(())
}

fn add_exit_places(text: &mut Vec<u8>, exit: &ExitRef<'_>) -> Added
    requires { IsOverFirst exit.now.places.live (exit_frame_of exit.now) }
    ensures { OnOk result
        (text.new.items ≡ text.old.items ++ places_text 0 (exit_frame_of exit.now).places) }
{
    for piece in 0..exit.piece_count() {
        add_piece(text, &EXIT_SYMBOLS, piece, exit.place(piece))?;
    }
    Ok(())
}

// Parts of lines of both kinds of frames.

/// Adds bytes, and then a form whose symbols are these slots: its constant, and a term for each
/// coefficient that isn't 0.
fn add_form(text: &mut Vec<u8>, before: &[u8], symbols: &[u8; SLOTS], form: &Form) -> Added
    ensures { OnOk result
        (text.new.items ≡ text.old.items ++ (before.now ++ symbol_word symbols.now form.now)) }
{
    add_number(text, before, form.constant)?;
    for symbol in 0..SLOTS {
        add_term(text, form.coefs[symbol], symbols[symbol])?;
    }
    Ok(())
}

/// Adds a term, if its coefficient isn't 0.
fn add_term(text: &mut Vec<u8>, coefficient: i64, slot: u8) -> Added
    ensures { OnOk result (text.new.items ≡ text.old.items ++ term_word slot coefficient) }
{
    if coefficient == 0 {
        return Ok(());
    }
    let sign: &[u8] = if coefficient > 0 { b"+" } else { b"" };
    add_number(text, sign, coefficient)?;
    add_number(text, b"v", slot)
}

/// Adds a line of a word with its blank, and a form.
fn add_form_line(text: &mut Vec<u8>, word: &[u8], symbols: &[u8; SLOTS], form: &Form) -> Added
    ensures { OnOk result
        (text.new.items ≡ text.old.items ++ symbol_line word.now symbols.now form.now) }
{
    add_form(text, word, symbols, form)?;
    end_line(text)
}

/// Adds the line with which a frame begins.
fn add_grip(text: &mut Vec<u8>, word: &[u8], tray: u8, set: u32) -> Added
    ensures { OnOk result (text.new.items ≡ text.old.items ++ grip_text word.now tray set) }
{
    add_number(text, word, tray)?;
    add_set(text, b" ", set)?;
    end_line(text)
}

/// Adds bytes and then the two ends of a range, and ends the line.
fn add_range(text: &mut Vec<u8>, before: &[u8], range: (i16, i16)) -> Added
    ensures { OnOk result (text.new.items ≡ text.old.items ++ range_text before.now range) }
{
    add_number(text, before, range.0)?;
    add_number(text, b" ", range.1)?;
    end_line(text)
}

/// Adds the line of a piece: its tray and its offset, or `apart`.
fn add_piece(
    text: &mut Vec<u8>,
    symbols: &[u8; SLOTS],
    piece: usize,
    place: Option<(u8, Form, Form, Form)>,
) -> Added
    ensures { OnOk result
        (text.new.items
        ≡ text.old.items ++ symbol_piece symbols.now piece (placement_view place)) }
{
    add_number(text, b"at ", piece)?;
    let Some((tray, x, y, z)) = place else {
        return text.extend_from_slice(b" apart\n");
    };
    add_number(text, b" ", tray)?;
    add_form(text, b" ", symbols, &x)?;
    add_form(text, b" ", symbols, &y)?;
    add_form(text, b" ", symbols, &z)?;
    end_line(text)
}
