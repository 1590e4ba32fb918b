ghost use Rattle.std.specs.Prelude.{◌≡◌, ◌≤◌, ◌==◌, IfOk, true, false, OnOk, IsTrue, take};
ghost use Rattle.burr_code.specs.declared.limits.TheConstants.{MOST_GUARDS};
ghost use Rattle.burr_container.specs.declared.fault.ContainerFault.TheVariants.{C2 as C2_at, C3 as C3_at, C4 as C4_at, C5 as C5_at};
ghost use Rattle.burr_container.specs.Rules.Fitting.{is_version, is_budget, is_name_text, are_ranges};
ghost use Rattle.burr_container.specs.Rules.Faults.{number, raw, is_magic, is_next_label, name as name_part, label as label_part, labels as labels_part, code as code_part, body as body_part, result_count as result_count_part, procedure as procedure_part, forms as forms_part, ranges as ranges_part, exit_guards as exit_guards_part, form as form_part, slots as slots_part, place as place_part, places as places_part, frame as frame_part, exit_frame as exit_frame_part};
ghost use Rattle.burr_container.specs.Views.Reading.{Reads, GoesOver, ReadsAs};
ghost use Rattle.burr_container.specs.Views.Refs.{ReadsInPlace, form_in_list, forms_of, places_of, frame_of, exit_frame_of, parameters_of};
ghost use Rattle.burr_container.specs.Views.InPlace.{ReadsHeader, AreLabels, IsBody, IsProcedure};
ghost use Rattle.burr_container.specs.Rules.Plans.{exit_symbols as first_ones};
ghost use Rattle.burr_container.specs.Views.Decoding.{IsAfterPlace};

use crate::container::Header;
use crate::fault::ContainerFault;
use crate::frame_ref::{ExitRef, FrameRef};
use crate::label_table::LabelTable;
use crate::layout::Layout;
use crate::lists::{FormList, PlaceList, exit_symbols, form_size, live_slots};
use crate::procedure_ref::StoredProcedure;
use crate::reading::cursor::Cursor;
use crate::reading::{byte_within, count_within, piece_set, range, tray, word_within};
use arrayvec::ArrayVec;
use burr_code::limits::{
    MOST_BUDGET, MOST_CODE, MOST_GUARDS, MOST_LABELS, MOST_OPERANDS, MOST_PARAMETERS, SLOTS, TRAYS,
};
use burr_text::is_name;

/// The header: magic, version, budget, pieces and name.
pub fn header<'a>(cursor: &mut Cursor<'a>) -> Result<Header<'a>, ContainerFault>
    ensures few { IfOk result (λ ok. ok.pieces ≤ 32) }
    ensures reads { ReadsHeader cursor.old cursor.new result }
{
    magic(cursor)?;
    let version = version(cursor)?;
    let budget = budget(cursor)?;
    let pieces = byte_within(cursor, 2, 32)?;
    let name = name(cursor)?;
    Ok(Header {
        version,
        budget,
        pieces,
        name,
    })
}

/// The bytes that each container begins with; else C2 at them.
fn magic(cursor: &mut Cursor<'_>) -> Result<(), ContainerFault>
    ensures { GoesOver (raw 4 C2_at is_magic) cursor.old cursor.new result }
{
    let at = cursor.at;
    let magic = cursor.bytes(4)?;
    if magic != b"BPLN".as_slice() {
        return Err(ContainerFault::C2 { at });
    }
    Ok(())
}

/// The version, which is 1 or 2; else C3 at it.
fn version(cursor: &mut Cursor<'_>) -> Result<u16, ContainerFault>
    ensures { Reads (number 2 C3_at is_version) cursor.old cursor.new result }
{
    let at = cursor.at;
    let version = cursor.word()?;
    if version != 1 && version != 2 {
        return Err(ContainerFault::C3 { at });
    }
    Ok(version)
}

/// The budget.
fn budget(cursor: &mut Cursor<'_>) -> Result<u32, ContainerFault>
    ensures { Reads (number 4 C4_at is_budget) cursor.old cursor.new result }
{
    let at = cursor.at;
    let budget = cursor.long()?;
    if budget < 1 || MOST_BUDGET < budget {
        return Err(ContainerFault::C4 { at });
    }
    Ok(budget)
}

/// A name, with its length in front of it; where these bytes are no name, C4 at the first of them.
fn name<'a>(cursor: &mut Cursor<'a>) -> Result<&'a [u8], ContainerFault>
    ensures { ReadsInPlace (λ name. name.now) name_part cursor.old cursor.new result }
{
    let length = count_within(cursor, 1, 32)?;
    let at = cursor.at;
    let name = cursor.bytes(length)?;
    if !is_name(name) {
        return Err(ContainerFault::C4 { at });
    }
    Ok(name)
}

/// Main: it has no parameters, no results and no exit frame.
pub fn main_procedure<'a>(
    layout: Layout,
    cursor: &mut Cursor<'a>,
) -> Result<StoredProcedure<'a>, ContainerFault>
    ensures { ReadsAs (IsProcedure layout.pieces)
        (procedure_part layout.version layout.pieces true) cursor.old cursor.new result }
{
    let parameters = byte_within(cursor, 0, 0)?;
    let results = result_count(layout, true, cursor)?;
    let (labels, code) = body(layout, cursor)?;
    Ok(StoredProcedure {
        parameters,
        results,
        exit: None,
        labels,
        code,
    })
}

/// A procedure other than main.
pub fn other_procedure<'a>(
    layout: Layout,
    cursor: &mut Cursor<'a>,
) -> Result<StoredProcedure<'a>, ContainerFault>
    ensures { ReadsAs (IsProcedure layout.pieces)
        (procedure_part layout.version layout.pieces false) cursor.old cursor.new result }
{
    let parameters = byte_within(cursor, 0, MOST_PARAMETERS)?;
    let results = result_count(layout, false, cursor)?;
    let exit = exit_frame(layout, parameters, results, cursor)?;
    let (labels, code) = body(layout, cursor)?;
    Ok(StoredProcedure {
        parameters,
        results,
        exit: Some(exit),
        labels,
        code,
    })
}

/// How many results a procedure has, which version 2 alone tells.
fn result_count(layout: Layout, main: bool, cursor: &mut Cursor<'_>) -> Result<u8, ContainerFault>
    ensures few { IfOk result (λ ok. ok ≤ 2) }
    ensures reads { Reads (result_count_part layout.version main) cursor.old cursor.new result }
{
    if layout.version != 2 {
        return Ok(0);
    }
    byte_within(cursor, 0, layout.most_results(main))
}

/// What follows the parameters, the results and the exit frame of a procedure: its labels and its
/// code.
fn body<'a>(
    layout: Layout,
    cursor: &mut Cursor<'a>,
) -> Result<(LabelTable<'a>, &'a [u8]), ContainerFault>
    ensures { ReadsAs (IsBody layout.pieces) (body_part layout.pieces)
        cursor.old cursor.new result }
{
    let (labels, last) = labels(layout, cursor)?;
    let code = code(last, cursor)?;
    Ok((labels, code))
}

/// The labels of a procedure, and the position of the last one.
fn labels<'a>(
    layout: Layout,
    cursor: &mut Cursor<'a>,
) -> Result<(LabelTable<'a>, Option<u16>), ContainerFault>
    ensures { ReadsAs (AreLabels layout.pieces) (labels_part layout.pieces)
        cursor.old cursor.new result }
{
    let count = word_within(cursor, 1, MOST_LABELS)?;
    let first = *cursor;
    let mut begins = ArrayVec::new();
    let mut last = None;
    for _ in 0..count {
        let begin = cursor.at;
        let position = label(last, layout, cursor)?;
        begins.push((begin - first.at) as u32);
        last = Some(position);
    }
    let table = LabelTable {
        layout,
        bytes: first.rest,
        begins,
    };
    Ok((table, last))
}

/// A label after the one at `last`: its position.
fn label(last: Option<u16>, layout: Layout, cursor: &mut Cursor<'_>) -> Result<u16, ContainerFault>
    ensures { ReadsAs (λ position l. position ≡ l.0)
        (label_part (is_next_label last) layout.pieces) cursor.old cursor.new result }
{
    let position = position(last, cursor)?;
    let _frame = frame(layout, cursor)?;
    Ok(position)
}

/// The position of the label after the one at `last`: the first is at 0, each later one rises.
fn position(last: Option<u16>, cursor: &mut Cursor<'_>) -> Result<u16, ContainerFault>
    ensures { Reads (number 2 C5_at (is_next_label last)) cursor.old cursor.new result }
{
    let at = cursor.at;
    let position = cursor.word()?;
    let rises = match last {
        None => position == 0,
        Some(last) => last < position,
    };
    if !rises {
        return Err(ContainerFault::C5 { at });
    }
    Ok(position)
}

/// The code, with its length in front of it, in which the last label stands here.
fn code<'a>(last: Option<u16>, cursor: &mut Cursor<'a>) -> Result<&'a [u8], ContainerFault>
    ensures { ReadsInPlace (λ code. code.now) (code_part last) cursor.old cursor.new result }
{
    let least = match last {
        None => 0,
        Some(last) => usize::from(last) + 1,
    };
    let length = word_within(cursor, least, MOST_CODE)?;
    let code = cursor.bytes(length)?;
    Ok(code)
}

/// A frame of a label.
pub fn frame<'a>(layout: Layout, cursor: &mut Cursor<'a>) -> Result<FrameRef<'a>, ContainerFault>
    ensures places { IfOk result (λ ok. ok.places.count ≡ layout.pieces) }
    ensures reads { ReadsInPlace frame_of (frame_part layout.pieces) cursor.old cursor.new result }
{
    let tray = tray(cursor)?;
    let grip = piece_set(layout, cursor)?;
    let slots = slots(cursor)?;
    let live = live_slots(&slots);
    let guards = forms(live, MOST_GUARDS, cursor)?;
    let stack = forms(live, MOST_OPERANDS, cursor)?;
    let cost = form(live, cursor)?;
    let places = places(layout, live, cursor)?;
    Ok(FrameRef {
        tray,
        grip,
        slots,
        guards,
        stack,
        cost,
        places,
    })
}

/// The exit frame of a procedure with this many parameters and results.
pub fn exit_frame<'a>(
    layout: Layout,
    parameters: u8,
    results: u8,
    cursor: &mut Cursor<'a>,
) -> Result<ExitRef<'a>, ContainerFault>
    requires parameters { parameters ≤ 4 }
    requires results { results ≤ 2 }
    ensures places { IfOk result (λ ok. (ok.places.count ≡ layout.pieces)
        × (ok.places.live ≡ first_ones parameters results)) }
    ensures parameters { IfOk result (λ ok. parameters_of ok ≡ parameters) }
    ensures reads { ReadsInPlace exit_frame_of
        (exit_frame_part layout.version layout.pieces parameters results)
        cursor.old cursor.new result }
{
    let tray = tray(cursor)?;
    let grip = piece_set(layout, cursor)?;
    let live = exit_symbols(parameters, results);
    let result_count = results;
    let results = ranges(result_count, cursor)?;
    let guards = exit_guards(layout, live, cursor)?;
    let places = places(layout, live, cursor)?;
    Ok(ExitRef {
        tray,
        grip,
        parameters,
        results,
        result_count,
        guards,
        places,
    })
}

/// The next `count` ranges, two at most. They come first in the array; what stands after them there
/// has no meaning.
fn ranges(count: u8, cursor: &mut Cursor<'_>) -> Result<[(i16, i16); 2], ContainerFault>
    requires { count ≤ 2 }
    ensures fit { IfOk result (λ ok. IsTrue (are_ranges 2 ok)) }
    ensures reads { ReadsInPlace (take count) (ranges_part count) cursor.old cursor.new result }
{
    let mut ranges = [(0, 0); 2];
    for n in 0..usize::from(count) {
        let range = range(cursor)?;
        ranges[n] = range;
    }
    Ok(ranges)
}

/// The guards of an exit frame over these symbols, in version 2 alone.
fn exit_guards<'a>(
    layout: Layout,
    live: [bool; SLOTS],
    cursor: &mut Cursor<'a>,
) -> Result<FormList<'a>, ContainerFault>
    ensures live { IfOk result (λ ok. ok.live ≡ live) }
    ensures few { IfOk result (λ ok. ok.count ≤ MOST_GUARDS) }
    ensures reads { ReadsInPlace forms_of (exit_guards_part layout.version live)
        cursor.old cursor.new result }
{
    if layout.version != 2 {
        return Ok(FormList {
            live,
            count: 0,
            bytes: &[],
        });
    }
    forms(live, MOST_GUARDS, cursor)
}

/// Which slots are live, and their ranges.
fn slots(cursor: &mut Cursor<'_>) -> Result<[Option<(i16, i16)>; SLOTS], ContainerFault>
    ensures { Reads slots_part cursor.old cursor.new result }
{
    let mask = cursor.byte()?;
    let mut slots = [None; SLOTS];
    let mut bits = mask;
    for v in 0..SLOTS {
        if bits % 2 == 1 {
            let range = range(cursor)?;
            slots[v] = Some(range);
        }
        bits /= 2;
    }
    Ok(slots)
}

/// Forms over these live slots, with their count, at most this, in front of them.
fn forms<'a>(
    live: [bool; SLOTS],
    most: usize,
    cursor: &mut Cursor<'a>,
) -> Result<FormList<'a>, ContainerFault>
    ensures live { IfOk result (λ ok. ok.live ≡ live) }
    ensures few { IfOk result (λ ok. ok.count ≤ most) }
    ensures reads { ReadsInPlace forms_of (forms_part most live) cursor.old cursor.new result }
{
    let count = count_within(cursor, 0, most)?;
    let bytes = cursor.bytes(count * form_size(&live))?;
    Ok(FormList { live, count, bytes })
}

/// A form over these live slots.
fn form<'a>(live: [bool; SLOTS], cursor: &mut Cursor<'a>) -> Result<FormList<'a>, ContainerFault>
    ensures live { IfOk result (λ ok. (ok.live ≡ live) × (ok.count ≡ 1)) }
    ensures reads { ReadsInPlace form_in_list (form_part live) cursor.old cursor.new result }
{
    let bytes = cursor.bytes(form_size(&live))?;
    let count = 1;
    Ok(FormList { live, count, bytes })
}

/// The places of the pieces, by forms over these live slots.
fn places<'a>(
    layout: Layout,
    live: [bool; SLOTS],
    cursor: &mut Cursor<'a>,
) -> Result<PlaceList<'a>, ContainerFault>
    ensures live { IfOk result (λ ok. (ok.live ≡ live) × (ok.count ≡ layout.pieces)) }
    ensures reads { ReadsInPlace places_of (places_part layout.pieces live)
        cursor.old cursor.new result }
{
    let bytes = cursor.rest;
    for _ in 0..layout.pieces {
        place(&live, cursor)?;
    }
    let count = usize::from(layout.pieces);
    Ok(PlaceList { live, count, bytes })
}

/// Goes over the place of a piece, by forms over these live slots.
fn place(live: &[bool; SLOTS], cursor: &mut Cursor<'_>) -> Result<(), ContainerFault>
    ensures over { OnOk result (IsAfterPlace live.now cursor.old.rest.now cursor.new.rest.now) }
    ensures reads { GoesOver (place_part live.now) cursor.old cursor.new result }
{
    let at = cursor.at;
    let first = cursor.byte()?;
    if first == 255 {
        return Ok(());
    }
    if TRAYS <= first {
        return Err(ContainerFault::C4 { at });
    }
    let _forms = cursor.bytes(3 * form_size(live))?;
    Ok(())
}
