//! The bytes of plans.

ghost use Rattle.std.specs.Prelude.{◌≡◌, ◌<◌, ◌++◌, ◌∷◌, ◌^◌, [], OnOk, length, ◌≤◌, IfOk, IsTrue};
ghost use Rattle.std.specs.List.{flat_map, list_all};
ghost use Rattle.burr_code.specs.Instruction.{signed_word};
ghost use Rattle.burr_container.specs.Views.Counts.{coef_bytes, has_room, has_room_in_label};
ghost use Rattle.burr_container.specs.Rules.Plans.{of_live};
ghost use Rattle.burr_container.specs.Rules.Spelling.{form_bytes, forms_bytes, place_bytes, places_bytes, mask_of as mask_of_live, range_bytes, ranges_bytes, slots_bytes, frame_bytes, counted_bytes, exit_bytes, label_bytes, labels_bytes, procedure_bytes, plan_bytes};
ghost use Rattle.burr_container.specs.Views.OwnedPlaces.{placement_of, placements_of};
ghost use Rattle.burr_container.specs.Rules.Fitting.{is_fitting};

use crate::lists::{exit_symbols, live_slots};
use crate::plan::{ExitFrame, Frame, Place, Plan, PlanForm, Procedure};
use burr_code::limits::SLOTS;
use std::alloc::{AllocError, Global};

// Forms and places, added to bytes.

/// A form: its constant, and its coefficients of live slots.
fn add_form(bytes: &mut Vec<u8>, live: &[bool; SLOTS], form: &PlanForm) -> Result<(), AllocError>
    ensures { OnOk result (bytes.new.items ≡ bytes.old.items ++ form_bytes live.now form.now) }
{
    bytes.extend_from_slice(&form.constant.to_be_bytes())?;
    add_coefs(bytes, live, &form.coefs)
}

/// The coefficients of live slots.
fn add_coefs(
    bytes: &mut Vec<u8>,
    live: &[bool; SLOTS],
    coefs: &[i16; SLOTS],
) -> Result<(), AllocError>
    ensures { OnOk result
        (bytes.new.items ≡ bytes.old.items ++ flat_map signed_word (of_live live.now coefs.now)) }
{
    for v in 0..SLOTS {
        add_coef(bytes, live[v], coefs[v])?;
    }
    Ok(())
}

/// A coefficient, if its slot is live.
fn add_coef(bytes: &mut Vec<u8>, is_live: bool, coef: i16) -> Result<(), AllocError>
    ensures { OnOk result (bytes.new.items ≡ bytes.old.items ++ coef_bytes is_live coef) }
{
    if is_live {
        bytes.extend_from_slice(&coef.to_be_bytes())?;
    }
    Ok(())
}

/// Forms, with their count in front of them.
fn add_forms(
    bytes: &mut Vec<u8>,
    live: &[bool; SLOTS],
    forms: &[PlanForm],
) -> Result<(), AllocError>
    requires { length forms.now < 256 }
    ensures { OnOk result (bytes.new.items ≡ bytes.old.items ++ forms_bytes live.now forms.now) }
{
    bytes.push(forms.len() as u8)?;
    for form in forms {
        add_form(bytes, live, form)?;
    }
    Ok(())
}

/// Where each piece lies.
fn add_places(bytes: &mut Vec<u8>, live: &[bool; SLOTS], places: &[Place]) -> Result<(), AllocError>
    ensures { OnOk result
        (bytes.new.items ≡ bytes.old.items ++ places_bytes live.now (placements_of places.now)) }
{
    for place in places {
        add_place(bytes, live, place)?;
    }
    Ok(())
}

/// Where a piece lies.
fn add_place(bytes: &mut Vec<u8>, live: &[bool; SLOTS], place: &Place) -> Result<(), AllocError>
    ensures { OnOk result
        (bytes.new.items ≡ bytes.old.items ++ place_bytes live.now (placement_of place.now)) }
{
    match place {
        Place::Apart => Ok(bytes.push(255)?),
        Place::On(tray, x, y, z) => {
            bytes.push(*tray)?;
            add_form(bytes, live, x)?;
            add_form(bytes, live, y)?;
            add_form(bytes, live, z)
        }
    }
}

// Frames, added to bytes.

/// The ranges of results.
fn add_ranges(bytes: &mut Vec<u8>, ranges: &[(i16, i16)]) -> Result<(), AllocError>
    ensures { OnOk result (bytes.new.items ≡ bytes.old.items ++ ranges_bytes ranges.now) }
{
    for range in ranges {
        add_range(bytes, &Some(*range))?;
    }
    Ok(())
}

/// The frame of a label.
fn add_frame(bytes: &mut Vec<u8>, frame: &Frame) -> Result<(), AllocError>
    requires guards { length frame.now.guards < 256 }
    requires stack { length frame.now.stack < 256 }
    ensures { OnOk result (bytes.new.items ≡ bytes.old.items ++ frame_bytes frame.now) }
{
    let live = live_slots(&frame.slots);
    bytes.push(frame.tray)?;
    bytes.extend_from_slice(&frame.grip.to_be_bytes())?;
    add_slots(bytes, &frame.slots)?;
    add_forms(bytes, &live, &frame.guards)?;
    add_forms(bytes, &live, &frame.stack)?;
    add_form(bytes, &live, &frame.cost)?;
    add_places(bytes, &live, &frame.places)
}

/// Which slots are live, and their ranges.
fn add_slots(bytes: &mut Vec<u8>, slots: &[Option<(i16, i16)>; SLOTS]) -> Result<(), AllocError>
    ensures { OnOk result (bytes.new.items ≡ bytes.old.items ++ slots_bytes slots.now) }
{
    bytes.push(mask_of(&live_slots(slots)))?;
    for slot in slots {
        add_range(bytes, slot)?;
    }
    Ok(())
}

/// The range of a slot, if it is live.
fn add_range(bytes: &mut Vec<u8>, slot: &Option<(i16, i16)>) -> Result<(), AllocError>
    ensures { OnOk result (bytes.new.items ≡ bytes.old.items ++ range_bytes slot.now) }
{
    match slot {
        None => Ok(()),
        Some((low, high)) => {
            bytes.extend_from_slice(&low.to_be_bytes())?;
            bytes.extend_from_slice(&high.to_be_bytes())
        }
    }
}

/// The live slots as a byte: bit v for slot v.
fn mask_of(live: &[bool; SLOTS]) -> u8
    ensures { result ≡ mask_of_live live.now }
{
    let [a, b, c, d, e, f, g, h] = *live;
    let high = u8::from(e) + 2 * (u8::from(f) + 2 * (u8::from(g) + 2 * u8::from(h)));
    u8::from(a) + 2 * (u8::from(b) + 2 * (u8::from(c) + 2 * (u8::from(d) + 2 * high)))
}

// Plans, in bytes.

/// The bytes of a plan that is within the format.
pub fn write(alloc: Global, plan: &Plan) -> Result<Vec<u8>, AllocError>
    requires { IsTrue (is_fitting plan.now) }
    ensures { IfOk result (λ bytes. bytes.items ≡ plan_bytes plan.now) }
{
    let mut bytes = Vec::from_slice(alloc, b"BPLN")?;
    bytes.extend_from_slice(&plan.version.to_be_bytes())?;
    bytes.extend_from_slice(&plan.budget.to_be_bytes())?;
    bytes.push(plan.pieces)?;
    bytes.push(plan.name.len() as u8)?;
    bytes.extend_from_slice(&plan.name)?;
    add_procedures(&mut bytes, plan.version, &plan.procs)?;
    Ok(bytes)
}

/// Procedures, with their count in front of them.
fn add_procedures(
    bytes: &mut Vec<u8>,
    version: u16,
    procedures: &[Procedure],
) -> Result<(), AllocError>
    requires few { length procedures.now < 256 }
    requires room { IsTrue (list_all has_room procedures.now) }
    ensures { OnOk result
        (bytes.new.items ≡ bytes.old.items
        ++ counted_bytes (procedure_bytes version) procedures.now) }
{
    bytes.push(procedures.len() as u8)?;
    for procedure in procedures {
        add_procedure(bytes, version, procedure)?;
    }
    Ok(())
}

fn add_procedure(bytes: &mut Vec<u8>, version: u16, procedure: &Procedure) -> Result<(), AllocError>
    requires { IsTrue (has_room procedure.now) }
    ensures { OnOk result
        (bytes.new.items ≡ bytes.old.items ++ procedure_bytes version procedure.now) }
{
    bytes.push(procedure.params)?;
    if version == 2 {
        bytes.push(procedure.results)?;
    }
    add_exit(bytes, version, procedure)?;
    add_labels(bytes, &procedure.labels)?;
    bytes.extend_from_slice(&(procedure.code.len() as u16).to_be_bytes())?;
    bytes.extend_from_slice(&procedure.code)
}

/// The exit frame of a procedure, if it has one.
fn add_exit(bytes: &mut Vec<u8>, version: u16, procedure: &Procedure) -> Result<(), AllocError>
    requires { IsTrue (has_room procedure.now) }
    ensures { OnOk result
        (bytes.new.items ≡ bytes.old.items
        ++ exit_bytes version procedure.now.parameters procedure.now.results procedure.now.exit) }
{
    let Some(exit) = &procedure.exit else {
        return Ok(());
    };
    let live = exit_symbols(procedure.params, procedure.results);
    bytes.push(exit.tray)?;
    bytes.extend_from_slice(&exit.grip.to_be_bytes())?;
    add_ranges(bytes, &exit.results)?;
    if version == 2 {
        add_forms(bytes, &live, &exit.guards)?;
    }
    add_places(bytes, &live, &exit.places)
}

/// Labels, with their count in front of them.
fn add_labels(bytes: &mut Vec<u8>, labels: &[(u16, Frame)]) -> Result<(), AllocError>
    requires few { length labels.now < 2 ^ 16 }
    requires room { IsTrue (list_all has_room_in_label labels.now) }
    ensures { OnOk result (bytes.new.items ≡ bytes.old.items ++ labels_bytes labels.now) }
{
    bytes.extend_from_slice(&(labels.len() as u16).to_be_bytes())?;
    for label in labels {
        add_label(bytes, label)?;
    }
    Ok(())
}

/// A label: its position and its frame.
fn add_label(bytes: &mut Vec<u8>, label: &(u16, Frame)) -> Result<(), AllocError>
    requires { IsTrue (has_room_in_label label.now) }
    ensures { OnOk result (bytes.new.items ≡ bytes.old.items ++ label_bytes label.now) }
{
    bytes.extend_from_slice(&label.0.to_be_bytes())?;
    add_frame(bytes, &label.1)
}
