//! Owned plans, restored from containers that are read in place.

ghost use Rattle.std.specs.Prelude.{◌≡◌, ◌≤◌, ◌*◌, length, IfOk, ◌+◌, ◌<◌, drop, slice_index, IsTrue};
ghost use Rattle.burr_container.specs.Rules.Spelling.{form_size as size_of_form, plan_bytes};
ghost use Rattle.burr_container.specs.Views.Decoding.{live_count as count_of_live, coefs_in, form_in, place_rest, place_in};
ghost use Rattle.burr_container.specs.Views.Refs.{forms_of, places_of, frame_of, exit_frame_of};
ghost use Rattle.burr_container.specs.Views.OwnedPlaces.{placement_of, placements_of};
ghost use Rattle.burr_container.specs.Rules.Plans.{Plan as PlanOf, upgraded};
ghost use Rattle.burr_container.specs.Views.Containers.{HasPlan, IsContainer};
ghost use Rattle.burr_container.specs.Views.Lent.{OfLent};
ghost use Rattle.burr_container.specs.Rules.Fitting.{is_fitting};

use crate::container::Container;
use crate::frame_ref::{ExitRef, FrameRef};
use crate::list_readers::{after, after_place};
use crate::lists::{FormList, PlaceList, form_size};
use crate::plan::{ExitFrame, Frame, Place, Plan, PlanForm, Procedure};
use crate::procedure_ref::ProcedureRef;
use crate::writing::write;
use burr_code::limits::SLOTS;
use byteorder::{BigEndian, ByteOrder};
use std::alloc::{AllocError, Global};

// Forms over slots, of their bytes.
impl PlanForm {
    /// The form over these live slots at the front of some bytes.
    pub(crate) fn of(live: &[bool; SLOTS], bytes: &[u8]) -> PlanForm
        requires { size_of_form live.now ≤ length bytes.now }
        ensures { result ≡ form_in live.now bytes.now }
    {
        PlanForm {
            constant: BigEndian::read_i32(bytes),
            coefs: coefs(live, after(bytes, 4)),
        }
    }
}

/// The number of each live slot, which stand at the front of some bytes, and 0 for each other slot.
fn coefs(live: &[bool; SLOTS], bytes: &[u8]) -> [i16; SLOTS]
    requires { 2 * count_of_live live.now ≤ length bytes.now }
    ensures { result ≡ coefs_in live.now bytes.now }
{
    let mut coefs = [0; SLOTS];
    let mut rest = bytes;
    for slot in 0..SLOTS {
        if !live[slot] {
            continue;
        }
        coefs[slot] = BigEndian::read_i16(rest);
        rest = after(rest, 2);
    }
    coefs
}

/// All forms of a list.
pub fn forms(alloc: Global, list: &FormList<'_>) -> Result<Vec<PlanForm>, AllocError>
    ensures { IfOk result (λ forms. forms.items ≡ forms_of list.now) }
{
    let size = form_size(&list.live);
    let mut forms = Vec::new(alloc);
    let mut rest = list.bytes;
    for _ in 0..list.count {
        forms.push(PlanForm::of(&list.live, rest))?;
        rest = after(rest, size);
    }
    Ok(forms)
}

// Places by forms over slots, of their bytes.
impl Place {
    /// The place by forms over these live slots at the front of some bytes.
    pub(crate) fn of(live: &[bool; SLOTS], bytes: &[u8]) -> Place
        requires first { 0 < length bytes.now }
        requires whole { 1 + place_rest live.now (slice_index bytes.now 0) ≤ length bytes.now }
        ensures { placement_of result
            ≡ place_in live.now (slice_index bytes.now 0) (drop 1 bytes.now) }
    {
        if bytes[0] == 255 {
            return Place::Apart;
        }
        let size = form_size(live);
        let x = PlanForm::of(live, after(bytes, 1));
        let y = PlanForm::of(live, after(bytes, 1 + size));
        let z = PlanForm::of(live, after(bytes, 1 + size + size));
        Place::On(bytes[0], x, y, z)
    }
}

/// All places of a list.
pub fn places(alloc: Global, list: &PlaceList<'_>) -> Result<Vec<Place>, AllocError>
    ensures { IfOk result (λ places. placements_of places.items ≡ places_of list.now) }
{
    let mut places = Vec::new(alloc);
    let mut rest = list.bytes;
    for _ in 0..list.count {
        places.push(Place::of(&list.live, rest))?;
        rest = after_place(&list.live, rest);
    }
    Ok(places)
}

// Frames of labels and exit frames.
impl Frame {
    /// The frame of a label that is read in place.
    pub(crate) fn of(alloc: Global, frame: &FrameRef<'_>) -> Result<Frame, AllocError>
        ensures { IfOk result (λ owned. owned ≡ frame_of frame.now) }
    {
        let guards = forms(alloc, &frame.guards)?;
        let stack = forms(alloc, &frame.stack)?;
        let places = places(alloc, &frame.places)?;
        Ok(Frame {
            tray: frame.tray,
            grip: frame.grip,
            slots: frame.slots,
            guards,
            stack,
            cost: PlanForm::of(&frame.cost.live, frame.cost.bytes),
            places,
        })
    }
}

impl ExitFrame {
    /// The exit frame of a procedure that is read in place.
    pub(crate) fn of(alloc: Global, exit: &ExitRef<'_>) -> Result<ExitFrame, AllocError>
        ensures { IfOk result (λ owned. owned ≡ exit_frame_of exit.now) }
    {
        let result_count = usize::from(exit.result_count);
        let results = Vec::from_slice(alloc, &exit.results[..result_count])?;
        let guards = forms(alloc, &exit.guards)?;
        let places = places(alloc, &exit.places)?;
        Ok(ExitFrame {
            tray: exit.tray,
            grip: exit.grip,
            results,
            guards,
            places,
        })
    }
}

// Plans and their procedures.
impl Plan {
    /// The plan that a container is the container of.
    pub fn of(alloc: Global, container: &Container<'_>) -> Result<Plan, AllocError>
        ensures container { HasPlan container.now }
        ensures plan { IfOk result (λ plan. (p : PlanOf) → IsContainer container.now p → plan ≡ p) }
    {
        let header = container.header();
        let name = Vec::from_slice(alloc, header.name)?;
        let procs = procedures(alloc, container)?;
        Ok(Plan {
            version: header.version,
            name,
            pieces: header.pieces,
            budget: header.budget,
            procs,
        })
    }
}

/// The procedures, main first.
fn procedures(alloc: Global, container: &Container<'_>) -> Result<Vec<Procedure>, AllocError>
    ensures { IfOk result (λ procedures. (p : PlanOf) → IsContainer container.now p
        → procedures.items ≡ p.procedures) }
{
    let mut procedures = Vec::new(alloc);
    for i in 0..container.proc_count() {
        procedures.push(Procedure::of(alloc, &container.procedure(i))?)?;
    }
    Ok(procedures)
}

impl Procedure {
    /// The procedure of a plan, of what its container lends.
    pub(crate) fn of(
        alloc: Global,
        procedure: &ProcedureRef<'_, '_>,
    ) -> Result<Procedure, AllocError>
        ensures { IfOk result (λ owned. OfLent procedure.now (λ p q. owned ≡ q)) }
    {
        let exit = exit(alloc, procedure)?;
        let labels = labels(alloc, procedure)?;
        let code = Vec::from_slice(alloc, procedure.code())?;
        Ok(Procedure {
            params: procedure.params(),
            results: procedure.results(),
            exit,
            labels,
            code,
        })
    }
}

/// The exit frame; None for main.
fn exit(alloc: Global, procedure: &ProcedureRef<'_, '_>) -> Result<Option<ExitFrame>, AllocError>
    ensures { IfOk result (λ exit. OfLent procedure.now (λ p q. exit ≡ q.exit)) }
{
    match procedure.exit() {
        None => Ok(None),
        Some(exit) => Ok(Some(ExitFrame::of(alloc, &exit)?)),
    }
}

/// The positions and the frames of the labels.
fn labels(alloc: Global, procedure: &ProcedureRef<'_, '_>) -> Result<Vec<(u16, Frame)>, AllocError>
    ensures { IfOk result (λ labels. OfLent procedure.now (λ p q. labels.items ≡ q.labels)) }
{
    let mut labels = Vec::new(alloc);
    for n in 0..procedure.label_count() {
        let frame = Frame::of(alloc, &procedure.frame(n))?;
        labels.push((procedure.label(n), frame))?;
    }
    Ok(labels)
}

// Plans of version 1 in version 2: a container read back into a plan, and written anew.

/// The container of version 2 of the same plan: each procedure has no results and each exit frame
/// no guards where the container is one of version 1; of one of version 2 its own bytes.
pub fn upgrade(alloc: Global, container: &Container<'_>) -> Result<Vec<u8>, AllocError>
    ensures bytes { IfOk result (λ bytes. (p : PlanOf) → IsContainer container.now p
        → bytes.items ≡ plan_bytes (upgraded p)) }
    ensures fits { (p : PlanOf) → IsContainer container.now p → IsTrue (is_fitting (upgraded p)) }
{
    let mut plan = Plan::of(alloc, container)?;
    plan.version = 2;
    write(alloc, &plan)
}
