//! Whether plans are within the format.

ghost use Rattle.std.specs.Prelude.{◌≡◌, ◌≤◌, ◌&&◌, length, false, Some, pos, neg_ℤ, IsTrue};
ghost use Rattle.std.specs.List.{list_all};
ghost use Rattle.burr_container.specs.Rules.Fitting.{is_fitting, is_version as fits_version, is_budget as fits_budget, is_piece_count as fits_piece_count, is_name_text as fits_name, are_procedures as fit_procedures, is_procedure as fits_procedure, is_exit as fits_exit, are_labels as fit_labels, are_parameters as fit_parameters, are_results as fit_results, is_code, rise_from, is_exit_frame as fits_exit_frame, is_exit_rest as fits_exit_rest, is_frame as fits_frame, is_frame_rest as fits_frame_rest, is_between, is_set_of as fits_set, is_range as fits_range, are_ranges as fit_ranges, are_forms as fit_forms, is_form as fits_form, are_coefficients, is_coefficient, are_places as fit_places, is_place as fits_place};
ghost use Rattle.burr_container.specs.Views.OwnedPlaces.{placement_of, placements_of};

use crate::layout::Layout;
use crate::lists::{exit_symbols, live_slots};
use crate::plan::{ExitFrame, Frame, Place, Plan, PlanForm, Procedure};
use burr_code::limits::{
    MOST_BUDGET, MOST_CODE, MOST_GUARDS, MOST_LABELS, MOST_OPERANDS, MOST_PARAMETERS,
    MOST_PROCEDURES, SLOTS, TRAYS,
};
use burr_text::is_name;

impl Plan {
    /// Whether the plan is within the format.
    pub fn fits(&self) -> bool
        ensures { result ≡ is_fitting self.now }
    {
        (self.version == 1 || self.version == 2)
            && (1 <= self.budget && self.budget <= MOST_BUDGET)
            && (2 <= self.pieces && self.pieces <= 32)
            && is_name_text(&self.name)
            && are_procedures(
                Layout {
                    version: self.version,
                    pieces: self.pieces,
                },
                &self.procs,
            )
    }
}

fn is_name_text(name: &[u8]) -> bool
    ensures { result ≡ fits_name name.now }
{
    is_name(name)
}

/// Main first, and then other procedures.
fn are_procedures(layout: Layout, procedures: &[Procedure]) -> bool
    ensures { result ≡ fit_procedures layout.version layout.pieces procedures.now }
{
    let [main, others @ ..] = procedures else {
        return false;
    };
    if !is_procedure(layout, true, main) {
        return false;
    }
    if !all_others(layout, others) {
        return false;
    }
    procedures.len() <= MOST_PROCEDURES
}

fn all_others(layout: Layout, procedures: &[Procedure]) -> bool
    ensures { result ≡ list_all (fits_procedure layout.version layout.pieces false) procedures.now }
{
    procedures
        .iter()
        .all(|other| is_procedure(layout, false, other))
}

fn is_procedure(layout: Layout, main: bool, procedure: &Procedure) -> bool
    ensures { result ≡ fits_procedure layout.version layout.pieces main procedure.now }
{
    if MOST_PARAMETERS < procedure.params || main && procedure.params != 0 {
        return false;
    }
    procedure.results <= layout.most_results(main)
        && is_exit(layout, main, procedure)
        && is_body(layout, &procedure.labels, &procedure.code)
}

fn is_body(layout: Layout, labels: &[(u16, Frame)], code: &[u8]) -> bool
    ensures { result ≡ (fit_labels layout.pieces (length code.now) labels.now && is_code code.now) }
{
    are_labels(layout, code.len(), labels) && code.len() <= MOST_CODE
}

/// Whether the exit frame of a procedure is within the format; main has none.
fn is_exit(layout: Layout, main: bool, procedure: &Procedure) -> bool
    requires parameters { procedure.now.parameters ≤ 4 }
    requires results { procedure.now.results ≤ 2 }
    ensures { result ≡ fits_exit layout.version main layout.pieces
        procedure.now.parameters procedure.now.results procedure.now.exit }
{
    match (main, &procedure.exit) {
        (true, None) => true,
        (true, Some(_)) | (false, None) => false,
        (false, Some(exit)) => {
            let live = exit_symbols(procedure.params, procedure.results);
            exit.tray < TRAYS
                && is_set_of(layout, exit.grip)
                && exit.results.len() == usize::from(procedure.results)
                && all_ranges(&exit.results)
                && are_forms(layout.most_exit_guards(), &live, &exit.guards)
                && are_places(layout, &live, &exit.places)
        }
    }
}

fn are_labels(layout: Layout, end: usize, labels: &[(u16, Frame)]) -> bool
    ensures { result ≡ fit_labels layout.pieces end labels.now }
{
    let [first, ..] = labels else {
        return false;
    };
    first.0 == 0 && rise(labels, end) && labels.len() <= MOST_LABELS && all_frames(layout, labels)
}

fn all_frames(layout: Layout, labels: &[(u16, Frame)]) -> bool
    ensures { result ≡ list_all (λ label. fits_frame layout.pieces label.1) labels.now }
{
    labels.iter().all(|label| is_frame(layout, &label.1))
}

/// Whether the labels rise, below the end of the code.
fn rise(labels: &[(u16, Frame)], end: usize) -> bool
    ensures { result ≡ rise_from 0 end labels.now }
{
    let mut least = 0;
    for label in labels {
        let position = usize::from(label.0);
        if position < least || end <= position {
            return false;
        }
        least = position + 1;
    }
    true
}

fn all_ranges(ranges: &[(i16, i16)]) -> bool
    ensures { result ≡ list_all (λ r. fits_range (Some r)) ranges.now }
{
    ranges.iter().all(|range| is_range(Some(*range)))
}

fn is_frame(layout: Layout, frame: &Frame) -> bool
    ensures { result ≡ fits_frame layout.pieces frame.now }
{
    let live = live_slots(&frame.slots);
    frame.tray < TRAYS
        && is_set_of(layout, frame.grip)
        && are_ranges(&frame.slots)
        && are_forms(MOST_GUARDS, &live, &frame.guards)
        && are_forms(MOST_OPERANDS, &live, &frame.stack)
        && is_form(&live, &frame.cost)
        && are_places(layout, &live, &frame.places)
}

/// Whether all pieces of this set are pieces of the plan; bit p of the set stands for piece p.
fn is_set_of(layout: Layout, set: u32) -> bool
    ensures { result ≡ fits_set layout.pieces set }
{
    u64::from(set) < 1u64 << layout.pieces
}

fn are_ranges(slots: &[Option<(i16, i16)>]) -> bool
    ensures { result ≡ list_all fits_range slots.now }
{
    slots.iter().all(|slot| is_range(*slot))
}

fn is_range(slot: Option<(i16, i16)>) -> bool
    ensures { result ≡ fits_range slot }
{
    match slot {
        None => true,
        Some((low, high)) => low != i16::MIN && low <= high,
    }
}

fn are_forms(most: usize, live: &[bool; SLOTS], forms: &[PlanForm]) -> bool
    ensures { result ≡ fit_forms most live.now forms.now }
{
    forms.len() <= most && all_forms(live, forms)
}

fn all_forms(live: &[bool; SLOTS], forms: &[PlanForm]) -> bool
    ensures { result ≡ list_all (fits_form live.now) forms.now }
{
    forms.iter().all(|form| is_form(live, form))
}

/// Whether the coefficients of slots that aren't live are 0.
fn is_form(live: &[bool; SLOTS], form: &PlanForm) -> bool
    ensures { result ≡ fits_form live.now form.now }
{
    is_constant(&form.constant) && are_coefs(live, &form.coefs)
}

/// Whether a constant is one of 32 bits, as each is here.
fn is_constant(constant: &i32) -> bool
    ensures { result ≡ is_between (neg_ℤ (pos 2147483648)) (pos 2147483647) constant.now }
{
    i32::MIN <= *constant
}

fn are_coefs(live: &[bool; SLOTS], coefs: &[i16; SLOTS]) -> bool
    ensures { result ≡ are_coefficients live.now coefs.now }
{
    for v in 0..SLOTS {
        if !is_coef(live[v], coefs[v]) {
            return false;
        }
    }
    true
}

/// Whether a coefficient is 0, or that of a live slot.
fn is_coef(is_live: bool, coef: i16) -> bool
    ensures { result ≡ is_coefficient is_live coef }
{
    is_live || coef == 0
}

fn are_places(layout: Layout, live: &[bool; SLOTS], places: &[Place]) -> bool
    ensures { result ≡ fit_places layout.pieces live.now (placements_of places.now) }
{
    places.len() == usize::from(layout.pieces) && all_places(live, places)
}

fn all_places(live: &[bool; SLOTS], places: &[Place]) -> bool
    ensures { result ≡ list_all (fits_place live.now) (placements_of places.now) }
{
    for place in places {
        if !is_place(live, place) {
            return false;
        }
    }
    true
}

fn is_place(live: &[bool; SLOTS], place: &Place) -> bool
    ensures { result ≡ fits_place live.now (placement_of place.now) }
{
    match place {
        Place::Apart => true,
        Place::On(tray, x, y, z) => {
            *tray < TRAYS && is_form(live, x) && is_form(live, y) && is_form(live, z)
        }
    }
}
