ghost use Rattle.std.specs.Prelude.{◌≡◌, ◌≤◌, ◌<◌, IsTrue, length, Some, slice_get, map, IfSome};
ghost use Rattle.burr_code.specs.declared.limits.TheConstants.{MOST_GUARDS, MOST_OPERANDS, MOST_PARAMETERS};
ghost use Rattle.burr_forms.specs.Rules.Forms.{IsSmallForm};
ghost use Rattle.burr_forms.specs.Rules.Points.{IsRange};
ghost use Rattle.burr_container.specs.Rules.Plans.{live_slots, over_symbols, place_over_symbols, exit_symbols};
ghost use Rattle.burr_container.specs.Rules.Fitting.{are_slots, are_ranges};

use crate::lists::{FormList, PlaceList};
use burr_code::limits::SLOTS;
use burr_forms::Form;

/// The frame of a label, read in place. Coefficient j of its forms belongs to the j-th live slot;
/// further ones are 0.
#[derive(Clone, Copy)]
pub struct FrameRef<'a> {
    pub(crate) tray: u8,
    pub(crate) grip: u32,
    pub(crate) slots: [Option<(i16, i16)>; SLOTS],
    pub(crate) guards: FormList<'a>,
    pub(crate) stack: FormList<'a>,
    pub(crate) cost: FormList<'a>,
    pub(crate) places: PlaceList<'a>,
    ghost guards_live: { guards.live ≡ live_slots slots },
    ghost stack_live: { stack.live ≡ live_slots slots },
    ghost cost_live: { cost.live ≡ live_slots slots },
    ghost one_cost: { cost.count ≡ 1 },
    ghost places_live: { places.live ≡ live_slots slots },
    ghost ranges: { IsTrue (are_slots slots) },
    ghost few_guards: { guards.count ≤ MOST_GUARDS },
    ghost few_operands: { stack.count ≤ MOST_OPERANDS },
    ghost few_places: { places.count ≤ 32 },
}

// Readers of frames of labels.
impl FrameRef<'_> {
    ghost use Rattle.burr_container.specs.Views.Refs.{frame_of, placement_view, IsSmallPlace};

    /// How many pieces the frame tells of: those of the plan, 32 at most.
    pub fn piece_count(&self) -> usize
        ensures count { result ≡ self.now.places.count }
        ensures places { result ≡ length (frame_of self.now).places }
        ensures few { result ≤ 32 }
    {
        self.places.count
    }

    /// The current tray, 0 to 31.
    pub fn tray(&self) -> u8
        ensures { result ≡ (frame_of self.now).tray }
    {
        self.tray
    }

    /// The grip: bit p is piece p.
    pub fn grip(&self) -> u32
        ensures { result ≡ (frame_of self.now).grip }
    {
        self.grip
    }

    /// The range of slot v of 0 to 7; None where it isn't live.
    pub fn slot(&self, v: u8) -> Option<(i16, i16)>
        requires { v < 8 }
        ensures slot { slice_get (frame_of self.now).slots v ≡ Some result }
        ensures range { IfSome result IsRange }
        ensures eight { length (frame_of self.now).slots ≡ 8 }
    {
        self.slots[usize::from(v)]
    }

    /// How many guards there are, 0 to 4.
    pub fn guard_count(&self) -> usize
        ensures count { result ≡ length (frame_of self.now).guards }
        ensures few { result ≤ MOST_GUARDS }
    {
        self.guards.count
    }

    /// Guard n, which is below `guard_count`.
    pub fn guard(&self, n: usize) -> Form
        requires { n < length (frame_of self.now).guards }
        ensures guard { slice_get (map (over_symbols (live_slots self.now.slots))
            (frame_of self.now).guards) n
            ≡ Some result }
        ensures small { IsSmallForm result }
    {
        self.guards.form(n)
    }

    /// How many operands there are, 0 to 8.
    pub fn stack_count(&self) -> usize
        ensures count { result ≡ length (frame_of self.now).stack }
        ensures few { result ≤ MOST_OPERANDS }
    {
        self.stack.count
    }

    /// Operand n, counted from the bottom, which is below `stack_count`.
    pub fn stack(&self, n: usize) -> Form
        requires { n < length (frame_of self.now).stack }
        ensures operand { slice_get (map (over_symbols (live_slots self.now.slots))
            (frame_of self.now).stack) n
            ≡ Some result }
        ensures small { IsSmallForm result }
    {
        self.stack.form(n)
    }

    /// The cost.
    pub fn cost(&self) -> Form
        ensures cost { result ≡ over_symbols (live_slots self.now.slots) (frame_of self.now).cost }
        ensures small { IsSmallForm result }
    {
        self.cost.form(0)
    }

    /// The tray and the offset of piece p, which the plan has; None where it is apart.
    pub fn place(&self, p: usize) -> Option<(u8, Form, Form, Form)>
        requires { p < self.now.places.count }
        ensures place { slice_get
            (map (place_over_symbols (live_slots self.now.slots)) (frame_of self.now).places) p
            ≡ Some (placement_view result) }
        ensures small { IsSmallPlace result }
    {
        self.places.place(p)
    }
}

/// How far a piece lies from home, each coordinate by a form.
#[derive(Clone, Copy, Debug, Default, PartialEq, Eq)]
pub struct FormOffset {
    pub x: Form,
    pub y: Form,
    pub z: Form,
}

/// The exit frame of a procedure, read in place. Coefficient j of its forms belongs to parameter j,
/// and those after them to the results; further ones are 0.
#[derive(Clone, Copy)]
pub struct ExitRef<'a> {
    pub(crate) tray: u8,
    pub(crate) grip: u32,
    /// How many parameters the procedure has.
    pub(crate) parameters: u8,
    /// The ranges of the results: the first `result_count` of these.
    pub(crate) results: [(i16, i16); 2],
    pub(crate) result_count: u8,
    pub(crate) guards: FormList<'a>,
    pub(crate) places: PlaceList<'a>,
    ghost few_parameters: { parameters ≤ MOST_PARAMETERS },
    ghost few_results: { result_count ≤ 2 },
    ghost symbols: { places.live ≡ exit_symbols parameters result_count },
    ghost ranges: { IsTrue (are_ranges 2 results) },
    ghost guards_live: { guards.live ≡ places.live },
    ghost few_guards: { guards.count ≤ MOST_GUARDS },
    ghost few_places: { places.count ≤ 32 },
}

// Readers of exit frames.
impl ExitRef<'_> {
    ghost use Rattle.burr_container.specs.Views.Refs.{exit_frame_of, parameters_of, placement_view, IsSmallPlace};

    /// How many pieces the exit frame tells of: those of the plan, 32 at most.
    pub fn piece_count(&self) -> usize
        ensures count { result ≡ self.now.places.count }
        ensures places { result ≡ length (exit_frame_of self.now).places }
        ensures few { result ≤ 32 }
    {
        self.places.count
    }

    /// The current tray, 0 to 31.
    pub fn tray(&self) -> u8
        ensures { result ≡ (exit_frame_of self.now).tray }
    {
        self.tray
    }

    /// The grip: bit p is piece p.
    pub fn grip(&self) -> u32
        ensures { result ≡ (exit_frame_of self.now).grip }
    {
        self.grip
    }

    /// How many parameters the procedure has, 0 to 4.
    pub fn parameters(&self) -> u8
        ensures count { result ≡ parameters_of self.now }
        ensures few { result ≤ MOST_PARAMETERS }
    {
        self.parameters
    }

    /// How many results the procedure has, 0 to 2.
    pub fn result_count(&self) -> u8
        ensures count { result ≡ length (exit_frame_of self.now).results }
        ensures few { result ≤ 2 }
    {
        self.result_count
    }

    /// The range of result n, which is below `result_count`.
    pub fn result(&self, n: u8) -> (i16, i16)
        requires { n < length (exit_frame_of self.now).results }
        ensures range { slice_get (exit_frame_of self.now).results n ≡ Some result }
        ensures ends { IsRange result }
    {
        self.results[usize::from(n)]
    }

    /// How many guards there are, 0 to 4.
    pub fn guard_count(&self) -> u8
        ensures count { result ≡ length (exit_frame_of self.now).guards }
        ensures few { result ≤ MOST_GUARDS }
    {
        self.guards.count as u8
    }

    /// Guard n, which is below `guard_count`.
    pub fn guard(&self, n: u8) -> Form
        requires { n < length (exit_frame_of self.now).guards }
        ensures guard { slice_get
            (map (over_symbols self.now.places.live) (exit_frame_of self.now).guards) n
            ≡ Some result }
        ensures small { IsSmallForm result }
    {
        self.guards.form(usize::from(n))
    }

    /// The tray and the offset of piece p, which the plan has; None where it is apart.
    pub fn place(&self, p: usize) -> Option<(u8, Form, Form, Form)>
        requires { p < self.now.places.count }
        ensures place { slice_get
            (map (place_over_symbols self.now.places.live) (exit_frame_of self.now).places) p
            ≡ Some (placement_view result) }
        ensures small { IsSmallPlace result }
    {
        self.places.place(p)
    }
}
