//! The rules of the instructions that grip and move pieces.

ghost use Rattle.std.specs.Prelude.{◌≡◌, ◌≤◌, ◌^◌, ◌↔◌, IsTrue, IfErr, length, []};
ghost use Rattle.burr_code.specs.Places.{AllLieIn, IsPartOfTray, IsEmptyTray, aside_places};
ghost use Rattle.burr_assembly.specs.Rules.Homes.{homes_of};
ghost use Rattle.burr_blocking.specs.Rules.Counted.{HasCounted};
ghost use Rattle.burr_forms.specs.Rules.Forms.{AllSmallForms};
ghost use Rattle.burr_frames.specs.Views.Changes.{with_grip, with_places};
ghost use Rattle.burr_frames.specs.Rules.SpaceRules.{grip_rule, step_rule, aside_rule, tray_rule, moved, AllSmallPlaces};
ghost use Rattle.burr_frames.specs.Views.Breaks.{next_verdict};
ghost use Rattle.burr_frames.specs.Rules.Looks.{HasRoom, step_looks, aside_looks, clearing_looks};
ghost use Rattle.burr_frames.specs.Views.Moving.{ClearOrBreaks, free_aside, free_step};
ghost use Rattle.burr_frames.specs.Views.Clearing.{offsets_in};

use crate::clearing::{Clearing, put_pieces};
use crate::forms::{can_shift, shift};
use crate::rule::{Break, Rule};
use crate::state::State;
use crate::state::meeting::append_offset;
use arrayvec::ArrayVec;
use burr_blocking::{Blocking, Looks, Query};
use burr_code::limits::MOST_OFFSET;
use burr_code::{Placement, all_lie_in, is_empty_tray, is_in_set, is_part_of_tray, take_aside};
use burr_container::FormOffset;
use burr_forms::limits::MOST_FORMS;
use burr_forms::{Form, first_refused, the_points_are_given};
use burr_voxels::Direction;

impl State {
    /// `grip`: pieces of the current tray are gripped.
    pub fn take_grip(&mut self, group: u32) -> Result<(), Break>
        ensures verdict { grip_rule self.old group (next_verdict self.new result) }
        ensures kept { IfErr result (λ _. self.new ≡ self.old) }
    {
        if !all_lie_in(self.places(), self.tray(), group) {
            return Err(Break::plain(Rule::GripOff));
        }
        let cost = self.paid()?;
        self.set_cost(cost);
        self.grip = group;
        Ok(())
    }

    /// `tray`: another tray is the current one, with nothing gripped.
    pub fn turn_to(&mut self, tray: u8) -> Result<(), Break>
        ensures verdict { tray_rule self.old tray (next_verdict self.new result) }
        ensures kept { IfErr result (λ _. self.new ≡ self.old) }
    {
        let cost = self.paid()?;
        self.set_cost(cost);
        self.tray = tray;
        self.grip = 0;
        Ok(())
    }

    /// `step`: the grip goes one unit along a direction; after it each piece of the tray is on the
    /// bench, and no gripped piece overlaps another one of the tray. At each point, in order, each
    /// such pair is a look, up to the first that overlaps. The state has at most 4,096 points, and
    /// at most 2^40 looks were made so far, the caller's conditions.
    #[inline(never)]
    pub fn step<B: Blocking>(
        &mut self,
        looks: &mut Looks<'_, B>,
        direction: Direction,
    ) -> Result<(), Break>
        requires points { HasRoom self.old }
        requires room { looks.old.count ≤ 2 ^ 40 }
        ensures verdict { step_rule (homes_of looks.old.assembly) self.old direction
            (next_verdict self.new result) }
        ensures kept { IfErr result (λ _. self.new ≡ self.old) }
        ensures counted { HasCounted (step_looks (homes_of looks.old.assembly) self.old direction)
            looks.old looks.new }
    {
        if self.grip == 0 {
            return Err(Break::plain(Rule::BadGroup));
        }
        if !can_shift_group(self.places(), self.grip(), direction) {
            return Err(Break::plain(Rule::FormTooLarge));
        }
        self.shift(direction);
        let clear = self.goes_clear(looks, Query::Overlap, Rule::Collision);
        match clear.and(self.paid()) {
            Ok(cost) => {
                self.set_cost(cost);
                Ok(())
            }
            Err(broken) => {
                self.shift(direction.opposite());
                Err(broken)
            }
        }
    }

    /// What `step` comes to where nothing is in the way: the grip goes one unit along a direction,
    /// and no look is made.
    #[inline(never)]
    pub fn step_freely(&mut self, direction: Direction) -> Result<(), Break>
        ensures verdict { free_step self.old direction (next_verdict self.new result) }
        ensures kept { IfErr result (λ _. self.new ≡ self.old) }
    {
        if !can_shift_group(self.places(), self.grip(), direction) {
            return Err(Break::plain(Rule::FormTooLarge));
        }
        let cost = self.paid()?;
        self.set_cost(cost);
        self.shift(direction);
        Ok(())
    }

    /// `aside`: the grip, which is not the whole tray, goes out along a direction to an empty tray,
    /// free of the rest of its tray. A piece that is alone in a tray then is apart. Each pair at
    /// each point is a look, and the caller's conditions are those of `step`.
    #[inline(never)]
    pub fn aside<B: Blocking>(
        &mut self,
        looks: &mut Looks<'_, B>,
        direction: Direction,
        tray: u8,
    ) -> Result<(), Break>
        requires points { HasRoom self.old }
        requires room { looks.old.count ≤ 2 ^ 40 }
        ensures verdict { aside_rule (homes_of looks.old.assembly) self.old direction tray
            (next_verdict self.new result) }
        ensures kept { IfErr result (λ _. self.new ≡ self.old) }
        ensures counted { HasCounted
            (aside_looks (homes_of looks.old.assembly) self.old direction tray)
            looks.old looks.new }
    {
        if !is_part_of_tray(self.grip(), self.places(), self.tray()) {
            return Err(Break::plain(Rule::BadGroup));
        }
        if !is_empty_tray(self.places(), tray) {
            return Err(Break::plain(Rule::TrayInUse));
        }
        self.goes_clear(looks, Query::Exit(direction), Rule::NotFree)?;
        let cost = self.paid()?;
        self.set_cost(cost);
        self.go_aside(tray);
        Ok(())
    }

    /// What `aside` comes to where nothing is in the way: the grip goes out to a tray, and no look is
    /// made.
    #[inline(never)]
    pub fn aside_freely(&mut self, there: u8) -> Result<(), Break>
        ensures verdict { free_aside self.old there (next_verdict self.new result) }
        ensures kept { IfErr result (λ _. self.new ≡ self.old) }
    {
        let cost = self.paid()?;
        self.set_cost(cost);
        self.go_aside(there);
        Ok(())
    }

    /// That each piece of the tray is on the bench, and no gripped piece is in the way of one left in
    /// the tray; else a rule is broken at the first point where that does not hold, and this one
    /// there for the first pair. The caller's conditions are those of `step`.
    fn goes_clear<B: Blocking>(
        &self,
        looks: &mut Looks<'_, B>,
        query: Query,
        rule: Rule,
    ) -> Result<(), Break>
        requires points { HasRoom self.now }
        requires room { looks.old.count ≤ 2 ^ 40 }
        ensures verdict { ClearOrBreaks (homes_of looks.old.assembly) self.now self.now.places query
            rule result }
        ensures counted { HasCounted
            (clearing_looks (homes_of looks.old.assembly) self.now self.now.places query)
            looks.old looks.new }
    {
        the_points_are_given();
        let places = self.places();
        let tray = self.tray();
        let mut offsets = ArrayVec::new();
        put_offsets(tray, places, &mut offsets);
        self.stays_within(offsets.as_slice(), MOST_OFFSET, Rule::OffBench)?;
        let homed = places
            .len()
            .min(usize::from(looks.assembly().piece_count()));
        let mut gripped = ArrayVec::new();
        let mut left = ArrayVec::new();
        put_pieces(tray, self.grip(), &places[..homed], &mut gripped, &mut left);
        let mut clearing = Clearing {
            forms: offsets.as_slice(),
            gripped: gripped.as_slice(),
            left: left.as_slice(),
            query,
            looks,
            found: None,
        };
        let here = self.region();
        match first_refused(here.ranges, here.guards, &mut clearing) {
            None => Ok(()),
            Some(point) => Err(Break {
                rule,
                pieces: clearing.found,
                point: Some(point),
            }),
        }
    }

    /// The grip goes one unit along a direction. No form is too large then, the caller's condition.
    fn shift(&mut self, direction: Direction)
        requires { AllSmallPlaces (moved self.old.grip direction self.old.places) }
        ensures { self.new ≡ with_places (moved self.old.grip direction self.old.places) self.old }
    {
        shift_group(self.places.as_mut_slice(), self.grip, direction);
    }

    /// The grip goes to an empty tray; a piece that is alone in a tray then is apart.
    fn go_aside(&mut self, tray: u8)
        ensures { self.new ≡ with_grip 0 (with_places
            (aside_places self.old.grip self.old.tray tray self.old.places) self.old) }
    {
        take_aside(self.places.as_mut_slice(), self.grip, self.tray, tray);
        self.grip = 0;
    }
}

// Where pieces lie: a group that is shifted, and the forms of offsets.

/// Whether no form is too large once a group has gone one unit along a direction. The numbers of all
/// forms lie within ±2^40, the caller's condition.
fn can_shift_group(places: &[Placement<FormOffset>], group: u32, direction: Direction) -> bool
    requires few { length places.now ≤ 32 }
    requires small { AllSmallPlaces places.now }
    ensures { IsTrue result ↔ AllSmallPlaces (moved group direction places.now) }
{
    for (piece, place) in places.iter().enumerate() {
        if is_in_set(group, piece as u8) && !can_shift(place, direction) {
            return false;
        }
    }
    true
}

/// Shifts the pieces of a group one unit along a direction. No form is too large then, the caller's
/// condition.
fn shift_group(places: &mut [Placement<FormOffset>], group: u32, direction: Direction)
    requires few { length places.old ≤ 32 }
    requires small { AllSmallPlaces (moved group direction places.old) }
    ensures { places.new ≡ moved group direction places.old }
{
    for (piece, place) in places.iter_mut().enumerate() {
        if is_in_set(group, piece as u8) {
            shift(place, direction);
        }
    }
}

/// Puts the forms of the offsets of a tray's pieces into an empty list, in order, three for each. The
/// numbers of all forms lie within ±2^40, the caller's condition.
fn put_offsets(tray: u8, places: &[Placement<FormOffset>], offsets: &mut ArrayVec<Form, MOST_FORMS>)
    requires few { length places.now ≤ 32 }
    requires small { AllSmallPlaces places.now }
    requires empty { offsets.old.items ≡ [] }
    ensures offsets { offsets.new.items ≡ offsets_in tray places.now }
    ensures small { AllSmallForms offsets.new.items }
{
    for place in places {
        if place.is_in(tray) {
            append_offset(offsets, place);
        }
    }
}
