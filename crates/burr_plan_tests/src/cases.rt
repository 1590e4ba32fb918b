//! The tests that go over tables of cases.

mod codes;
mod edits;
mod runs;

use crate::arrivals::STATES;
use crate::cases::codes::{APART, CODES, FULL, LEVELS, MORE};
use crate::cases::edits::EDITS;
use crate::cases::runs::{
    ANSWERS, BOTH, CHECKS, FITS, LIFT_CHECKS, LIFT_RUNS, MOTIONS, REFUSED, RUNS, SIZES, TRIED,
    UPGRADES,
};
use crate::looks::LOOKS;
use crate::tables::{How, Kind, assert_tables};

#[test]
fn reads_answers(rt: HostRuntime) {
    assert_tables(&rt, rt.alloc(), How::Plainly, Kind::Answers, ANSWERS);
}

#[test]
fn gives_the_motions_of_their_lines_alone(rt: HostRuntime) {
    assert_tables(&rt, rt.alloc(), How::Plainly, Kind::Motions, MOTIONS);
}

#[test]
fn upgrades_plans(rt: HostRuntime) {
    assert_tables(&rt, rt.alloc(), How::Plainly, Kind::Upgrade, UPGRADES);
}

#[test]
fn upgraded_plans_have_these_sizes(rt: HostRuntime) {
    assert_tables(&rt, rt.alloc(), How::Plainly, Kind::Sizes, SIZES);
}

#[test]
fn upgraded_plans_are_refused_alike(rt: HostRuntime) {
    assert_tables(&rt, rt.alloc(), How::Plainly, Kind::Check, REFUSED);
    assert_tables(&rt, rt.alloc(), How::Upgraded, Kind::Check, REFUSED);
}

#[test]
fn machine_and_bench_go_alike(rt: HostRuntime) {
    assert_tables(&rt, rt.alloc(), How::Plainly, Kind::Both, BOTH);
}

#[test]
fn runs_bare_code(rt: HostRuntime) {
    assert_tables(&rt, rt.alloc(), How::Plainly, Kind::Bare, APART);
    assert_tables(&rt, rt.alloc(), How::Plainly, Kind::Bare, LEVELS);
    assert_tables(&rt, rt.alloc(), How::Plainly, Kind::Bare, FULL);
    assert_tables(&rt, rt.alloc(), How::Plainly, Kind::Bare, MORE);
}

#[test]
fn judges_plans(rt: HostRuntime) {
    assert_tables(&rt, rt.alloc(), How::Plainly, Kind::Fit, FITS);
    assert_tables(&rt, rt.alloc(), How::Plainly, Kind::Verdict, CODES);
    assert_tables(&rt, rt.alloc(), How::Plainly, Kind::Verdict, EDITS);
}

#[test]
fn tables_are_asked_once_for_each_look(rt: HostRuntime) {
    assert_tables(&rt, rt.alloc(), How::Plainly, Kind::Looks, LOOKS);
}

#[test]
fn states_arrive_and_miss(rt: HostRuntime) {
    assert_tables(&rt, rt.alloc(), How::Plainly, Kind::State, STATES);
}

#[test]
fn checks_and_runs_plans(rt: HostRuntime) {
    assert_tables(&rt, rt.alloc(), How::Plainly, Kind::Check, LIFT_CHECKS);
    assert_tables(&rt, rt.alloc(), How::Plainly, Kind::Check, CHECKS);
    assert_tables(&rt, rt.alloc(), How::Plainly, Kind::Run, LIFT_RUNS);
    assert_tables(&rt, rt.alloc(), How::Plainly, Kind::Run, RUNS);
}

#[test]
fn tries_plans(rt: HostRuntime) {
    assert_tables(&rt, rt.alloc(), How::Tried, Kind::Check, TRIED);
    assert_tables(&rt, rt.alloc(), How::Tried, Kind::Run, LIFT_RUNS);
    assert_tables(&rt, rt.alloc(), How::Tried, Kind::Run, RUNS);
}

#[test]
fn judges_and_runs_without_memory(rt: HostRuntime) {
    for how in &[How::FartherDown, How::Poorly] {
        assert_tables(&rt, rt.alloc(), *how, Kind::Check, LIFT_CHECKS);
        assert_tables(&rt, rt.alloc(), *how, Kind::Check, CHECKS);
        assert_tables(&rt, rt.alloc(), *how, Kind::Run, LIFT_RUNS);
        assert_tables(&rt, rt.alloc(), *how, Kind::Run, RUNS);
    }
}

#[test]
fn puts_fronts_to_sinks_that_fail(rt: HostRuntime) {
    assert_tables(&rt, rt.alloc(), How::InFronts, Kind::Bare, APART);
    assert_tables(&rt, rt.alloc(), How::InFronts, Kind::Bare, LEVELS);
    assert_tables(&rt, rt.alloc(), How::InFronts, Kind::Check, LIFT_CHECKS);
    assert_tables(&rt, rt.alloc(), How::InFronts, Kind::Run, LIFT_RUNS);
}

#[test]
fn reads_from_sources_that_fail(rt: HostRuntime) {
    assert_tables(&rt, rt.alloc(), How::InPortions, Kind::Bare, APART);
    assert_tables(&rt, rt.alloc(), How::InPortions, Kind::Bare, LEVELS);
}

#[test]
fn tells_a_want_of_memory(rt: HostRuntime) {
    assert_tables(&rt, rt.alloc(), How::Wanting, Kind::Bare, APART);
    assert_tables(&rt, rt.alloc(), How::Wanting, Kind::Bare, FULL);
}
