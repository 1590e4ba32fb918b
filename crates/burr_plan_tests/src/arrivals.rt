//! States of frames, and whether they come to what other frames say.

use crate::calls::container_of;
use crate::puts::plan_of;
use crate::tables::Table;
use burr_container::{Container, ExitRef, FrameRef};
use burr_frames::{Miss, State, arrives, meets_entry, meets_exit};
use std::alloc::Global;
use std::process::Abort;

/// What is said where a state of a plan after edits comes to a frame of that after other edits, and
/// in which way: `arrives`, or that it misses, with the first point at which it does.
pub fn said_of_state(rt: &impl Abort, alloc: Global, table: &Table, given: &str) -> String {
    let (way, edits) = given.split_once(": ").expect(rt, "a way");
    let (from, to) = edits.split_once("; ").expect(rt, "edits");
    let (from, to) = (
        plan_of(rt, alloc, table, from),
        plan_of(rt, alloc, table, to),
    );
    match comes(rt, way, &container_of(rt, &from), &container_of(rt, &to)) {
        Ok(()) => String::from_str(alloc, "arrives"),
        Err(Miss { point: None }) => String::from_str(alloc, "misses"),
        Err(Miss { point: Some(point) }) => {
            format!(in alloc; "misses at {:?}", point.as_slice())
        }
    }
    .expect(rt, "memory")
}

/// Whether a state of a plan comes to a frame of another one: the state of a label's frame to a
/// label, after `store` to a label, and to a procedure's first label, which is entered; or the state
/// where a procedure gives its counter back, to its exit frame.
fn comes(rt: &impl Abort, way: &str, from: &Container<'_>, to: &Container<'_>) -> Result<(), Miss> {
    match way {
        "label" => arrives(
            &State::of(&frame_of(rt, from, 0, 1)),
            &frame_of(rt, to, 0, 1),
        ),
        "store" => arrives(&stored(rt, from), &frame_of(rt, to, 0, 1)),
        "entry" => meets_entry(
            &State::of(&frame_of(rt, from, 1, 0)),
            &frame_of(rt, to, 1, 0),
        ),
        _ => meets_exit(&counted(rt, from), &exit_of(rt, to)),
    }
}

/// The frame at a label.
fn frame_of<'a>(
    rt: &impl Abort,
    container: &Container<'a>,
    procedure: usize,
    label: usize,
) -> FrameRef<'a> {
    assert!(rt; procedure < container.proc_count());
    assert!(rt; label < container.label_count(procedure));
    container.frame(procedure, label)
}

/// The exit frame of the procedure after main.
fn exit_of<'a>(rt: &impl Abort, container: &Container<'a>) -> ExitRef<'a> {
    assert!(rt; container.proc_count() > 1);
    container.exit(1).expect(rt, "an exit frame")
}

/// The state of the frame of main's label 1 after `store 0`.
fn stored(rt: &impl Abort, container: &Container<'_>) -> State {
    let mut state = State::of(&frame_of(rt, container, 0, 1));
    assert!(rt; container.proc_count() > 0);
    assert!(rt; state.store(container.procedure(0), 0).is_ok());
    state
}

/// The state of the frame of the next procedure's label 1, after `down 1` to its label 2 has gone on,
/// and `load 0`.
fn counted(rt: &impl Abort, container: &Container<'_>) -> State {
    let mut state = State::of(&frame_of(rt, container, 1, 1));
    assert!(rt; container.proc_count() > 1);
    assert!(rt; state.down(container.procedure(1), 1, 2).is_ok());
    assert!(rt; state.load(0).is_ok());
    state
}

// States of frames, and whether they come to what other frames say.

/// Each case begins with the way in which a state comes, with the edits of the plan that it is of,
/// and after `; ` those of the plan to whose frame it comes.
pub const STATES: &str = "\
ring | ring
# Of the loop that moves the rod up.
label: none; none | arrives
# a cost of `4+1v0`, here or there
label: none; 00000004 0002 > 00000004 0001 | arrives
label: 00000004 0002 > 00000004 0001; none | misses at [1]
# the range, a guard `-1+1v0` and the rod at z `2-2v0`
label: none; 0000 0002 00 00 > 0000 0001 00 00 | misses at [2]
label: none; 0000 0002 00 00 > 0000 0002 01 ffffffff 0001 00 | misses at [0]
label: none; 00000002 ffff > 00000002 fffe | misses at [1]
# another tray, another grip, another slot, an operand
label: none; 000a 00 00000001 > 000a 01 00000001 | misses
label: none; 000a 00 00000001 > 000a 00 00000002 | misses
label: none; 00000001 01 0000 > 00000001 02 0000 | misses
label: none; 0000 0002 00 00 > 0000 0002 00 01 00000000 0000 | misses
# the guard -1 leaves no point, at which a cost, a place or a range could be wrong
label: 0000 0002 00 00 > 0000 0002 01 ffffffff 0000 00; 00000004 0002 > 00000009 0002 | arrives
label: 0000 0002 00 00 > 0000 0002 01 ffffffff 0000 00; 00000002 ffff > 00000009 ffff | arrives
label: 0000 0002 00 00 > 0000 0002 01 ffffffff 0000 00; 0000 0002 00 00 > 0005 0006 00 00 | arrives
label: 0000 0002 00 00 > 0000 0002 01 ffffffff 0000 00; \
000a 00 00000001 > 000a 00 00000002 | misses
# the counter `-1+1v0` with that guard, the cost `2+1v0` and the rod at z `3-1v0`, as after a turn
store: 0000 0002 00 00 00000004 0002 > 0000 0002 01 ffffffff 0001 01 ffffffff 0001 00000003 0001, \
00000002 ffff > 00000003 ffff; 00000004 0002 > 00000004 0001 | misses at [1]
store: 0000 0002 00 00 00000004 0002 > 0000 0002 01 ffffffff 0001 01 ffffffff 0001 00000003 0001, \
00000002 ffff > 00000003 ffff; 00000004 0002 > 00000003 0001 | arrives
# At 4,096 points: with the guard `-1+1v0` at both, here or there
label: 0000 0002 00 00 > 0000 0fff 01 ffffffff 0001 00; \
0000 0002 00 00 > 0000 0fff 01 ffffffff 0001 00 | arrives
label: 0000 0002 00 00 > 0000 0fff 01 ffffffff 0001 00; 0000 0002 00 00 > 0000 0fff 00 00 | arrives
label: 0000 0002 00 00 > 0000 0fff 00 00; \
0000 0002 00 00 > 0000 0fff 01 ffffffff 0001 00 | misses at [0]
# the ranges 1 to 4,095 and 0 to 4,094; a cost of `4+3v0`; the rod at z `2-2v0`
label: 0000 0002 00 00 > 0000 0fff 01 ffffffff 0001 00; 0000 0002 00 00 > 0001 0fff 00 00 | arrives
label: 0000 0002 00 00 > 0000 0fff 00 00; 0000 0002 00 00 > 0000 0ffe 00 00 | misses at [4095]
label: 0000 0002 00 00 > 0000 0fff 00 00; \
0000 0002 00 00 > 0000 0fff 00 00, 00000004 0002 > 00000004 0003 | misses at [1]
label: 0000 0002 00 00 > 0000 0fff 00 00; \
0000 0002 00 00 > 0000 0fff 00 00, 00000002 ffff > 00000002 fffe | misses at [1]
# the counter `-1+1v0` with that guard, the cost `2+1v0` and the rod at z `3-1v0`; without the guard
store: 0000 0002 00 00 00000004 0002 > 0000 0fff 01 ffffffff 0001 01 ffffffff 0001 00000003 0001, \
00000002 ffff > 00000003 ffff; 0000 0002 00 00 00000004 0002 > 0000 0fff 00 00 00000003 0001 | arrives
store: 0000 0002 00 00 00000004 0002 > 0000 0fff 00 01 ffffffff 0001 00000003 0001, \
00000002 ffff > 00000003 ffff; 0000 0002 00 00 00000004 0002 > 0000 0fff 00 00 00000003 0001 | misses at [0]

cup | lift
# Of the procedure that lifts the dot, where it is entered.
entry: none; none | arrives
# no cost is asked
entry: 00000002 0000 > 00000000 0000; none | arrives
# a number more, the dot at z `0+2v0`
entry: 0000 0003 00 00 > 0000 0004 00 00; none | misses at [4]
entry: 00000000 0001 00 00000000 > 00000000 0002 00 00000000; none | misses at [1]
# another grip, another slot
entry: 0000 00 00000001 01 > 0000 00 00000002 01; none | misses
entry: none; 00000001 01 0000 0003 > 00000001 02 0000 0003 | misses

cup | result
# Of the procedure that lifts the dot and gives back how far.
exit: none; none | arrives
# the range of the result, a guard `1-1v0`, the dot at z `0`
exit: none; 00 01 00 00000001 0000 0002 > 00 01 00 00000001 0000 0001 | misses at [2, 0]
exit: none; 0000 0002 00 00 > 0000 0002 01 00000001 ffff 00 | misses at [2, 0]
exit: none; 0000 0002 00 00 > 0000 0002 01 00000002 ffff 00 | arrives
exit: none; 00000000 0000 00000000 0001 > 00000000 0000 00000000 0000 | misses at [1, 0]
# another grip
exit: none; 00 01 00 00000001 0000 0002 > 00 01 00 00000002 0000 0002 | misses";
