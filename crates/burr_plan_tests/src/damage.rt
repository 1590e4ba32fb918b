//! Containers that are damaged at each of their places in turn.

use crate::calls::{assembly_of, rows_of};
use crate::plans::CUP_PLAN;
use crate::puts::put_run;
use crate::tables::bytes_of;
use burr_blocking::RowTables;
use burr_container::{Container, ContainerFault};
use burr_testing::plans::{DUO, DUO_PLAN};
use std::alloc::Global;
use std::process::Abort;

/// Whether bytes are cut short, so that they have this fault.
fn is_cut_short(bytes: &[u8]) -> bool {
    match Container::parse(bytes) {
        Ok(_container) => false,
        Err(fault) => fault == ContainerFault::C1 { at: bytes.len() },
    }
}

#[test]
fn tells_where_a_container_is_cut_short(rt: HostRuntime) {
    let bytes = bytes_of(&rt, rt.alloc(), CUP_PLAN);
    assert!(rt; bytes.len() == 258);
    for size in 0..bytes.len() {
        let front = bytes.get(..size).expect(&rt, "a front");
        assert!(rt; is_cut_short(front));
    }
}

/// Bytes with another one at a place.
fn with_byte(rt: &impl Abort, alloc: Global, bytes: &[u8], place: usize, byte: u8) -> Vec<u8> {
    let mut changed = Vec::from_slice(alloc, bytes).expect(rt, "memory");
    if let Some(kept) = changed.get_mut(place) {
        *kept = byte;
    }
    changed
}

/// How the run of bytes without answers ends, where they are a container, and are accepted.
fn end_of(alloc: Global, bytes: &[u8], rows: &RowTables<'_>) -> &'static str {
    match Container::parse(bytes) {
        Ok(container) => put_run(&container, rows, &[], &mut Vec::new(alloc)),
        Err(_fault) => "refused",
    }
}

/// Each byte of a plan in turn is each of all bytes, its own among them.
#[test]
fn runs_what_is_accepted_to_an_end(rt: HostRuntime) {
    let alloc = rt.alloc();
    let assembly = assembly_of(&rt, alloc, DUO);
    let rows = rows_of(&rt, alloc, &assembly);
    let bytes = bytes_of(&rt, alloc, DUO_PLAN);
    assert!(rt; bytes.len() == 70);
    for number in 0..70 * 256usize {
        let (place, byte) = (number / 256, (number % 256) as u8);
        let changed = with_byte(&rt, alloc, &bytes, place, byte);
        let is_right = match end_of(alloc, &changed, &rows) {
            "Apart" => true,
            "Waiting" | "refused" => changed != bytes,
            _ => false,
        };
        assert!(rt; is_right, "{number}");
    }
}
