//! Texts and containers that are damaged at each of their places in turn.

use crate::answers::answer_to;
use crate::asm::{ANSWERED_LIFT, CUP as CUP_TEXT, DUO as DUO_TEXT, LIFT, RING as RING_TEXT};
use crate::tables::{input_of, number_of, text_of};
use burr_testing::plans::{CUP, DUO, DUO_PLAN, RESULT_PLAN, RING, RING_PLAN};
use std::alloc::{AllocError, Global};
use std::process::Abort;

/// What the answer to a damaged input has to be.
#[derive(Clone, Copy)]
enum Want {
    /// What a front of a text lacks: A7 after each of these lines, and A1 anywhere else.
    Front([usize; 3]),
    /// What a front of a container lacks: C1 at its end.
    Bytes,
    /// What a front of a plan's text lacks after each number of whole lines: `right` where it lacks
    /// nothing, and a listing is then listed as it stands, or the fault and its line. Within a line
    /// it is P1, but P5 where that is the fault before the line too and the line's first word is not
    /// whole.
    Lines(&'static str),
    /// `right`, or a fault of the container's field of the place or of a later one.
    Field,
    /// `right`, or a fault of the line of the place or of a later one.
    After,
    /// `right`, or a fault of any line.
    Anywhere,
    /// `right` with one of these bytes, this fault with another byte of a word, and A1 with any
    /// other byte.
    Byte(&'static str, &'static str),
}

use Want::{After, Anywhere, Byte, Bytes, Field, Front, Lines};

/// The kind of an answer and what the input is made of; how many bytes are taken out from each
/// place on; bytes that are put in there, one at a time, or none; and what is wanted then.
type Damage<'a> = (&'static str, &'static str, usize, &'a [u8], Want);

/// All that stands after a place.
const REST: usize = usize::MAX;

/// Bytes that no line may have.
const OF_NO_LINE: &[u8] = b" \t\r\0\x7f\x80\xa0\xff";

/// Bytes that have a meaning in plans.
const OF_PLANS: &[u8] = b"\n ;01-,v";

/// The answers to the fronts of the plan of two cubes, the first to that of no line.
const DUO_FRONTS: &str = "P1 1,P1 2,P5 3,P5 4,P1 5,P1 6,P1 7,P4 3,right,right";

/// The same of the counted loop, whose second label is at line 11.
const RING_FRONTS: &str = "\
P1 1,P1 2,P5 3,P5 4,P1 5,P1 6,P1 7,P4 3,right,right,right,\
P5 12,P1 13,P1 14,P1 15,P1 16,P4 11,right,right,right";

/// The same of the question: line 21 names the label of line 24.
const CUP_FRONTS: &str = "\
P1 1,P1 2,P5 3,P5 4,P1 5,P1 6,P1 7,P4 3,right,right,right,right,right,\
P5 14,P1 15,P1 16,P1 17,P1 18,P1 19,P1 20,P4 13,P2 21,P2 21,P2 21,\
P5 25,P1 26,P1 27,P1 28,P1 29,P1 30,P1 31,P4 24,right";

/// All bytes but an LF.
fn of_lines() -> [u8; 255] {
    let mut bytes = [0; 255];
    let mut next = 0u8;
    for byte in &mut bytes {
        *byte = next;
        next = match next {
            0x09 => 0x0b,
            _ => next.wrapping_add(1),
        };
    }
    bytes
}

/// Asserts what is wanted at each place: where a byte is taken out, and where any one is put in its
/// place.
fn assert_bytes(
    rt: &impl Abort,
    alloc: Global,
    kind: &'static str,
    base: &'static str,
    want: Want,
) {
    let others = of_lines();
    assert_damage(rt, alloc, (kind, base, 1, b"", want));
    assert_damage(rt, alloc, (kind, base, 1, b"\n", want));
    assert_damage(rt, alloc, (kind, base, 1, &others, want));
}

#[test]
fn judges_fronts_of_assemblies(rt: HostRuntime) {
    let alloc = rt.alloc();
    assert_damage(&rt, alloc, ("assembly", DUO, REST, b"", Front([5, 6, 6])));
    assert_damage(
        &rt,
        alloc,
        ("assembly", RING, REST, b"", Front([9, 15, 16])),
    );
    assert_damage(&rt, alloc, ("assembly", CUP, REST, b"", Front([5, 15, 16])));
}

#[test]
fn judges_fronts_of_containers(rt: HostRuntime) {
    let alloc = rt.alloc();
    assert_damage(&rt, alloc, ("container", DUO_PLAN, REST, b"", Bytes));
    assert_damage(&rt, alloc, ("container", RING_PLAN, REST, b"", Bytes));
    assert_damage(&rt, alloc, ("container", RESULT_PLAN, REST, b"", Bytes));
}

/// The texts as they stand, and what their plans are listed as.
#[test]
fn judges_fronts_of_plans(rt: HostRuntime) {
    assert_fronts(&rt, rt.alloc(), DUO_TEXT, DUO_FRONTS);
    assert_fronts(&rt, rt.alloc(), RING_TEXT, RING_FRONTS);
    assert_fronts(&rt, rt.alloc(), CUP_TEXT, CUP_FRONTS);
}

/// Asserts the answers to the fronts of a plan's text, and to those of its listing.
fn assert_fronts(rt: &impl Abort, alloc: Global, text: &'static str, answers: &'static str) {
    assert_damage(rt, alloc, ("asm", text, REST, b"", Lines(answers)));
    assert_damage(rt, alloc, ("listing", text, REST, b"", Lines(answers)));
}

#[test]
fn judges_bytes_that_no_line_may_have(rt: HostRuntime) {
    let alloc = rt.alloc();
    assert_damage(&rt, alloc, ("assembly", DUO, 0, OF_NO_LINE, Byte("", "")));
    assert_damage(&rt, alloc, ("assembly", RING, 0, OF_NO_LINE, Byte("", "")));
    assert_damage(&rt, alloc, ("assembly", CUP, 0, OF_NO_LINE, Byte("", "")));
}

#[test]
fn judges_bytes_of_plans(rt: HostRuntime) {
    let alloc = rt.alloc();
    assert_damage(&rt, alloc, ("asm", RING_TEXT, 1, OF_PLANS, Anywhere));
    assert_damage(&rt, alloc, ("asm", LIFT, 1, OF_PLANS, Anywhere));
    assert_damage(&rt, alloc, ("asm", ANSWERED_LIFT, 1, OF_PLANS, Anywhere));
}

#[test]
fn reads_no_second_text_of_two_cubes(rt: HostRuntime) {
    assert_bytes(&rt, rt.alloc(), "assembly", DUO, After);
}

#[test]
fn reads_no_second_text_of_a_rod_in_a_ring(rt: HostRuntime) {
    assert_bytes(&rt, rt.alloc(), "assembly", RING, After);
}

#[test]
fn writes_each_container_again(rt: HostRuntime) {
    assert_bytes(&rt, rt.alloc(), "written", DUO_PLAN, Field);
}

/// Asserts what is wanted at each place. What is put in can stand at the end too.
fn assert_damage(rt: &impl Abort, alloc: Global, damage: Damage<'_>) {
    let (kind, base, taken, _put, _want) = damage;
    let input = damaged_of(alloc, kind, base).expect(rt, "memory");
    let end = if taken == 0 { 1 } else { 0 };
    for place in 0..input.len().saturating_add(end) {
        assert_place(rt, alloc, damage, &input, place);
    }
}

/// What is damaged: an input, or what is listed of it.
fn damaged_of(alloc: Global, kind: &str, base: &str) -> Result<Vec<u8>, AllocError> {
    let input = input_of(alloc, kind, base, "")?;
    if kind != "listing" {
        return Ok(input);
    }
    let listing = answer_to(alloc, kind, &input)?;
    Vec::from_slice(alloc, listing.as_bytes())
}

/// Asserts what is wanted at a place.
fn assert_place(rt: &impl Abort, alloc: Global, damage: Damage<'_>, input: &[u8], place: usize) {
    let (kind, _base, taken, put, want) = damage;
    let (front, rest) = input.split_at_checked(place).unwrap_or((input, b""));
    let rest = rest.get(taken..).unwrap_or(b"");
    for number in 0..put.len().max(1) {
        let byte = put.get(number..number.saturating_add(1)).unwrap_or(b"");
        assert_put(rt, alloc, (kind, want), [front, byte, rest]).expect(rt, "memory");
    }
}

/// Asserts that what is wanted is the answer of a kind where this stands between a front and a rest.
fn assert_put(
    rt: &impl Abort,
    alloc: Global,
    (kind, want): (&str, Want),
    [front, put, rest]: [&[u8]; 3],
) -> Result<(), AllocError> {
    let damaged = joined(alloc, front, put, rest)?;
    let found = answer_to(alloc, kind, &damaged)?;
    let holds = is_wanted(want, put, &damaged, front.len(), &found);
    assert!(rt; holds, "{kind} at {}: {found}", front.len());
    Ok(())
}

/// Three parts, joined.
fn joined(alloc: Global, front: &[u8], put: &[u8], rest: &[u8]) -> Result<Vec<u8>, AllocError> {
    let mut bytes = Vec::from_slice(alloc, front)?;
    bytes.extend_from_slice(put)?;
    bytes.extend_from_slice(rest)?;
    Ok(bytes)
}

/// Whether an answer is wanted where this is put in at a place, and that makes this input.
fn is_wanted(want: Want, byte: &[u8], damaged: &[u8], place: usize, found: &str) -> bool {
    let front = damaged.get(..place).unwrap_or(b"");
    let ends = line_ends(front);
    let line = ends.wrapping_add(1);
    match want {
        Front(lines) if front.ends_with(b"\n") && lines.contains(&ends) => {
            is_fault(found, "A7 ", line)
        }
        Front(_lines) => is_fault(found, "A1 ", line),
        Bytes => is_fault(found, "C1 ", place),
        Lines(answers) => is_of_lines(answers, front, ends, found),
        Field => is_of_field(found, place, damaged.len()),
        After => is_sound(found, line, line_ends(damaged)),
        Anywhere => is_sound(found, 1, line_ends(damaged)),
        Byte(right, other) => match byte.first() {
            Some(byte) if right.as_bytes().contains(byte) => found == "right",
            Some(byte) if byte.is_ascii_graphic() => found == other,
            _ => is_fault(found, "A1 ", line),
        },
    }
}

/// Whether this is the answer to a front of a plan's text, in which `ends` lines end.
fn is_of_lines(answers: &str, front: &[u8], ends: usize, found: &str) -> bool {
    let answer = answers.split(',').nth(ends).unwrap_or("");
    let text = str::from_utf8(front).unwrap_or("");
    let begun = match text.rsplit_once('\n') {
        Some((_whole, begun)) => begun,
        None => text,
    };
    if begun.is_empty() {
        return is_of_front(answer, text, found);
    }
    is_fault(found, fault_within(answer, begun), ends.wrapping_add(1))
}

/// The fault of a front that ends within a line that has begun so, before which this is the answer.
fn fault_within(answer: &str, begun: &str) -> &'static str {
    let is_word = begun.starts_with("label") || begun.starts_with("frame");
    if answer.starts_with("P5") && !is_word {
        "P5 "
    } else {
        "P1 "
    }
}

/// Whether this is the answer to a front of whole lines.
fn is_of_front(answer: &str, text: &str, found: &str) -> bool {
    match answer.split_once(' ') {
        Some((name, line)) => found.starts_with(name) && place_of(found) == number_of(line),
        None => answer == "right" && (found == "right" || found == text),
    }
}

/// Whether a container of `size` bytes is right, or has a fault of the field that holds the byte at
/// `place` or of a later one. The fields of the plans here that may be faulty have at most four
/// bytes.
fn is_of_field(found: &str, place: usize, size: usize) -> bool {
    match place_of(found) {
        Some(at) => place < at.wrapping_add(4) && at <= size,
        None => found == "right",
    }
}

/// How many lines end in a text.
fn line_ends(text: &[u8]) -> usize {
    let mut ends = 0usize;
    for byte in text {
        if *byte == b'\n' {
            ends = ends.wrapping_add(1);
        }
    }
    ends
}

/// Whether this is a fault of a name, with a number.
fn is_fault(found: &str, name: &str, number: usize) -> bool {
    found.starts_with(name) && place_of(found) == Some(number)
}

/// Whether a text of `ends` lines was right, or has a fault of line `first` or a later one.
fn is_sound(found: &str, first: usize, ends: usize) -> bool {
    match place_of(found) {
        Some(line) => first <= line && line <= ends.wrapping_add(1),
        None => found == "right",
    }
}

/// The line, or the position, that a fault names.
fn place_of(fault: &str) -> Option<usize> {
    let (_name, rest) = fault.split_once(": ")?;
    let (number, _rest) = rest.split_once(' ')?;
    number_of(number.trim_end_matches(','))
}

/// Asserts each row of a table: a number of a line of the duo, what stands in its place before a
/// byte and after it, the bytes that are right there, and the fault of any other byte of a word.
#[test]
fn judges_each_byte(rt: HostRuntime) {
    for row in PLACES.lines() {
        assert_row(&rt, rt.alloc(), row);
    }
}

fn assert_row(rt: &impl Abort, alloc: Global, row: &'static str) {
    let (rest, other) = row.rsplit_once('|').expect(rt, "a row has a fault");
    let (line, right) = rest.rsplit_once('|').expect(rt, "a row has bytes");
    let text = text_with_place(alloc, line).expect(rt, "memory");
    let place = text.find('\x01').unwrap_or(0);
    let bytes = of_lines();
    let damage = ("assembly", DUO, 1, bytes.as_slice(), Byte(right, other));
    assert_place(rt, alloc, damage, text.as_bytes(), place);
}

/// The text of the duo with an edit in which a bar stands for the byte: one that no text has takes its
/// place.
fn text_with_place(alloc: Global, line: &str) -> Result<String, AllocError> {
    let edit = line.replace(alloc, '|', "\x01")?;
    text_of(alloc, DUO, &edit)
}

/// What the test of each byte goes over.
const PLACES: &str = "\
1 |ssembly duo|a|A1 { line: 1 }
1 assembl| duo|y|A1 { line: 1 }
1 assembly|duo| |A1 { line: 1 }
2 |hape cube|s|A1 { line: 2 }
2 shap| cube|e|A1 { line: 2 }
2 shape|cube| |A1 { line: 2 }
3 |layer||A1 { line: 3 }
3 |ayer|l|A1 { line: 3 }
3 laye||r|A1 { line: 3 }
3 layer|||A1 { line: 3 }
4 #/||#.|A1 { line: 5 }
4 #./|.|#.|A1 { line: 5 }
4 #./.||#.|A1 { line: 5 }
5 |end||A1 { line: 5 }
5 |nd|e|A1 { line: 5 }
5 en||d|A1 { line: 5 }
5 end|||A1 { line: 5 }
7 |iece B cube +x+y+z 1 0 0|p|A1 { line: 7 }
7 piec| B cube +x+y+z 1 0 0|e|A1 { line: 7 }
7 piece|B cube +x+y+z 1 0 0| |A1 { line: 7 }
7 piece x|x cube +x+y+z 1 0 0|ABCDEFGHIJKLMNOPQRSTUVWXYZabcdefghijklmnopqrstuvwxyz0123456789_-|\
A2 { line: 7 }
7 piece B|cube +x+y+z 1 0 0| |A1 { line: 7 }
7 piece B |ube +x+y+z 1 0 0|c|A6 { line: 7 }
7 piece B cub| +x+y+z 1 0 0|e|A6 { line: 7 }
7 piece B cube|+x+y+z 1 0 0| |A1 { line: 7 }
7 piece B cube |x+y+z 1 0 0|+|A4 { line: 7 }
7 piece B cube +x+|+z 1 0 0|y|A4 { line: 7 }
7 piece B cube +x+y+| 1 0 0|z|A4 { line: 7 }
7 piece B cube +x+y+z|1 0 0| |A1 { line: 7 }
7 piece B cube +x+y+z 1| 5 5|0123456789|A1 { line: 7 }
7 piece B cube +x+y+z 1|0 0| |A1 { line: 7 }
7 piece B cube +x+y+z 1 0|0| |A1 { line: 7 }
";
