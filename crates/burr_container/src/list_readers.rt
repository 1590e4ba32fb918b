//! Readers of forms and places.

ghost use Rattle.std.specs.Prelude.{◌≡◌, ◌+◌, ◌*◌, ◌≤◌, ◌<◌, length, drop, Some, slice_get, slice_index, map};
ghost use Rattle.burr_forms.specs.Rules.Forms.{IsSmall, IsSmallForm};
ghost use Rattle.burr_container.specs.Rules.Plans.{over_symbols, place_over_symbols};
ghost use Rattle.burr_container.specs.Rules.Spelling.{form_size as size_of_form};
ghost use Rattle.burr_container.specs.Views.Decoding.{signed_in, form_in, place_rest, place_in};
ghost use Rattle.burr_container.specs.Views.Refs.{forms_of, places_of, placement_view, IsSmallPlace};

use crate::lists::{FormList, PlaceList, form_size, live_count};
use burr_code::limits::SLOTS;
use burr_forms::Form;
use byteorder::{BigEndian, ByteOrder};

/// The form over these live slots at the front of some bytes.
fn form_of(live: &[bool; SLOTS], bytes: &[u8]) -> Form
    requires { size_of_form live.now ≤ length bytes.now }
    ensures form { result ≡ over_symbols live.now (form_in live.now bytes.now) }
    ensures small { IsSmallForm result }
{
    let mut coefs = [0; SLOTS];
    let count = live_count(live);
    for symbol in 0..count {
        coefs[symbol] = signed_at(bytes, 4 + 2 * symbol);
    }
    Form {
        constant: i64::from(BigEndian::read_i32(bytes)),
        coefs,
    }
}

/// The signed number of two bytes that stands there.
fn signed_at(bytes: &[u8], at: usize) -> i64
    requires { at + 2 ≤ length bytes.now }
    ensures number { result ≡ signed_in (drop at bytes.now) }
    ensures small { IsSmall result }
{
    i64::from(BigEndian::read_i16(&bytes[at..]))
}

impl FormList<'_> {
    /// Form n over symbols, one for each live slot.
    pub fn form(&self, n: usize) -> Form
        requires { n < self.now.count }
        ensures form { slice_get (map (over_symbols self.now.live) (forms_of self.now)) n
            ≡ Some result }
        ensures small { IsSmallForm result }
    {
        form_of(&self.live, after(self.bytes, n * form_size(&self.live)))
    }
}

impl PlaceList<'_> {
    /// Place p by forms over symbols: the tray and the offset; None where the piece is apart.
    pub fn place(&self, p: usize) -> Option<(u8, Form, Form, Form)>
        requires { p < self.now.count }
        ensures place { slice_get (map (place_over_symbols self.now.live) (places_of self.now)) p
            ≡ Some (placement_view result) }
        ensures small { IsSmallPlace result }
    {
        let mut rest = self.bytes;
        for _ in 0..p {
            rest = after_place(&self.live, rest);
        }
        place_of(&self.live, rest)
    }
}

/// The bytes after the place at the front of some bytes.
pub fn after_place<'a>(live: &[bool; SLOTS], bytes: &'a [u8]) -> &'a [u8]
    requires first { 0 < length bytes.now }
    requires whole { 1 + place_rest live.now (slice_index bytes.now 0) ≤ length bytes.now }
    ensures { result.now ≡ drop (1 + place_rest live.now (slice_index bytes.now 0)) bytes.now }
{
    if bytes[0] == 255 {
        &bytes[1..]
    } else {
        &bytes[1 + 3 * form_size(live)..]
    }
}

/// The place by forms over symbols at the front of some bytes.
fn place_of(live: &[bool; SLOTS], bytes: &[u8]) -> Option<(u8, Form, Form, Form)>
    requires first { 0 < length bytes.now }
    requires whole { 1 + place_rest live.now (slice_index bytes.now 0) ≤ length bytes.now }
    ensures place { placement_view result ≡ place_over_symbols live.now
        (place_in live.now (slice_index bytes.now 0) (drop 1 bytes.now)) }
    ensures small { IsSmallPlace result }
{
    if bytes[0] == 255 {
        return None;
    }
    let size = form_size(live);
    let x = form_of(live, after(bytes, 1));
    let y = form_of(live, after(bytes, 1 + size));
    let z = form_of(live, after(bytes, 1 + size + size));
    Some((bytes[0], x, y, z))
}

/// The bytes after the first `count`.
pub fn after(bytes: &[u8], count: usize) -> &[u8]
    requires { count ≤ length bytes.now }
    ensures { result.now ≡ drop count bytes.now }
{
    &bytes[count..]
}
