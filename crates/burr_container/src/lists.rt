//! Forms and places that stand one after the other in a container, read in place.

ghost use Rattle.std.specs.Prelude.{◌≡◌, ◌+◌, ◌*◌, ◌≤◌, ◌<◌, length, IsTrue};
ghost use Rattle.burr_container.specs.Rules.Spelling.{form_size as size_of_form};
ghost use Rattle.burr_container.specs.Views.Decoding.{live_count as count_of_live, places_stand};
ghost use Rattle.burr_container.specs.Rules.Plans.{live_slots as live_ones, exit_symbols as first_ones};

use burr_code::limits::SLOTS;

/// How many slots are live.
pub fn live_count(live: &[bool; SLOTS]) -> usize
    ensures count { result ≡ count_of_live live.now }
    ensures size { size_of_form live.now ≡ 4 + 2 * result }
    ensures few { result ≤ 8 }
{
    live.iter().filter(|is_live| **is_live).count()
}

/// How many bytes a form over these live slots takes.
pub fn form_size(live: &[bool; SLOTS]) -> usize
    ensures size { result ≡ size_of_form live.now }
    ensures few { result ≤ 20 }
{
    4 + 2 * live_count(live)
}

/// Forms over these live slots.
#[derive(Clone, Copy)]
pub struct FormList<'a> {
    pub live: [bool; SLOTS],
    pub count: usize,
    pub bytes: &'a [u8],
    ghost sized: { length bytes.now ≡ count * size_of_form live },
}

/// Places, given by forms over these live slots: the first `count` that stand in the bytes.
#[derive(Clone, Copy)]
pub struct PlaceList<'a> {
    pub live: [bool; SLOTS],
    pub count: usize,
    pub bytes: &'a [u8],
    ghost stand: { IsTrue (places_stand live count bytes.now) },
}

// Which slots are live.

/// The slots that have a range.
pub fn live_slots(slots: &[Option<(i16, i16)>; SLOTS]) -> [bool; SLOTS]
    ensures { result ≡ live_ones slots.now }
{
    let [a, b, c, d, e, f, g, h] = *slots;
    [
        a.is_some(),
        b.is_some(),
        c.is_some(),
        d.is_some(),
        e.is_some(),
        f.is_some(),
        g.is_some(),
        h.is_some(),
    ]
}

/// The symbols of an exit frame: the first ones, as many as the parameters and results together.
pub fn exit_symbols(parameters: u8, results: u8) -> [bool; SLOTS]
    requires parameters { parameters ≤ 4 }
    requires results { results ≤ 2 }
    ensures { result ≡ first_ones parameters results }
{
    match parameters + results {
        0 => [false; SLOTS],
        1 => [true, false, false, false, false, false, false, false],
        2 => [true, true, false, false, false, false, false, false],
        3 => [true, true, true, false, false, false, false, false],
        4 => [true, true, true, true, false, false, false, false],
        5 => [true, true, true, true, true, false, false, false],
        _ => [true, true, true, true, true, true, false, false],
    }
}
