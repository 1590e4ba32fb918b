ghost use Rattle.std.specs.Prelude.{◌↔◌, Contains, IsTrue, MatchOption};
ghost use Rattle.burr_text.specs.Words.{IsWord, IsCutAt};
ghost use Rattle.burr_text.specs.Numbers.{IsCount, IsNumber, IsInteger};

/// What stands before the first of a byte, and what after it; None where it is not there.
pub fn cut_at(bytes: &[u8], separator: u8) -> Option<(&[u8], &[u8])>
    ensures { MatchOption result (¬ Contains bytes.now separator) (λ parts.
        IsCutAt separator bytes.now parts.0.now parts.1.now) }
{
    let at = bytes.iter().position(|byte| *byte == separator)?;
    Some((&bytes[..at], &bytes[at + 1..]))
}

/// Whether the bytes are a word: one or more printable bytes, 33 to 126.
pub fn is_word(bytes: &[u8]) -> bool
    ensures { IsTrue result ↔ IsWord bytes.now }
{
    !bytes.is_empty() && bytes.iter().all(|byte| 33 <= *byte && *byte <= 126)
}

/// The number of 32 bits that is written so, if one is: `-0`, `01` and `+1` are none.
pub fn integer(text: &[u8]) -> Option<i32>
    ensures { IsInteger text.now result }
{
    if !is_number(text) {
        return None;
    }
    str::from_utf8(text).ok()?.parse().ok()
}

/// Whether the bytes are a number: `0`, or digits whose first isn't `0`, perhaps after a `-`. A
/// number may be of any length.
pub fn is_number(bytes: &[u8]) -> bool
    ensures { IsTrue result ↔ IsNumber bytes.now }
{
    match bytes {
        b"0" => true,
        [b'-', rest @ ..] => is_count(rest),
        _ => is_count(bytes),
    }
}

/// Whether the bytes are digits whose first isn't `0`.
fn is_count(bytes: &[u8]) -> bool
    ensures { IsTrue result ↔ IsCount bytes.now }
{
    let starts_right = bytes.first().is_some_and(|byte| 49 <= *byte);
    starts_right && bytes.iter().all(|byte| 48 <= *byte && *byte <= 57)
}
