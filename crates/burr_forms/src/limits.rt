//! The limits of forms, of the boxes of their symbols, and of conditions on their points.

/// A number of a form is at most this, either way.
pub const MOST_FORM_NUMBER: i64 = 1 << 40;

/// A value of a symbol is at most this, either way.
pub const MOST_SYMBOL_VALUE: u16 = 32_767;

/// A box of the symbols of a state has at most this many points.
pub const MOST_POINTS: u32 = 4096;

/// A form has at most this many symbols, and so a box as many sides.
pub const MOST_SYMBOLS: usize = 8;

/// A box has at most this many guards of its own.
pub const MOST_BOX_GUARDS: usize = 8;

/// A condition asks for at most this many forms.
pub const MOST_FORMS: usize = 120;
