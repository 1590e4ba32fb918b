//! Linear forms over symbols, and the points of their boxes.
//!
//! # Promised
//! Numbers of forms lie within ±2^40 and values of symbols within ±32,767, which callers have to
//! show. Where they lie outside these bounds, nothing is promised of `eval`, `add`, `sub`,
//! `substitute` and `first_failing`, and no proved caller calls them with such.
//!
//! - `eval` is the value of a form: its constant plus each coefficient times its symbol's value.
//!   `value_at` asks for the same.
//! - `add`, `sub` and `substitute` give exactly the sum, the difference, and the form with forms in
//!   place of its symbols. They are refused by `FormTooLarge` exactly where a number of that would
//!   pass ±2^40, whatever lies between.
//! - `least_in` and `greatest_in` are the least and the greatest value of a form at a point of a
//!   box, guards not counted. They ask for at most 8 ranges.
//! - `Box8::new` takes exactly the lists of at most eight ranges, each with its low end not above
//!   its high end, and both within ±32,767. A symbol without a range has 0 alone. `Guards::new`
//!   takes exactly the lists of at most eight forms with numbers within ±2^40. Both keep what they
//!   were given, and answer None to other lists.
//! - `Guards::hold` asks for values within ±32,767.
//! - `Points` gives the points of a box under guards: each point once, rising, with the first
//!   symbol slowest, and no other. It leaves out the points at which a guard is negative. `next`
//!   gives a point, and None after the last. The definition's list is these points, and a box
//!   has as many points as the product of the sizes of its ranges (`the_points_are_given`).
//! - The limits of forms and points are these numbers (`the_limits_are_these`).
//! - `first_failing` gives the first of the points at which a condition on values of forms fails,
//!   or None where it holds at each. It asks for at most eight ranges and for at most 120 guards
//!   and 120 forms.
//! - `first_refused` does so with a condition that counts how often it looks at something, point by
//!   point, and leaves exactly that count. It asks for the same, that what the condition needs
//!   holds at each point of the box under the guards, and that its count and the most that it may
//!   count at each point of the box come to at most 2^61.
#![tactic(auto)]

mod condition;
mod form;
mod laws;
pub mod limits;
mod points;
mod searching;

pub use condition::{Asking, Condition, NotNegative, first_failing};
pub use form::{Form, FormTooLarge};
pub use laws::{the_limits_are_these, the_points_are_given};
pub use points::{Box8, FormValues, Guards, Point, Points};
pub use searching::first_refused;
