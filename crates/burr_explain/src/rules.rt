//! Refusals of the verifier, by subject.

pub mod code;
pub mod frames;
pub mod space;
