//! Tests of the program whole: words and streams in, status, output and complaints out. A crate
//! with tests is proved twice, so they stand here.
#![tactic(auto)]

#[cfg(test)]
mod tests;
