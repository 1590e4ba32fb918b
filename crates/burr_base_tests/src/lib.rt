//! Tests of the lower floors: streams, the grid, forms, the command line, and what reads and writes texts,
//! code and containers. A crate with tests is proved twice, so they stand here. Each function costs a proof, so
//! there are few of them: what a case takes and gives is text, the cases are tables, and what the other crates
//! say of an input is told by `answers` alone.
#![tactic(auto)]

#[cfg(test)]
mod answers;
#[cfg(test)]
mod asm;
#[cfg(test)]
mod assembly;
#[cfg(test)]
mod asserts;
#[cfg(test)]
mod code;
#[cfg(test)]
mod command;
#[cfg(test)]
mod container;
#[cfg(test)]
mod damage;
#[cfg(test)]
mod explain;
#[cfg(test)]
mod forms;
#[cfg(test)]
mod io;
#[cfg(test)]
mod memory;
#[cfg(test)]
mod messages;
#[cfg(test)]
mod tables;
#[cfg(test)]
mod text;
#[cfg(test)]
mod voxels;
