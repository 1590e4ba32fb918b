//! Tests of what judges plans and runs them. A crate with tests is proved twice, so they stand
//! here.
#![tactic(auto)]

#[cfg(test)]
mod arrivals;
#[cfg(test)]
mod bench;
#[cfg(test)]
mod calls;
#[cfg(test)]
mod cases;
#[cfg(test)]
mod damage;
#[cfg(test)]
mod drive;
#[cfg(test)]
mod looks;
#[cfg(test)]
mod plans;
#[cfg(test)]
mod puts;
#[cfg(test)]
mod sources;
#[cfg(test)]
mod stepper;
#[cfg(test)]
mod tables;
#[cfg(test)]
mod verdicts;
#[cfg(test)]
mod want;
#[cfg(test)]
mod ways;
