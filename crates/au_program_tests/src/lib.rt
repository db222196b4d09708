//! Tests of calls that no program shows yet, and of the adapters over real files, in a crate of their own:
//! a crate with tests is proved twice.
#![tactic(auto)]

#[cfg(test)]
mod adapters;
#[cfg(test)]
mod calls;
#[cfg(test)]
mod interfaces;
#[cfg(test)]
mod jobs;
#[cfg(test)]
mod programs;
#[cfg(test)]
mod resolved;
#[cfg(test)]
mod shipped;
#[cfg(test)]
mod texts;
