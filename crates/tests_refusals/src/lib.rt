//! What calls answer and leave if memory is refused. A test that met a refusal, and the right answer to it, fails with
//! the word `refused`, and only so; one that is refused a value that it begins with aborts with that word. The script
//! `refusals` refuses each allocation in turn, until no test fails. All crates are tested in one, so that one build
//! serves for all allocations.
#![tactic(auto)]

#[cfg(test)]
mod aggregate;
#[cfg(test)]
mod arithmetics;
#[cfg(test)]
mod boolean;
#[cfg(test)]
mod bytes;
#[cfg(test)]
mod cast;
#[cfg(test)]
mod compute;
#[cfg(test)]
mod groups;
#[cfg(test)]
mod kernels;
#[cfg(test)]
mod memory;
#[cfg(test)]
mod offsets;
#[cfg(test)]
mod overflows;
#[cfg(test)]
mod primitive;
#[cfg(test)]
mod refusal;
#[cfg(test)]
mod runs;
#[cfg(test)]
mod select;
#[cfg(test)]
mod session;
#[cfg(test)]
mod slot_text;
#[cfg(test)]
mod sort;
#[cfg(test)]
mod types;
