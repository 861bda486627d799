//! Tests of the kernels by their public calls, each module for the crate of its name.
#![tactic(auto)]

#[cfg(test)]
mod aggregate;
#[cfg(test)]
mod arithmetics;
#[cfg(test)]
mod arrays;
#[cfg(test)]
mod cast;
#[cfg(test)]
mod compute;
#[cfg(test)]
mod group;
#[cfg(test)]
mod kernels;
#[cfg(test)]
mod law_callers;
#[cfg(test)]
mod select;
#[cfg(test)]
mod sort;
