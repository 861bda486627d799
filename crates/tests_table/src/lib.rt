//! Tests of a table of arrays and builders, and of the sessions of the program that run its commands.
#![tactic(auto)]

#[cfg(test)]
mod session;
#[cfg(test)]
mod table;
