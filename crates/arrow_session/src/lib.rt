//! Sessions: lines of commands in, lines of replies out.
#![tactic(auto)]

pub mod counted;
pub mod device;
pub mod outcome;
pub mod session;
