//! The interpreter of the program's lines: what each line is, how it is run on the tables, and the text of its reply.
#![tactic(auto)]

pub mod interpreter;
mod line;
mod lines;
mod listing;
mod pass;
pub mod run;
