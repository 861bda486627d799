//! Runs a kernel on the arrays of each line of standard input, and prints what it returns. `examples/oracle.py`
//! compares lines with lists in Python.
//!
//! A line is `KERNEL TYPE LHS RHS MASK KEYS`, as in `add i32 1,2,_,4 5,_,7,8`. LHS and RHS are arrays of the type;
//! without RHS it is LHS. A kernel of scalars takes the first slot of RHS. MASK is a filter or a predicate. KEYS are
//! indexes; the first of them is the limit of a sort.
//!
//! Commas separate slots. A slot that begins with `_` is null and stores what follows. Bytes and text begin with `'`; a
//! character stands for itself, or in bytes for the byte of its number. `SLOTS|OFFSET|LENGTH` is a slice of the slots.
#![tactic(auto)]

mod any;
mod case;
mod extremes;
mod integers;
mod items;
mod kind;
mod line;
mod logic;
mod ordered;
mod read;
mod select;

use crate::line::{Line, answer};
use std::io::Read;

fn main(rt: HostRuntime) -> anyhow::Result<()> {
    let mut text = String::new(rt.alloc());
    rt.stdin().read_to_string(&mut text)?;
    for line in text.as_str().lines() {
        answer(&rt, &Line::read(line))?;
    }
    Ok(())
}
