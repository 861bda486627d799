//! Reads a table of the laureates in literature from standard input, and applies the crates `example_record_batch` and
//! `example_nested` and the library's kernels to it. Each function can be copied by itself. What is printed is in `stdout`,
//! beside `src`.
#![tactic(auto)]

mod ages;
mod cells;
mod countries;
mod decades;
mod filters;
mod read;
mod refusals;
mod rows;

use std::io;

fn main(rt: HostRuntime) -> anyhow::Result<()> {
    let alloc = rt.alloc();
    let table = read::read_table(alloc, rt.reader())?;
    println!(rt;
        "{} rows of {} columns",
        table.num_rows(),
        table.num_columns()
    )?;
    print!(rt; "{}", table.schema())?;
    rows::show(&rt, alloc, &table)?;
    filters::show(&rt, alloc, &table)?;
    decades::show(&rt, alloc, &table)?;
    countries::show(&rt, alloc, &table)?;
    ages::show(&rt, alloc, &table)?;
    refusals::show(&rt, alloc)
}
