//! The options of the command line, as `clap` reads them, which is only tested.
use crate::error::Error;
use crate::group::{Aggregation, GroupBy};
use crate::sort::SortKey;
use clap::{Arg, ArgAction, ArgMatches, Command};
use example_record_batch::any::group::Aggregate;
use std::alloc::Global;

/// What to select and to print of a table.
#[derive(Debug, Drop)]
pub struct Options {
    /// The column whose true values select rows, or `None` for every row.
    pub filter: Option<String>,
    /// How the rows are grouped, or `None` for every row by itself.
    pub group: Option<GroupBy>,
    /// The column that orders the rows, or `None` for the order that they have.
    pub sort: Option<SortKey>,
    /// The columns to show, in this order, or `None` for every column.
    pub columns: Option<Vec<String>>,
    /// The greatest number of rows, or `None` for every row.
    pub head: Option<usize>,
    /// Whether a summary of the columns is printed instead of the rows.
    pub summary: bool,
    /// Whether aligned columns are printed instead of CSV.
    pub table: bool,
}

/// Creates an option of columns that are aggregated.
fn aggregate_option<'a>(
    alloc: Global,
    name: &'a str,
    help: &'a str,
) -> Result<Arg<'a>, clap::Error> {
    Ok(
        Arg::new(alloc, name)
            .long(name)
            .value_name("NAMES")
            .value_delimiter(',')
            .requires_arg("group")?
            .help(help),
    )
}

/// Creates the command, whose `--help` lists its options.
pub fn command<'a>(alloc: Global) -> Result<Command<'a>, clap::Error> {
    Ok(
        Command::new(alloc, "example_csv")
            .about(
                "Reads a CSV table from standard input and prints the rows and columns that the options select",
            )
            .after_help(
                "The options apply in the order in which they are listed, whatever the order of the arguments.",
            )
            .arg(
                Arg::new(alloc, "where")
                    .long("where")
                    .value_name("COLUMN")
                    .help("Keep only the rows where this column is true"),
            )?
            .arg(
                Arg::new(alloc, "group")
                    .long("group")
                    .value_name("COLUMN")
                    .help(
                        "Print a row for each value of this column, in the order of first appearance",
                    ),
            )?
            .arg(aggregate_option(alloc, "sum", "Sum these columns of numbers in each group")?)?
            .arg(aggregate_option(
                alloc,
                "min",
                "Find the least value of these columns in each group",
            )?)?
            .arg(aggregate_option(
                alloc,
                "max",
                "Find the greatest value of these columns in each group",
            )?)?
            .arg(
                Arg::new(alloc, "sort")
                    .long("sort")
                    .value_name("COLUMN[:desc]")
                    .help(
                        "Sort the rows by this column, nulls first; :desc begins with the greatest value",
                    ),
            )?
            .arg(
                Arg::new(alloc, "columns")
                    .long("columns")
                    .value_name("NAMES")
                    .value_delimiter(',')
                    .help("Print only these columns, separated by commas"),
            )?
            .arg(
                Arg::new(alloc, "head")
                    .long("head")
                    .value_name("N")
                    .value_parser(clap::value_parser!(usize))
                    .help("Print at most this number of rows"),
            )?
            .arg(
                Arg::new(alloc, "summary")
                    .long("summary")
                    .action(ArgAction::SetTrue)
                    .help("Print a summary of each column instead of the rows"),
            )?
            .arg(
                Arg::new(alloc, "table")
                    .long("table")
                    .action(ArgAction::SetTrue)
                    .help(
                        "Print aligned columns instead of CSV, with a space for each control character",
                    ),
            )?,
    )
}

impl Options {
    /// Reads the options from the matches of a command line.
    ///
    /// # Errors
    /// `OutOfMemory` if an allocation fails.
    pub fn from_matches(alloc: Global, matches: &ArgMatches<'_>) -> Result<Self, Error> {
        let filter = match matches.get_str("where") {
            Some(name) => Some(String::from_str(alloc, name)?),
            None => None,
        };
        let sort = match matches.get_str("sort") {
            Some(key) => Some(SortKey::from_str(alloc, key)?),
            None => None,
        };
        let columns = match matches.get_strs("columns") {
            Some(names) => Some(copy_names(alloc, names)?),
            None => None,
        };
        Ok(Options {
            filter,
            group: group_by(alloc, matches)?,
            sort,
            columns,
            head: matches.get_one::<usize>("head"),
            summary: matches.get_flag("summary"),
            table: matches.get_flag("table"),
        })
    }
}

/// Copies names.
fn copy_names(alloc: Global, names: &[&str]) -> Result<Vec<String>, Error> {
    let mut copies = Vec::with_capacity(alloc, names.len())?;
    for name in names {
        copies.push(String::from_str(alloc, name)?)?;
    }
    Ok(copies)
}

/// Reads how rows are grouped.
fn group_by(alloc: Global, matches: &ArgMatches<'_>) -> Result<Option<GroupBy>, Error> {
    let Some(column) = matches.get_str("group") else {
        return Ok(None);
    };
    let column = String::from_str(alloc, column)?;
    let mut aggregations = Vec::new(alloc);
    push_aggregations(
        alloc,
        &mut aggregations,
        Aggregate::Sum,
        matches.get_strs("sum"),
    )?;
    push_aggregations(
        alloc,
        &mut aggregations,
        Aggregate::Min,
        matches.get_strs("min"),
    )?;
    push_aggregations(
        alloc,
        &mut aggregations,
        Aggregate::Max,
        matches.get_strs("max"),
    )?;
    Ok(Some(GroupBy {
        column,
        aggregations,
    }))
}

/// Appends an aggregate of each column that is named.
fn push_aggregations(
    alloc: Global,
    aggregations: &mut Vec<Aggregation>,
    aggregate: Aggregate,
    names: Option<&[&str]>,
) -> Result<(), Error> {
    for name in names.unwrap_or(&[]) {
        let column = String::from_str(alloc, name)?;
        aggregations.push(Aggregation { aggregate, column })?;
    }
    Ok(())
}
