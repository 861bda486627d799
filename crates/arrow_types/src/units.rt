//! Units of time and of intervals, as parts of data types. No call of an array depends on them.
ghost use Rattle.std.specs.Prelude.{Some};
ghost use Rattle.arrow_types.specs.TypeText.{interval_unit_text, time_unit_text};

use std::fmt;

/// The unit in which times, timestamps and durations are counted.
#[derive(Clone, Copy, Debug, PartialEq, Eq)]
pub enum TimeUnit {
    /// Seconds.
    Second,
    /// Thousandths of a second.
    Millisecond,
    /// Millionths of a second.
    Microsecond,
    /// Billionths of a second.
    Nanosecond,
}

impl fmt::Display for TimeUnit {
    ghost output = { λ unit. Some (time_unit_text unit) };

    fn fmt<W: fmt::Write>(&self, f: &mut fmt::Formatter<W>) -> fmt::Result {
        match self {
            TimeUnit::Second => write!(f, "Second"),
            TimeUnit::Millisecond => write!(f, "Millisecond"),
            TimeUnit::Microsecond => write!(f, "Microsecond"),
            TimeUnit::Nanosecond => write!(f, "Nanosecond"),
        }
    }
}

/// The unit in which calendar intervals are counted.
#[derive(Clone, Copy, Debug, PartialEq, Eq)]
pub enum IntervalUnit {
    /// Whole months.
    YearMonth,
    /// Days and milliseconds.
    DayTime,
    /// Months, days and nanoseconds.
    MonthDayNano,
}

impl fmt::Display for IntervalUnit {
    ghost output = { λ unit. Some (interval_unit_text unit) };

    fn fmt<W: fmt::Write>(&self, f: &mut fmt::Formatter<W>) -> fmt::Result {
        match self {
            IntervalUnit::YearMonth => write!(f, "YearMonth"),
            IntervalUnit::DayTime => write!(f, "DayTime"),
            IntervalUnit::MonthDayNano => write!(f, "MonthDayNano"),
        }
    }
}
