//! What the columns of a line may say, and what is wrong with a line that is no row.

/// How the values of a column are spelled, and their range (clause 1.3.1).
#[derive(Clone, Copy)]
pub enum Form {
    /// A number in decimal without a leading zero, from the first to the second.
    Number(u32, u32),
    /// Such a number, or null.
    NullableNumber(u32, u32),
    /// A text of printable ASCII bytes, of a length from the first to the second.
    Text(usize, usize),
    /// Money in two decimals, from 0.00 to that many cents.
    Money(u64),
    /// C_BALANCE: money in two decimals, with a minus sign where it is negative.
    Balance,
    /// A rate below 1 in four decimals.
    Rate,
    /// C_CREDIT: `GC` or `BC`.
    Credit,
    /// O_ALL_LOCAL: `1` or `0`.
    Flag,
    /// A date and a time.
    Stamp,
    /// Such a stamp, or null.
    NullableStamp,
}

/// Why a line is no row of its table. Columns are counted from 0 in the order in which a dump
/// prints them.
#[derive(Clone, Copy)]
pub enum LineFault {
    /// The column of that place has no value of its form; each before it has one.
    NoForm(usize, Form),
    /// The line ends before the column of that place; each before it has a value.
    MissingColumn(usize),
    /// All columns have values, and there is more behind them.
    ExtraColumn,
    /// No HISTORY key has a number as great as the line's.
    NoKey,
}
