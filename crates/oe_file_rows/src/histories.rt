//! Histories. The standard leaves them without a key. A line may have our key columns before the
//! standard's, as a dump prints them: they are passed over, and the line's number stands for the key.
ghost use Rattle.std.specs.Prelude.{◌≡◌, ◌==◌, length, count_by};
ghost use Rattle.oe_file_rows.specs.Line.{row_as, group_columns, fields_of, ReadsLeft};
ghost use Rattle.oe_file_rows.specs.Rows.{history_row_forms, history_row_values, behind_key, ReadsHistory};
ghost use Rattle.oe_lines.specs.Words.{within};

use crate::fields::Fields;
use crate::forms::LineFault;
use oe_rows::{CustomerKey, DistrictKey, History, HistoryKey};
use oe_values::{Number, TransactionNumber};

/// Counts the tabs of a line.
fn tabs(line: &[u8]) -> usize
    ensures { result ≡ count_by (λ b. b == 9) line.now }
{
    line.iter().filter(|b| **b == b'\t').count()
}

/// Tells whether a line has eight fields.
fn has_eight(line: &[u8]) -> bool
    ensures { result ≡ (length (fields_of line.now) == 8) }
{
    tabs(line) == 7
}

/// Takes what a line has behind our key columns, which a line of eight fields lacks.
fn behind_key(line: &[u8]) -> Fields<'_>
    ensures { result ≡ behind_key (fields_of line.now) }
{
    if has_eight(line) {
        return Fields::of(line, 3);
    }
    let mut fields = Fields::of(line, 0);
    fields.pass();
    fields.pass();
    fields.pass();
    fields
}

/// Reads the columns of the standard.
fn history_row(fields: &mut Fields<'_>) -> Result<History, LineFault>
    ensures { row_as history_row_values result ≡ group_columns history_row_forms fields.old }
{
    let customer = fields.column()?;
    let customer_district = fields.column()?;
    let customer_warehouse = fields.column()?;
    let district = fields.column()?;
    let warehouse = fields.column()?;
    let date = fields.column()?;
    let amount = fields.column()?;
    let data = fields.column()?;
    fields.end()?;
    Ok(History {
        customer: CustomerKey {
            warehouse: customer_warehouse,
            district: customer_district,
            customer,
        },
        district: DistrictKey {
            warehouse,
            district,
        },
        date,
        amount,
        data,
    })
}

/// Reads the row of a line, whatever its key columns are.
fn row_of(line: &[u8]) -> Result<History, LineFault>
    ensures { ReadsLeft (behind_key (fields_of line.now)) history_row_forms history_row_values
        result }
{
    history_row(&mut behind_key(line))
}

/// Gives a number as that of a transaction, where it is in the range.
fn transaction_number(number: u64) -> Option<TransactionNumber>
    ensures { result ≡ within 0 4_294_967_295 number }
{
    Number::new(u32::try_from(number).ok()?)
}

/// Reads the HISTORY row that the line of this number spells. The line stands without its end. Its
/// key has terminal 0, the line's number and ordinal 1, whatever key columns stand there; `NoKey`
/// where no key has that number.
pub fn read_history(line: &[u8], number: u64) -> Result<(HistoryKey, History), LineFault>
    ensures { ReadsHistory number line.now result }
{
    let (Some(terminal), Some(ordinal)) = (Number::new(0), Number::new(1)) else {
        unreachable!();
    };
    let Some(number) = transaction_number(number) else {
        return Err(LineFault::NoKey);
    };
    let key = HistoryKey {
        terminal,
        number,
        ordinal,
    };
    match row_of(line) {
        Ok(row) => Ok((key, row)),
        Err(fault) => Err(fault),
    }
}
