//! What the options of a command line come to: the formats of files, and the form of a report.
ghost use Rattle.std.specs.Prelude.{◌≡◌};
ghost use Rattle.oe_answers.specs.Said.{row_format, field_format, audit_options};

use oe_command_line::{AuditOptions, Separator};
use oe_file_audit::{Form, Options};

/// Gives the format of files whose rows are compared or loaded.
pub(crate) fn row_format(separator: Separator) -> oe_file_tables::Format
    ensures { result ≡ row_format separator }
{
    match separator {
        Separator::Tabs => oe_file_tables::Format::Dump,
        Separator::Commas => oe_file_tables::Format::Csv,
    }
}

/// Gives the format of files that are audited.
pub(crate) fn field_format(separator: Separator) -> oe_fields::Format
    ensures { result ≡ field_format separator }
{
    match separator {
        Separator::Tabs => oe_fields::Format::Tabs,
        Separator::Commas => oe_fields::Format::Commas,
    }
}

/// Gives the options of an audit: how many orders the population had in each district, behind how
/// many rows each list is cut, and the form of the report.
pub(crate) fn audit_options(said: &AuditOptions) -> Options
    ensures { result ≡ audit_options said.now }
{
    let form = if said.is_json { Form::Json } else { Form::Text };
    Options {
        initial: said.initial,
        first: said.first,
        form,
    }
}
