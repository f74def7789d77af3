//! What the definitions of spelled rows amount to. The function has an empty body and carries the
//! law.
ghost use Rattle.oe_file_rows.specs.Dumped.{Dumps_are_read};

/// The line that a dump prints of a row, without its end, spells the row: so what is dumped is read
/// back.
pub fn dumps_are_read()
    ensures { Dumps_are_read }
{}
