//! Each reading finds exactly what stands at the front. The functions have empty bodies and carry
//! the laws.
ghost use Rattle.oe_decode.specs.Laws.{Keys_are_read_exactly, Rows_are_read_exactly, Changed_columns_are_read_exactly};

/// Each reading of a key finds the key whose image stands at the front of the bytes, and nothing
/// else.
pub fn keys_are_read_exactly()
    ensures { Keys_are_read_exactly }
{}

/// Each reading of a row finds the row whose image stands at the front of the bytes, and nothing
/// else.
pub fn rows_are_read_exactly()
    ensures { Rows_are_read_exactly }
{}

/// Each reading of changed columns finds the columns whose image, with its mask, stands at the
/// front of the bytes, and nothing else.
pub fn changed_columns_are_read_exactly()
    ensures { Changed_columns_are_read_exactly }
{}
