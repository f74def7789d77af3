//! The first column at which two rows differ, found in the lines that a dump prints of them.
//! Nothing here takes memory, and nothing can fail.
ghost use Rattle.std.specs.Prelude.{◌≡◌, ◌≤◌, ◌<◌, ◌+◌, ◌∷◌, [], length, option_map};
ghost use Rattle.std.specs.Option.{IfSome, option_copied};
ghost use Rattle.arrayvec.specs.ArrayVec.{array_vec_len};
ghost use Rattle.oe_file_rows.specs.Line.{fields_of, left_of};
ghost use Rattle.oe_comparison.specs.Columns.{shown_line, first_other, texts_of};

use memchr::memchr;
use oe_dumps::DumpedRow;
use oe_texts::Pending;

/// A column at which two rows differ: its place, counted from 0, its text in the file, and its text
/// in this order.
#[derive(Clone, Copy)]
pub(crate) struct OtherColumn<'a> {
    pub(crate) place: usize,
    pub(crate) theirs: &'a [u8],
    pub(crate) ours: &'a [u8],
}

// The first field of a line, and what stands behind the tab that ends it.
#[derive(Clone, Copy)]
struct Parted<'a> {
    field: &'a [u8],
    rest: Option<&'a [u8]>,
}

// Parts a line behind its first field.
fn split_field(line: &[u8]) -> Parted<'_>
    ensures fields { fields_of line.now
        ≡ result.field.now ∷ left_of (option_copied result.rest) }
    ensures shorter { IfSome result.rest (λ rest. length rest.now < length line.now) }
{
    match memchr(b'\t', line) {
        Some(end) => Parted {
            field: &line[..end],
            rest: Some(&line[end + 1..]),
        },
        None => Parted {
            field: line,
            rest: None,
        },
    }
}

/// Finds the first column at which two lines differ.
pub(crate) fn first_other<'a>(theirs: &'a [u8], ours: &'a [u8]) -> Option<OtherColumn<'a>>
    ensures { option_map texts_of result
        ≡ first_other 0 (fields_of theirs.now) (fields_of ours.now) }
{
    let mut left = theirs;
    let mut right = ours;
    let mut place = 0;
    loop {
        let their = split_field(left);
        let our = split_field(right);
        if their.field != our.field {
            return Some(OtherColumn {
                place,
                theirs: their.field,
                ours: our.field,
            });
        }
        let Some(their_rest) = their.rest else {
            return None;
        };
        let Some(our_rest) = our.rest else {
            return None;
        };
        left = their_rest;
        right = our_rest;
        place += 1;
    }
}

/// Writes the line of a row without its end.
pub(crate) fn write_row<K, R: DumpedRow<K>>(out: &mut Pending, key: &K, row: &R)
    requires { out.old.items ≡ [] }
    ensures { out.new.items ≡ shown_line (R.columns key.now row.now) }
{
    R::line(out, key, row);
    let end = out.len().saturating_sub(1);
    out.truncate(end);
}
