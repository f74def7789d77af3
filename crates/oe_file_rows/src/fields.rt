//! The fields of a line, which tabs part, taken one after another.
//!
//! What is left is seen as the list of its fields, and the place of the first of them among the
//! columns of the line. By the invariant columns are no more than bytes, so that they can be
//! counted. After an error the field that has no value is passed.
ghost use Rattle.std.specs.Prelude.{◌≡◌, ◌+◌, ◌<◌, ◌≤◌, ◌^◌, ℕ, List, Option, Ok, length, IfNone};
ghost use Rattle.std.specs.Option.{option_copied, IfSome};
ghost use Rattle.oe_file_rows.specs.Line.{Left, left_of, fields_of, first_field, past_first, read_as, column, values_at_end, ends};

use crate::columns::ColumnValue;
use crate::forms::LineFault;
use memchr::memchr;
use std::marker::Model;

/// What is left of a line.
#[derive(Drop)]
pub(crate) struct Fields<'a> {
    rest: Option<&'a [u8]>,
    column: usize,
}

impl<'a> Model for Fields<'a> {
    ghost use Rattle.oe_file_rows.specs.Line.{Left, left_of};
    ghost use Rattle.std.specs.Option.{option_copied, IfSome};
    ghost use Rattle.std.specs.Prelude.{◌+◌, ◌<◌, ◌^◌, length};

    ghost Value = { Left };

    ghost view = { λ f. record { column = f.column; fields = left_of (option_copied f.rest) } };

    ghost invariant = { λ f. IfSome f.rest (λ s. f.column + length s.now < 2 ^ 63 + 8) };
}

impl<'a> Fields<'a> {
    /// Takes all of a line, whose first column has that place among the columns of its table.
    pub(crate) fn of(line: &'a [u8], place: usize) -> Fields<'a>
        requires { place < 8 }
        ensures { result ≡ record { column = place; fields = fields_of line.now } }
    {
        Fields {
            rest: Some(line),
            column: place,
        }
    }

    /// Takes the next field, if there is one.
    #[inline]
    fn next(&mut self) -> Option<&'a [u8]>
        ensures value { option_copied result ≡ first_field self.old.fields }
        ensures left { self.new ≡ past_first self.old self.old.fields }
    {
        let rest = self.rest?;
        self.column += 1;
        match memchr(b'\t', rest) {
            Some(end) => {
                self.rest = Some(&rest[end + 1..]);
                Some(&rest[..end])
            }
            None => {
                self.rest = None;
                Some(rest)
            }
        }
    }

    /// Passes over the next field, if there is one.
    pub(crate) fn pass(&mut self)
        ensures { self.new ≡ past_first self.old self.old.fields }
    {
        let _field = self.next();
    }

    /// Takes the next column, where its value is read at the front of what is left.
    #[inline]
    fn take_front<T: ColumnValue>(&mut self) -> Option<T>
        ensures taken { IfSome result (λ v. column T.column_form self.old
            ≡ Ok (T.value v, self.new)) }
        ensures left { IfNone result (self.new ≡ self.old) }
    {
        let rest = self.rest?;
        let Some((value, left)) = T::read_front(rest) else {
            return None;
        };
        self.rest = left;
        self.column += 1;
        Some(value)
    }

    /// Reads the next column.
    #[inline]
    #[tactic(auto, unfolding(crate::specs::Line::column))]
    pub(crate) fn column<T: ColumnValue>(&mut self) -> Result<T, LineFault>
        ensures { read_as T.value self.new result ≡ column T.column_form self.old }
    {
        if let Some(value) = self.take_front() {
            return Ok(value);
        }
        let place = self.column;
        let Some(field) = self.next() else {
            return Err(LineFault::MissingColumn(place));
        };
        match T::read(field) {
            Some(value) => Ok(value),
            None => Err(LineFault::NoForm(place, T::form())),
        }
    }

    /// Ends the line.
    #[inline]
    #[tactic(auto, unfolding(crate::specs::Line::values_at_end))]
    pub(crate) fn end(&self) -> Result<(), LineFault>
        ensures { ends result ≡ values_at_end self.now }
    {
        match self.rest {
            Some(_) => Err(LineFault::ExtraColumn),
            None => Ok(()),
        }
    }
}
