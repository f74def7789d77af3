//! A line whose columns are read at their places.
//!
//! A row is seen as the places of its columns, and the fields of its line. Nothing that is read
//! changes it. The only error is the first column whose field does not spell what it has to.
ghost use Rattle.std.specs.Prelude.{◌≡◌, ◌≤◌, [], IfOk, IfSome, Some};
ghost use Rattle.std.specs.Option.{option_copied};
ghost use Rattle.oe_columns.specs.Columns.{id, district_id, line_number, small, counter};
ghost use Rattle.oe_columns.specs.Ahead.{AreFirst};
ghost use Rattle.oe_columns.specs.Values.{Number, Quantity, Money, Presence, Flag, field_at, column, number_found, read_as};
ghost use Rattle.oe_fields.specs.Parting.{fields_of};
ghost use Rattle.oe_fields.specs.Spelling.{number_in, amount_in};
ghost use Rattle.oe_columns.specs.declared.columns.Kind.TheVariants as kind;

use arrayvec::ArrayVec;
use oe_fields::{Fields, Format, flag, is_null, quantity};
use std::marker::Model;

/// The first column, by its number among those that a fact needs, whose field does not spell what
/// it has to, or is not there.
#[derive(Clone, Copy)]
pub struct Misfit {
    pub column: usize,
}

/// Gives a column's number, if it is there and in the range.
#[inline]
fn ranged(at: usize, low: u64, high: u64, n: Option<u64>) -> Result<u64, Misfit>
    ensures value { read_as (λ n. Number n) result ≡ number_found low high at n }
    ensures range { IfOk result (λ n. (low ≤ n) × (n ≤ high)) }
{
    match n {
        Some(n) if low <= n && n <= high => Ok(n),
        _ => Err(Misfit { column: at }),
    }
}

/// So many columns are read at once: no table has more numbers in front.
const AHEAD: usize = 6;

/// Reads the numbers of the first columns, as long as these are the line's next fields.
#[inline(always)]
fn numbers_ahead(fields: &mut Fields<'_>, places: &[usize], ahead: &mut ArrayVec<u64, AHEAD>)
    requires { ahead.old.items ≡ [] }
    ensures format { fields.new.format ≡ fields.old.format }
    ensures text { fields.new.text ≡ fields.old.text }
    ensures value { AreFirst (fields_of fields.old.format fields.old.text) places.now
        ahead.new.items }
{
    for place in places {
        if AHEAD <= ahead.len() {
            return;
        }
        if *place != fields.place() {
            return;
        }
        match fields.take_digits() {
            Some(n) => ahead.push(n),
            None => return,
        }
    }
}

/// A line, and the places of the columns that are read. The numbers of the first columns are read
/// with the row.
#[derive(Drop)]
pub struct Row<'a> {
    fields: Fields<'a>,
    places: &'a [usize],
    ahead: ArrayVec<u64, AHEAD>,
}

impl<'a> Model for Row<'a> {
    ghost use Rattle.oe_columns.specs.Values.{Placed};
    ghost use Rattle.oe_columns.specs.Ahead.{AreFirst};
    ghost use Rattle.oe_fields.specs.Parting.{fields_of};

    ghost Value = { Placed };

    ghost view = { λ r. record {
      places = r.places.now;
      fields = fields_of r.fields.format r.fields.text;
    } };

    ghost invariant = { λ r. AreFirst (fields_of r.fields.format r.fields.text) r.places.now
        r.ahead.items };
}

impl<'a> Row<'a> {
    /// Takes a line, without its end, with the places of its columns.
    #[inline]
    pub fn new(format: Format, line: &'a [u8], places: &'a [usize]) -> Row<'a>
        ensures { result ≡ record { places = places.now; fields = fields_of format line.now } }
    {
        let mut fields = Fields::new(format, line);
        let mut ahead = ArrayVec::new();
        numbers_ahead(&mut fields, places, &mut ahead);
        Row {
            fields,
            places,
            ahead,
        }
    }

    /// Gives the text of a column's field, if it is there.
    #[inline]
    #[tactic(auto, unfolding(crate::specs::Values::field_at))]
    pub fn field(&mut self, at: usize) -> Option<&'a [u8]>
        ensures same { self.new ≡ self.old }
        ensures value { option_copied result ≡ field_at self.old at }
    {
        match self.places.get(at) {
            Some(place) => self.fields.at(*place),
            None => None,
        }
    }

    /// Gives the number of a column that was read with the row.
    #[inline]
    fn known(&self, at: usize) -> Option<u64>
        ensures { IfSome result (λ n. Some n ≡ number_in (field_at self.now at)) }
    {
        match self.ahead.as_slice().get(at) {
            Some(n) => Some(*n),
            None => None,
        }
    }

    /// Gives the whole number of a column's field, which is looked for.
    #[inline(never)]
    #[tactic(auto, unfolding(crate::specs::Values::field_at))]
    fn far_whole(&mut self, at: usize) -> Option<u64>
        ensures same { self.new ≡ self.old }
        ensures value { result ≡ number_in (field_at self.old at) }
    {
        match self.places.get(at) {
            Some(place) => self.fields.number_at(*place),
            None => None,
        }
    }

    /// Gives the whole number of a column's field, if it is there and spells one.
    #[inline(always)]
    fn whole(&mut self, at: usize) -> Option<u64>
        ensures same { self.new ≡ self.old }
        ensures value { result ≡ number_in (field_at self.old at) }
    {
        if let Some(n) = self.known(at) {
            return Some(n);
        }
        self.far_whole(at)
    }

    /// Reads a number in its range.
    #[inline(always)]
    fn number(&mut self, at: usize, low: u64, high: u64) -> Result<u64, Misfit>
        ensures same { self.new ≡ self.old }
        ensures value { read_as (λ n. Number n) result
            ≡ column (kind.Number low high) at self.old }
        ensures range { IfOk result (λ n. (low ≤ n) × (n ≤ high)) }
    {
        let n = self.whole(at);
        ranged(at, low, high, n)
    }

    /// Reads the number of a warehouse, a customer, an order or an item.
    #[inline]
    pub(crate) fn id(&mut self, at: usize) -> Result<u32, Misfit>
        ensures same { self.new ≡ self.old }
        ensures value { read_as (λ n. Number n) result ≡ column id at self.old }
    {
        let n = self.number(at, 1, 4_294_967_295)?;
        Ok(n as u32)
    }

    /// Reads the number of a district.
    #[inline]
    pub(crate) fn district(&mut self, at: usize) -> Result<u8, Misfit>
        ensures same { self.new ≡ self.old }
        ensures value { read_as (λ n. Number n) result ≡ column district_id at self.old }
    {
        let n = self.number(at, 1, 10)?;
        Ok(n as u8)
    }

    /// Reads the number of an order's line.
    #[inline]
    pub(crate) fn line_number(&mut self, at: usize) -> Result<u8, Misfit>
        ensures same { self.new ≡ self.old }
        ensures value { read_as (λ n. Number n) result ≡ column line_number at self.old }
    {
        let n = self.number(at, 1, 255)?;
        Ok(n as u8)
    }

    /// Reads a number of up to 32 bits.
    #[inline]
    pub(crate) fn small(&mut self, at: usize) -> Result<u32, Misfit>
        ensures same { self.new ≡ self.old }
        ensures value { read_as (λ n. Number n) result ≡ column small at self.old }
    {
        let n = self.number(at, 0, 4_294_967_295)?;
        Ok(n as u32)
    }

    /// Reads a sum or a count.
    #[inline]
    pub(crate) fn counter(&mut self, at: usize) -> Result<u64, Misfit>
        ensures same { self.new ≡ self.old }
        ensures value { read_as (λ n. Number n) result ≡ column counter at self.old }
    {
        self.number(at, 0, 18_446_744_073_709_551_615)
    }

    /// Reads a quantity by its field.
    #[inline(never)]
    #[tactic(auto, unfolding(crate::specs::Values::column, crate::specs::Values::value_of))]
    fn far_quantity(&mut self, at: usize) -> Result<i64, Misfit>
        ensures same { self.new ≡ self.old }
        ensures value { read_as (λ z. Quantity z) result ≡ column kind.Quantity at self.old }
    {
        let Some(field) = self.field(at) else {
            return Err(Misfit { column: at });
        };
        match quantity(field) {
            Some(z) => Ok(z),
            None => Err(Misfit { column: at }),
        }
    }

    /// Reads S_QUANTITY.
    #[inline]
    pub(crate) fn quantity(&mut self, at: usize) -> Result<i64, Misfit>
        ensures same { self.new ≡ self.old }
        ensures value { read_as (λ z. Quantity z) result ≡ column kind.Quantity at self.old }
    {
        if let Some(n) = self.known(at) {
            if n <= 1_000_000_000_000_000 {
                return Ok(n as i64);
            }
        }
        self.far_quantity(at)
    }

    /// Gives the amount of a column's field, if it is there and spells one.
    #[inline]
    #[tactic(auto, unfolding(crate::specs::Values::field_at))]
    fn cents(&mut self, at: usize) -> Option<i64>
        ensures same { self.new ≡ self.old }
        ensures value { result ≡ amount_in (field_at self.old at) }
    {
        match self.places.get(at) {
            Some(place) => self.fields.amount_at(*place),
            None => None,
        }
    }

    /// Reads an amount of money.
    #[inline]
    pub(crate) fn amount(&mut self, at: usize) -> Result<i64, Misfit>
        ensures same { self.new ≡ self.old }
        ensures value { read_as (λ z. Money z) result ≡ column kind.Amount at self.old }
    {
        match self.cents(at) {
            Some(z) => Ok(z),
            None => Err(Misfit { column: at }),
        }
    }

    /// Tells whether a column that may be null is not.
    #[inline]
    #[tactic(auto, unfolding(crate::specs::Values::column, crate::specs::Values::value_of))]
    pub(crate) fn presence(&mut self, at: usize) -> Result<bool, Misfit>
        ensures same { self.new ≡ self.old }
        ensures value { read_as (λ b. Presence b) result ≡ column kind.Nullable at self.old }
    {
        match self.field(at) {
            Some(field) => Ok(!is_null(field)),
            None => Err(Misfit { column: at }),
        }
    }

    /// Reads a flag.
    #[inline]
    #[tactic(auto, unfolding(crate::specs::Values::column, crate::specs::Values::value_of))]
    pub(crate) fn flag(&mut self, at: usize) -> Result<bool, Misfit>
        ensures same { self.new ≡ self.old }
        ensures value { read_as (λ b. Flag b) result ≡ column kind.Flag at self.old }
    {
        let Some(field) = self.field(at) else {
            return Err(Misfit { column: at });
        };
        match flag(field) {
            Some(b) => Ok(b),
            None => Err(Misfit { column: at }),
        }
    }
}
