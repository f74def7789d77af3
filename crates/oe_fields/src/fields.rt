//! The fields of a line, found one after another or by their places.
//!
//! A tab or a comma parts two fields. Between tabs a backslash takes the next byte: a tab there
//! is of the field. Between commas a quote opens or ends quotes: a comma in quotes is of the field,
//! and a field that begins and ends with a quote stands without these two. What is passed over is
//! not looked at any further. A line is seen as the list of its fields, and the place of the next.
//! By the invariant what is left of the line has the fields from that place on. Nothing can fail.
ghost use Rattle.std.specs.Prelude.{◌≡◌, ◌+◌, ◌<◌, ◌≤◌, ◌^◌, pos, Bool, true, false, length, drop, is_some, slice_get, OnSome, IfSome, Some, IfNone, None, if◌then◌else◌};
ghost use Rattle.std.specs.Option.{option_copied, option_map};
ghost use Rattle.memchr.specs.Find.{IsFirstByte, is_byte2};
ghost use Rattle.oe_fields.specs.Front.{BeginsWithNumber, BeginsWithAmount};
ghost use Rattle.oe_fields.specs.Spelling.{number_in, amount_in};
ghost use Rattle.oe_fields.specs.Parting.{separator, mark, held_behind, end_from, is_quoted, text_of, parted_of, fields_of};

use crate::numbers::{amount, number, signed, two_decimals, whole, within_most};
use memchr::{memchr2, memchr3};
use std::marker::Model;

/// So many bytes are looked at together where a field ends.
const NEAR: usize = 32;

/// How fields are parted.
#[derive(Clone, Copy)]
pub enum Format {
    /// By tabs, where a backslash takes the byte behind it.
    Tabs,
    /// By commas, with quotes.
    Commas,
}

/// Gives the byte that parts two fields.
#[inline]
fn separator(format: Format) -> u8
    ensures { result ≡ separator format }
{
    match format {
        Format::Tabs => b'\t',
        Format::Commas => b',',
    }
}

/// Tells whether the next byte is of the field whatever it is, behind a byte more.
#[inline]
fn held_behind(format: Format, is_held: bool, byte: u8) -> bool
    ensures { result ≡ held_behind format is_held byte }
{
    match format {
        Format::Tabs => !is_held && byte == b'\\',
        Format::Commas => (byte == b'"') != is_held,
    }
}

/// Finds the end of the field at the front, byte by byte from `start` on. No byte before it is a
/// separator or a mark.
fn end_behind(format: Format, text: &[u8], start: usize) -> usize
    requires { start ≤ length text.now }
    ensures value { result ≡ start + end_from format false (drop start text.now) }
    ensures within { result ≤ length text.now }
{
    let mut is_held = false;
    for i in start..text.len() {
        if !is_held && text[i] == separator(format) {
            return i;
        }
        is_held = held_behind(format, is_held, text[i]);
    }
    text.len()
}

/// Finds the end of the field at the front, which goes on up to the byte at `i`.
#[inline]
fn end_at(format: Format, text: &[u8], i: usize) -> usize
    requires { i < length text.now }
    ensures value { result ≡ i + end_from format false (drop i text.now) }
    ensures within { result ≤ length text.now }
{
    if text[i] == separator(format) {
        return i;
    }
    end_behind(format, text, i)
}

/// Finds the first byte that is a separator or a mark. A search whose bytes are written in its call
/// is fast where it is called once alone: so commas have a search of their own, for three bytes.
#[inline]
fn first_near(format: Format, near: &[u8]) -> Option<usize>
    ensures { IsFirstByte (is_byte2 (separator format) (mark format)) near.now result }
{
    match format {
        Format::Tabs => memchr2(b'\t', b'\\', near),
        Format::Commas => memchr3(b',', b'"', b'"', near),
    }
}

/// Finds the end of the field at the front: the place of the separator, or the text's length. The
/// bytes are looked at together, some at a time.
#[inline]
fn field_end(format: Format, text: &[u8]) -> usize
    ensures value { result ≡ end_from format false text.now }
    ensures within { result ≤ length text.now }
{
    let mut start = 0;
    while NEAR <= text.len() - start {
        let near = &text[start..start + NEAR];
        match first_near(format, near) {
            Some(i) => return end_at(format, text, start + i),
            None => start += NEAR,
        }
    }
    end_behind(format, text, start)
}

/// Tells whether a field begins and ends with a quote.
#[inline]
fn is_quoted(field: &[u8]) -> bool
    ensures { result ≡ is_quoted field.now }
{
    field.len() >= 2 && field[0] == b'"' && field[field.len() - 1] == b'"'
}

/// Gives the text of a field: between commas, a field that begins and ends with a quote stands
/// without these two.
#[inline]
#[tactic(auto, unfolding(crate::specs::Parting::text_of))]
fn text_of(format: Format, field: &[u8]) -> &[u8]
    ensures { result.now ≡ text_of format field.now }
{
    match format {
        Format::Tabs => field,
        Format::Commas => {
            if is_quoted(field) {
                &field[1..field.len() - 1]
            } else {
                field
            }
        }
    }
}

/// Reads the number of the field at the front, where that has digits alone and 64 bits hold their
/// number, and gives what is left behind the field. `None` tells nothing of the field.
#[inline]
fn number_front(format: Format, rest: &[u8]) -> Option<(u64, Option<&[u8]>)>
    ensures { IfSome result (λ p. BeginsWithNumber format rest.now p.0 (option_copied p.1)) }
{
    let (n, behind) = whole(rest)?;
    if behind.len() == rest.len() {
        return None;
    }
    let [first, left @ ..] = behind else {
        return Some((n, None));
    };
    if *first != separator(format) {
        return None;
    }
    Some((n, Some(left)))
}

/// Reads the amount of the field at the front, in cents, where that has digits, a point and two
/// decimals alone, and gives what is left behind the field. `None` tells nothing of the field.
#[inline]
fn amount_front(format: Format, rest: &[u8]) -> Option<(u64, Option<&[u8]>)>
    ensures value { IfSome result (λ p. BeginsWithAmount format rest.now (pos p.0)
        (option_copied p.1)) }
    ensures small { IfSome result (λ p. p.0 ≤ 10 ^ 15) }
{
    let (n, behind) = whole(rest)?;
    if behind.len() == rest.len() {
        return None;
    }
    let (hundredths, after) = two_decimals(behind)?;
    let cents = within_most(n, hundredths)?;
    let [first, left @ ..] = after else {
        return Some((cents, None));
    };
    if *first != separator(format) {
        return None;
    }
    Some((cents, Some(left)))
}

/// A line's fields.
#[derive(Drop)]
pub struct Fields<'a> {
    format: Format,
    line: &'a [u8],
    rest: Option<&'a [u8]>,
    place: usize,
}

impl<'a> Model for Fields<'a> {
    ghost use Rattle.oe_fields.specs.Parting.{Line, parted_of, left_of};
    ghost use Rattle.std.specs.Option.{option_copied, IfSome};
    ghost use Rattle.std.specs.Prelude.{◌≡◌, ◌+◌, ◌≤◌, drop, length};

    ghost Value = { Line };

    ghost view = { λ f. record { format = f.format; text = f.line.now; place = f.place } };

    ghost invariant = { λ f. record {
      from : left_of f.format (option_copied f.rest) ≡ drop f.place (parted_of f.format f.line.now);
      short : IfSome f.rest (λ s. f.place + length s.now ≤ length f.line.now);
    } };
}

impl<'a> Fields<'a> {
    /// Takes a line, without its end.
    #[inline]
    pub fn new(format: Format, line: &'a [u8]) -> Fields<'a>
        ensures { result ≡ record { format = format; text = line.now; place = 0 } }
    {
        Fields {
            format,
            line,
            rest: Some(line),
            place: 0,
        }
    }

    /// Takes the next field, as it stands.
    #[inline]
    fn take(&mut self) -> Option<&'a [u8]>
        ensures format { self.new.format ≡ self.old.format }
        ensures text { self.new.text ≡ self.old.text }
        ensures value { option_copied result
            ≡ slice_get (parted_of self.old.format self.old.text) self.old.place }
        ensures place { self.new.place
            ≡ (if is_some result then self.old.place + 1 else self.old.place) }
    {
        let rest = self.rest?;
        let end = field_end(self.format, rest);
        self.place += 1;
        if end < rest.len() {
            self.rest = Some(&rest[end + 1..]);
        } else {
            self.rest = None;
        }
        Some(&rest[..end])
    }

    /// Goes back to the first field, where that place is passed.
    #[inline]
    fn go_back(&mut self, place: usize)
        ensures format { self.new.format ≡ self.old.format }
        ensures text { self.new.text ≡ self.old.text }
        ensures place { self.new.place ≤ place }
    {
        if place < self.place {
            self.rest = Some(self.line);
            self.place = 0;
        }
    }

    /// Takes the next field, where it has digits alone and 64 bits hold their number. `None`
    /// tells nothing of the field, and takes none.
    #[inline]
    pub fn take_digits(&mut self) -> Option<u64>
        ensures format { self.new.format ≡ self.old.format }
        ensures text { self.new.text ≡ self.old.text }
        ensures value { IfSome result (λ n. Some n
            ≡ number_in (slice_get (fields_of self.old.format self.old.text) self.old.place)) }
        ensures none { IfNone result (self.new ≡ self.old) }
    {
        let rest = self.rest?;
        let (n, left) = number_front(self.format, rest)?;
        self.rest = left;
        self.place += 1;
        Some(n)
    }

    /// Reads the whole number at that place, without a sign, of up to 64 bits.
    #[inline]
    pub fn number_at(&mut self, place: usize) -> Option<u64>
        ensures format { self.new.format ≡ self.old.format }
        ensures text { self.new.text ≡ self.old.text }
        ensures value { result
            ≡ number_in (slice_get (fields_of self.old.format self.old.text) place) }
    {
        if place == self.place {
            if let Some(n) = self.take_digits() {
                return Some(n);
            }
        }
        self.slow_number_at(place)
    }

    /// Reads the whole number at that place, by its field.
    #[inline(never)]
    fn slow_number_at(&mut self, place: usize) -> Option<u64>
        ensures format { self.new.format ≡ self.old.format }
        ensures text { self.new.text ≡ self.old.text }
        ensures value { result
            ≡ number_in (slice_get (fields_of self.old.format self.old.text) place) }
    {
        let field = self.at(place)?;
        number(field)
    }

    /// Takes the next field, where it has digits, a point and two decimals alone. `None` tells
    /// nothing of the field.
    #[inline]
    fn take_cents(&mut self) -> Option<u64>
        ensures format { self.new.format ≡ self.old.format }
        ensures text { self.new.text ≡ self.old.text }
        ensures value { IfSome result (λ n. Some (pos n)
            ≡ amount_in (slice_get (fields_of self.old.format self.old.text) self.old.place)) }
        ensures small { IfSome result (λ n. n ≤ 10 ^ 15) }
        ensures none { IfNone result (self.new ≡ self.old) }
    {
        let rest = self.rest?;
        let (n, left) = amount_front(self.format, rest)?;
        self.rest = left;
        self.place += 1;
        Some(n)
    }

    /// Reads the amount of money at that place, which may have a minus sign, in cents, within
    /// 10^15 either side.
    #[inline]
    pub fn amount_at(&mut self, place: usize) -> Option<i64>
        ensures format { self.new.format ≡ self.old.format }
        ensures text { self.new.text ≡ self.old.text }
        ensures value { result
            ≡ amount_in (slice_get (fields_of self.old.format self.old.text) place) }
    {
        if self.place == place {
            if let Some(n) = self.take_cents() {
                return Some(signed(false, n));
            }
        }
        self.slow_amount_at(place)
    }

    /// Reads the amount at that place, by its field.
    #[inline(never)]
    fn slow_amount_at(&mut self, place: usize) -> Option<i64>
        ensures format { self.new.format ≡ self.old.format }
        ensures text { self.new.text ≡ self.old.text }
        ensures value { result
            ≡ amount_in (slice_get (fields_of self.old.format self.old.text) place) }
    {
        let field = self.at(place)?;
        amount(field)
    }

    /// Passes over fields up to that place. `None` where there are none at it.
    #[inline]
    fn pass_to(&mut self, place: usize) -> Option<()>
        requires { self.old.place ≤ place }
        ensures format { self.new.format ≡ self.old.format }
        ensures text { self.new.text ≡ self.old.text }
        ensures place { OnSome result (self.new.place ≡ place) }
        ensures none { IfNone result
            (slice_get (parted_of self.old.format self.old.text) place ≡ None) }
    {
        while self.place < place {
            if self.take().is_none() {
                return None;
            }
        }
        Some(())
    }

    /// Takes the text of the next field, if there is one.
    #[inline]
    #[tactic(auto, unfolding(crate::specs::Parting::fields_of))]
    pub fn next(&mut self) -> Option<&'a [u8]>
        ensures format { self.new.format ≡ self.old.format }
        ensures text { self.new.text ≡ self.old.text }
        ensures value { option_copied result
            ≡ slice_get (fields_of self.old.format self.old.text) self.old.place }
        ensures place { self.new.place
            ≡ (if is_some result then self.old.place + 1 else self.old.place) }
    {
        match self.take() {
            Some(field) => Some(text_of(self.format, field)),
            None => None,
        }
    }

    /// Gives the text of the field at that place, counted from 0, if there is one.
    #[inline]
    pub fn at(&mut self, place: usize) -> Option<&'a [u8]>
        ensures format { self.new.format ≡ self.old.format }
        ensures text { self.new.text ≡ self.old.text }
        ensures value { option_copied result
            ≡ slice_get (fields_of self.old.format self.old.text) place }
    {
        self.go_back(place);
        match self.pass_to(place) {
            Some(()) => self.next(),
            None => None,
        }
    }

    /// Gives the place of the next field.
    #[inline]
    pub fn place(&self) -> usize
        ensures { result ≡ self.now.place }
    {
        self.place
    }
}

/// Counts the fields of a line.
pub fn count_fields(format: Format, line: &[u8]) -> usize
    ensures { result ≡ length (fields_of format line.now) }
{
    let mut fields = Fields::new(format, line);
    while fields.next().is_some() {}
    fields.place()
}
