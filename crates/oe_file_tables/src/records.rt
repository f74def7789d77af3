//! A record of a CSV file (RFC 4180), read as the line that has a tab between two fields.
//!
//! A field may stand in quotes: in these a comma is of the field, and two quotes are one. A field
//! that holds a tab makes no record. An empty field without quotes is a null where its column may
//! be null.
ghost use Rattle.std.specs.Prelude.{◌≡◌, ◌++◌, ◌∷◌, [], Some};
ghost use Rattle.std.specs.Option.{option_map};
ghost use Rattle.oe_file_tables.specs.declared.records.Within.TheVariants as within;
ghost use Rattle.oe_file_tables.specs.Record.{past_column, may_be_null, empty_text, of_field, field_ends, step, at_end, line_of, line_onward, Makes, ComesTo};

use std::alloc::Global;

/// Where a record stands between two of its bytes.
#[derive(Clone, Copy)]
pub enum Within {
    /// At the beginning of a field.
    Start,
    /// In a field without quotes.
    Plain,
    /// In the quotes of a field.
    Quoted,
    /// Behind a quote in these: it ends them, or a second one follows.
    Quote,
}

/// Why a record is not read.
#[derive(Clone, Copy)]
pub enum Unread {
    /// Its bytes are no record: a quote stands where none may, or a field holds a tab.
    NoRecord,
    /// There was no memory.
    NoMemory,
}

/// A record, and the line of its fields so far.
#[derive(Drop)]
pub(crate) struct Record {
    line: Vec<u8>,
    within: Within,
    // How many columns stand before the one that may be null, unless it is passed.
    before_null: Option<usize>,
}

/// Gives how many columns stand before the one that may be null, behind one column more.
fn past_column(before_null: Option<usize>) -> Option<usize>
    ensures { result ≡ past_column before_null }
{
    match before_null {
        Some(0) => None,
        Some(n) => Some(n - 1),
        None => None,
    }
}

/// Tells whether the next column may be null.
fn may_be_null(before_null: Option<usize>) -> bool
    ensures { result ≡ may_be_null before_null }
{
    match before_null {
        Some(n) => n == 0,
        None => false,
    }
}

impl Record {
    /// Makes a record without a byte.
    pub(crate) fn new(alloc: Global) -> Self {
        Record {
            line: Vec::new(alloc),
            within: Within::Start,
            before_null: None,
        }
    }

    /// Gives the line of the fields.
    pub(crate) fn line(&self) -> &[u8]
        ensures { result.now ≡ self.now.line.items }
    {
        self.line.as_slice()
    }

    // Appends a byte to the line, behind which the record stands so.
    #[inline]
    fn put(&mut self, byte: u8, within: Within) -> Result<(), Unread>
        ensures { ComesTo (Some (self.old.line.items ++ byte ∷ [], within, self.old.before_null))
            self.new.line.items self.new.within self.new.before_null result }
    {
        self.within = within;
        match self.line.push(byte) {
            Ok(()) => Ok(()),
            Err(_) => Err(Unread::NoMemory),
        }
    }

    // Takes a byte of a field.
    #[inline]
    fn add(&mut self, byte: u8, within: Within) -> Result<(), Unread>
        ensures { ComesTo (line_onward self.old.line.items
            (of_field byte within self.old.before_null))
            self.new.line.items self.new.within self.new.before_null result }
    {
        if byte == b'\t' {
            return Err(Unread::NoRecord);
        }
        self.put(byte, within)
    }

    // Ends a field.
    #[inline]
    fn end_field(&mut self) -> Result<(), Unread>
        ensures { ComesTo (line_onward self.old.line.items (field_ends [] self.old.before_null))
            self.new.line.items self.new.within self.new.before_null result }
    {
        self.before_null = past_column(self.before_null);
        self.put(b'\t', Within::Start)
    }

    // Ends a field that has no byte and no quotes.
    #[inline]
    fn end_empty(&mut self) -> Result<(), Unread>
        ensures { ComesTo (line_onward self.old.line.items
            (field_ends (empty_text self.old.before_null) self.old.before_null))
            self.new.line.items self.new.within self.new.before_null result }
    {
        if !may_be_null(self.before_null) {
            return self.end_field();
        }
        match self.put(b'-', Within::Start) {
            Ok(()) => self.end_field(),
            Err(_) => Err(Unread::NoMemory),
        }
    }

    // Takes a byte at the beginning of a field.
    #[inline]
    #[tactic(auto, unfolding(crate::specs::Record::step))]
    fn take_first(&mut self, byte: u8) -> Result<(), Unread>
        ensures { ComesTo (line_onward self.old.line.items
            (step byte within.Start self.old.before_null))
            self.new.line.items self.new.within self.new.before_null result }
    {
        if byte == b',' {
            return self.end_empty();
        }
        if byte == b'"' {
            self.within = Within::Quoted;
            return Ok(());
        }
        self.add(byte, Within::Plain)
    }

    // Takes a byte in a field without quotes.
    #[inline]
    #[tactic(auto, unfolding(crate::specs::Record::step))]
    fn take_plain(&mut self, byte: u8) -> Result<(), Unread>
        ensures { ComesTo (line_onward self.old.line.items
            (step byte within.Plain self.old.before_null))
            self.new.line.items self.new.within self.new.before_null result }
    {
        if byte == b',' {
            return self.end_field();
        }
        if byte == b'"' {
            return Err(Unread::NoRecord);
        }
        self.add(byte, Within::Plain)
    }

    // Takes a byte in the quotes of a field.
    #[inline]
    #[tactic(auto, unfolding(crate::specs::Record::step))]
    fn take_quoted(&mut self, byte: u8) -> Result<(), Unread>
        ensures { ComesTo (line_onward self.old.line.items
            (step byte within.Quoted self.old.before_null))
            self.new.line.items self.new.within self.new.before_null result }
    {
        if byte == b'"' {
            self.within = Within::Quote;
            return Ok(());
        }
        self.add(byte, Within::Quoted)
    }

    // Takes a byte behind a quote in the quotes of a field.
    #[inline]
    #[tactic(auto, unfolding(crate::specs::Record::step))]
    fn take_behind_quote(&mut self, byte: u8) -> Result<(), Unread>
        ensures { ComesTo (line_onward self.old.line.items
            (step byte within.Quote self.old.before_null))
            self.new.line.items self.new.within self.new.before_null result }
    {
        if byte == b',' {
            return self.end_field();
        }
        if byte == b'"' {
            return self.put(byte, Within::Quoted);
        }
        Err(Unread::NoRecord)
    }

    // Takes the next byte.
    #[inline]
    fn take(&mut self, byte: u8) -> Result<(), Unread>
        ensures { ComesTo (line_onward self.old.line.items
            (step byte self.old.within self.old.before_null))
            self.new.line.items self.new.within self.new.before_null result }
    {
        match self.within {
            Within::Start => self.take_first(byte),
            Within::Plain => self.take_plain(byte),
            Within::Quoted => self.take_quoted(byte),
            Within::Quote => self.take_behind_quote(byte),
        }
    }

    // Ends the last field, which has no byte and no quotes.
    fn end_last(&mut self) -> Result<(), Unread>
        ensures { Makes (Some (self.old.line.items ++ empty_text self.old.before_null))
            self.new.line.items result }
    {
        if !may_be_null(self.before_null) {
            return Ok(());
        }
        match self.put(b'-', Within::Start) {
            Ok(()) => Ok(()),
            Err(_) => Err(Unread::NoMemory),
        }
    }

    // Ends the record.
    fn end(&mut self) -> Result<(), Unread>
        ensures { Makes (option_map (λ s. self.old.line.items ++ s)
            (at_end self.old.within self.old.before_null)) self.new.line.items result }
    {
        match self.within {
            Within::Start => self.end_last(),
            Within::Plain => Ok(()),
            Within::Quoted => Err(Unread::NoRecord),
            Within::Quote => Ok(()),
        }
    }

    /// Reads these bytes as a record, whose line `line` gives then. `before_null` counts the
    /// columns before the one that may be null, where one may be.
    pub(crate) fn read(&mut self, bytes: &[u8], before_null: Option<usize>) -> Result<(), Unread>
        ensures { Makes (line_of before_null bytes.now) self.new.line.items result }
    {
        self.line.clear();
        self.within = Within::Start;
        self.before_null = before_null;
        for byte in bytes {
            if let Err(unread) = self.take(*byte) {
                return Err(unread);
            }
        }
        self.end()
    }
}
