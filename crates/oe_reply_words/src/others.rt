//! Which word of a reply differs from this order's, what that word is, and which line changed its
//! row last. Nothing here takes memory.
ghost use Rattle.std.specs.Prelude.{◌≡◌, ◌≤◌, ◌+◌, ◌++◌, length};
ghost use Rattle.arrayvec.specs.ArrayVec.{array_vec_len};
ghost use Rattle.oe_reply_words.specs.Parts.{is_same};
ghost use Rattle.oe_reply_words.specs.Others.{seen_of, other_part, answered_by};
ghost use Rattle.oe_reply_words.specs.Others.{payment_word, order_word, delivery_word, deliveries_word, rename_word, status_word, other_word};
ghost use Rattle.oe_reply_words.specs.Others.{word_name, numbered_from, place_text, part_name, has_parts, both_text, word_text, other_line};

use crate::parts::{first_of, is_same, next_part};
use crate::rows::{Change, last_line};
use oe_texts::{Pending, SIZE, decimal, text};

/// What a line is answered, by the first word.
#[derive(Clone, Copy)]
pub(crate) enum Answered {
    Payment,
    NewOrder,
    Delivery,
    Deliveries,
    Rename,
    Status,
    /// A number of items, or a refusal.
    Other,
}

/// A part that differs, by its place from 0. It is empty in a text that has no such part.
#[derive(Clone, Copy)]
pub(crate) struct Other<'a> {
    pub(crate) place: usize,
    pub(crate) theirs: &'a [u8],
    pub(crate) ours: &'a [u8],
}

/// Finds the first part that differs.
pub(crate) fn other_part<'a>(theirs: &'a [u8], ours: &'a [u8], mark: u8) -> Other<'a>
    ensures other { seen_of result ≡ other_part mark theirs.now ours.now }
    ensures place { result.place ≤ length theirs.now + 1 }
    ensures theirs { length result.theirs.now ≤ length theirs.now }
    ensures ours { length result.ours.now ≤ length ours.now }
{
    let mut left = theirs;
    let mut right = ours;
    let mut place = 0usize;
    loop {
        let their_cut = next_part(left, mark);
        let our_cut = next_part(right, mark);
        if !is_same(their_cut.part, our_cut.part) {
            return Other {
                place,
                theirs: their_cut.part,
                ours: our_cut.part,
            };
        }
        place += 1;
        let Some(their_rest) = their_cut.rest else {
            return Other {
                place,
                theirs: b"",
                ours: first_of(our_cut.rest, mark),
            };
        };
        let Some(our_rest) = our_cut.rest else {
            return Other {
                place,
                theirs: next_part(their_rest, mark).part,
                ours: b"",
            };
        };
        left = their_rest;
        right = our_rest;
    }
}

// Tells what is answered, by the first word.
fn answered_by(word: &[u8]) -> Answered
    ensures { result ≡ answered_by word.now }
{
    if is_same(word, b"payment") {
        Answered::Payment
    } else if is_same(word, b"neworder") {
        Answered::NewOrder
    } else if is_same(word, b"delivery") {
        Answered::Delivery
    } else if is_same(word, b"deliveries") {
        Answered::Deliveries
    } else if is_same(word, b"rename") {
        Answered::Rename
    } else if is_same(word, b"status") {
        Answered::Status
    } else {
        Answered::Other
    }
}

// Names a word of a payment's reply.
fn payment_word(place: usize) -> &'static [u8]
    ensures value { result.now ≡ payment_word place }
    ensures short { length result.now ≤ 20 }
{
    match place {
        0 => b"reply",
        1 => b"customer",
        2 => b"last name",
        3 => b"credit",
        4 => b"balance",
        _ => b"word",
    }
}

// Names a word of an order's reply.
fn order_word(place: usize) -> &'static [u8]
    ensures value { result.now ≡ order_word place }
    ensures short { length result.now ≤ 20 }
{
    match place {
        0 => b"reply",
        1 => b"order",
        2 => b"last name",
        3 => b"credit",
        4 => b"total",
        _ => b"item",
    }
}

// Names a word of a delivery's reply.
fn delivery_word(place: usize) -> &'static [u8]
    ensures value { result.now ≡ delivery_word place }
    ensures short { length result.now ≤ 20 }
{
    match place {
        0 => b"reply",
        1 => b"order",
        2 => b"customer",
        3 => b"amount",
        _ => b"word",
    }
}

// Names a word of ten deliveries' reply.
fn deliveries_word(place: usize) -> &'static [u8]
    ensures value { result.now ≡ deliveries_word place }
    ensures short { length result.now ≤ 20 }
{
    match place {
        0 => b"reply",
        _ => b"district",
    }
}

// Names a word of a rename's reply.
fn rename_word(place: usize) -> &'static [u8]
    ensures value { result.now ≡ rename_word place }
    ensures short { length result.now ≤ 20 }
{
    match place {
        0 => b"reply",
        1 => b"customer",
        2 => b"last name",
        3 => b"first name",
        _ => b"word",
    }
}

// Names a word of an order status.
fn status_word(place: usize) -> &'static [u8]
    ensures value { result.now ≡ status_word place }
    ensures short { length result.now ≤ 20 }
{
    match place {
        0 => b"reply",
        1 => b"customer",
        2 => b"balance",
        3 => b"order",
        4 => b"entry date",
        5 => b"carrier",
        _ => b"order line",
    }
}

// Names a word of another answer.
fn other_word(place: usize) -> &'static [u8]
    ensures value { result.now ≡ other_word place }
    ensures short { length result.now ≤ 20 }
{
    match place {
        0 => b"reply",
        1 => b"number",
        _ => b"word",
    }
}

// Names a word of an answer.
fn word_name(answered: Answered, place: usize) -> &'static [u8]
    ensures value { result.now ≡ word_name answered place }
    ensures short { length result.now ≤ 20 }
{
    match answered {
        Answered::Payment => payment_word(place),
        Answered::NewOrder => order_word(place),
        Answered::Delivery => delivery_word(place),
        Answered::Deliveries => deliveries_word(place),
        Answered::Rename => rename_word(place),
        Answered::Status => status_word(place),
        Answered::Other => other_word(place),
    }
}

// Gives the place from which on words of an answer have numbers.
fn numbered_from(answered: Answered) -> usize
    ensures value { result ≡ numbered_from answered }
    ensures small { result ≤ 6 }
{
    match answered {
        Answered::Payment | Answered::NewOrder => 5,
        Answered::Delivery | Answered::Rename => 4,
        Answered::Deliveries => 1,
        Answered::Status => 6,
        Answered::Other => 2,
    }
}

// Appends what the word at a place is.
fn tell_place(out: &mut Pending, answered: Answered, place: usize)
    requires room { array_vec_len out.old + 60 ≤ SIZE }
    requires place { place ≤ 1_025 }
    ensures items { out.new.items ≡ out.old.items ++ place_text answered place }
    ensures len { array_vec_len out.new ≤ array_vec_len out.old + 60 }
{
    text(out, word_name(answered, place));
    let first = numbered_from(answered);
    if place >= first {
        text(out, b" ");
        decimal(out, (place + 1 - first) as u128);
    }
}

// Names a part of an item, or of a district's delivery.
fn part_name(answered: Answered, place: usize) -> &'static [u8]
    ensures value { result.now ≡ part_name answered place }
    ensures short { length result.now ≤ 10 }
{
    if matches!(answered, Answered::NewOrder) {
        return match place {
            0 => b" brand",
            1 => b" stock",
            _ => b" amount",
        };
    }
    match place {
        0 => b" number",
        1 => b" order",
        2 => b" customer",
        _ => b" amount",
    }
}

// Tells whether the word at a place has parts.
fn has_parts(answered: Answered, place: usize) -> bool
    ensures { result ≡ has_parts answered place }
{
    match answered {
        Answered::NewOrder => place > 4,
        Answered::Deliveries => place > 0,
        _ => false,
    }
}

// Appends what a text tells, and what this order gives.
fn tell_both(out: &mut Pending, theirs: &[u8], ours: &[u8])
    requires { array_vec_len out.old + length theirs.now + length ours.now + 20 ≤ SIZE }
    ensures items { out.new.items ≡ out.old.items ++ both_text theirs.now ours.now }
    ensures len { array_vec_len out.new
        ≤ array_vec_len out.old + length theirs.now + length ours.now + 20 }
{
    text(out, b" ");
    text(out, theirs);
    text(out, b", in this order ");
    text(out, ours);
}

// Appends a word that differs, or the part of it that does.
fn tell_word(out: &mut Pending, answered: Answered, other: &Other)
    requires { array_vec_len out.old + length other.now.theirs.now + length other.now.ours.now + 30
        ≤ SIZE }
    ensures items { out.new.items ≡ out.old.items ++ word_text answered (seen_of other.now) }
    ensures len { array_vec_len out.new
        ≤ array_vec_len out.old + length other.now.theirs.now + length other.now.ours.now + 30 }
{
    if has_parts(answered, other.place) {
        let part = other_part(other.theirs, other.ours, b':');
        text(out, part_name(answered, part.place));
        tell_both(out, part.theirs, part.ours);
        return;
    }
    tell_both(out, other.theirs, other.ours);
}

/// Appends the line that tells which word of a reply differs, and which line changed its row last.
pub fn other_line(out: &mut Pending, number: u128, theirs: &[u8], ours: &[u8], last: Option<Change>)
    requires theirs { length theirs.now ≤ 1_024 }
    requires room { array_vec_len out.old + length theirs.now + length ours.now + 320 ≤ SIZE }
    ensures { out.new.items ≡ out.old.items ++ other_line number theirs.now ours.now last }
{
    let answered = answered_by(next_part(ours, b' ').part);
    let other = other_part(theirs, ours, b' ');
    text(out, b"line ");
    decimal(out, number);
    text(out, b": ");
    tell_place(out, answered, other.place);
    tell_word(out, answered, &other);
    last_line(out, last);
    text(out, b"\n");
}
