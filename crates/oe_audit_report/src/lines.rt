//! Texts, each written behind what waits in a buffer of fixed size. The buffer goes out where the
//! longest line has no room behind it. Only a write can fail, and a beginning of the text is then
//! written. Nothing takes memory.
ghost use Rattle.std.specs.Prelude.{◌≡◌, ◌≤◌, ◌+◌, ◌++◌, ℕ, List, length, codes};
ghost use Rattle.arrayvec.specs.ArrayVec.{array_vec_len};
ghost use Rattle.std.specs.List.{flat_map};
ghost use Rattle.oe_io.specs.Ports.{Streams};
ghost use Rattle.oe_audit_report.specs.Texts.{comma_list};

use oe_io::output::make_room;
use oe_io::ports::{Failed, Outlet};
use oe_texts::{LONGEST, Pending, SIZE, text};

/// What makes a line of an item, or another short text.
pub trait LineOf<X> {
    /// The text.
    ghost line: { Self → X → List ℕ };

    /// Appends the text.
    fn append(&self, item: &X, out: &mut Pending)
        requires { array_vec_len out.old + LONGEST ≤ SIZE }
        ensures { out.new.items ≡ out.old.items ++ line self.now item.now };
}

/// What writes a text of an item, of any length.
pub trait TextOf<X> {
    /// The text.
    ghost text: { Self → X → List ℕ };

    /// Writes the text.
    fn put<W: Outlet>(&self, item: &X, out: &mut Pending, to: &mut W) -> Result<(), Failed>
        ensures { Streams (W.sink to.old) out.old.items (W.sink to.new) out.new.items
            (text self.now item.now) result };
}

/// Writes the line of an item.
pub fn put_line<X, L: LineOf<X>, W: Outlet>(
    by: &L,
    item: &X,
    out: &mut Pending,
    to: &mut W,
) -> Result<(), Failed>
    ensures { Streams (W.sink to.old) out.old.items (W.sink to.new) out.new.items
        (L.line by.now item.now) result }
{
    if let Err(failed) = make_room(out, to) {
        return Err(failed);
    }
    by.append(item, out);
    Ok(())
}

/// Writes the lines of items.
#[derive(Drop)]
pub struct Lines<'a, L> {
    pub of: &'a L,
}

impl<X, L: LineOf<X>> TextOf<X> for Lines<'_, L> {
    ghost text = { λ lines item. L.line lines.of.now item };

    fn put<W: Outlet>(&self, item: &X, out: &mut Pending, to: &mut W) -> Result<(), Failed> {
        put_line(self.of, item, out, to)
    }
}

/// Writes the texts of items, one after another.
pub fn put_each<X, T: TextOf<X>, W: Outlet>(
    by: &T,
    items: &[X],
    out: &mut Pending,
    to: &mut W,
) -> Result<(), Failed>
    ensures { Streams (W.sink to.old) out.old.items (W.sink to.new) out.new.items
        (flat_map (T.text by.now) items.now) result }
{
    for item in items {
        if let Err(failed) = by.put(item, out, to) {
            return Err(failed);
        }
    }
    Ok(())
}

/// Writes the texts of items, each behind a comma.
#[derive(Drop)]
struct BehindComma<'a, T> {
    of: &'a T,
}

impl<X, T: TextOf<X>> TextOf<X> for BehindComma<'_, T> {
    ghost text = { λ behind item. codes "," ++ T.text behind.of.now item };

    fn put<W: Outlet>(&self, item: &X, out: &mut Pending, to: &mut W) -> Result<(), Failed> {
        match put(b",", out, to) {
            Ok(()) => self.of.put(item, out, to),
            Err(failed) => Err(failed),
        }
    }
}

/// Writes the texts of items, with a comma between two of them.
pub(crate) fn put_joined<X, T: TextOf<X>, W: Outlet>(
    by: &T,
    items: &[X],
    out: &mut Pending,
    to: &mut W,
) -> Result<(), Failed>
    ensures { Streams (W.sink to.old) out.old.items (W.sink to.new) out.new.items
        (comma_list (T.text by.now) items.now) result }
{
    let Some((first, others)) = items.split_first() else {
        return Ok(());
    };
    match by.put(first, out, to) {
        Ok(()) => put_each(&BehindComma { of: by }, others, out, to),
        Err(failed) => Err(failed),
    }
}

/// Writes a text.
pub fn put<W: Outlet>(bytes: &[u8], out: &mut Pending, to: &mut W) -> Result<(), Failed>
    requires { length bytes.now ≤ 1_280 }
    ensures { Streams (W.sink to.old) out.old.items (W.sink to.new) out.new.items
        bytes.now result }
{
    if let Err(failed) = make_room(out, to) {
        return Err(failed);
    }
    text(out, bytes);
    Ok(())
}
