//! The table of what was in the way, and the counts that keep it.
ghost use Rattle.std.specs.Prelude.{◌≡◌, ◌∷◌, ◌≤◌, ◌<◌, ◌+◌, ◌++◌, ℕ, List, [], length, OnOk};
ghost use Rattle.arrayvec.specs.ArrayVec.{array_vec_len};
ghost use Rattle.oe_busy.specs.declared.happenings.Happening.{Happening};
ghost use Rattle.oe_busy.specs.Tables.{kind_line, kind_lines, wait_line, AreCounted, IsTable};

use crate::counts::{Counts, KindCounts, count, none};
use crate::firsts::first_lines;
use crate::happenings::Happening;
use crate::names::NameCounts;
use crate::waits::Waits;
use oe_texts::columns::number;
use oe_texts::{Pending, SIZE, text};
use std::alloc::Global;

/// Why what happened is not counted.
#[derive(Clone, Copy)]
pub enum Uncounted {
    /// Memory was refused.
    NoMemory,
    /// A count is at its end.
    TooMany,
}

/// What happened so far, as far as the table tells it.
#[derive(Drop)]
pub struct Busyness {
    counts: Counts,
    names: NameCounts,
    waits: Waits,
}

/// Appends the line of a kind.
fn kind_line(out: &mut Pending, word: &[u8], of: &KindCounts)
    requires room { array_vec_len out.old + 110 ≤ SIZE }
    requires short { length word.now ≤ 9 }
    ensures items { out.new.items ≡ out.old.items ++ kind_line word.now of.now }
    ensures len { array_vec_len out.new ≤ array_vec_len out.old + 110 }
{
    text(out, word);
    text(out, b" S ");
    number(out, of.shared);
    text(out, b" X ");
    number(out, of.exclusive);
    text(out, b" Busy ");
    number(out, of.busy);
    text(out, b" cycles ");
    number(out, of.cycles);
    text(out, b"\n");
}

/// Appends the lines of all kinds.
fn kind_lines(out: &mut Pending, counts: &Counts)
    requires { array_vec_len out.old + 770 ≤ SIZE }
    ensures items { out.new.items ≡ out.old.items ++ kind_lines counts.now }
    ensures len { array_vec_len out.new ≤ array_vec_len out.old + 770 }
{
    kind_line(out, b"Warehouse", &counts.warehouses);
    kind_line(out, b"District", &counts.districts);
    kind_line(out, b"Customer", &counts.customers);
    kind_line(out, b"Order", &counts.orders);
    kind_line(out, b"Queue", &counts.queues);
    kind_line(out, b"Stock", &counts.stocks);
    kind_line(out, b"Names", &counts.names);
}

/// Appends the line of the longest wait.
fn wait_line(out: &mut Pending, longest: u64)
    requires { array_vec_len out.old + 40 ≤ SIZE }
    ensures items { out.new.items ≡ out.old.items ++ wait_line longest }
    ensures len { array_vec_len out.new ≤ array_vec_len out.old + 40 }
{
    text(out, b"longest wait ");
    number(out, longest);
    text(out, b"\n");
}

impl Busyness {
    /// Counts nothing yet.
    pub fn new(alloc: Global) -> Busyness
        ensures { AreCounted result [] }
    {
        Busyness {
            counts: none(),
            names: NameCounts::new(alloc),
            waits: Waits::new(),
        }
    }

    /// Counts what happened at one more line. After an error the counts are no table's.
    ///
    /// `NoMemory`: memory was refused, which a name wants that was not in the way before.
    /// `TooMany`: a count is at its end.
    pub fn note(&mut self, happening: &Happening) -> Result<(), Uncounted>
        ensures { (hs : List Happening) → AreCounted self.old hs →
            OnOk result (AreCounted self.new (happening.now ∷ hs)) }
    {
        if let Err(cause) = count(&mut self.counts, happening) {
            return Err(cause);
        }
        if let Err(cause) = self.waits.note(happening) {
            return Err(cause);
        }
        self.names.note(happening)
    }

    /// Appends the table: a line of each kind of name, the names most often in the way, and the
    /// longest wait.
    pub fn tell(&self, out: &mut Pending)
        requires { array_vec_len out.old + 1_600 ≤ SIZE }
        ensures { (hs : List Happening) → AreCounted self.now hs → (text : List ℕ)
            × IsTable hs text × (out.new.items ≡ out.old.items ++ text) }
    {
        kind_lines(out, &self.counts);
        first_lines(out, &self.names);
        wait_line(out, self.waits.longest);
    }
}
