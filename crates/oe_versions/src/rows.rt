//! Rows as they stood at a moment: what the key's records that are open or of later commits leave
//! of the row that stands.
ghost use Rattle.std.specs.Prelude.{◌≡◌, is_some};
ghost use Rattle.std.specs.FinMap.{get};
ghost use Rattle.oe_model.specs.Rows.{row_at};
ghost use Rattle.oe_undo.specs.Held.{all_held, of_key, count_later};
ghost use Rattle.oe_log.specs.Ticks.{ticks_with};
ghost use Rattle.oe_versions.specs.Versions.{rows_of};

use crate::moments::Version;
use oe_rows::{HistoryKey, Key, NewOrderKey, Order, OrderKey, OrderLine, OrderLineKey, Row};
use oe_store::copies::row_of;
use oe_undo::Ticks;

// Each of these takes the row of a key from a copy of the row that stands, on which records are put
// back. They are apart from the reads of what stands, which would clear the room of a row.
impl<'a> Version<'a> {
    /// Tells whether a key had a HISTORY row.
    #[inline(never)]
    fn had_history(&self, key: &HistoryKey) -> bool
        ensures { result ≡ is_some (get (rows_of self.now).histories key.now) }
    {
        self.row(&Key::History(*key)).is_some()
    }

    /// Tells whether a key had a NEW-ORDER row.
    #[inline(never)]
    fn had_new_order(&self, key: &NewOrderKey) -> bool
        ensures { result ≡ is_some (get (rows_of self.now).new_orders key.now) }
    {
        self.row(&Key::NewOrder(*key)).is_some()
    }

    /// Gives the ORDER row that a key had, if it had one.
    #[inline(never)]
    fn order_before(&self, key: &OrderKey) -> Option<Order>
        ensures { result ≡ get (rows_of self.now).orders key.now }
    {
        match self.row(&Key::Order(*key)) {
            Some(Row::Order(row)) => Some(row),
            _ => None,
        }
    }

    /// Gives the ORDER-LINE row that a key had, if it had one.
    #[inline(never)]
    pub(crate) fn order_line_before(&self, key: &OrderLineKey) -> Option<OrderLine>
        ensures { result ≡ get (rows_of self.now).order_lines key.now }
    {
        match self.row(&Key::OrderLine(*key)) {
            Some(Row::OrderLine(row)) => Some(row),
            _ => None,
        }
    }
}

impl<'a> Version<'a> {
    /// Gives a copy of the row that a key had, if it had one.
    pub fn row(&self, key: &Key) -> Option<Row>
        ensures { result ≡ row_at (rows_of self.now) key.now }
    {
        let mut ticks = Ticks::new();
        self.row_counted(key, &mut ticks)
    }

    /// Gives the row as `row` does, and each record that is read ticks: the key's own that are open
    /// or of commits after the moment, each once.
    #[tactic(auto, using(crate::proofs::FoundFacts::is_kept))]
    pub fn row_counted(&self, key: &Key, ticks: &mut Ticks) -> Option<Row>
        ensures row { result ≡ row_at (rows_of self.now) key.now }
        ensures ticks { ticks.new
            ≡ ticks_with ticks.old (count_later self.now.moment
            (of_key key.now (all_held self.now.log))) }
    {
        self.undo.is_chained();
        let now = row_of(self.tables(), key);
        self.undo.row_at(key, self.moment, now, ticks)
    }

    /// Tells whether a key had a HISTORY row.
    pub fn has_history(&self, key: &HistoryKey) -> bool
        ensures { result ≡ is_some (get (rows_of self.now).histories key.now) }
    {
        if self.stands(&Key::History(*key)) {
            return self.tables().history(*key).is_some();
        }
        self.had_history(key)
    }

    /// Tells whether a key had a NEW-ORDER row.
    pub fn has_new_order(&self, key: &NewOrderKey) -> bool
        ensures { result ≡ is_some (get (rows_of self.now).new_orders key.now) }
    {
        if self.stands(&Key::NewOrder(*key)) {
            return self.tables().new_order(*key).is_some();
        }
        self.had_new_order(key)
    }

    /// Gives a copy of the ORDER row that a key had, if it had one.
    pub fn order(&self, key: &OrderKey) -> Option<Order>
        ensures { result ≡ get (rows_of self.now).orders key.now }
    {
        if self.stands(&Key::Order(*key)) {
            return Some(*self.tables().order(*key)?);
        }
        self.order_before(key)
    }

    /// Gives a copy of the ORDER-LINE row that a key had, if it had one.
    pub fn order_line(&self, key: &OrderLineKey) -> Option<OrderLine>
        ensures { result ≡ get (rows_of self.now).order_lines key.now }
    {
        if self.stands(&Key::OrderLine(*key)) {
            return Some(self.tables().order_line(*key)?.copied());
        }
        self.order_line_before(key)
    }
}
