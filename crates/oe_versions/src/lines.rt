//! The lines of an order as they stood at a moment, by their numbers, at most 15. Where a line has
//! no later record, the row that the walk lends is told, and is not looked up again.
ghost use Rattle.std.specs.Prelude.{◌≡◌, Some, map, option_map};
ghost use Rattle.std.specs.FinMap.{get};
ghost use Rattle.oe_model.specs.Delivery.{lines_of};
ghost use Rattle.oe_model.specs.Queries.{status_line};
ghost use Rattle.oe_store.specs.Places.{rows};
ghost use Rattle.oe_versions.specs.Versions.{rows_of, Stand};
ghost use Rattle.oe_rows_of.specs.Columns.{item_of};

use crate::moments::Version;
use oe_requests::{StatusLine, StatusLines};
use oe_rows::{Key, OrderKey, OrderLine, OrderLineKey};
use oe_rows_of::told;
use oe_values::ItemNumber;

impl<'a> Version<'a> {
    /// Answers what Order-Status says of the line that a key had, if it had one, by the row with
    /// its records put back.
    // Apart from the read of what stands, which would clear the room of a row.
    #[inline(never)]
    fn told_before(&self, key: &OrderLineKey) -> Option<StatusLine>
        ensures { result
            ≡ option_map status_line (get (rows_of self.now).order_lines key.now) }
    {
        match self.order_line_before(key) {
            Some(line) => Some(told(&line)),
            None => None,
        }
    }

    /// Gives OL_I_ID of the line that a key had, if it had one, by the row with its records put
    /// back.
    #[inline(never)]
    fn item_before(&self, key: &OrderLineKey) -> Option<ItemNumber>
        ensures { result ≡ item_of (get (rows_of self.now).order_lines key.now) }
    {
        match self.order_line_before(key) {
            Some(line) => Some(line.item),
            None => None,
        }
    }

    /// Answers what Order-Status says of the line that a key had, if it had one. `line` stands
    /// there.
    #[tactic(auto, using(crate::proofs::ReadFacts::line_stands))]
    fn told_at(&self, key: &OrderLineKey, line: &OrderLine) -> Option<StatusLine>
        requires { get (rows self.now.tables).order_lines key.now ≡ Some line.now }
        ensures { result
            ≡ option_map status_line (get (rows_of self.now).order_lines key.now) }
    {
        if self.stands(&Key::OrderLine(*key)) {
            return Some(told(line));
        }
        self.told_before(key)
    }

    /// Gives OL_I_ID of the line that a key had, if it had one. `line` stands there: a walk over
    /// the tables lends it, so that it is not looked up again.
    #[tactic(auto, using(crate::proofs::ReadFacts::line_stands))]
    pub fn item_at(&self, key: &OrderLineKey, line: &OrderLine) -> Option<ItemNumber>
        requires { get (rows self.now.tables).order_lines key.now ≡ Some line.now }
        ensures { result ≡ item_of (get (rows_of self.now).order_lines key.now) }
    {
        if self.stands(&Key::OrderLine(*key)) {
            return Some(line.item);
        }
        self.item_before(key)
    }

    /// Answers what Order-Status says of the lines that an order had, by OL_NUMBER (clause 2.6.3).
    pub fn lines(&self, order: OrderKey) -> StatusLines
        requires { Stand self.now.tables self.now.log }
        ensures { result
            ≡ map (λ e. status_line e.1) (lines_of order (rows_of self.now).order_lines) }
    {
        let mut lines = StatusLines::new();
        for (key, row) in self.tables().order_lines_of(order) {
            let _number = key.number.get();
            let found = self.told_at(key, row);
            if let Some(line) = found {
                lines.push(line);
            }
        }
        lines
    }
}
