//! What a transaction finds in a district by more than a key.
ghost use Rattle.std.specs.Prelude.{◌≡◌, IsSome, option_map};
ghost use Rattle.oe_rows.specs.declared.locks.Name.TheVariants as name;
ghost use Rattle.oe_model.specs.Choice.{namesakes, middle};
ghost use Rattle.oe_model.specs.Delivery.{oldest};
ghost use Rattle.oe_model.specs.Keys.{customer_in};
ghost use Rattle.oe_engine.specs.View.{view_of, IsOpen};

use crate::engine::{Engine, Tx};
use oe_rows::{CustomerKey, DistrictKey};
use oe_values::{LastName, OrderNumber};

impl Engine {
    /// Gives the least NO_O_ID of a district's orders that are not delivered (clause 2.7.4.2), for
    /// an open transaction that holds the name of the district's queue. It takes no memory.
    #[tactic(auto, unfolding(crate::specs::View::view_of, crate::specs::View::view_from))]
    pub fn oldest(&self, tx: &Tx, district: &DistrictKey) -> Option<OrderNumber>
        requires open { IsOpen self.now tx.now }
        requires held { IsSome ((view_of self.now).held tx.now.terminal (name.Queue district.now)) }
        ensures { result ≡ oldest district.now (view_of self.now).rows.new_orders }
    {
        self.tables.oldest(district)
    }

    /// Finds the customer of a district and last name in position n / 2, rounded up, of n, by
    /// C_FIRST and where that ties by C_ID (clauses 2.5.2.2 and 2.6.2.2), for an open transaction
    /// that holds the name of who has that last name. It takes no memory.
    #[tactic(auto, unfolding(crate::specs::View::view_of, crate::specs::View::view_from))]
    pub fn middle(&self, tx: &Tx, district: &DistrictKey, last: &LastName) -> Option<CustomerKey>
        requires open { IsOpen self.now tx.now }
        requires held { IsSome ((view_of self.now).held tx.now.terminal
            (name.Names district.now last.now)) }
        ensures { result
            ≡ option_map (customer_in district.now)
            (middle (namesakes district.now last.now (view_of self.now).rows.customers)) }
    {
        let number = self.tables.middle(district, &last.as_text())?;
        Some(district.customer(number))
    }
}
