//! How often transactions were answered `Busy`, by the kind of the lock's name.
ghost use Rattle.std.specs.Prelude.{◌≡◌};
ghost use Rattle.oe_deeds.specs.Busy.{no_counts, count_with, count_sums, together};

use oe_rows::Name;

/// How often each kind of name was in the way. No count goes past the greatest number.
#[derive(Clone, Copy)]
pub struct BusyCounts {
    pub warehouses: u64,
    pub districts: u64,
    pub customers: u64,
    pub orders: u64,
    pub queues: u64,
    pub stocks: u64,
    pub names: u64,
}

// Counts once more.
fn count(counted: &mut u64)
    ensures { counted.new ≡ together counted.old 1 }
{
    *counted = counted.saturating_add(1);
}

impl BusyCounts {
    /// Counts nothing.
    pub fn none() -> BusyCounts
        ensures { result ≡ no_counts }
    {
        BusyCounts {
            warehouses: 0,
            districts: 0,
            customers: 0,
            orders: 0,
            queues: 0,
            stocks: 0,
            names: 0,
        }
    }

    /// Counts a name that was in the way.
    pub fn note(&mut self, name: &Name)
        ensures { self.new ≡ count_with name.now self.old }
    {
        match name {
            Name::Warehouse(_) => count(&mut self.warehouses),
            Name::District(_) => count(&mut self.districts),
            Name::Customer(_) => count(&mut self.customers),
            Name::Order(_) => count(&mut self.orders),
            Name::Queue(_) => count(&mut self.queues),
            Name::Stock(_) => count(&mut self.stocks),
            Name::Names(_, _) => count(&mut self.names),
        }
    }

    /// Adds the counts of another.
    pub fn add(&mut self, other: &BusyCounts)
        ensures { self.new ≡ count_sums self.old other.now }
    {
        *self = BusyCounts {
            warehouses: self.warehouses.saturating_add(other.warehouses),
            districts: self.districts.saturating_add(other.districts),
            customers: self.customers.saturating_add(other.customers),
            orders: self.orders.saturating_add(other.orders),
            queues: self.queues.saturating_add(other.queues),
            stocks: self.stocks.saturating_add(other.stocks),
            names: self.names.saturating_add(other.names),
        };
    }
}
