//! What is kept of WAREHOUSE, DISTRICT, CUSTOMER, ITEM and STOCK rows to compare them with earlier
//! ones: by key how many there are and their print, and of a STOCK row (S_QUANTITY + S_YTD) mod 91.
//!
//! A print is 64 bits of the columns that no transaction changes; the caller chooses them. Where a
//! key stands more than once, its greatest print counts. Only memory can be refused; a row may
//! then be in part of the sums.
ghost use Rattle.std.specs.Prelude.{◌≡◌, ◌++◌, ◌∷◌, [], List, OnOk, OnSome};
ghost use Rattle.oe_facts.specs.declared.tables.Fact.TheVariants as fact;
ghost use Rattle.oe_tally.specs.Tallies.{SameTotals};
ghost use Rattle.oe_earlier.specs.Traces.{trace_of, traces_joined, residue_of, Traced, no_rows, with_row, traced_together};
ghost use Rattle.oe_earlier.specs.Keeping.{KeepsTraces, AreSettledTraces};
ghost use Rattle.oe_earlier.specs.declared.traces.Trace.{Trace};

use oe_facts::Fact;
use oe_facts::facts::StockFact;
use oe_facts::keys::{CustomerId, DistrictId, StockId};
use oe_tally::join::Join;
use oe_tally::tally::Tally;
use std::alloc::{AllocError, Global};

/// Of the rows of one key their greatest print, and their number, at most 2^32 - 1.
#[derive(Clone, Copy)]
pub struct Trace {
    pub print: u64,
    pub rows: u32,
}

impl Join for Trace {
    ghost use Rattle.oe_earlier.specs.Traces.{traces_joined};
    ghost use Rattle.oe_earlier.specs.TraceLaws.{traces_associative, traces_commutative};

    ghost joined = { traces_joined };

    ghost associative = { traces_associative };

    ghost commutative = { traces_commutative };

    fn join(self, other: Self) -> Self {
        Trace {
            print: self.print.max(other.print),
            rows: self.rows.saturating_add(other.rows),
        }
    }
}

impl Trace {
    /// Gives what one row brings.
    pub fn of(print: u64) -> Self
        ensures { result ≡ trace_of print }
    {
        Trace { print, rows: 1 }
    }
}

/// Of the STOCK rows of one key the greatest (S_QUANTITY + S_YTD) mod 91, which is 0 to 90.
#[derive(Clone, Copy)]
pub struct Residue {
    pub residue: i32,
}

impl Join for Residue {
    ghost use Rattle.oe_earlier.specs.Traces.{residues_joined};
    ghost use Rattle.oe_earlier.specs.TraceLaws.{residues_associative, residues_commutative};

    ghost joined = { residues_joined };

    ghost associative = { residues_associative };

    ghost commutative = { residues_commutative };

    fn join(self, other: Self) -> Self {
        Residue {
            residue: self.residue.max(other.residue),
        }
    }
}

impl Residue {
    /// Gives what one row brings.
    pub fn of(fact: &StockFact) -> Self
        ensures { result ≡ residue_of fact.now }
    {
        let sum = fact.quantity as i128 + fact.ytd as i128;
        Residue {
            residue: sum.rem_euclid(91) as i32,
        }
    }
}

/// What is kept of rows.
#[derive(Drop)]
pub struct Traces {
    pub warehouses: Tally<u32, Trace>,
    pub districts: Tally<DistrictId, Trace>,
    pub customers: Tally<CustomerId, Trace>,
    pub items: Tally<u32, Trace>,
    pub stocks: Tally<StockId, Trace>,
    pub residues: Tally<StockId, Residue>,
}

// Takes the print of a row.
fn put<K: Ord + Copy>(tally: &mut Tally<K, Trace>, key: K, print: u64) -> Result<(), AllocError>
    ensures { OnOk result ((es : List (K × Trace)) → SameTotals K.eq traces_joined es tally.old
        → SameTotals K.eq traces_joined (es ++ (key, trace_of print) ∷ []) tally.new) }
{
    tally.add(key, Trace::of(print))
}

// Takes the entries of another tally in, where one of both has none.
fn take_all<K: Ord + Copy, V: Join>(kept: &mut Tally<K, V>, other: Tally<K, V>) -> Option<()>
    ensures { OnSome result (kept.new ≡ kept.old ++ other) }
{
    if other.entries().is_empty() {
        return Some(());
    }
    if kept.entries().is_empty() {
        *kept = other;
        return Some(());
    }
    None
}

impl Traces {
    /// Begins without a row.
    pub fn new(alloc: Global) -> Self
        ensures { KeepsTraces no_rows result }
    {
        Traces {
            warehouses: Tally::new(alloc),
            districts: Tally::new(alloc),
            customers: Tally::new(alloc),
            items: Tally::new(alloc),
            stocks: Tally::new(alloc),
            residues: Tally::new(alloc),
        }
    }

    // Takes a STOCK row in.
    fn add_stock(&mut self, row: &StockFact, print: u64) -> Result<(), AllocError>
        ensures { OnOk result ((t : Traced) → KeepsTraces t self.old
            → KeepsTraces (with_row t print (fact.Stock row.now)) self.new) }
    {
        if let Err(refused) = put(&mut self.stocks, row.key, print) {
            return Err(refused);
        }
        self.residues.add(row.key, Residue::of(row))
    }

    /// Takes a row in, by its fact and its print.
    pub fn take(&mut self, fact: &Fact, print: u64) -> Result<(), AllocError>
        ensures { OnOk result ((t : Traced) → KeepsTraces t self.old
            → KeepsTraces (with_row t print fact.now) self.new) }
    {
        match fact {
            Fact::Warehouse(row) => put(&mut self.warehouses, row.warehouse, print),
            Fact::District(row) => put(&mut self.districts, row.key, print),
            Fact::Customer(row) => put(&mut self.customers, row.key, print),
            Fact::Item(row) => put(&mut self.items, row.item, print),
            Fact::Stock(row) => self.add_stock(row, print),
            Fact::History(_) => Ok(()),
            Fact::NewOrder(_) => Ok(()),
            Fact::Order(_) => Ok(()),
            Fact::OrderLine(_) => Ok(()),
        }
    }

    /// Takes in what is kept of rows of other tables. None where both have rows of one; some of the
    /// sums may have theirs then.
    pub fn append(&mut self, other: Traces) -> Option<()>
        ensures { OnSome result ((t u : Traced) → KeepsTraces t self.old → KeepsTraces u other
            → KeepsTraces (traced_together t u) self.new) }
    {
        let Traces {
            warehouses,
            districts,
            customers,
            items,
            stocks,
            residues,
        } = other;
        let in_warehouses = take_all(&mut self.warehouses, warehouses);
        let in_districts = take_all(&mut self.districts, districts);
        let in_customers = take_all(&mut self.customers, customers);
        let in_items = take_all(&mut self.items, items);
        let in_stocks = take_all(&mut self.stocks, stocks);
        let in_residues = take_all(&mut self.residues, residues);
        in_warehouses
            .and(in_districts)
            .and(in_customers)
            .and(in_items)
            .and(in_stocks)
            .and(in_residues)
    }

    /// Puts all sums in the order of their keys.
    pub fn settle(&mut self)
        ensures stays { (t : Traced) → KeepsTraces t self.old → KeepsTraces t self.new }
        ensures settled { AreSettledTraces self.new }
    {
        self.warehouses.settle();
        self.districts.settle();
        self.customers.settle();
        self.items.settle();
        self.stocks.settle();
        self.residues.settle();
    }
}
