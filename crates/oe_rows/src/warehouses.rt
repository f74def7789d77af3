//! Warehouses, and addresses.
//!
//! A row's columns are in their ranges by type. Nothing can fail, and nothing takes memory.
ghost use Rattle.std.specs.Prelude.{◌≡◌, ◌↔◌, ◌∷◌, [], map, IsTrue};

use oe_values::numbers::{Rate, YearToDate};
use oe_values::texts::Text;

/// An address: the columns _STREET_1, _STREET_2, _CITY, _STATE and _ZIP of three tables (clause
/// 1.3.1).
#[derive(Drop)]
pub struct Address {
    pub street_1: Text<0, 20>,
    pub street_2: Text<0, 20>,
    pub city: Text<0, 20>,
    pub state: Text<2, 2>,
    pub zip: Text<9, 9>,
}

/// A WAREHOUSE row without its key (clause 1.3.1).
#[derive(Drop)]
pub struct Warehouse {
    pub name: Text<0, 10>,
    pub address: Address,
    pub tax: Rate,
    pub ytd: YearToDate,
}

impl Address {
    ghost use Rattle.oe_rows.specs.Warehouse.{IsAddress};

    /// Gives the first street line, the second, the city, the state and the zip.
    pub fn lines(&self) -> [&str; 5]
        ensures ranges { IsAddress self.now }
        ensures value { map (λ s. s.now) result ≡ self.now.street_1 ∷ self.now.street_2
            ∷ self.now.city ∷ self.now.state ∷ self.now.zip ∷ [] }
    {
        [
            self.street_1.as_str(),
            self.street_2.as_str(),
            self.city.as_str(),
            self.state.as_str(),
            self.zip.as_str(),
        ]
    }

    /// Copies the value, and takes no memory.
    pub fn copied(&self) -> Self
        ensures { result ≡ self.now }
    {
        Address {
            street_1: self.street_1.copied(),
            street_2: self.street_2.copied(),
            city: self.city.copied(),
            state: self.state.copied(),
            zip: self.zip.copied(),
        }
    }

    /// Tells whether two addresses are equal.
    pub fn is_same(&self, other: &Address) -> bool
        ensures { IsTrue result ↔ (self.now ≡ other.now) }
    {
        self.street_1 == other.street_1
            && self.street_2 == other.street_2
            && self.city == other.city
            && self.state == other.state
            && self.zip == other.zip
    }
}

impl Warehouse {
    ghost use Rattle.oe_rows.specs.Warehouse.{IsWarehouse};

    /// Gives W_TAX and W_YTD.
    pub fn figures(&self) -> (u32, u64)
        ensures ranges { IsWarehouse self.now }
        ensures value { result ≡ (self.now.tax, self.now.ytd) }
    {
        let _name = self.name.as_str();
        let _lines = self.address.lines();
        (self.tax.get(), self.ytd.cents())
    }

    /// Copies the value, and takes no memory.
    pub fn copied(&self) -> Self
        ensures { result ≡ self.now }
    {
        Warehouse {
            name: self.name.copied(),
            address: self.address.copied(),
            tax: self.tax,
            ytd: self.ytd,
        }
    }

    /// Tells whether two warehouses are equal.
    pub fn is_same(&self, other: &Warehouse) -> bool
        ensures { IsTrue result ↔ (self.now ≡ other.now) }
    {
        self.name == other.name
            && self.address.is_same(&other.address)
            && self.tax == other.tax
            && self.ytd == other.ytd
    }
}
