//! Customers.
//!
//! A row's columns are in their ranges by type. Columns that are written or told together stand in
//! a group of their own: the name, the address, the account. Nothing can fail, and nothing takes
//! memory.
ghost use Rattle.std.specs.Prelude.{◌≡◌, ◌↔◌, ◌∷◌, [], map, IsTrue};

use crate::warehouses::Address;
use oe_values::numbers::{Balance, Count, Rate, YearToDate};
use oe_values::stamps::Stamp;
use oe_values::texts::Text;

/// C_FIRST, C_MIDDLE and C_LAST (clause 1.3.1).
#[derive(Drop)]
pub struct CustomerName {
    pub first: Text<0, 16>,
    pub middle: Text<2, 2>,
    pub last: Text<0, 16>,
}

/// C_CREDIT: `GC` or `BC` (clause 1.3.1).
#[derive(Clone, Copy, PartialEq, Eq)]
pub enum Credit {
    Good,
    Bad,
}

/// A customer's money and counts: C_CREDIT_LIM, C_DISCOUNT, C_BALANCE, C_YTD_PAYMENT, C_PAYMENT_CNT
/// and C_DELIVERY_CNT (clause 1.3.1).
#[derive(Clone, Copy)]
pub struct Account {
    pub credit_limit: YearToDate,
    pub discount: Rate,
    pub balance: Balance,
    pub ytd_payment: YearToDate,
    pub payment_count: Count,
    pub delivery_count: Count,
}

/// A CUSTOMER row without its key (clause 1.3.1).
#[derive(Drop)]
pub struct Customer {
    pub name: CustomerName,
    pub address: Address,
    pub phone: Text<16, 16>,
    pub since: Stamp,
    pub credit: Credit,
    pub account: Account,
    pub data: Text<0, 500>,
}

impl CustomerName {
    ghost use Rattle.oe_rows.specs.Customer.{IsCustomerName};

    /// Gives C_FIRST, C_MIDDLE and C_LAST.
    pub fn parts(&self) -> [&str; 3]
        ensures ranges { IsCustomerName self.now }
        ensures value { map (λ s. s.now) result
            ≡ self.now.first ∷ self.now.middle ∷ self.now.last ∷ [] }
    {
        [
            self.first.as_str(),
            self.middle.as_str(),
            self.last.as_str(),
        ]
    }

    /// Copies the value, and takes no memory.
    pub fn copied(&self) -> Self
        ensures { result ≡ self.now }
    {
        CustomerName {
            first: self.first.copied(),
            middle: self.middle.copied(),
            last: self.last.copied(),
        }
    }

    /// Tells whether two names are equal.
    pub fn is_same(&self, other: &CustomerName) -> bool
        ensures { IsTrue result ↔ (self.now ≡ other.now) }
    {
        self.first == other.first && self.middle == other.middle && self.last == other.last
    }
}

impl Account {
    ghost use Rattle.oe_rows.specs.Customer.{IsAccount};

    /// Gives C_DISCOUNT, C_PAYMENT_CNT and C_DELIVERY_CNT.
    pub fn figures(&self) -> (u32, u32, u32)
        ensures ranges { IsAccount self.now }
        ensures value { result
            ≡ (self.now.discount, self.now.payment_count, self.now.delivery_count) }
    {
        let _limit = self.credit_limit.cents();
        let _balance = self.balance.cents();
        let _ytd = self.ytd_payment.cents();
        (
            self.discount.get(),
            self.payment_count.get(),
            self.delivery_count.get(),
        )
    }

    /// Tells whether two accounts are equal.
    pub fn is_same(&self, other: &Account) -> bool
        ensures { IsTrue result ↔ (self.now ≡ other.now) }
    {
        self.credit_limit == other.credit_limit
            && self.discount == other.discount
            && self.balance == other.balance
            && self.ytd_payment == other.ytd_payment
            && self.payment_count == other.payment_count
            && self.delivery_count == other.delivery_count
    }
}

impl Customer {
    ghost use Rattle.oe_rows.specs.Customer.{IsCustomer};

    /// Gives C_PHONE and C_DATA.
    pub fn texts(&self) -> [&str; 2]
        ensures ranges { IsCustomer self.now }
        ensures value { map (λ s. s.now) result ≡ self.now.phone ∷ self.now.data ∷ [] }
    {
        let _parts = self.name.parts();
        let _lines = self.address.lines();
        let _since = self.since.seconds();
        let _figures = self.account.figures();
        [self.phone.as_str(), self.data.as_str()]
    }

    /// Copies the value, and takes no memory.
    pub fn copied(&self) -> Self
        ensures { result ≡ self.now }
    {
        Customer {
            name: self.name.copied(),
            address: self.address.copied(),
            phone: self.phone.copied(),
            since: self.since,
            credit: self.credit,
            account: self.account,
            data: self.data.copied(),
        }
    }

    /// Tells whether two customers are equal.
    pub fn is_same(&self, other: &Customer) -> bool
        ensures { IsTrue result ↔ (self.now ≡ other.now) }
    {
        self.name.is_same(&other.name)
            && self.address.is_same(&other.address)
            && self.phone == other.phone
            && self.since == other.since
            && self.credit == other.credit
            && self.account.is_same(&other.account)
            && self.data == other.data
    }
}
