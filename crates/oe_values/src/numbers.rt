//! Numbers, money and moments in their ranges.
//!
//! Each type keeps its range by its invariant, and is seen as its number: money as cents, a rate as
//! ten-thousandths. `new` gives `None` exactly where the number is out of the range. Nothing else
//! can fail, and nothing takes memory. A clause beside a type says which column or input is meant;
//! which of the ranges are the standard's is in docs/PROOF.md.
ghost use Rattle.std.specs.Prelude.{◌≡◌, ◌↔◌, ◌≤◌, ℕ, ℤ, IsSome, IfSome};
ghost use Rattle.oe_values.specs.Number.{IsWithin};

use std::marker::Model;

/// A number from `LOW` to `HIGH`, both included.
#[derive(Clone, Copy, PartialEq, Eq, PartialOrd, Ord, Hash)]
pub struct Number<const LOW: u32, const HIGH: u32> {
    value: u32,
}

impl<const LOW: u32, const HIGH: u32> Model for Number<LOW, HIGH> {
    ghost Value = { ℕ };

    ghost view = { λ n. n.value };

    ghost invariant = { λ n. (LOW ≤ n.value) × (n.value ≤ HIGH) };

    ghost inverse = { λ n. record { value = n } };
}

impl<const LOW: u32, const HIGH: u32> Number<LOW, HIGH> {
    /// Makes the number `value`, where it is in the range.
    #[inline]
    pub fn new(value: u32) -> Option<Self>
        ensures variant { IsSome result ↔ ((LOW ≤ value) × (value ≤ HIGH)) }
        ensures value { IfSome result (λ n. n ≡ value) }
    {
        if value < LOW || value > HIGH {
            return None;
        }
        Some(Number { value })
    }

    /// Gives the number.
    #[inline]
    pub fn get(self) -> u32
        ensures value { result ≡ self.entry }
        ensures low { LOW ≤ result }
        ensures high { result ≤ HIGH }
    {
        self.value
    }
}

/// A tax or a discount in ten-thousandths, from 0.0000 to 0.9999 (W_TAX, D_TAX, C_DISCOUNT; clause
/// 1.3.1).
pub type Rate = Number<0, 9_999>;

/// W_ID (clause 1.3.1).
pub type WarehouseNumber = Number<1, 16>;

/// D_ID (clause 1.3.1).
pub type DistrictNumber = Number<1, 10>;

/// C_ID (clause 1.3.1).
pub type CustomerNumber = Number<1, 3_000>;

/// I_ID (clause 1.3.1).
pub type ItemNumber = Number<1, 100_000>;

/// O_ID and D_NEXT_O_ID (clause 1.3.1).
pub type OrderNumber = Number<1, 10_000_000>;

/// OL_NUMBER, a line's number in its order (clause 1.3.1).
pub type LineNumber = Number<1, 15>;

/// O_CARRIER_ID, where it is not null (clause 1.3.1).
pub type Carrier = Number<1, 10>;

/// A count of payments, deliveries or orders, or a quantity in stock (clause 1.3.1).
pub type Count = Number<0, 9_999>;

/// The quantity that a line asks for (clause 2.4.1.5).
pub type Quantity = Number<1, 10>;

/// OL_QUANTITY (clause 1.3.1).
pub type LineQuantity = Number<0, 99>;

/// S_YTD, the quantity sold this year (clause 1.3.1).
pub type StockYtd = Number<0, 99_999_999>;

/// I_IM_ID, an item's image (clause 1.3.1).
pub type ImageNumber = Number<1, 200_000>;

/// O_OL_CNT, the number of an order's lines (clause 2.4.1.3).
pub type LineCount = Number<5, 15>;

/// How many terminals there are.
pub const TERMINALS: u32 = 64;

/// A terminal.
pub type Terminal = Number<1, TERMINALS>;

/// How many terminals have a transaction open, where any has.
pub type TerminalCount = Number<1, TERMINALS>;

/// The terminal in a history row's key; 0 is the population's.
pub type HistoryTerminal = Number<0, TERMINALS>;

/// How many extents of 4,096 bytes the undo log has.
pub type ExtentCount = Number<2, 4_096>;

/// The number of a transaction among its terminal's, from 1 on, in a history row's key. The
/// population's begin at 1 too.
pub type TransactionNumber = Number<0, 4_294_967_295>;

/// The ordinal of a history row in its transaction, which inserts one.
pub type HistoryOrdinal = Number<1, 1>;

/// An item as a request names it, which may be none of the table's (clause 2.4.1.5).
pub type RequestedItem = Number<1, 999_999>;

/// The threshold of a stock level (clause 2.8.1.2).
pub type Threshold = Number<10, 20>;

/// The number of items below a threshold, of at most 20 orders of at most 15 lines (clause
/// 2.8.2.2).
pub type LowStock = Number<0, 300>;

/// H_AMOUNT in cents as a payment asks for it, from 1.00 to 5,000.00 (clause 2.5.1.3).
pub type PaymentAmount = Number<100, 500_000>;

/// A sum of money in cents, from 0 to `MOST`.
#[derive(Clone, Copy, PartialEq, Eq)]
pub struct Amount<const MOST: u64> {
    cents: u64,
}

impl<const MOST: u64> Model for Amount<MOST> {
    ghost Value = { ℕ };

    ghost view = { λ a. a.cents };

    ghost invariant = { λ a. a.cents ≤ MOST };

    ghost inverse = { λ n. record { cents = n } };
}

impl<const MOST: u64> Amount<MOST> {
    /// Makes an amount of `cents`, where they are in the range.
    #[inline]
    pub fn new(cents: u64) -> Option<Self>
        ensures variant { IsSome result ↔ (cents ≤ MOST) }
        ensures value { IfSome result (λ a. a ≡ cents) }
    {
        if cents > MOST {
            return None;
        }
        Some(Amount { cents })
    }

    /// Gives the cents.
    #[inline]
    pub fn cents(self) -> u64
        ensures value { result ≡ self.entry }
        ensures high { result ≤ MOST }
    {
        self.cents
    }
}

/// W_YTD, D_YTD, C_YTD_PAYMENT and C_CREDIT_LIM, to 9,999,999,999.99 (clause 1.3.1).
pub type YearToDate = Amount<999_999_999_999>;

/// H_AMOUNT and OL_AMOUNT, to 9,999.99 (clause 1.3.1).
pub type LineAmount = Amount<999_999>;

/// I_PRICE, to 999.99 (clause 1.3.1).
pub type Price = Amount<99_999>;

/// C_BALANCE in cents, from -9,999,999,999.99 to 9,999,999,999.99 (clause 1.3.1).
#[derive(Clone, Copy, PartialEq, Eq)]
pub struct Balance {
    balance: i64,
}

impl Model for Balance {
    ghost Value = { ℤ };

    ghost view = { λ b. b.balance };

    ghost invariant = { λ b. IsWithin 999_999_999_999 b.balance };

    ghost inverse = { λ z. record { balance = z } };
}

impl Balance {
    /// Makes an amount of `cents`, where they are in the range.
    #[inline]
    pub fn new(cents: i64) -> Option<Self>
        ensures variant { IsSome result ↔ IsWithin 999_999_999_999 cents }
        ensures value { IfSome result (λ b. b ≡ cents) }
    {
        if cents < -999_999_999_999 || cents > 999_999_999_999 {
            return None;
        }
        Some(Balance { balance: cents })
    }

    /// Gives the cents.
    #[inline]
    pub fn cents(self) -> i64
        ensures value { result ≡ self }
        ensures within { IsWithin 999_999_999_999 result }
    {
        self.balance
    }
}

/// A total or a sum in cents, of any size that a `u64` has.
#[derive(Clone, Copy, PartialEq, Eq)]
pub struct Cents {
    total: u64,
}

impl Model for Cents {
    ghost Value = { ℕ };

    ghost view = { λ c. c.total };

    ghost inverse = { λ n. record { total = n } };
}

impl Cents {
    /// Makes an amount of `cents`.
    #[inline]
    pub fn new(cents: u64) -> Self
        ensures { result ≡ cents }
    {
        Cents { total: cents }
    }

    /// Gives the cents.
    #[inline]
    pub fn cents(self) -> u64
        ensures { result ≡ self }
    {
        self.total
    }
}

/// A moment: the number of commits before it, from 0 to 999,999,999,999.
#[derive(Clone, Copy, PartialEq, Eq, PartialOrd, Ord)]
pub struct Moment {
    commits: u64,
}

impl Model for Moment {
    ghost Value = { ℕ };

    ghost view = { λ m. m.commits };

    ghost invariant = { λ m. m.commits ≤ 999_999_999_999 };

    ghost inverse = { λ n. record { commits = n } };
}

impl Moment {
    /// Makes the moment after `commits` commits, where it is in the range.
    #[inline]
    pub fn new(commits: u64) -> Option<Self>
        ensures variant { IsSome result ↔ (commits ≤ 999_999_999_999) }
        ensures value { IfSome result (λ m. m ≡ commits) }
    {
        if commits > 999_999_999_999 {
            return None;
        }
        Some(Moment { commits })
    }

    /// Gives the number of commits before it.
    #[inline]
    pub fn get(self) -> u64
        ensures value { result ≡ self }
        ensures high { result ≤ 999_999_999_999 }
    {
        self.commits
    }
}
