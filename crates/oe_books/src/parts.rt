//! The checks of an audit, and the parts that they have. A part has one list of keys at which it
//! fails, and two figures at each.
ghost use Rattle.std.specs.Prelude.{◌≡◌};
ghost use Rattle.oe_books.specs.Parts.{parts_of, asked_checks};

/// A primary key, which stands once (clause 1.3.1).
#[derive(Clone, Copy)]
pub enum Once {
    /// W_ID of WAREHOUSE rows.
    Warehouses,
    /// The key of DISTRICT rows.
    Districts,
    /// The key of CUSTOMER rows.
    Customers,
    /// The key of NEW-ORDER rows.
    NewOrders,
    /// The key of ORDER rows.
    Orders,
    /// The key of ORDER-LINE rows.
    Lines,
    /// I_ID of ITEM rows.
    Items,
    /// The key of STOCK rows.
    Stocks,
}

/// What refers to a row that is there (clauses 1.3.1, 1.4).
#[derive(Clone, Copy)]
pub enum Reference {
    /// D_W_ID.
    DistrictWarehouse,
    /// C_W_ID and C_D_ID.
    CustomerDistrict,
    /// H_C_W_ID, H_C_D_ID and H_C_ID.
    HistoryCustomer,
    /// H_W_ID and H_D_ID.
    HistoryDistrict,
    /// NO_W_ID, NO_D_ID and NO_O_ID.
    NewOrderOrder,
    /// O_W_ID, O_D_ID and O_C_ID.
    OrderCustomer,
    /// OL_W_ID, OL_D_ID and OL_O_ID.
    LineOrder,
    /// OL_SUPPLY_W_ID and OL_I_ID.
    LineStock,
    /// S_W_ID.
    StockWarehouse,
    /// S_I_ID.
    StockItem,
}

/// How many rows there are (clauses 1.2.1, 2.4.2.2).
#[derive(Clone, Copy)]
pub enum Extent {
    /// A warehouse has ten districts.
    Districts,
    /// A warehouse has a STOCK row of each item.
    Stocks,
    /// Districts have as many customers as one another.
    Customers,
    /// A district's orders are 1, 2, 3 and so on.
    Orders,
}

/// A consistency condition (clause 3.3.2).
#[derive(Clone, Copy)]
pub enum Condition {
    /// W_YTD is the sum of D_YTD.
    First,
    /// D_NEXT_O_ID is the greatest O_ID and 1.
    SecondOfOrders,
    /// D_NEXT_O_ID is the greatest NO_O_ID and 1.
    SecondOfNewOrders,
    /// NO_O_IDs have no gap.
    Third,
    /// The sum of O_OL_CNT is the number of ORDER-LINE rows.
    Fourth,
    /// An order has no O_CARRIER_ID exactly where it has a NEW-ORDER row.
    Fifth,
    /// O_OL_CNT is the number of the order's ORDER-LINE rows.
    Sixth,
    /// OL_DELIVERY_D is there exactly where O_CARRIER_ID is.
    Seventh,
    /// W_YTD is the sum of H_AMOUNT.
    Eighth,
    /// D_YTD is the sum of H_AMOUNT.
    Ninth,
    /// C_BALANCE is what was delivered less what was paid.
    Tenth,
    /// C_BALANCE and C_YTD_PAYMENT are what was delivered.
    Twelfth,
}

/// What New-Order, Payment and Delivery keep besides (clauses 2.4.2.2, 2.5.2.2, 2.7.4.2, 4.3.3.1).
#[derive(Clone, Copy)]
pub enum Movement {
    /// S_YTD is the sum of OL_QUANTITY.
    StockYtd,
    /// S_ORDER_CNT is the number of lines.
    StockOrders,
    /// S_REMOTE_CNT is the number of another warehouse's lines.
    StockRemote,
    /// C_PAYMENT_CNT is the number of payments.
    PaymentCount,
    /// C_DELIVERY_CNT is the number of deliveries.
    DeliveryCount,
    /// O_ALL_LOCAL is 1 exactly where each line is supplied at home.
    AllLocal,
    /// S_QUANTITY is 10 to 100.
    Quantity,
}

/// A table whose rows stay as long as the database (clause 1.4).
#[derive(Clone, Copy)]
pub enum Lasting {
    Warehouses,
    Districts,
    Customers,
    Items,
    Stocks,
}

/// What is asked of rows against earlier ones.
#[derive(Clone, Copy)]
pub enum Before {
    /// Of each row there is still one.
    Gone(Lasting),
    /// The columns that no transaction changes have the print that they had.
    Changed(Lasting),
    /// (S_QUANTITY + S_YTD) mod 91 is what it was (clause 2.4.2.2).
    Moved,
}

/// A part of a check.
#[derive(Clone, Copy)]
pub enum Part {
    Once(Once),
    Reference(Reference),
    Extent(Extent),
    Condition(Condition),
    Movement(Movement),
    Before(Before),
}

/// A check of an audit: what it asks for.
#[derive(Clone, Copy)]
pub enum Check {
    /// Each primary key stands once.
    Keys,
    /// What rows refer to is there.
    References,
    /// A warehouse has ten districts.
    Districts,
    /// A warehouse has a STOCK row of each item.
    Stocks,
    /// Districts have as many customers as one another.
    Customers,
    /// A district's orders have no gap.
    Orders,
    /// Condition 1 (clause 3.3.2.1).
    Condition1,
    /// Condition 2 (clause 3.3.2.2).
    Condition2,
    /// Condition 3 (clause 3.3.2.3).
    Condition3,
    /// Condition 4 (clause 3.3.2.4).
    Condition4,
    /// Condition 5 (clause 3.3.2.5).
    Condition5,
    /// Condition 6 (clause 3.3.2.6).
    Condition6,
    /// Condition 7 (clause 3.3.2.7).
    Condition7,
    /// Condition 8 (clause 3.3.2.8).
    Condition8,
    /// Condition 9 (clause 3.3.2.9).
    Condition9,
    /// Condition 10 (clause 3.3.2.10).
    Condition10,
    /// Condition 12 (clause 3.3.2.12).
    Condition12,
    /// S_YTD is the sum of OL_QUANTITY.
    StockYtd,
    /// S_ORDER_CNT is the number of lines.
    StockOrders,
    /// S_REMOTE_CNT is the number of another warehouse's lines.
    StockRemote,
    /// C_PAYMENT_CNT is the number of payments.
    PaymentCount,
    /// C_DELIVERY_CNT is the number of deliveries.
    DeliveryCount,
    /// O_ALL_LOCAL tells whether each line is supplied at home.
    AllLocal,
    /// S_QUANTITY is 10 to 100.
    Quantity,
    /// (S_QUANTITY + S_YTD) mod 91 of each earlier STOCK row is what it was.
    StockBefore,
    /// No column of an earlier row has changed that no transaction changes.
    ColumnsBefore,
}

/// The checks, in the order of a report.
pub const CHECKS: [Check; 24] = [
    Check::Keys,
    Check::References,
    Check::Districts,
    Check::Stocks,
    Check::Customers,
    Check::Orders,
    Check::Condition1,
    Check::Condition2,
    Check::Condition3,
    Check::Condition4,
    Check::Condition5,
    Check::Condition6,
    Check::Condition7,
    Check::Condition8,
    Check::Condition9,
    Check::Condition10,
    Check::Condition12,
    Check::StockYtd,
    Check::StockOrders,
    Check::StockRemote,
    Check::PaymentCount,
    Check::DeliveryCount,
    Check::AllLocal,
    Check::Quantity,
];

/// The same, and behind them those against earlier rows.
pub const CHECKS_BEFORE: [Check; 26] = [
    Check::Keys,
    Check::References,
    Check::Districts,
    Check::Stocks,
    Check::Customers,
    Check::Orders,
    Check::Condition1,
    Check::Condition2,
    Check::Condition3,
    Check::Condition4,
    Check::Condition5,
    Check::Condition6,
    Check::Condition7,
    Check::Condition8,
    Check::Condition9,
    Check::Condition10,
    Check::Condition12,
    Check::StockYtd,
    Check::StockOrders,
    Check::StockRemote,
    Check::PaymentCount,
    Check::DeliveryCount,
    Check::AllLocal,
    Check::Quantity,
    Check::StockBefore,
    Check::ColumnsBefore,
];

/// Which checks are made.
#[derive(Clone, Copy)]
pub enum Asked {
    /// Those of rows alone.
    Rows,
    /// Those against earlier rows too.
    Earlier,
}

/// Gives the checks that are made, in the order of a report.
pub fn asked_checks(asked: Asked) -> &'static [Check]
    ensures { result.now ≡ asked_checks asked }
{
    match asked {
        Asked::Rows => &CHECKS,
        Asked::Earlier => &CHECKS_BEFORE,
    }
}

const KEYS: [Part; 8] = [
    Part::Once(Once::Warehouses),
    Part::Once(Once::Districts),
    Part::Once(Once::Customers),
    Part::Once(Once::NewOrders),
    Part::Once(Once::Orders),
    Part::Once(Once::Lines),
    Part::Once(Once::Items),
    Part::Once(Once::Stocks),
];

const REFERENCES: [Part; 10] = [
    Part::Reference(Reference::DistrictWarehouse),
    Part::Reference(Reference::CustomerDistrict),
    Part::Reference(Reference::HistoryCustomer),
    Part::Reference(Reference::HistoryDistrict),
    Part::Reference(Reference::NewOrderOrder),
    Part::Reference(Reference::OrderCustomer),
    Part::Reference(Reference::LineOrder),
    Part::Reference(Reference::LineStock),
    Part::Reference(Reference::StockWarehouse),
    Part::Reference(Reference::StockItem),
];

const CONDITION2: [Part; 2] = [
    Part::Condition(Condition::SecondOfOrders),
    Part::Condition(Condition::SecondOfNewOrders),
];

const STOCK_BEFORE: [Part; 2] = [
    Part::Before(Before::Gone(Lasting::Stocks)),
    Part::Before(Before::Moved),
];

const COLUMNS_BEFORE: [Part; 10] = [
    Part::Before(Before::Gone(Lasting::Warehouses)),
    Part::Before(Before::Changed(Lasting::Warehouses)),
    Part::Before(Before::Gone(Lasting::Districts)),
    Part::Before(Before::Changed(Lasting::Districts)),
    Part::Before(Before::Gone(Lasting::Customers)),
    Part::Before(Before::Changed(Lasting::Customers)),
    Part::Before(Before::Gone(Lasting::Items)),
    Part::Before(Before::Changed(Lasting::Items)),
    Part::Before(Before::Gone(Lasting::Stocks)),
    Part::Before(Before::Changed(Lasting::Stocks)),
];

impl Check {
    /// Gives the parts of the check.
    pub fn parts(self) -> &'static [Part]
        ensures { result.now ≡ parts_of self }
    {
        match self {
            Check::Keys => &KEYS,
            Check::References => &REFERENCES,
            Check::Districts => &[Part::Extent(Extent::Districts)],
            Check::Stocks => &[Part::Extent(Extent::Stocks)],
            Check::Customers => &[Part::Extent(Extent::Customers)],
            Check::Orders => &[Part::Extent(Extent::Orders)],
            Check::Condition1 => &[Part::Condition(Condition::First)],
            Check::Condition2 => &CONDITION2,
            Check::Condition3 => &[Part::Condition(Condition::Third)],
            Check::Condition4 => &[Part::Condition(Condition::Fourth)],
            Check::Condition5 => &[Part::Condition(Condition::Fifth)],
            Check::Condition6 => &[Part::Condition(Condition::Sixth)],
            Check::Condition7 => &[Part::Condition(Condition::Seventh)],
            Check::Condition8 => &[Part::Condition(Condition::Eighth)],
            Check::Condition9 => &[Part::Condition(Condition::Ninth)],
            Check::Condition10 => &[Part::Condition(Condition::Tenth)],
            Check::Condition12 => &[Part::Condition(Condition::Twelfth)],
            Check::StockYtd => &[Part::Movement(Movement::StockYtd)],
            Check::StockOrders => &[Part::Movement(Movement::StockOrders)],
            Check::StockRemote => &[Part::Movement(Movement::StockRemote)],
            Check::PaymentCount => &[Part::Movement(Movement::PaymentCount)],
            Check::DeliveryCount => &[Part::Movement(Movement::DeliveryCount)],
            Check::AllLocal => &[Part::Movement(Movement::AllLocal)],
            Check::Quantity => &[Part::Movement(Movement::Quantity)],
            Check::StockBefore => &STOCK_BEFORE,
            Check::ColumnsBefore => &COLUMNS_BEFORE,
        }
    }
}
