//! The table of forms: each form's own words, what its other words have to be, and the range of
//! each number.
ghost use Rattle.std.specs.Prelude.{◌≡◌, ◌≤◌, ◌<◌, length};
ghost use Rattle.oe_reasons.specs.Columns.{columns_of, forms_of, greatest, least, least_words};
ghost use Rattle.oe_reasons.specs.Columns.{most_words};

use crate::verbs::{Kind, Verb};

/// What a word of a form says.
#[derive(Clone, Copy)]
pub enum Column {
    /// The word with which the form begins.
    Verb(Verb),
    /// The word that tells which transaction or query it is.
    Kind(Kind),
    /// How many warehouses are opened.
    Warehouses,
    /// How many customers each district has.
    Customers,
    /// How many items there are.
    Items,
    /// How many undo extents there are.
    Extents,
    /// The layout of undo records: 1 for whole rows, 2 for changed columns.
    Layout,
    /// A terminal.
    Terminal,
    /// A warehouse.
    Warehouse,
    /// A district.
    District,
    /// The warehouse of a customer who pays.
    CustomerWarehouse,
    /// The district of a customer who pays.
    CustomerDistrict,
    /// A customer by number.
    Customer,
    /// The warehouse that supplies an item.
    Supply,
    /// An item.
    Item,
    /// How many are ordered.
    Quantity,
    /// An amount, in cents.
    Amount,
    /// A carrier.
    Carrier,
    /// A threshold.
    Threshold,
    /// A consistency condition.
    Condition,
    /// A moment: `now`, or a number of commits.
    Moment,
    /// A customer by number or by last name.
    Buyer,
    /// A last name.
    LastName,
    /// A first name.
    FirstName,
    /// A stamp.
    Stamp,
    /// `supply:item:quantity`.
    OrderLine,
    /// A table's name.
    Table,
}

/// A form that lines have.
#[derive(Clone, Copy)]
pub enum Form {
    Opening,
    Payment,
    NewOrder,
    Delivery,
    Deliveries,
    Rename,
    Next,
    Run,
    Save,
    Back,
    Rollback,
    Status,
    Level,
    Audit,
    Purge,
    Rewind,
    Dump,
    Waits,
    Locks,
}

/// All forms, in the order of their verbs.
pub(crate) const FORMS: [Form; 19] = [
    Form::Opening,
    Form::Payment,
    Form::NewOrder,
    Form::Delivery,
    Form::Deliveries,
    Form::Rename,
    Form::Next,
    Form::Run,
    Form::Save,
    Form::Back,
    Form::Rollback,
    Form::Status,
    Form::Level,
    Form::Audit,
    Form::Purge,
    Form::Rewind,
    Form::Dump,
    Form::Waits,
    Form::Locks,
];

/// Gives the forms that begin with a verb.
pub(crate) fn forms_of(verb: Verb) -> &'static [Form]
    ensures value { result.now ≡ forms_of verb }
    ensures few { length result.now ≤ 5 }
{
    match verb {
        Verb::Open => &[Form::Opening],
        Verb::Begin => &[
            Form::Payment,
            Form::NewOrder,
            Form::Delivery,
            Form::Deliveries,
            Form::Rename,
        ],
        Verb::Next => &[Form::Next],
        Verb::Run => &[Form::Run],
        Verb::Save => &[Form::Save],
        Verb::Back => &[Form::Back],
        Verb::Rollback => &[Form::Rollback],
        Verb::Read => &[Form::Status, Form::Level],
        Verb::Audit => &[Form::Audit],
        Verb::Purge => &[Form::Purge],
        Verb::Rewind => &[Form::Rewind],
        Verb::Dump => &[Form::Dump],
        Verb::Waits => &[Form::Waits],
        Verb::Locks => &[Form::Locks],
    }
}

impl Column {
    /// Gives the least number, of an amount in cents; 0 where it is no number.
    pub fn least(self) -> u64
        ensures { result ≡ least self }
    {
        match self {
            Column::Warehouses
            | Column::Customers
            | Column::Items
            | Column::Terminal
            | Column::Warehouse
            | Column::District
            | Column::CustomerWarehouse
            | Column::CustomerDistrict
            | Column::Customer
            | Column::Supply
            | Column::Item
            | Column::Quantity
            | Column::Carrier
            | Column::Condition
            | Column::Layout => 1,
            Column::Extents => 2,
            Column::Amount => 100,
            Column::Threshold => 10,
            _ => 0,
        }
    }

    /// Gives the greatest number, of an amount in cents; 0 where it is no number.
    pub fn greatest(self) -> u64
        ensures { result ≡ greatest self }
    {
        match self {
            Column::Warehouses | Column::Warehouse | Column::CustomerWarehouse | Column::Supply =>
                16,
            Column::Customers | Column::Customer => 3_000,
            Column::Items => 100_000,
            Column::Extents => 4_096,
            Column::Layout => 2,
            Column::Terminal => 64,
            Column::District | Column::CustomerDistrict | Column::Quantity | Column::Carrier => 10,
            Column::Item => 999_999,
            Column::Amount => 500_000,
            Column::Threshold => 20,
            Column::Condition => 12,
            Column::Moment => 999_999_999_999,
            _ => 0,
        }
    }
}

impl Form {
    /// Gives the columns in the order of the form's words.
    pub fn columns(self) -> &'static [Column]
        ensures { result.now ≡ columns_of self }
    {
        match self {
            Form::Opening => &[
                Column::Verb(Verb::Open),
                Column::Warehouses,
                Column::Customers,
                Column::Items,
                Column::Extents,
                Column::Layout,
            ],
            Form::Payment => &[
                Column::Verb(Verb::Begin),
                Column::Terminal,
                Column::Kind(Kind::Payment),
                Column::Warehouse,
                Column::District,
                Column::CustomerWarehouse,
                Column::CustomerDistrict,
                Column::Buyer,
                Column::Amount,
                Column::Stamp,
            ],
            Form::NewOrder => &[
                Column::Verb(Verb::Begin),
                Column::Terminal,
                Column::Kind(Kind::NewOrder),
                Column::Warehouse,
                Column::District,
                Column::Customer,
                Column::Stamp,
                Column::OrderLine,
                Column::OrderLine,
                Column::OrderLine,
                Column::OrderLine,
                Column::OrderLine,
                Column::OrderLine,
                Column::OrderLine,
                Column::OrderLine,
                Column::OrderLine,
                Column::OrderLine,
                Column::OrderLine,
                Column::OrderLine,
                Column::OrderLine,
                Column::OrderLine,
                Column::OrderLine,
            ],
            Form::Delivery => &[
                Column::Verb(Verb::Begin),
                Column::Terminal,
                Column::Kind(Kind::Delivery),
                Column::Warehouse,
                Column::District,
                Column::Carrier,
                Column::Stamp,
            ],
            Form::Deliveries => &[
                Column::Verb(Verb::Begin),
                Column::Terminal,
                Column::Kind(Kind::Delivery),
                Column::Warehouse,
                Column::Carrier,
                Column::Stamp,
            ],
            Form::Rename => &[
                Column::Verb(Verb::Begin),
                Column::Terminal,
                Column::Kind(Kind::Rename),
                Column::Warehouse,
                Column::District,
                Column::Customer,
                Column::LastName,
                Column::FirstName,
            ],
            Form::Next => &[Column::Verb(Verb::Next), Column::Terminal],
            Form::Run => &[Column::Verb(Verb::Run), Column::Terminal],
            Form::Save => &[Column::Verb(Verb::Save), Column::Terminal],
            Form::Back => &[Column::Verb(Verb::Back), Column::Terminal],
            Form::Rollback => &[Column::Verb(Verb::Rollback), Column::Terminal],
            Form::Status => &[
                Column::Verb(Verb::Read),
                Column::Moment,
                Column::Kind(Kind::Status),
                Column::Warehouse,
                Column::District,
                Column::Buyer,
            ],
            Form::Level => &[
                Column::Verb(Verb::Read),
                Column::Moment,
                Column::Kind(Kind::Level),
                Column::Warehouse,
                Column::District,
                Column::Threshold,
            ],
            Form::Audit => &[Column::Verb(Verb::Audit), Column::Condition, Column::Moment],
            Form::Purge => &[Column::Verb(Verb::Purge), Column::Moment],
            Form::Rewind => &[Column::Verb(Verb::Rewind), Column::Moment],
            Form::Dump => &[Column::Verb(Verb::Dump), Column::Table],
            Form::Waits => &[Column::Verb(Verb::Waits)],
            Form::Locks => &[Column::Verb(Verb::Locks)],
        }
    }

    /// Gives how many words a line of the form has at least.
    pub fn least_words(self) -> usize
        ensures { result ≡ least_words self }
    {
        match self {
            Form::NewOrder => 12,
            Form::Opening => 5,
            _ => self.columns().len(),
        }
    }

    /// Gives how many words a line of the form has at most.
    pub fn most_words(self) -> usize
        ensures { result ≡ most_words self }
    {
        self.columns().len()
    }
}
