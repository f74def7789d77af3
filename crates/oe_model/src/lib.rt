//! The tables, transactions and consistency conditions of an order-entry server, as definitions,
//! and their laws. Each public function has an empty body and carries one law; clause numbers are
//! TPC Benchmark C 5.11's.
#![tactic(auto)]

pub mod populations;
pub mod verdicts;

ghost use Rattle.oe_model.specs.RowLaws.{Tables_are_a_map, Records_undo, Changes_are_judged};
ghost use Rattle.oe_model.specs.Rules.{Payment_is_exact, Stock_is_exact, Text_occurs, Order_is_local, Oldest_is_least, Delivery_is_exact, Rename_is_exact, Order_is_last, Level_is_exact, Name_is_middle, Modes_conflict, Worked};
ghost use Rattle.oe_model.specs.RowsAfter.{Payment_leaves, Order_leaves, Delivery_leaves, Sums_are_exact};
ghost use Rattle.oe_model.specs.Headline.{System_is_lawful, Programs_end, Runs_begin, Transactions_are_atomic, Versions_are_serial, Records_bring_back, Store_is_exact, Answers_are_known, Schema_always_holds, Conditions_hold};

/// The nine tables are one map from key to row.
pub fn tables_are_a_map()
    ensures { Tables_are_a_map }
{}

/// An undo record brings the row before back, and a change followed by its undo is the identity.
pub fn records_undo()
    ensures { Records_undo }
{}

/// A change is accepted or has a cause of refusal, never both, and one that is accepted keeps the
/// schema.
pub fn changes_are_judged()
    ensures { Changes_are_judged }
{}

/// The machine meets the local laws of the theory of transactions: among them that
/// each program, run alone a row at a time, has exactly its whole effect or none, and that this
/// effect keeps what holds between transactions.
pub fn system_is_lawful()
    ensures { System_is_lawful }
{}

/// A program alone has its whole effect wherever the schema, conditions 1 to 4 and the stock are
/// there, and no HISTORY row of its own transaction is.
pub fn programs_end()
    ensures { Programs_end }
{}

/// A run may begin from any population.
pub fn runs_begin()
    ensures { Runs_begin }
{}

/// A transaction that is rolled back leaves no trace, and one that commits is whole, whatever
/// others do meanwhile.
pub fn transactions_are_atomic()
    ensures { Transactions_are_atomic }
{}

/// The same transactions, run one at a time, make the same commits; a rewind restores each moment's
/// version.
pub fn versions_are_serial()
    ensures { Versions_are_serial }
{}

/// Undo records bring rows, tables and versions back in place.
pub fn records_bring_back()
    ensures { Records_bring_back }
{}

/// Each step, with each of its answers, is one change of what a server stores.
pub fn store_is_exact()
    ensures { Store_is_exact }
{}

/// Each step is answered, and but for a want of memory in one way.
pub fn answers_are_known()
    ensures { Answers_are_known }
{}

/// The schema holds of the tables as they stand, beside open work and in the middle of an undo.
pub fn schema_always_holds()
    ensures { Schema_always_holds }
{}

/// Consistency conditions 1 to 4 (clauses 3.3.2.1 to 3.3.2.4) hold of each version, and of the
/// tables whenever no transaction is open.
pub fn conditions_hold()
    ensures { Conditions_hold }
{}

/// A payment takes its amount from the balance, adds it to the year-to-date columns, and goes into
/// the data of a customer with bad credit (clause 2.5.2.2).
pub fn payment_is_exact()
    ensures { Payment_is_exact }
{}

/// What an order's lines leave of a stock row (clause 2.4.2.2).
pub fn stock_is_exact()
    ensures { Stock_is_exact }
{}

/// When a text stands in another, as `ORIGINAL` in I_DATA and S_DATA (clause 2.4.2.2).
pub fn text_occurs()
    ensures { Text_occurs }
{}

/// When O_ALL_LOCAL is 1 (clause 2.4.2.2).
pub fn order_is_local()
    ensures { Order_is_local }
{}

/// A delivery takes the oldest undelivered order (clause 2.7.4.2).
pub fn oldest_is_least()
    ensures { Oldest_is_least }
{}

/// What a delivery leaves of its customer and of its lines (clause 2.7.4.2).
pub fn delivery_is_exact()
    ensures { Delivery_is_exact }
{}

/// Which rows a payment leaves otherwise, with each column, and that it leaves no other so (clause
/// 2.5.2.2).
pub fn payment_leaves()
    ensures { Payment_leaves }
{}

/// Which rows of DISTRICT, ORDER, NEW-ORDER an order leaves otherwise, with each column, and which
/// of the others it may (clause 2.4.2.2).
pub fn order_leaves()
    ensures { Order_leaves }
{}

/// Which rows a delivery leaves otherwise, with each column, and that it leaves no other so (clause
/// 2.7.4.2).
pub fn delivery_leaves()
    ensures { Delivery_leaves }
{}

/// What a row more adds to the sums of conditions 6 to 10 and 12 (clauses 3.3.2.6 to 3.3.2.12).
pub fn sums_are_exact()
    ensures { Sums_are_exact }
{}

/// What a rename leaves of its customer, and of the others.
pub fn rename_is_exact()
    ensures { Rename_is_exact }
{}

/// Order-Status tells of the customer's last order (clause 2.6.2.2).
pub fn order_is_last()
    ensures { Order_is_last }
{}

/// Stock-Level tells how many distinct items are low (clause 2.8.2.2).
pub fn level_is_exact()
    ensures { Level_is_exact }
{}

/// Two modes of one name conflict where one of them is exclusive.
pub fn modes_conflict()
    ensures { Modes_conflict }
{}

/// By last name the customer in the middle is chosen, where there is any (clause 2.5.2.2).
pub fn name_is_middle()
    ensures { Name_is_middle }
{}

/// The definitions at values worked out by hand.
pub fn worked()
    ensures { Worked }
{}
