//! Laws of the formulas, in other words than their definitions. Each function has an empty body and
//! carries one law; more of them are `oe_model`'s.
ghost use Rattle.oe_formulas.specs.Laws.{Stock_is_refilled, Order_has_columns, Lines_are_numbered, Line_has_columns, Total_is_nearest, Delivery_sums_lines};

/// The stock rule adds 91 exactly where less than 10 would be left, and keeps 10 to 100 in stock
/// (clause 2.4.2.2).
pub fn stock_is_refilled()
    ensures { Stock_is_refilled }
{}

/// The columns of an ORDER row (clause 2.4.2.2).
pub fn order_has_columns()
    ensures { Order_has_columns }
{}

/// An order has a line for each line of its request, in its order, numbered from 1 (clause
/// 2.4.2.2).
pub fn lines_are_numbered()
    ensures { Lines_are_numbered }
{}

/// What a line costs, and its text for the district (clause 2.4.2.2).
pub fn line_has_columns()
    ensures { Line_has_columns }
{}

/// The total of an order is rounded to the nearest cent, a half up (clause 2.4.2.2).
pub fn total_is_nearest()
    ensures { Total_is_nearest }
{}

/// A delivery sums up all lines of its order (clause 2.7.4.2).
pub fn delivery_sums_lines()
    ensures { Delivery_sums_lines }
{}
