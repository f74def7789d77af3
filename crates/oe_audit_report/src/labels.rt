//! The names of checks, and of the two figures that each part of a check compares.
ghost use Rattle.std.specs.Prelude.{◌≡◌, ◌≤◌, [], true, false, length};
ghost use Rattle.oe_audit_report.specs.Labels.{name_of, once_label, reference_label, extent_label, condition_label, movement_label, lasting_name, before_label, label_of, names_in};

use crate::figures::Label;
use oe_books::{Before, Check, Condition, Extent, Lasting, Movement, Once, Part, Reference};

/// Gives the name of a check.
pub fn check_name(check: Check) -> &'static str
    ensures value { result.now ≡ name_of check }
    ensures most { length result.now ≤ 20 }
{
    match check {
        Check::Keys => "keys",
        Check::References => "references",
        Check::Districts => "districts",
        Check::Stocks => "stocks",
        Check::Customers => "customers",
        Check::Orders => "orders",
        Check::Condition1 => "condition 1",
        Check::Condition2 => "condition 2",
        Check::Condition3 => "condition 3",
        Check::Condition4 => "condition 4",
        Check::Condition5 => "condition 5",
        Check::Condition6 => "condition 6",
        Check::Condition7 => "condition 7",
        Check::Condition8 => "condition 8",
        Check::Condition9 => "condition 9",
        Check::Condition10 => "condition 10",
        Check::Condition12 => "condition 12",
        Check::StockYtd => "stock ytd",
        Check::StockOrders => "stock orders",
        Check::StockRemote => "stock remote",
        Check::PaymentCount => "payment count",
        Check::DeliveryCount => "delivery count",
        Check::AllLocal => "all local",
        Check::Quantity => "quantity",
        Check::StockBefore => "stock before",
        Check::ColumnsBefore => "columns before",
    }
}

// Makes the label of counts.
fn counts(row: &'static str, first: &'static str, second: &'static str) -> Label
    requires row { length row.now ≤ 10 }
    requires first { length first.now ≤ 30 }
    requires second { length second.now ≤ 30 }
    ensures { names_in result ≡ (row.now, first.now, second.now, false) }
{
    Label {
        row,
        first,
        second,
        is_money: false,
    }
}

// Makes the label of amounts, each of a key that needs no name.
fn amounts(first: &'static str, second: &'static str) -> Label
    requires first { length first.now ≤ 30 }
    requires second { length second.now ≤ 30 }
    ensures { names_in result ≡ ([], first.now, second.now, true) }
{
    Label {
        row: "",
        first,
        second,
        is_money: true,
    }
}

// Gives the label of a part.
fn once(part: Once) -> Label
    ensures { names_in result ≡ once_label part }
{
    match part {
        Once::Warehouses => counts("warehouse", "rows", "allowed"),
        Once::Districts => counts("district", "rows", "allowed"),
        Once::Customers => counts("customer", "rows", "allowed"),
        Once::NewOrders => counts("neworder", "rows", "allowed"),
        Once::Orders => counts("order", "rows", "allowed"),
        Once::Lines => counts("orderline", "rows", "numbers"),
        Once::Items => counts("item", "rows", "allowed"),
        Once::Stocks => counts("stock", "rows", "allowed"),
    }
}

// Gives the label of a part.
fn reference(part: Reference) -> Label
    ensures { names_in result ≡ reference_label part }
{
    match part {
        Reference::DistrictWarehouse => counts("warehouse", "DISTRICT rows", "WAREHOUSE rows"),
        Reference::CustomerDistrict => counts("district", "CUSTOMER rows", "DISTRICT rows"),
        Reference::HistoryCustomer => counts("customer", "HISTORY rows", "CUSTOMER rows"),
        Reference::HistoryDistrict => counts("district", "HISTORY rows", "DISTRICT rows"),
        Reference::NewOrderOrder => counts("order", "NEW-ORDER rows", "ORDER rows"),
        Reference::OrderCustomer => counts("customer", "ORDER rows", "CUSTOMER rows"),
        Reference::LineOrder => counts("order", "ORDER-LINE rows", "ORDER rows"),
        Reference::LineStock => counts("stock", "ORDER-LINE rows", "STOCK rows"),
        Reference::StockWarehouse => counts("warehouse", "STOCK rows", "WAREHOUSE rows"),
        Reference::StockItem => counts("item", "STOCK rows", "ITEM rows"),
    }
}

// Gives the label of a part.
fn extent(part: Extent) -> Label
    ensures { names_in result ≡ extent_label part }
{
    match part {
        Extent::Districts => counts("", "wanted", "DISTRICT rows"),
        Extent::Stocks => counts("", "wanted", "STOCK rows"),
        Extent::Customers => counts("", "wanted", "CUSTOMER rows"),
        Extent::Orders => counts("", "greatest O_ID", "ORDER rows"),
    }
}

// Gives the label of a part.
fn condition(part: Condition) -> Label
    ensures { names_in result ≡ condition_label part }
{
    match part {
        Condition::First => amounts("W_YTD", "sum of D_YTD"),
        Condition::SecondOfOrders => counts("", "D_NEXT_O_ID", "next after ORDER rows"),
        Condition::SecondOfNewOrders => counts("", "D_NEXT_O_ID", "next after NEW-ORDER rows"),
        Condition::Third => counts("", "span of NO_O_ID", "NEW-ORDER rows"),
        Condition::Fourth => counts("", "sum of O_OL_CNT", "ORDER-LINE rows"),
        Condition::Fifth => counts("", "lacks O_CARRIER_ID", "NEW-ORDER rows"),
        Condition::Sixth => counts("", "O_OL_CNT", "ORDER-LINE rows"),
        Condition::Seventh => counts("", "lines to be delivered", "lines with OL_DELIVERY_D"),
        Condition::Eighth => amounts("W_YTD", "sum of H_AMOUNT"),
        Condition::Ninth => amounts("D_YTD", "sum of H_AMOUNT"),
        Condition::Tenth => amounts("C_BALANCE", "delivered less paid"),
        Condition::Twelfth => amounts("C_BALANCE and C_YTD_PAYMENT", "delivered"),
    }
}

// Gives the label of a part.
fn movement(part: Movement) -> Label
    ensures { names_in result ≡ movement_label part }
{
    match part {
        Movement::StockYtd => counts("", "S_YTD", "sum of OL_QUANTITY"),
        Movement::StockOrders => counts("", "S_ORDER_CNT", "ORDER-LINE rows"),
        Movement::StockRemote => counts("", "S_REMOTE_CNT", "remote ORDER-LINE rows"),
        Movement::PaymentCount => counts("", "C_PAYMENT_CNT", "HISTORY rows"),
        Movement::DeliveryCount => counts("", "C_DELIVERY_CNT", "delivered orders"),
        Movement::AllLocal => counts("", "remote by O_ALL_LOCAL", "by its lines"),
        Movement::Quantity => counts("", "S_QUANTITY", "bound"),
    }
}

// Gives what a key is of.
fn lasting_name(table: Lasting) -> &'static str
    ensures value { result.now ≡ lasting_name table }
    ensures most { length result.now ≤ 10 }
{
    match table {
        Lasting::Warehouses => "warehouse",
        Lasting::Districts => "district",
        Lasting::Customers => "customer",
        Lasting::Items => "item",
        Lasting::Stocks => "stock",
    }
}

// Gives the label of a part.
fn before(part: Before) -> Label
    ensures { names_in result ≡ before_label part }
{
    match part {
        Before::Gone(table) => counts(lasting_name(table), "rows before", "rows now"),
        Before::Changed(table) => counts(lasting_name(table), "print before", "print now"),
        Before::Moved => counts("", "(S_QUANTITY + S_YTD) mod 91", "now"),
    }
}

/// Gives the label of a part of a check.
pub fn label_of(part: Part) -> Label
    ensures { names_in result ≡ label_of part }
{
    match part {
        Part::Once(part) => once(part),
        Part::Reference(part) => reference(part),
        Part::Extent(part) => extent(part),
        Part::Condition(part) => condition(part),
        Part::Movement(part) => movement(part),
        Part::Before(part) => before(part),
    }
}
