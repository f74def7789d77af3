//! Replies to requests and queries, a column after another.
ghost use Rattle.std.specs.Prelude.{◌≡◌, ◌≤◌, ◌+◌, ◌*◌, ◌++◌, length, codes, Some};
ghost use Rattle.std.specs.List.{flat_map};
ghost use Rattle.arrayvec.specs.ArrayVec.{array_vec_len};
ghost use Rattle.oe_requests.specs.Reply.{told_reply};
ghost use Rattle.oe_texts.specs.Reply.{payment_text, brand_text, line_text, new_order_text, delivery_text, district_text, districts_text, rename_text, reply_text, status_line_text, order_text, query_text};

use crate::columns::{
    balance, balance_then, credit_then, money, money_then, nullable_carrier, nullable_stamp, small,
    small_then, stamp_then, text_then,
};
use crate::pending::{Pending, SIZE, text};
use oe_requests::{
    Brand, DistrictDeliveries, DistrictDelivery, LineReplies, LineReply, OrderStatus, PaymentReply,
    QueryReply, Reply, ReplyRef, StatusLine, StatusReply,
};
use oe_rows::Credit;
use oe_values::{Cents, CustomerNumber, FirstName, LastName, OrderNumber, Text};

/// Appends `payment <C_ID> <C_LAST> <C_CREDIT> <new C_BALANCE>`.
#[inline(always)]
fn payment(out: &mut Pending, reply: &PaymentReply)
    requires { array_vec_len out.old + 63 ≤ SIZE }
    ensures items { out.new.items ≡ out.old.items ++ payment_text reply.now }
    ensures len { array_vec_len out.new ≤ array_vec_len out.old + 63 }
{
    text(out, b"payment ");
    small_then(out, reply.customer.get(), b' ');
    text_then(out, reply.last.as_str(), b' ');
    credit_then(out, reply.credit, b' ');
    balance(out, reply.balance);
}

/// Appends `B` or `G`.
fn brand(out: &mut Pending, brand: Brand)
    requires { array_vec_len out.old + 1 ≤ SIZE }
    ensures items { out.new.items ≡ out.old.items ++ brand_text brand }
    ensures len { array_vec_len out.new ≡ array_vec_len out.old + 1 }
{
    out.push(match brand {
        Brand::Original => b'B',
        Brand::Generic => b'G',
    });
}

/// Appends ` <B or G>:<new S_QUANTITY>:<OL_AMOUNT>`.
fn line(out: &mut Pending, line: LineReply)
    requires { array_vec_len out.old + 37 ≤ SIZE }
    ensures items { out.new.items ≡ out.old.items ++ line_text line }
    ensures len { array_vec_len out.new ≤ array_vec_len out.old + 37 }
{
    out.push(b' ');
    brand(out, line.brand);
    out.push(b':');
    small_then(out, line.quantity.get(), b':');
    money(out, line.amount.cents());
}

/// Appends the lines of an order.
fn lines(out: &mut Pending, replies: &[LineReply])
    requires few { length replies.now ≤ 15 }
    requires room { array_vec_len out.old + 37 * length replies.now ≤ SIZE }
    ensures items { out.new.items ≡ out.old.items ++ flat_map line_text replies.now }
    ensures len { array_vec_len out.new ≤ array_vec_len out.old + 37 * length replies.now }
{
    for reply in replies {
        line(out, *reply);
    }
}

/// Appends `neworder <O_ID> <C_LAST> <C_CREDIT> <total>`, and each line.
fn new_order(
    out: &mut Pending,
    order: OrderNumber,
    last: &Text<0, 16>,
    credit: Credit,
    total: Cents,
    done: &LineReplies,
)
    requires { array_vec_len out.old + 618 ≤ SIZE }
    ensures items { out.new.items ≡ out.old.items ++ new_order_text (record {
      order = order;
      last = last.now;
      credit = credit;
      total = total;
      lines = done.now;
    }) }
    ensures len { array_vec_len out.new ≤ array_vec_len out.old + 618 }
{
    text(out, b"neworder ");
    small_then(out, order.get(), b' ');
    text_then(out, last.as_str(), b' ');
    credit_then(out, credit, b' ');
    money(out, total.cents());
    lines(out, done.as_slice());
}

/// Appends `delivery <O_ID> <C_ID> <sum>`, or `delivery skipped`.
fn delivery(out: &mut Pending, delivery: DistrictDelivery)
    requires { array_vec_len out.old + 54 ≤ SIZE }
    ensures items { out.new.items ≡ out.old.items ++ delivery_text delivery }
    ensures len { array_vec_len out.new ≤ array_vec_len out.old + 54 }
{
    match delivery {
        DistrictDelivery::Delivered(order) => {
            text(out, b"delivery ");
            small_then(out, order.order.get(), b' ');
            small_then(out, order.customer.get(), b' ');
            money(out, order.sum.cents());
        }
        DistrictDelivery::Skipped => text(out, b"delivery skipped"),
    }
}

/// Appends `<O_ID>:<C_ID>:<sum>`, or `skipped`.
fn district(out: &mut Pending, delivery: DistrictDelivery)
    requires { array_vec_len out.old + 45 ≤ SIZE }
    ensures items { out.new.items ≡ out.old.items ++ district_text delivery }
    ensures len { array_vec_len out.new ≤ array_vec_len out.old + 45 }
{
    match delivery {
        DistrictDelivery::Delivered(order) => {
            small_then(out, order.order.get(), b':');
            small_then(out, order.customer.get(), b':');
            money(out, order.sum.cents());
        }
        DistrictDelivery::Skipped => text(out, b"skipped"),
    }
}

/// Appends ` <d>:<what was done there>` of each district, from 1 on.
fn districts(out: &mut Pending, deliveries: &[DistrictDelivery])
    requires ten { length deliveries.now ≤ 10 }
    requires room { array_vec_len out.old + 570 ≤ SIZE }
    ensures items { out.new.items ≡ out.old.items ++ districts_text 1 deliveries.now }
    ensures len { array_vec_len out.new ≤ array_vec_len out.old + 570 }
{
    let mut number = 1;
    for delivery in deliveries {
        out.push(b' ');
        small_then(out, number, b':');
        district(out, *delivery);
        number += 1;
    }
}

/// Appends `deliveries`, and what was done in each district.
fn deliveries(out: &mut Pending, reply: &DistrictDeliveries)
    requires { array_vec_len out.old + 580 ≤ SIZE }
    ensures items { out.new.items
        ≡ out.old.items ++ codes "deliveries" ++ districts_text 1 reply.now }
    ensures len { array_vec_len out.new ≤ array_vec_len out.old + 580 }
{
    text(out, b"deliveries");
    districts(out, reply.as_slice());
}

/// Appends `rename <C_ID> <C_LAST> <C_FIRST>`.
fn rename(out: &mut Pending, customer: CustomerNumber, last: &LastName, first: &FirstName)
    requires { array_vec_len out.old + 51 ≤ SIZE }
    ensures items { out.new.items ≡ out.old.items
        ++ rename_text (record { customer = customer; last = last.now; first = first.now }) }
    ensures len { array_vec_len out.new ≤ array_vec_len out.old + 51 }
{
    text(out, b"rename ");
    small_then(out, customer.get(), b' ');
    text_then(out, last.as_str(), b' ');
    text(out, first.as_str().as_bytes());
}

/// Appends what a transaction replies when it has committed.
pub(crate) fn reply(out: &mut Pending, reply: &Reply)
    requires { array_vec_len out.old + 618 ≤ SIZE }
    ensures items { out.new.items ≡ out.old.items ++ reply_text reply.now }
    ensures len { array_vec_len out.new ≤ array_vec_len out.old + 618 }
{
    match reply {
        Reply::Payment(reply) => payment(out, reply),
        Reply::NewOrder(reply) => new_order(
            out,
            reply.order,
            &reply.last,
            reply.credit,
            reply.total,
            &reply.lines,
        ),
        Reply::Delivery(reply) => delivery(out, *reply),
        Reply::Deliveries(reply) => deliveries(out, reply),
        Reply::Rename(reply) => rename(out, reply.customer, &reply.last, &reply.first),
    }
}

/// Appends a reply that is lent.
pub(crate) fn lent_reply(out: &mut Pending, reply: &ReplyRef)
    requires { array_vec_len out.old + 618 ≤ SIZE }
    ensures items { out.new.items ≡ out.old.items ++ reply_text (told_reply reply.now) }
    ensures len { array_vec_len out.new ≤ array_vec_len out.old + 618 }
{
    match reply {
        ReplyRef::Payment(reply) => payment(out, reply),
        ReplyRef::NewOrder {
            order,
            last,
            credit,
            total,
            lines: done,
        } => new_order(out, *order, last, *credit, *total, done),
        ReplyRef::Delivery(reply) => delivery(out, *reply),
        ReplyRef::Deliveries(reply) => deliveries(out, reply),
        ReplyRef::Rename {
            customer,
            last,
            first,
        } => rename(out, *customer, last, first),
    }
}

/// Appends ` <supply>:<item>:<quantity>:<amount>:<delivery date>`.
fn status_line(out: &mut Pending, line: StatusLine)
    requires { array_vec_len out.old + 77 ≤ SIZE }
    ensures items { out.new.items ≡ out.old.items ++ status_line_text line }
    ensures len { array_vec_len out.new ≤ array_vec_len out.old + 77 }
{
    out.push(b' ');
    small_then(out, line.supply.get(), b':');
    small_then(out, line.item.get(), b':');
    small_then(out, line.quantity.get(), b':');
    money_then(out, line.amount.cents(), b':');
    nullable_stamp(out, line.delivery);
}

/// Appends the lines of a customer's newest order.
fn status_lines(out: &mut Pending, lines: &[StatusLine])
    requires few { length lines.now ≤ 15 }
    requires room { array_vec_len out.old + 77 * length lines.now ≤ SIZE }
    ensures items { out.new.items ≡ out.old.items ++ flat_map status_line_text lines.now }
    ensures len { array_vec_len out.new ≤ array_vec_len out.old + 77 * length lines.now }
{
    for line in lines {
        status_line(out, *line);
    }
}

/// Appends `<O_ID> <O_ENTRY_D> <carrier>`, and each line.
fn order(out: &mut Pending, order: &OrderStatus)
    requires { array_vec_len out.old + 1196 ≤ SIZE }
    ensures items { out.new.items ≡ out.old.items ++ order_text (Some order.now) }
    ensures len { array_vec_len out.new ≤ array_vec_len out.old + 1196 }
{
    small_then(out, order.number.get(), b' ');
    stamp_then(out, order.entry, b' ');
    nullable_carrier(out, order.carrier);
    status_lines(out, order.lines.as_slice());
}

/// Appends `status <C_ID> <C_BALANCE>`, and the order or `no order`.
fn status(out: &mut Pending, reply: &StatusReply)
    requires { array_vec_len out.old + 1239 ≤ SIZE }
    ensures items { out.new.items ≡ out.old.items ++ query_text (QueryReply.Status reply.now) }
    ensures len { array_vec_len out.new ≤ array_vec_len out.old + 1239 }
{
    text(out, b"status ");
    small_then(out, reply.customer.get(), b' ');
    balance_then(out, reply.balance, b' ');
    match &reply.order {
        Some(newest) => order(out, newest),
        None => text(out, b"no order"),
    }
}

/// Appends what a query replies.
pub(crate) fn query(out: &mut Pending, reply: &QueryReply)
    requires { array_vec_len out.old + 1239 ≤ SIZE }
    ensures items { out.new.items ≡ out.old.items ++ query_text reply.now }
    ensures len { array_vec_len out.new ≤ array_vec_len out.old + 1239 }
{
    match reply {
        QueryReply::Status(reply) => status(out, reply),
        QueryReply::Level(count) => {
            text(out, b"level ");
            small(out, count.get());
        }
    }
}
