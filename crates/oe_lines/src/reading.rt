//! A line's one meaning, or none: each function reads one form of the grammar, exactly. The forms
//! that most lines of a script have come first and are read by themselves.
ghost use Rattle.std.specs.Prelude.{◌≡◌, ℕ, IfSome, Some};
ghost use Rattle.std.specs.Option.{option_map};
ghost use Rattle.oe_requests.specs.declared.requests.PaymentRequest.{PaymentRequest};
ghost use Rattle.oe_requests.specs.declared.requests.Request.TheVariants as kind;
ghost use Rattle.oe_lines.specs.declared.commands.Command.{Command};
ghost use Rattle.oe_lines.specs.declared.commands.Command.TheVariants as asks;
ghost use Rattle.oe_lines.specs.Grammar.{Says};
ghost use Rattle.oe_lines.specs.Reading.{command_of, run_of, begun_payment_of, rare_command_of, at_end, opening_of, layout_at, ring_of, beginning_of, request_of, district_of, customer_of, payment_of, new_order_of, delivery_of, deliveries_of, rename_of, line_of, lines_of, table_of, moment_of, moment_before, condition_of, audit_of, last_customer_of, status_of, level_of, query_of, reading_of};

use crate::commands::{Command, Display, MomentChoice, RingChoice};
use crate::words::{
    amount_before, first_name, is_word, last_name, last_number, name_before, number, number_before,
    number_then, stamp, stamp_before,
};
use oe_requests::{
    Condition, CustomerChoice, DeliveriesRequest, DeliveryRequest, LevelQuery, NewOrderRequest,
    PaymentRequest, Query, RenameRequest, Request, RequestLine, RequestLines, StatusQuery,
};
use oe_rows::{CustomerKey, DistrictKey, Layout, Scale, Table, WarehouseKey};
use oe_values::fronts::{after, decimal};
use oe_values::{Lines, Moment, Number, Terminal};

/// Reads what a line asks for, where it is one of the forms. The line stands without its end, which
/// is byte 10.
pub fn command(line: &[u8]) -> Option<Command>
    // What is read is said.
    ensures found { IfSome result (λ c. Says line.now c) }
    // What is said is read.
    ensures only { (c : Command) → Says line.now c → result ≡ Some c }
{
    read_command(line)
}

/// Reads the terminal whose transaction the line `run T` runs; none where the line is another. The
/// line stands without its end, which is byte 10. It says what `command` says of such a line,
/// without a command's length.
#[inline]
pub fn terminal_to_run(line: &[u8]) -> Option<Terminal>
    // What is read is said.
    ensures found { IfSome result (λ t. Says line.now (asks.Run t)) }
    // What is said is read.
    ensures only { (t : ℕ) → Says line.now (asks.Run t) → result ≡ Some t }
{
    read_run(line)
}

/// Reads the payment that the line `begin T payment ..` begins, and its terminal before it; none
/// where the line is another. The line stands without its end, which is byte 10. It says what
/// `command` says of such a line, without a command's length.
#[inline]
pub fn payment_to_begin(line: &[u8]) -> Option<(Terminal, PaymentRequest)>
    // What is read is said.
    ensures found { IfSome result (λ b. Says line.now (asks.Begin b.0 (kind.Payment b.1))) }
    // What is said is read.
    ensures only { (t : ℕ) → (p : PaymentRequest) →
        Says line.now (asks.Begin t (kind.Payment p)) → result ≡ Some (t, p) }
{
    read_begun_payment(line)
}

/// Reads `run T`.
#[inline]
#[tactic(auto, unfolding(crate::specs::Reading::run_of))]
fn read_run(line: &[u8]) -> Option<Terminal>
    ensures { result ≡ run_of line.now }
{
    let rest = after(line, b"run ")?;
    last_number(rest)
}

/// Reads `begin T payment ..`.
#[inline]
#[tactic(auto, unfolding(crate::specs::Reading::begun_payment_of))]
fn read_begun_payment(line: &[u8]) -> Option<(Terminal, PaymentRequest)>
    ensures { result ≡ begun_payment_of line.now }
{
    let rest = after(line, b"begin ")?;
    let Some((terminal, rest)) = number_before(rest) else {
        return None;
    };
    let rest = after(rest, b"payment ")?;
    Some((terminal, payment(rest)?))
}

/// Reads a line, and tries the commonest forms first.
#[tactic(auto, unfolding(crate::specs::Reading::command_of))]
fn read_command(line: &[u8]) -> Option<Command>
    ensures { result ≡ command_of line.now }
{
    if let Some(rest) = after(line, b"begin ") {
        return beginning(rest);
    }
    if let Some(rest) = after(line, b"run ") {
        return Some(Command::Run(last_number(rest)?));
    }
    if let Some(rest) = after(line, b"next ") {
        return Some(Command::Next(last_number(rest)?));
    }
    rare_command(line)
}

/// Reads the other lines.
#[inline(never)]
#[tactic(auto, unfolding(crate::specs::Reading::rare_command_of))]
fn rare_command(line: &[u8]) -> Option<Command>
    ensures { result ≡ rare_command_of line.now }
{
    if let Some(rest) = after(line, b"save ") {
        Some(Command::Save(last_number(rest)?))
    } else if let Some(rest) = after(line, b"back ") {
        Some(Command::Back(last_number(rest)?))
    } else if let Some(rest) = after(line, b"rollback ") {
        Some(Command::Rollback(last_number(rest)?))
    } else if let Some(rest) = after(line, b"open ") {
        opening(rest)
    } else if let Some(rest) = after(line, b"dump ") {
        Some(Command::Show(Display::Rows(table(rest)?)))
    } else if let Some(rest) = after(line, b"audit ") {
        audit(rest)
    } else if let Some(rest) = after(line, b"read ") {
        reading(rest)
    } else if let Some(rest) = after(line, b"waits") {
        at_end(rest, Command::Show(Display::Waits))
    } else if let Some(rest) = after(line, b"locks") {
        at_end(rest, Command::Show(Display::Locks))
    } else if let Some(rest) = after(line, b"purge ") {
        Some(Command::Purge(moment(rest)?))
    } else if let Some(rest) = after(line, b"rewind ") {
        Some(Command::Rewind(moment(rest)?))
    } else {
        None
    }
}

/// Gives a command where the line ends.
#[tactic(auto, unfolding(crate::specs::Reading::at_end))]
fn at_end(rest: &[u8], command: Command) -> Option<Command>
    ensures { result ≡ at_end command rest.now }
{
    if rest.is_empty() { Some(command) } else { None }
}

/// Reads what stands behind the number of extents: nothing, or a layout.
#[tactic(auto, unfolding(crate::specs::Reading::layout_at))]
fn layout(rest: &[u8]) -> Option<Option<Layout>>
    ensures { result ≡ layout_at rest.now }
{
    if rest.is_empty() {
        Some(None)
    } else if is_word(rest, b" 1") {
        Some(Some(Layout::WholeRows))
    } else if is_word(rest, b" 2") {
        Some(Some(Layout::ChangedColumns))
    } else {
        None
    }
}

/// Reads `E`, or `E L`.
#[tactic(auto, unfolding(crate::specs::Reading::ring_of))]
fn ring(text: &[u8]) -> Option<RingChoice>
    ensures { result ≡ ring_of text.now }
{
    let Some((extents, rest)) = number(text) else {
        return None;
    };
    let layout = layout(rest)?;
    Some(RingChoice { extents, layout })
}

/// Reads `W C I E`, or `W C I E L`.
#[tactic(auto, unfolding(crate::specs::Reading::opening_of))]
fn opening(text: &[u8]) -> Option<Command>
    ensures { result ≡ opening_of text.now }
{
    let Some((warehouses, rest)) = number_before(text) else {
        return None;
    };
    let Some((customers, rest)) = number_before(rest) else {
        return None;
    };
    let Some((items, rest)) = number_before(rest) else {
        return None;
    };
    let ring = ring(rest)?;
    let scale = Scale {
        warehouses,
        customers,
        items,
    };
    Some(Command::Open(scale, ring))
}

/// Reads `T`, and the request.
#[tactic(auto, unfolding(crate::specs::Reading::beginning_of))]
fn beginning(text: &[u8]) -> Option<Command>
    ensures { result ≡ beginning_of text.now }
{
    let Some((terminal, rest)) = number_before(text) else {
        return None;
    };
    let request = request(rest)?;
    Some(Command::Begin(terminal, request))
}

/// Reads `payment ..`, `neworder ..`, `delivery ..` of all ten districts or of one, or `rename ..`.
#[inline]
#[tactic(auto, unfolding(crate::specs::Reading::request_of))]
fn request(text: &[u8]) -> Option<Request>
    ensures { result ≡ request_of text.now }
{
    if let Some(rest) = after(text, b"payment ") {
        return Some(Request::Payment(payment(rest)?));
    }
    if let Some(rest) = after(text, b"neworder ") {
        return Some(Request::NewOrder(new_order(rest)?));
    }
    if let Some(rest) = after(text, b"delivery ") {
        if let Some(deliveries) = deliveries(rest) {
            return Some(Request::Deliveries(deliveries));
        }
        return Some(Request::Delivery(delivery(rest)?));
    }
    if let Some(rest) = after(text, b"rename ") {
        return Some(Request::Rename(rename(rest)?));
    }
    None
}

/// Reads `w d`, and what follows the space after it.
#[inline(always)]
#[tactic(auto, unfolding(crate::specs::Reading::district_of))]
fn district(text: &[u8]) -> Option<(DistrictKey, &[u8])>
    ensures { option_map (λ p. (p.0, p.1.now)) result ≡ district_of text.now }
{
    let Some((warehouse, rest)) = number_before(text) else {
        return None;
    };
    let Some((district, rest)) = number_before(rest) else {
        return None;
    };
    let key = DistrictKey {
        warehouse,
        district,
    };
    Some((key, rest))
}

/// Reads a customer by number or by last name, and what follows the space after it.
#[tactic(auto, unfolding(crate::specs::Reading::customer_of))]
fn customer(text: &[u8]) -> Option<(CustomerChoice, &[u8])>
    ensures { option_map (λ p. (p.0, p.1.now)) result ≡ customer_of text.now }
{
    if let Some((number, rest)) = number_before(text) {
        return Some((CustomerChoice::Number(number), rest));
    }
    let Some((name, rest)) = name_before(text) else {
        return None;
    };
    Some((CustomerChoice::LastName(name), rest))
}

/// Reads `w d cw cd customer amount stamp`.
#[inline]
#[tactic(auto, unfolding(crate::specs::Reading::payment_of))]
fn payment(text: &[u8]) -> Option<PaymentRequest>
    ensures { result ≡ payment_of text.now }
{
    let Some((at, rest)) = district(text) else {
        return None;
    };
    let Some((customer_district, rest)) = district(rest) else {
        return None;
    };
    let Some((customer, rest)) = customer(rest) else {
        return None;
    };
    let Some((amount, rest)) = amount_before(rest) else {
        return None;
    };
    let stamp = stamp(rest)?;
    Some(PaymentRequest {
        district: at,
        customer_district,
        customer,
        amount,
        stamp,
    })
}

/// Reads `w d c stamp sw:i:q ..`.
#[tactic(auto, unfolding(crate::specs::Reading::new_order_of))]
fn new_order(text: &[u8]) -> Option<NewOrderRequest>
    ensures { result ≡ new_order_of text.now }
{
    let Some((district, rest)) = district(text) else {
        return None;
    };
    let Some((customer, rest)) = number_before(rest) else {
        return None;
    };
    let Some((stamp, rest)) = stamp_before(rest) else {
        return None;
    };
    let lines = lines(rest)?;
    Some(NewOrderRequest {
        district,
        customer,
        stamp,
        lines,
    })
}

/// Reads `w d carrier stamp`.
#[tactic(auto, unfolding(crate::specs::Reading::delivery_of))]
fn delivery(text: &[u8]) -> Option<DeliveryRequest>
    ensures { result ≡ delivery_of text.now }
{
    let Some((district, rest)) = district(text) else {
        return None;
    };
    let Some((carrier, rest)) = number_before(rest) else {
        return None;
    };
    let stamp = stamp(rest)?;
    Some(DeliveryRequest {
        district,
        carrier,
        stamp,
    })
}

/// Reads `w carrier stamp`, which asks for all ten districts.
#[tactic(auto, unfolding(crate::specs::Reading::deliveries_of))]
fn deliveries(text: &[u8]) -> Option<DeliveriesRequest>
    ensures { result ≡ deliveries_of text.now }
{
    let Some((warehouse, rest)) = number_before(text) else {
        return None;
    };
    let Some((carrier, rest)) = number_before(rest) else {
        return None;
    };
    let stamp = stamp(rest)?;
    Some(DeliveriesRequest {
        warehouse: WarehouseKey { warehouse },
        carrier,
        stamp,
    })
}

/// Reads `w d c LAST FIRST`.
#[tactic(auto, unfolding(crate::specs::Reading::rename_of))]
fn rename(text: &[u8]) -> Option<RenameRequest>
    ensures { result ≡ rename_of text.now }
{
    let Some((district, rest)) = district(text) else {
        return None;
    };
    let Some((customer, rest)) = number_before(rest) else {
        return None;
    };
    let Some((last, rest)) = name_before(rest) else {
        return None;
    };
    let first = first_name(rest)?;
    let customer = CustomerKey {
        warehouse: district.warehouse,
        district: district.district,
        customer,
    };
    Some(RenameRequest {
        customer,
        last,
        first,
    })
}

/// Reads `sw:i:q`, and what follows it.
#[inline]
#[tactic(auto, unfolding(crate::specs::Reading::line_of))]
fn line(text: &[u8]) -> Option<(RequestLine, &[u8])>
    ensures { option_map (λ p. (p.0, p.1.now)) result ≡ line_of text.now }
{
    let Some((supply, rest)) = number_then(text, b':') else {
        return None;
    };
    let Some((item, rest)) = number_then(rest, b':') else {
        return None;
    };
    let Some((quantity, rest)) = number(rest) else {
        return None;
    };
    let line = RequestLine {
        supply,
        item,
        quantity,
    };
    Some((line, rest))
}

/// Reads the lines of an order, parted by one space.
fn lines(text: &[u8]) -> Option<RequestLines>
    ensures { result ≡ lines_of text.now }
{
    let mut read: Lines<RequestLine, 0, 15> = Lines::new();
    let mut left = text;
    while read.as_slice().len() < 15 {
        let Some((line, rest)) = line(left) else {
            return None;
        };
        read.push(line);
        if rest.is_empty() {
            return Lines::read(read.as_slice());
        }
        let Some(next) = after(rest, b" ") else {
            return None;
        };
        left = next;
    }
    None
}

/// Reads a table's name.
#[tactic(auto, unfolding(crate::specs::Reading::table_of))]
fn table(text: &[u8]) -> Option<Table>
    ensures { result ≡ table_of text.now }
{
    if is_word(text, b"warehouse") {
        Some(Table::Warehouse)
    } else if is_word(text, b"district") {
        Some(Table::District)
    } else if is_word(text, b"customer") {
        Some(Table::Customer)
    } else if is_word(text, b"history") {
        Some(Table::History)
    } else if is_word(text, b"neworder") {
        Some(Table::NewOrder)
    } else if is_word(text, b"order") {
        Some(Table::Order)
    } else if is_word(text, b"orderline") {
        Some(Table::OrderLine)
    } else if is_word(text, b"item") {
        Some(Table::Item)
    } else if is_word(text, b"stock") {
        Some(Table::Stock)
    } else {
        None
    }
}

/// Gives the condition of a number, which 11 is not.
#[tactic(auto, unfolding(crate::specs::Reading::condition_of))]
fn condition(number: u32) -> Option<Condition>
    ensures { result ≡ condition_of number }
{
    match number {
        1 => Some(Condition::First),
        2 => Some(Condition::Second),
        3 => Some(Condition::Third),
        4 => Some(Condition::Fourth),
        5 => Some(Condition::Fifth),
        6 => Some(Condition::Sixth),
        7 => Some(Condition::Seventh),
        8 => Some(Condition::Eighth),
        9 => Some(Condition::Ninth),
        10 => Some(Condition::Tenth),
        12 => Some(Condition::Twelfth),
        _ => None,
    }
}

/// Reads `N M`.
#[tactic(auto, unfolding(crate::specs::Reading::audit_of))]
fn audit(text: &[u8]) -> Option<Command>
    ensures { result ≡ audit_of text.now }
{
    let Some((number, rest)) = number_before(text) else {
        return None;
    };
    let number: Number<1, 12> = number;
    let condition = condition(number.get())?;
    let moment = moment(rest)?;
    Some(Command::Audit(condition, moment))
}

/// Reads `now`, or the number of a moment.
#[tactic(auto, unfolding(crate::specs::Reading::moment_of))]
fn moment(text: &[u8]) -> Option<MomentChoice>
    ensures { result ≡ moment_of text.now }
{
    if is_word(text, b"now") {
        return Some(MomentChoice::Now);
    }
    let (commits, rest) = decimal(text)?;
    if !rest.is_empty() {
        return None;
    }
    Some(MomentChoice::At(Moment::new(commits)?))
}

/// Reads a moment before a space, and what follows the space.
#[tactic(auto, unfolding(crate::specs::Reading::moment_before))]
fn moment_before(text: &[u8]) -> Option<(MomentChoice, &[u8])>
    ensures { option_map (λ p. (p.0, p.1.now)) result ≡ moment_before text.now }
{
    if let Some(rest) = after(text, b"now ") {
        return Some((MomentChoice::Now, rest));
    }
    let (commits, rest) = decimal(text)?;
    let moment = Moment::new(commits)?;
    Some((MomentChoice::At(moment), after(rest, b" ")?))
}

/// Reads `M`, and the query.
#[tactic(auto, unfolding(crate::specs::Reading::reading_of))]
fn reading(text: &[u8]) -> Option<Command>
    ensures { result ≡ reading_of text.now }
{
    let Some((moment, rest)) = moment_before(text) else {
        return None;
    };
    let query = query(rest)?;
    Some(Command::Read(moment, query))
}

/// Reads `status ..` or `level ..`.
#[inline]
#[tactic(auto, unfolding(crate::specs::Reading::query_of))]
fn query(text: &[u8]) -> Option<Query>
    ensures { result ≡ query_of text.now }
{
    if let Some(rest) = after(text, b"status ") {
        return Some(Query::Status(status(rest)?));
    }
    if let Some(rest) = after(text, b"level ") {
        return Some(Query::Level(level(rest)?));
    }
    None
}

/// Reads `w d customer`.
#[tactic(auto, unfolding(crate::specs::Reading::status_of))]
fn status(text: &[u8]) -> Option<StatusQuery>
    ensures { result ≡ status_of text.now }
{
    let Some((district, rest)) = district(text) else {
        return None;
    };
    let customer = last_customer(rest)?;
    Some(StatusQuery { district, customer })
}

/// Reads a customer by number or by last name at the line's end.
#[tactic(auto, unfolding(crate::specs::Reading::last_customer_of))]
fn last_customer(text: &[u8]) -> Option<CustomerChoice>
    ensures { result ≡ last_customer_of text.now }
{
    if let Some(number) = last_number(text) {
        return Some(CustomerChoice::Number(number));
    }
    let Some(name) = last_name(text) else {
        return None;
    };
    Some(CustomerChoice::LastName(name))
}

/// Reads `w d threshold`.
#[tactic(auto, unfolding(crate::specs::Reading::level_of))]
fn level(text: &[u8]) -> Option<LevelQuery>
    ensures { result ≡ level_of text.now }
{
    let Some((district, rest)) = district(text) else {
        return None;
    };
    let threshold = last_number(rest)?;
    Some(LevelQuery {
        district,
        threshold,
    })
}
