//! Orders (clause 2.4.1): how many lines, and each line's item, supplier and quantity.
ghost use Rattle.std.specs.Prelude.{◌≡◌, ◌<◌, length};
ghost use Rattle.oe_terms.specs.Errands.{line, used_lines, lines, new_order};

use crate::columns::{customer_number, district_in, home, item_number, other, stamp_of};
use crate::draws::{number_in, random};
use crate::errands::RequestPlace;
use oe_requests::{NewOrderRequest, RequestLine, RequestLines};
use oe_rows::Scale;
use oe_values::known::number;
use oe_values::{LineCount, Lines, Terminal, WarehouseNumber};
use rand_pcg::Lcg64Xsh32;

/// Draws a line (clause 2.4.1.5): in 1 of 100 the other warehouse supplies it. An item past the
/// last one is unused; another is drawn in its place all the same.
fn line(
    scale: &Scale,
    warehouse: WarehouseNumber,
    is_unused: bool,
    words: &mut Lcg64Xsh32,
) -> RequestLine
    ensures { (result, words.new) ≡ line scale.now warehouse is_unused words.old }
{
    let drawn = item_number(scale.items, words).get();
    let is_remote = random(words, 1, 100) == 1;
    let item = if is_unused {
        scale.items.get() + 1
    } else {
        drawn
    };
    RequestLine {
        supply: if is_remote {
            other(scale, warehouse)
        } else {
            warehouse
        },
        item: number(item),
        quantity: number_in(words),
    }
}

/// Draws `count` lines, each of an item that is there.
fn used_lines(
    scale: &Scale,
    warehouse: WarehouseNumber,
    count: u32,
    words: &mut Lcg64Xsh32,
) -> Lines<RequestLine, 0, 15>
    requires { count < 15 }
    ensures drawn { (result, words.new) ≡ used_lines scale.now warehouse count words.old }
    ensures long { length result ≡ count }
{
    let mut drawn = Lines::new();
    for _ in 0..count {
        drawn.push(line(scale, warehouse, false, words));
    }
    drawn
}

/// Draws `count` lines; the item of the last may be unused (clause 2.4.1.5).
fn lines(
    scale: &Scale,
    warehouse: WarehouseNumber,
    is_unused: bool,
    count: LineCount,
    words: &mut Lcg64Xsh32,
) -> RequestLines
    ensures { (result, words.new) ≡ lines scale.now warehouse is_unused count words.old }
{
    let mut drawn = used_lines(scale, warehouse, count.get() - 1, words);
    drawn.push(line(scale, warehouse, is_unused, words));
    match RequestLines::read(drawn.as_slice()) {
        Some(lines) => lines,
        None => unreachable!(),
    }
}

/// Draws an order: in 1 of 100 its last item is unused (clause 2.4.1.4).
pub fn new_order(
    scale: &Scale,
    terminal: Terminal,
    r: RequestPlace,
    words: &mut Lcg64Xsh32,
) -> NewOrderRequest
    ensures { (result, words.new) ≡ new_order scale.now terminal r words.old }
{
    let warehouse = home(scale, terminal);
    let is_unused = random(words, 1, 100) == 1;
    let district = district_in(warehouse, words);
    let customer = customer_number(scale.customers, words);
    let count = number_in(words);
    let lines = lines(scale, warehouse, is_unused, count, words);
    NewOrderRequest {
        district,
        customer,
        stamp: stamp_of(r),
        lines,
    }
}
