//! The parts of rows that the writes of transactions change (clauses 2.4.2, 2.5.2 and 2.7.4), as
//! they stand before, and their images: a mask, whose bits for all other columns are 0, and the
//! columns of the part that change, by their order in the row.
ghost use Rattle.std.specs.Prelude.{◌≡◌, ◌≤◌, ◌+◌, length, option_map};
ghost use Rattle.oe_extent.specs.Images.{Writes, number};
ghost use Rattle.oe_rows.specs.Before.{account_before};
ghost use Rattle.oe_image.specs.Columns.{optional};
ghost use Rattle.oe_image.specs.Before.{mask, image_where_there, kept_text, account_columns};
ghost use Rattle.oe_image.specs.Before.{warehouse_before, district_before, customer_before, order_before};
ghost use Rattle.oe_image.specs.Before.{order_line_before, stock_before};
ghost use Rattle.oe_image.specs.Before.{warehouse_bits, district_bits, customer_bits, order_bits};
ghost use Rattle.oe_image.specs.Before.{order_line_bits, stock_bits};
ghost use Rattle.oe_image.specs.Parts.{columns_of, warehouse_part, district_part, customer_part};
ghost use Rattle.oe_image.specs.Parts.{customer_name_part, order_part, order_line_part, stock_part};

use crate::columns::Imaged;
use crate::masks::{bit, kept_length, ranged_length, write_kept, write_ranged};
use oe_extent::numbers::write_number;
use oe_rows::before::AccountBefore;
use oe_rows::customers::Account;
use oe_values::numbers::{Carrier, Count, OrderNumber, StockYtd, YearToDate};
use oe_values::stamps::Stamp;
use oe_values::texts::Text;

/// Of a WAREHOUSE row W_YTD.
#[derive(Drop)]
pub struct WarehousePart {
    pub ytd: Option<YearToDate>,
}

/// Of a DISTRICT row D_YTD and D_NEXT_O_ID.
#[derive(Drop)]
pub struct DistrictPart {
    pub ytd: Option<YearToDate>,
    pub next_order: Option<OrderNumber>,
}

/// Of a CUSTOMER row the money and counts before and after, and C_DATA, lent from where they lie.
#[derive(Drop)]
pub struct CustomerPart<'a> {
    pub before: &'a Account,
    pub after: &'a Account,
    pub data: Option<&'a Text<0, 500>>,
}

/// Of a CUSTOMER row C_FIRST and C_LAST, lent from where they lie.
#[derive(Drop)]
pub struct CustomerNamePart<'a> {
    pub first: Option<&'a Text<0, 16>>,
    pub last: Option<&'a Text<0, 16>>,
}

/// Of an ORDER row O_CARRIER_ID.
#[derive(Drop)]
pub struct OrderPart {
    pub carrier: Option<Option<Carrier>>,
}

/// Of an ORDER-LINE row OL_DELIVERY_D.
#[derive(Drop)]
pub struct OrderLinePart {
    pub delivery: Option<Option<Stamp>>,
}

/// Of a STOCK row S_QUANTITY, S_YTD, S_ORDER_CNT and S_REMOTE_CNT.
#[derive(Drop)]
pub struct StockPart {
    pub quantity: Option<Count>,
    pub ytd: Option<StockYtd>,
    pub order_count: Option<Count>,
    pub remote_count: Option<Count>,
}

/// Writes which columns of a WAREHOUSE row's part change, and answers the offset behind it.
#[inline(always)]
fn write_warehouse_mask(w: &WarehousePart, bytes: &mut [u8], start: usize) -> usize
    requires { start + 1 ≤ length bytes.old }
    ensures { Writes bytes.old start (mask 1 (warehouse_bits (warehouse_part w.now)))
        bytes.new result }
{
    write_number(bytes, start, u64::from(bit(&w.ytd, 1)), 1)
}

impl Imaged for WarehousePart {
    ghost most = { 9 };

    ghost image = { λ w. warehouse_before (warehouse_part w) };

    #[inline(always)]
    #[tactic(auto, unfolding(crate::specs::Before::warehouse_columns, crate::specs::Before::address_columns))]
    fn length(&self) -> usize {
        1 + kept_length(&self.ytd)
    }

    #[inline(always)]
    #[tactic(auto, unfolding(crate::specs::Before::warehouse_columns, crate::specs::Before::address_columns))]
    fn write(&self, bytes: &mut [u8], start: usize) -> usize {
        let at = write_warehouse_mask(self, bytes, start);
        write_kept(&self.ytd, bytes, at)
    }
}

/// Writes which columns of a DISTRICT row's part change, and answers the offset behind it.
#[inline(always)]
fn write_district_mask(d: &DistrictPart, bytes: &mut [u8], start: usize) -> usize
    requires { start + 2 ≤ length bytes.old }
    ensures { Writes bytes.old start (mask 2 (district_bits (district_part d.now)))
        bytes.new result }
{
    let bits = bit(&d.ytd, 256) + bit(&d.next_order, 128);
    write_number(bytes, start, u64::from(bits), 2)
}

impl Imaged for DistrictPart {
    ghost most = { 14 };

    ghost image = { λ d. district_before (district_part d) };

    #[inline(always)]
    #[tactic(auto, unfolding(crate::specs::Before::district_columns, crate::specs::Before::address_columns))]
    fn length(&self) -> usize {
        2 + kept_length(&self.ytd) + ranged_length(&self.next_order, 4)
    }

    #[inline(always)]
    #[tactic(auto, unfolding(crate::specs::Before::district_columns, crate::specs::Before::address_columns))]
    fn write(&self, bytes: &mut [u8], start: usize) -> usize {
        let at = write_district_mask(self, bytes, start);
        let at = write_kept(&self.ytd, bytes, at);
        write_ranged(&self.next_order, 4, bytes, at)
    }
}

impl Imaged for AccountBefore {
    ghost most = { 30 };

    ghost image = { λ a. account_columns a };

    #[inline]
    #[tactic(auto, unfolding(crate::specs::Before::account_columns))]
    fn length(&self) -> usize {
        kept_length(&self.credit_limit)
            + ranged_length(&self.discount, 2)
            + kept_length(&self.balance)
            + kept_length(&self.ytd_payment)
            + ranged_length(&self.payment_count, 2)
            + ranged_length(&self.delivery_count, 2)
    }

    #[inline]
    #[tactic(auto, unfolding(crate::specs::Before::account_columns))]
    fn write(&self, bytes: &mut [u8], start: usize) -> usize {
        let at = write_kept(&self.credit_limit, bytes, start);
        let at = write_ranged(&self.discount, 2, bytes, at);
        let at = write_kept(&self.balance, bytes, at);
        let at = write_kept(&self.ytd_payment, bytes, at);
        let at = write_ranged(&self.payment_count, 2, bytes, at);
        write_ranged(&self.delivery_count, 2, bytes, at)
    }
}

/// Writes which columns of a CUSTOMER row's part change, those of the account given beside it, and
/// answers the offset behind it.
#[inline(always)]
fn write_customer_mask(
    account: &AccountBefore,
    data: &Option<&Text<0, 500>>,
    bytes: &mut [u8],
    start: usize,
) -> usize
    requires { start + 3 ≤ length bytes.old }
    ensures { Writes bytes.old start
        (mask 3 (customer_bits (columns_of account.now (option_map (λ t. t.now) data.now))))
        bytes.new result }
{
    let bits = bit(&account.credit_limit, 4096)
        + bit(&account.discount, 2048)
        + bit(&account.balance, 1024)
        + bit(&account.ytd_payment, 512)
        + bit(&account.payment_count, 256)
        + bit(&account.delivery_count, 128)
        + bit(data, 64);
    write_number(bytes, start, u64::from(bits), 3)
}

impl<'a> Imaged for CustomerPart<'a> {
    ghost most = { 535 };

    ghost image = { λ c. customer_before (customer_part c) };

    #[inline(always)]
    #[tactic(auto, unfolding(crate::specs::Before::customer_columns, crate::specs::Before::name_columns, crate::specs::Before::address_columns))]
    fn length(&self) -> usize {
        let account = AccountBefore::of(self.before, self.after);
        3 + account.length() + text_length(&self.data)
    }

    #[inline(always)]
    #[tactic(auto, unfolding(crate::specs::Before::customer_columns, crate::specs::Before::name_columns, crate::specs::Before::address_columns))]
    fn write(&self, bytes: &mut [u8], start: usize) -> usize {
        let account = AccountBefore::of(self.before, self.after);
        let at = write_customer_mask(&account, &self.data, bytes, start);
        let at = account.write(bytes, at);
        write_lent(&self.data, bytes, at)
    }
}

/// Writes which columns of a CUSTOMER row's names change, and answers the offset behind it.
#[inline(always)]
fn write_name_mask(n: &CustomerNamePart<'_>, bytes: &mut [u8], start: usize) -> usize
    requires { start + 3 ≤ length bytes.old }
    ensures { Writes bytes.old start (mask 3 (customer_bits (customer_name_part n.now)))
        bytes.new result }
{
    let bits = bit(&n.first, 8_388_608) + bit(&n.last, 2_097_152);
    write_number(bytes, start, u64::from(bits), 3)
}

impl<'a> Imaged for CustomerNamePart<'a> {
    ghost most = { 39 };

    ghost image = { λ n. customer_before (customer_name_part n) };

    #[inline]
    #[tactic(auto, unfolding(crate::specs::Before::customer_columns, crate::specs::Before::name_columns, crate::specs::Before::address_columns, crate::specs::Before::account_columns))]
    fn length(&self) -> usize {
        3 + text_length(&self.first) + text_length(&self.last)
    }

    #[inline]
    #[tactic(auto, unfolding(crate::specs::Before::customer_columns, crate::specs::Before::name_columns, crate::specs::Before::address_columns, crate::specs::Before::account_columns))]
    fn write(&self, bytes: &mut [u8], start: usize) -> usize {
        let at = write_name_mask(self, bytes, start);
        let at = write_lent(&self.first, bytes, at);
        write_lent(&self.last, bytes, at)
    }
}

/// Tells how many bytes the image of a lent text has, and 0 where it is not there.
#[inline(always)]
fn text_length<const MOST: usize>(column: &Option<&Text<0, MOST>>) -> usize
    requires { MOST ≤ 500 }
    ensures value { result ≡ length (kept_text (option_map (λ t. t.now) column.now)) }
    ensures short { result ≤ MOST + 2 }
{
    match column {
        Some(text) => text.length(),
        None => 0,
    }
}

/// Writes a lent text, if it is there, from offset `start` on, and answers the offset behind it.
#[inline(always)]
fn write_lent<const MOST: usize>(
    column: &Option<&Text<0, MOST>>,
    bytes: &mut [u8],
    start: usize,
) -> usize
    requires short { MOST ≤ 500 }
    requires room { start + length (kept_text (option_map (λ t. t.now) column.now))
        ≤ length bytes.old }
    ensures { Writes bytes.old start (kept_text (option_map (λ t. t.now) column.now)) bytes.new
        result }
{
    match column {
        Some(text) => text.write(bytes, start),
        None => start,
    }
}

/// Gives O_CARRIER_ID, which may be null, as it is written.
#[inline(always)]
fn carrier(carrier: &Option<Option<Carrier>>) -> Option<Option<u8>>
    ensures { result ≡ carrier.now }
{
    match carrier {
        Some(Some(carrier)) => Some(Some(carrier.get() as u8)),
        Some(None) => Some(None),
        None => None,
    }
}

/// Writes O_CARRIER_ID, if it is there, from offset `start` on, and answers the offset behind it.
#[inline(always)]
fn write_carrier(column: &Option<Option<Carrier>>, bytes: &mut [u8], start: usize) -> usize
    requires { start + length (image_where_there (optional (λ c. number 1 c)) column.now)
        ≤ length bytes.old }
    ensures { Writes bytes.old start (image_where_there
        (optional (λ c. number 1 c)) column.now) bytes.new
        result }
{
    write_kept(&carrier(column), bytes, start)
}

/// Writes which columns of an ORDER row's part change, and answers the offset behind it.
#[inline(always)]
fn write_order_mask(o: &OrderPart, bytes: &mut [u8], start: usize) -> usize
    requires { start + 1 ≤ length bytes.old }
    ensures { Writes bytes.old start (mask 1 (order_bits (order_part o.now)))
        bytes.new result }
{
    write_number(bytes, start, u64::from(bit(&o.carrier, 32)), 1)
}

impl Imaged for OrderPart {
    ghost most = { 3 };

    ghost image = { λ o. order_before (order_part o) };

    #[inline(always)]
    #[tactic(auto, unfolding(crate::specs::Before::order_columns))]
    fn length(&self) -> usize {
        1 + kept_length(&carrier(&self.carrier))
    }

    #[inline(always)]
    #[tactic(auto, unfolding(crate::specs::Before::order_columns))]
    fn write(&self, bytes: &mut [u8], start: usize) -> usize {
        let at = write_order_mask(self, bytes, start);
        write_carrier(&self.carrier, bytes, at)
    }
}

/// Writes which columns of an ORDER-LINE row's part change, and answers the offset behind it.
#[inline(always)]
fn write_order_line_mask(l: &OrderLinePart, bytes: &mut [u8], start: usize) -> usize
    requires { start + 1 ≤ length bytes.old }
    ensures { Writes bytes.old start (mask 1 (order_line_bits (order_line_part l.now)))
        bytes.new result }
{
    write_number(bytes, start, u64::from(bit(&l.delivery, 32)), 1)
}

impl Imaged for OrderLinePart {
    ghost most = { 10 };

    ghost image = { λ l. order_line_before (order_line_part l) };

    #[inline(always)]
    #[tactic(auto, unfolding(crate::specs::Before::order_line_columns))]
    fn length(&self) -> usize {
        1 + kept_length(&self.delivery)
    }

    #[inline(always)]
    #[tactic(auto, unfolding(crate::specs::Before::order_line_columns))]
    fn write(&self, bytes: &mut [u8], start: usize) -> usize {
        let at = write_order_line_mask(self, bytes, start);
        write_kept(&self.delivery, bytes, at)
    }
}

/// Writes which columns of a STOCK row's part change, and answers the offset behind it.
#[inline(always)]
fn write_stock_mask(s: &StockPart, bytes: &mut [u8], start: usize) -> usize
    requires { start + 2 ≤ length bytes.old }
    ensures { Writes bytes.old start (mask 2 (stock_bits (stock_part s.now)))
        bytes.new result }
{
    let bits = bit(&s.quantity, 32768)
        + bit(&s.ytd, 16)
        + bit(&s.order_count, 8)
        + bit(&s.remote_count, 4);
    write_number(bytes, start, u64::from(bits), 2)
}

impl Imaged for StockPart {
    ghost most = { 12 };

    ghost image = { λ s. stock_before (stock_part s) };

    #[inline(always)]
    #[tactic(auto, unfolding(crate::specs::Before::stock_columns, crate::specs::Before::ten_columns))]
    fn length(&self) -> usize {
        2 + ranged_length(&self.quantity, 2)
            + ranged_length(&self.ytd, 4)
            + ranged_length(&self.order_count, 2)
            + ranged_length(&self.remote_count, 2)
    }

    #[inline(always)]
    #[tactic(auto, unfolding(crate::specs::Before::stock_columns, crate::specs::Before::ten_columns))]
    fn write(&self, bytes: &mut [u8], start: usize) -> usize {
        let at = write_stock_mask(self, bytes, start);
        let at = write_ranged(&self.quantity, 2, bytes, at);
        let at = write_ranged(&self.ytd, 4, bytes, at);
        let at = write_ranged(&self.order_count, 2, bytes, at);
        write_ranged(&self.remote_count, 2, bytes, at)
    }
}
