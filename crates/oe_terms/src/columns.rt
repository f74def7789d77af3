//! The parts of requests: which warehouse, district, customer and item a terminal names, each drawn
//! from its generator or told by its number.
ghost use Rattle.std.specs.Prelude.{◌≡◌, ◌<◌, ◌≤◌};
ghost use Rattle.oe_terms.specs.Columns.{home, other, stamp_of, district_in, customer_number, name_number, name_drawn, item_number, choice, residence};

use crate::draws::{number_in, nurand, random};
use crate::errands::RequestPlace;
use crate::names::name_of;
use oe_requests::CustomerChoice;
use oe_rows::{DistrictKey, Scale};
use oe_values::known::number;
use oe_values::{CustomerNumber, ItemNumber, LastName, Stamp, Terminal, WarehouseNumber};
use rand_pcg::Lcg64Xsh32;

/// The customers of a district in the standard's population (clause 1.2.1), and how many of them
/// have different last names.
const CUSTOMERS: u32 = 3_000;

const NAMES: u32 = 1_000;

/// The items of the standard's population (clause 1.2.1).
const ITEMS: u32 = 100_000;

/// NURand's A for C_ID, C_LAST and OL_I_ID (clause 2.1.6).
const CUSTOMER_A: u32 = 1_023;

const NAME_A: u32 = 255;

const ITEM_A: u32 = 8_191;

/// NURand's C for each of these, which clause 2.1.6.1 leaves to the run.
const CUSTOMER_C: u32 = 987;

const NAME_C: u32 = 157;

const ITEM_C: u32 = 5_987;

/// 2001-01-01T00:00:00, in seconds since 1900-01-01T00:00:00.
const FIRST_STAMP: u64 = 3_187_296_000;

/// Gives the terminal's warehouse (clause 2.4.1.1).
pub fn home(scale: &Scale, terminal: Terminal) -> WarehouseNumber
    ensures { result ≡ home scale.now terminal }
{
    number(1 + (terminal.get() - 1) % scale.warehouses.get())
}

/// Gives the warehouse that stands for all others: the next, or the same where there is one alone.
pub fn other(scale: &Scale, warehouse: WarehouseNumber) -> WarehouseNumber
    ensures { result ≡ other scale.now warehouse }
{
    number(1 + warehouse.get() % scale.warehouses.get())
}

/// Gives the stamp of a terminal's request: r seconds after 2001-01-01T00:00:00.
pub fn stamp_of(r: RequestPlace) -> Stamp
    ensures { result ≡ stamp_of r }
{
    match Stamp::from_seconds(FIRST_STAMP + u64::from(r.get())) {
        Some(stamp) => stamp,
        None => unreachable!(),
    }
}

/// Draws one of a warehouse's ten districts (clause 2.4.1.2).
pub fn district_in(warehouse: WarehouseNumber, words: &mut Lcg64Xsh32) -> DistrictKey
    ensures { (result, words.new) ≡ district_in warehouse words.old }
{
    let district = number_in(words);
    DistrictKey {
        warehouse,
        district,
    }
}

/// Draws C_ID (clause 2.4.1.2), evenly where a district has other than 3,000 customers.
pub fn customer_number(customers: CustomerNumber, words: &mut Lcg64Xsh32) -> CustomerNumber
    ensures { (result, words.new) ≡ customer_number customers words.old }
{
    let count = customers.get();
    if count == CUSTOMERS {
        return number(nurand(words, CUSTOMER_A, CUSTOMER_C, 1, CUSTOMERS));
    }
    number(random(words, 1, count))
}

/// Draws the number of a last name that some customer has (clause 4.3.2.3), evenly where a district
/// has other than 3,000 customers.
pub fn name_number(customers: CustomerNumber, words: &mut Lcg64Xsh32) -> u32
    ensures drawn { (result, words.new) ≡ name_number customers words.old }
    ensures within { result < 1_000 }
{
    let count = customers.get();
    if count == CUSTOMERS {
        return nurand(words, NAME_A, NAME_C, 0, NAMES - 1);
    }
    random(words, 0, count.min(NAMES) - 1)
}

/// Draws I_ID (clause 2.4.1.5), evenly where there are other than 100,000 items.
pub fn item_number(items: ItemNumber, words: &mut Lcg64Xsh32) -> ItemNumber
    ensures { (result, words.new) ≡ item_number items words.old }
{
    let count = items.get();
    if count == ITEMS {
        return number(nurand(words, ITEM_A, ITEM_C, 1, ITEMS));
    }
    number(random(words, 1, count))
}

/// Draws C_LAST, a last name that some customer has.
pub fn name_drawn(customers: CustomerNumber, words: &mut Lcg64Xsh32) -> LastName
    ensures { (result, words.new) ≡ name_drawn customers words.old }
{
    name_of(name_number(customers, words))
}

/// Draws a customer (clauses 2.5.1.2 and 2.6.1.2): 60 in 100 by last name, the others by number.
pub fn choice(customers: CustomerNumber, words: &mut Lcg64Xsh32) -> CustomerChoice
    ensures { (result, words.new) ≡ choice customers words.old }
{
    if random(words, 1, 100) <= 60 {
        return CustomerChoice::LastName(name_drawn(customers, words));
    }
    CustomerChoice::Number(customer_number(customers, words))
}

/// Draws the district of a payment's customer (clause 2.5.1.2): in 85 of 100 the payment's own,
/// else one of the other warehouse.
pub fn residence(scale: &Scale, at: &DistrictKey, words: &mut Lcg64Xsh32) -> DistrictKey
    ensures { (result, words.new) ≡ residence scale.now at.now words.old }
{
    if random(words, 1, 100) <= 85 {
        return *at;
    }
    district_in(other(scale, at.warehouse), words)
}
