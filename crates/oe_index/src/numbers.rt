//! The number of the list that a customer is in, by the last name, and of the list of a customer's
//! orders: each district has 1,009 lists. Nothing can fail.
ghost use Rattle.std.specs.Prelude.{◌≡◌, ◌<◌};
ghost use Rattle.oe_index.specs.Numbers.{name_number, number_in, list_number, owner_number};

use oe_rows::{CustomerKey, DistrictKey};
use oe_values::Text;

/// Gives the number of the list of a last name among its district's: below 1,009, by all its bytes.
pub fn name_number(last: &Text<0, 16>) -> u32
    ensures value { result ≡ name_number last.now }
    ensures few { result < 1_009 }
{
    let mut number = 0u32;
    for byte in last.as_str().as_bytes() {
        number = (number * 31 + u32::from(*byte)) % 1_009;
    }
    number
}

/// Gives a district's list of a number below 1,009.
fn number_in(district: &DistrictKey, own: u32) -> usize
    requires { own < 1_009 }
    ensures value { result ≡ number_in district.now own }
    ensures few { result < 1_000_000 }
{
    let (warehouse, number) = district.columns();
    let before = (warehouse - 1) * 10 + (number - 1);
    (before * 1_009 + own) as usize
}

/// Gives the number of the list of a district's customers with a last name. Customers of other
/// names may be in it too.
pub(crate) fn list_number(district: &DistrictKey, last: &Text<0, 16>) -> usize
    ensures value { result ≡ list_number district.now last.now }
    ensures few { result < 1_000_000 }
{
    number_in(district, name_number(last))
}

/// Gives the number of the list of a customer's orders. Orders of other customers may be in it too.
pub(crate) fn owner_number(customer: &CustomerKey) -> usize
    ensures value { result ≡ owner_number customer.now }
    ensures few { result < 1_000_000 }
{
    let own = customer.customer.get() % 1_009;
    number_in(&customer.district_key(), own)
}
