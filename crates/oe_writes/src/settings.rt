//! Rows changed where they lie, once their records are pushed. Nothing can fail.
ghost use Rattle.std.specs.Prelude.{◌≡◌, IsSome, IfErr, OnOk, OnErr};
ghost use Rattle.oe_change.specs.Writes.{change_of};
ghost use Rattle.oe_change.specs.declared.writes.Write.TheVariants as writes;
ghost use Rattle.oe_store.specs.Places.{rows};
ghost use Rattle.oe_writes.specs.Made.{IsMade, RefusesWrite};

use oe_requests::Refusal;
use oe_rows::CustomerKey;
use oe_store::Tables;
use oe_values::Text;

/// Sets C_LAST and C_FIRST of a customer who is there. `NoMemory`: C_LAST is another one, and there
/// was no memory to find the customer by it. The tables are as before then.
#[inline(never)]
pub(crate) fn set_names(
    tables: &mut Tables,
    key: &CustomerKey,
    last: &Text<0, 16>,
    first: &Text<0, 16>,
) -> Result<(), Refusal>
    requires { IsSome (change_of (writes.CustomerNames key.now last.now first.now)
        (rows tables.old)) }
    ensures made { OnOk result (IsMade (writes.CustomerNames key.now last.now first.now)
        tables.old tables.new) }
    ensures refused { IfErr result (RefusesWrite
        (writes.CustomerNames key.now last.now first.now) tables.old) }
    ensures unchanged { OnErr result (tables.new ≡ tables.old) }
{
    match tables.set_customer_names(key, last, first) {
        Ok(()) => Ok(()),
        Err(_) => Err(Refusal::NoMemory),
    }
}
