//! What Order-Status says of a line.
ghost use Rattle.std.specs.Prelude.{◌≡◌};
ghost use Rattle.oe_model.specs.Queries.{status_line};

use oe_requests::StatusLine;
use oe_rows::OrderLine;

/// Answers what Order-Status says of a line (clause 2.6.3).
pub fn told(line: &OrderLine) -> StatusLine
    ensures { result ≡ status_line line.now }
{
    StatusLine {
        supply: line.supply,
        item: line.item,
        quantity: line.quantity,
        amount: line.amount,
        delivery: line.delivery,
    }
}
