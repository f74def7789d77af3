//! A query of either kind: whether its warehouse is there, and its answer, of now or of a moment.
ghost use Rattle.std.specs.Prelude.{◌≡◌, IfOk, IfErr};
ghost use Rattle.oe_theory.specs.Machine.{Here, Missing};
ghost use Rattle.oe_model.specs.Requests.{query_rejection};
ghost use Rattle.oe_model.specs.Queries.{answer_of};
ghost use Rattle.oe_store.specs.Places.{rows};

use crate::level::stock_level;
use crate::status::order_status;
use crate::warehouses::absent;
use oe_requests::{Query, QueryReply, Refusal};
use oe_rows_of::RowsOf;
use oe_store::Tables;

/// Gives `NoSuchRow` of the query's warehouse, where that isn't there.
pub fn rejection(tables: &Tables, query: &Query) -> Option<Refusal>
    ensures { result ≡ query_rejection query.now (rows tables.now) }
{
    match query {
        Query::Status(query) => absent(tables, query.district.warehouse),
        Query::Level(query) => absent(tables, query.district.warehouse),
    }
}

/// Gives what a query is answered of the rows of now or of a moment: what `order_status` or
/// `stock_level` answers, and refuses. The rows of a moment are what all commits up to it have
/// left, without anybody's open work.
pub fn answer<R: RowsOf>(then: &R, query: &Query) -> Result<QueryReply, Refusal>
    requires { R.Stand then.now }
    ensures reply { IfOk result (λ f. answer_of query.now (R.rows_of then.now) ≡ Here f) }
    ensures refusal { IfErr result
        (λ e. answer_of query.now (R.rows_of then.now) ≡ Missing e) }
{
    match query {
        Query::Status(query) => match order_status(then, query) {
            Ok(reply) => Ok(QueryReply::Status(reply)),
            Err(refusal) => Err(refusal),
        },
        Query::Level(query) => match stock_level(then, query) {
            Ok(count) => Ok(QueryReply::Level(count)),
            Err(refusal) => Err(refusal),
        },
    }
}
