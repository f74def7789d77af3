//! That a log may go to another thread. The law takes no value and does nothing when it is called;
//! a crate above calls it where a proof needs the fact, since the prover does not look through this
//! crate's types by itself.
ghost use denote.Param.Send.{IsSend};
ghost use Rattle.oe_log.specs.contracts.log.Log.{the_row as log_row};

use crate::log::Log;

fn is_sent<T: Send>()
    ensures { IsSend T.row }
{}

/// States that a log may go to another thread.
pub fn log_crosses()
    ensures { IsSend log_row }
{
    is_sent::<Log>();
}
