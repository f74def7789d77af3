//! That a core may go to another thread, as the law of `oe_engine` is used.
ghost use denote.Param.Send.{IsSend};
ghost use Rattle.oe_core.specs.contracts.cores.Core.{the_row as core_row};

use oe_engine::crossing::engine_crosses;

/// States that a core may go to another thread.
pub fn core_crosses()
    ensures { IsSend core_row }
{
    engine_crosses();
}
