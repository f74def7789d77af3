//! That an engine may go to another thread, as the law of `oe_undo` is used.
ghost use denote.Param.Send.{IsSend};
ghost use Rattle.oe_engine.specs.contracts.engine.Engine.{the_row as engine_row};

use oe_undo::crossing::undo_crosses;

/// States that an engine may go to another thread.
pub fn engine_crosses()
    ensures { IsSend engine_row }
{
    undo_crosses();
}
