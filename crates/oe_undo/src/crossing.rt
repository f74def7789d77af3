//! That an undo log may go to another thread, as the law of `oe_log` is used.
ghost use denote.Param.Send.{IsSend};
ghost use Rattle.oe_undo.specs.contracts.undo.Undo.{the_row as undo_row};

use oe_log::crossing::log_crosses;

/// States that an undo log may go to another thread.
pub fn undo_crosses()
    ensures { IsSend undo_row }
{
    log_crosses();
}
