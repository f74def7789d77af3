//! That a counted machine may go to another thread, if the machine inside may.
ghost use denote.Param.Send.{IsSend};
ghost use Rattle.oe_counted.specs.contracts.counting.Counted.{the_row as counted_row};

use oe_machine::Machine;

/// States that a counted machine may go to another thread, if the machine inside may.
pub fn counted_crosses<M: Machine + Send>()
    ensures { IsSend (counted_row M.row) }
{}
