//! That a front may be lent to threads, if its machine may go to another thread.
ghost use denote.Param.Send.{IsSync};
ghost use Rattle.oe_hall.specs.contracts.shop.Front.{the_row as front_row};

use crate::naming::Naming;
use oe_machine::Machine;

/// States that a front may be lent to threads.
pub fn front_crosses<J: Naming + Send + Sync, M: Machine + Send>()
    ensures { IsSync (front_row J.row M.row J.Naming M.Machine) }
{}
