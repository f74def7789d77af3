//! The slots of terminals, one for each number from 0, which is nobody's, to 64: their open
//! transactions, and what these carry out.
ghost use Rattle.std.specs.Prelude.{◌≡◌, ◌≤◌, suc, Some, None, IsSome, IfOk, slice_get, slice_set, replicate};
ghost use Rattle.oe_values.specs.declared.numbers.TheConstants.{TERMINALS};
ghost use Rattle.oe_core.specs.Core.{in_slot};
ghost use Rattle.oe_core.specs.Works.{work_at_begin};

use crate::works::Work;
use oe_engine::Tx;
use oe_requests::Request;
use oe_values::{PerTerminal, Terminal, empty_slots};
use std::alloc::{AllocError, Global};

/// Makes slots for what terminals carry out, and for their transactions; the slots of 0 stay empty.
/// Where memory is refused, only the first are there to be dropped.
pub fn empty_places(
    alloc: Global,
) -> Result<(PerTerminal<Option<Work>>, PerTerminal<Option<Tx>>), AllocError>
    ensures works { IfOk result (λ p. p.0 ≡ replicate (suc TERMINALS) None) }
    ensures txs { IfOk result (λ p. p.1 ≡ replicate (suc TERMINALS) None) }
{
    let works = empty_slots(alloc)?;
    let txs = empty_slots(alloc)?;
    Ok((works, txs))
}

/// Takes what stands in a terminal's slot.
pub fn take_tx(txs: &mut PerTerminal<Option<Tx>>, terminal: Terminal) -> Option<Tx>
    ensures value { slice_get txs.old terminal ≡ Some result }
    ensures after { txs.new ≡ slice_set txs.old terminal None }
    ensures high { terminal ≤ TERMINALS }
{
    txs.at_mut(terminal).take()
}

/// Takes the open transaction of a terminal out of its slot.
pub fn open_tx(txs: &mut PerTerminal<Option<Tx>>, terminal: Terminal) -> Tx
    requires { IsSome (in_slot txs.old terminal) }
    ensures value { slice_get txs.old terminal ≡ Some (Some result) }
    ensures after { txs.new ≡ slice_set txs.old terminal None }
{
    let Some(tx) = take_tx(txs, terminal) else {
        unreachable!()
    };
    tx
}

/// Puts a transaction into its terminal's empty slot.
pub fn put_tx(txs: &mut PerTerminal<Option<Tx>>, terminal: Terminal, tx: Tx)
    requires { slice_get txs.old terminal ≡ Some None }
    ensures after { txs.new ≡ slice_set txs.old terminal (Some tx) }
    ensures low { 1 ≤ terminal }
    ensures high { terminal ≤ TERMINALS }
{
    let old = txs.at_mut(terminal).replace(tx);
    let None = old else { unreachable!() };
}

// In a slot: over what an earlier transaction left there, if there was one.
#[inline]
fn begin_slot(slot: &mut Option<Work>, request: &Request)
    ensures { slot.new ≡ Some (work_at_begin request.now) }
{
    match slot {
        Some(work) => work.start(request),
        None => begin_first(slot, request),
    }
}

// In a slot where no transaction has been.
#[inline(never)]
fn begin_first(slot: &mut Option<Work>, request: &Request)
    ensures { slot.new ≡ Some (work_at_begin request.now) }
{
    *slot = Some(Work::new(request));
}

/// Puts into a terminal's slot what a transaction of this request carries out that has just begun.
/// Over what an earlier one left there it is written part by part, since the whole is long.
#[inline]
pub fn begin_work(works: &mut PerTerminal<Option<Work>>, terminal: Terminal, request: &Request)
    ensures { works.new
        ≡ slice_set works.old terminal (Some (work_at_begin request.now)) }
{
    begin_slot(works.at_mut(terminal), request);
}

/// Empties a terminal's slot. The call stands apart: a whole empty slot is made before it is put
/// there, and where the call was copied in, each stage made one.
#[inline(never)]
pub fn end_work(works: &mut PerTerminal<Option<Work>>, terminal: Terminal)
    ensures { works.new ≡ slice_set works.old terminal None }
{
    *works.at_mut(terminal) = None;
}
