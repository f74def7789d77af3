//! What each terminal of a drive is to do.
ghost use Rattle.std.specs.Prelude.{◌≡◌, IfOk, map, vec_len};
ghost use Rattle.oe_drive.specs.Plans.{errands_of, plans_of, errands_in};

use crate::stations::Plan;
use oe_numbers::DriveNumbers;
use oe_requests::Errand;
use oe_rows::Scale;
use oe_terms::{RequestNumber, errand, words};
use oe_values::{Number, Terminal};
use std::alloc::{AllocError, Global};

// Draws the first errands of a terminal.
fn errands(
    alloc: Global,
    scale: &Scale,
    seed: u32,
    terminal: Terminal,
    requests: RequestNumber,
) -> Result<Vec<Errand>, AllocError>
    ensures { IfOk result (λ v. v.items ≡ errands_of scale.now seed terminal requests) }
{
    let mut words = words(seed, terminal);
    let mut errands = Vec::new(alloc);
    for before in 0..requests.get() {
        let number = Number::new(before + 1).unwrap();
        errands.push(errand(scale, terminal, number, &mut words))?;
    }
    Ok(errands)
}

/// Makes the plan of each terminal, in their order. Memory is the only refusal.
pub fn plans(alloc: Global, numbers: &DriveNumbers) -> Result<Vec<Plan>, AllocError>
    ensures plans { IfOk result (λ v. map errands_in v.items ≡ plans_of numbers.now) }
    ensures count { IfOk result (λ v. vec_len v ≡ numbers.now.terminals) }
{
    let mut plans = Vec::new(alloc);
    for before in 0..numbers.terminals.get() {
        let terminal = Number::new(before + 1).unwrap();
        let errands = errands(
            alloc,
            &numbers.scale,
            numbers.seed,
            terminal,
            numbers.requests,
        )?;
        plans.push(Plan { errands })?;
    }
    Ok(plans)
}
