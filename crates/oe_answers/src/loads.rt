//! Loads.
ghost use Rattle.std.specs.Prelude.{◌≡◌};
ghost use Rattle.oe_load.specs.Ends.{LoadRan};
ghost use Rattle.oe_load.specs.declared.origins.Origin.TheVariants as origin;
ghost use Rattle.oe_answers.specs.Endings.{Comes, EndsWith, Told};
ghost use Rattle.oe_answers.specs.Notes.{following_note};
ghost use Rattle.oe_answers.specs.Opened.{FollowingAnswered};
ghost use Rattle.oe_answers.specs.Said.{plan_of, following_of};
ghost use Rattle.oe_answers.specs.Statuses.{load_status, following_status};

use crate::endings::{Aim, Output, fail};
use crate::nine::{closed_status, no_population};
use oe_command_line::LoadOptions;
use oe_file_loading::{Sources, TableFile};
use oe_file_tables::Format;
use oe_from::{Following, FollowingFault, FromFault, run_load_from, write_gap};
use oe_io::ports::Outlet;
use oe_load::{LoadFault, Origin, run_load};
use oe_machine::Machine;
use oe_numbers::{FollowingNumbers, LoadNumbers};
use oe_terms::Plan;
use std::io;
use std::io::Read;
use std::time::Clock;

// Names the fault of a load.
fn tell<R: Eprint, W: Output>(rt: &R, answer: &Result<(), LoadFault>, writer: &W) -> io::Result<u8>
    ensures { EndsWith (load_status answer.now) result }
{
    match answer {
        Ok(()) => Ok(0),
        Err(LoadFault::Write) => fail(rt, Aim::Answers, writer.fault()),
        Err(LoadFault::Short(shortage)) => fail(rt, Aim::Answers, *shortage),
    }
}

// Gives the plan of a load's numbers and options.
fn plan_of(numbers: &LoadNumbers, options: &LoadOptions) -> Plan
    ensures { result ≡ plan_of numbers.now options.now }
{
    Plan {
        numbers: *numbers,
        first: options.first,
        kinds: options.kinds,
        items: options.items,
    }
}

/// Writes a load that begins on the population of its scale.
pub fn answer_load<M: Machine, R: Eprint + AllocGlobal, W: Output>(
    rt: &R,
    numbers: &LoadNumbers,
    options: &LoadOptions,
    writer: &mut W,
) -> io::Result<u8>
    ensures { Comes (LoadRan (plan_of numbers.now options.now) origin.Population options.now.form
        (W.sink writer.old) (W.sink writer.new)) load_status result }
{
    let plan = &plan_of(numbers, options);
    let answer = run_load::<M, W>(rt.alloc(), plan, Origin::Population, options.form, writer);
    tell(rt, &answer, writer)
}

// Says why a load on a folder's tables was not written whole.
#[tactic(auto, using(crate::proofs::NoteFacts::told))]
fn tell_following<R: Clock + Eprint, F: Read + Drop, W: Output, E: Outlet>(
    rt: &R,
    answer: &Result<(), FromFault<FollowingFault>>,
    from: &Sources<TableFile<'_, '_, R, F>>,
    writer: &W,
    errors: &mut E,
) -> io::Result<u8>
    ensures told { Told (E.sink errors.old) (E.sink errors.new) (following_note answer.now) }
    ensures status { EndsWith (following_status answer.now) result }
{
    match answer {
        Ok(()) => Ok(0),
        Err(FromFault::NoPopulation(error)) => {
            no_population(rt, Aim::Answers, from, error, errors)
        }
        Err(FromFault::Fault(FollowingFault::NoScale(gap))) => {
            let _told = write_gap(gap, errors);
            Ok(2)
        }
        Err(FromFault::Fault(FollowingFault::Load(LoadFault::Write))) => {
            fail(rt, Aim::Answers, writer.fault())
        }
        Err(FromFault::Fault(FollowingFault::Load(fault))) => fail(rt, Aim::Answers, *fault),
    }
}

// Gives what a load on tables asks for, but for its scale.
fn following_of(numbers: &FollowingNumbers, options: &LoadOptions) -> Following
    ensures { result ≡ following_of numbers.now options.now }
{
    Following {
        numbers: *numbers,
        first: options.first,
        kinds: options.kinds,
        items: options.items,
    }
}

/// Writes a load that begins on the population in nine files, and draws from its scale.
pub fn answer_following<
    M: Machine,
    R: Clock + Eprint + AllocGlobal,
    F: Read + Drop,
    W: Output,
    E: Outlet,
>(
    rt: &R,
    from: &mut Sources<TableFile<'_, '_, R, F>>,
    numbers: &FollowingNumbers,
    options: &LoadOptions,
    writer: &mut W,
    errors: &mut E,
) -> io::Result<u8>
    ensures { FollowingAnswered (W.sink writer.old) (W.sink writer.new) (E.sink errors.old)
        (E.sink errors.new) from.old (following_of numbers.now options.now) options.now.form
        result }
{
    match closed_status(rt, Aim::Answers, from) {
        Ok(None) => {}
        Ok(Some(status)) => return Ok(status),
        Err(error) => return Err(error),
    }
    let following = &following_of(numbers, options);
    let answer = run_load_from::<M, _, _>(
        rt.alloc(),
        Format::Dump,
        from,
        following,
        options.form,
        writer,
    );
    tell_following(rt, &answer, from, writer, errors)
}
