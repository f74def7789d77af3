//! How often locks of each kind of name were taken, in the way, or broken out of.
ghost use Rattle.std.specs.Prelude.{◌≡◌, suc, option_map, IfOk, OnOk};
ghost use Rattle.oe_busy.specs.Happenings.{counts_with, kind_counts, asked_name, no_counts, no_kind_counts, with_kind, with_more};

use crate::happenings::Happening;
use crate::tables::Uncounted;
use oe_rows::{Mode, Name};

/// What is counted of one kind of name.
#[derive(Clone, Copy)]
pub struct KindCounts {
    /// How often such a lock was taken as S.
    pub shared: u64,
    /// How often one was taken as X.
    pub exclusive: u64,
    /// How often one was answered `Busy`.
    pub busy: u64,
    /// How often a transaction was rolled back that waited for one in a cycle.
    pub cycles: u64,
}

/// What is counted of each kind.
#[derive(Clone, Copy)]
pub struct Counts {
    pub warehouses: KindCounts,
    pub districts: KindCounts,
    pub customers: KindCounts,
    pub orders: KindCounts,
    pub queues: KindCounts,
    pub stocks: KindCounts,
    pub names: KindCounts,
}

/// Counts nothing of a kind.
fn no_kind_counts() -> KindCounts
    ensures { result ≡ no_kind_counts }
{
    KindCounts {
        shared: 0,
        exclusive: 0,
        busy: 0,
        cycles: 0,
    }
}

/// Counts nothing.
pub(crate) fn none() -> Counts
    ensures { result ≡ no_counts }
{
    let none = no_kind_counts();
    Counts {
        warehouses: none,
        districts: none,
        customers: none,
        orders: none,
        queues: none,
        stocks: none,
        names: none,
    }
}

/// Gives the lock's name of whose kind a happening is counted, where it is.
fn asked_name(happening: &Happening) -> Option<&Name>
    ensures { option_map (λ n. n.now) result ≡ asked_name happening.now }
{
    match happening {
        Happening::Took(_, name, _) | Happening::Waits(_, name, _) | Happening::Broke(_, name) => {
            Some(name)
        }
        Happening::Begun | Happening::Done | Happening::Went(_) | Happening::GaveWay(_) => None,
    }
}

/// Gives what is counted of a name's kind.
fn kind_counts(counts: &Counts, name: &Name) -> KindCounts
    ensures { result ≡ kind_counts name.now counts.now }
{
    match name {
        Name::Warehouse(_) => counts.warehouses,
        Name::District(_) => counts.districts,
        Name::Customer(_) => counts.customers,
        Name::Order(_) => counts.orders,
        Name::Queue(_) => counts.queues,
        Name::Stock(_) => counts.stocks,
        Name::Names(_, _) => counts.names,
    }
}

/// Sets what is counted of a name's kind.
fn set_kind(counts: &mut Counts, name: &Name, of: KindCounts)
    ensures { counts.new ≡ with_kind name.now of counts.old }
{
    match name {
        Name::Warehouse(_) => counts.warehouses = of,
        Name::District(_) => counts.districts = of,
        Name::Customer(_) => counts.customers = of,
        Name::Order(_) => counts.orders = of,
        Name::Queue(_) => counts.queues = of,
        Name::Stock(_) => counts.stocks = of,
        Name::Names(_, _) => counts.names = of,
    }
}

/// Counts one more.
fn one_more(count: u64) -> Result<u64, Uncounted>
    ensures { IfOk result (λ more. more ≡ suc count) }
{
    match count.checked_add(1) {
        Some(more) => Ok(more),
        None => Err(Uncounted::TooMany),
    }
}

/// Counts what happened among what is counted of its kind.
fn add(of: &mut KindCounts, happening: &Happening) -> Result<(), Uncounted>
    ensures { OnOk result (of.new ≡ with_more happening.now of.old) }
{
    match happening {
        Happening::Took(_, _, Mode::Shared) => of.shared = one_more(of.shared)?,
        Happening::Took(_, _, Mode::Exclusive) => of.exclusive = one_more(of.exclusive)?,
        Happening::Waits(_, _, _) => of.busy = one_more(of.busy)?,
        Happening::Broke(_, _) => of.cycles = one_more(of.cycles)?,
        Happening::Begun | Happening::Done | Happening::Went(_) | Happening::GaveWay(_) => {}
    }
    Ok(())
}

/// Counts what happened, where it is counted.
pub(crate) fn count(counts: &mut Counts, happening: &Happening) -> Result<(), Uncounted>
    ensures { OnOk result (counts.new ≡ counts_with happening.now counts.old) }
{
    let Some(name) = asked_name(happening) else {
        return Ok(());
    };
    let mut of = kind_counts(counts, name);
    match add(&mut of, happening) {
        Ok(()) => {
            set_kind(counts, name, of);
            Ok(())
        }
        Err(cause) => Err(cause),
    }
}
