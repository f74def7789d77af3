//! All terminals and the worker at once, each in a thread of its own.
ghost use Rattle.std.specs.Prelude.{◌≡◌, ◌≢◌, ◌+◌, ◌-◌, ◌≤◌, ℕ, List, length, map, vec_len, vec_capacity, slice_set, [], IfOk, OnOk, IsTrue, Some, None, false};
ghost use Rattle.oe_theory.specs.World.{newest};
ghost use Rattle.oe_model.specs.System.{system};
ghost use Rattle.oe_history.specs.Views.{calls_by};
ghost use Rattle.oe_history.specs.declared.views.Entry.{Entry};
ghost use Rattle.oe_hall.specs.Histories.{IsHistory};
ghost use Rattle.oe_hall.specs.Turns.{open_count};
ghost use Rattle.oe_hall.specs.Counts.{tally_of};
ghost use Rattle.oe_hall.specs.Desks.{TheDesk, seat_for, AreKnown};
ghost use Rattle.oe_moments.specs.Pins.{is_pinned};
ghost use Rattle.oe_drive.specs.Ends.{AreFree, HaveEnded};
ghost use Rattle.oe_drive.specs.Plans.{errands_in, ArePlansCarriedOut};
ghost use Rattle.oe_drive.specs.Posts.{station_of};
ghost use Rattle.oe_drive.specs.Stations.{HaveCarriedOut};

use crate::deeds::Deeds;
use crate::gates::Gate;
use crate::posts::{Post, join, start_all};
use crate::stations::{Bench, Plan, Station};
use oe_hall::crossing::front_crosses;
use oe_hall::{Closed, Counted, Desk, Front, Naming, Purger, Shop};
use oe_history::History;
use oe_machine::Machine;
use oe_queue::{Sender, Taker};
use oe_values::{NoMemory, Number, Terminal};
use std::alloc::Global;
use std::sync::Wait;
use std::sync::atomic::{AtomicBool, Ordering};
use std::thread;
use std::thread::Threads;

/// What a drive leaves: the core of the closed shop with its history, how much its desks were told,
/// and what its terminals did.
pub struct Driven<M: Machine> {
    pub core: M,
    pub history: History,
    pub counted: Counted,
    pub deeds: Deeds,
}

/// Runs each terminal's plan in a thread of its own, the first plan terminal 1's, and the worker as
/// the terminal after the last. A desk tells its commit at once, and the worker carries out what is
/// left in the queue before the end.
///
/// The worker's thread is made first, and without it no other; where a terminal's can't be made, it
/// submits its end mark alone. Both, and any want of memory, are `NoMemory` once all threads have
/// ended and the shop is closed.
pub fn drive<J: Naming + Send + Sync, M: Machine + Send, H: Threads + Wait + Sync, G: Gate + Sync>(
    rt: &H,
    alloc: Global,
    gate: &G,
    shop: Shop<J, M>,
    purger: Purger<J>,
    plans: Vec<Plan>,
) -> Result<Driven<M>, NoMemory>
    requires plans { (1 ≤ vec_len plans) × (vec_len plans ≤ 63) }
    requires new { shop.given ≡ 0 }
    requires free { (t : ℕ) → seat_for shop t ≢ Some None }
    requires silent { purger.mine ≡ [] }
    ensures ended { IfOk result (λ d.
        d.counted.begun ≡ d.counted.committed + d.counted.rolled_back) }
    ensures quiet { IfOk result (λ d. open_count (M.world d.core) ≡ 0) }
    ensures newest { IfOk result (λ d. newest system (M.world d.core) ≡ d.counted.committed) }
    ensures layout { IfOk result (λ d. (M.world d.core).layout ≡ J.names.layout) }
    ensures run { IfOk result (λ d. IsHistory J.names.opened d.history.log (M.world d.core)) }
    ensures unpurged { IfOk result (λ d. calls_by 0 d.history.log ≡ []) }
    ensures carried { IfOk result (λ d.
        ArePlansCarriedOut d.history.log (map errands_in plans.items)) }
    ensures kept { IfOk result (λ d. d.deeds.commits.is_short ≡ false) }
{
    let count = plans.len();
    let terminals = Number::new(count as u32).unwrap();
    let Ok((senders, taker)) = oe_queue::open(alloc, terminals) else {
        return give_up(alloc, shop, purger);
    };
    let Ok(desks) = Vec::with_capacity(alloc, count + 1) else {
        return give_up(alloc, shop, purger);
    };
    let Ok(stations) = Vec::with_capacity(alloc, count) else {
        return give_up(alloc, shop, purger);
    };
    let Ok(posts) = Vec::with_capacity(alloc, count) else {
        return give_up(alloc, shop, purger);
    };
    drive_all(
        rt,
        alloc,
        gate,
        (shop, purger),
        plans,
        (senders, taker),
        desks,
        (stations, posts),
    )
}

// Closes a shop that gave no desk.
fn give_up<J: Naming, M: Machine>(
    alloc: Global,
    shop: Shop<J, M>,
    purger: Purger<J>,
) -> Result<Driven<M>, NoMemory>
    requires new { shop.given ≡ 0 }
    ensures { OnOk result ⊥ }
{
    match shop.close(Vec::new(alloc), purger) {
        Ok(closed) => let_go(closed),
        Err(_) => unreachable!(),
    }
    Err(NoMemory)
}

// Lets go of what a shop left.
fn let_go<M: Machine>(closed: Closed<M>) {
    let Closed {
        core,
        counted: _,
        history: _,
    } = closed;
    core.discard();
}

// Drives, once all memory is there.
fn drive_all<J: Naming + Send + Sync, M: Machine + Send, H: Threads + Wait + Sync, G: Gate + Sync>(
    rt: &H,
    alloc: Global,
    gate: &G,
    shop: (Shop<J, M>, Purger<J>),
    plans: Vec<Plan>,
    ends: (Vec<Sender>, Taker),
    desks: Vec<Desk<J>>,
    rooms: (Vec<Station<J>>, Vec<Post<J>>),
) -> Result<Driven<M>, NoMemory>
    requires plans { (1 ≤ vec_len plans) × (vec_len plans ≤ 63) }
    requires senders { vec_len ends.0 ≡ vec_len plans }
    requires new { shop.0.given ≡ 0 }
    requires free { (t : ℕ) → seat_for shop.0 t ≢ Some None }
    requires silent { shop.1.mine ≡ [] }
    requires stations { (rooms.0.items ≡ []) × (vec_len plans ≤ vec_capacity rooms.0) }
    requires posts { (rooms.1.items ≡ []) × (vec_len plans ≤ vec_capacity rooms.1) }
    requires desks { (desks.items ≡ []) × (vec_len plans + 1 ≤ vec_capacity desks) }
    ensures ended { IfOk result (λ d.
        d.counted.begun ≡ d.counted.committed + d.counted.rolled_back) }
    ensures quiet { IfOk result (λ d. open_count (M.world d.core) ≡ 0) }
    ensures newest { IfOk result (λ d. newest system (M.world d.core) ≡ d.counted.committed) }
    ensures layout { IfOk result (λ d. (M.world d.core).layout ≡ J.names.layout) }
    ensures run { IfOk result (λ d. IsHistory J.names.opened d.history.log (M.world d.core)) }
    ensures unpurged { IfOk result (λ d. calls_by 0 d.history.log ≡ []) }
    ensures carried { IfOk result (λ d.
        ArePlansCarriedOut d.history.log (map errands_in plans.items)) }
    ensures kept { IfOk result (λ d. d.deeds.commits.is_short ≡ false) }
{
    let count = plans.len();
    let (mut shop, purger) = shop;
    let (senders, taker) = ends;
    let (mut stations, posts) = rooms;
    let desk = take_desk(&mut shop, Number::new(count as u32 + 1).unwrap());
    let keeps_commits = gate.keeps_commits();
    let deeds = Deeds::none(alloc, keeps_commits);
    let mut bench = Bench::new(desk, taker, count as u32, deeds);
    sit_down(
        alloc,
        keeps_commits,
        &mut shop,
        senders,
        &mut stations,
        plans,
    );
    let (posts, had_threads) = run_all(rt, shop.front(), gate, &mut bench, stations, posts);
    let (desks, deeds, is_whole) = rise(rt, bench, posts, had_threads, desks);
    match shop.close(desks, purger) {
        Ok(closed) => left(closed, deeds, is_whole),
        Err(_) => unreachable!(),
    }
}

// Gives what a drive left, where each terminal had a thread and carried out its plan and its
// commits had memory, and lets it go otherwise.
fn left<M: Machine>(closed: Closed<M>, deeds: Deeds, is_whole: bool) -> Result<Driven<M>, NoMemory>
    ensures same { IfOk result (λ d. (d.core ≡ closed.core) × (d.counted ≡ closed.counted)
        × (d.history ≡ closed.history)) }
    ensures kept { IfOk result (λ d. (d.deeds ≡ deeds) × (d.deeds.commits.is_short ≡ false)) }
    ensures whole { OnOk result (IsTrue is_whole) }
{
    if !is_whole || deeds.commits.is_short {
        let_go(closed);
        return Err(NoMemory);
    }
    let Closed {
        core,
        counted,
        history,
    } = closed;
    Ok(Driven {
        core,
        history,
        counted,
        deeds,
    })
}

// Takes the desk of a terminal that has none.
fn take_desk<J: Naming, M: Machine>(shop: &mut Shop<J, M>, terminal: Terminal) -> Desk<J>
    requires { seat_for shop.old terminal ≢ Some None }
    ensures told { result.told ≡ tally_of 1 }
    ensures free { is_pinned result.seat.notes.pin ≡ false }
    ensures silent { result.calls.mine ≡ [] }
    ensures terminal { (result.seat.terminal ≡ terminal) × (result.calls.by ≡ terminal) }
    ensures given { shop.new.given ≡ shop.old.given + 1 }
    ensures seats { shop.new.seats ≡ slice_set shop.old.seats (terminal - 1) None }
{
    match shop.desk(terminal) {
        Ok(desk) => desk,
        Err(_) => unreachable!(),
    }
}

// Gives each sender's terminal its desk, the last terminal first.
#[tactic(auto, using(crate::proofs::SlotFacts::still_free))]
fn sit_down<J: Naming, M: Machine>(
    alloc: Global,
    keeps_commits: bool,
    shop: &mut Shop<J, M>,
    senders: Vec<Sender>,
    stations: &mut Vec<Station<J>>,
    plans: Vec<Plan>,
)
    requires senders { vec_len senders ≡ vec_len plans }
    requires few { vec_len plans ≤ 63 }
    requires free { AreFree shop.old.seats (vec_len senders) }
    requires room { (stations.old.items ≡ []) × (vec_len plans ≤ vec_capacity stations.old) }
    ensures stations { length stations.new.items ≡ vec_len senders }
    ensures given { shop.new.given ≡ shop.old.given + vec_len senders }
    ensures carried { (log : List Entry) → HaveCarriedOut log stations.new.items
        → ArePlansCarriedOut log (map errands_in plans.items) }
{
    let mut senders = senders;
    let mut plans = plans;
    while let Some(sender) = senders.pop() {
        let Some(plan) = plans.pop() else {
            unreachable!()
        };
        let slot = senders.len();
        let desk = take_desk(shop, Number::new(slot as u32 + 1).unwrap());
        let deeds = Deeds::none(alloc, keeps_commits);
        stations.push_reserved(Station::new(desk, sender, plan, deeds));
    }
}

// Runs the worker and all terminals to their ends, and tells whether each had a thread.
fn run_all<J: Naming + Send + Sync, M: Machine + Send, H: Threads + Wait + Sync, G: Gate + Sync>(
    rt: &H,
    front: &Front<J, M>,
    gate: &G,
    bench: &mut Bench<J>,
    stations: Vec<Station<J>>,
    posts: Vec<Post<J>>,
) -> (Vec<Post<J>>, bool)
    requires room { (posts.items ≡ []) × (length stations.items ≤ vec_capacity posts) }
    ensures count { length result.0.items ≡ length stations.items }
    ensures carried { (log : List Entry) → HaveCarriedOut log (map station_of result.0.items)
        → HaveCarriedOut log stations.items }
{
    let stop = AtomicBool::new(false);
    let stop = &stop;
    thread::scope(
        thread::scope_env(),
        rt,
        move |scope| -> (Vec<Post<J>>, bool)
            requires { (posts.items ≡ []) × (length stations.items ≤ vec_capacity posts) }
            ensures count { length result.0.items ≡ length stations.items }
            ensures carried { (log : List Entry)
                → HaveCarriedOut log (map station_of result.0.items)
                → HaveCarriedOut log stations.items }
        {
            front_crosses::<J, M>();
            let work = move || bench.run(rt, front, gate);
            let has_worker = scope.spawn(work).is_ok();
            let posts = start_all(scope, rt, front, gate, stop, has_worker, stations, posts);
            (posts, has_worker && !stop.load(Ordering::SeqCst))
        },
    )
}

// Takes all desks back, with what was done at them, and tells whether all had threads and each plan
// was carried out.
fn rise<J: Naming, H: Threads>(
    rt: &H,
    bench: Bench<J>,
    posts: Vec<Post<J>>,
    had_threads: bool,
    desks: Vec<Desk<J>>,
) -> (Vec<Desk<J>>, Deeds, bool)
    requires { (desks.items ≡ []) × (length posts.items + 1 ≤ vec_capacity desks) }
    ensures count { length result.0.items ≡ length posts.items + 1 }
    ensures ended { HaveEnded result.0.items }
    ensures carried { IsTrue result.2 → (log : List Entry) → AreKnown log result.0.items
        → HaveCarriedOut log (map station_of posts.items) }
{
    let mut posts = posts;
    let mut desks = desks;
    let mut is_whole = had_threads;
    let (desk, mut deeds) = bench.into_parts();
    desks.push_reserved(desk);
    while let Some(post) = posts.pop() {
        let station = join(rt, post);
        is_whole &= station.is_whole();
        let (desk, done) = station.into_parts();
        desks.push_reserved(desk);
        deeds.add(done);
    }
    (desks, deeds, is_whole)
}
