//! Stations that stand here, or that threads have.
//!
//! A thread that takes a station promises to give one back with its errands and its terminal. What
//! the station's desk has called then, its type promises.
ghost use Rattle.std.specs.Prelude.{◌≡◌, ◌≤◌, List, length, map, [], vec_capacity};
ghost use Rattle.oe_history.specs.declared.views.Entry.{Entry};
ghost use Rattle.oe_drive.specs.Stations.{KeepsPlan, HaveCarriedOut};
ghost use Rattle.oe_drive.specs.Posts.{station_of};

use crate::gates::Gate;
use crate::stations::Station;
use oe_hall::crossing::front_crosses;
use oe_hall::{Front, Naming};
use oe_machine::Machine;
use std::snapshot::Snapshot;
use std::sync::Wait;
use std::sync::atomic::{AtomicBool, Ordering};
use std::thread::{Promise, PromisedHandle, Scope, SpawnError, Threads};

/// What a thread promises that has a station: it gives one back with the same plan.
#[derive(Drop)]
pub(crate) struct SamePlan<J: Naming>(Snapshot<Station<J>>);

impl<J: Naming> Promise<Station<J>> for SamePlan<J> {
    ghost use Rattle.oe_drive.specs.Stations.{KeepsPlan};

    ghost kept_by = { λ p r. KeepsPlan p.0.value r };
}

/// A station that stands here, or that a thread has.
#[derive(Drop)]
pub(crate) enum Post<J: Naming> {
    Here(Station<J>),
    There(PromisedHandle<Station<J>, SamePlan<J>>),
}

// Gives a station to a thread of its own, where the worker has one. Where none can be made, all
// others stop, and the station submits its end mark here.
fn start_one<
    's,
    'e,
    J: Naming + Send + Sync + 's,
    M: Machine + Send,
    H: Threads + Wait + Sync,
    G: Gate + Sync,
>(
    scope: &'s Scope<'s, &'e ()>,
    rt: &'e H,
    front: &'e Front<J, M>,
    gate: &'e G,
    stop: &'e AtomicBool,
    has_worker: bool,
    station: Station<J>,
) -> Post<J>
    ensures { KeepsPlan station (station_of result) }
{
    if !has_worker {
        return Post::Here(station);
    }
    front_crosses::<J, M>();
    let promise = SamePlan(Snapshot::of(&station));
    let job = move || station.run(rt, front, gate, stop);
    match scope.spawn_with(promise, job) {
        Ok(thread) => Post::There(thread),
        Err(refused) => {
            stop.store(true, Ordering::SeqCst);
            let SpawnError { value } = refused;
            Post::Here(value())
        }
    }
}

/// Gives each station to a thread of its own, where the worker has one.
pub(crate) fn start_all<
    's,
    'e,
    J: Naming + Send + Sync + 's,
    M: Machine + Send,
    H: Threads + Wait + Sync,
    G: Gate + Sync,
>(
    scope: &'s Scope<'s, &'e ()>,
    rt: &'e H,
    front: &'e Front<J, M>,
    gate: &'e G,
    stop: &'e AtomicBool,
    has_worker: bool,
    stations: Vec<Station<J>>,
    posts: Vec<Post<J>>,
) -> Vec<Post<J>>
    requires { (posts.items ≡ []) × (length stations.items ≤ vec_capacity posts) }
    ensures count { length result.items ≡ length stations.items }
    ensures carried { (log : List Entry) → HaveCarriedOut log (map station_of result.items)
        → HaveCarriedOut log stations.items }
{
    let mut stations = stations;
    let mut posts = posts;
    while let Some(station) = stations.pop() {
        let post = start_one(scope, rt, front, gate, stop, has_worker, station);
        posts.push_reserved(post);
    }
    posts
}

/// Takes a station back, once its thread has ended.
pub(crate) fn join<J: Naming, H: Threads>(rt: &H, post: Post<J>) -> Station<J>
    ensures { KeepsPlan (station_of post) result }
{
    match post {
        Post::Here(station) => station,
        Post::There(thread) => thread.join(rt),
    }
}
