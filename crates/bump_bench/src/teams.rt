//! Threads that do a workload side by side, each with its workers and lanes.
use crate::callers::prepare_and_call;
use crate::draining::queue_and_drain;
use crate::reading::read;
use crate::runs::{queue_all, tend};
use crate::tallies::Spent;
use crate::work::Work;
use bump_store::{Lane, Name, Store, Worker};
use std::alloc::Global;
use std::rt::Clock;
use std::sync::Wait;
use std::sync::atomic::AtomicU64;
use std::thread;
use std::thread::Threads;

/// What a thread has: its number, and as many workers as lanes.
#[derive(Drop)]
struct Team<N: Name> {
    number: u32,
    workers: Vec<Worker<N>>,
    lanes: Vec<Lane<N>>,
}

// Gives each team the last worker that is left, and its lane. None where none is left, or where memory is refused.
fn deal<N: Name>(
    teams: &mut [Team<N>],
    workers: &mut Vec<Worker<N>>,
    lanes: &mut Vec<Lane<N>>,
) -> Option<()> {
    for team in teams {
        team.workers.push(workers.pop()?).ok()?;
        team.lanes.push(lanes.pop()?).ok()?;
    }
    Some(())
}

// So many teams, which share the workers and lanes in turn.
fn share<N: Name>(
    alloc: Global,
    workers: &mut Vec<Worker<N>>,
    lanes: &mut Vec<Lane<N>>,
    threads: u32,
) -> Option<Vec<Team<N>>> {
    let mut teams = Vec::new(alloc);
    for number in 0..threads {
        teams
            .push(Team {
                number,
                workers: Vec::new(alloc),
                lanes: Vec::new(alloc),
            })
            .ok()?;
    }
    for _turn in 0..workers.len() / threads.max(1) as usize {
        deal(&mut teams, workers, lanes)?;
    }
    Some(teams)
}

// What one team's thread does. None where memory or the clock is refused.
fn work_alone<N: Name, R: Clock + Wait>(
    rt: &R,
    alloc: Global,
    store: &Store<N>,
    mut team: Team<N>,
    work: Work,
    arrived: &AtomicU64,
) -> Option<Spent> {
    if let Work::Runs(runs) = work {
        return tend(rt, store, &mut team.lanes, runs.drainers, arrived);
    }
    let mut worker = team.workers.pop()?;
    let mut lane = team.lanes.pop()?;
    match work {
        Work::Reads(reads) => {
            let items = reads.items_of(alloc, team.number).ok()?;
            if reads.drained {
                queue_and_drain(rt, store, &mut worker, &mut lane, &items, reads)
            } else {
                read(rt, store, &mut worker, &mut lane, &items, reads, arrived)
            }
        }
        Work::Calls(calls) => prepare_and_call(rt, alloc, store, &mut worker, calls),
        Work::Runs(_) | Work::Moves(_) => None,
    }
}

/// Does the work in a store that is new. Answers the mean of the threads, and what all of them counted. None where
/// memory or the clock is refused.
pub fn work_in_store<N: Name + Send + Sync, R: Threads + Clock + Wait + Sync>(
    rt: &R,
    alloc: Global,
    store: &Store<N>,
    workers: &mut Vec<Worker<N>>,
    lanes: &mut Vec<Lane<N>>,
    work: Work,
) -> Option<Spent> {
    work.shape()?.fill(rt, store)?;
    if let Work::Runs(runs) = work {
        queue_all(alloc, store, workers, runs).ok()?;
    }
    let threads = work.subject().threads;
    let teams = share(alloc, workers, lanes, threads)?;
    let arrived = AtomicU64::new(0);
    let spent = thread::map_vec(
        rt,
        teams,
        &|team| { work_alone(rt, alloc, store, team, work, &arrived) },
    );
    mean_of(&spent.ok()?, threads)
}

// The mean of the threads' times, and all that they counted.
fn mean_of(threads_spent: &[Option<Spent>], threads: u32) -> Option<Spent> {
    let mut all = Spent::NONE;
    for spent in threads_spent {
        all = all.with_one_of(threads, (*spent)?);
    }
    Some(all)
}
