//! How long it takes to order the links of a sheet and to grow its tree. Reads a link file of the kind bytes from standard input, gives
//! its links other prices in each round, and prints what the rounds add up to; the times go to standard error.
#![tactic(auto)]

use forest::growing::{Growth, grow};
use forest::networks::{LINKS, Network};
use link_file::{HEADER, RECORD, Reader};
use price::additive::Bytes;
use ranking::ordering::Order;
use spanning::components::Components;
use std::io::Read;
use std::time::{Duration, Instant};
use std::{fmt, io};

// How many rounds are run.
const ROUNDS: u32 = 200;

// The place of the price in a record.
const PRICE: usize = 6;

// The next of a run of scattered numbers.
fn scatter(seed: u32) -> u32 {
    let first = seed ^ (seed << 13);
    let second = first ^ (first >> 17);
    second ^ (second << 5)
}

// Gives each link another price, from 0 to 999,999. Past the links that a file can have, nothing is written.
fn reprice(file: &mut [u8], seed: u32) -> u32 {
    let mut seed = seed;
    let Some(records) = file.get_mut(HEADER..) else {
        return seed;
    };
    for record in records.chunks_exact_mut(RECORD).take(LINKS) {
        seed = scatter(seed);
        record[PRICE..].copy_from_slice(&((seed & 0xff_ffff) % 1_000_000).to_be_bytes());
    }
    seed
}

// How many links a tree has.
fn size(growth: &Growth) -> usize {
    growth.tree.iter().filter(|held| **held).count()
}

// The times of one round, added to those so far.
#[derive(Clone, Copy, Default)]
struct Times {
    order: Duration,
    tree: Duration,
}

impl Times {
    fn print(&self, rt: &HostRuntime) -> io::Result<()> {
        let order = self.order.as_nanos() / u128::from(ROUNDS);
        let tree = self.tree.as_nanos() / u128::from(ROUNDS);
        eprintln!(rt; "order {order} ns, network and tree {tree} ns, in each of {ROUNDS} rounds")
    }
}

// One round: the order, then the network and its tree.
fn round(rt: &HostRuntime, file: &[u8], times: &mut Times) -> io::Result<usize> {
    let mut reader = Reader::<Bytes>::new();
    if reader.check(file).is_err() {
        return Ok(0);
    }
    let start = Instant::now(rt)?;
    let order = Order::of(&reader);
    times.order = times.order.saturating_add(start.elapsed(rt)?);
    let start = Instant::now(rt)?;
    let network = Network::of(&reader);
    let growth = grow(&network, order.as_slice());
    times.tree = times.tree.saturating_add(start.elapsed(rt)?);
    Ok(size(&growth))
}

// How many joins are timed at once.
const JOINS: u32 = 4_096;

// Which points are joined: scattered ones, or each to the next lower one, from the highest down and over again.
#[derive(Clone, Copy)]
enum Pattern {
    Scattered,
    InARow,
}

impl Pattern {
    // The two points below a number that a step joins. Of no points there are none below, and they are counted as one.
    fn ends(self, points: u32, seed: u32, step: u32) -> (u32, u32) {
        let points = points.max(1);
        match self {
            Pattern::Scattered => (seed % points, (seed >> 16) % points),
            Pattern::InARow => {
                let place = step % points;
                (points - place, points - place - 1)
            }
        }
    }
}

impl fmt::Display for Pattern {
    fn fmt<W: fmt::Write>(&self, f: &mut fmt::Formatter<W>) -> fmt::Result {
        f.write_str(match self {
            Pattern::Scattered => "scattered",
            Pattern::InARow => "in a row",
        })
    }
}

// Joins points below a number, and counts the joins of two parts.
fn join_many(points: u32, pattern: Pattern, seed: u32) -> u32 {
    let mut parts = Components::new();
    let mut seed = seed;
    let mut fresh: u32 = 0;
    for step in 0..JOINS {
        seed = scatter(seed);
        let (first, second) = pattern.ends(points, seed, step);
        if parts.join((first & 0x3ff) as u16, (second & 0x3ff) as u16) {
            fresh = fresh.wrapping_add(1);
        }
    }
    fresh
}

// Prints how long a join takes among so many points.
fn time_joins(rt: &HostRuntime, points: u32, pattern: Pattern) -> io::Result<u32> {
    let mut fresh: u32 = 0;
    let start = Instant::now(rt)?;
    for round in 0..ROUNDS {
        fresh = fresh.wrapping_add(join_many(points, pattern, 2_463_534_242 ^ round));
    }
    let each = start.elapsed(rt)?.as_nanos() / u128::from(ROUNDS) * 1_000 / u128::from(JOINS);
    eprintln!(rt; "a join among {points} points, {pattern}: {each} ps")?;
    Ok(fresh)
}

// Joins among few and many points.
fn joins(rt: &HostRuntime) -> io::Result<u32> {
    let mut fresh: u32 = 0;
    for points in [64, 256, 1_023] {
        for pattern in [Pattern::Scattered, Pattern::InARow] {
            fresh = fresh.wrapping_add(time_joins(rt, points, pattern)?);
        }
    }
    Ok(fresh)
}

fn main(rt: HostRuntime) -> io::Result<()> {
    let mut file = Vec::new(rt.alloc());
    rt.stdin().read_to_end(&mut file)?;
    let mut times = Times::default();
    let mut seed: u32 = 2_463_534_242;
    let mut links: usize = 0;
    for _ in 0..ROUNDS {
        seed = reprice(file.as_mut_slice(), seed);
        links = links.wrapping_add(round(&rt, &file, &mut times)?);
    }
    times.print(&rt)?;
    let fresh = joins(&rt)?;
    println!(rt; "{ROUNDS} rounds, {links} tree links in all, {fresh} joins of two parts")
}
