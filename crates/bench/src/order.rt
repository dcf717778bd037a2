// What the command line asks for.
use crate::workload::Workload;
use std::{env, io};

#[derive(Clone, Copy)]
pub(crate) enum Order {
    // no words: a short run of the workloads
    Short,
    // a workload and its rounds
    One(Workload, u64),
}

// The order that the words are, if they are one.
pub(crate) fn asked(rt: &HostRuntime) -> io::Result<Option<Order>> {
    let mut words = env::args(rt)?.skip(1);
    Ok(match (words.next(), words.next(), words.next()) {
        (None, _, _) => Some(Order::Short),
        (Some(name), Some(rounds), None) => one(name.as_str(), rounds.as_str()),
        _ => None,
    })
}

fn one(name: &str, rounds: &str) -> Option<Order> {
    Some(Order::One(Workload::named(name)?, rounds.parse().ok()?))
}
