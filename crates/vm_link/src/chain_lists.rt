//! What is asked of the lists of a queue.
ghost use Rattle.std.specs.Prelude.{◌≡◌, ◌<◌, ◌^◌, ◌==◌, find, length, sum_by, vec_capacity};
ghost use Rattle.std.specs.Option.{option_copied};
ghost use Rattle.vm_link.specs.Queue.{count_at, without};

use crate::{DoneChain, OutChain, Parcel};
use std::collections::VecDeque;

/// How many descriptors the parcels have.
pub fn counts_of_waiting(waiting: &VecDeque<Parcel>) -> u16
    requires { sum_by (λ p. length p.table) waiting.now.items < 2 ^ 16 }
    ensures { result ≡ sum_by (λ p. length p.table) waiting.now.items }
{
    let count: usize = waiting.iter().map(|parcel| parcel.table.len()).sum();
    count as u16
}

/// How many descriptors the chains have that are out.
pub fn counts_of_out(out: &[OutChain]) -> u16
    requires { sum_by (λ c. c.count) out.now < 2 ^ 16 }
    ensures { result ≡ sum_by (λ c. c.count) out.now }
{
    out.iter().map(|chain| chain.count).sum()
}

/// How many descriptors the chains have that are finished.
pub fn counts_of_done(done: &VecDeque<DoneChain>) -> u16
    requires { sum_by (λ d. d.count) done.now.items < 2 ^ 16 }
    ensures { result ≡ sum_by (λ d. d.count) done.now.items }
{
    done.iter().map(|chain| chain.count).sum()
}

/// How many descriptors the chain with this head has.
pub fn count_at(out: &[OutChain], head: u16) -> u16
    ensures { result ≡ count_at head out.now }
{
    chain_at(out, head).map_or(0, |chain| chain.count)
}

/// The chain with this head.
fn chain_at(out: &[OutChain], head: u16) -> Option<&OutChain>
    ensures { option_copied result ≡ find (λ chain. chain.head == head) out.now }
{
    out.iter().find(|chain| chain.head == head)
}

/// Takes the chain with this head out of the list.
pub fn remove(out: &mut Vec<OutChain>, head: u16)
    ensures list { out.new.items ≡ without head out.old.items }
    ensures capacity { vec_capacity out.new ≡ vec_capacity out.old }
{
    out.retain(|chain| chain.head != head);
}
