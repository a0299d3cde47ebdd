//! What is out of a world, in the hands of who does it.

ghost use Rattle.std.specs.Prelude.{◌≡◌, ◌<◌, None, Some, IfOk, OnOk, length};
ghost use Rattle.vm_sched.specs.Hands.{ChangesJob, empty_hands, job_held, lease_held, with_lease};

use std::alloc::Global;
use std::collections::BTreeMap;
use std::marker::Model;
use vm_job::Job;
use vm_lease::Lease;
use vm_mem::Memory;

/// The jobs that are out of a world by their numbers, and the lease of each process. Each is found
/// without a look at the others.
#[derive(Drop)]
pub struct Hands {
    jobs: BTreeMap<u64, Job>,
    leases: Vec<Option<Lease>>,
}

impl Model for Hands {
    ghost use Rattle.vm_sched.specs.Hands.{HandsState};

    ghost Value = { HandsState };

    ghost view = { λ h. record { jobs = h.jobs.entries; leases = h.leases.items } };
}

// A place for a lease of each process.
fn empty_places(alloc: Global, processes: u32) -> Result<Vec<Option<Lease>>, Memory>
    ensures { IfOk result (λ places. places.items ≡ (empty_hands processes).leases) }
{
    let mut places = Vec::new(alloc);
    places.reserve(processes as usize)?;
    for _p in 0..processes {
        places.push_reserved(None);
    }
    Ok(places)
}

impl Hands {
    /// Nothing is in hand, of so many processes.
    pub fn new(alloc: Global, processes: u32) -> Result<Hands, Memory>
        ensures { IfOk result (λ hands. hands ≡ empty_hands processes) }
    {
        Ok(Hands {
            jobs: BTreeMap::new(alloc),
            leases: empty_places(alloc, processes)?,
        })
    }

    /// Takes a job in hand, under its number.
    pub fn put_job(&mut self, job: Job) -> Result<(), Memory>
        ensures { OnOk result (ChangesJob self.old self.new job.spec.number (Some job)) }
    {
        self.jobs.insert(job.spec.number, job)?;
        Ok(())
    }

    /// Gives the job of a number.
    pub fn take_job(&mut self, number: u64) -> Option<Job>
        ensures job { result ≡ job_held self.old number }
        ensures taken { ChangesJob self.old self.new number None }
    {
        self.jobs.remove(&number)
    }

    /// Takes the lease of a process in hand.
    pub fn put_lease(&mut self, p: u32, lease: Lease)
        requires { p < length self.old.leases }
        ensures { self.new ≡ with_lease self.old p (Some lease) }
    {
        self.leases[p as usize] = Some(lease);
    }

    /// Gives the lease of a process.
    pub fn take_lease(&mut self, p: u32) -> Option<Lease>
        requires { p < length self.old.leases }
        ensures lease { result ≡ lease_held self.old p }
        ensures taken { self.new ≡ with_lease self.old p None }
    {
        self.leases[p as usize].take()
    }
}
