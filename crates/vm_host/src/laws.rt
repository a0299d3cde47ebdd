//! Laws of the definitions.

ghost use Rattle.std.specs.Prelude.{ℕ, ◌≡◌, ◌<◌, ◌+◌, List, Option, Some};
ghost use Rattle.vm_chain.specs.declared.desc.Desc.{Desc};
ghost use Rattle.vm_link.specs.declared.parcel.Parcel.{Parcel};
ghost use Rattle.vm_link.specs.Queue.{Queue};
ghost use Rattle.vm_link.specs.declared.link.Turn.{Turn};
ghost use Rattle.vm_link.specs.declared.link.Turn.TheVariants.{Did};
ghost use Rattle.vm_job.specs.Job.{JobParts, DoneParts};
ghost use Rattle.vm_wire.specs.declared.command.Command.{Command};
ghost use Rattle.vm_wire.specs.declared.command.Command.TheVariants.{CloseSession};
ghost use Rattle.vm_device.specs.Device.{DeviceState};
ghost use Rattle.vm_host.specs.Chains.{Sent, chain_in};
ghost use Rattle.vm_host.specs.Host.{HostState, can_begin, can_resume, ready_ids, resumable_ids};
ghost use Rattle.vm_device.specs.Perform.{EachMadeFew};
ghost use Rattle.vm_host.specs.Growth.{HasDone};
ghost use Rattle.vm_host.specs.Steps.{Executes, HasPlace, Serves, Completes, Resumes, Announce, Announces, Begins, Finishes};
ghost use Rattle.vm_host.specs.Part.{IsExecuted, IsResumed, IsAnnounced, part_of};
ghost use Rattle.vm_host.specs.Part.{can_begin as part_begins, can_resume as part_resumes, ready_ids as part_ready, resumable_ids as part_resumable};

/// Serving a chain is the device's part of its step, over what the chain says: the two texts agree.
#[tactic(auto, using(crate::proofs::PartLemmas::serves_part))]
pub fn serving_is_the_part()
    ensures { (p : Parcel) (h next : HostState) (head : ℕ) (sent : Option Sent) →
        Serves (chain_in p) h p head sent next → IsExecuted h p sent next }
{}

/// So is going on with a call that waited.
pub fn resuming_is_the_part()
    ensures { (session : ℕ) (h next : HostState) (q r : Queue) → Resumes session h q Did next r →
        IsResumed session h next }
{}

/// So is sending an event.
pub fn announcing_is_the_part()
    ensures { (p : Parcel) (descs : List Desc) (head : ℕ) (h next : HostState) (sent : Sent) →
        Announce p descs head h sent next → IsAnnounced p h sent next }
{}

/// What can be done is the same of the device's part: for which sessions a job can begin, and for
/// which a waiting call can go on.
pub fn what_can_be_done_is_the_parts()
    ensures begin { (h : HostState) (session : ℕ) → part_begins (part_of h) session ≡
        can_begin h session }
    ensures resume { (h : HostState) (session : ℕ) → part_resumes (part_of h) session ≡
        can_resume h session }
    ensures ready { (h : HostState) → part_ready (part_of h) ≡ ready_ids h }
    ensures resumable { (h : HostState) → part_resumable (part_of h) ≡ resumable_ids h }
{}

/// A session that is closed leaves the region with its journal: what is mapped stays so.
pub fn closing_leaves_the_journal()
    ensures { (session : ℕ) (d next : DeviceState) (p : Parcel) (descs : List Desc) (sent : Sent) →
        Completes d p descs (CloseSession session) sent next → next.region ≡ d.region }
{}

/// A step opens one session at most, makes one mapping, begins one job and makes 32 frames; one
/// that takes a job back or sends an event does none of these.
pub fn each_step_does_little()
    ensures executes { (n places : ℕ) (waiting : List Parcel) (h next : HostState) (q r : Queue)
        (turn : Turn) → Executes waiting h q turn next r → HasDone n places h.device →
        HasDone (n + 1) places next.device }
    ensures resumes { (n places session : ℕ) (h next : HostState) (q r : Queue) (turn : Turn) →
        Resumes session h q turn next r → HasDone n places h.device →
        HasDone (n + 1) places next.device }
    ensures begins { (n places id : ℕ) (h next : HostState) (job : Option JobParts) →
        Begins id h job next → HasDone n places h.device → HasDone (n + 1) places next.device }
    ensures finishes { (n places : ℕ) (h next : HostState) (done : DoneParts) →
        Finishes h done next → HasDone n places h.device → HasDone n places next.device }
    ensures announces { (n places : ℕ) (h next : HostState) (q r : Queue) (turn : Turn) →
        Announces h q turn next r → HasDone n places h.device → HasDone n places next.device }
{}

/// A device that did few steps has a place for whatever the next chain asks, and its sessions made
/// few frames.
pub fn few_steps_leave_places()
    ensures places { (n places : ℕ) (d : DeviceState) (waiting : List Parcel) → n < places →
        n < 16384 → HasDone n places d → HasPlace d waiting }
    ensures frames { (n places : ℕ) (d : DeviceState) → n < 16384 → HasDone n places d →
        EachMadeFew d }
{}
