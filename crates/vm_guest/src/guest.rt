//! The driver of all processes.

ghost use Rattle.std.specs.Prelude.{◌≡◌, ◌<◌, ◌↔◌, ◌^◌, IfOk, IsErr, IfErr, OnOk, OnErr, IsTrue, Some, None, true, false, is_some, All, sum_by, slice_get, slice_index_or, slice_set, length};
ghost use Rattle.std.specs.Option.{option_map, option_map_or, option_and_then};
ghost use Rattle.vm_log.specs.Answers.{IsDone as IsLeaseDone};
ghost use Rattle.vm_script.specs.Script.{ScriptLines};
ghost use Rattle.vm_guest.specs.Events.{told_at, all_told, taken, events_of, events_of_others, caught_up, settled, is_overtaken, holds_back, CanTell, CanTellAll, CanTake, CanCatchUp, CanSettle};
ghost use Rattle.vm_guest.specs.Guest.{process_in, process_at, seat_of, handle_seated, handle_named, raw_answer, can_issue, can_lease, IsDone};
ghost use Rattle.vm_guest.specs.Orderly.{IsFitScript, AreInOrder, IsSeat, HasSeat, IsDriver, IsFreshGuest, is_raw_answered};
ghost use Rattle.vm_guest.specs.Process.{begun, is_done, issuing, leasing, crossing, crossing_call, lease_out, is_lent_for};
ghost use Rattle.vm_guest.specs.Queues.{IssuesAt, CanIssueAt, CollectsAt, CanCollectAt, CanBeAnswered, AnswersAt, PumpsAt, CanPumpAt, TakesAll, TakesIf, CanTakeAllFrom};
ghost use Rattle.vm_guest.specs.Steps.{Leases, given_back};

use crate::asked::{Asked, Statement, begins_with_events, ends_with_events, is_stopping};
use crate::caller::Caller;
use crate::seat::Seat;
use std::alloc::Global;
use std::marker::Model;
use v4l_const::{Errno, Model as DeviceModel};
use vm_handle::{Handle, Leased};
use vm_lease::{Lease, LeaseOut};
use vm_link::{Finished, Link, QueueId, Turn};
use vm_mem::Memory;
use vm_pump::{Pump, open_event};
use vm_script::{LineKind, Process, Script};
use vm_wire::Delivery;

/// The driver: the processes of a script, each with its handles.
///
/// An event is delivered to the handle that has its session. While a call of that handle is on its
/// way that stops nothing, the event is held back until the call is logged.
///
/// Source: own, after the VIRTIO 1.4 draft, "Media Device".
#[derive(Drop)]
pub struct Guest {
    model: DeviceModel,
    callers: Vec<Caller>,
    // The events that are held back.
    held: Pump,
    // By its id the handle of each session.
    seats: Vec<Option<Seat>>,
}

impl Model for Guest {
    ghost use Rattle.vm_script.specs.Script.{ScriptLines};
    ghost use Rattle.vm_guest.specs.Guest.{GuestState};
    ghost use Rattle.vm_guest.specs.Orderly.{IsDriver};

    ghost Value = { GuestState };

    ghost view = { λ g. record {
      model = g.model;
      processes = g.callers.items;
      pump = g.held;
      seats = g.seats.items;
    } };

    ghost invariant = { λ g. (script : ScriptLines) ×
        IsDriver script (record {
          model = g.model;
          processes = g.callers.items;
          pump = g.held;
          seats = g.seats.items;
        }) };
}

// Whether every statement of these processes is answered.
fn are_done(callers: &[Caller]) -> bool
    ensures { IsTrue result ↔ (All (λ p. is_done p ≡ true) callers.now) }
{
    callers.iter().all(|caller| caller.is_done())
}

// The process at a place.
fn caller_at(callers: &[Caller], at: u32) -> Option<&Caller>
    ensures { option_map (λ c. c.now) result ≡ slice_get callers.now at }
{
    callers.get(at as usize)
}

// The handle at a place.
fn handle_at(handles: &[Handle], at: u32) -> Option<&Handle>
    ensures { option_map (λ h. h.now) result ≡ slice_get handles.now at }
{
    handles.get(at as usize)
}

// The statement that a process may issue.
fn issuing_at(callers: &[Caller], p: u32) -> Option<Statement>
    ensures { result ≡ issuing (process_in callers.now p) }
{
    caller_at(callers, p)?.issuing()
}

// The call that a process may begin by a lease.
fn leasing_at(callers: &[Caller], p: u32) -> Option<Asked>
    ensures { result ≡ leasing (process_in callers.now p) }
{
    caller_at(callers, p)?.leasing()
}

// How many handles the processes of a script have.
fn count_handles(processes: &[Process]) -> usize
    requires { sum_by (λ p. length p.handles) processes.now < 2 ^ 31 }
    ensures { result ≡ sum_by (λ p. length p.handles) processes.now }
{
    processes.iter().map(|process| process.handles.len()).sum()
}

// Whether a call that is on its way is on the handle in this place, and stops nothing.
fn is_overtaken(asked: &Asked, handle: u32) -> bool
    ensures { result ≡ is_overtaken (Some asked.now) handle }
{
    asked.handle == handle && !is_stopping(&asked.call)
}

// Whether what the device tells the handle in a seat is held back: a call is on its way that is on
// this handle, and stops nothing.
fn holds_back(callers: &[Caller], seat: Seat) -> bool
    ensures { result ≡ is_overtaken (crossing_call
        (process_in callers.now seat.process)) seat.handle }
{
    let Some(caller) = caller_at(callers, seat.process) else {
        return false;
    };
    match caller.crossing_call() {
        Some(asked) => is_overtaken(&asked, seat.handle),
        None => false,
    }
}

// The session of the handle in a seat.
fn session_at(callers: &[Caller], seat: Seat) -> Option<u32>
    ensures { result ≡ option_and_then (λ h. h.session)
        (option_and_then (λ p. slice_get p.handles seat.handle)
        (slice_get callers.now seat.process)) }
{
    let caller = caller_at(callers, seat.process)?;
    handle_at(caller.handles(), seat.handle)?.session()
}

// Notes the seat of a session's handle.
fn note_seat(seats: &mut Vec<Option<Seat>>, session: u32, seat: Seat)
    ensures { seats.new.items ≡ slice_set seats.old.items session (Some seat) }
{
    let at = session as usize;
    if at < seats.len() {
        seats[at] = Some(seat);
    }
}

// What the statement at a place was answered, where it is an answered raw line.
fn raw_in(raws: &[Option<Errno>], at: u32) -> Option<Errno>
    ensures { result ≡ slice_index_or raws.now at None }
{
    *raws.get(at as usize)?
}

// The seat of a session's handle.
fn seat_in(seats: &[Option<Seat>], session: u32) -> Option<Seat>
    ensures { result ≡ slice_index_or seats.now session None }
{
    *seats.get(session as usize)?
}

// Delivers an event to the handle in a seat.
fn tell(callers: &mut Vec<Caller>, seat: Seat, event: Delivery)
    requires orderly { AreInOrder callers.old.items }
    requires within { IsSeat callers.old.items seat }
    requires can { CanTell callers.old.items seat event }
    ensures { callers.new.items ≡ told_at callers.old.items seat event }
{
    let caller = &mut callers[seat.process as usize];
    caller.deliver(seat.handle as usize, event);
}

// Delivers what is held back for a session to the handle in a seat, in order.
fn release(callers: &mut Vec<Caller>, held: &mut Pump, session: u32, seat: Seat)
    requires orderly { AreInOrder callers.old.items }
    requires within { IsSeat callers.old.items seat }
    requires can { CanTellAll callers.old.items seat (events_of session held.old.held) }
    ensures told { callers.new.items ≡ all_told callers.old.items seat
        (events_of session held.old.held) }
    ensures left { held.new ≡ record held.old { held = events_of_others session held.old.held } }
{
    'events: while let Some(event) = held.release(session) {
        tell(callers, seat, event);
    }
}

impl Guest {
    /// The driver of a script, before its first line.
    ///
    /// # Errors
    /// `Memory` where there is none for the processes' statements, logs and chains, or for the
    /// events that are held back.
    pub fn new(alloc: Global, script: &Script) -> Result<Guest, Memory>
        requires { IsFitScript script.now }
        ensures fresh { IfOk result (λ g. IsFreshGuest script.now g) }
        ensures driver { IfOk result (λ g. IsDriver script.now g) }
    {
        let mut callers = Vec::new(alloc);
        for at in 0..script.processes.len() {
            let caller = Caller::new(alloc, script.model, at as u16, &script.processes[at])?;
            callers.push(caller).map_err(|_| Memory)?;
        }
        let handles = count_handles(&script.processes);
        Ok(Guest {
            model: script.model,
            callers,
            held: Pump::new(alloc, script.processes.len() as u32)?,
            seats: vec![in alloc; None; handles].map_err(|_| Memory)?,
        })
    }

    // ---- the steps

    /// A process begins its next line: its call is answered and logged here, or waits for a buffer,
    /// or its command is posted; a raw line's chain is posted. Before a `dqbuf` and a `dqevent`
    /// every finished event is taken, also where they are refused. `Idle` exactly where the process
    /// has no next line, one is under way, or it touches a memory's bytes.
    ///
    /// Where a chain is posted, four descriptors are free on the queue of commands. Each event that
    /// is taken is of a session whose open was logged, and can be delivered, or there is room to
    /// hold it back. Only a `ualloc` takes memory.
    ///
    /// Source: own, after the VIRTIO 1.4 draft, "Media Device".
    pub fn issue<L: Link>(&mut self, link: &mut L, p: u32) -> Turn
        requires { CanIssueAt p self.old (L.queues link.old) }
        ensures issues { IssuesAt p self.old (L.queues link.old) result self.new
            (L.queues link.new) }
        ensures driver { (script : ScriptLines) → IsDriver script self.old →
            IsDriver script self.new }
    {
        let Some(statement) = issuing_at(&self.callers, p) else {
            return Turn::Idle;
        };
        self.take_events_if(link, begins_with_events(&statement.what));
        let caller = &mut self.callers[p as usize];
        caller.begin(link, &statement);
        Turn::Did
    }

    /// Collects the reply that came back first, and logs the call that it answers; or notes the
    /// errno of a raw line, which is EIO where nothing was written. Before a stopping call is
    /// logged every finished event is taken. Once a call is logged, the events that were held back
    /// for its handle are delivered in order. `Idle` exactly where no reply came back. No memory is
    /// taken.
    ///
    /// The chain is that of a process whose statement is on its way, and answers it. Each event
    /// that is taken is of a session whose open was logged, and can be delivered, or there is room
    /// to hold it back.
    ///
    /// Source: own, after the VIRTIO 1.4 draft, "Media Device".
    pub fn collect<L: Link>(&mut self, link: &mut L) -> Turn
        requires { CanCollectAt self.old (L.queues link.old) }
        ensures collects { CollectsAt self.old (L.queues link.old) result self.new
            (L.queues link.new) }
        ensures driver { (script : ScriptLines) → IsDriver script self.old →
            IsDriver script self.new }
    {
        let Some(done) = link.collect(QueueId::Command) else {
            return Turn::Idle;
        };
        let p = u32::from(done.parcel.who);
        let statement = self.crossing(p).unwrap();
        self.take_events_if(link, ends_with_events(&statement.what));
        self.answer(p, done);
        self.settle(p, &statement.what);
        Turn::Did
    }

    /// Takes the event that came back first, and posts its chain again. It is held back where a
    /// call of its handle is on its way that stops nothing; else the handle has it, and a `dqbuf`
    /// that waited for it is answered. `Idle` exactly where no event came back. No memory is taken.
    ///
    /// The event's chain is one of the driver's. The event is of a session whose open was logged,
    /// and can be delivered, or there is room to hold it back.
    ///
    /// Source: own, after the events of the VIRTIO 1.4 draft's media device.
    pub fn pump<L: Link>(&mut self, link: &mut L) -> Turn
        requires { CanPumpAt self.old (L.queues link.old) }
        ensures pumps { PumpsAt self.old (L.queues link.old) result self.new (L.queues link.new) }
        ensures driver { (script : ScriptLines) → IsDriver script self.old →
            IsDriver script self.new }
    {
        let Some(done) = link.collect(QueueId::Event) else {
            return Turn::Idle;
        };
        let (chain, event) = open_event(done);
        self.take_event(event);
        link.post(QueueId::Event, chain);
        Turn::Did
    }

    /// A process begins its next line, which touches a memory's bytes: it is refused and logged so,
    /// or its memory goes out with a lease. `Idle` exactly where the process has no such line, or
    /// one is under way. No event is taken, and no memory.
    ///
    /// Source: own.
    pub fn lease(&mut self, p: u32) -> Leased
        ensures leases { Leases p self.old result self.new }
        ensures driver { (script : ScriptLines) → IsDriver script self.old →
            IsDriver script self.new }
    {
        let Some(asked) = leasing_at(&self.callers, p) else {
            return Leased::Idle;
        };
        let caller = &mut self.callers[p as usize];
        caller.lease(&asked)
    }

    /// Takes a process's lease back, with its work done: the memory is at home, and the line is
    /// answered and logged. No memory is taken.
    ///
    /// # Errors
    /// The lease, exactly where it isn't the one that is out.
    ///
    /// Source: own.
    pub fn give_back(&mut self, p: u32, lease: Lease) -> Result<(), Lease>
        requires { is_lent_for (process_at self.old p) lease.line ≡ true →
            IsLeaseDone (lease_out (process_at self.old p)) lease }
        ensures other { IsErr result ↔ (is_lent_for (process_at self.old p) lease.line ≡ false) }
        ensures back { IfErr result (λ l. l ≡ lease) }
        ensures ok { OnOk result (self.new ≡ given_back p self.old lease) }
        ensures err { OnErr result (self.new ≡ self.old) }
        ensures driver { (script : ScriptLines) → IsDriver script self.old →
            IsDriver script self.new }
    {
        let at = p as usize;
        if at >= self.callers.len() {
            return Err(lease);
        }
        let caller = &mut self.callers[at];
        caller.give_back(lease)
    }

    // ---- what they are made of

    // Takes every event that came back, if a line tells of them.
    fn take_events_if<L: Link>(&mut self, link: &mut L, tells: bool)
        requires { tells ≡ true → CanTakeAllFrom self.old (L.queues link.old) }
        ensures takes { TakesIf tells self.old (L.queues link.old) self.new (L.queues link.new) }
        ensures driver { (script : ScriptLines) → IsDriver script self.old →
            IsDriver script self.new }
    {
        if tells {
            self.take_events(link);
        }
    }

    // Takes every event that came back, one after the other, and posts their chains again.
    fn take_events<L: Link>(&mut self, link: &mut L)
        requires { CanTakeAllFrom self.old (L.queues link.old) }
        ensures takes { TakesAll self.old (L.queues link.old) self.new (L.queues link.new) }
        ensures driver { (script : ScriptLines) → IsDriver script self.old →
            IsDriver script self.new }
    {
        'events: while link.uncollected(QueueId::Event) > 0 {
            self.pump(link);
        }
    }

    // Takes one event.
    fn take_event(&mut self, event: Delivery)
        requires { CanTake self.old event }
        ensures takes { self.new ≡ taken self.old event }
        ensures driver { (script : ScriptLines) → IsDriver script self.old →
            IsDriver script self.new }
    {
        let seat = seat_in(&self.seats, event.session).unwrap();
        if holds_back(&self.callers, seat) {
            self.held.hold(event);
        } else {
            tell(&mut self.callers, seat, event);
        }
    }

    // The statement of a process whose chain is on the link.
    pub(crate) fn crossing(&self, p: u32) -> Option<Statement>
        ensures statement { result ≡ crossing (process_at self.now p) }
        ensures driver { (script : ScriptLines) × IsDriver script self.now }
    {
        caller_at(&self.callers, p)?.crossing()
    }

    // Answers the statement of a process with what came back.
    fn answer(&mut self, p: u32, done: Finished)
        requires { CanBeAnswered (process_at self.old p) done }
        ensures answers { AnswersAt p self.old done self.new }
        ensures driver { (script : ScriptLines) → IsDriver script self.old →
            IsDriver script self.new }
    {
        let caller = &mut self.callers[p as usize];
        caller.answer(done);
    }

    // Delivers what was held back for the handle of a process's line, if the line is on one.
    fn settle(&mut self, p: u32, what: &LineKind)
        requires within { HasSeat what.now self.old.processes p }
        requires can { CanSettle what.now self.old p }
        ensures settles { self.new ≡ settled what.now self.old p }
        ensures driver { (script : ScriptLines) → IsDriver script self.old →
            IsDriver script self.new }
    {
        if let LineKind::OnHandle { h, .. } = *what {
            self.catch_up(Seat {
                process: p,
                handle: h,
            });
        }
    }

    // Delivers what was held back for the handle in a seat, in order, and notes the seat of its
    // session.
    fn catch_up(&mut self, seat: Seat)
        requires within { IsSeat self.old.processes seat }
        requires can { CanCatchUp (handle_seated self.old seat).session self.old seat }
        ensures catches_up { self.new ≡ caught_up
            (handle_seated self.old seat).session self.old seat }
        ensures driver { (script : ScriptLines) → IsDriver script self.old →
            IsDriver script self.new }
    {
        if let Some(session) = session_at(&self.callers, seat) {
            note_seat(&mut self.seats, session, seat);
            release(&mut self.callers, &mut self.held, session, seat);
        }
    }

    // ---- what is told

    /// Whether every line is answered.
    pub fn is_done(&self) -> bool
        ensures { IsTrue result ↔ IsDone self.now }
    {
        are_done(&self.callers)
    }

    /// How many processes there are; at most 16.
    pub fn process_count(&self) -> u32
        ensures { result ≡ length self.now.processes }
    {
        self.callers.len() as u32
    }

    /// Whether `issue` begins a line of a process.
    pub fn can_issue(&self, p: u32) -> bool
        ensures { result ≡ can_issue self.now p }
    {
        issuing_at(&self.callers, p).is_some()
    }

    /// Whether `lease` begins a line of a process.
    pub fn can_lease(&self, p: u32) -> bool
        ensures { result ≡ can_lease self.now p }
    {
        leasing_at(&self.callers, p).is_some()
    }

    /// How many statements of a process were issued or leased; 0 where there is no such process.
    pub fn begun(&self, p: u32) -> u32
        ensures { result ≡ begun (process_at self.now p) }
    {
        match caller_at(&self.callers, p) {
            Some(caller) => caller.begun(),
            None => 0,
        }
    }

    /// How many statements of a process are answered; 0 where there is no such process.
    pub fn answered(&self, p: u32) -> u32
        ensures { result ≡ (process_at self.now p).answered }
    {
        match caller_at(&self.callers, p) {
            Some(caller) => caller.answered(),
            None => 0,
        }
    }

    /// The handle in place `k` of a process's, in the order of their `open` lines. `None` exactly
    /// where there is none.
    pub fn handle(&self, p: u32, k: u32) -> Option<&Handle>
        ensures { option_map (λ h. h.now) result ≡ handle_named self.now p k }
    {
        handle_at(caller_at(&self.callers, p)?.handles(), k)
    }

    /// The handles of a process, in the order of their `open` lines. `None` exactly where there is
    /// no such process.
    pub fn handles(&self, p: u32) -> Option<&[Handle]>
        ensures { option_map (λ hs. hs.now) result ≡
            option_map (λ q. q.handles) (slice_get self.now.processes p) }
    {
        Some(caller_at(&self.callers, p)?.handles())
    }

    /// The errno that the statement in place `k` of a process's was answered, counted from 0.
    /// `None` exactly where that is no answered raw line.
    pub fn raw_answer(&self, p: u32, k: u32) -> Option<Errno>
        ensures answer { result ≡ raw_answer self.now p k }
        ensures none { is_some result ≡ is_raw_answered (process_at self.now p) k }
    {
        raw_in(caller_at(&self.callers, p)?.raws(), k)
    }

    /// A process's lease that is out. `None` exactly where none is.
    pub fn lease_out(&self, p: u32) -> Option<&LeaseOut>
        ensures { option_map (λ entry. entry.now) result ≡ lease_out (process_at self.now p) }
    {
        caller_at(&self.callers, p)?.lease_out()
    }
}

#[cfg(test)]
impl Guest {
    /// Whether what the device tells the handle of a session would be held back.
    pub(crate) fn holds_back(&self, session: u32) -> bool
        ensures { result ≡ option_map_or (λ seat. holds_back self.now seat)
            (seat_of self.now session) false }
    {
        match seat_in(&self.seats, session) {
            Some(seat) => holds_back(&self.callers, seat),
            None => false,
        }
    }
}
