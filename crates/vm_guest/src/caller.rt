//! One process of the driver: one statement after another is begun, and answered.

ghost use Rattle.std.specs.Prelude.{◌≡◌, ◌<◌, ◌≤◌, ◌↔◌, ◌^◌, ◌&&◌, ℕ, [], IfOk, IsErr, IfErr, OnOk, OnErr, IfSome, Some, true, false, length};
ghost use Rattle.std.specs.Option.{option_map, option_and_then};
ghost use Rattle.vm_log.specs.Answers.{IsDone};
ghost use Rattle.vm_log.specs.LegalLog.{state_of};
ghost use Rattle.vm_script.specs.declared.line.LineKind.TheVariants.{OnHandle, Raw};
ghost use Rattle.vm_handle.specs.Handle.{Keeps};
ghost use Rattle.vm_handle.specs.Messages.{Delivers};
ghost use Rattle.vm_guest.specs.Asking.{asked_by};
ghost use Rattle.vm_guest.specs.Caller.{CanLog, Logs};
ghost use Rattle.vm_guest.specs.Chain.{IsHome, with_bytes, reply_bytes};
ghost use Rattle.vm_guest.specs.Events.{told};
ghost use Rattle.vm_guest.specs.Lines.{AnswersRaw, LeasesCall, returned};
ghost use Rattle.vm_guest.specs.Message.{returning_of};
ghost use Rattle.vm_guest.specs.Orderly.{IsFitProcess, HasOrder, IsFresh};
ghost use Rattle.vm_guest.specs.Process.{begun, is_done, is_blocked, next, issuing, leasing, crossing, crossing_call, current_call, handle_in, handle_at, is_answered_in, lease_out, is_lent_for};
ghost use Rattle.vm_guest.specs.Queues.{HasRoomFor, BeginsAt, CanBeAnswered, IsAnswered};
ghost use Rattle.vm_guest.specs.Raw.{raw_bytes, errno_told};

use crate::asked::{Asked, Statement, asked_by, is_leased, statement_at};
use crate::calls::{deliver_to, is_answered_in, lease_call, log_reply, return_lease, start_call};
use crate::chain::{exchange, make_chain, put_bytes, reply_in};
use crate::fresh::{make_handles, make_statements, make_tables};
use crate::raw::{errno_told, raw_bytes};
use crate::status::Status;
use crate::table::Table;
use std::alloc::Global;
use std::marker::Model;
use v4l_const::{Errno, Model as DeviceModel};
use vm_handle::{Handle, Leased, Started};
use vm_lease::{Lease, LeaseOut};
use vm_link::{Finished, Link, Parcel, QueueId};
use vm_mem::Memory;
use vm_script::{LineKind, Process, RawChain};
use vm_wire::Delivery;

/// One process's handles, and how far its statements have come.
#[derive(Drop)]
pub struct Caller {
    number: u16,
    statements: Vec<Statement>,
    handles: Vec<Handle>,
    // How many statements are answered.
    answered: usize,
    status: Status,
    // By statement the errno of each raw line that is answered.
    raws: Vec<Option<Errno>>,
    // By statement the table of each raw line. While its chain is on the link, the process's own
    // table stands there.
    tables: Vec<Table>,
    // The process's chain, unless it is on the link.
    chain: Option<Parcel>,
}

impl Model for Caller {
    ghost use Rattle.vm_guest.specs.Process.{ProcessState};
    ghost use Rattle.vm_guest.specs.Orderly.{HasChains};

    ghost Value = { ProcessState };

    ghost view = { λ c. record {
      number = c.number;
      statements = c.statements.items;
      handles = c.handles.items;
      answered = c.answered;
      status = c.status;
      raws = c.raws.items;
    } };

    ghost invariant = { λ c. HasChains
        (record {
          number = c.number;
          statements = c.statements.items;
          handles = c.handles.items;
          answered = c.answered;
          status = c.status;
          raws = c.raws.items;
        }) c.chain c.tables.items };
}

// A raw line's chain, with its table and its bytes. The process's own table stands in the line's
// place.
fn raw_chain(mut chain: Parcel, table: &mut Table, line: &RawChain) -> Parcel
    requires chain { (p : ℕ) × IsHome p chain }
    requires fits { length (raw_bytes line.now) ≤ 4096 }
    ensures chain { result ≡ record (with_bytes chain (raw_bytes line.now)) { table = table.old } }
    ensures table { table.new ≡ chain.table }
{
    put_bytes(&mut chain, raw_bytes(line));
    exchange(chain, table)
}

// Logs a call that came back. The chain.
fn answer_call(handles: &mut Vec<Handle>, asked: &Asked, mut done: Finished) -> Parcel
    requires { CanLog handles.old.items asked.now done }
    ensures handles { Logs handles.old.items asked.now done handles.new.items }
    ensures keeps { Keeps (handle_in handles.new.items asked.now.handle).log
        (handle_in handles.new.items asked.now.handle).session
        (handle_in handles.new.items asked.now.handle).stage }
    ensures chain { result ≡ record done.parcel { held = [] } }
{
    log_reply(handles, asked, &mut done);
    done.parcel
}

// Notes the errno that came back for a raw line. The chain, with the process's own table again.
fn answer_raw(answer: &mut Option<Errno>, table: &mut Table, done: Finished) -> Parcel
    requires pages { length done.parcel.pages ≡ 2 }
    requires raw { AnswersRaw (returning_of done) }
    ensures answer { answer.new ≡ errno_told (reply_bytes done) }
    ensures chain { result ≡ record done.parcel { table = table.old; held = [] } }
    ensures table { table.new ≡ done.parcel.table }
{
    *answer = errno_told(reply_in(&done));
    let mut chain = exchange(done.parcel, table);
    chain.held.clear();
    chain
}

impl Caller {
    /// The process of a script with this number before its first line, on a device of this model.
    ///
    /// # Errors
    /// `Memory` where there is none for its statements, for the handles' logs, or for the chains.
    pub fn new(
        alloc: Global,
        model: DeviceModel,
        number: u16,
        process: &Process,
    ) -> Result<Caller, Memory>
        requires { IsFitProcess process.now }
        ensures fresh { IfOk result (λ c. IsFresh model number process.now c) }
    {
        let raws = vec![in alloc; None; process.lines.len()].map_err(|_| Memory)?;
        Ok(Caller {
            number,
            statements: make_statements(alloc, &process.lines)?,
            handles: make_handles(alloc, model, process)?,
            answered: 0,
            status: Status::AtRest,
            raws,
            tables: make_tables(alloc, number, &process.lines)?,
            chain: Some(make_chain(alloc, number)?),
        })
    }

    // ---- how far it has come

    /// Whether every statement is answered.
    pub fn is_done(&self) -> bool
        ensures { result ≡ is_done self.now }
    {
        self.status == Status::AtRest && self.answered == self.statements.len()
    }

    /// How many of its statements are answered.
    pub fn answered(&self) -> u32
        requires { self.now.answered < 2 ^ 32 }
        ensures { result ≡ self.now.answered }
    {
        self.answered as u32
    }

    /// How many of its statements were begun.
    pub fn begun(&self) -> u32
        requires { begun self.now < 2 ^ 32 }
        ensures { result ≡ begun self.now }
    {
        match self.status {
            Status::AtRest => self.answered as u32,
            Status::Crossing | Status::Blocked | Status::Lent => (self.answered + 1) as u32,
        }
    }

    // The next statement, where none is under way.
    fn next(&self) -> Option<Statement>
        ensures { result ≡ next self.now }
    {
        match self.status {
            Status::AtRest => statement_at(&self.statements, self.answered),
            Status::Crossing | Status::Blocked | Status::Lent => None,
        }
    }

    /// The statement that may be issued: the next one, where none is under way and it touches no
    /// memory's bytes.
    pub fn issuing(&self) -> Option<Statement>
        ensures { result ≡ issuing self.now }
    {
        match self.next() {
            Some(statement) if !is_leased(&statement.what) => Some(statement),
            _ => None,
        }
    }

    /// The call that may be begun by a lease: that of the next statement, where none is under way
    /// and it touches a memory's bytes.
    pub fn leasing(&self) -> Option<Asked>
        ensures { result ≡ leasing self.now }
    {
        match self.next() {
            Some(statement) if is_leased(&statement.what) => asked_by(&statement),
            _ => None,
        }
    }

    /// The statement whose chain is on the link.
    pub fn crossing(&self) -> Option<Statement>
        ensures { result ≡ crossing self.now }
    {
        match self.status {
            Status::Crossing => statement_at(&self.statements, self.answered),
            Status::AtRest | Status::Blocked | Status::Lent => None,
        }
    }

    /// The call whose chain is on the link.
    pub fn crossing_call(&self) -> Option<Asked>
        ensures { result ≡ crossing_call self.now }
    {
        match self.crossing() {
            Some(statement) => asked_by(&statement),
            None => None,
        }
    }

    // The call that the first statement asks that isn't answered.
    fn current_call(&self) -> Option<Asked>
        ensures { result ≡ current_call self.now }
    {
        asked_by(&statement_at(&self.statements, self.answered)?)
    }

    /// The handles, in the order of their names.
    pub fn handles(&self) -> &[Handle]
        ensures { result.now ≡ self.now.handles }
    {
        &self.handles
    }

    /// By statement the errno of each raw line that is answered.
    pub fn raws(&self) -> &[Option<Errno>]
        ensures { result.now ≡ self.now.raws }
    {
        &self.raws
    }

    // ---- what it does

    /// Begins the statement that may be issued: its chain is posted, or it is answered, or it waits
    /// for a buffer.
    pub fn begin<L: Link>(&mut self, link: &mut L, statement: &Statement)
        requires orderly { HasOrder self.old }
        requires issuing { issuing self.old ≡ Some statement.now }
        requires room { HasRoomFor self.old statement.now.what (L.queues link.old).command }
        ensures begins { BeginsAt statement.now.line statement.now.what self.old
            (L.queues link.old).command self.new (L.queues link.new).command }
        ensures events { (L.queues link.new).event ≡ (L.queues link.old).event }
    {
        match statement.what {
            LineKind::OnHandle { h, call } => {
                let line = statement.line;
                self.begin_call(
                    link,
                    &Asked {
                        line,
                        handle: h,
                        call,
                    },
                );
            }
            LineKind::Raw(chain) => self.begin_raw(link, statement.line, &chain),
        }
    }

    // Begins a call on a handle.
    fn begin_call<L: Link>(&mut self, link: &mut L, asked: &Asked)
        requires orderly { HasOrder self.old }
        requires asked { option_and_then asked_by (issuing self.old) ≡ Some asked.now }
        requires room { HasRoomFor self.old (OnHandle asked.now.handle asked.now.call)
            (L.queues link.old).command }
        ensures begins { BeginsAt asked.now.line (OnHandle asked.now.handle asked.now.call) self.old
            (L.queues link.old).command self.new (L.queues link.new).command }
        ensures events { (L.queues link.new).event ≡ (L.queues link.old).event }
    {
        let mut chain = self.chain.take().unwrap();
        match start_call(&mut self.handles, asked, &mut chain) {
            Started::Send { .. } => {
                link.post(QueueId::Command, chain);
                self.status = Status::Crossing;
            }
            Started::Answered => {
                self.chain = Some(chain);
                self.answered += 1;
            }
            Started::Wait => {
                self.chain = Some(chain);
                self.status = Status::Blocked;
            }
        }
    }

    // Posts a raw line's chain.
    fn begin_raw<L: Link>(&mut self, link: &mut L, line: u32, chain: &RawChain)
        requires orderly { HasOrder self.old }
        requires raw { issuing self.old ≡ Some (record { line = line; what = Raw chain.now }) }
        requires room { HasRoomFor self.old (Raw chain.now) (L.queues link.old).command }
        ensures begins { BeginsAt line (Raw chain.now) self.old (L.queues link.old).command self.new
            (L.queues link.new).command }
        ensures events { (L.queues link.new).event ≡ (L.queues link.old).event }
    {
        let own = self.chain.take().unwrap();
        let table = &mut self.tables[self.answered];
        link.post(QueueId::Command, raw_chain(own, table, chain));
        self.status = Status::Crossing;
    }

    /// Answers the statement whose chain came back.
    pub fn answer(&mut self, done: Finished)
        requires orderly { HasOrder self.old }
        requires can { CanBeAnswered self.old done }
        ensures { IsAnswered self.old done self.new }
    {
        let at = self.answered;
        let chain = match self.crossing_call() {
            Some(asked) => answer_call(&mut self.handles, &asked, done),
            None => answer_raw(&mut self.raws[at], &mut self.tables[at], done),
        };
        self.chain = Some(chain);
        self.answered += 1;
        self.status = Status::AtRest;
    }

    /// Delivers an event to the handle in a place. A `dqbuf` that waited for it is answered.
    pub fn deliver(&mut self, at: usize, event: Delivery)
        requires orderly { HasOrder self.old }
        requires within { at < length self.old.handles }
        requires delivers { Delivers (state_of (handle_at self.old at).log) event.msg event.held }
        ensures { self.new ≡ told self.old at event }
    {
        deliver_to(&mut self.handles, at, event);
        if self.is_woken() {
            self.answered += 1;
            self.status = Status::AtRest;
        }
    }

    // Whether the dqbuf in which the process is blocked is answered.
    fn is_woken(&self) -> bool
        requires { IfSome (current_call self.now) (λ a. a.handle < length self.now.handles) }
        ensures { result ≡ (is_blocked self.now.status && is_answered_in self.now.handles
            (current_call self.now)) }
    {
        if self.status != Status::Blocked {
            return false;
        }
        match self.current_call() {
            Some(asked) => is_answered_in(&self.handles, &asked),
            None => false,
        }
    }

    /// Begins the call that may be begun by a lease: it is refused, or its memory goes out.
    pub fn lease(&mut self, asked: &Asked) -> Leased
        requires orderly { HasOrder self.old }
        requires leasing { leasing self.old ≡ Some asked.now }
        ensures { LeasesCall asked.now self.old result self.new }
    {
        let leased = lease_call(&mut self.handles, asked);
        match &leased {
            Leased::Out(_) => self.status = Status::Lent,
            Leased::Answered => self.answered += 1,
            Leased::Idle => {}
        }
        leased
    }

    /// Takes the lease back that is out: its memory is at home, and its line is answered.
    ///
    /// # Errors
    /// The lease, exactly where it isn't that of the line whose lease is out.
    pub fn give_back(&mut self, lease: Lease) -> Result<(), Lease>
        requires orderly { HasOrder self.old }
        requires done { is_lent_for self.old lease.line ≡ true → IsDone (lease_out self.old) lease }
        ensures other { IsErr result ↔ (is_lent_for self.old lease.line ≡ false) }
        ensures back { IfErr result (λ l. l ≡ lease) }
        ensures ok { OnOk result (self.new ≡ returned self.old lease) }
        ensures err { OnErr result (self.new ≡ self.old) }
    {
        if self.status != Status::Lent {
            return Err(lease);
        }
        let asked = self.current_call().unwrap();
        return_lease(&mut self.handles, asked.handle as usize, lease)?;
        self.answered += 1;
        self.status = Status::AtRest;
        Ok(())
    }

    /// The lease that is out.
    pub fn lease_out(&self) -> Option<&LeaseOut>
        requires { HasOrder self.now }
        ensures { option_map (λ entry. entry.now) result ≡ lease_out self.now }
    {
        if self.status != Status::Lent {
            return None;
        }
        match self.current_call() {
            Some(Asked { handle, .. }) => self.handles[handle as usize].lease_out(),
            None => None,
        }
    }
}
