ghost use Rattle.std.specs.Prelude.{◌≡◌, ◌<◌, ◌*◌, ◌==◌, ◌++◌, [], ◌∷◌, not, take_while, length, vec_capacity, IfOk};
ghost use Rattle.vm_pump.specs.Pump.{handle_room, first_for, without_first};

use std::alloc::Global;
use std::marker::Model;
use vm_mem::Memory;
use vm_wire::Delivery;

/// For how many events there is room, for each handle.
///
/// Source: own: a queue has at most 32 buffers, and a frame leaves at most three events.
pub const HANDLE_ROOM: usize = 96;

/// The events that a driver holds back while a call of their handle is on its way.
///
/// Source: own.
#[derive(Drop)]
pub struct Pump {
    held: Vec<Delivery>,
    room: usize,
}

impl Model for Pump {
    ghost use Rattle.std.specs.Prelude.{◌≤◌, vec_capacity};
    ghost use Rattle.vm_pump.specs.Pump.{PumpState};

    ghost Value = { PumpState };

    ghost view = { λ p. record { held = p.held.items; room = p.room } };

    // No call takes memory.
    ghost invariant = { λ p. p.room ≤ vec_capacity p.held };
}

// The place of the oldest of these events that is for a session, or how many there are where none
// is.
fn place_for(held: &[Delivery], session: u32) -> usize
    ensures { result ≡ length (take_while (λ d. not (d.session == session)) held.now) }
{
    held.iter()
        .take_while(|delivery| delivery.session != session)
        .count()
}

// Takes the oldest event for a session out of these, if one is.
fn remove_for(held: &mut Vec<Delivery>, session: u32) -> Option<Delivery>
    ensures first { result ≡ first_for session held.old.items }
    ensures rest { held.new.items ≡ without_first session held.old.items }
    ensures capacity { vec_capacity held.new ≡ vec_capacity held.old }
{
    let place = place_for(held.as_slice(), session);
    if place >= held.len() {
        return None;
    }
    Some(held.remove(place))
}

impl Pump {
    /// A pump that holds nothing, with room for the events of so many handles.
    ///
    /// # Errors
    /// `Memory` where the memory for them can't be had.
    pub fn new(alloc: Global, handles: u32) -> Result<Pump, Memory>
        ensures { IfOk result (λ pump. pump ≡ record { held = []; room = handle_room * handles }) }
    {
        let room = HANDLE_ROOM * handles as usize;
        Ok(Pump {
            held: Vec::with_capacity(alloc, room)?,
            room,
        })
    }

    /// Holds an event back, behind the others. There is room for it.
    pub fn hold(&mut self, d: Delivery)
        requires { length self.old.held < self.old.room }
        ensures { self.new ≡ record self.old { held = self.old.held ++ d ∷ [] } }
    {
        self.held.push_reserved(d);
    }

    /// Gives the oldest event that is held back for a session. `None` exactly where none is.
    pub fn release(&mut self, session: u32) -> Option<Delivery>
        ensures first { result ≡ first_for session self.old.held }
        ensures rest { self.new ≡ record self.old { held = without_first session self.old.held } }
    {
        remove_for(&mut self.held, session)
    }
}
