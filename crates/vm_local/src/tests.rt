//! Logs that are legal, and the same with an entry changed.
ghost use Rattle.std.specs.Prelude.{◌≡◌, ◌<◌, ◌≤◌, length};

use crate::{Entry, Local, Name, Small, local_step};
use std::alloc::Global;
use v4l_const::{BUF_TYPE_CAPTURE, BUF_TYPE_OUTPUT, FourCc, Model};

mod buffers;
mod bytes;
mod capture;
mod convert;
mod failed;
mod forms;
mod record;

const CAP: u32 = BUF_TYPE_CAPTURE;

const OUT: u32 = BUF_TYPE_OUTPUT;

const GREY: FourCc = FourCc(0x5945_5247);

const YUYV: FourCc = FourCc(0x5659_5559);

const NV12: FourCc = FourCc(0x3231_564e);

const RGB3: FourCc = FourCc(0x3342_4752);

/// More events than any of these logs has.
const EVENT_LIMIT: usize = 1000;

fn name(bytes: &[u8]) -> Name
    requires some { 0 < length bytes.now }
    requires few { length bytes.now ≤ 8 }
{
    Name::new(bytes).unwrap()
}

fn small(bytes: &[u8]) -> Small
    requires { length bytes.now ≤ 256 }
{
    Small::new(bytes).unwrap()
}

/// The place of the first entry that isn't legal.
fn first_refused(alloc: Global, model: Model, log: &[Entry]) -> Option<usize> {
    let mut local = Local::new(alloc, model);
    for (place, entry) in log.iter().enumerate() {
        if !is_legal(&mut local, entry) {
            return Some(place);
        }
    }
    None
}

/// The same with another entry at a place.
fn first_refused_with(
    alloc: Global,
    model: Model,
    log: &[Entry],
    changed: usize,
    other: Entry,
) -> Option<usize> {
    let mut local = Local::new(alloc, model);
    for (place, entry) in log.iter().enumerate() {
        let entry = if place == changed { &other } else { entry };
        if !is_legal(&mut local, entry) {
            return Some(place);
        }
    }
    None
}

/// Makes a step, and says whether it was legal.
fn is_legal(local: &mut Local, entry: &Entry) -> bool {
    local.events_listed() < EVENT_LIMIT && local_step(local, entry) == Ok(true)
}
