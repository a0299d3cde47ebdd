// Commands, replies and messages against their bytes, worked by hand from the wire's tables, and
// what bytes are refused for.

mod buffers;
mod commands;
mod events;
mod faults;
mod payloads;
mod replies;

// Behind what is written the bytes stay as they are.
const BEHIND: u8 = 0xee;

// The first bytes, or all where there are fewer.
fn front(bytes: &[u8], count: usize) -> &[u8] {
    bytes.get(..count).unwrap_or(bytes)
}
