//! The script of a bulk run.

ghost use Rattle.std.specs.Prelude.{◌≡◌, ◌<◌, ◌≤◌, ◌%◌, ◌++◌, [], ◌∷◌, OnOk, IfOk};
ghost use Rattle.std.specs.Fmt.{decimal};
ghost use Rattle.vm_bulk.specs.Bulk.{ended, below, numbered, format_word, format_line, choosing, mapping, taking, statements, beginning, process_lines, bulk_text};

use itoa::Buffer;
use std::alloc::Global;
use vm_mem::Memory;

/// How many buffers each process has.
const BUFFERS: u32 = 4;

/// How many frames each process takes.
const FRAMES: u32 = 60;

/// Adds bytes to a text.
fn push(text: &mut Vec<u8>, bytes: &[u8]) -> Result<(), Memory>
    ensures { OnOk result (text.new.items ≡ text.old.items ++ bytes.now) }
{
    text.extend_from_slice(bytes)?;
    Ok(())
}

/// Adds a number to a text.
fn push_number(text: &mut Vec<u8>, number: u32) -> Result<(), Memory>
    ensures { OnOk result (text.new.items ≡ text.old.items ++ decimal number) }
{
    push(text, Buffer::new().format(number).as_bytes())
}

/// Adds a line.
fn push_line(text: &mut Vec<u8>, line: &[u8]) -> Result<(), Memory>
    ensures { OnOk result (text.new.items ≡ text.old.items ++ ended (line.now ∷ [])) }
{
    push(text, line)?;
    push(text, b"\n")
}

/// Adds a line whose last word ends in a number.
fn push_numbered(text: &mut Vec<u8>, words: &[u8], number: u32) -> Result<(), Memory>
    ensures { OnOk result (text.new.items ≡ text.old.items ++ ended (numbered words.now number)) }
{
    push(text, words)?;
    push_number(text, number)?;
    push(text, b"\n")
}

/// Adds such a line for each buffer.
fn push_each(text: &mut Vec<u8>, words: &[u8]) -> Result<(), Memory>
    ensures { OnOk result (text.new.items ≡ text.old.items ++ ended (below 4 (numbered words.now))) }
{
    for k in 0..BUFFERS {
        push_numbered(text, words, k)?;
    }
    Ok(())
}

/// Adds the line that maps a buffer.
fn push_mapping(text: &mut Vec<u8>, k: u32) -> Result<(), Memory>
    ensures { OnOk result (text.new.items ≡ text.old.items ++ ended (mapping k)) }
{
    push(text, b"mmap a m")?;
    push_number(text, k)?;
    push_numbered(text, b" cap ", k)
}

/// Adds the lines that map all buffers.
fn push_mappings(text: &mut Vec<u8>) -> Result<(), Memory>
    ensures { OnOk result (text.new.items ≡ text.old.items ++ ended (below 4 mapping)) }
{
    for k in 0..BUFFERS {
        push_mapping(text, k)?;
    }
    Ok(())
}

/// Adds the lines that take a frame from a buffer.
fn push_taking(text: &mut Vec<u8>, k: u32) -> Result<(), Memory>
    ensures { OnOk result (text.new.items ≡ text.old.items ++ ended (taking k)) }
{
    push_line(text, b"dqbuf a cap")?;
    push_numbered(text, b"hash a m", k)?;
    push_numbered(text, b"qbuf a cap ", k)
}

/// Adds the lines that take all frames.
fn push_frames(text: &mut Vec<u8>) -> Result<(), Memory>
    ensures { OnOk result (text.new.items ≡
        text.old.items ++ ended (below 60 (λ r. taking (r % 4)))) }
{
    for r in 0..FRAMES {
        push_taking(text, r % BUFFERS)?;
    }
    Ok(())
}

/// The code of the format in a place, of six.
fn format_word(place: u32) -> &'static [u8]
    ensures { result.now ≡ format_word place }
{
    match place {
        0 => b"GREY",
        1 => b"YUYV",
        2 => b"UYVY",
        3 => b"NV12",
        4 => b"YU12",
        _ => b"RGB3",
    }
}

/// Adds the line that sets a process's format.
fn push_format(text: &mut Vec<u8>, p: u32) -> Result<(), Memory>
    requires { p < 16 }
    ensures { OnOk result (text.new.items ≡ text.old.items ++ ended (format_line p ∷ [])) }
{
    push(text, b"sfmt a cap ")?;
    push(text, format_word(p % 6))?;
    push(text, b" ")?;
    push_number(text, 64 + 16 * p)?;
    push_numbered(text, b" ", 48 + 16 * p)
}

/// Adds the lines with which a process chooses its pictures.
fn push_choosing(text: &mut Vec<u8>, p: u32) -> Result<(), Memory>
    requires { p < 16 }
    ensures { OnOk result (text.new.items ≡ text.old.items ++ ended (choosing p)) }
{
    push_line(text, b"open a")?;
    push_format(text, p)?;
    push_numbered(text, b"sinput a ", p % 4)?;
    push_line(text, b"reqbufs a cap mmap 4")
}

/// Adds the statements of a process.
fn push_statements(text: &mut Vec<u8>, p: u32) -> Result<(), Memory>
    requires { p < 16 }
    ensures { OnOk result (text.new.items ≡ text.old.items ++ ended (statements p)) }
{
    push_choosing(text, p)?;
    push_mappings(text)?;
    push_each(text, b"qbuf a cap ")?;
    push_line(text, b"streamon a cap")?;
    push_frames(text)?;
    push_line(text, b"streamoff a cap")?;
    push_each(text, b"munmap a m")?;
    push_line(text, b"close a")
}

/// Adds the line with which each process but the first begins.
fn push_beginning(text: &mut Vec<u8>, p: u32) -> Result<(), Memory>
    ensures { OnOk result (text.new.items ≡ text.old.items ++ ended (beginning p)) }
{
    if p == 0 {
        return Ok(());
    }
    push_line(text, b"proc")
}

/// Adds the lines of a process.
fn push_process(text: &mut Vec<u8>, p: u32) -> Result<(), Memory>
    requires { p < 16 }
    ensures { OnOk result (text.new.items ≡ text.old.items ++ ended (process_lines p)) }
{
    push_beginning(text, p)?;
    push_statements(text, p)
}

/// The script of a bulk run of `n` processes, `n` from 1 to 16: each takes sixty frames from the
/// camera, in a format, a size and an input of its own, and looks at each.
///
/// Source: own.
///
/// # Errors
/// `Memory` where there is none for the text.
#[tactic(auto, using(crate::proofs::BulkLemmas::ended_below))]
pub fn make_script(alloc: Global, n: u32) -> Result<Vec<u8>, Memory>
    requires { n ≤ 16 }
    ensures { IfOk result (λ text. text.items ≡ bulk_text n) }
{
    let mut text = Vec::new(alloc);
    push_line(&mut text, b"device capture")?;
    for p in 0..n {
        push_process(&mut text, p)?;
    }
    Ok(text)
}
