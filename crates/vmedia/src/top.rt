//! The top call: words, bytes and an outside in, a status and a text out.

ghost use Rattle.std.specs.Prelude.{◌≡◌, ◌≤◌, ◌⊎◌, List, ℕ, true, false, Option, None, Some, Ok, Err, IfOk, IfSome, IsErrOf, length, map};
ghost use Rattle.std.specs.String.{string_bytes};
ghost use Rattle.vm_io.specs.Bytes.{NothingLeft, WasAppended, PartAppended};
ghost use Rattle.vm_io.specs.Faults.{Rose};
ghost use Rattle.vm_script.specs.Grammar.{script_of};
ghost use Rattle.vm_script.specs.Reading.{IsReadScript};
ghost use Rattle.vm_script.specs.Script.{ScriptLines};
ghost use Rattle.vmedia.specs.declared.ending.Ending.{Ending};
ghost use Rattle.vm_words.specs.declared.command.Command.TheVariants.{OnScript, Bulk};
ghost use Rattle.vm_words.specs.Command.{command_in, reads_script, IsServed};
ghost use Rattle.vmedia.specs.Run.{failures};
ghost use Rattle.vmedia.specs.Top.{script_limit, kind_text, fault_line, too_long_line, usage_line, Answers, Tells, TellsFault, TellsTask, IsWritten, Wrote, Ends, EndsWith, outside, sink_view};

use crate::bulk::{bulk, check};
use crate::ending::Ending;
use crate::run::run;
use crate::text::{push, push_number};
use std::alloc::Global;
use vm_io::{Engine, ReadError, Sink, Source, WriteFault, read_all, write_all};
use vm_mem::Memory;
use vm_script::{Script, ScriptError, ScriptKind, read_script};
use vm_words::{Command, Task, command_of};

/// How many bytes a script has at most.
const SCRIPT_LIMIT: usize = 4_194_304;
/// The line that says which command lines there are.
const USAGE: &[u8] = b"usage: vmedia check | step SEED | bulk N | run W\n";

// A text that is to be written, and the ending that goes with it.
#[derive(Drop)]
struct Answer {
    ending: Ending,
    text: Vec<u8>,
}

// Why there is nothing to write.
#[derive(Clone, Copy, Debug, PartialEq, Eq)]
enum Failure {
    Source,
    Memory,
}

impl From<Memory> for Failure {
    ghost use Rattle.vmedia.specs.declared.top.Failure.TheVariants.{Memory};

    ghost from_gives = { λ _ failure. failure ≡ Memory };

    fn from(_wanting: Memory) -> Failure {
        Failure::Memory
    }
}

// A kind of fault, as it is printed.
fn kind_text(kind: ScriptKind) -> &'static [u8]
    ensures { result.now ≡ kind_text kind }
{
    match kind {
        ScriptKind::Word => b"Word",
        ScriptKind::Name => b"Name",
        ScriptKind::Number => b"Number",
        ScriptKind::TooManyProcesses => b"TooManyProcesses",
        ScriptKind::TooManyLines => b"TooManyLines",
        ScriptKind::OpenTwice => b"OpenTwice",
        ScriptKind::NotDeclared => b"NotDeclared",
        ScriptKind::WellFormedRaw => b"WellFormedRaw",
        ScriptKind::NotBuilt => b"NotBuilt",
    }
}

// The line that tells a faulty line and what is wrong with it.
fn fault_line(alloc: Global, line: u32, kind: &[u8]) -> Result<Vec<u8>, Memory>
    ensures { IfOk result (λ text. text.items ≡ fault_line line kind.now) }
{
    let mut text = Vec::new(alloc);
    push(&mut text, b"script ")?;
    push_number(&mut text, u64::from(line))?;
    push(&mut text, b" ")?;
    push(&mut text, kind)?;
    push(&mut text, b"\n")?;
    Ok(text)
}

// What is answered to more bytes than a script has.
fn too_long(alloc: Global) -> Result<Answer, Memory>
    ensures { IfOk result (λ a. (a.ending ≡ Ending.BadScript) × (a.text.items ≡ too_long_line)) }
{
    Ok(Answer {
        ending: Ending::BadScript,
        text: fault_line(alloc, 0, b"TooLong")?,
    })
}

// What is told of a script.
fn text_of<E: Engine>(
    alloc: Global,
    script: Script,
    task: Task,
    engine: &mut E,
) -> Result<Vec<u8>, Memory>
    requires { IsReadScript script }
    ensures { (bytes : List ℕ) → length bytes ≤ script_limit → script_of bytes ≡ Ok script →
        IfOk result (λ text. TellsTask task (failures (E.faults engine.old)
        (E.faults engine.new)) bytes text.items) }
{
    match task {
        Task::Check => check(alloc, &script),
        Task::Run { seed } => run(alloc, script, seed, engine),
    }
}

// What is answered to a script's bytes.
fn answer_to_bytes<E: Engine>(
    alloc: Global,
    bytes: &[u8],
    task: Task,
    engine: &mut E,
) -> Result<Answer, Memory>
    requires { length bytes.now ≤ script_limit }
    ensures { IfOk result (λ a. Answers (OnScript task) (failures (E.faults engine.old)
        (E.faults engine.new)) (Some bytes.now) a.ending a.text.items) }
{
    match read_script(alloc, bytes) {
        Ok(script) => Ok(Answer {
            ending: Ending::Ran,
            text: text_of(alloc, script, task, engine)?,
        }),
        Err(ScriptError::Fault(fault)) => Ok(Answer {
            ending: Ending::BadScript,
            text: fault_line(alloc, fault.line, kind_text(fault.kind))?,
        }),
        Err(ScriptError::Memory) => Err(Memory),
    }
}

// What is answered to what the source gives. A read that failed isn't tried again.
fn answer_to_source<S: Source, E: Engine>(
    alloc: Global,
    src: &mut S,
    task: Task,
    engine: &mut E,
) -> Result<Answer, Failure>
    ensures ok { IfOk result (λ a. Answers (OnScript task) (failures (E.faults engine.old)
        (E.faults engine.new)) (S.left src.old) a.ending a.text.items) }
    ensures read { IfOk result (λ a. a.ending ≡ Ending.Ran → NothingLeft (S.left src.new)) }
    ensures source { IsErrOf result Failure.Source → Rose (S.faults src.old) (S.faults src.new) }
    ensures well { ¬ (IsErrOf result Failure.Source) → S.faults src.new ≡ S.faults src.old }
{
    let answer = match read_all(alloc, src, SCRIPT_LIMIT) {
        Ok(bytes) => answer_to_bytes(alloc, &bytes, task, engine)?,
        Err(ReadError::TooLong) => too_long(alloc)?,
        Err(ReadError::ReadFault) => return Err(Failure::Source),
        Err(ReadError::Memory) => return Err(Failure::Memory),
    };
    Ok(answer)
}

// What is answered to a bulk run of so many processes, whatever the source has.
fn answer_to_bulk<E: Engine>(alloc: Global, n: u32, engine: &mut E) -> Result<Answer, Memory>
    requires { IsServed (Bulk n) }
    ensures { (left : Option (List ℕ)) → IfOk result (λ a. Answers (Bulk n)
        (failures (E.faults engine.old) (E.faults engine.new)) left a.ending a.text.items) }
{
    Ok(Answer {
        ending: Ending::Ran,
        text: bulk(alloc, n, engine)?,
    })
}

// What is answered to a command.
fn answer_to<S: Source, E: Engine>(
    alloc: Global,
    command: Command,
    src: &mut S,
    engine: &mut E,
) -> Result<Answer, Failure>
    requires { IsServed command }
    ensures ok { IfOk result (λ a. Answers command (failures (E.faults engine.old)
        (E.faults engine.new)) (S.left src.old) a.ending a.text.items) }
    ensures read { IfOk result (λ a. a.ending ≡ Ending.Ran →
        reads_script (Some command) ≡ true → NothingLeft (S.left src.new)) }
    ensures source { IsErrOf result Failure.Source → (reads_script (Some command) ≡ true)
        × Rose (S.faults src.old) (S.faults src.new) }
    ensures well { ¬ (IsErrOf result Failure.Source) → S.faults src.new ≡ S.faults src.old }
    ensures untouched { reads_script (Some command) ≡ false → src.new ≡ src.old }
{
    match command {
        Command::OnScript(task) => answer_to_source(alloc, src, task, engine),
        Command::Bulk { n } => Ok(answer_to_bulk(alloc, n, engine)?),
    }
}

// Writes a text, and gives its ending, or that of a failing sink. A write that failed isn't tried
// again.
fn write<K: Sink>(sink: &mut K, text: &[u8], told: Ending) -> Ending
    ensures { IsWritten (sink_view (K.held sink.old) (K.faults sink.old))
        (sink_view (K.held sink.new) (K.faults sink.new)) text.now told result }
{
    match write_all(sink, text) {
        Ok(()) => told,
        Err(WriteFault) => Ending::SinkFailed,
    }
}

// Does what judged words ask for.
fn serve_judged<S: Source, K: Sink, E: Engine>(
    alloc: Global,
    judged: Option<Command>,
    src: &mut S,
    sink: &mut K,
    engine: &mut E,
) -> Ending
    requires { IfSome judged IsServed }
    ensures ends { (words : List (List ℕ)) → judged ≡ command_in words → Ends words
        (outside (S.left src.old) (S.faults src.old) (K.held sink.old) (K.faults sink.old)
        (E.faults engine.old))
        (outside (S.left src.new) (S.faults src.new) (K.held sink.new) (K.faults sink.new)
        (E.faults engine.new)) result }
    ensures untouched { reads_script judged ≡ false → src.new ≡ src.old }
{
    let Some(command) = judged else {
        return write(sink, USAGE, Ending::BadWords);
    };
    match answer_to(alloc, command, src, engine) {
        Ok(answer) => write(sink, &answer.text, answer.ending),
        Err(Failure::Source) => Ending::SourceFailed,
        Err(Failure::Memory) => Ending::NoMemory,
    }
}

// Serves the words: the top call's clauses follow of the ending.
fn serve<S: Source, K: Sink, E: Engine>(
    alloc: Global,
    words: &[String],
    src: &mut S,
    sink: &mut K,
    engine: &mut E,
) -> Ending
    ensures ends { Ends (map string_bytes words.now)
        (outside (S.left src.old) (S.faults src.old) (K.held sink.old) (K.faults sink.old)
        (E.faults engine.old))
        (outside (S.left src.new) (S.faults src.new) (K.held sink.new) (K.faults sink.new)
        (E.faults engine.new)) result }
    ensures untouched { reads_script (command_in (map string_bytes words.now)) ≡ false →
        src.new ≡ src.old }
{
    match command_of(alloc, words) {
        Ok(judged) => serve_judged(alloc, judged, src, sink, engine),
        Err(Memory) => Ending::NoMemory,
    }
}

/// Serves the words of a command line: reads the source, judges the script, counts or runs it, and
/// writes what there is to tell to the sink. `bulk` makes its script, and leaves the source alone.
/// The result is the status with which the program ends.
///
/// | Status | Only where | Written |
/// |---|---|---|
/// | 0 | the script was read to its end or made, and counted or run | what is told of it |
/// | 2 | the words are none of the command lines that are served | the usage line |
/// | 3 | the script has a faulty line, or too many bytes | the line that tells the fault |
/// | 4 | the source failed | nothing |
/// | 5 | the sink failed | a front of what was to be written |
/// | 6 | memory was wanting | nothing |
///
/// Nothing that failed is tried again. So the source's count of faults stays with every status but
/// 4, and the sink's with every one but 5. With 4 or 5 the count rose; one that stands at 2^64 - 1
/// can rise no more, and counts as risen.
///
/// Source: own.
pub fn top_plain<S: Source, K: Sink, E: Engine>(
    alloc: Global,
    words: &[String],
    src: &mut S,
    sink: &mut K,
    engine: &mut E,
) -> u8
    // The usage line was written whole, and the words are none of the served command lines.
    ensures usage { result ≡ 2 → (command_in (map string_bytes words.now) ≡ None)
        × WasAppended (K.held sink.old) (K.held sink.new) usage_line }
    // Such words have no other status, unless the sink fails.
    ensures bad_words { command_in (map string_bytes words.now) ≡ None →
        (result ≡ 2) ⊎ (result ≡ 5) }
    // For them, and for `bulk`, the source isn't touched.
    ensures untouched { reads_script (command_in (map string_bytes words.now)) ≡ false →
        src.new ≡ src.old }
    // The bytes are a script, and what was written tells how many processes and statements it has,
    // or is the text of a legal run of it; or it tells of such a run of the script that was made.
    ensures run { result ≡ 0 → Wrote (K.held sink.old) (K.held sink.new)
        (Tells (map string_bytes words.now) (failures (E.faults engine.old)
        (E.faults engine.new)) (S.left src.old) Ending.Ran) }
    // The bytes were read to their end.
    ensures read { result ≡ 0 → reads_script (command_in (map string_bytes words.now)) ≡ true →
        NothingLeft (S.left src.new) }
    // The bytes are no script, or too many, and what was written tells the first fault.
    ensures script { result ≡ 3 → Wrote (K.held sink.old) (K.held sink.new)
        (Tells (map string_bytes words.now) (failures (E.faults engine.old)
        (E.faults engine.new)) (S.left src.old) Ending.BadScript) }
    // The source's faults rose, and nothing was written.
    ensures source { result ≡ 4 → Rose (S.faults src.old) (S.faults src.new)
        × (K.held sink.new ≡ K.held sink.old) }
    // With no other status did a read fail.
    ensures reads_well { ¬ (result ≡ 4) → S.faults src.new ≡ S.faults src.old }
    // The sink's faults rose, and a front of a text went out that these words and bytes have.
    ensures sink { result ≡ 5 → Rose (K.faults sink.old) (K.faults sink.new)
        × ((told : Ending) × (text : List ℕ)
        × Tells (map string_bytes words.now) (failures (E.faults engine.old)
        (E.faults engine.new)) (S.left src.old) told text
        × PartAppended (K.held sink.old) (K.held sink.new) text) }
    // With no other status did a write fail.
    ensures writes_well { ¬ (result ≡ 5) → K.faults sink.new ≡ K.faults sink.old }
    // Memory was wanting, and nothing was written.
    ensures memory { result ≡ 6 → K.held sink.new ≡ K.held sink.old }
    // Good words and a script lead to a run, unless memory is wanting or the outside fails.
    ensures complete { (bytes : List ℕ) (s : ScriptLines)
        → reads_script (command_in (map string_bytes words.now)) ≡ true
        → S.left src.old ≡ Some bytes
        → length bytes ≤ script_limit → script_of bytes ≡ Ok s
        → ¬ Rose (S.faults src.old) (S.faults src.new)
        → ¬ Rose (K.faults sink.old) (K.faults sink.new) → (result ≡ 0) ⊎ (result ≡ 6) }
    // So does `bulk`, whatever the source has.
    ensures bulk { (n : ℕ) → command_in (map string_bytes words.now) ≡ Some (Bulk n)
        → ¬ Rose (K.faults sink.old) (K.faults sink.new) → (result ≡ 0) ⊎ (result ≡ 6) }
    // Good words and a faulty script lead to its fault, with the same exceptions.
    ensures faulty { (bytes text : List ℕ)
        → reads_script (command_in (map string_bytes words.now)) ≡ true
        → S.left src.old ≡ Some bytes
        → TellsFault bytes text
        → ¬ Rose (S.faults src.old) (S.faults src.new)
        → ¬ Rose (K.faults sink.old) (K.faults sink.new) → (result ≡ 3) ⊎ (result ≡ 6) }
    // Each of these, in one: no other status comes.
    ensures ends { EndsWith (map string_bytes words.now)
        (outside (S.left src.old) (S.faults src.old) (K.held sink.old) (K.faults sink.old)
        (E.faults engine.old))
        (outside (S.left src.new) (S.faults src.new) (K.held sink.new) (K.faults sink.new)
        (E.faults engine.new)) result }
{
    serve(alloc, words, src, sink, engine).status()
}

/// What is answered to a command line with a word that isn't UTF-8, which `top_plain` can't be
/// given: no such word is one of a command line that is served.
///
/// Source: own.
pub fn top_bad_words<K: Sink>(sink: &mut K) -> u8
    // The usage line was written whole.
    ensures usage { result ≡ 2 → WasAppended (K.held sink.old) (K.held sink.new) usage_line
        × (K.faults sink.new ≡ K.faults sink.old) }
    // The sink's faults rose, and a front of the usage line went out.
    ensures sink { result ≡ 5 → Rose (K.faults sink.old) (K.faults sink.new)
        × PartAppended (K.held sink.old) (K.held sink.new) usage_line }
    // No other status comes.
    ensures status { (result ≡ 2) ⊎ (result ≡ 5) }
{
    write(sink, USAGE, Ending::BadWords).status()
}
