ghost use Rattle.std.specs.Prelude.{◌≡◌, ◌-◌, ◌<◌, ◌^◌, ℕ, List, length, true, Ok};
ghost use Rattle.vm_local.specs.declared.call.Call.{Call};
ghost use Rattle.vm_script.specs.Statements.{reads_as};
ghost use Rattle.vm_script.specs.Grammar.{script_of};
ghost use Rattle.vm_script.specs.Reading.{InRange, IsReadScript};
ghost use Rattle.vm_script.specs.Script.{ScriptLines};

/// A script that was read has 1 to 16 processes. Each of a process's lines asks a call, with its
/// numbers and names in range, on a handle that has a name. Its handles are opened one after the
/// other, each before it is asked anything. A name of memory is declared once in its handle, and
/// before any line that wants it. The numbers of the lines fit 32 bits.
pub fn scripts_are_read()
    ensures { (bytes : List ℕ) → (s : ScriptLines) → length bytes < 2 ^ 32 - 1 →
        script_of bytes ≡ Ok s → IsReadScript s }
{}

/// A text reads as one call on one handle at most, and its numbers and names are in range.
pub fn texts_read_as_one_call()
    ensures range { (text name : List ℕ) → (call : Call) → reads_as text name call ≡ true →
        InRange call }
    ensures one { (text name other : List ℕ) → (call next : Call) → reads_as text name call ≡ true →
        reads_as text other next ≡ true → (name ≡ other) × (call ≡ next) }
{}
