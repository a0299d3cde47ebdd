ghost use Rattle.std.specs.Prelude.{◌≡◌, ◌≤◌, ℕ, Ok, length};
ghost use Rattle.vm_script.specs.Grammar.{script_of};
ghost use Rattle.vm_script.specs.Script.{ScriptLines};
ghost use Rattle.vm_bulk.specs.Bulk.{bulk_text};

/// The script of a bulk run is one: no line of it is faulty. It is shorter than a script may be.
pub fn bulk_scripts_are_read()
    ensures read { (n : ℕ) → 1 ≤ n → n ≤ 16 → (s : ScriptLines) × (script_of (bulk_text n) ≡ Ok s) }
    ensures short { (n : ℕ) → n ≤ 16 → length (bulk_text n) ≤ 4194304 }
{}
