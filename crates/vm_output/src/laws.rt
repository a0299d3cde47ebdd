//! Laws of the logs of a script's lines.

ghost use Rattle.std.specs.Prelude.{ℕ, ◌≡◌, ◌<◌, length};
ghost use Rattle.vm_script.specs.Lines.{lines_of};
ghost use Rattle.vm_script.specs.Reading.{IsReadProcess, IsReadScript};
ghost use Rattle.vm_script.specs.Script.{ProcessLines, ScriptLines};
ghost use Rattle.vm_realm.specs.Sound.{IsSound};
ghost use Rattle.vm_realm.specs.World.{WorldState, IsDone};
ghost use Rattle.vm_output.specs.ScriptLogs.{AreLogsOf, OpensFirst, logs_of_world};

/// Where every line of a sound world is answered, its logs are those of the script's lines,
/// whichever steps led to it.
pub fn done_worlds_have_their_logs()
    ensures { (script : ScriptLines) → (w : WorldState) → IsReadScript script → w.script ≡ script →
        IsSound w → IsDone w → AreLogsOf script (logs_of_world script w) }
{}

/// The first line on a handle of a script that was read opens it, and no later one does.
pub fn the_first_line_opens_its_handle()
    ensures { (p : ProcessLines) → (h : ℕ) → IsReadProcess p → h < length p.handles →
        OpensFirst (lines_of h p.lines) }
{}
