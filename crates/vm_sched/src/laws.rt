//! Laws of schedules, over plain data.

ghost use Rattle.std.specs.Prelude.{◌≤◌, ◌*◌, ℕ, List, length};
ghost use Rattle.vm_script.specs.Script.{ScriptLines};
ghost use Rattle.vm_realm.specs.Schedule.{Schedules};
ghost use Rattle.vm_realm.specs.Sound.{IsRunnable};
ghost use Rattle.vm_realm.specs.Steps.{Leads};
ghost use Rattle.vm_realm.specs.World.{WorldState, IsOpening, statement_count};
ghost use Rattle.vm_realm.specs.declared.step.Step.{Step};
ghost use Rattle.vm_sched.specs.Hands.{HasNoneOut};

/// The steps of a schedule lead from the one world to the other. So of the world before the first
/// line of a script that can be run no schedule has more than 12 for each statement.
pub fn schedules_lead()
    ensures leads { (w last : WorldState) → (ss : List Step) → (x : ℕ) → Schedules ss w x last →
        Leads w ss last }
    ensures few { (script : ScriptLines) → (w last : WorldState) → (ss : List Step) → (x : ℕ) →
        IsRunnable script → IsOpening script w →
        Schedules ss w x last → length ss ≤ 12 * statement_count script }
{}

/// Before the first line of a script no job and no lease is out.
pub fn nothing_is_out_at_first()
    ensures { (script : ScriptLines) → (w : WorldState) → IsOpening script w → HasNoneOut w }
{}
