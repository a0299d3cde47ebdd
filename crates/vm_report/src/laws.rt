ghost use Rattle.std.specs.Prelude.{◌≡◌, ℕ, List};
ghost use Rattle.vm_report.specs.Logs.{Logs};
ghost use Rattle.vm_report.specs.Printed.{IsPrinted};

/// A text tells one run's logs at most.
pub fn texts_tell_one_run()
    ensures { (text : List ℕ) → (logs others : Logs) → IsPrinted text logs → IsPrinted text others →
        logs ≡ others }
{}
