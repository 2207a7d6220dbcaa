ghost use Rattle.backend.specs.Passes.{EveryPass};

/// Carries what holds of every pass: it puts all its marks, or stops at the first that the device would not take.
pub fn passes_stop()
    ensures { EveryPass }
{}
