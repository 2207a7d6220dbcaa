ghost use Rattle.area.specs.Samples.{TableHolds};

/// Carries the table of worked sizes and splits.
pub fn samples_hold()
    ensures { TableHolds }
{}
