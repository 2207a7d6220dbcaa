ghost use Rattle.axes.specs.Samples.{TableHolds};

/// Carries the table of worked places and key values.
#[tactic(auto, unfolding(crate::specs::Whole::whole_keys))]
pub fn samples_hold()
    ensures { TableHolds }
{}
