ghost use Rattle.std.specs.Prelude.{◌≡◌};
ghost use Rattle.coord.specs.Hints.{bold_hint, light_hint};

use crate::hint::{KeyPointHint, KeyPointWeight};

/// The key values that get labels and bold lines: at most so many.
#[derive(Clone, Copy)]
pub struct BoldPoints(pub usize);

impl KeyPointHint for BoldPoints {
    ghost asked = { λ p. bold_hint p.0 };

    fn max_num_points(&self) -> usize {
        self.0
    }

    fn weight(&self) -> KeyPointWeight {
        KeyPointWeight::Bold
    }

    fn bold_points(&self) -> usize {
        self.max_num_points()
    }
}

/// The key values that get light lines, where so many bold ones were asked for.
#[derive(Clone, Copy)]
pub struct LightPoints {
    bold_points_num: usize,
    light_limit: usize,
}

impl LightPoints {
    /// At most `requested` of them.
    pub fn new(bold_count: usize, requested: usize) -> Self
        ensures { result ≡ record { bold_points_num = bold_count; light_limit = requested } }
    {
        LightPoints {
            bold_points_num: bold_count,
            light_limit: requested,
        }
    }
}

impl KeyPointHint for LightPoints {
    ghost asked = { λ p. light_hint p.bold_points_num p.light_limit };

    fn max_num_points(&self) -> usize {
        self.light_limit
    }

    fn weight(&self) -> KeyPointWeight {
        KeyPointWeight::Any
    }

    fn bold_points(&self) -> usize {
        self.bold_points_num
    }
}
