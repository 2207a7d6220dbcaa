use std::marker::Model;

/// So many pixels, at most 30,000 either way.
#[derive(Clone, Copy)]
pub(crate) struct Offset {
    pub(crate) pixels: i32,
}

impl Model for Offset {
    ghost use Rattle.std.specs.Prelude.{ℤ};
    ghost use Rattle.size.specs.Sizes.{Near};

    ghost Value = { ℤ };

    ghost view = { λ o. o.pixels };

    ghost invariant = { λ o. Near o.pixels };

    ghost inverse = { λ z. record { pixels = z } };
}
