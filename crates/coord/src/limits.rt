ghost use Rattle.std.specs.Prelude.{◌≡◌};
ghost use Rattle.coord.specs.Axis.{taken};

/// Whether an axis takes these limits: neither lies beyond 30,000 either way.
pub fn allowed(limits: (i32, i32)) -> bool
    ensures { result ≡ taken limits }
{
    let (a, b) = limits;
    (-30_000..=30_000).contains(&a) && (-30_000..=30_000).contains(&b)
}

// The limits of an axis that runs the other way.
pub(crate) fn swapped(limits: (i32, i32)) -> (i32, i32)
    ensures { result ≡ (limits.1, limits.0) }
{
    (limits.1, limits.0)
}
