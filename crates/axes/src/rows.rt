// Key values come in rows, one row for each step.
ghost use Rattle.std.specs.Prelude.{◌≡◌, List, length, nat_le};
ghost use Rattle.std.specs.List.{slice_get};

// A row of key values.
pub(crate) trait Row: Copy {
    type Value;

    ghost values: { Self → List Self.Value };

    // How many there are.
    fn count(self) -> usize
        ensures { result ≡ length (values self) };

    // The k-th of them.
    fn nth(self, k: usize) -> Option<Self::Value>
        ensures { result ≡ slice_get (values self) k };

    // Whether there are at most `most`.
    final fn at_most(self, most: usize) -> bool
        ensures { result ≡ nat_le (length (values self)) most }
    {
        self.count() <= most
    }
}
