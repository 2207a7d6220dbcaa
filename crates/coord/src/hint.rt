ghost use Rattle.std.specs.Prelude.{◌≡◌};
ghost use Rattle.coord.specs.Hints.{Hint, allows_light};

/// Which key values are wanted.
#[derive(Clone, Copy, PartialEq, Eq, Debug)]
pub enum KeyPointWeight {
    /// Bold ones only.
    Bold,
    /// Bold and light ones.
    Any,
}

impl KeyPointWeight {
    /// Whether light ones may be among them.
    pub fn allow_light_points(&self) -> bool
        ensures { result ≡ allows_light self.now }
    {
        *self == KeyPointWeight::Any
    }
}

/// What is asked of an axis's key values.
pub trait KeyPointHint: Copy {
    ghost asked: { Self → Hint };

    /// The most key values.
    fn max_num_points(&self) -> usize
        ensures { result ≡ (asked self.now).most };

    /// Which of them are wanted.
    fn weight(&self) -> KeyPointWeight
        ensures { result ≡ (asked self.now).weight };

    /// The most bold ones.
    fn bold_points(&self) -> usize
        ensures { result ≡ (asked self.now).bold };
}
