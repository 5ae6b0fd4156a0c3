ghost use Rattle.std.specs.Prelude.{◌≡◌};
ghost use Rattle.plan_text.specs.Heard.{key_of};

// The lines of a plan, by what they say.
#[derive(Clone, Copy)]
pub(crate) enum Due {
    // that it is a plan, and of which form
    Version,
    // the measure's letter
    Measure,
    // how many halls, junctions and legs there are
    Halls,
    Points,
    Legs,
    // the hall of one junction
    At,
    // the ends and figures of one leg
    Leg,
}

impl Due {
    // The key of such a line.
    // kept: a method with the key's name; a `From` into bytes would not say that they are a key.
    pub(crate) fn key(self) -> &'static [u8]
        ensures { result.now ≡ key_of self }
    {
        match self {
            Due::Version => b"plan",
            Due::Measure => b"measure",
            Due::Halls => b"halls",
            Due::Points => b"points",
            Due::Legs => b"legs",
            Due::At => b"at",
            Due::Leg => b"leg",
        }
    }
}
