// Numbers that look random, and are the same in every run.
ghost use Rattle.std.specs.Prelude.{◌<◌};

#[derive(Drop)]
pub(crate) struct Dice {
    state: u32,
}

impl Dice {
    // Dice that always roll the same numbers.
    pub(crate) fn new() -> Dice {
        Dice { state: 20260 }
    }

    // A number below the number of sides.
    pub(crate) fn roll(&mut self, sides: u32) -> u32
        requires { 0 < sides }
        ensures { result < sides }
    {
        self.state = self.state.wrapping_mul(1664525).wrapping_add(1013904223);
        (self.state >> 12) % sides
    }
}
