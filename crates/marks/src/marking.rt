// Reading and changing marks. A mark past the last hall or leg that a layout can have is never there.
ghost use Rattle.std.specs.Prelude.{◌≡◌, ℕ, ◌<◌, ◌&&◌, if◌then◌else◌, ◌==◌, nat_eq};
ghost use Rattle.layout.specs.Limits.{most_halls, most_legs};
ghost use Rattle.layout.specs.Plant.{Plant, Sound};
ghost use Rattle.marks.specs.Mark.{bit_set, is_marked, flipped, possible, shown};

use crate::words::{MarkWords, Marks};
use layout::limits::{MOST_HALLS, MOST_LEGS};

impl MarkWords {
    // Whether the hall's bit is set in the leg's word.
    fn is_set(&self, hall: u32, leg: u32) -> bool
        requires { (hall < most_halls) × (leg < most_legs) }
        ensures { result ≡ bit_set self.now hall leg }
    {
        (self.bits[leg as usize] >> hall) % 2 == 1
    }

    // Turns the hall's bit in the leg's word.
    fn flip(&mut self, hall: u32, leg: u32)
        requires { (hall < most_halls) × (leg < most_legs) }
        ensures { self.new ≡ flipped self.old hall leg }
    {
        self.bits[leg as usize] ^= 1u32 << hall;
    }
}

impl Marks {
    // Every leg marked for every hall, so that each hall shows what is below.
    pub fn lapsed() -> Marks
        ensures marks { (hall leg : ℕ) → is_marked result hall leg ≡ possible hall leg }
        ensures shows { (hall : ℕ) (p : Plant) → Sound p → shown result hall p ≡ p }
    {
        Marks {
            words: MarkWords {
                bits: [0xffff_ffff; 512],
            },
        }
    }

    // Whether the leg is marked for the hall.
    pub fn has(&self, hall: u32, leg: u32) -> bool
        ensures { result ≡ is_marked self.now hall leg }
    {
        hall < MOST_HALLS && leg < MOST_LEGS && self.words.is_set(hall, leg)
    }

    // Marks the leg for the hall, or takes that mark away; every other mark stays.
    pub fn put(&mut self, hall: u32, leg: u32, on: bool)
        ensures { (h k : ℕ) → is_marked self.new h k ≡ (if nat_eq h hall && k == leg then possible hall leg && on else is_marked self.old h k) }
    {
        if hall < MOST_HALLS && leg < MOST_LEGS && self.words.is_set(hall, leg) != on {
            self.words.flip(hall, leg);
        }
    }
}
