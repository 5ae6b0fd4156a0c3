// Halls come into force and lapse.
ghost use Rattle.std.specs.Prelude.{◌≡◌, ℕ, true, false, ◌&&◌, if◌then◌else◌, nat_eq, nat_lt};
ghost use Rattle.layout.specs.Limits.{most_halls};
ghost use Rattle.marks.specs.Mark.{is_marked, possible};
ghost use Rattle.walks.specs.Answers.{count_below};
ghost use Rattle.halls.specs.Force.{in_force, lapsing, Lapsed};

use crate::force::{Force, HallMarks, Strikes};
use layout::limits::{MOST_HALLS, MOST_LEGS};
use marks::words::Marks;

// Marks every leg for a hall.
// kept: the loop counts the legs' numbers, as was asked for of loops over marks.
fn mark_all(marks: &mut Marks, hall: u32)
    ensures { (h e : ℕ) → is_marked marks.new h e ≡ (if nat_eq h hall then possible h e else is_marked marks.old h e) }
{
    for leg in 0..MOST_LEGS {
        marks.put(hall, leg, true);
    }
}

impl Force {
    // No hall in force.
    pub fn none() -> Force
        ensures { (h : ℕ) → in_force result h ≡ false }
    {
        Force { on: [false; 32] }
    }

    // Whether a hall is in force. A hall that no layout can have never is.
    pub fn has(&self, hall: u32) -> bool
        ensures { result ≡ in_force self.now hall }
    {
        self.on.get(hall as usize).copied().unwrap_or(false)
    }

    // Puts a hall in force, or takes it out; every other hall stays as it is.
    pub fn put(&mut self, hall: u32, on: bool)
        ensures { (h : ℕ) → in_force self.new h ≡ (if nat_eq h hall then nat_lt hall most_halls && on else in_force self.old h) }
    {
        // kept: a test and an index; after a write through get_mut the length of `on` is not known (invariant_of-self).
        if hall < MOST_HALLS {
            self.on[hall as usize] = on;
        }
    }
}

impl HallMarks {
    // All halls lapsed: every leg is marked for every hall.
    pub fn lapsed() -> HallMarks
        ensures force { (h : ℕ) → in_force result.force h ≡ false }
        ensures marks { (h e : ℕ) → is_marked result.marks h e ≡ possible h e }
    {
        HallMarks {
            marks: Marks::lapsed(),
            force: Force::none(),
        }
    }

    // Whether a hall is in force and an order strikes it.
    fn is_struck(&self, hall: u32, strikes: Strikes) -> bool
        ensures { result ≡ lapsing self.now strikes hall }
    {
        self.force.has(hall)
            && match strikes {
                Strikes::None => false,
                Strikes::Marking(leg) => self.marks.has(hall, leg),
                Strikes::Every => true,
            }
    }

    // A hall lapses.
    fn lapse_hall(&mut self, hall: u32)
        ensures { Lapsed (λ h. nat_eq h hall) self.old self.new }
    {
        self.force.put(hall, false);
        mark_all(&mut self.marks, hall);
    }

    // Of so many halls, those that are in force and that the order strikes lapse; the answer is how many.
    // kept: the loop counts the halls' numbers, as was asked for of lapsing.
    pub fn lapse(&mut self, halls: u32, strikes: Strikes) -> u32
        ensures count { result ≡ count_below halls (lapsing self.old strikes) }
        ensures lapsed { Lapsed (λ h. nat_lt h halls && lapsing self.old strikes h) self.old self.new }
    {
        let mut count = 0;
        for hall in 0..halls.min(MOST_HALLS) {
            if self.is_struck(hall, strikes) {
                self.lapse_hall(hall);
                count += 1;
            }
        }
        count
    }
}
