ghost use Rattle.std.specs.Prelude.{◌≡◌, ◌≤◌, length};
ghost use Rattle.layout.specs.Limits.{most_junctions, most_legs};
ghost use Rattle.layout.specs.Plant.{Sound, tails, heads};
ghost use Rattle.plan.specs.Entered.{plant_of};

use crate::chains::Chains;
use crate::tables::DraftTables;
use layout::belt::Belt;

// What a draft holds, and the plan made from it.
// kept: a count beside each table, since the library allocates nothing and tables of a fixed size were asked for.
#[derive(Drop)]
pub struct Drawing {
    pub(crate) halls: u32,
    // how many junctions and legs were entered, and the tables of them
    pub(crate) points: u32,
    pub(crate) count: u32,
    pub(crate) tables: DraftTables,
    // which legs leave each junction, and which reach it
    pub(crate) leaving: Chains,
    pub(crate) reaching: Chains,
    ghost few_points: { points ≤ most_junctions },
    ghost few_belts: { count ≤ most_legs },
    ghost wide_places: { length tables.places ≡ most_junctions },
    ghost wide_belts: { length tables.belts ≡ most_legs },
    ghost sound: { Sound (plant_of halls points tables.places count tables.belts) },
    ghost leaves: { leaving ≡ tails (plant_of halls points tables.places count tables.belts) },
    ghost reaches: { reaching ≡ heads (plant_of halls points tables.places count tables.belts) },
}

impl Drawing {
    ghost use Rattle.std.specs.Prelude.{◌<◌, true};
    ghost use Rattle.std.specs.Option.{option_map};
    ghost use Rattle.std.specs.List.{slice_get};
    ghost use Rattle.layout.specs.Limits.{halls_fit};
    ghost use Rattle.layout.specs.Plant.{SoundLeg, leg_of};
    ghost use Rattle.plan.specs.Drawn.{drawn, begun, with_junction, with_leg};

    // So many halls, and nothing entered.
    pub(crate) fn blank(halls: u32) -> Drawing
        requires { halls_fit halls ≡ true }
        ensures { drawn result ≡ begun halls }
    {
        Drawing {
            halls,
            points: 0,
            count: 0,
            tables: DraftTables {
                places: [0; 256],
                belts: [Belt::default(); 512],
            },
            leaving: Chains::empty(),
            reaching: Chains::empty(),
        }
    }

    // One junction more, in a hall.
    pub(crate) fn put_junction(&mut self, hall: u32)
        requires { (hall < self.old.halls) × (self.old.points < 256) }
        ensures { drawn self.new ≡ with_junction (drawn self.old) hall }
    {
        self.tables.places[self.points as usize] = hall;
        self.points += 1;
    }

    // One leg more.
    pub(crate) fn put_leg(&mut self, belt: Belt)
        requires { (SoundLeg self.old.points (leg_of belt)) × (self.old.count < 512) }
        ensures { drawn self.new ≡ with_leg (drawn self.old) (leg_of belt) }
    {
        self.tables.belts[self.count as usize] = belt;
        self.count += 1;
        self.leaving.push(belt.tail);
        self.reaching.push(belt.head);
    }

    // kept: this and the next read tables of two types; a function for both would be no shorter than a body.
    // The hall of a junction that was entered.
    pub(crate) fn hall_at(&self, junction: u32) -> Option<u32>
        ensures { result ≡ slice_get (drawn self.now).hall_of junction }
    {
        self.tables.places[..self.points as usize]
            .get(junction as usize)
            .copied()
    }

    // A leg that was entered.
    pub(crate) fn belt_at(&self, leg: u32) -> Option<Belt>
        ensures { option_map leg_of result ≡ slice_get (drawn self.now).legs leg }
    {
        self.tables.belts[..self.count as usize]
            .get(leg as usize)
            .copied()
    }
}
