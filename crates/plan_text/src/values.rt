// The values of a plan's lines, in the forms that they have.
ghost use Rattle.std.specs.Prelude.{◌≡◌, ℕ, ◌≤◌};
ghost use Rattle.tokens.specs.Values.{OneLetter};
ghost use Rattle.plan_text.specs.Told.{One, Six};
ghost use Rattle.plan_text.specs.Formed.{value_of, Formed, FormedUpTo};

use layout::belt::Belt;
use layout::refusal::Refusal;
use tokens::Values;

// The values of a line, and the number of that line, by which they are refused.
#[derive(Clone, Copy)]
pub(crate) struct LineValues<'a> {
    pub(crate) values: Values<'a>,
    pub(crate) at: u32,
}

impl<'a> LineValues<'a> {
    // One number.
    pub(crate) fn number(self) -> Result<u32, Refusal>
        ensures { Formed (One (value_of self.entry)) self.entry.at result }
    {
        let [number] = self
            .values
            .numbers::<1>()
            .ok_or(Refusal::WrongForm(self.at))?;
        Ok(number)
    }

    // One number, `most` or less.
    pub(crate) fn number_up_to(self, most: u32) -> Result<u32, Refusal>
        ensures { FormedUpTo most (One (value_of self.entry)) self.entry.at result }
    {
        let number = self.number()?;
        if number > most {
            return Err(Refusal::OutOfRange(self.at));
        }
        Ok(number)
    }

    // Six numbers: a leg's ends and figures.
    pub(crate) fn belt(self) -> Result<Belt, Refusal>
        ensures { Formed (Six (value_of self.entry)) self.entry.at result }
    {
        let [tail, head, metres, class, clearance, turn] = self
            .values
            .numbers::<6>()
            .ok_or(Refusal::WrongForm(self.at))?;
        Ok(Belt {
            tail,
            head,
            metres,
            class,
            clearance,
            turn,
        })
    }

    // One letter.
    pub(crate) fn letter(self) -> Result<u8, Refusal>
        ensures { Formed (OneLetter (value_of self.entry)) self.entry.at result }
    {
        self.values.letter().ok_or(Refusal::WrongForm(self.at))
    }
}
