// A part of the plan is heard from a text, line by line.
ghost use Rattle.std.specs.Prelude.{◌≡◌, ℕ, ◌+◌, ◌≤◌, List, length, Some, None, MatchOption};
ghost use Rattle.std.specs.Result.{result_err};
ghost use Rattle.tokens.specs.Cuts.{Keyed};
ghost use Rattle.tokens.specs.Taken.{left};
ghost use Rattle.plan_text.specs.Told.{Says};
ghost use Rattle.plan_text.specs.Hears.{Hearing};
ghost use Rattle.plan_text.specs.Reads.{most_bytes, Accepts, Refuses, Lines, Halts};

use crate::due::Due;
use crate::listener::Listener;
use crate::values::LineValues;
use layout::refusal::Refusal;
use tokens::{Values, next_line, split_key};

// The values of a line that has the given key.
fn values_under<'a>(line: &'a [u8], key: &[u8]) -> Option<Values<'a>>
    ensures { MatchOption result ((value : List ℕ) → Keyed line.now key.now value → ⊥) (λ values. Keyed line.now key.now (left values.line)) }
{
    let (found, values) = split_key(line)?;
    (found == key).then_some(values)
}

// One line, whose number is `at`: its key has to be the one due.
fn hear_line<L: Listener>(listener: &mut L, due: Due, line: &[u8], at: u32) -> Result<(), Refusal>
    requires { L.waits listener.old ≡ Some due }
    ensures { Hearing (Says (L.heard listener.old) at due line.now) (L.heard listener.old) result (L.heard listener.new) }
{
    let values = values_under(line, due.key()).ok_or(Refusal::NotDue(at))?;
    listener.tell(due, LineValues { values, at })
}

// How far a text was read.
#[derive(Drop)]
pub(crate) struct Place<'a> {
    // how many lines were accepted
    pub(crate) lines: u32,
    // what comes after them
    pub(crate) rest: &'a [u8],
    // the text is not too long, and each line takes a byte at least
    ghost short: { lines + length rest.now ≤ most_bytes },
}

impl<'a> Place<'a> {
    // The next line, which is accepted or refused. At a refused line the place stays.
    fn hear_next<L: Listener>(&mut self, listener: &mut L, due: Due) -> Result<(), Refusal>
        requires { L.waits listener.old ≡ Some due }
        ensures { elim result [ Ok _ ↦ Accepts (L.heard listener.old) (self.old.lines + 1) self.old.rest.now (L.heard listener.new) self.new.rest.now × (self.new.lines ≡ self.old.lines + 1) | Err e ↦ Refuses (L.heard listener.old) (self.old.lines + 1) self.old.rest.now e × (L.heard listener.new ≡ L.heard listener.old) × (self.new ≡ self.old) ] }
    {
        let at = self.lines + 1;
        if self.rest.is_empty() {
            return Err(Refusal::NotDue(at));
        }
        let (line, rest) = next_line(self.rest).ok_or(Refusal::NoEnd(at))?;
        hear_line(listener, due, line, at)?;
        self.lines += 1;
        self.rest = rest;
        Ok(())
    }

    // Listens to line after line until the part is whole or a line is refused.
    pub(crate) fn listen<L: Listener>(&mut self, listener: &mut L) -> Result<(), Refusal>
        ensures lines { (k : ℕ) × (self.new.lines ≡ self.old.lines + k) × Lines k (L.heard listener.old) (self.old.lines + 1) self.old.rest.now (L.heard listener.new) self.new.rest.now }
        ensures stops { Halts (L.waits listener.new ≡ None) (L.heard listener.new) (self.new.lines + 1) self.new.rest.now (result_err result) }
    {
        while let Some(due) = listener.due() {
            self.hear_next(listener, due)?;
        }
        Ok(())
    }
}
