// The values of a line, read as numbers or as a letter.
ghost use Rattle.std.specs.Prelude.{◌≡◌, ℕ, List, length, MatchOption};
ghost use Rattle.tokens.specs.declared.line.Line.{Line as Left};
ghost use Rattle.tokens.specs.declared.line.Due.TheVariants as due;
ghost use Rattle.tokens.specs.Cuts.{Keyed, Keyless};
ghost use Rattle.tokens.specs.Taken.{Bytes, Takes, TakesNumber, LeftNumbers, LeftLetter, left};
ghost use Rattle.tokens.specs.Values.{Numbers, OneLetter};

use crate::line::{Line, Token};
use crate::numeral::{letter_of, number_of};

impl<'a> Line<'a> {
    // The next token, where that is a value.
    fn next_value(&mut self) -> Option<&'a [u8]>
        ensures { MatchOption result ((part : Bytes) (after : Left) → Takes self.old (Token.Value part) after → ⊥) (λ part. Takes self.old (Token.Value part) self.new) }
    {
        match self.next_token()? {
            Token::Value(value) => Some(value),
            Token::Key(_) => None,
        }
    }

    // The next value, read as a number.
    fn next_number(&mut self) -> Option<u32>
        ensures { MatchOption result ((n : ℕ) (after : Left) → TakesNumber self.old n after → ⊥) (λ n. TakesNumber self.old n self.new) }
    {
        number_of(self.next_value()?)
    }

    // The numbers that are left: exactly `K` values, each of them a number.
    pub fn numbers<const K: usize>(mut self) -> Option<[u32; K]>
        ensures { MatchOption result ((ns : List ℕ) → length ns ≡ K → LeftNumbers self.entry ns → ⊥) (λ ns. (length ns ≡ K) × LeftNumbers self.entry ns) }
    {
        let mut found = [0; K];
        for number in &mut found {
            *number = self.next_number()?;
        }
        self.at_end().then_some(found)
    }

    // The letter that is left: exactly one value, and that one small letter.
    pub fn letter(mut self) -> Option<u8>
        ensures { MatchOption result ((c : ℕ) → LeftLetter self.entry c → ⊥) (λ c. LeftLetter self.entry c) }
    {
        let letter = letter_of(self.next_value()?)?;
        self.at_end().then_some(letter)
    }
}

// The values of a line whose key was taken.
#[derive(Clone, Copy)]
pub struct Values<'a> {
    line: Line<'a>,
    // a value comes after each `=`, even if it has no bytes
    ghost due: { line.due ≡ due.Value },
}

// The key of a line, and its values. There are none where no `=` stands in it.
pub fn split_key(line: &[u8]) -> Option<(&[u8], Values)>
    ensures { MatchOption result (Keyless line.now) (λ cut. Keyed line.now cut.0.now (left cut.1.line)) }
{
    let mut line = Line::new(line);
    match line.next_token()? {
        Token::Key(key) => Some((key, Values { line })),
        Token::Value(_) => None,
    }
}

impl<'a> Values<'a> {
    // Exactly `K` values, each of them a number.
    pub fn numbers<const K: usize>(self) -> Option<[u32; K]>
        ensures { MatchOption result ((ns : List ℕ) → length ns ≡ K → Numbers (left self.entry.line) ns → ⊥) (λ ns. (length ns ≡ K) × Numbers (left self.entry.line) ns) }
    {
        self.line.numbers()
    }

    // Exactly one value, and that one small letter.
    pub fn letter(self) -> Option<u8>
        ensures { MatchOption result ((c : ℕ) → OneLetter (left self.entry.line) c → ⊥) (λ c. OneLetter (left self.entry.line) c) }
    {
        self.line.letter()
    }
}
