// One line, taken apart a token at a time.
ghost use Rattle.std.specs.Prelude.{◌≡◌, Decides, MatchOption};
ghost use Rattle.tokens.specs.Taken.{left, Gives, OfClass, PlainUpTo, Stray};

use crate::cut::place_of;

// A part of a line: its key, or one of its values.
#[derive(Clone, Copy)]
pub enum Token<'a> {
    // what stands before the first `=`
    Key(&'a [u8]),
    // what stands between commas after it
    Value(&'a [u8]),
}

// What a line has to give next.
#[derive(Clone, Copy, PartialEq, Eq, Debug)]
pub enum Due {
    Key,
    Value,
    Nothing,
}

// A line of which some tokens may have been taken.
#[derive(Clone, Copy)]
pub struct Line<'a> {
    // the bytes after the tokens taken
    rest: &'a [u8],
    due: Due,
}

// The kinds of character that a value is read by.
#[derive(Clone, Copy)]
enum Class {
    Digit,
    Comma,
    Letter,
    Other,
}

// The kind that a byte is: capital letters, the zero byte and bytes above 127 are others.
fn class_of(byte: u8) -> Class
    ensures { OfClass result byte }
{
    match byte {
        b'0'..=b'9' => Class::Digit,
        b',' => Class::Comma,
        b'a'..=b'z' => Class::Letter,
        _ => Class::Other,
    }
}

// How many bytes the first value of `bytes` has: as many as there are digits and letters before a comma or the end.
// None where another character stands among them.
fn value_length(bytes: &[u8]) -> Option<usize>
    ensures { MatchOption result (Stray bytes.now) (λ n. PlainUpTo bytes.now n) }
{
    // kept: a byte's class says at once to go on, to stop or to refuse; after a `position` it would be asked for again
    for (place, byte) in bytes.iter().enumerate() {
        match class_of(*byte) {
            Class::Digit | Class::Letter => {}
            Class::Comma => return Some(place),
            Class::Other => return None,
        }
    }
    Some(bytes.len())
}

impl<'a> Line<'a> {
    // The whole line, its key due.
    pub fn new(line: &'a [u8]) -> Line<'a>
        ensures { (left result ≡ line.now) × (result.due ≡ Due.Key) }
    {
        Line {
            rest: line,
            due: Due::Key,
        }
    }

    // Whether all tokens were taken.
    pub fn at_end(&self) -> bool
        ensures { Decides result (self.now.due ≡ Due.Nothing) }
    {
        self.due == Due::Nothing
    }

    // The key of a line whose key is due.
    fn take_key(&mut self) -> Option<Token<'a>>
        requires { self.old.due ≡ Due.Key }
        ensures { Gives self.old result self.new }
    {
        let line = self.rest;
        let place = place_of(line, b'=')?;
        self.rest = &line[place + 1..];
        self.due = Due::Value;
        Some(Token::Key(&line[..place]))
    }

    // The next value of a line that has one due.
    fn take_value(&mut self) -> Option<Token<'a>>
        requires { self.old.due ≡ Due.Value }
        ensures { Gives self.old result self.new }
    {
        let values = self.rest;
        let length = value_length(values)?;
        if length < values.len() {
            self.rest = &values[length + 1..];
        } else {
            self.due = Due::Nothing;
        }
        Some(Token::Value(&values[..length]))
    }

    // The next token, which is then taken. Where none of the form due is there, the line stays as it is.
    pub fn next_token(&mut self) -> Option<Token<'a>>
        ensures { Gives self.old result self.new }
    {
        match self.due {
            Due::Key => self.take_key(),
            Due::Value => self.take_value(),
            Due::Nothing => None,
        }
    }
}
