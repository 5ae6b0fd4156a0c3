// What a value writes: a number or a letter.
ghost use Rattle.std.specs.Prelude.{◌≡◌, ℕ, ◌<◌, ◌≤◌, length, MatchOption};
ghost use Rattle.std.specs.Str.Parse.{AllDigits, digits_value_after};
ghost use Rattle.std.specs.Char.{digit_value};
ghost use Rattle.tokens.specs.Values.{Numeral, OneLetter};

// The most digits that a number has.
const MOST_DIGITS: usize = 5;

// What one digit counts.
fn digit(byte: u8) -> Option<u32>
    ensures { MatchOption result (digit_value byte < 10 → ⊥) (λ d. (d < 10) × (d ≡ digit_value byte)) }
{
    char::from(byte).to_digit(10)
}

// The number that `digits` write after those of `start`.
fn read_on(start: u32, digits: &[u8]) -> Option<u32>
    requires { (start < 10) × (length digits.now ≤ 4) }
    ensures { MatchOption result (AllDigits 10 digits.now → ⊥) (λ n. AllDigits 10 digits.now × (n ≡ digits_value_after 10 start digits.now)) }
{
    // kept: in a `try_fold` the product has no proof that it fits, which rests on how many digits came before
    let mut n = start;
    for byte in digits {
        n = 10 * n + digit(*byte)?;
    }
    Some(n)
}

// The number that `digits` write: one to five decimal digits, of which the first is 0 only where it is the only one.
pub(crate) fn number_of(digits: &[u8]) -> Option<u32>
    ensures { MatchOption result ((n : ℕ) → Numeral digits.now n → ⊥) (λ n. Numeral digits.now n) }
{
    match digits {
        [] => None,
        [b'0'] => Some(0),
        [b'0', ..] => None,
        [first, rest @ ..] if rest.len() < MOST_DIGITS => read_on(digit(*first)?, rest),
        _ => None,
    }
}

// The letter that `value` is.
pub(crate) fn letter_of(value: &[u8]) -> Option<u8>
    ensures { MatchOption result ((c : ℕ) → OneLetter value.now c → ⊥) (λ c. OneLetter value.now c) }
{
    match value {
        [only @ b'a'..=b'z'] => Some(*only),
        _ => None,
    }
}
