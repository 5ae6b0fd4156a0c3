// Lines and values at the edges of their forms.
use crate::cut::next_line;
use crate::line::{Line, Token};
use crate::values::split_key;

// How long the first line of `text` is, and what comes after it.
fn line_sizes(text: &[u8]) -> Option<(usize, usize)> {
    let (line, rest) = next_line(text)?;
    Some((line.len(), rest.len()))
}

// How long the key of `line` is, and how many values come after it.
fn token_sizes(line: &[u8]) -> Option<(usize, usize)> {
    let mut line = Line::new(line);
    let Token::Key(key) = line.next_token()? else {
        return None;
    };
    for values in 0..9 {
        if line.at_end() {
            return Some((key.len(), values));
        }
        line.next_token()?;
    }
    None
}

// The one number of a line.
fn one(line: &[u8]) -> Option<u32> {
    let mut line = Line::new(line);
    line.next_token()?;
    let [n] = line.numbers::<1>()?;
    Some(n)
}

// The sum of the three numbers of a line.
fn three(line: &[u8]) -> Option<u64> {
    let mut line = Line::new(line);
    line.next_token()?;
    let [a, b, c] = line.numbers::<3>()?;
    Some(u64::from(a) + u64::from(b) + u64::from(c))
}

// The letter of a line.
fn letter(line: &[u8]) -> Option<u8> {
    let mut line = Line::new(line);
    line.next_token()?;
    line.letter()
}

// How long the key of `line` is, and its one number.
fn keyed_number(line: &[u8]) -> Option<(usize, u32)> {
    let (key, values) = split_key(line)?;
    let [n] = values.numbers::<1>()?;
    Some((key.len(), n))
}

// How long the key of `line` is, and its letter.
fn keyed_letter(line: &[u8]) -> Option<(usize, u8)> {
    let (key, values) = split_key(line)?;
    Some((key.len(), values.letter()?))
}

#[test]
fn lines(rt: HostRuntime) {
    assert_eq!(rt; line_sizes(b"plan=1\nhalls=2\n"), Some((6, 8)));
    assert_eq!(rt; line_sizes(b"\n"), Some((0, 0)));
    assert_eq!(rt; line_sizes(b""), None);
    assert_eq!(rt; line_sizes(b"plan=1"), None);
    assert_eq!(rt;
        line_sizes(b"0123456789012345678901234567890123456789\n"),
        Some((40, 0))
    );
    assert_eq!(rt;
        line_sizes(b"01234567890123456789012345678901234567890\n"),
        None
    );
}

#[test]
fn keys_and_values(rt: HostRuntime) {
    assert_eq!(rt; token_sizes(b"leg=0,1,10,4,60,0"), Some((3, 6)));
    assert_eq!(rt; token_sizes(b"=1"), Some((0, 1)));
    assert_eq!(rt; token_sizes(b"at="), Some((2, 1)));
    assert_eq!(rt; token_sizes(b"at=,"), Some((2, 2)));
    assert_eq!(rt; token_sizes(b"at"), None);
    assert_eq!(rt; token_sizes(b"at=1=2"), None);
    assert_eq!(rt; token_sizes(b"at=A"), None);
    assert_eq!(rt; token_sizes(b"at=\0"), None);
    assert_eq!(rt; token_sizes(b"at=1,\xff"), None);
}

#[test]
fn numbers(rt: HostRuntime) {
    assert_eq!(rt; one(b"halls=0"), Some(0));
    assert_eq!(rt; one(b"halls=99999"), Some(99_999));
    assert_eq!(rt; one(b"halls=100000"), None);
    assert_eq!(rt; one(b"halls=07"), None);
    assert_eq!(rt; one(b"halls=00"), None);
    assert_eq!(rt; one(b"halls="), None);
    assert_eq!(rt; one(b"halls=1a"), None);
    assert_eq!(rt; one(b"halls=1,2"), None);
    assert_eq!(rt; three(b"set=3,0,80"), Some(83));
    assert_eq!(rt; three(b"set=3,0"), None);
    assert_eq!(rt; three(b"set=3,0,80,"), None);
    assert_eq!(rt; three(b"set=3,,80"), None);
}

#[test]
fn letters(rt: HostRuntime) {
    assert_eq!(rt; letter(b"measure=t"), Some(b't'));
    assert_eq!(rt; letter(b"measure=T"), None);
    assert_eq!(rt; letter(b"measure=th"), None);
    assert_eq!(rt; letter(b"measure=t,"), None);
    assert_eq!(rt; letter(b"measure="), None);
    assert_eq!(rt; letter(b"measure=1"), None);
}

#[test]
fn split_keys(rt: HostRuntime) {
    assert_eq!(rt; keyed_number(b"halls=2"), Some((5, 2)));
    assert_eq!(rt; keyed_number(b"halls=2,3"), None);
    assert_eq!(rt; keyed_number(b"halls"), None);
    assert_eq!(rt; keyed_letter(b"measure=t"), Some((7, b't')));
    assert_eq!(rt; keyed_letter(b"measure=2"), None);
}
