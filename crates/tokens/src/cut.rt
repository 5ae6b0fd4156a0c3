// A text cut into lines.
ghost use Rattle.std.specs.Option.{MatchOption};
ghost use Rattle.tokens.specs.Cuts.{Lacks, FirstAt, FirstLine, Endless};

// The most bytes that a line has before the byte 10 that ends it.
const LONGEST_LINE: usize = 40;

// Where `wanted` first stands in `bytes`.
pub(crate) fn place_of(bytes: &[u8], wanted: u8) -> Option<usize>
    ensures { MatchOption result (Lacks wanted bytes.now) (λ place. FirstAt wanted bytes.now place) }
{
    bytes.iter().position(|byte| *byte == wanted)
}

// The first line of `text`, without the byte 10 that ends it, and what comes after that byte.
// There is none where no byte 10 stands among the first 41 bytes.
pub fn next_line(text: &[u8]) -> Option<(&[u8], &[u8])>
    ensures { MatchOption result (Endless text.now) (λ cut. FirstLine text.now cut.0.now cut.1.now) }
{
    let window = text.len().min(LONGEST_LINE + 1);
    let end = place_of(&text[..window], b'\n')?;
    Some((&text[..end], &text[end + 1..]))
}
