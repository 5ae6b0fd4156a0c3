ghost use Rattle.plan_text.specs.Reads.{Reads};

use crate::entries::Entries;
use crate::head::Head;
use crate::kind::Kind;
use crate::listening::Place;
use layout::refusal::Refusal;
use plan::draft::Draft;

// The most bytes that a text has.
pub const MOST_BYTES: usize = 65536;

// What was read of a plan.
// kept: a refused text leaves its measure, draft and lines too, so the refusal stands beside them and is no `Err`
#[derive(Drop)]
pub struct Reading {
    // the measure that it names, once that line was accepted
    pub kind: Option<Kind>,
    // the draft with what the accepted lines entered; none before the halls line was accepted
    pub draft: Option<Draft>,
    // why reading stopped before the plan was whole
    pub refusal: Option<Refusal>,
    // how many lines were accepted
    pub lines: u32,
    // where the rest of the text begins, after the last accepted line
    // kept: an index, since a slice would tie the reading to its text, which asks more of callers
    pub rest: usize,
}

// Reads a plan from the beginning of a text, whatever its bytes: up to its last line, or to the first line that is refused.
pub fn read_plan(text: &[u8]) -> Reading
    ensures { Reads text.now result }
{
    if text.len() > MOST_BYTES {
        return Reading {
            kind: None,
            draft: None,
            refusal: Some(Refusal::TooLong(MOST_BYTES as u32)),
            lines: 0,
            rest: 0,
        };
    }
    let mut place = Place {
        lines: 0,
        rest: text,
    };
    let mut head = Head::begin();
    if let Err(refusal) = place.listen(&mut head) {
        let lines = place.lines;
        let rest = text.len() - place.rest.len();
        return Reading {
            kind: head.kind,
            draft: head.draft,
            refusal: Some(refusal),
            lines,
            rest,
        };
    }
    let mut entries = head.entries();
    let refusal = place.listen(&mut entries).err();
    Reading {
        kind: Some(entries.kind),
        draft: Some(entries.draft),
        refusal,
        lines: place.lines,
        rest: text.len() - place.rest.len(),
    }
}
