// Replies are written at the end of a text.
ghost use Rattle.std.specs.Prelude.{◌≡◌, ◌++◌, string_bytes, OnOk};
ghost use Rattle.replies.specs.Written.{written, way_written};

use crate::reply::Reply;
use crate::way::Way;
use measure::Printing;
use std::alloc::{AllocError, Allocator};

// Writes one reply at the end of `out`.
// kept: this and the next are a line each, and name the bytes of what they write; one over any `Display` would leave that to each caller.
pub(crate) fn say<A: Allocator>(out: &mut String<A>, reply: Reply) -> Result<(), AllocError>
    ensures { OnOk result (string_bytes out.new ≡ string_bytes out.old ++ written reply) }
{
    write!(out, "{reply}")
}

// Writes a way that was found at the end of `out`.
pub(crate) fn say_way<M: Printing, A: Allocator>(
    out: &mut String<A>,
    way: Way<M>,
) -> Result<(), AllocError>
    ensures { OnOk result (string_bytes out.new ≡ string_bytes out.old ++ way_written M.Printing.written way.entry.total way.entry.settled way.entry.legs.now) }
{
    write!(out, "{way}")
}
