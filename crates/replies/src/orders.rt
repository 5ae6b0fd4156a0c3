// The lines after a plan.
ghost use Rattle.std.specs.Prelude.{◌+◌, ◌≤◌, length};
ghost use Rattle.plan_text.specs.Reads.{most_bytes};

// The bytes that come after a plan, and how many lines the plan has.
#[derive(Clone, Copy)]
pub(crate) struct Orders<'a> {
    pub(crate) lines: u32,
    pub(crate) bytes: &'a [u8],
    // the text is not too long, and each line took a byte at least
    ghost short: { lines + length bytes.now ≤ most_bytes },
}
