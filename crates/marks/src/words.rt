ghost use Rattle.std.specs.Prelude.{◌≡◌, length};
ghost use Rattle.layout.specs.Limits.{most_legs};

// The mark words: one for each leg, with a bit for each hall.
// kept: a plain struct of words with bits, as was asked for; the library allocates nothing.
#[derive(Drop)]
pub struct MarkWords {
    pub(crate) bits: [u32; 512],
}

// The marks: which legs a search towards a hall may use, for every leg and hall.
#[derive(Drop)]
pub struct Marks {
    pub(crate) words: MarkWords,
    ghost full: { length words.bits ≡ most_legs },
}
