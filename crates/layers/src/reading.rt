// What a sheet has of a leg.
ghost use Rattle.std.specs.Prelude.{◌≡◌};
ghost use Rattle.layers.specs.Day.{is_shut, replacing};

use crate::sheet::{Replaced, Sheet};

impl Sheet {
    // The figures that replace a leg's own, if any do.
    pub(crate) fn replacing(&self, leg: u32) -> Option<Replaced>
        ensures { result ≡ replacing self.now leg }
    {
        self.replaced.get(leg as usize).copied().flatten()
    }

    // Whether a leg is shut on the sheet.
    pub(crate) fn is_shut(&self, leg: u32) -> bool
        ensures { result ≡ is_shut self.now leg }
    {
        self.shut.get(leg as usize).copied().unwrap_or(false)
    }
}
