// The trays of an open dispatcher, as a ring that the cycles go round.
ghost use Rattle.std.specs.Prelude.{◌≡◌, ◌+◌, ◌-◌, ◌%◌, ◌<◌, ◌≤◌};

// Of span + 1 trays, that of the cycle z is z mod (span + 1).
#[derive(Clone, Copy, Debug, PartialEq, Eq)]
pub struct Ring {
    span: usize,
    ghost short: { span ≤ 127 },
}

impl Ring {
    // The ring of so many trays.
    pub(crate) fn of(trays: usize) -> Ring
        requires some { 0 < trays }
        requires few { trays ≤ 128 }
        ensures { result.span ≡ trays - 1 }
    {
        Ring { span: trays - 1 }
    }

    // The number of trays less one, which is the longest interval.
    pub(crate) fn span(self) -> usize
        ensures span { result ≡ self.span }
        ensures short { result ≤ 127 }
    {
        self.span
    }

    // The tray of a cycle.
    pub(crate) fn tray_of(self, cycle: u32) -> usize
        ensures { result ≡ cycle % (self.span + 1) }
    {
        cycle as usize % (self.span + 1)
    }
}
