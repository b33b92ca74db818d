// What a declined call says: a number, and figures that go with it.
#![tactic(auto)]

ghost use Rattle.std.specs.Prelude.{◌≡◌};
ghost use Rattle.refusal.specs.Refusals.{Declined, number_of, first_figure};

/// A fault that has a number, and figures that go with it.
pub trait Refusal {
    // the number and the figures of each case
    ghost declined: { Self → Declined };

    /// The number of the case, as it is printed.
    // It is a number, and not an enum: each crate has faults of its own, and one numbering goes through all of them.
    fn number(&self) -> u32
        ensures { result ≡ number_of (declined self.now) };

    /// The first figure, 0 where there is none.
    // It is 0, and not `None`: a figure is there to be printed, and 0 is what is printed for a case without one.
    fn figure(&self) -> usize
        ensures { result ≡ first_figure (declined self.now) };
}
