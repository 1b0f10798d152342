//! The marks that a count works on.
ghost use Rattle.cones.specs.Marks.{Clear};

// Holds the marks of a count; they are all 0 once it is let go.
pub(crate) struct Wipe<'a> {
    pub(crate) marks: &'a mut [u8],
}

impl Drop for Wipe<'_> {
    fn drop(self)
        ensures { Clear self.exit.0.now }
    {
        let Wipe { marks } = self;
        marks.fill(0);
    }
}
