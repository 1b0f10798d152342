// A reader's place among the lines of a text. Its methods stand in ordered.rt, since their contracts name the struct.
ghost use Rattle.std.specs.Prelude.{◌+◌, ◌^◌, ◌<◌, length};

// Which lines may come next.
#[derive(Clone, Copy)]
pub(crate) enum Place {
    Start,
    Nodes,
    Outs,
    Ended,
}

// The place among the lines of a text, how many were passed, and what is left.
#[derive(Clone, Copy)]
pub struct Reader<'a> {
    pub(crate) place: Place,
    pub(crate) passed: usize,
    pub(crate) rest: &'a [u8],
    ghost countable: { passed + length rest.now + 1 < 2 ^ 64 },
}
