// The lines of a listing.
ghost use Rattle.std.specs.Prelude.{◌≡◌, ◌≤◌, length};
ghost use Rattle.model.specs.Texts.{written};
ghost use Rattle.pages.specs.Lines.{line_in, key_text};

use crate::parts::Part;

// The key of a line with one number.
#[derive(Clone, Copy)]
pub enum Key {
    Net,
    In,
    Out,
    End,
    Made,
    Folded,
    Shared,
    Merged,
    Map,
    Done,
}

// A line: a key and a number, or a gate with its two fanin edges.
#[derive(Clone, Copy)]
pub enum Line {
    Number(Key, u32),
    Gate(u32, u32),
}

impl Key {
    // The word of the key: a match and no table by number, so that each word stands beside its key.
    pub(crate) fn text(self) -> &'static [u8]
        ensures { result.now ≡ key_text self }
    {
        match self {
            Key::Net => b"net=",
            Key::In => b"in=",
            Key::Out => b"out=",
            Key::End => b"end=",
            Key::Made => b"made=",
            Key::Folded => b"folded=",
            Key::Shared => b"shared=",
            Key::Merged => b"merged=",
            Key::Map => b"map=",
            Key::Done => b"done=",
        }
    }
}

impl Line {
    // How long the line is, with its end.
    pub fn length(self) -> usize
        ensures value { result ≡ length (written (line_in self)) }
        ensures bound { result ≤ 26 }
    {
        match self {
            Line::Number(key, n) => key.text().width() + n.width() + 1,
            Line::Gate(x, y) => x.width() + y.width() + 6,
        }
    }
}
