// Numbers and texts, the parts of a line.
ghost use Rattle.std.specs.Prelude.{◌≡◌, ℕ, ◌+◌, ◌≤◌, List, length, decimal};
ghost use Rattle.pages.specs.Page.{over, over_at};

// What a line is written from.
pub(crate) trait Part: Copy {
    // its bytes
    ghost bytes: { Self → List ℕ };

    // How many bytes it has.
    fn width(self) -> usize
        ensures { result ≡ length (bytes self) };

    // Writes its bytes to the front of out, and answers how many.
    fn put(self, out: &mut [u8]) -> usize
        requires { length (bytes self) ≤ length out.old }
        ensures value { result ≡ length (bytes self) }
        ensures after { out.new ≡ over (bytes self) out.old };
}

impl Part for u32 {
    ghost bytes = { decimal };

    fn width(self) -> usize {
        self.max(1).ilog10() as usize + 1
    }

    fn put(self, out: &mut [u8]) -> usize {
        put_number(out, self)
    }
}

impl Part for &[u8] {
    ghost bytes = { λ text. text.now };

    fn width(self) -> usize {
        self.len()
    }

    fn put(self, out: &mut [u8]) -> usize {
        let n = self.len();
        out[..n].copy_from_slice(self);
        n
    }
}

// Writes the digits of n to the front of out, and answers how many: by recursion, since the first digit is found last.
fn put_number(out: &mut [u8], n: u32) -> usize
    requires { length (decimal n) ≤ length out.old }
    ensures value { result ≡ length (decimal n) }
    ensures after { out.new ≡ over (decimal n) out.old }
{
    let at = if n < 10 { 0 } else { put_number(out, n / 10) };
    out[at] = b'0' + (n % 10) as u8;
    at + 1
}

// Writes the part from the place at on, and answers the place after it.
pub(crate) fn add<P: Part>(page: &mut [u8], at: usize, part: P) -> usize
    requires { at + length (P.bytes part) ≤ length page.old }
    ensures value { result ≡ at + length (P.bytes part) }
    ensures after { page.new ≡ over_at at (P.bytes part) page.old }
{
    at + part.put(&mut page[at..])
}
