// What is counted of a net text.
ghost use Rattle.std.specs.Prelude.{◌≡◌, ◌+◌, ◌^◌, ◌<◌, Ok, Err};
ghost use Rattle.netlist.specs.Net.{Stop, Follows, Refused, Told};
ghost use Rattle.netlist.specs.Reading.{nodes_of, counted, read_text};

use lines::{Line, LineFault, Reader, at_line};

// The first line of a text that is refused, and why.
pub type TextFault = lines::TextFault<LineFault>;

// How many lines of each kind a text has, and the number of its end line.
#[derive(Clone, Copy, Default, PartialEq, Eq, Debug)]
pub struct Outline {
    pub inputs: usize,
    pub gates: usize,
    pub outs: usize,
    pub end: usize,
}

impl Outline {
    // The number of the newest node.
    fn nodes(&self) -> usize
        requires { nodes_of self.now < 2 ^ 64 }
        ensures { result ≡ nodes_of self.now }
    {
        self.inputs + self.gates
    }

    // One more line.
    fn count(&mut self, line: Line)
        requires { nodes_of self.old + self.old.outs + 1 < 2 ^ 64 }
        ensures { self.new ≡ counted self.old line }
    {
        match line {
            Line::Net(_) => {}
            Line::Input(_) => self.inputs += 1,
            Line::Gate(..) => self.gates += 1,
            Line::Out(_) => self.outs += 1,
            Line::End(n) => self.end = n as usize,
        }
    }
}

// A whole text: the outline of the net that it is the text of, or the first line that is refused.
pub fn read_text(text: &[u8]) -> Result<Outline, TextFault>
    ensures reads { result ≡ read_text text.now }
    ensures told { Told text.now result }
    ensures accepts { (o : Outline) → Follows text.now o → result ≡ Ok o }
    ensures refuses { (e : Stop) → Refused text.now e → result ≡ Err e }
{
    let mut reader = Reader::new(text);
    let mut outline = Outline::default();
    while let Some(line) = at_line(reader.line(), reader.next_line(outline.nodes()))? {
        outline.count(line);
    }
    Ok(outline)
}
