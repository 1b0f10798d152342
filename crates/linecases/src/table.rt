// Texts with the answer that each must get.
use netlist::LineFault::{Number, Place, Shape};
use netlist::TextFault;

// Inputs, gates and outputs.
#[derive(Clone, Copy, PartialEq, Eq)]
pub struct Accepted(usize, usize, usize);

#[derive(Clone, Copy)]
pub struct Case {
    pub text: &'static [u8],
    pub want: Result<Accepted, TextFault>,
}

// What the library answers.
pub(crate) fn answer(text: &[u8]) -> Result<Accepted, TextFault> {
    netlist::read_text(text).map(|o| Accepted(o.inputs, o.gates, o.outs))
}

impl Case {
    pub(crate) fn agrees(&self) -> bool {
        answer(self.text) == self.want
    }
}

pub const CASES: [Case; 92] = [
    // Nets.
    Case {
        text: b"net=1\nend=0\n",
        want: Ok(Accepted(0, 0, 0)),
    },
    Case {
        text: b"net=1\nin=1\nend=1\n",
        want: Ok(Accepted(1, 0, 0)),
    },
    Case {
        text: b"net=1\nand=0,0\nend=1\n",
        want: Ok(Accepted(0, 1, 0)),
    },
    Case {
        text: b"net=1\nout=0\nend=0\n",
        want: Ok(Accepted(0, 0, 1)),
    },
    Case {
        text: b"net=1\nand=32767,0\nend=1\n",
        want: Ok(Accepted(0, 1, 0)),
    },
    Case {
        text: b"net=1\nand=0,32767\nout=32767\nend=1\n",
        want: Ok(Accepted(0, 1, 1)),
    },
    Case {
        text: b"net=1\nin=1\nin=2\nand=2,5\nout=7\nend=3\n",
        want: Ok(Accepted(2, 1, 1)),
    },
    Case {
        text: b"net=1\nand=9,9\nin=2\nout=4\nout=4\nend=2\n",
        want: Ok(Accepted(1, 1, 2)),
    },
    // No known shape.
    Case {
        text: b"\n",
        want: Err(TextFault {
            line: 1,
            fault: Shape,
        }),
    },
    Case {
        text: b" \n",
        want: Err(TextFault {
            line: 1,
            fault: Shape,
        }),
    },
    Case {
        text: b"\r\n",
        want: Err(TextFault {
            line: 1,
            fault: Shape,
        }),
    },
    Case {
        text: b"\0\n",
        want: Err(TextFault {
            line: 1,
            fault: Shape,
        }),
    },
    Case {
        text: b"\xff\n",
        want: Err(TextFault {
            line: 1,
            fault: Shape,
        }),
    },
    Case {
        text: b"net=1\r\n",
        want: Err(TextFault {
            line: 1,
            fault: Shape,
        }),
    },
    Case {
        text: b"net=1 \n",
        want: Err(TextFault {
            line: 1,
            fault: Shape,
        }),
    },
    Case {
        text: b" net=1\n",
        want: Err(TextFault {
            line: 1,
            fault: Shape,
        }),
    },
    Case {
        text: b"net =1\n",
        want: Err(TextFault {
            line: 1,
            fault: Shape,
        }),
    },
    Case {
        text: b"NET=1\n",
        want: Err(TextFault {
            line: 1,
            fault: Shape,
        }),
    },
    Case {
        text: b"Net=1\n",
        want: Err(TextFault {
            line: 1,
            fault: Shape,
        }),
    },
    Case {
        text: b"net\n",
        want: Err(TextFault {
            line: 1,
            fault: Shape,
        }),
    },
    Case {
        text: b"net=\n",
        want: Err(TextFault {
            line: 1,
            fault: Shape,
        }),
    },
    Case {
        text: b"net:1\n",
        want: Err(TextFault {
            line: 1,
            fault: Shape,
        }),
    },
    Case {
        text: b"net=x\n",
        want: Err(TextFault {
            line: 1,
            fault: Shape,
        }),
    },
    Case {
        text: b"net=+1\n",
        want: Err(TextFault {
            line: 1,
            fault: Shape,
        }),
    },
    Case {
        text: b"net=01\n",
        want: Err(TextFault {
            line: 1,
            fault: Shape,
        }),
    },
    Case {
        text: b"net=00\n",
        want: Err(TextFault {
            line: 1,
            fault: Shape,
        }),
    },
    Case {
        text: b"net=100000\n",
        want: Err(TextFault {
            line: 1,
            fault: Shape,
        }),
    },
    Case {
        text: b"net=1,1\n",
        want: Err(TextFault {
            line: 1,
            fault: Shape,
        }),
    },
    Case {
        text: b"net=1\0\n",
        want: Err(TextFault {
            line: 1,
            fault: Shape,
        }),
    },
    Case {
        text: b"nett=1\n",
        want: Err(TextFault {
            line: 1,
            fault: Shape,
        }),
    },
    Case {
        text: b"=1\n",
        want: Err(TextFault {
            line: 1,
            fault: Shape,
        }),
    },
    Case {
        text: b"net=1",
        want: Err(TextFault {
            line: 1,
            fault: Shape,
        }),
    },
    Case {
        text: b"net=1\nend=0",
        want: Err(TextFault {
            line: 2,
            fault: Shape,
        }),
    },
    Case {
        text: b"net=1\nend=0\nx",
        want: Err(TextFault {
            line: 3,
            fault: Shape,
        }),
    },
    Case {
        text: b"net=1\nend=0\n\n",
        want: Err(TextFault {
            line: 3,
            fault: Shape,
        }),
    },
    Case {
        text: b"net=1\n\nend=0\n",
        want: Err(TextFault {
            line: 2,
            fault: Shape,
        }),
    },
    Case {
        text: b"net=1\nin=00\n",
        want: Err(TextFault {
            line: 2,
            fault: Shape,
        }),
    },
    Case {
        text: b"net=1\nin=\n",
        want: Err(TextFault {
            line: 2,
            fault: Shape,
        }),
    },
    Case {
        text: b"net=1\nIN=1\n",
        want: Err(TextFault {
            line: 2,
            fault: Shape,
        }),
    },
    Case {
        text: b"net=1\nand=2\n",
        want: Err(TextFault {
            line: 2,
            fault: Shape,
        }),
    },
    Case {
        text: b"net=1\nand=2,\n",
        want: Err(TextFault {
            line: 2,
            fault: Shape,
        }),
    },
    Case {
        text: b"net=1\nand=,2\n",
        want: Err(TextFault {
            line: 2,
            fault: Shape,
        }),
    },
    Case {
        text: b"net=1\nand=,\n",
        want: Err(TextFault {
            line: 2,
            fault: Shape,
        }),
    },
    Case {
        text: b"net=1\nand=2,4,6\n",
        want: Err(TextFault {
            line: 2,
            fault: Shape,
        }),
    },
    Case {
        text: b"net=1\nand=2, 4\n",
        want: Err(TextFault {
            line: 2,
            fault: Shape,
        }),
    },
    Case {
        text: b"net=1\nand=02,4\n",
        want: Err(TextFault {
            line: 2,
            fault: Shape,
        }),
    },
    Case {
        text: b"net=1\nand=2,04\n",
        want: Err(TextFault {
            line: 2,
            fault: Shape,
        }),
    },
    Case {
        text: b"net=1\nand=99999,x\n",
        want: Err(TextFault {
            line: 2,
            fault: Shape,
        }),
    },
    Case {
        text: b"net=1\nand=x,99999\n",
        want: Err(TextFault {
            line: 2,
            fault: Shape,
        }),
    },
    Case {
        text: b"net=1\nout=\xff\n",
        want: Err(TextFault {
            line: 2,
            fault: Shape,
        }),
    },
    Case {
        text: b"net=1\nout=1000000\n",
        want: Err(TextFault {
            line: 2,
            fault: Shape,
        }),
    },
    Case {
        text: b"net=1\nend=-0\n",
        want: Err(TextFault {
            line: 2,
            fault: Shape,
        }),
    },
    Case {
        text: b"in=x\n",
        want: Err(TextFault {
            line: 1,
            fault: Shape,
        }),
    },
    // Out of place, or no end line.
    Case {
        text: b"",
        want: Err(TextFault {
            line: 1,
            fault: Place,
        }),
    },
    Case {
        text: b"in=1\n",
        want: Err(TextFault {
            line: 1,
            fault: Place,
        }),
    },
    Case {
        text: b"and=0,0\n",
        want: Err(TextFault {
            line: 1,
            fault: Place,
        }),
    },
    Case {
        text: b"out=0\n",
        want: Err(TextFault {
            line: 1,
            fault: Place,
        }),
    },
    Case {
        text: b"end=0\n",
        want: Err(TextFault {
            line: 1,
            fault: Place,
        }),
    },
    Case {
        text: b"end=99999\n",
        want: Err(TextFault {
            line: 1,
            fault: Place,
        }),
    },
    Case {
        text: b"net=1\n",
        want: Err(TextFault {
            line: 2,
            fault: Place,
        }),
    },
    Case {
        text: b"net=1\nin=1\n",
        want: Err(TextFault {
            line: 3,
            fault: Place,
        }),
    },
    Case {
        text: b"net=1\nout=0\n",
        want: Err(TextFault {
            line: 3,
            fault: Place,
        }),
    },
    Case {
        text: b"net=1\nnet=1\n",
        want: Err(TextFault {
            line: 2,
            fault: Place,
        }),
    },
    Case {
        text: b"net=1\nnet=99999\n",
        want: Err(TextFault {
            line: 2,
            fault: Place,
        }),
    },
    Case {
        text: b"net=1\nin=1\nnet=1\n",
        want: Err(TextFault {
            line: 3,
            fault: Place,
        }),
    },
    Case {
        text: b"net=1\nout=0\nin=1\n",
        want: Err(TextFault {
            line: 3,
            fault: Place,
        }),
    },
    Case {
        text: b"net=1\nout=0\nand=0,0\n",
        want: Err(TextFault {
            line: 3,
            fault: Place,
        }),
    },
    Case {
        text: b"net=1\nout=0\nnet=1\n",
        want: Err(TextFault {
            line: 3,
            fault: Place,
        }),
    },
    Case {
        text: b"net=1\nout=0\nin=99999\n",
        want: Err(TextFault {
            line: 3,
            fault: Place,
        }),
    },
    Case {
        text: b"net=1\nend=0\nend=0\n",
        want: Err(TextFault {
            line: 3,
            fault: Place,
        }),
    },
    Case {
        text: b"net=1\nend=0\nout=0\n",
        want: Err(TextFault {
            line: 3,
            fault: Place,
        }),
    },
    Case {
        text: b"net=1\nend=0\nnet=1\n",
        want: Err(TextFault {
            line: 3,
            fault: Place,
        }),
    },
    Case {
        text: b"net=1\nend=0\nin=1\n",
        want: Err(TextFault {
            line: 3,
            fault: Place,
        }),
    },
    Case {
        text: b"net=1\nend=0\nand=40000,0\n",
        want: Err(TextFault {
            line: 3,
            fault: Place,
        }),
    },
    // A number that is too large or not the one due.
    Case {
        text: b"net=0\n",
        want: Err(TextFault {
            line: 1,
            fault: Number,
        }),
    },
    Case {
        text: b"net=2\n",
        want: Err(TextFault {
            line: 1,
            fault: Number,
        }),
    },
    Case {
        text: b"net=10\n",
        want: Err(TextFault {
            line: 1,
            fault: Number,
        }),
    },
    Case {
        text: b"net=32768\n",
        want: Err(TextFault {
            line: 1,
            fault: Number,
        }),
    },
    Case {
        text: b"net=99999\n",
        want: Err(TextFault {
            line: 1,
            fault: Number,
        }),
    },
    Case {
        text: b"net=1\nin=0\n",
        want: Err(TextFault {
            line: 2,
            fault: Number,
        }),
    },
    Case {
        text: b"net=1\nin=2\n",
        want: Err(TextFault {
            line: 2,
            fault: Number,
        }),
    },
    Case {
        text: b"net=1\nin=32768\n",
        want: Err(TextFault {
            line: 2,
            fault: Number,
        }),
    },
    Case {
        text: b"net=1\nin=1\nin=1\n",
        want: Err(TextFault {
            line: 3,
            fault: Number,
        }),
    },
    Case {
        text: b"net=1\nand=32768,0\n",
        want: Err(TextFault {
            line: 2,
            fault: Number,
        }),
    },
    Case {
        text: b"net=1\nand=0,32768\n",
        want: Err(TextFault {
            line: 2,
            fault: Number,
        }),
    },
    Case {
        text: b"net=1\nand=99999,99999\n",
        want: Err(TextFault {
            line: 2,
            fault: Number,
        }),
    },
    Case {
        text: b"net=1\nout=32768\n",
        want: Err(TextFault {
            line: 2,
            fault: Number,
        }),
    },
    Case {
        text: b"net=1\nend=1\n",
        want: Err(TextFault {
            line: 2,
            fault: Number,
        }),
    },
    Case {
        text: b"net=1\nin=1\nend=0\n",
        want: Err(TextFault {
            line: 3,
            fault: Number,
        }),
    },
    Case {
        text: b"net=1\nin=1\nend=2\n",
        want: Err(TextFault {
            line: 3,
            fault: Number,
        }),
    },
    Case {
        text: b"net=1\nout=1\nend=1\n",
        want: Err(TextFault {
            line: 3,
            fault: Number,
        }),
    },
    Case {
        text: b"net=1\nend=65536\n",
        want: Err(TextFault {
            line: 2,
            fault: Number,
        }),
    },
];
