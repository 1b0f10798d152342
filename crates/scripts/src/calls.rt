// The lines of a script: a call and its arguments, in words one space apart.
use cuts::Edge;
use evaluation::Side;
use ranked::RankedBy;
use signals::Patterns;
use std::alloc::{AllocError, Global};
use std::str::Split;

// Longer tables than count for anything are served, up to this length.
const LONGEST: usize = 131_072;

// How many rows or slots each of the six tables has. The written sessions have a table of their own, which is a constant.
#[derive(Clone, Copy)]
pub struct Lengths {
    pub source: usize,
    pub reduced: usize,
    pub cuts: usize,
    pub pairs: usize,
    pub keys: usize,
    pub outputs: usize,
}

// A graph, the number of result places, and the signals of the inputs.
#[derive(Drop)]
pub struct Walk {
    pub side: Side,
    pub places: usize,
    pub signals: Vec<Patterns>,
}

#[derive(Drop)]
pub enum Call {
    Open(Lengths),
    Input,
    Gate(RankedBy, Edge, Edge),
    Output(Edge),
    Map(Edge),
    Tally,
    Node(usize),
    List,
    Walk(Walk),
    // An edge, the number of marks and the cap.
    Cone(Edge, usize, usize),
}

type Words<'a> = Split<'a, char>;

// A number in decimal digits; what `parse` takes besides is a plus sign.
fn number(words: &mut Words<'_>) -> Option<usize> {
    let word = words.next()?;
    if word.starts_with('+') {
        return None;
    }
    word.parse::<usize>().ok()
}

fn length(words: &mut Words<'_>) -> Option<usize> {
    number(words).filter(|length| *length <= LONGEST)
}

fn edge(words: &mut Words<'_>) -> Option<Edge> {
    let number = u16::try_from(number(words)?).ok()?;
    Some(Edge::new(number))
}

fn six_lengths(words: &mut Words<'_>) -> Option<Lengths> {
    Some(Lengths {
        source: length(words)?,
        reduced: length(words)?,
        cuts: length(words)?,
        pairs: length(words)?,
        keys: length(words)?,
        outputs: length(words)?,
    })
}

fn ranking(word: &str) -> Option<RankedBy> {
    match word {
        "height" => Some(RankedBy::Height),
        "gates" => Some(RankedBy::GateLeaves),
        "uses" => Some(RankedBy::Uses),
        "flat" => Some(RankedBy::Nothing),
        _ => None,
    }
}

fn side(word: &str) -> Option<Side> {
    match word {
        "source" => Some(Side::Source),
        "reduced" => Some(Side::Reduced),
        _ => None,
    }
}

// A word of 64 patterns in 16 hexadecimal digits; what `from_str_radix` takes besides is a plus sign.
fn patterns(word: &str) -> Option<Patterns> {
    if word.len() != 16 || word.starts_with('+') {
        return None;
    }
    let word = u64::from_str_radix(word, 16).ok()?;
    Some(Patterns { word })
}

// A walk that has no signals yet.
fn walk_at_start(heap: Global, words: &mut Words<'_>) -> Option<Walk> {
    Some(Walk {
        side: side(words.next()?)?,
        places: length(words)?,
        signals: Vec::new(heap),
    })
}

fn call_at_start(heap: Global, words: &mut Words<'_>, walks: bool) -> Option<Call> {
    match words.next()? {
        "open" => Some(Call::Open(six_lengths(words)?)),
        "input" => Some(Call::Input),
        "gate" => Some(Call::Gate(ranking(words.next()?)?, edge(words)?, edge(words)?)),
        "output" => Some(Call::Output(edge(words)?)),
        "map" => Some(Call::Map(edge(words)?)),
        "tally" => Some(Call::Tally),
        "node" => Some(Call::Node(number(words)?)),
        "list" => Some(Call::List),
        "walk" if walks => Some(Call::Walk(walk_at_start(heap, words)?)),
        "cone" => Some(Call::Cone(edge(words)?, length(words)?, number(words)?)),
        _ => None,
    }
}

impl Call {
    pub(crate) fn opens(&self) -> bool {
        matches!(self, Call::Open(_))
    }

    // Gives back the room that the signals of a walk don't need, since each walk of a script keeps its own.
    fn shrink(&mut self) {
        if let Call::Walk(walk) = self {
            walk.signals.shrink_to_fit();
        }
    }

    // One word more, which is a signal of a walk: whether the call takes it.
    fn take(&mut self, word: &str) -> Result<bool, AllocError> {
        let Call::Walk(walk) = self else {
            return Ok(false);
        };
        let Some(signal) = patterns(word) else {
            return Ok(false);
        };
        walk.signals.push(signal)?;
        Ok(true)
    }
}

// The call of a line, which byte 10 ends. Where walks are no calls, the signals of one are not read.
pub(crate) fn read_call(heap: Global, line: &str, walks: bool) -> Result<Option<Call>, AllocError> {
    let Some(line) = line.strip_suffix('\n') else {
        return Ok(None);
    };
    let mut words = line.split(' ');
    let Some(mut call) = call_at_start(heap, &mut words, walks) else {
        return Ok(None);
    };
    for word in words {
        if !call.take(word)? {
            return Ok(None);
        }
    }
    call.shrink();
    Ok(Some(call))
}
