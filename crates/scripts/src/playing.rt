// The calls of a script on one session.
use crate::answers::{Answer, Fault};
use crate::calls::{Call, Walk};
use crate::shown::Shown;
use crate::tables::filled;
use cones::cone;
use cuts::Edge;
use evaluation::walk;
use listing::write_report;
use signals::Patterns;
use std::alloc::{AllocError, Global};
use sweeper::{Refusal, Session};

// A session, and the memory for what its calls need of their own: a page, result places or marks.
#[derive(Drop)]
pub(crate) struct Playing<'s> {
    pub(crate) heap: Global,
    pub(crate) session: Session<'s>,
}

impl<'s> Playing<'s> {
    // Node 0 is the constant, which no row stands for.
    fn node(&self, node: usize) -> Result<Answer<'_>, Fault> {
        if node == 0 {
            return Ok(Answer::Constant);
        }
        let row = self.session.node(node).ok_or(Refusal::NoNode(0))?;
        Ok(Answer::Node(row, self.session.kept_cuts(node)))
    }

    // How long the whole listing is: no page at all is refused with that length.
    fn report_length(&self) -> usize {
        match write_report(&self.session, &mut []) {
            Ok(length) => length,
            Err(short) => short.wanted,
        }
    }

    fn list(&self) -> Result<Answer<'_>, Fault> {
        let mut page = filled(self.heap, 0u8, self.report_length())?;
        let _ = write_report(&self.session, page.as_mut_slice());
        let _ = page.pop();
        Ok(Answer::List(String::from_utf8_lossy(self.heap, page.as_slice())?))
    }

    fn walk(&self, call: &Walk) -> Result<Answer<'_>, Fault> {
        let mut places = filled(self.heap, Patterns { word: 0 }, call.places)?;
        let count = walk(
            &self.session,
            call.side,
            call.signals.as_slice(),
            places.as_mut_slice(),
        )?;
        places.truncate(count);
        Ok(Answer::Walk(places))
    }

    fn cone(&self, e: Edge, marks: usize, cap: usize) -> Result<Answer<'_>, Fault> {
        let mut marks = filled(self.heap, 7u8, marks)?;
        Ok(Answer::Cone(cone(&self.session, e, marks.as_mut_slice(), cap)?))
    }

    fn answer(&mut self, call: &Call) -> Result<Answer<'_>, Fault> {
        let told = match call {
            Call::Open(_) => Answer::Capacity(self.session.capacity()),
            Call::Input => Answer::Input(self.session.input()?),
            Call::Gate(by, a, b) => Answer::Swept(by.gate(&mut self.session, *a, *b)?),
            Call::Output(e) => Answer::Output(self.session.output(*e)?),
            Call::Map(e) => Answer::Map(self.session.map(*e)?),
            Call::Tally => Answer::Tally(self.session.tally()),
            Call::Node(node) => self.node(*node)?,
            Call::List => self.list()?,
            Call::Walk(call) => self.walk(call)?,
            Call::Cone(e, marks, cap) => self.cone(*e, *marks, *cap)?,
        };
        Ok(told)
    }

    // Adds the answer or the refusal as a line.
    pub(crate) fn play(&mut self, call: &Call, lines: &mut String) -> Result<(), AllocError> {
        match self.answer(call) {
            Ok(answer) => write!(lines, "{answer}\n"),
            Err(Fault::Declined(why)) => write!(lines, "{}\n", Shown(&why)),
            Err(Fault::Memory(e)) => Err(e),
        }
    }
}
