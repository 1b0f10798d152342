// What the programs read of their input, and what they fail with.
#![tactic(auto)]

ghost use Rattle.std.specs.Prelude.{◌≡◌, IfOk, IfSome, take, string_bytes};
ghost use Rattle.std.specs.Str.Lossy.{utf8_lossy};
ghost use Rattle.input.specs.declared.Failure.TheVariants.{Io, Memory};

use std::alloc::{AllocError, Global};
use std::io;
use std::io::Read;

// What a program ends with, in its own words, where reading, writing or memory fails.
#[derive(Debug, Drop)]
pub enum Failure {
    Io(io::Error),
    Memory,
}

impl From<io::Error> for Failure {
    ghost from_gives = { λ cause e. e ≡ Io cause };

    fn from(e: io::Error) -> Failure {
        Failure::Io(e)
    }
}

impl From<AllocError> for Failure {
    ghost from_gives = { λ _ e. e ≡ Memory };

    fn from(_e: AllocError) -> Failure {
        Failure::Memory
    }
}

// The front of an input, of `most` bytes or of all that there are.
pub fn read_front<R: Read + Drop>(heap: Global, input: R, most: u64) -> io::Result<Vec<u8>>
    ensures { IfOk result (λ front. IfSome (R.remaining input) (λ bytes. front.items ≡ take most bytes)) }
{
    let mut front = Vec::new(heap);
    input.take(most).read_to_end(&mut front)?;
    Ok(front)
}

// All of an input, where each byte that is no text becomes a character that stands for none.
pub fn read_text<R: Read + Drop>(heap: Global, mut input: R) -> io::Result<String>
    ensures { IfOk result (λ text. IfSome (R.remaining input) (λ bytes. string_bytes text ≡ utf8_lossy bytes)) }
{
    let mut bytes = Vec::new(heap);
    input.read_to_end(&mut bytes)?;
    Ok(String::from_utf8_lossy(heap, bytes.as_slice())?)
}

#[cfg(test)]
mod tests {
    use super::*;
    use std::test::Fail;

    #[test]
    fn fronts(rt: HostRuntime) -> Result<(), Fail> {
        let bytes = b"net=1\n";
        assert_eq!(rt;
            read_front(rt.alloc(), bytes.as_slice(), 4)?.as_slice(),
            b"net=".as_slice()
        );
        assert_eq!(rt;
            read_front(rt.alloc(), bytes.as_slice(), 6)?.as_slice(),
            bytes.as_slice()
        );
        assert_eq!(rt;
            read_front(rt.alloc(), bytes.as_slice(), 7)?.as_slice(),
            bytes.as_slice()
        );
        Ok(())
    }

    #[test]
    fn texts(rt: HostRuntime) -> Result<(), Fail> {
        assert_eq!(rt;
            read_text(rt.alloc(), b"in=1\n".as_slice())?.as_str(),
            "in=1\n"
        );
        assert_eq!(rt;
            read_text(rt.alloc(), b"a\xff".as_slice())?.as_str(),
            "a\u{fffd}"
        );
        Ok(())
    }
}
