// The texts next to a good one, each shown to a visitor.
#![tactic(auto)]

ghost use Rattle.std.specs.Prelude.{◌≡◌, ℕ, ◌+◌, ◌%◌, ◌^◌, List, length, ⊤};
ghost use Rattle.std.specs.List.{FoldsTo};
ghost use Rattle.nearby.specs.Texts.{changed, shortened};

// What is shown one text after another.
pub trait Visitor {
    // Relates the visitor before a visit, the text, and the visitor after it. The default says nothing.
    ghost visits: { Self → List ℕ → Self → Type 0 } = { λ _ _ _. ⊤ };

    fn visit(&mut self, text: &[u8])
        ensures { visits self.old text.now self.new };
}

// Each byte of the text changed into each other byte. By index: the byte goes to its place in a copy.
pub fn each_changed<const N: usize, V: Visitor>(text: &[u8; N], visitor: &mut V)
    ensures { FoldsTo V.visits visitor.old (changed text.now (length text.now)) visitor.new }
{
    for i in 0..N {
        for b in 0..=255u8 {
            if b != text[i] {
                let mut near = *text;
                near[i] = b;
                visitor.visit(&near);
            }
        }
    }
}

// Each front of the text that is shorter than the text.
pub fn each_shortened<V: Visitor>(text: &[u8], visitor: &mut V)
    ensures { FoldsTo V.visits visitor.old (shortened text.now (length text.now)) visitor.new }
{
    for n in 0..text.len() {
        visitor.visit(&text[..n]);
    }
}

#[cfg(test)]
mod tests {
    use super::*;

    // How many texts there were, and how many bytes in all.
    #[derive(Clone, Copy, Default)]
    pub struct Tally {
        texts: u32,
        bytes: usize,
    }

    impl Visitor for Tally {
        ghost visits = { λ s text t. (t.texts ≡ (s.texts + 1) % 2 ^ 32) × (t.bytes ≡ (length text + s.bytes) % 2 ^ 64) };

        fn visit(&mut self, text: &[u8]) {
            self.texts = self.texts.wrapping_add(1);
            self.bytes = text.len().wrapping_add(self.bytes);
        }
    }

    #[test]
    fn as_many_as_there_are(rt: HostRuntime) {
        let mut changed = Tally::default();
        each_changed(b"abc", &mut changed);
        assert_eq!(rt; changed.texts, 765);
        let mut shortened = Tally::default();
        each_shortened(b"abc", &mut shortened);
        assert_eq!(rt; shortened.bytes, 3);
    }
}
