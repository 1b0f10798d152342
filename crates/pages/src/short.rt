// What is left of a page is too short.
ghost use Rattle.std.specs.Prelude.{◌≡◌, ◌-◌, ◌<◌, ◌≤◌, length, MatchResult};
ghost use Rattle.model.specs.Sessions.{too_short, refusal_number, refusal_value};

// The length that was wanted. It is a struct, since there is one cause, and prints nothing, since no program shows it.
#[derive(Clone, Copy)]
pub struct Short {
    pub wanted: usize,
}

impl Short {
    // The refusal's number.
    pub fn number(self) -> u8
        ensures { result ≡ refusal_number (too_short self.wanted) }
    {
        5
    }

    // The value returned with it.
    pub fn value(self) -> usize
        ensures { result ≡ refusal_value (too_short self.wanted) }
    {
        self.wanted
    }
}

// Whether what is wanted has room on the page from the place at on. A page that ends before the place has none.
pub fn check_room(page: &[u8], at: usize, wanted: usize) -> Result<(), Short>
    ensures { MatchResult result (λ _. wanted ≤ length page.now - at) (λ e. (e.wanted ≡ wanted) × (length page.now - at < wanted)) }
{
    if page.len().saturating_sub(at) < wanted {
        return Err(Short { wanted });
    }
    Ok(())
}
