// The number of an answer, which is what C is given. Each enum of refusals says its own, and what was not refused has 0.
#![tactic(auto)]

ghost use Rattle.std.specs.Prelude.{◌≡◌, ℕ};
ghost use Rattle.octets.specs.Outcome.{number_by};

// What has a number in the papers' tables.
pub trait Numbered {
    // The definition of it, which a table of docs/RULES.md has in words.
    ghost number_of: { Self → ℕ };

    fn number(self) -> u32
        ensures { result ≡ number_of self };
}

impl<T: Drop, E: Numbered> Numbered for Result<T, E> {
    ghost number_of = { number_by E.number_of };

    fn number(self) -> u32 {
        match self {
            Ok(_) => 0,
            Err(refusal) => refusal.number(),
        }
    }
}
