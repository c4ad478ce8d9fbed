//! The rules by which anybody's journal is judged, and what the judge says.

ghost use Rattle.std.specs.Prelude.{◌≡◌};
ghost use Rattle.nq_check.specs.Words.{word_of};

/// A rule by which journals are judged, in the order in which they are named. `docs/check.md` says which entries are at
/// fault under each.
#[derive(Clone, Copy)]
pub enum Rule {
    /// Each counted read gives the latest standing write, and reads and the answers that say ok to them are one for one.
    Legal,
    /// Each client's calls and what they make stand in order.
    Ordered,
    /// No delayed write is covered twice, and no loss is of nothing.
    Accounted,
    /// Losses are excused by a lease that ended late enough, and reported by their names, each once.
    Reported,
    /// What was answered ok to a `put`, `sync`, `resize` or `remove` is kept.
    Synchronized,
}

impl Rule {
    /// Its short name, as it is printed. `docs/check.md` says what each means.
    pub fn word(self) -> &'static str
        ensures { result.now ≡ word_of self }
    {
        match self {
            Rule::Legal => "D5",
            Rule::Ordered => "D7",
            Rule::Accounted => "D8",
            Rule::Reported => "D10",
            Rule::Synchronized => "D11",
        }
    }
}

/// What the judge says of a journal.
#[derive(Clone, Copy)]
pub enum Judged {
    /// It is sound.
    Yes,
    /// The entry at this place, counted from 0, is the first at fault, and this is the first rule under which it is.
    No { place: usize, rule: Rule },
    /// Memory is wanting.
    Memory,
}
