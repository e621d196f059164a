//! Verdicts and findings.
ghost use Rattle.std.specs.Prelude.{◌≡◌};
ghost use Rattle.table.specs.Findings.{finding_number};

/// What settling a table with a budget tells: the first that is true.
#[derive(Clone, Copy, PartialEq, Eq, Debug)]
pub enum Verdict<K> {
    /// Kept links close a ring: the lowest-numbered kept link whose ends kept links of lower number join already.
    Ring(u16),
    /// Links that are not barred fail to join all points: the lowest point that is not joined to point 0.
    Cut(u16),
    /// Lawful trees exist, and the least total is above the budget.
    Over(K),
    /// The least total is not above the budget.
    Fits(K),
}

/// What a link is to the lawful trees within the budget.
#[derive(Clone, Copy, PartialEq, Eq, Debug)]
pub enum Finding {
    /// It is in none of them.
    Out,
    /// It is in some of them, but not in all.
    Open,
    /// It is in all of them.
    Forced,
}

/// The finding's number: 0 out, 1 open, 2 forced.
impl From<Finding> for u8 {
    ghost from_gives = { λ f n. n ≡ finding_number f };

    fn from(finding: Finding) -> u8 {
        match finding {
            Finding::Out => 0,
            Finding::Open => 1,
            Finding::Forced => 2,
        }
    }
}
