//! The records of a sheet, read in order.
ghost use Rattle.std.specs.Prelude.{◌≡◌, [], ◌∷◌, MatchOption};

use types::{FieldRecord, Pair};

/// What is left to read of a sheet: its next records and its next pairs.
#[derive(Clone, Copy)]
pub struct Unread<'a> {
    pub records: &'a [FieldRecord],
    pub pairs: &'a [Pair],
}

impl<'a> Unread<'a> {
    /// The next record and what is behind it, with all pairs; none where no record is left.
    pub fn next(self) -> Option<(FieldRecord, Unread<'a>)>
        ensures { MatchOption result (self.entry.records.now ≡ []) (λ p. (self.entry.records.now ≡ p.0 ∷ p.1.records.now) × (p.1.pairs.now ≡ self.entry.pairs.now)) }
    {
        let (head, records) = self.records.split_first()?;
        Some((*head, Unread { records, ..self }))
    }
}
