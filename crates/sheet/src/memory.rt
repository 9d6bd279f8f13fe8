//! A sheet: three rolls over the caller's memory and the count of the schema's own pairs.
ghost use Rattle.std.specs.Prelude.{◌≡◌, ◌^◌, ◌<◌, [], ◌++◌, length, drop, MatchOption, MatchResult, OnErr};
ghost use Rattle.roll.specs.Rolls.{items, free};
ghost use Rattle.sheet.specs.Contents.{content};
ghost use Rattle.sheet.specs.Texts.{said, Within};

use crate::find::text_in;
use roll::{Full, Roll};
use types::{FieldRecord, Pair, Text};

/// A schema as it lies in memory. Records stand in preorder, pairs in their owners' order with the schema's own first.
/// Nothing is promised of what stands here until it was checked.
#[derive(Drop)]
pub struct Sheet<'a> {
    pub records: Roll<'a, FieldRecord>,
    pub pairs: Roll<'a, Pair>,
    pub text: Roll<'a, u8>,
    pub own_pairs: u32,
}

impl<'a> Sheet<'a> {
    /// An empty sheet over the caller's memory.
    pub fn new(
        records: &'a mut [FieldRecord],
        pairs: &'a mut [Pair],
        text: &'a mut [u8],
    ) -> Sheet<'a>
        ensures content { content result ≡ record { records = []; pairs = []; bytes = []; own = 0 } }
        ensures records { free result.records ≡ records.old }
        ensures pairs { free result.pairs ≡ pairs.old }
        ensures text { free result.text ≡ text.old }
    {
        Sheet {
            records: Roll::new(records),
            pairs: Roll::new(pairs),
            text: Roll::new(text),
            own_pairs: 0,
        }
    }

    /// The bytes of a text, or none where it leaves the used text bytes.
    pub fn text_of(&self, t: Text) -> Option<&[u8]>
        ensures { MatchOption result (Within (content self.now).bytes t → ⊥) (λ s. Within (content self.now).bytes t × (s.now ≡ said (content self.now).bytes t)) }
    {
        text_in(self.text.as_slice(), t)
    }

    /// Adds a text's bytes behind the used ones and tells where they stand; refused, with nothing changed, where they find no place.
    pub fn add_text(&mut self, bytes: &[u8]) -> Result<Text, Full>
        ensures cases { MatchResult result (λ t. (t.start ≡ length (content self.old).bytes) × (t.len ≡ length bytes.now) × (items self.new.text ≡ items self.old.text ++ bytes.now) × (free self.new.text ≡ drop (length bytes.now) (free self.old.text))) (λ _. self.new.text ≡ self.old.text) }
        ensures refused { OnErr result (length (items self.old.text) < 2 ^ 32 → length bytes.now < 2 ^ 32 → length (free self.old.text) < length bytes.now) }
        ensures records { self.new.records ≡ self.old.records }
        ensures pairs { self.new.pairs ≡ self.old.pairs }
        ensures own { self.new.own_pairs ≡ self.old.own_pairs }
    {
        let start = u32::try_from(self.text.len()).map_err(|_| Full)?;
        let len = u32::try_from(bytes.len()).map_err(|_| Full)?;
        self.text.add_all(bytes)?;
        Ok(Text { start, len })
    }

    /// Takes everything off the sheet. The places hold what they held.
    pub fn clear(&mut self)
        ensures content { content self.new ≡ record { records = []; pairs = []; bytes = []; own = 0 } }
        ensures records { free self.new.records ≡ items self.old.records ++ free self.old.records }
        ensures pairs { free self.new.pairs ≡ items self.old.pairs ++ free self.old.pairs }
        ensures text { free self.new.text ≡ items self.old.text ++ free self.old.text }
    {
        self.records.shorten(0);
        self.pairs.shorten(0);
        self.text.shorten(0);
        self.own_pairs = 0;
    }
}
