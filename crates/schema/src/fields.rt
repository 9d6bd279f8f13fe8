//! Whether two records say the same field.
ghost use Rattle.std.specs.Prelude.{◌≡◌, ℕ, map, Decides};
ghost use Rattle.std.specs.Option.{option_map};
ghost use Rattle.types.specs.Types.{type_value};
ghost use Rattle.sheet.specs.Schemas.{Field, pair_value, encoding_value, field_value};
ghost use Rattle.sheet.specs.Texts.{said};

use sheet::text_bytes;
use types::{DataType, Dictionary, FieldRecord, Pair, Text, same_data_type};

/// The text bytes of two sheets, beside which what stands on each is compared.
#[derive(Clone, Copy)]
pub struct Sides<'a> {
    pub first: &'a [u8],
    pub second: &'a [u8],
}

/// A record with its pairs.
#[derive(Clone, Copy)]
pub struct Line<'a> {
    pub head: FieldRecord,
    pub pairs: &'a [Pair],
}

// Whether two fields are dictionary-encoded alike, whatever the dictionaries' numbers.
// Kept: equality of an `Option` of pairs was tried, and the proof did not close.
fn same_encoding(s: Option<Dictionary>, t: Option<Dictionary>) -> bool
    ensures { Decides result (option_map encoding_value s ≡ option_map encoding_value t) }
{
    match (s, t) {
        (None, None) => true,
        (Some(d), Some(e)) => d.index_type == e.index_type && d.ordered == e.ordered,
        _ => false,
    }
}

// Whether two records are nullable alike, with the same type id and as many children.
fn same_numbers(x: FieldRecord, y: FieldRecord) -> bool
    ensures { Decides result ((x.nullable ≡ y.nullable) × (x.type_id ≡ y.type_id) × (x.children ≡ y.children)) }
{
    (x.nullable, x.type_id, x.children) == (y.nullable, y.type_id, y.children)
}

impl Sides<'_> {
    // Whether two texts say the same.
    fn same_text(&self, s: Text, t: Text) -> bool
        ensures { Decides result (said self.now.first.now s ≡ said self.now.second.now t) }
    {
        text_bytes(self.first, s) == text_bytes(self.second, t)
    }

    // The same of zones.
    fn same_zone(&self, s: Option<Text>, t: Option<Text>) -> bool
        ensures { Decides result (option_map (said self.now.first.now) s ≡ option_map (said self.now.second.now) t) }
    {
        s.map(|x| text_bytes(self.first, x)) == t.map(|x| text_bytes(self.second, x))
    }

    // The same of types.
    fn same_type(&self, s: DataType, t: DataType) -> bool
        ensures { Decides result (type_value (said self.now.first.now) s ≡ type_value (said self.now.second.now) t) }
    {
        match (s, t) {
            (DataType::Timestamp(u, y), DataType::Timestamp(v, z)) => u == v
                && self.same_zone(y, z),
            _ => same_data_type(&s, &t),
        }
    }

    // Whether two pairs say the same.
    fn same_pair(&self, p: &Pair, q: &Pair) -> bool
        ensures { Decides result (pair_value self.now.first.now p.now ≡ pair_value self.now.second.now q.now) }
    {
        self.same_text(p.key, q.key) && self.same_text(p.value, q.value)
    }

    /// Whether pairs say the same, one after another.
    // Kept: `zip` and `all` were tried; the check knows of each call only that it decides, and the proof did not close.
    pub fn same_pairs(&self, ps: &[Pair], qs: &[Pair]) -> bool
        ensures { Decides result (map (pair_value self.now.first.now) ps.now ≡ map (pair_value self.now.second.now) qs.now) }
    {
        if ps.len() != qs.len() {
            return false;
        }
        let (mut left, mut right) = (ps, qs);
        while let Some((p, behind)) = left.split_first() {
            let Some((q, past)) = right.split_first() else {
                return false;
            };
            if !self.same_pair(p, q) {
                return false;
            }
            (left, right) = (behind, past);
        }
        right.is_empty()
    }

    /// Whether two records with their pairs say the same field, with as many children.
    pub fn same_line(&self, x: &Line, y: &Line) -> bool
        ensures { Decides result (◌≡◌ {A = Field × ℕ} (field_value self.now.first.now x.now.pairs.now x.now.head, x.now.head.children) (field_value self.now.second.now y.now.pairs.now y.now.head, y.now.head.children)) }
    {
        self.same_text(x.head.name, y.head.name)
            && self.same_type(x.head.data_type, y.head.data_type)
            && same_numbers(x.head, y.head)
            && same_encoding(x.head.dictionary, y.head.dictionary)
            && self.same_pairs(x.pairs, y.pairs)
    }
}
