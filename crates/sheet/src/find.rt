//! One look-up for all elements that have a text: records by name, pairs by key.
ghost use Rattle.std.specs.Prelude.{◌≡◌, Decides, MatchOption};
ghost use Rattle.types.specs.declared.Text.{Text};
ghost use Rattle.sheet.specs.Texts.{said, Within, Spells, First};

use roll::part;
use types::{FieldRecord, Pair, Text};

/// An element that is found by a text of its own.
pub trait HasText {
    ghost label: { Self → Text };

    fn text(&self) -> Text
        ensures { result ≡ label self.now };
}

/// A record is found by its name.
impl HasText for FieldRecord {
    ghost label = { λ x. x.name };

    fn text(&self) -> Text {
        self.name
    }
}

/// A pair is found by its key.
impl HasText for Pair {
    ghost label = { λ p. p.key };

    fn text(&self) -> Text {
        self.key
    }
}

/// The bytes of a text, as far as they lie within the text bytes.
pub fn text_bytes(bytes: &[u8], t: Text) -> &[u8]
    ensures { result.now ≡ said bytes.now t }
{
    part(bytes, t.start as usize, t.len as usize)
}

/// The bytes of a text, or none where it leaves the text bytes.
pub fn text_in(bytes: &[u8], t: Text) -> Option<&[u8]>
    ensures { MatchOption result (Within bytes.now t → ⊥) (λ s. Within bytes.now t × (s.now ≡ said bytes.now t)) }
{
    let start = t.start as usize;
    bytes.get(start..start + t.len as usize)
}

/// Whether a text says just these bytes; one that leaves the text bytes never does.
pub fn spells(bytes: &[u8], t: Text, wanted: &[u8]) -> bool
    ensures { Decides result (Spells bytes.now t wanted.now) }
{
    text_in(bytes, t).is_some_and(|s| s == wanted)
}

/// The place of the first element whose text says just these bytes.
pub fn first_with_text<E: HasText>(items: &[E], bytes: &[u8], wanted: &[u8]) -> Option<usize>
    ensures { First (λ e. Spells bytes.now (E.HasText.label e) wanted.now) items.now result }
{
    items.iter().position(|e| spells(bytes, e.text(), wanted))
}
