//! The tests of texts: where they lie, that they are UTF-8, and that keys differ.
ghost use Rattle.std.specs.Prelude.{◌≡◌, true};
ghost use Rattle.rules.specs.Tests.{is_utf8, text_fits, zone_text_fits, pair_fits, every, texts_fit, keys, lacks, all_differ};

use crate::tables::zone_of;
use sheet::{first_with_text, text_bytes, text_in};
use std::str::from_utf8;
use types::{FieldRecord, Pair, Text};

// Whether bytes are UTF-8.
fn is_utf8(bytes: &[u8]) -> bool
    ensures { result ≡ is_utf8 bytes.now }
{
    from_utf8(bytes).is_ok()
}

/// Whether a text lies within the bytes and is UTF-8.
pub fn text_fits(bytes: &[u8], t: Text) -> bool
    ensures { result ≡ text_fits bytes.now t }
{
    text_in(bytes, t).is_some_and(|s| is_utf8(s))
}

// The same of a zone, where there is one.
fn zone_text_fits(bytes: &[u8], zone: Option<Text>) -> bool
    ensures { result ≡ zone_text_fits bytes.now zone }
{
    zone.is_none_or(|t| text_fits(bytes, t))
}

// The same of both texts of a pair.
fn pair_fits(bytes: &[u8], p: Pair) -> bool
    ensures { result ≡ pair_fits bytes.now p }
{
    text_fits(bytes, p.key) && text_fits(bytes, p.value)
}

/// The same of the texts of all pairs.
pub fn pairs_fit(bytes: &[u8], pairs: &[Pair]) -> bool
    ensures { result ≡ every (pair_fits bytes.now) pairs.now }
{
    pairs.iter().all(|p| pair_fits(bytes, *p))
}

/// The same of all texts of a record with these pairs.
pub fn texts_fit(bytes: &[u8], head: FieldRecord, pairs: &[Pair]) -> bool
    ensures { result ≡ texts_fit bytes.now head pairs.now }
{
    text_fits(bytes, head.name)
        && zone_text_fits(bytes, zone_of(head.data_type))
        && pairs_fit(bytes, pairs)
}

// Whether no key of the pairs is the same bytes.
fn lacks_key(bytes: &[u8], pairs: &[Pair], key: &[u8]) -> bool
    requires { every (pair_fits bytes.now) pairs.now ≡ true }
    ensures { result ≡ lacks key.now (keys bytes.now pairs.now) }
{
    first_with_text(pairs, bytes, key).is_none()
}

/// Whether the keys of pairs whose texts do all differ.
pub(crate) fn keys_differ(bytes: &[u8], pairs: &[Pair]) -> bool
    requires { every (pair_fits bytes.now) pairs.now ≡ true }
    ensures { result ≡ all_differ (keys bytes.now pairs.now) }
{
    let mut rest = pairs;
    while let Some((p, behind)) = rest.split_first() {
        if !lacks_key(bytes, behind, text_bytes(bytes, p.key)) {
            return false;
        }
        rest = behind;
    }
    true
}
