//! A client of any store: it puts a pair, or leaves the store as it was. What it promises rests on the traits alone.
#![tactic(auto)]

ghost use Rattle.std.specs.Prelude.{◌≡◌, MatchResult};
ghost use Rattle.store.specs.Meaning.{Grows};
ghost use Rattle.store.specs.State.{Later, held};
ghost use Rattle.client.specs.Pairs.{PairStands, ForRoom};

use kinds::Kind;
use store::{Slot, StoreRefusal, TableAt, WriteStore};

// Puts the two texts of a pair and its table. Where one is refused, those before it stay.
fn lay_pair<S: WriteStore>(store: &mut S, key: &[u8], value: &[u8]) -> Result<TableAt, StoreRefusal>
    ensures later { Later (S.WriteStore.state store.old) (S.WriteStore.state store.new) }
    ensures cases { MatchResult result (λ p. PairStands (held (S.WriteStore.state store.new)) p key.now value.now) ForRoom }
    ensures agrees { held (S.WriteStore.state store.new) ≡ S.ReadStore.meaning store.new }
{
    let k = store.put_text(key)?;
    let v = store.put_text(value)?;
    store.put_table(Kind::KeyValue, &[Slot::Text(k), Slot::Text(v)])
}

/// Puts a pair of texts as a table, or refuses for want of room and leaves what stood before, and nothing else.
pub fn put_pair<S: WriteStore>(
    store: &mut S,
    key: &[u8],
    value: &[u8],
) -> Result<TableAt, StoreRefusal>
    ensures later { Later (S.WriteStore.state store.old) (S.WriteStore.state store.new) }
    ensures stay { Grows (held (S.WriteStore.state store.old)) (held (S.WriteStore.state store.new)) }
    ensures cases { MatchResult result (λ p. PairStands (held (S.WriteStore.state store.new)) p key.now value.now) (λ e. ForRoom e × ((S.WriteStore.state store.new).height ≡ (S.WriteStore.state store.old).height) × (held (S.WriteStore.state store.new) ≡ held (S.WriteStore.state store.old))) }
    ensures agrees { held (S.WriteStore.state store.new) ≡ S.ReadStore.meaning store.new }
{
    let mark = store.height();
    let laid = lay_pair(store, key, value);
    if laid.is_err() {
        store.cut(mark);
    }
    laid
}
