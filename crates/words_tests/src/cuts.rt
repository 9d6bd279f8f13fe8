// Cuts, and a client that cuts back what it could not finish.
use client::put_pair;
use kinds::Kind;
use store::{ReadStore, StoreRefusal, TableAt, TextAt, WriteStore};
use words::WordStore;
use words::worked::small_heights;

#[test]
fn a_cut_through_an_object_leaves_nothing_of_it(rt: HostRuntime) {
    let mut words = [0u64; 16];
    let mut store = WordStore::new(&mut words);
    assert_eq!(rt; store.put_text(b"kept"), Ok(TextAt(0)));
    assert_eq!(rt; store.put_text(b"a text of some length"), Ok(TextAt(2)));
    assert_eq!(rt; store.height(), 48);
    store.cut(47);
    assert_eq!(rt; store.height(), 48);
    store.cut(56);
    assert_eq!(rt; store.height(), 48);
    store.cut(32);
    assert_eq!(rt; store.height(), 32);
    assert_eq!(rt; store.text_len(TextAt(2)), None);
    assert_eq!(rt; store.text_len(TextAt(0)), Some(4));
    store.cut(16);
    assert_eq!(rt; store.put_text(b"new"), Ok(TextAt(2)));
    assert_eq!(rt; store.text_len(TextAt(2)), Some(3));
    store.cut(0);
    assert_eq!(rt; store.height(), 0);
    assert_eq!(rt; store.text_len(TextAt(0)), None);
}

#[test]
fn a_pair_is_put_whole_or_not_at_all(rt: HostRuntime) {
    let mut words = [0u64; 9];
    let mut store = WordStore::new(&mut words);
    assert_eq!(rt; put_pair(&mut store, b"unit", b"V"), Ok(TableAt(4)));
    assert_eq!(rt; store.height(), 56);
    assert_eq!(rt;
        put_pair(&mut store, b"", b""),
        Err(StoreRefusal::RoomTooSmall(24))
    );
    assert_eq!(rt; store.height(), 56);
    assert_eq!(rt; store.text_len(TextAt(7)), None);
}

#[test]
fn the_heights_of_two_small_schemas(rt: HostRuntime) {
    let (none, one) = small_heights();
    assert_eq!(rt; none, 48);
    assert_eq!(rt; one, 168);
}
