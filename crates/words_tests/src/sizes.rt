// What the smallest objects cost, and stores of the smallest and the largest size.
use kinds::Kind;
use std::test::Fail;
use store::{ListAt, ReadStore, Slot, StoreRefusal, TableAt, TextAt, WriteStore};
use words::WordStore;

#[test]
fn a_store_of_no_words_has_no_room(rt: HostRuntime) {
    let mut words = [0u64; 0];
    let mut store = WordStore::new(&mut words);
    assert_eq!(rt; store.room(), 0);
    assert_eq!(rt; store.put_text(b""), Err(StoreRefusal::RoomTooSmall(8)));
    assert_eq!(rt; store.put_numbers(&[]), Err(StoreRefusal::RoomTooSmall(8)));
    assert_eq!(rt;
        store.put_table(Kind::Null, &[]),
        Err(StoreRefusal::RoomTooSmall(8))
    );
    assert_eq!(rt; store.height(), 0);
}

#[test]
fn a_full_store_refuses_with_the_price(rt: HostRuntime) {
    let mut words = [7u64; 3];
    let mut store = WordStore::new(&mut words);
    assert_eq!(rt; store.room(), 24);
    assert_eq!(rt; store.put_text(b"nine byte"), Ok(TextAt(0)));
    assert_eq!(rt; store.room(), 0);
    assert_eq!(rt; store.put_text(b"x"), Err(StoreRefusal::RoomTooSmall(16)));
    assert_eq!(rt;
        store.put_numbers(&[1, 2]),
        Err(StoreRefusal::RoomTooSmall(24))
    );
    assert_eq!(rt; store.height(), 24);
    assert_eq!(rt; store.text_byte(TextAt(0), 8), Some(b'e'));
}

#[test]
fn texts_of_0_7_8_and_9_bytes(rt: HostRuntime) {
    let mut words = [0u64; 16];
    let mut store = WordStore::new(&mut words);
    assert_eq!(rt; store.put_text(b""), Ok(TextAt(0)));
    assert_eq!(rt; store.put_text(b"7 bytes"), Ok(TextAt(1)));
    assert_eq!(rt; store.put_text(b"8 bytes."), Ok(TextAt(3)));
    assert_eq!(rt; store.put_text(b"9 bytes.."), Ok(TextAt(5)));
    assert_eq!(rt; store.height(), 64);
    assert_eq!(rt; store.text_len(TextAt(0)), Some(0));
    assert_eq!(rt; store.text_byte(TextAt(0), 0), None);
    assert_eq!(rt; store.text_len(TextAt(1)), Some(7));
    assert_eq!(rt; store.text_byte(TextAt(1), 6), Some(b's'));
    assert_eq!(rt; store.text_byte(TextAt(1), 7), None);
    assert_eq!(rt; store.text_len(TextAt(5)), Some(9));
    assert_eq!(rt; store.text_byte(TextAt(5), 8), Some(b'.'));
}

#[test]
fn lists_of_none_and_of_extreme_numbers(rt: HostRuntime) {
    let mut words = [0u64; 16];
    let mut store = WordStore::new(&mut words);
    assert_eq!(rt; store.put_numbers(&[]), Ok(ListAt(0)));
    assert_eq!(rt; store.put_tables(Kind::Field, &[]), Ok(ListAt(1)));
    assert_eq!(rt; store.put_numbers(&[-1, i32::MIN, i32::MAX]), Ok(ListAt(2)));
    assert_eq!(rt; store.height(), 48);
    assert_eq!(rt; store.numbers_len(ListAt(0)), Some(0));
    assert_eq!(rt; store.tables_len(ListAt(0)), None);
    assert_eq!(rt; store.tables_len(ListAt(1)), Some(0));
    assert_eq!(rt; store.table_in(ListAt(1), 0), None);
    assert_eq!(rt; store.number_in(ListAt(2), 0), Some(-1));
    assert_eq!(rt; store.number_in(ListAt(2), 1), Some(i32::MIN));
    assert_eq!(rt; store.number_in(ListAt(2), 2), Some(i32::MAX));
    assert_eq!(rt; store.number_in(ListAt(2), 3), None);
}

#[test]
fn more_words_than_the_limit_are_not_room(rt: HostRuntime) -> Result<(), Fail> {
    let mut words = Vec::new(rt.alloc());
    words.resize(65600, 1u64)?;
    let store = WordStore::new(words.as_mut_slice());
    assert_eq!(rt; store.height(), 0);
    assert_eq!(rt; store.room(), 524288);
    let used = store.into_used();
    assert_eq!(rt; used.len(), 0);
    Ok(())
}
