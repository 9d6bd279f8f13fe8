// Questions at places where nothing of the sort asked stands.
use kinds::Kind;
use store::{ListAt, ReadStore, Slot, TableAt, TextAt, WriteStore};
use words::{WordStore, WordView};

#[test]
fn a_table_with_every_slot_absent(rt: HostRuntime) {
    let mut words = [0u64; 8];
    let mut store = WordStore::new(&mut words);
    assert_eq!(rt;
        store.put_table(Kind::Field, &[Slot::Absent; 7]),
        Ok(TableAt(0))
    );
    assert_eq!(rt; store.height(), 64);
    assert!(rt; store.has_table(Kind::Field, TableAt(0)));
    assert!(rt; !store.has_table(Kind::Schema, TableAt(0)));
    assert_eq!(rt; store.slot(Kind::Field, TableAt(0), 0), Some(Slot::Absent));
    assert_eq!(rt; store.slot(Kind::Field, TableAt(0), 6), Some(Slot::Absent));
    assert_eq!(rt; store.slot(Kind::Field, TableAt(0), 7), None);
    assert_eq!(rt; store.slot(Kind::Schema, TableAt(0), 0), None);
}

#[test]
fn slots_come_back_as_they_were_put(rt: HostRuntime) {
    let mut words = [0u64; 16];
    let mut store = WordStore::new(&mut words);
    let encoding = [
        Slot::Number(i64::MIN),
        Slot::Absent,
        Slot::Number(1),
        Slot::Number(-32768),
    ];
    assert_eq!(rt;
        store.put_table(Kind::DictionaryEncoding, &encoding),
        Ok(TableAt(0))
    );
    assert_eq!(rt;
        store.slot(Kind::DictionaryEncoding, TableAt(0), 0),
        Some(Slot::Number(i64::MIN))
    );
    assert_eq!(rt;
        store.slot(Kind::DictionaryEncoding, TableAt(0), 1),
        Some(Slot::Absent)
    );
    assert_eq!(rt;
        store.slot(Kind::DictionaryEncoding, TableAt(0), 2),
        Some(Slot::Number(1))
    );
    assert_eq!(rt;
        store.slot(Kind::DictionaryEncoding, TableAt(0), 3),
        Some(Slot::Number(-32768))
    );
}

#[test]
fn nothing_stands_at_the_height_past_it_or_of_another_sort(rt: HostRuntime) {
    let mut words = [0u64; 16];
    let mut store = WordStore::new(&mut words);
    assert_eq!(rt; store.text_len(TextAt(0)), None);
    assert_eq!(rt; store.put_text(b"state"), Ok(TextAt(0)));
    assert_eq!(rt; store.numbers_len(ListAt(0)), None);
    assert_eq!(rt; store.tables_len(ListAt(0)), None);
    assert!(rt; !store.has_table(Kind::Null, TableAt(0)));
    assert_eq!(rt; store.text_len(TextAt(2)), None);
    assert_eq!(rt; store.text_len(TextAt(16)), None);
    assert_eq!(rt; store.text_len(TextAt(u32::MAX)), None);
    assert_eq!(rt; store.text_byte(TextAt(u32::MAX), 0), None);
    assert_eq!(rt; store.slot(Kind::Field, TableAt(u32::MAX), 0), None);
    let misfilled = store.put_table(Kind::KeyValue, &[Slot::Text(TextAt(2)), Slot::Absent]);
    assert!(rt; misfilled.is_err());
    assert_eq!(rt; store.height(), 16);
}

#[test]
fn the_used_words_read_as_the_store_did(rt: HostRuntime) {
    let mut words = [0u64; 16];
    let mut store = WordStore::new(&mut words);
    assert_eq!(rt; store.put_text(b"volt"), Ok(TextAt(0)));
    assert_eq!(rt; store.put_numbers(&[5, 2]), Ok(ListAt(2)));
    let view = WordView {
        words: store.into_used(),
    };
    assert_eq!(rt; view.words.len(), 5);
    assert_eq!(rt; view.text_byte(TextAt(0), 3), Some(b't'));
    assert_eq!(rt; view.number_in(ListAt(2), 1), Some(2));
    assert_eq!(rt; view.number_in(ListAt(2), 2), None);
}
