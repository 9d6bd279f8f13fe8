// Which puts are misfilled, and that this is told before want of room.
use kinds::Kind;
use store::{ListAt, ReadStore, Slot, StoreRefusal, TableAt, TextAt, WriteStore};
use words::WordStore;

// Puts a table; where it is refused, the refusal's number is the error.
fn told(store: &mut WordStore, kind: Kind, slots: &[Slot]) -> Result<(), u32> {
    store
        .put_table(kind, slots)
        .map(|_| ())
        .map_err(StoreRefusal::number)
}

#[test]
fn a_slot_filled_otherwise_is_misfilled_before_room_is_looked_at(rt: HostRuntime) {
    let mut words = [0u64; 1];
    let mut store = WordStore::new(&mut words);
    assert_eq!(rt;
        told(&mut store, Kind::Int, &[Slot::Number(32), Slot::Number(1)]),
        Err(21)
    );
    assert_eq!(rt;
        told(&mut store, Kind::Int, &[Slot::Number(32), Slot::Number(2)]),
        Err(22)
    );
    assert_eq!(rt;
        told(
            &mut store,
            Kind::Int,
            &[Slot::Number(2147483648), Slot::Absent]
        ),
        Err(22)
    );
    assert_eq!(rt;
        told(
            &mut store,
            Kind::Int,
            &[Slot::Number(-2147483648), Slot::Absent]
        ),
        Err(21)
    );
    assert_eq!(rt; told(&mut store, Kind::Int, &[Slot::Number(32)]), Err(22));
    assert_eq!(rt;
        told(&mut store, Kind::Date, &[Slot::Number(32767)]),
        Err(21)
    );
    assert_eq!(rt;
        told(&mut store, Kind::Date, &[Slot::Number(32768)]),
        Err(22)
    );
    assert_eq!(rt;
        told(&mut store, Kind::Date, &[Slot::Text(TextAt(0))]),
        Err(22)
    );
    assert_eq!(rt; told(&mut store, Kind::Null, &[Slot::Absent]), Err(22));
    assert_eq!(rt; store.height(), 0);
}

#[test]
fn a_tag_chooses_the_kind_of_the_table_behind_it(rt: HostRuntime) {
    let mut words = [0u64; 40];
    let mut store = WordStore::new(&mut words);
    assert_eq!(rt; store.put_table(Kind::Bool, &[]), Ok(TableAt(0)));
    let mut field = [Slot::Absent; 7];
    field[2] = Slot::Number(6);
    field[3] = Slot::Table(TableAt(0));
    assert_eq!(rt; told(&mut store, Kind::Field, &field), Ok(()));
    field[2] = Slot::Number(5);
    assert_eq!(rt; told(&mut store, Kind::Field, &field), Err(22));
    field[2] = Slot::Number(27);
    assert_eq!(rt; told(&mut store, Kind::Field, &field), Err(22));
    field[2] = Slot::Number(256);
    assert_eq!(rt; told(&mut store, Kind::Field, &field), Err(22));
    field[2] = Slot::Absent;
    assert_eq!(rt; told(&mut store, Kind::Field, &field), Err(22));
    field[3] = Slot::Absent;
    assert_eq!(rt; told(&mut store, Kind::Field, &field), Ok(()));
}

#[test]
fn a_list_names_tables_of_the_kind_that_its_slot_says(rt: HostRuntime) {
    let mut words = [0u64; 40];
    let mut store = WordStore::new(&mut words);
    assert_eq!(rt;
        store.put_table(Kind::KeyValue, &[Slot::Absent, Slot::Absent]),
        Ok(TableAt(0))
    );
    assert_eq!(rt;
        store.put_tables(Kind::Field, &[TableAt(0)]),
        Err(StoreRefusal::Misfilled)
    );
    assert_eq!(rt;
        store.put_tables(Kind::KeyValue, &[TableAt(0)]),
        Ok(ListAt(3))
    );
    assert_eq!(rt; store.put_numbers(&[5]), Ok(ListAt(5)));
    let mut schema = [Slot::Absent; 4];
    schema[1] = Slot::List(ListAt(3));
    assert_eq!(rt; told(&mut store, Kind::Schema, &schema), Err(22));
    schema[1] = Slot::List(ListAt(5));
    assert_eq!(rt; told(&mut store, Kind::Schema, &schema), Err(22));
    schema[1] = Slot::Absent;
    schema[3] = Slot::List(ListAt(5));
    assert_eq!(rt; told(&mut store, Kind::Schema, &schema), Err(22));
    schema[3] = Slot::Absent;
    schema[2] = Slot::List(ListAt(3));
    assert_eq!(rt; told(&mut store, Kind::Schema, &schema), Ok(()));
}
