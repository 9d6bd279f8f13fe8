//! Sheets at the edges of the rules: each limit and one past it, each refusal by its number.
#![tactic(auto)]

ghost use Rattle.std.specs.Prelude.{◌≡◌};
ghost use Rattle.edges.specs.declared.Fault.TheVariants.{NoPlace};

use roll::Full;
use rules::{SheetRefusal, check};
use sheet::Sheet;
use types::{DataType, FieldRecord, Pair, Text};

/// Why a sheet is not lawful.
#[derive(Clone, Copy, PartialEq, Eq, Debug)]
pub enum Fault {
    /// The content finds no place on the sheet.
    NoPlace,
    /// The check refuses the sheet by this number.
    Refused(u32),
}

impl From<Full> for Fault {
    ghost from_gives = { λ _ r. r ≡ NoPlace };

    fn from(_e: Full) -> Fault {
        Fault::NoPlace
    }
}

impl From<SheetRefusal> for Fault {
    fn from(refusal: SheetRefusal) -> Fault {
        Fault::Refused(refusal.number())
    }
}

/// A text of some length from a place on.
pub fn text(start: u32, len: u32) -> Text {
    Text { start, len }
}

/// A field of a type with so many children.
pub fn parent(data_type: DataType, children: u32) -> FieldRecord {
    FieldRecord {
        name: text(0, 0),
        nullable: false,
        data_type,
        dictionary: None,
        children,
        pairs: 0,
        type_id: 0,
    }
}

/// A field of a type with no name, no children and no pairs.
pub fn leaf(data_type: DataType) -> FieldRecord {
    parent(data_type, 0)
}

/// A child of a union with a type id.
pub fn member(type_id: u8) -> FieldRecord {
    FieldRecord {
        type_id,
        ..leaf(DataType::Null)
    }
}

/// Children of a union with type ids from 0 on, and again from 0 past 255.
pub fn number_members(fields: &mut [FieldRecord]) {
    for (field, type_id) in fields.iter_mut().zip((0..=u8::MAX).cycle()) {
        *field = member(type_id);
    }
}

/// A field whose name has so many bytes.
pub fn named(start: u32, len: u32) -> FieldRecord {
    FieldRecord {
        name: text(start, len),
        ..leaf(DataType::Null)
    }
}

/// A field with so many pairs.
pub fn owner(pairs: u32) -> FieldRecord {
    FieldRecord {
        pairs,
        ..leaf(DataType::Null)
    }
}

/// A pair of two empty texts.
pub fn no_pair() -> Pair {
    Pair {
        key: text(0, 0),
        value: text(0, 0),
    }
}

/// A pair with a key of one byte and an empty value.
pub fn keyed(start: u32) -> Pair {
    Pair {
        key: text(start, 1),
        value: text(0, 0),
    }
}

/// Whether a sheet with this content is lawful, and else the number by which it is refused.
pub fn told(
    records: &[FieldRecord],
    pairs: &[Pair],
    bytes: &[u8],
    own_pairs: u32,
) -> Result<(), Fault> {
    let mut record_places = [leaf(DataType::Null); 1025];
    let mut pair_places = [no_pair(); 1025];
    let mut byte_places = [0u8; 32769];
    let mut sheet = Sheet::new(&mut record_places, &mut pair_places, &mut byte_places);
    sheet.records.add_all(records)?;
    sheet.pairs.add_all(pairs)?;
    sheet.text.add_all(bytes)?;
    sheet.own_pairs = own_pairs;
    check(&sheet)?;
    Ok(())
}

/// The same for fields alone, which have no texts and no pairs.
pub fn of_fields(records: &[FieldRecord]) -> Result<(), Fault> {
    told(records, &[], &[], 0)
}

/// The same for one field whose name is all of these bytes.
pub fn of_name(bytes: &[u8], len: u32) -> Result<(), Fault> {
    told(&[named(0, len)], &[], bytes, 0)
}

#[cfg(test)]
mod tests {
    use super::*;
    use sheet::first_with_text;
    use types::{TimeUnit, UnionMode};

    // What is told of a sheet that the check refuses by this number.
    fn refused(number: u32) -> Result<(), Fault> {
        Err(Fault::Refused(number))
    }

    #[test]
    fn used_counts(rt: HostRuntime) {
        assert_eq!(rt; of_fields(&[leaf(DataType::Null); 1024]), Ok(()));
        assert_eq!(rt; of_fields(&[leaf(DataType::Null); 1025]), refused(10));
        assert_eq!(rt; told(&[], &[], &[97; 32768], 0), Ok(()));
        assert_eq!(rt; told(&[], &[], &[97; 32769], 0), refused(10));
        assert_eq!(rt; told(&[owner(1); 1024], &[no_pair(); 1024], &[], 0), Ok(()));
        assert_eq!(rt;
            told(&[owner(1); 1024], &[no_pair(); 1025], &[], 0),
            refused(10)
        );
    }

    #[test]
    fn summed_lengths(rt: HostRuntime) {
        assert_eq!(rt; told(&[named(0, 16384); 2], &[], &[97; 16385], 0), Ok(()));
        assert_eq!(rt;
            told(&[named(0, 16384), named(0, 16385)], &[], &[97; 16385], 0),
            refused(10)
        );
        assert_eq!(rt;
            told(&[named(4294967295, 4294967295); 2], &[], &[97; 4], 0),
            refused(10)
        );
    }

    #[test]
    fn pair_counts(rt: HostRuntime) {
        assert_eq!(rt; told(&[], &[], &[], 1), refused(11));
        assert_eq!(rt; told(&[], &[no_pair()], &[], 1), Ok(()));
        assert_eq!(rt; told(&[], &[no_pair()], &[], 0), refused(11));
        assert_eq!(rt; told(&[owner(1)], &[no_pair()], &[], 0), Ok(()));
        assert_eq!(rt; told(&[owner(2)], &[no_pair()], &[], 0), refused(11));
        assert_eq!(rt;
            told(&[owner(4294967295)], &[no_pair()], &[], 0),
            refused(11)
        );
    }

    #[test]
    fn child_counts(rt: HostRuntime) {
        assert_eq!(rt;
            of_fields(&[parent(DataType::Int32, 1), leaf(DataType::Null)]),
            refused(11)
        );
        assert_eq!(rt;
            of_fields(&[parent(DataType::List, 1), leaf(DataType::Null)]),
            Ok(())
        );
        assert_eq!(rt; of_fields(&[parent(DataType::List, 1)]), refused(11));
        assert_eq!(rt; of_fields(&[leaf(DataType::LargeListView)]), refused(11));
        assert_eq!(rt;
            of_fields(&[
                parent(DataType::Map(true), 2),
                leaf(DataType::Null),
                leaf(DataType::Null),
            ],),
            refused(11)
        );
        assert_eq!(rt;
            of_fields(&[
                parent(DataType::RunEndEncoded, 2),
                leaf(DataType::Null),
                leaf(DataType::Null),
            ],),
            Ok(())
        );
        assert_eq!(rt;
            of_fields(&[parent(DataType::RunEndEncoded, 1), leaf(DataType::Null)]),
            refused(11)
        );
        assert_eq!(rt;
            of_fields(&[
                parent(DataType::Struct, 3),
                leaf(DataType::Null),
                leaf(DataType::Null),
            ],),
            refused(11)
        );
    }

    #[test]
    fn depth(rt: HostRuntime) {
        let mut nested = [parent(DataType::List, 1); 33];
        nested[31] = leaf(DataType::Null);
        assert_eq!(rt; of_fields(&nested[0..32]), Ok(()));
        nested[31] = parent(DataType::List, 1);
        nested[32] = leaf(DataType::Null);
        assert_eq!(rt; of_fields(&nested), refused(12));
    }

    #[test]
    fn union_children(rt: HostRuntime) {
        let mut fields = [parent(DataType::Union(UnionMode::Sparse), 128); 130];
        number_members(&mut fields[1..130]);
        assert_eq!(rt; of_fields(&fields[0..129]), Ok(()));
        fields[0] = parent(DataType::Union(UnionMode::Sparse), 129);
        assert_eq!(rt; of_fields(&fields), refused(11));
    }

    #[test]
    fn type_ids(rt: HostRuntime) {
        let union = parent(DataType::Union(UnionMode::Dense), 2);
        assert_eq!(rt; of_fields(&[union, member(5), member(2)]), Ok(()));
        assert_eq!(rt; of_fields(&[union, member(0), member(127)]), Ok(()));
        assert_eq!(rt; of_fields(&[union, member(0), member(128)]), refused(13));
        assert_eq!(rt; of_fields(&[union, member(7), member(7)]), refused(13));
        assert_eq!(rt; of_fields(&[member(1)]), refused(13));
        assert_eq!(rt;
            of_fields(&[parent(DataType::Struct, 1), member(1)]),
            refused(13)
        );
    }

    #[test]
    fn units(rt: HostRuntime) {
        assert_eq!(rt;
            of_fields(&[
                leaf(DataType::Time32(TimeUnit::Second)),
                leaf(DataType::Time32(TimeUnit::Millisecond)),
            ],),
            Ok(())
        );
        assert_eq!(rt;
            of_fields(&[leaf(DataType::Time32(TimeUnit::Microsecond))]),
            refused(13)
        );
        assert_eq!(rt;
            of_fields(&[leaf(DataType::Time32(TimeUnit::Nanosecond))]),
            refused(13)
        );
        assert_eq!(rt;
            of_fields(&[leaf(DataType::Time64(TimeUnit::Second))]),
            refused(13)
        );
        assert_eq!(rt;
            of_fields(&[leaf(DataType::Time64(TimeUnit::Millisecond))]),
            refused(13)
        );
        assert_eq!(rt;
            of_fields(&[
                leaf(DataType::Time64(TimeUnit::Microsecond)),
                leaf(DataType::Time64(TimeUnit::Nanosecond)),
            ],),
            Ok(())
        );
    }

    #[test]
    fn zones(rt: HostRuntime) {
        assert_eq!(rt;
            of_fields(&[leaf(DataType::Timestamp(TimeUnit::Second, None))]),
            Ok(())
        );
        assert_eq!(rt;
            of_fields(&[leaf(DataType::Timestamp(TimeUnit::Second, Some(text(0, 0))))]),
            refused(13)
        );
        assert_eq!(rt;
            told(
                &[leaf(DataType::Timestamp(TimeUnit::Second, Some(text(0, 3))))],
                &[],
                b"UTC",
                0,
            ),
            Ok(())
        );
        assert_eq!(rt;
            told(
                &[leaf(DataType::Timestamp(TimeUnit::Second, Some(text(1, 3))))],
                &[],
                b"UTC",
                0,
            ),
            refused(14)
        );
    }

    #[test]
    fn texts(rt: HostRuntime) {
        assert_eq!(rt; of_name(b"abc", 3), Ok(()));
        assert_eq!(rt; of_name(b"abc", 4), refused(14));
        assert_eq!(rt; told(&[named(3, 0)], &[], b"abc", 0), Ok(()));
        assert_eq!(rt; told(&[named(4, 0)], &[], b"abc", 0), refused(14));
        assert_eq!(rt; of_name(&[0xC0, 0x80], 2), refused(14));
        assert_eq!(rt; of_name(&[0xED, 0xA0, 0x80], 3), refused(14));
        assert_eq!(rt; of_name(&[0xF4, 0x8F, 0xBF, 0xBF], 4), Ok(()));
        assert_eq!(rt; of_name(&[0xF4, 0x90, 0x80, 0x80], 4), refused(14));
    }

    #[test]
    fn keys(rt: HostRuntime) {
        assert_eq!(rt; told(&[owner(2)], &[keyed(0), keyed(1)], b"ab", 0), Ok(()));
        assert_eq!(rt;
            told(&[owner(2)], &[keyed(0), keyed(1)], b"aa", 0),
            refused(15)
        );
        assert_eq!(rt;
            told(&[owner(1), owner(1)], &[keyed(0), keyed(0)], b"a", 0),
            Ok(())
        );
        assert_eq!(rt; told(&[], &[keyed(0), keyed(0)], b"a", 2), refused(15));
        assert_eq!(rt; told(&[owner(1)], &[keyed(0), keyed(0)], b"a", 1), Ok(()));
    }

    #[test]
    fn first_with_a_text(rt: HostRuntime) {
        let records = [named(9, 2), named(1, 2), named(0, 2), named(1, 2)];
        assert_eq!(rt; first_with_text(&records, b"abc", b"bc"), Some(1));
        assert_eq!(rt; first_with_text(&records, b"abc", b"ab"), Some(2));
        assert_eq!(rt; first_with_text(&records, b"abc", b""), None);
        assert_eq!(rt; first_with_text(&records, b"abcdefghij", b"j"), None);
        assert_eq!(rt;
            first_with_text(&[keyed(2), keyed(0), keyed(0)], b"ab", b"a"),
            Some(1)
        );
    }

    #[test]
    fn order(rt: HostRuntime) {
        // Texts that are no UTF-8 come before a repeated key, a bad count before both, and the schema's pairs after all records.
        assert_eq!(rt;
            told(&[owner(2)], &[keyed(0), keyed(0)], &[0xff], 0),
            refused(14)
        );
        assert_eq!(rt; told(&[named(0, 9), member(1)], &[], b"a", 0), refused(14));
        assert_eq!(rt; told(&[member(1), named(0, 9)], &[], b"a", 0), refused(13));
        assert_eq!(rt; told(&[member(1)], &[keyed(9)], b"a", 1), refused(13));
        assert_eq!(rt; told(&[], &[keyed(9), no_pair()], b"a", 1), refused(14));
    }
}
