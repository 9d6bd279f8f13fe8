//! Tests of the listing, in a crate of their own so that its proofs are not checked twice.
#![tactic(auto)]

#[cfg(test)]
mod tests {
    use listing::fill::Filler;
    use listing_show::place::Placed;
    use listing_show::show::Listing;
    use listing_words::fault::LineFault;
    use sheet::Sheet;
    use std::alloc::Global;
    use std::process::Abort;
    use std::test::*;
    use types::{DataType, FieldRecord, Pair, Text, UnionMode};

    const NO_TEXT: Text = Text { start: 0, len: 0 };

    const NO_PAIR: Pair = Pair {
        key: NO_TEXT,
        value: NO_TEXT,
    };

    const NO_FIELD: FieldRecord = FieldRecord {
        name: NO_TEXT,
        nullable: false,
        data_type: DataType::Null,
        dictionary: None,
        children: 0,
        pairs: 0,
        type_id: 0,
    };

    // Lays lines on a sheet up to the first bad one.
    fn fill(heap: Global, sheet: &mut Sheet, text: &str) -> Result<(), LineFault> {
        let mut filler = Filler::new(heap);
        for line in text.lines() {
            let _ = filler.lay(heap, sheet, line.as_bytes())?;
        }
        Ok(())
    }

    // The listing of the sheet that these lines fill.
    fn relisted(heap: Global, text: &str) -> Result<String, LineFault> {
        let mut records = [NO_FIELD; 40];
        let mut pairs = [NO_PAIR; 4];
        let mut bytes = [0; 200];
        let mut sheet = Sheet::new(&mut records, &mut pairs, &mut bytes);
        fill(heap, &mut sheet, text)?;
        let listing = Listing::new(heap, &sheet)?;
        Ok(listing.to_string(heap)?)
    }

    fn prints(rt: &impl Abort, heap: Global, read: &str, wanted: &str) -> Result<(), Fail> {
        let got = relisted(heap, read)?;
        assert_eq!(rt; got.as_str(), wanted);
        Ok(())
    }

    #[test]
    fn plain_types(rt: HostRuntime) -> Result<(), Fail> {
        let text =
            "schema\nfield 1 \"\" Null nullable\nfield 1 \"\" Boolean nullable\nfield 1 \"\" Int8 nullable\nfield 1 \"\" Int16 nullable\nfield 1 \"\" Int32 nullable\nfield 1 \"\" Int64 nullable\nfield 1 \"\" UInt8 nullable\nfield 1 \"\" UInt16 nullable\nfield 1 \"\" UInt32 nullable\nfield 1 \"\" UInt64 nullable\nfield 1 \"\" Float16 nullable\nfield 1 \"\" Float32 nullable\nfield 1 \"\" Float64 nullable\nfield 1 \"\" Binary nullable\nfield 1 \"\" LargeBinary nullable\nfield 1 \"\" BinaryView nullable\nfield 1 \"\" Utf8 nullable\nfield 1 \"\" LargeUtf8 nullable\nfield 1 \"\" Utf8View nullable\nfield 1 \"\" Date32 nullable\nfield 1 \"\" Date64 nullable\nfield 1 \"\" List nullable\nfield 1 \"\" LargeList nullable\nfield 1 \"\" ListView nullable\nfield 1 \"\" LargeListView nullable\nfield 1 \"\" Struct nullable\nfield 1 \"\" RunEndEncoded nullable\n";
        prints(&rt, rt.alloc(), text, text)
    }

    #[test]
    fn types_with_parameters(rt: HostRuntime) -> Result<(), Fail> {
        let text =
            "schema\nfield 1 \"\" FixedSizeBinary(16) required\nfield 1 \"\" Time32(Second) required\nfield 1 \"\" Time64(Nanosecond) required\nfield 1 \"\" Timestamp(Millisecond) required\nfield 1 \"\" Timestamp(Microsecond, \"Europe/Oslo\") required\nfield 1 \"\" Interval(YearMonth) required\nfield 1 \"\" Interval(DayTime) required\nfield 1 \"\" Interval(MonthDayNano) required\nfield 1 \"\" Duration(Second) required\nfield 1 \"\" FixedSizeList(-3) required\nfield 1 \"\" Map(sorted) required\nfield 1 \"\" Map(unsorted) required\nfield 1 \"\" Decimal32(9, 2) required\nfield 1 \"\" Decimal64(18, -2) required\nfield 1 \"\" Decimal128(38, 0) required\nfield 1 \"\" Decimal256(76, 127) required\nfield 1 \"\" Union(Sparse) required\nfield 1 \"\" Union(Dense) required\n";
        prints(&rt, rt.alloc(), text, text)
    }

    #[test]
    fn nested_fields_and_pairs(rt: HostRuntime) -> Result<(), Fail> {
        let text =
            "schema\npair \"site\" \"north\"\nfield 1 \"rack\" Struct required\npair \"unit\" \"V\"\nfield 2 \"state\" Utf8 nullable dictionary(Int8, ordered, -7)\nfield 1 \"choice\" Union(Dense) required\nfield 2 \"low\" Int32 required id=5\nfield 2 \"high\" Int32 required id=0\nfield 1 \"odd\" Int8 required id=9\n";
        prints(&rt, rt.alloc(), text, text)
    }

    #[test]
    fn escapes(rt: HostRuntime) -> Result<(), Fail> {
        let text = "schema\npair \"\\\"\\\\\" \"\\x00\\x1f\\x7f\\xff\\xc3 \u{e9}\"\n";
        prints(&rt, rt.alloc(), text, text)
    }

    #[test]
    fn spaces_and_remarks(rt: HostRuntime) -> Result<(), Fail> {
        let read =
            " schema \r\n\n# a remark\n  field 1\t\"\\x41\"Decimal32( 9 ,2 )required dictionary(UInt64,unordered) id = 3\n";
        prints(
            &rt,
            rt.alloc(),
            read,
            "schema\nfield 1 \"A\" Decimal32(9, 2) required dictionary(UInt64, unordered, 0) id=3\n",
        )
    }

    #[test]
    fn bad_lines(rt: HostRuntime) -> Result<(), Fail> {
        let table = [
            ("weigh", LineFault::UnknownCommand),
            ("schema 1", LineFault::Trailing),
            ("pair \"a\"", LineFault::TextWanted),
            ("pair \"a\" \"b", LineFault::OpenText),
            ("pair \"a\" \"\\x4\"", LineFault::Escape),
            ("field -1 \"a\" Int8 required", LineFault::NumberWanted),
            ("field 1 \"a\" Int9 required", LineFault::UnknownType),
            (
                "field 1 \"a\" Time32(Minute) required",
                LineFault::Parameter,
            ),
            ("field 1 \"a\" Int8", LineFault::Nullability),
            (
                "field 1 \"a\" Int8 required dictionary(Utf8, ordered)",
                LineFault::DictionaryWanted,
            ),
            (
                "field 1 \"a\" Int8 required id=256",
                LineFault::NumberWanted,
            ),
            ("field 0 \"a\" Int8 required", LineFault::Depth),
            (
                "field 1 \"a\" Int8 required\nfield 3 \"b\" Int8 required",
                LineFault::Depth,
            ),
        ];
        for (text, fault) in table {
            assert_eq!(rt; relisted(rt.alloc(), text).err(), Some(fault));
        }
        Ok(())
    }

    // What is told of the second of these records, as a child of the first.
    fn told_in_union(records: &[FieldRecord; 2]) -> bool {
        let placed = Placed {
            field: &records[1],
            parent: Some(&records[0]),
            depth: 2,
        };
        placed.in_union()
    }

    #[test]
    fn a_child_of_a_union_is_told_by_its_parent(rt: HostRuntime) -> Result<(), Fail> {
        let union = FieldRecord {
            data_type: DataType::Union(UnionMode::Dense),
            ..NO_FIELD
        };
        let outermost = Placed {
            field: &union,
            parent: None,
            depth: 1,
        };
        assert!(rt; !outermost.in_union());
        let table = [
            (DataType::Union(UnionMode::Sparse), true),
            (DataType::Union(UnionMode::Dense), true),
            (DataType::Map(true), false),
            (DataType::Struct, false),
            (DataType::Null, false),
        ];
        for (data_type, wanted) in table {
            let parent = FieldRecord {
                data_type,
                children: 1,
                ..NO_FIELD
            };
            assert_eq!(rt; told_in_union(&[parent, union]), wanted);
        }
        Ok(())
    }

    #[test]
    fn no_place_leaves_the_sheet(rt: HostRuntime) -> Result<(), Fail> {
        let mut records = [NO_FIELD; 1];
        let mut pairs = [NO_PAIR; 1];
        let mut bytes = [0; 3];
        let mut sheet = Sheet::new(&mut records, &mut pairs, &mut bytes);
        let read = "field 1 \"a\" Struct required\nfield 2 \"b\" Int8 required";
        assert_eq!(rt;
            fill(rt.alloc(), &mut sheet, read).err(),
            Some(LineFault::NoPlace)
        );
        let listing = Listing::new(rt.alloc(), &sheet)?;
        assert_eq!(rt;
            listing.to_string(rt.alloc())?.as_str(),
            "schema\nfield 1 \"a\" Struct required\n"
        );
        Ok(())
    }
}
