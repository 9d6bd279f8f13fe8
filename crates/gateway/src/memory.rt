//! The memory of a sheet, more than a lawful sheet may use, so that one that is too large can be laid and refused.
use sheet::Sheet;
use std::alloc::{AllocError, Global};
use types::{DataType, FieldRecord, Pair, Text};

pub const RECORDS: usize = 2048;

const PAIRS: usize = 2048;

const TEXT: usize = 65536;

const NO_TEXT: Text = Text { start: 0, len: 0 };

const NO_FIELD: FieldRecord = FieldRecord {
    name: NO_TEXT,
    nullable: false,
    data_type: DataType::Null,
    dictionary: None,
    children: 0,
    pairs: 0,
    type_id: 0,
};

/// Places for one sheet.
#[derive(Drop)]
pub struct Memory {
    records: Vec<FieldRecord>,
    pairs: Vec<Pair>,
    text: Vec<u8>,
}

impl Memory {
    pub fn new(heap: Global) -> Result<Memory, AllocError> {
        let records = vec![in heap; NO_FIELD; RECORDS]?;
        let pairs = vec![in heap; Pair {
            key: NO_TEXT,
            value: NO_TEXT
        }; PAIRS]?;
        let text = vec![in heap; 0; TEXT]?;
        Ok(Memory {
            records,
            pairs,
            text,
        })
    }

    /// An empty sheet over these places.
    pub fn sheet(&mut self) -> Sheet<'_> {
        Sheet::new(
            self.records.as_mut_slice(),
            self.pairs.as_mut_slice(),
            self.text.as_mut_slice(),
        )
    }
}
