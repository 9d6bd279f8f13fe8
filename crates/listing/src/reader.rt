//! A line that is read: what is left of it, and the bytes of the texts that it gave.
ghost use Rattle.std.specs.Prelude.{◌≡◌, ℕ, List, [], ◌++◌, length, IfOk};

use listing_words::fault::LineFault;
use listing_words::token::Cursor;
use std::alloc::Global;
use types::Text;

/// What was not read yet of a line, and the bytes of the texts that were read from it.
#[derive(Drop)]
pub struct LineReader<'a> {
    pub cursor: Cursor<'a>,
    pub text: Vec<u8>,
}

impl<'a> LineReader<'a> {
    // Nothing of the line was read yet.
    pub(crate) fn new(heap: Global, line: &'a [u8]) -> LineReader<'a>
        ensures { result.text.items ≡ [] }
    {
        LineReader {
            cursor: Cursor::new(line),
            text: Vec::new(heap),
        }
    }

    /// Reads a quoted text, and tells where its bytes stand among those of the line's texts.
    pub fn quoted(&mut self) -> Result<Text, LineFault>
        ensures { IfOk result (λ t. (said : List ℕ) × (self.new.text.items ≡ self.old.text.items ++ said) × (t.start ≡ length self.old.text.items) × (t.len ≡ length said)) }
    {
        let start = self.text.len();
        self.cursor.quoted(&mut self.text)?;
        let len = self.text.len() - start;
        Ok(Text {
            start: u32::try_from(start)?,
            len: u32::try_from(len)?,
        })
    }

    /// The bytes of the line's texts. The line has to end here.
    pub fn end(mut self) -> Result<Vec<u8>, LineFault>
        ensures { IfOk result (λ text. text.items ≡ self.entry.text.items) }
    {
        self.cursor.expect_end()?;
        Ok(self.text)
    }
}
