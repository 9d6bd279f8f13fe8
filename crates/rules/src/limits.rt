//! The limits of a sheet, which are looked at before anything else.
ghost use Rattle.std.specs.Prelude.{◌≡◌, ℕ, ◌^◌, ◌<◌, ◌≤◌, length, sum_by};
ghost use Rattle.sheet.specs.Contents.{content};
ghost use Rattle.rules.specs.Tests.{record_length, pair_length};
ghost use Rattle.rules.specs.Verdict.{within_limits};

use crate::tables::zone_of;
use sheet::Sheet;
use types::{FieldRecord, Pair};

/// The limits on used records, pairs and text bytes; the last one also limits the lengths of all texts together.
pub const MAX_RECORDS: usize = 1024;

pub const MAX_PAIRS: usize = 1024;

pub const MAX_BYTES: usize = 32768;

// What has texts of some lengths.
trait Lengths {
    ghost length: { Self → ℕ };

    // The lengths of its texts together.
    fn length(&self) -> usize
        ensures value { result ≡ length self.now }
        ensures bound { result < 2 ^ 33 };
}

impl Lengths for FieldRecord {
    ghost length = { record_length };

    fn length(&self) -> usize {
        self.name.len as usize + zone_of(self.data_type).map_or(0, |zone| zone.len as usize)
    }
}

impl Lengths for Pair {
    ghost length = { pair_length };

    fn length(&self) -> usize {
        self.key.len as usize + self.value.len as usize
    }
}

// The lengths of the texts of all of them together.
fn summed_lengths<T: Lengths>(xs: &[T]) -> usize
    requires { length xs.now ≤ 1024 }
    ensures { result ≡ sum_by T.length xs.now }
{
    xs.iter().map(|x| x.length()).sum()
}

/// Whether a sheet keeps the limits.
pub fn within_limits(sheet: &Sheet) -> bool
    ensures { result ≡ within_limits (content sheet.now) }
{
    let (records, pairs) = (sheet.records.as_slice(), sheet.pairs.as_slice());
    if records.len() > MAX_RECORDS || pairs.len() > MAX_PAIRS || sheet.text.len() > MAX_BYTES {
        return false;
    }
    let of_records = summed_lengths(records);
    of_records <= MAX_BYTES && summed_lengths(pairs) <= MAX_BYTES - of_records
}
