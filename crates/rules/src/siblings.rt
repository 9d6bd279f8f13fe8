//! The type ids of the fields before one in its row.
ghost use Rattle.std.specs.Prelude.{◌≡◌};
ghost use Rattle.rules.specs.Models.{row_of, HasRoom};
ghost use Rattle.rules.specs.Sites.{plain, row_under, after};
ghost use Rattle.rules.specs.Tests.{id_fits};

use crate::noted::Noted;
use crate::tables::ChildRule;

/// The largest type id of a union's child.
pub const MAX_TYPE_ID: u8 = 127;

/// A row of fields up to one of them: in a union the type ids so far, and nothing elsewhere.
#[derive(Clone, Copy)]
pub struct Siblings {
    noted: Option<Noted>,
}

impl Siblings {
    /// The outermost row, before its first field.
    pub fn outermost() -> Siblings
        ensures { row_of result ≡ plain }
    {
        Siblings { noted: None }
    }

    /// The row of the children under a field, before the first of them.
    pub fn under(rule: ChildRule) -> Siblings
        ensures { row_of result ≡ row_under rule }
    {
        let noted = match rule {
            ChildRule::OfUnion => Some(Noted::none()),
            _ => None,
        };
        Siblings { noted }
    }

    /// Whether a type id does for the next field of the row.
    pub fn takes(&self, id: u8) -> bool
        ensures { result ≡ id_fits (row_of self.now) id }
    {
        match &self.noted {
            None => id == 0,
            Some(noted) => id <= MAX_TYPE_ID && !noted.as_slice().contains(&id),
        }
    }

    /// One field more in the row.
    pub(crate) fn note(&mut self, id: u8)
        requires { HasRoom (row_of self.old) 1 }
        ensures { row_of self.new ≡ after (row_of self.old) id }
    {
        if let Some(noted) = &mut self.noted {
            noted.add(id);
        }
    }
}
