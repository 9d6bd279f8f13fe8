//! The type ids of a union's children, in places of their own.
ghost use Rattle.std.specs.Prelude.{◌≡◌, [], ◌∷◌, ◌++◌, ◌<◌, ◌≤◌, length};

/// The type ids noted so far, with places for those of as many children as a union may have.
// Kept: places and a count in place of the kit's `ArrayVec`, so that the check rests on nothing beside the library.
#[derive(Clone, Copy)]
pub struct Noted {
    ids: [u8; 128],
    len: usize,
    ghost within: { len ≤ 128 },
}

impl Noted {
    ghost use Rattle.rules.specs.Models.{ids_of};

    /// None yet.
    pub fn none() -> Noted
        ensures { ids_of result ≡ [] }
    {
        Noted {
            ids: [0; 128],
            len: 0,
        }
    }

    /// The ids in order.
    pub fn as_slice(&self) -> &[u8]
        ensures { result.now ≡ ids_of self.now }
    {
        &self.ids[..self.len]
    }

    /// One more at the end.
    pub(crate) fn add(&mut self, id: u8)
        requires { length (ids_of self.old) < 128 }
        ensures { ids_of self.new ≡ ids_of self.old ++ id ∷ [] }
    {
        self.ids[self.len] = id;
        self.len += 1;
    }
}
