//! Why a put is refused.
ghost use Rattle.std.specs.Prelude.{◌≡◌};
ghost use Rattle.store.specs.Refusals.{refusal_number};

/// The reason why an object was not put.
#[derive(Clone, Copy, PartialEq, Eq, Debug)]
pub enum StoreRefusal {
    /// The object's price, which is above the room. It can be above the largest `usize`.
    RoomTooSmall(u128),
    /// A slot is filled otherwise than its kind says, or a place is named where nothing of its sort and kind stands.
    Misfilled,
}

impl StoreRefusal {
    /// The number by which the refusal is told.
    // Kept: the enum is the error that `?` passes on; this is the number that stands for it outside, and no code but tests decides by it.
    pub fn number(self) -> u32
        ensures { result ≡ refusal_number self }
    {
        match self {
            StoreRefusal::RoomTooSmall(_) => 21,
            StoreRefusal::Misfilled => 22,
        }
    }
}
