//! Where the records of a sheet stand: their depths, worked out from the counts of children.
ghost use Rattle.std.specs.Prelude.{◌≡◌, ◌<◌, length, Decides, IsSomeAnd, IfSome, IfOk, vec_len};
ghost use Rattle.types.specs.declared.UnionMode.{UnionMode};
ghost use Rattle.types.specs.declared.DataType.TheVariants.{Union};

use std::alloc::{AllocError, Global};
use types::{DataType, FieldRecord};

/// Where a record stands: its depth, and whether it is a child of a union.
#[derive(Clone, Copy)]
pub struct Place {
    pub depth: u32,
    pub in_union: bool,
}

/// A record and where it stands: its depth, and the record that it is a child of.
#[derive(Clone, Copy)]
pub struct Placed<'s> {
    pub field: &'s FieldRecord,
    pub parent: Option<&'s FieldRecord>,
    pub depth: u32,
}

impl Placed<'_> {
    /// Whether the record is a child of a union.
    pub fn in_union(&self) -> bool
        ensures { Decides result (IsSomeAnd self.now.parent (λ p. (mode : UnionMode) × (p.now.data_type ≡ Union mode))) }
    {
        self.parent.is_some_and(|p| is_union(p.data_type))
    }
}

// A record on the path to the last one: how many of its children are still to come, and whether they are a union's.
#[derive(Clone, Copy)]
struct Open {
    left: u32,
    of_union: bool,
}

// Takes the records off the path that have all their children, and then the one that the next record is a child of.
fn next_parent(path: &mut Vec<Open>) -> Option<Open>
    ensures { IfSome result (λ o. 0 < o.left) }
{
    while let Some(open) = path.pop() {
        if open.left > 0 {
            return Some(open);
        }
    }
    None
}

fn is_union(t: DataType) -> bool
    ensures { Decides result ((mode : UnionMode) × (t ≡ Union mode)) }
{
    matches!(t, DataType::Union(_))
}

// The place of the next record, which then ends the path.
fn next_place(path: &mut Vec<Open>, field: &FieldRecord) -> Result<Place, AllocError> {
    let parent = next_parent(path);
    if let Some(open) = parent {
        path.push(Open {
            left: open.left - 1,
            ..open
        })?;
    }
    path.push(Open {
        left: field.children,
        of_union: is_union(field.data_type),
    })?;
    Ok(Place {
        depth: u32::try_from(path.len()).unwrap_or(u32::MAX),
        in_union: parent.is_some_and(|open| open.of_union),
    })
}

/// The places of records in preorder. Where the counts do not fit, a record with no parent stands at the top.
pub fn places(heap: Global, records: &[FieldRecord]) -> Result<Vec<Place>, AllocError>
    ensures { IfOk result (λ v. vec_len v ≡ length records.now) }
{
    let mut path = Vec::new(heap);
    let mut out = Vec::new(heap);
    for field in records {
        out.push(next_place(&mut path, field)?)?;
    }
    Ok(out)
}
