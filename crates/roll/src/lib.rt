//! One container for all element types: a roll fills the caller's places from the front.
#![tactic(auto)]

ghost use Rattle.std.specs.Prelude.{◌≡◌, ◌+◌, ◌<◌, ◌≤◌, [], ◌∷◌, ◌++◌, length, take, drop, MatchResult, OnErr, nat_lt, slice_set};
ghost use Rattle.std.specs.List.{slice_get};

/// Elements in the caller's memory, in order: the first places are used, the others are free.
// Kept: places and a count in place of a vector, since the memory is the caller's and the library allocates nothing.
#[derive(Drop)]
pub struct Roll<'a, T> {
    places: &'a mut [T],
    used: usize,
    ghost within: { used ≤ length places.now },
}

/// A roll has no place left for what was to be added.
#[derive(Clone, Copy, PartialEq, Eq, Debug)]
pub struct Full;

// Lays one element down. Every change of a single place goes through here.
fn store<T: Copy>(s: &mut [T], i: usize, x: T)
    requires { i < length s.old }
    ensures { s.new ≡ slice_set s.old i x }
{
    s[i] = x;
}

// Lays a run of elements down from a place on.
fn store_all<T: Copy>(s: &mut [T], at: usize, xs: &[T])
    requires { at + length xs.now ≤ length s.old }
    ensures { s.new ≡ take at s.old ++ (xs.now ++ drop (at + length xs.now) s.old) }
{
    let n = xs.len();
    s[at..at + n].copy_from_slice(xs);
}

/// The element at a place of a slice, or none past its end.
pub fn fetch<T: Copy>(s: &[T], i: usize) -> Option<T>
    ensures { result ≡ slice_get s.now i }
{
    s.get(i).copied()
}

/// The `n` elements from a place on, as far as the slice has them.
pub fn part<T>(s: &[T], from: usize, n: usize) -> &[T]
    ensures { result.now ≡ take n (drop from s.now) }
{
    let rest = &s[from.min(s.len())..];
    &rest[..n.min(rest.len())]
}

// Kept: each call that changes a roll says `lender` itself, since it ties the roll before the call to the one behind it, and
// what a type keeps speaks of one state.
impl<'a, T: Copy> Roll<'a, T> {
    ghost use Rattle.roll.specs.Rolls.{items, free};

    /// A roll over the caller's places, none of them used.
    pub fn new(places: &'a mut [T]) -> Roll<'a, T>
        ensures items { items result ≡ [] }
        ensures free { free result ≡ places.old }
        ensures lender { result.places.ghost_name ≡ places.entry.ghost_name }
    {
        Roll { places, used: 0 }
    }

    /// How many places are used.
    pub fn len(&self) -> usize
        ensures value { result ≡ length (items self.now) }
        ensures bound { result ≤ length (items self.now) + length (free self.now) }
    {
        self.as_slice().len()
    }

    /// How many places there are, used and free.
    pub fn capacity(&self) -> usize
        ensures { result ≡ length (items self.now) + length (free self.now) }
    {
        self.places.len()
    }

    /// The element at a used place, or none.
    pub fn get(&self, i: usize) -> Option<T>
        ensures { result ≡ slice_get (items self.now) i }
    {
        fetch(self.as_slice(), i)
    }

    /// The elements in order.
    pub fn as_slice(&self) -> &[T]
        ensures { result.now ≡ items self.now }
    {
        &self.places[..self.used]
    }

    /// Puts another element at a used place, and gives the one that stood there; none, and nothing is changed, at any other.
    pub fn replace(&mut self, i: usize, x: T) -> Option<T>
        ensures before { result ≡ slice_get (items self.old) i }
        ensures items { items self.new ≡ slice_set (items self.old) i x }
        ensures free { free self.new ≡ free self.old }
        ensures lender { self.new.places.ghost_name ≡ self.old.places.ghost_name }
    {
        let before = self.get(i)?;
        store(self.places, i, x);
        Some(before)
    }

    /// Keeps the first `n` elements. The places set free hold what they held.
    pub fn shorten(&mut self, n: usize)
        ensures items { items self.new ≡ take n (items self.old) }
        ensures free { free self.new ≡ drop n (items self.old) ++ free self.old }
        ensures lender { self.new.places.ghost_name ≡ self.old.places.ghost_name }
    {
        if n < self.used {
            self.used = n;
        }
    }

    /// One element more at the end.
    pub fn add(&mut self, x: T) -> Result<(), Full>
        ensures cases { MatchResult result (λ _. 0 < length (free self.old)) (λ _. length (free self.old) ≡ 0) }
        ensures same { OnErr result (self.new ≡ self.old) }
        ensures items { MatchResult result (λ _. items self.new ≡ items self.old ++ x ∷ []) (λ _. items self.new ≡ items self.old) }
        ensures free { MatchResult result (λ _. free self.new ≡ drop 1 (free self.old)) (λ _. free self.new ≡ free self.old) }
        ensures lender { self.new.places.ghost_name ≡ self.old.places.ghost_name }
    {
        let at = self.used;
        if at < self.places.len() {
            store(self.places, at, x);
            self.used = at + 1;
            Ok(())
        } else {
            Err(Full)
        }
    }

    /// All of them at the end, or none.
    pub fn add_all(&mut self, xs: &[T]) -> Result<(), Full>
        ensures cases { MatchResult result (λ _. length xs.now ≤ length (free self.old)) (λ _. length (free self.old) < length xs.now) }
        ensures same { OnErr result (self.new ≡ self.old) }
        ensures items { MatchResult result (λ _. items self.new ≡ items self.old ++ xs.now) (λ _. items self.new ≡ items self.old) }
        ensures free { MatchResult result (λ _. free self.new ≡ drop (length xs.now) (free self.old)) (λ _. free self.new ≡ free self.old) }
        ensures lender { self.new.places.ghost_name ≡ self.old.places.ghost_name }
    {
        let at = self.used;
        if xs.len() <= self.places.len() - at {
            store_all(self.places, at, xs);
            self.used = at + xs.len();
            Ok(())
        } else {
            Err(Full)
        }
    }
}
