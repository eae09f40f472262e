// A list in fixed memory. It is copied with what holds it, which an `ArrayVec` is not.
ghost use Rattle.std.specs.Prelude.{◌≡◌, ◌+◌, ◌<◌, ◌≤◌, [], ◌∷◌, ◌++◌, take};

use std::ops::DerefSlice;

// At most N elements: so many of the places, from the first on.
#[derive(Clone, Copy)]
pub struct List<T, const N: usize> {
    pub places: [T; N],
    pub used: usize,
}

impl<T: Copy + Default, const N: usize> List<T, N> {
    // A list of none.
    pub fn new() -> List<T, N>
        ensures { result.used ≡ 0 }
    {
        List::blank(T::default())
    }
}

impl<T: Copy, const N: usize> List<T, N> {
    // A list of none, which holds this at its unused places.
    pub fn blank(unused: T) -> List<T, N>
        ensures { result.used ≡ 0 }
    {
        List {
            places: [unused; N],
            used: 0,
        }
    }

    // One more, after the others, if there is room for it.
    pub fn push(&mut self, element: T)
        ensures elements { self.old.used < N → take self.new.used self.new.places ≡ take self.old.used self.old.places ++ element ∷ [] }
        ensures used { self.old.used < N → self.new.used ≡ self.old.used + 1 }
        ensures full { N ≤ self.old.used → self.new ≡ self.old }
    {
        if self.used < N {
            self.places[self.used] = element;
            self.used += 1;
        }
    }

    // The first of them, at most so many.
    pub fn truncate(&mut self, len: usize)
        ensures { take self.new.used self.new.places ≡ take len (take self.old.used self.old.places) }
    {
        self.used = self.used.min(len);
    }

    // None of them.
    pub fn clear(&mut self)
        ensures { self.new.used ≡ 0 }
    {
        self.used = 0;
    }

    // How many they are.
    pub fn len(&self) -> usize
        ensures value { self.now.used ≤ N → result ≡ self.now.used }
        ensures fits { result ≤ N }
    {
        self.used.min(N)
    }

    // The elements.
    pub fn as_slice(&self) -> &[T]
        ensures { self.now.used ≤ N → result.now ≡ take self.now.used self.now.places }
    {
        self.places.get(..self.used).unwrap_or(&[])
    }

    // The elements, for writing.
    pub fn as_mut_slice(&mut self) -> &mut [T]
        ensures { self.old.used ≤ N → result.now ≡ take self.old.used self.old.places }
    {
        let places = &mut self.places;
        let all = &mut places[..];
        all.get_mut(..self.used).unwrap_or(&mut [])
    }
}

// A list is read as its elements are.
impl<T: Copy, const N: usize> DerefSlice for List<T, N> {
    type Elem = T;

    ghost deref_gives = { λ list elements. list.used ≤ N → elements ≡ take list.used list.places };

    fn deref(&self) -> &[T] {
        self.as_slice()
    }
}
