// What is done with such a list.
ghost use Rattle.std.specs.Prelude.{◌≡◌, ◌==◌, [], length, slice_get, slice_set, remove};
ghost use Rattle.model.specs.Slots.{items_of, Pushed};

use super::Slots;

impl<T: Copy, const N: usize> Slots<T, N> {
    // The empty list. All slots hold `unused`, which nobody sees.
    pub fn new(unused: T) -> Slots<T, N>
        ensures { items_of result ≡ [] }
    {
        Slots {
            slots: [unused; N],
            len: 0,
        }
    }

    // The values in order.
    pub fn as_slice(&self) -> &[T]
        ensures { result.now ≡ items_of self.now }
    {
        &self.slots[..self.len]
    }

    // Whether no slot is left.
    pub fn is_full(&self) -> bool
        ensures { result ≡ (length (items_of self.now) == N) }
    {
        self.len == N
    }

    // Adds the value behind the others, or hands it back if no slot is left.
    pub fn push(&mut self, value: T) -> Result<(), T>
        ensures { Pushed N (items_of self.old) value result (items_of self.new) }
    {
        if self.is_full() {
            return Err(value);
        }
        self.slots[self.len] = value;
        self.len += 1;
        Ok(())
    }

    // Puts the value in the place of another and hands that back. A place behind the last changes nothing.
    pub fn replace(&mut self, place: usize, value: T) -> Option<T>
        ensures was { result ≡ slice_get (items_of self.old) place }
        ensures new { items_of self.new ≡ slice_set (items_of self.old) place value }
    {
        let old = *self.as_slice().get(place)?;
        self.slots[place] = value;
        Some(old)
    }

    // Takes the value at this place out; those behind it move up. A place behind the last changes nothing.
    pub fn remove(&mut self, place: usize) -> Option<T>
        ensures was { result ≡ slice_get (items_of self.old) place }
        ensures new { items_of self.new ≡ remove (items_of self.old) place }
    {
        let old = *self.as_slice().get(place)?;
        self.slots.copy_within(place + 1..self.len, place);
        self.len -= 1;
        Some(old)
    }

    // Takes all values out.
    pub fn clear(&mut self)
        ensures { items_of self.new ≡ [] }
    {
        self.len = 0;
    }
}
