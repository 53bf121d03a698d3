// Tables that fill from the front.
ghost use Rattle.std.specs.Prelude.{◌≡◌, [], ◌∷◌};
ghost use Rattle.formulas.specs.Append.{table, Puts};

// A table over a lent slice. What passes the slice is counted and not written.
#[derive(Drop)]
pub struct AppendList<'a, T> {
    pub slots: &'a mut [T],
    pub fill: u32,
}

impl<'a, T: Drop> AppendList<'a, T> {
    pub fn new(slots: &'a mut [T]) -> AppendList<'a, T>
        ensures fill { result.fill ≡ 0 }
        ensures slots { result.slots.now ≡ slots.old }
        ensures same { result.slots.ghost_name ≡ slots.entry.ghost_name }
    {
        AppendList { slots, fill: 0 }
    }

    // Writes where there is room, counts in any case, and answers the entry's place.
    pub fn put(&mut self, x: T) -> u32
        ensures same { self.new.slots.ghost_name ≡ self.old.slots.ghost_name }
        ensures puts { Puts (table self.old) (x ∷ []) result (table self.new) }
    {
        let at = self.fill;
        self.fill = at.saturating_add(1);
        // Not by get_mut: the borrow checker forgets a slice in a field that a call's result borrows.
        if (at as usize) < self.slots.len() {
            self.slots[at as usize] = x;
        }
        at
    }
}

impl<'a, T: Copy> AppendList<'a, T> {
    // Puts each of the entries, and answers the place of the first.
    pub fn put_all(&mut self, entries: &[T]) -> u32
        ensures same { self.new.slots.ghost_name ≡ self.old.slots.ghost_name }
        ensures puts { Puts (table self.old) entries.now result (table self.new) }
    {
        let first = self.fill;
        for x in entries {
            self.put(*x);
        }
        first
    }
}
