ghost use Rattle.std.specs.Prelude.{◌≡◌, ◌-◌, length};
ghost use Rattle.network.specs.Lent.{items, appending, memory_after, length_after, items_after};

use super::{AppendRefusal, LentList};

/// The number of the refusal.
impl From<AppendRefusal> for u8 {
    ghost use Rattle.network.specs.Lent.{append_number};

    ghost from_gives = { λ refusal number. number ≡ append_number refusal };

    fn from(refusal: AppendRefusal) -> u8 {
        match refusal {
            AppendRefusal::Full => 51,
        }
    }
}

impl<'a, T: Copy> LentList<'a, T> {
    /// An empty list in that memory.
    pub fn new(memory: &'a mut [T]) -> LentList<'a, T>
        ensures empty { result.len ≡ 0 }
        ensures memory { result.memory ≡ memory.entry }
    {
        LentList { memory, len: 0 }
    }

    /// How many elements it can still take.
    pub fn free(&self) -> usize
        ensures { result ≡ length self.now.memory.now - self.now.len }
    {
        self.memory.len() - self.len
    }

    /// Its elements, the first appended first.
    pub fn as_slice(&self) -> &[T]
        ensures { result.now ≡ items self.now.memory.now self.now.len }
    {
        &self.memory[..self.len]
    }

    /// Appends an element; refused exactly when the memory is full, and then nothing changes.
    pub fn append(&mut self, x: T) -> Result<(), AppendRefusal>
        ensures answer { result ≡ appending self.old.memory.now self.old.len }
        ensures len { self.new.len ≡ length_after self.old.memory.now self.old.len }
        ensures memory { self.new.memory.now ≡ memory_after self.old.memory.now self.old.len x }
        ensures holds { items self.new.memory.now self.new.len ≡ items_after self.old.memory.now self.old.len x }
        ensures lent { self.new.memory.ghost_name ≡ self.old.memory.ghost_name }
    {
        if self.len == self.memory.len() {
            return Err(AppendRefusal::Full);
        }
        self.memory[self.len] = x;
        self.len += 1;
        Ok(())
    }
}
