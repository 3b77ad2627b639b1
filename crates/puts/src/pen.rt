// A place in lent bytes that moves on behind what is put there.
ghost use Rattle.std.specs.Prelude.{[], ◌∷◌, ◌+◌, ◌-◌, ◌^◌, ◌<◌, ◌≡◌, min, length};
ghost use Rattle.lists.specs.Bytes.{bytes_of};
ghost use Rattle.puts.specs.Pens.{Wrote};
ghost use Rattle.puts.specs.Puts.{put_at};

use crate::{put_byte, put_bytes, put_u32, put_u64};

#[derive(Drop)]
pub struct Pen<'a> {
    pub bytes: &'a mut [u8],
    pub at: usize,
}

impl<'a> Pen<'a> {
    // At the start of the bytes.
    pub fn new(bytes: &'a mut [u8]) -> Pen<'a>
        ensures bytes { result.bytes.now ≡ bytes.old }
        ensures same_reference { result.bytes.ghost_name ≡ bytes.entry.ghost_name }
        ensures start { result.at ≡ 0 }
    {
        Pen { bytes, at: 0 }
    }

    // Behind the last place that a number can say a pen does not go.
    pub fn u32(&mut self, x: u32)
        ensures put { self.new.bytes.now ≡ put_at self.old.at (bytes_of 4 x) self.old.bytes.now }
        ensures at { self.new.at ≡ min (self.old.at + 4) (2 ^ 64 - 1) }
        ensures wrote { self.old.at < 2 ^ 63 → Wrote self.old self.new (bytes_of 4 x) }
        ensures moved { self.old.at < 2 ^ 63 → self.new.at ≡ self.old.at + 4 }
    {
        put_u32(self.bytes, self.at, x);
        self.at = self.at.saturating_add(4);
    }

    pub fn u64(&mut self, x: u64)
        ensures put { self.new.bytes.now ≡ put_at self.old.at (bytes_of 8 x) self.old.bytes.now }
        ensures at { self.new.at ≡ min (self.old.at + 8) (2 ^ 64 - 1) }
        ensures wrote { self.old.at < 2 ^ 63 → Wrote self.old self.new (bytes_of 8 x) }
        ensures moved { self.old.at < 2 ^ 63 → self.new.at ≡ self.old.at + 8 }
    {
        put_u64(self.bytes, self.at, x);
        self.at = self.at.saturating_add(8);
    }

    pub fn byte(&mut self, byte: u8)
        ensures put { self.new.bytes.now ≡ put_at self.old.at (byte ∷ []) self.old.bytes.now }
        ensures at { self.new.at ≡ min (self.old.at + 1) (2 ^ 64 - 1) }
        ensures wrote { self.old.at < 2 ^ 63 → Wrote self.old self.new (byte ∷ []) }
        ensures moved { self.old.at < 2 ^ 63 → self.new.at ≡ self.old.at + 1 }
    {
        put_byte(self.bytes, self.at, byte);
        self.at = self.at.saturating_add(1);
    }

    pub fn bytes(&mut self, from: &[u8])
        ensures put { self.new.bytes.now ≡ put_at self.old.at from.now self.old.bytes.now }
        ensures at { self.new.at ≡ min (self.old.at + length from.now) (2 ^ 64 - 1) }
        ensures wrote { self.old.at + length from.now < 2 ^ 64 → Wrote self.old self.new from.now }
        ensures moved { self.old.at + length from.now < 2 ^ 64 → self.new.at ≡ self.old.at + length from.now }
    {
        put_bytes(self.bytes, self.at, from);
        self.at = self.at.saturating_add(from.len());
    }
}
