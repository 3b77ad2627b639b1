// Measure, then fill: what puts bytes is called where there is no room, which says how many there are, and then on the buffer.
ghost use Rattle.std.specs.Prelude.{◌≡◌, List, ℕ, length};
ghost use Rattle.puts.specs.Filling.{Puts, fill_in};

// How many bytes are put at the buffer's start; nothing, if it is too short for them, and then it stays as it was.
pub fn fill<F: Fn(&mut [u8]) -> usize>(put: F, buffer: &mut [u8]) -> Option<usize>
    requires { F.IsAlwaysCallable put }
    ensures { (b : List ℕ) → Puts F.Fn put b → fill_in b buffer.old result buffer.new }
{
    let length = put(&mut [0u8; 0]);
    fill_measured(length, put, buffer)
}

// The same of so many bytes as were measured before.
pub fn fill_measured<F: Fn(&mut [u8]) -> usize>(
    measured: usize,
    put: F,
    buffer: &mut [u8],
) -> Option<usize>
    requires { F.IsAlwaysCallable put }
    ensures { (b : List ℕ) → Puts F.Fn put b → measured ≡ length b → fill_in b buffer.old result buffer.new }
{
    if buffer.len() < measured {
        return None;
    }
    put(buffer);
    Some(measured)
}
