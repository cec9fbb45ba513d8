// The memory of films.
ghost use Rattle.std.specs.Prelude.{◌≡◌, min, ◌++◌, length, drop, replicate};

// Puts `value` into the first `n` places, or all that there are, and leaves the others as they were.
// (`n` may be more than there are, so that no slice can stand for both. `fill` asks for the laws of
// `Clone`, which `Copy` does not give here.)
pub fn fill_front<T: Copy>(memory: &mut [T], n: usize, value: T)
    ensures { memory.new ≡ replicate (min n (length memory.old)) value ++ drop n memory.old }
{
    let own = n.min(memory.len());
    for place in &mut memory[..own] {
        *place = value;
    }
}
