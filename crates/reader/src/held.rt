// Writes a reader's held bytes in place. Zeros follow them.
ghost use Rattle.std.specs.Prelude.{◌≡◌, ◌≤◌, ◌-◌, ◌++◌, length, take, drop, replicate};
ghost use Rattle.reader.specs.State.{held_length, held_bytes};

// Writes zeros from a place on.
// Kept: byte by byte: `fill` writes the last one apart, and asks twice whether there is one.
fn clear(held: &mut [u8], from: usize)
    requires { from ≤ length held.old }
    ensures { held.new ≡ take from held.old ++ replicate (length held.old - from) 0 }
{
    let n = held.len() - from;
    for j in 0..n {
        held[from + j] = 0;
    }
}

// Holds the rest of a line.
pub(crate) fn hold(rest: &[u8], held: &mut [u8])
    requires { (length rest.now ≤ held_length) × (length held.old ≡ held_length) }
    ensures { held.new ≡ held_bytes rest.now }
{
    let n = rest.len();
    buffer::copy(rest, held, 0);
    clear(held, n);
}

// Holds the rest of a line that is itself in `held`: its bytes from `used` to `total`.
// Kept: a function beside `hold`, because a part of `held` can't be lent to it while it writes `held`.
pub(crate) fn hold_rest(held: &mut [u8], used: usize, total: usize)
    requires { (used ≤ total) × (total ≤ held_length) × (length held.old ≡ held_length) }
    ensures { held.new ≡ held_bytes (drop used (take total held.old)) }
{
    let left = total - used;
    if 0 < used {
        // Kept: byte by byte, as in `buffer::copy`: `copy_within` calls memmove.
        for j in 0..left {
            held[j] = held[used + j];
        }
    }
    clear(held, left);
}
