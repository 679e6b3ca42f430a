// The first places of a lent table, each set by a call.
ghost use Rattle.std.specs.Prelude.{◌≡◌, ℕ, ◌^◌, ◌<◌, ◌≤◌, length, drop, if◌then◌else◌, nat_eq, slice_index};

// x, or n in the place of q.
pub(crate) fn instead(x: u32, q: u32, n: u32) -> u32
    ensures { result ≡ (if nat_eq x q then n else x) }
{
    if x == q { n } else { x }
}

// Each of the first `slots` places becomes what f says of its index and of what stands there. The index is cast, since it is
// below `slots`; over `iter_mut().zip(0..slots)` a proof knows nothing of the places after the loop.
pub(crate) fn set_each<F: Fn(u32, u32) -> u32>(table: &mut [u32], slots: u32, f: F)
    requires room { slots ≤ length table.old }
    requires callable { (k x : ℕ) → k < slots → x < 2 ^ 32 → F.pre f k x }
    ensures set { (k : ℕ) → k < slots → F.post f k (slice_index table.old k) (slice_index table.new k) }
    ensures beyond { drop slots table.new ≡ drop slots table.old }
{
    for (i, x) in table[..slots as usize].iter_mut().enumerate() {
        *x = f(i as u32, *x);
    }
}
