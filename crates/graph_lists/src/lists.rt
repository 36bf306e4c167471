// Lists of any kind.
ghost use Rattle.std.specs.Prelude.{◌≡◌, length};

// `to.copy_from_slice(from)`.
// Stays: the library's method calls `memmove`, which an archive for C would then want besides `memcpy` and `memset` (the C interface).
pub fn copy<T: Copy>(from: &[T], to: &mut [T])
    requires { length to.old ≡ length from.now }
    ensures { to.new ≡ from.now }
{
    for (i, x) in from.iter().enumerate() {
        to[i] = *x;
    }
}
