// Bytes copied as they are. s and p, out and `at` stay parameters and are no slices: both functions are public, and their contract is that of the whole buffer.
ghost use Rattle.std.specs.Prelude.{◌≡◌, ◌+◌, ◌≤◌, length};
ghost use Rattle.lists.specs.Fill.{splice};
ghost use Rattle.lists.specs.Part.{part};

// Copies n bytes from the place p of s to the place `at` of the output, byte by byte: by `copy_from_slice` the library for C would ask its host for memmove, beside
// memcpy and memset.
pub fn copy(s: &[u8], p: usize, n: usize, out: &mut [u8], at: usize)
    requires n_in_bounds { p + n ≤ length s.now }
    requires n_in_bounds_2 { at + n ≤ length out.old }
    ensures { out.new ≡ splice out.old at (part s.now p n) }
{
    for k in 0..n {
        out[at + k] = s[p + k];
    }
}

// The same of N bytes, a row of a width that is known where the code is compiled. Two slices are not known to be apart, a local array and a slice are: by way of
// one the copy is whole vectors with no test.
pub fn copy_fixed<const N: usize>(s: &[u8], p: usize, out: &mut [u8], at: usize)
    requires { (p + N ≤ length s.now) × (at + N ≤ length out.old) }
    ensures { out.new ≡ splice out.old at (part s.now p N) }
{
    let mut row = [0u8; N];
    row.copy_from_slice(&s[p..p + N]);
    // a number of its own, which the edit row_short makes another
    let n = N;
    out[at..at + n].copy_from_slice(&row[..n]);
}
