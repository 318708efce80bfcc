// Writing an escaped payload byte by byte. The count of zero bytes is read off the output: the last two bytes that stand before the place.
// s, p and n stay parameters and are no slice: put_bytes is public, as are those above it, which look at the bytes before p.
ghost use Rattle.std.specs.Prelude.{◌≡◌, ◌∷◌, [], ◌+◌, ◌≤◌, length};
ghost use Rattle.lists.specs.Part.{part};
ghost use Rattle.nal_unit.specs.Escape.{inserts, esc_from};
ghost use Rattle.nal_unit.specs.EscapeCode.{counted};
ghost use Rattle.nal_unit.specs.PutCode.{Put};

// Whether 03 goes before the byte b at the place `at`.
fn wants3(out: &[u8], at: usize, b: u8) -> bool
    requires { at ≤ length out.now }
    ensures { result ≡ inserts (counted out.now at) b }
{
    let large = b > 3;
    if large {
        return false;
    }
    if at < 2 {
        return false;
    }
    if out[at - 1] != 0 {
        return false;
    }
    out[at - 2] == 0
}

// Writes one byte of payload at the place `at`, 03 before it where it wants one, and answers the place behind.
fn put(out: &mut [u8], at: usize, b: u8) -> usize
    requires { at + length (esc_from (counted out.old at) (b ∷ [])) ≤ length out.old }
    ensures { Put out.old at (b ∷ []) out.new result }
{
    if wants3(out, at, b) {
        out[at] = 3;
        out[at + 1] = b;
        return at + 2;
    }
    out[at] = b;
    at + 1
}

// Writes n bytes of payload, from the place p of s on, at the place `at` of the output, and answers the place behind them.
pub fn put_bytes(s: &[u8], p: usize, n: usize, out: &mut [u8], at: usize) -> usize
    requires n_in_bounds { p + n ≤ length s.now }
    requires n_in_bounds_2 { at + length (esc_from (counted out.old at) (part s.now p n)) ≤ length out.old }
    ensures { Put out.old at (part s.now p n) out.new result }
{
    let mut a = at;
    for b in &s[p..p + n] {
        a = put(out, a, *b);
    }
    a
}
