// Reading a unit's payload by the places of the slice that holds the unit (7.3.1). No payload is kept and no count is carried: a byte is an inserted one
// exactly if it is 03 and the two bytes before it are 00, and a unit's header is not 0. Each function here looks at the stretch from the place p up to e,
// the unit's end, and none at a byte before p - 2. What is public is a leaf for proved callers.
// s, p and e stay parameters: a type that holds 2 ≤ p ≤ e ≤ length s would ask it of callers of these public functions, where a `requires` asks less.
ghost use Rattle.std.specs.Prelude.{◌≡◌, cond, ◌+◌, ◌-◌, ◌*◌, ◌/◌, ◌≤◌, ◌<◌, eqb, length, drop, get_or, replicate};
ghost use Rattle.lists.specs.Fill.{splice};
ghost use Rattle.lists.specs.Part.{part};
ghost use Rattle.nal_unit.specs.Unescape.{un};
ghost use Rattle.nal_unit.specs.Kept.{ins_at, kept, ins_count};
ghost use Rattle.nal_unit.specs.Taking.{Next, Passed, Took, zero_pair, zero_pairs, behind_zeros};

use crate::calm::at_each;
use crate::rows;

// Whether the byte at the place p is an inserted one.
pub fn inserted_at(s: &[u8], p: usize) -> bool
    requires { (2 ≤ p) × (p < length s.now) }
    ensures { result ≡ ins_at s.now p }
{
    s[p - 2] | s[p - 1] | (s[p] ^ 3) == 0
}

// The place of the payload's next byte. Two inserted bytes never stand side by side.
#[tactic(auto, using(crate::specs::Kept::kept_some))]
fn next_at(s: &[u8], p: usize, e: usize) -> usize
    requires le_p { (2 ≤ p) × (e ≤ length s.now) }
    requires nonzero { 0 < length (kept s.now p e) }
    ensures { Next s.now p e result }
{
    if inserted_at(s, p) {
        return p + 1;
    }
    p
}

// The payload's next byte.
pub fn byte_at(s: &[u8], p: usize, e: usize) -> u8
    requires le_p { (2 ≤ p) × (e ≤ length s.now) }
    requires nonzero { 0 < length (kept s.now p e) }
    ensures { result ≡ get_or (kept s.now p e) 0 0 }
{
    let q = next_at(s, p, e);
    s[q]
}

// The place behind the payload's next byte.
pub fn past(s: &[u8], p: usize, e: usize) -> usize
    requires le_p { (2 ≤ p) × (e ≤ length s.now) }
    requires nonzero { 0 < length (kept s.now p e) }
    ensures { Passed s.now p e 1 result }
{
    next_at(s, p, e) + 1
}

// How many bytes of the payload the byte at the place p is: none where it is an inserted one, else one.
fn plain_at(s: &[u8], p: usize) -> usize
    requires { (2 ≤ p) × (p < length s.now) }
    ensures { result ≡ cond (ins_at s.now p) 0 1 }
{
    if inserted_at(s, p) {
        return 0;
    }
    1
}

// Takes n bytes of the payload to the place `at` of the output, byte by byte, and answers the place behind them. An inserted byte is written too, and the
// byte behind it is then written over it: no branch turns on the bytes.
pub fn take_slow(s: &[u8], p: usize, e: usize, n: usize, out: &mut [u8], at: usize) -> usize
    requires le_p { (2 ≤ p) × (p ≤ e) × (e ≤ length s.now) }
    requires n_in_bounds { n ≤ length (kept s.now p e) }
    requires n_in_bounds_2 { at + n ≤ length out.old }
    ensures { Took s.now p e n out.old at out.new result }
{
    let mut q = p;
    let mut i = 0;
    // no `for`: how many bytes of the stretch are passed is known only behind them
    while i < n {
        out[at + i] = s[q];
        i += plain_at(s, q);
        q += 1;
    }
    q
}

// Whether none of the n bytes from the place p on is an inserted one.
pub fn calm(s: &[u8], p: usize, n: usize) -> bool
    requires { (2 ≤ p) × (p + n ≤ length s.now) }
    ensures { result ≡ eqb (ins_count s.now p (p + n)) 0 }
{
    at_each(p, p + n, |q| !inserted_at(s, q))
}

// How many of the n bytes from the place p on are inserted ones. A count of one byte makes vector code of the loop.
fn count_few(s: &[u8], p: usize, n: usize) -> usize
    requires { (2 ≤ p) × (n ≤ 255) × (p + n ≤ length s.now) }
    ensures { result ≡ ins_count s.now p (p + n) }
{
    let mut c: u8 = 0;
    for q in p..p + n {
        c += u8::from(inserted_at(s, q));
    }
    usize::from(c)
}

// How many of the bytes from the place p up to e are inserted ones.
pub fn count_inserted(s: &[u8], p: usize, e: usize) -> usize
    requires { (2 ≤ p) × (p ≤ e) × (e ≤ length s.now) }
    ensures { result ≡ ins_count s.now p e }
{
    let whole = (e - p) / 224;
    let mut c = 0;
    for i in 0..whole {
        c += count_few(s, p + 224 * i, 224);
    }
    let q = p + 224 * whole;
    c + count_few(s, q, e - q)
}

// The length of the payload of the unit that begins with its header at o and ends at e.
pub fn payload_len(s: &[u8], o: usize, e: usize) -> usize
    requires le_o { (1 ≤ o) × (o < e) × (e ≤ length s.now) }
    requires nonzero { 0 < get_or s.now o 0 }
    ensures { result ≡ length (un (drop 1 (part s.now o (e - o)))) }
{
    e - (o + 1) - count_inserted(s, o + 1, e)
}

// The same where no inserted byte stands from the place c on: only those before it are counted.
pub fn payload_len_to(s: &[u8], o: usize, e: usize, c: usize) -> usize
    requires le_o { (1 ≤ o) × (o < e) × (e ≤ length s.now) }
    requires nonzero { 0 < get_or s.now o 0 }
    requires e_value { ins_count s.now c e ≡ 0 }
    ensures { result ≡ length (un (drop 1 (part s.now o (e - o)))) }
{
    if o < c && c < e {
        return e - (o + 1) - count_inserted(s, o + 1, c);
    }
    payload_len(s, o, e)
}

// A place behind the payload's next n bytes. As many bytes of the stretch are passed, and then as many again as were inserted among them.
pub fn skip(s: &[u8], p: usize, e: usize, n: usize) -> usize
    requires le_p { (2 ≤ p) × (p ≤ e) × (e ≤ length s.now) }
    requires n_in_bounds { n ≤ length (kept s.now p e) }
    ensures { Passed s.now p e n result }
{
    let mut q = p;
    let mut left = n;
    // no `for`: it counts no index, and how often it turns is known only at its end
    while left > 0 {
        let m = count_inserted(s, q, q + left);
        q += left;
        left = m;
    }
    q
}

// Whether the three bytes from the place p on are two zeros of payload and an inserted byte.
fn pair(s: &[u8], p: usize) -> bool
    requires { (2 ≤ p) × (p + 3 ≤ length s.now) }
    ensures { result ≡ zero_pair s.now p }
{
    if inserted_at(s, p) {
        return s[p + 1] | s[p + 2] == 0;
    }
    if inserted_at(s, p + 1) {
        return s[p + 2] == 0;
    }
    inserted_at(s, p + 2)
}

// Whether the 3 * n bytes from the place p on are n pairs of zeros of payload, an inserted byte in each, in all at the same place.
pub fn pairs(s: &[u8], p: usize, n: usize) -> bool
    requires { (2 ≤ p) × (1 ≤ n) × (p + 3 * n ≤ length s.now) }
    ensures { result ≡ zero_pairs s.now p n }
{
    let m = 3 * (n - 1);
    pair(s, p) && at_each(p, p + m, |q| s[q] == s[q + 3])
}

// The place behind the payload's next n bytes, where these are zeros in such pairs.
#[tactic(auto, using(crate::specs::Kept::kept_room))]
pub fn zeros(s: &[u8], p: usize, e: usize, n: usize) -> Option<usize>
    requires le_p { (2 ≤ p) × (p ≤ e) × (e ≤ length s.now) }
    requires n_in_bounds { n ≤ length (kept s.now p e) }
    ensures { result ≡ behind_zeros s.now p e n }
{
    let m = n / 2;
    if m > 0 && 2 * m == n && 3 * m <= e - p && pairs(s, p, m) {
        return Some(p + 3 * m);
    }
    None
}

// A place behind the payload's next n bytes, where inserted bytes stand among them: pairs of zeros are passed at once, others by their counts.
fn pass_marked(s: &[u8], p: usize, e: usize, n: usize) -> usize
    requires le_p { (2 ≤ p) × (p ≤ e) × (e ≤ length s.now) }
    requires n_in_bounds { n ≤ length (kept s.now p e) }
    ensures { Passed s.now p e n result }
{
    match zeros(s, p, e, n) {
        Some(r) => r,
        None => skip(s, p, e, n),
    }
}

// A place behind the payload's next n bytes, where no inserted byte stands from the place c on. Calm bytes are passed as they stand.
#[tactic(auto, using(crate::specs::Kept::kept_room))]
pub fn pass(s: &[u8], p: usize, e: usize, c: usize, n: usize) -> usize
    requires le_p { (2 ≤ p) × (p ≤ e) × (e ≤ length s.now) }
    requires n_in_bounds { n ≤ length (kept s.now p e) }
    requires e_value { ins_count s.now c e ≡ 0 }
    ensures { Passed s.now p e n result }
{
    if c <= p {
        return p + n;
    }
    if calm(s, p, n) {
        return p + n;
    }
    pass_marked(s, p, e, n)
}

// Writes n zeros at the place `at` of the output.
pub fn write_zeros(out: &mut [u8], at: usize, n: usize)
    requires { at + n ≤ length out.old }
    ensures { out.new ≡ splice out.old at (replicate n 0) }
{
    out[at..at + n].fill(0);
}

// Takes 2 * n bytes of the payload to the place `at` of the output, where inserted bytes stand among them: zeros at once, others byte by byte. Inline: with a
// call, pictures with runs of zeros are read more slowly (docs/LOOK-BACK.md, d).
#[inline(always)]
fn take_marked(s: &[u8], p: usize, e: usize, n: usize, out: &mut [u8], at: usize) -> usize
    requires le_p { (2 ≤ p) × (p ≤ e) × (e ≤ length s.now) }
    requires le_n { (1 ≤ n) × (2 * n ≤ length (kept s.now p e)) }
    requires n_in_bounds { at + 2 * n ≤ length out.old }
    ensures { Took s.now p e (2 * n) out.old at out.new result }
{
    if 3 * n <= e - p && pairs(s, p, n) {
        write_zeros(out, at, 2 * n);
        return p + 3 * n;
    }
    take_slow(s, p, e, 2 * n, out, at)
}

// Takes a row of N bytes of the payload to the place `at` of the output, and answers a place behind them. The test looks at 16 bytes at a time, one vector: at
// some behind a narrower row too, and at some of a wider one twice.
#[tactic(auto, using(crate::specs::Kept::kept_room))]
fn take_fixed<const N: usize>(s: &[u8], p: usize, e: usize, out: &mut [u8], at: usize) -> usize
    requires le_p { (2 ≤ p) × (p ≤ e) × (e ≤ length s.now) }
    requires width { (2 ≤ N) × (N ≤ 32) × (2 * (N / 2) ≡ N) }
    requires in_bounds { N ≤ length (kept s.now p e) }
    requires at_in_bounds { at + N ≤ length out.old }
    ensures { Took s.now p e N out.old at out.new result }
{
    if (N >= 16 || e - p >= 16) && calm(s, p, 16) && (N <= 16 || calm(s, p + (N - 16), 16)) {
        rows::copy_fixed::<N>(s, p, out, at);
        return p + N;
    }
    take_marked(s, p, e, N / 2, out, at)
}

// Takes n bytes of the payload to the place `at` of the output, the widths of a picture's rows by code of their own, and answers a place behind them.
pub fn take_row(s: &[u8], p: usize, e: usize, n: usize, out: &mut [u8], at: usize) -> usize
    requires le_p { (2 ≤ p) × (p ≤ e) × (e ≤ length s.now) }
    requires n_in_bounds { n ≤ length (kept s.now p e) }
    requires n_in_bounds_2 { at + n ≤ length out.old }
    ensures { Took s.now p e n out.old at out.new result }
{
    match n {
        8 => take_fixed::<8>(s, p, e, out, at),
        12 => take_fixed::<12>(s, p, e, out, at),
        16 => take_fixed::<16>(s, p, e, out, at),
        24 => take_fixed::<24>(s, p, e, out, at),
        _ => take_slow(s, p, e, n, out, at),
    }
}
