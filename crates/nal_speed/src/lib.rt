// Exports for measuring alone: host/speed/nal.c times them beside memcpy. A host links the crate `reelpony` instead.
#![tactic(auto)]

ghost use Rattle.std.specs.Prelude.{◌≡◌, ◌+◌, drop};
ghost use Rattle.nal_unit.specs.StartCode.{next};
ghost use Rattle.nal_unit.specs.Answers.{length_of, escaped_of, escaped_out, unescaped_length, unescape_of, unescaped_out};

// Escapes a payload, and answers the length, 0 for a refusal.
#[unsafe(no_mangle)]
pub extern "C" fn nal_speed_escape(payload: &[u8], out: &mut [u8]) -> usize
    ensures answer { result ≡ length_of (escaped_of payload.now out.old) }
    ensures bytes { out.new ≡ escaped_out payload.now out.old }
{
    nal_unit::rbsp_to_ebsp(payload, out).unwrap_or(0)
}

// Unescapes a payload, and answers the length, 0 for a refusal.
#[unsafe(no_mangle)]
pub extern "C" fn nal_speed_unescape(ebsp: &[u8], out: &mut [u8]) -> usize
    ensures answer { result ≡ unescaped_length (unescape_of ebsp.now out.old) }
    ensures bytes { out.new ≡ unescaped_out (unescape_of ebsp.now out.old) ebsp.now out.old }
{
    nal_unit::unescape::unescape(ebsp, out).unwrap_or(0)
}

// The place of the next start code, or the end.
#[unsafe(no_mangle)]
pub extern "C" fn nal_speed_next_code(s: &[u8], from: usize) -> usize
    ensures { result ≡ from + next (drop from s.now) }
{
    nal_unit::scan::next_code(s, from)
}
