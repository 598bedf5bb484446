//! How long a text may be.

ghost use Rattle.std.specs.Prelude.{◌≡◌, ◌==◌, ◌<◌, length};
ghost use Rattle.nz_script.specs.Bytes.{newline};
ghost use Rattle.nz_check.specs.Checked as checked;

/// The longest text that is judged, in bytes.
pub const MAX_PRINTED: usize = 8_388_608;

fn ends_line(byte: u8) -> bool
    ensures { result ≡ (byte == newline) }
{
    byte == b'\n'
}

/// The line of the first byte beyond the limit, from 1.
pub fn line_of_limit(bytes: &[u8]) -> u32
    requires { MAX_PRINTED < length bytes.now }
    ensures { result ≡ checked.line_of_limit bytes.now }
{
    let (within, _) = bytes.split_at(MAX_PRINTED);
    let mut line = 1;
    for byte in within {
        if ends_line(*byte) {
            line += 1;
        }
    }
    line
}
