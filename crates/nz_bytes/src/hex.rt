//! Bytes as two hexadecimal digits each.
ghost use Rattle.std.specs.Prelude.{◌<◌};

use nz_base::NoMemory;
use std::alloc::Global;

fn digit(character: u8) -> u8
    ensures { result < 16 }
{
    match character {
        b'0'..=b'9' => character - b'0',
        b'a'..=b'f' => character - b'a' + 10,
        _ => 0,
    }
}

pub fn bytes_of(alloc: Global, text: &str) -> Result<Vec<u8>, NoMemory> {
    let text = text.as_bytes();
    let mut bytes = Vec::new(alloc);
    for place in 0..text.len() / 2 {
        bytes.push(digit(text[2 * place]) * 16 + digit(text[2 * place + 1]))?;
    }
    Ok(bytes)
}

pub fn hex_of(alloc: Global, bytes: &[u8]) -> Result<String, NoMemory> {
    let mut text = String::new(alloc);
    for byte in bytes {
        text.push_str(format!(in alloc; "{byte:02x}")?.as_str())?;
    }
    Ok(text)
}
