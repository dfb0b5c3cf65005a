// Bytes in hexadecimal.
// Letters: `rt` what prints, `s` bytes that are read.
use std::io;

fn wide(b: u8) -> u64 {
    b as u64
}

// The bytes from one place to another, two digits each; none where there aren't so many.
pub fn hex<R: Print>(rt: &R, s: &[u8], from: usize, to: usize) -> io::Result<()> {
    if s.len() < to {
        return Ok(());
    }
    for i in from..to {
        print!(rt; "{:02x}", wide(s[i]))?;
    }
    Ok(())
}
