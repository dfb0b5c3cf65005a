// Letters, words and texts.
// Letters: `rt` what prints, `b` a byte, `w` a word.
use std::io;

pub fn letter<R: Print>(rt: &R, b: u8) -> io::Result<()> {
    rt.write_all(&[b])
}

pub fn say<R: Print>(rt: &R, text: &[u8]) -> io::Result<()> {
    rt.write_all(text)
}

// The letters of a word that stands in a number: up to eight, so that the bytes before the first are 0. A number is cheaper to pass on than an array of text.
pub fn word<R: Print>(rt: &R, w: u64) -> io::Result<()> {
    let mut rest = w;
    for k in 0u64..8 {
        let b = (rest / 0x100_0000_0000_0000 % 256) as u8;
        if b != 0 {
            letter(rt, b)?;
        }
        rest = rest % 0x100_0000_0000_0000 * 0x100;
    }
    Ok(())
}
