// A table as a host that damages it would leave it.
// Letters: `rt` what prints, `v` a number.
ghost use Rattle.std.specs.Prelude.{◌≡◌, set};

use std::io;

// Puts a number into a word of the table, where the table has that word, and answers 0 in any case.
pub fn poke<R: Print>(rt: &R, table: &mut [u64], word: u64, v: u64) -> io::Result<()>
    ensures { table.new ≡ set table.old word v }
{
    if word < table.len() as u64 {
        table[word as usize] = v;
    }
    println!(rt; "0")
}
