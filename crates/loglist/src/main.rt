// Lists a log table: the table is standard input, its text goes to standard output.
#![tactic(auto)]

ghost use Rattle.std.specs.Prelude.{◌≤◌, length, IfOk};

use std::io::{self, Read};

// Reads until the buffer is full or the input ends, and says how many bytes came.
fn read_full<R: Read>(input: &mut R, table: &mut [u8]) -> io::Result<usize>
    ensures { IfOk result (λ n. n ≤ length table.new) }
{
    // A read may give fewer bytes than there is room for, so this is no `for`; `read_to_end` would need a heap.
    let mut n = 0;
    while n < table.len() {
        let k = input.read(&mut table[n..])?;
        if k == 0 {
            break;
        }
        n += k;
    }
    Ok(n)
}

fn print(rt: &HostRuntime, table: &[u8]) -> io::Result<()> {
    let mut out = [0u8; 4096];
    let n = listing::pieces(table);
    let mut i = 0;
    // Each turn goes on at the piece that did not fit in the turn before, so this is no `for`.
    while i < n {
        let part = listing::fill(&mut out, table, i);
        rt.write_all(&out[..part.count])?;
        i = part.next;
    }
    Ok(())
}

// The text begins with the number of sectors, so all input is read before any text is written. The array holds the longest
// table, 65,536 bytes, and one byte more, by which longer input is told from it.
fn main(rt: HostRuntime) -> io::Result<()> {
    let mut table = [0u8; 65537];
    let n = read_full(&mut rt.reader(), &mut table)?;
    print(&rt, &table[..n])
}
