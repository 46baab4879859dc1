// Root entries and log records, built field by field, and laid into a sector.
#![tactic(auto)]

ghost use Rattle.std.specs.Prelude.{◌≡◌, ◌+◌, ◌*◌, ◌%◌, ◌≤◌, ◌<◌, length};
ghost use Rattle.model.specs.Bytes.{bytes_of, overlay, patch};
ghost use Rattle.operations.specs.Finish.{set_name, set_stamp, new_entry};

use model::Name;

// The n bytes from `at` on hold the number v, whose higher bytes are dropped.
pub fn put(out: &mut [u8], at: usize, n: usize, v: u64)
    requires { at + n ≤ length out.old }
    ensures { bytes_of out.new ≡ patch n v at (bytes_of out.old) }
{
    let mut rest = v;
    for k in 0..n {
        out[at + k] = (rest % 256) as u8;
        rest /= 256;
    }
}

// The same in the 32 bytes of a slot or record, which are small enough to be given back.
pub fn set(mut b: [u8; 32], at: usize, n: usize, v: u32) -> [u8; 32]
    requires { at + n ≤ 32 }
    ensures { bytes_of result ≡ patch n v at (bytes_of b) }
{
    put(&mut b, at, n, u64::from(v));
    b
}

pub fn set_name(b: [u8; 32], name: Name) -> [u8; 32]
    ensures { bytes_of result ≡ set_name name (bytes_of b) }
{
    let mut b = set(b, 8, 3, name.extension);
    put(&mut b, 0, 8, name.stem);
    b
}

// An entry that is written at a stamp: its low two bytes are the write time, the high two the write date and the access date.
pub fn set_stamp(b: [u8; 32], stamp: u32) -> [u8; 32]
    ensures { bytes_of result ≡ set_stamp stamp (bytes_of b) }
{
    let (date, time) = (stamp / 65536, stamp % 65536);
    let b = set(b, 18, 2, date);
    let b = set(b, 24, 2, date);
    set(b, 22, 2, time)
}

// The entry of a new file: attributes 0x20, and all dates from its stamp.
pub fn new_entry(name: Name, stamp: u32) -> [u8; 32]
    ensures { bytes_of result ≡ new_entry name stamp }
{
    let (date, time) = (stamp / 65536, stamp % 65536);
    let b = set_stamp([0u8; 32], stamp);
    let b = set(b, 16, 2, date);
    let b = set(b, 14, 2, time);
    let b = set(b, 11, 1, 0x20);
    set_name(b, name)
}

// 32 bytes become slot or record k of a buffer.
pub fn lay(buf: &mut [u8], k: usize, b: &[u8; 32])
    requires { 32 * k + 32 ≤ length buf.old }
    ensures { bytes_of buf.new ≡ overlay 32 (bytes_of b.now) (32 * k) (bytes_of buf.old) }
{
    sector::copy(buf, 32 * k, b, 0, 32);
}
