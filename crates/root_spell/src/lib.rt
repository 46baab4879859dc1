// The slots of a new name: the entries of its long name, and its own.
#![tactic(auto)]

ghost use Rattle.std.specs.Prelude.{◌≡◌, ◌+◌, ◌-◌, ◌*◌, ◌%◌, ◌≤◌, ◌<◌, length};
ghost use Rattle.model.specs.Bytes.{bytes_of};
ghost use Rattle.model.specs.Long.{order_byte};
ghost use Rattle.model.specs.Record.{text_room};
ghost use Rattle.model.specs.LongName.{spelled, fill, name_entry};
ghost use Rattle.operations.specs.Finish.{name_slot};

use model::Entry;

// What is written for character q of a text of n: the character, one zero after the last, then 0xFFFF.
fn spelled(t: &[u8], n: u32, q: u32) -> u32
    requires { 2 * n ≤ length t.now }
    ensures { result ≡ spelled (bytes_of t.now) n q }
{
    if q < n {
        root_names::character(t, q as usize)
    } else if q == n {
        0
    } else {
        0xFFFF
    }
}

// The thirteen places of an entry, filled from character q on.
fn fill(mut b: [u8; 32], t: &[u8], n: u32, q: u32) -> [u8; 32]
    requires { (2 * n ≤ length t.now) × (q < 1000000) }
    ensures { bytes_of result ≡ fill (λ k. spelled (bytes_of t.now) n (q + k)) (bytes_of b) 13 }
{
    for k in 0..13 {
        sector_build::put(
            &mut b,
            root_names::place(k) as usize,
            2,
            u64::from(spelled(t, n, q + k)),
        );
    }
    b
}

// The first byte of entry i of n: the last bears 0x40.
fn order_byte(n: u32, i: u32) -> u32
    requires { i < 65536 }
    ensures { result ≡ order_byte n i }
{
    if i == n { 0x40 + i } else { i }
}

// Entry i of the long name that is a text of n characters, for a name with this checksum.
fn name_entry(sum: u32, t: &[u8], n: u32, i: u32) -> [u8; 32]
    requires { (2 * n ≤ length t.now) × (n < 65536) × (1 ≤ i) × (i < 65536) }
    ensures { bytes_of result ≡ name_entry sum (bytes_of t.now) n i }
{
    let b = sector_build::set([0u8; 32], 13, 1, sum);
    let b = sector_build::set(b, 11, 1, 0x0F);
    let b = sector_build::set(b, 0, 1, order_byte(root_names::long_slots(n), i));
    fill(b, t, n, 13 * (i - 1))
}

// Slot k of a new name: its own, or one of those before it.
pub fn name_slot(e: Entry, stamp: u32, t: &[u8], k: u32) -> [u8; 32]
    requires { (length t.now % 2 ≡ 0) × (length t.now ≤ text_room) × (k ≤ e.slot) × (e.slot < 65536) }
    ensures { bytes_of result ≡ name_slot e stamp (bytes_of t.now) k }
{
    let own = sector_build::new_entry(e.name, stamp);
    if k == e.slot {
        return own;
    }
    let sum = u32::from(root_names::checksum(&own, 0));
    name_entry(sum, t, root_names::text_length(t), e.slot - k)
}
