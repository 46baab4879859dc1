// One sector of a FAT: loaded with an entry changed, and stored where it differs.
#![tactic(auto)]

ghost use Rattle.std.specs.Prelude.{◌≡◌, ℕ, ◌+◌, ◌*◌, ◌%◌, ◌≤◌, ◌<◌, ◌-◌, length, get_or};
ghost use Rattle.model.specs.Bytes.{bytes_of, patch};
ghost use Rattle.model.specs.Sector.{card_of};
ghost use Rattle.model.specs.Fat.{fat_at, fat1_of, fat2_of, write_fat};
ghost use Rattle.model.specs.Promises.{Spent, Held};
ghost use Rattle.fat_copy.specs.Change.{lead, renewal};
ghost use Rattle.fat_copy.specs.Copy.{copies};

use model::{Layout, Stopped};

// Puts v into entry k, in the buffer that holds its sector.
pub fn put_entry(buf: &mut [u8], k: u32, v: u32)
    requires { (length buf.old ≡ 512) × (v < 65536) }
    ensures { (j : ℕ) → get_or buf.new j 0 ≡ patch 2 v (2 * (k % 256)) (bytes_of buf.old) j }
{
    let at = 2 * (k % 256) as usize;
    buf[at] = (v % 256) as u8;
    buf[at + 1] = (v / 256) as u8;
}

// Fills a buffer with sector s of a FAT, in which cluster k leads to v.
pub fn load_leading(buf: &mut [u8], w: &[u8], fat: u32, s: u32, k: u32, v: u32)
    requires { (length buf.old ≡ 512) × (512 * (fat + s) + 512 ≤ length w.now) × (fat + s < 4294967296) × (v < 65536) }
    ensures { (j : ℕ) → j < 512 → get_or buf.new j 0 ≡ lead k v (fat_at (card_of w.now) fat) s j }
{
    buf.copy_from_slice(sector::bytes(w, fat + s));
    if k != 0 && k / 256 == s {
        put_entry(buf, k, v);
    }
}

// Stores a buffer as a sector, where they differ.
pub fn store_changed(w: &mut [u8], s: u32, buf: &[u8; 512], limit: &mut u32) -> Result<(), Stopped>
    requires { 512 * s + 512 ≤ length w.old }
    ensures { Spent limit.old limit.new (renewal s (bytes_of buf.now) (card_of w.old s)) w.old w.new result }
{
    if !sector::alters(buf, w, s) {
        return Ok(());
    }
    sector::store_sector(w, s, buf, limit)
}

// One sector onto another, where they differ. Only the sector that is overwritten is lent to be written.
pub fn copy_changed(w: &mut [u8], from: u32, to: u32, limit: &mut u32) -> Result<(), Stopped>
    requires { (512 * from + 512 ≤ length w.old) × (512 * to + 512 ≤ length w.old) }
    ensures { Spent limit.old limit.new (renewal to (card_of w.old from) (card_of w.old to)) w.old w.new result }
{
    if !sector::differs(w, from, to) {
        return Ok(());
    }
    let buf = sector::load(w, from);
    let at = 512 * to as usize;
    sector::overwrite(&mut w[at..at + 512], &buf, limit)
}

// n sectors onto n others, rising. The two ranges have no sector in common.
fn copy_fat(w: &mut [u8], from: u32, to: u32, n: u32, limit: &mut u32) -> Result<(), Stopped>
    requires within { (512 * (from + n) ≤ length w.old) × (512 * (to + n) ≤ length w.old) }
    requires apart { (from + n < 4294967296) × (to + n < 4294967296) × (n ≤ (from - to) + (to - from)) }
    ensures { Spent limit.old limit.new (copies (card_of w.old) from to n) w.old w.new result }
{
    for k in 0..n {
        copy_changed(w, from + k, to + k, limit)?;
    }
    Ok(())
}

// FAT2 onto FAT1: step 4 of an operation. The other way is the recovery of a card with nothing pending; the rules name both.
pub fn to_fat1(w: &mut [u8], l: Layout, limit: &mut u32) -> Result<(), Stopped>
    requires { Held l w.old }
    ensures { Spent limit.old limit.new (write_fat l l.fat1 (fat2_of l (card_of w.old)) (fat1_of l (card_of w.old))) w.old w.new result }
{
    copy_fat(w, l.fat2, l.fat1, l.fatsize, limit)
}

// FAT1 onto FAT2.
pub fn to_fat2(w: &mut [u8], l: Layout, limit: &mut u32) -> Result<(), Stopped>
    requires { Held l w.old }
    ensures { Spent limit.old limit.new (write_fat l l.fat2 (fat1_of l (card_of w.old)) (fat2_of l (card_of w.old))) w.old w.new result }
{
    copy_fat(w, l.fat1, l.fat2, l.fatsize, limit)
}
