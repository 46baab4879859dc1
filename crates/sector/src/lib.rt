// Bytes and numbers of a card's sectors; whole sectors compared, loaded, and stored as far as a limit allows.
#![tactic(auto)]

ghost use Rattle.std.specs.Prelude.{◌≡◌, ℕ, ◌+◌, ◌*◌, ◌≤◌, ◌<◌, length, get_or, not, [], ◌∷◌, eqb};
ghost use Rattle.model.specs.Sector.{card_of, clip, store};
ghost use Rattle.model.specs.Promises.{Number, Spent};
ghost use Rattle.model.specs.Bytes.{bytes_of, overlay, part, zeros};
ghost use Rattle.model.specs.Fat.{same};
ghost use Rattle.model.specs.Scan.{all};

use model::Stopped;

// Byte j of sector s. The slice may end within the sector, after the bytes that are read; so for the numbers below.
pub fn byte(w: &[u8], s: u32, j: u32) -> u32
    requires { (512 * s + (j + 1) ≤ length w.now) × (j < 512) }
    ensures { (result ≡ card_of w.now s j) × (result < 256) }
{
    u32::from(w[512 * s as usize + j as usize])
}

// The number in the N bytes from j on, the lowest first.
pub fn le<const N: usize>(w: &[u8], s: u32, j: u32) -> u32
    requires { (512 * s + (j + N) ≤ length w.now) × (j + N ≤ 512) × (N ≤ 4) }
    ensures { Number N (card_of w.now s) j result }
{
    let mut v = 0;
    for k in (0..N).rev() {
        v = 256 * v + byte(w, s, j + k as u32);
    }
    v
}

// In 8 bytes.
pub fn le64(w: &[u8], s: u32, j: u32) -> u64
    requires { (512 * s + (j + 8) ≤ length w.now) × (j + 8 ≤ 512) }
    ensures { Number 8 (card_of w.now s) j result }
{
    u64::from(le::<4>(w, s, j)) + 4294967296 * u64::from(le::<4>(w, s, j + 4))
}

// n bytes of one slice, from a place on, into another at a place.
pub fn copy(out: &mut [u8], at: usize, src: &[u8], from: usize, n: usize)
    requires { (at + n ≤ length out.old) × (from + n ≤ length src.now) }
    ensures { (i : ℕ) → get_or out.new i 0 ≡ overlay n (part (bytes_of src.now) from) at (bytes_of out.old) i }
{
    out[at..at + n].copy_from_slice(&src[from..from + n]);
}

// The bytes of sector s.
pub fn bytes(w: &[u8], s: u32) -> &[u8]
    requires { 512 * s + 512 ≤ length w.now }
    ensures { (length result.now ≡ 512) × (clip (bytes_of result.now) ≡ card_of w.now s) }
{
    let at = 512 * s as usize;
    &w[at..at + 512]
}

// Whether two slices hold the same 512 bytes. The loop has no way out but its end, and keeps one truth: so the compiler compares sixteen
// bytes at once. `==` of slices leaves at a group that differs, and takes half as long again (docs/LOOK-BACK.md).
fn alike(a: &[u8], b: &[u8]) -> bool
    requires { (length a.now ≡ 512) × (length b.now ≡ 512) }
    ensures { result ≡ same (bytes_of a.now) (bytes_of b.now) }
{
    let mut alike = true;
    for j in 0..512 {
        alike &= a[j] == b[j];
    }
    alike
}

// Whether two sectors hold different bytes.
pub fn differs(w: &[u8], s: u32, t: u32) -> bool
    requires { (512 * s + 512 ≤ length w.now) × (512 * t + 512 ≤ length w.now) }
    ensures { result ≡ not (same (card_of w.now s) (card_of w.now t)) }
{
    !alike(bytes(w, s), bytes(w, t))
}

// Whether all sixteen parts of 32 bytes of a sector begin 0: slots or records that were never used. The loop has no way out but its
// end: so there is one test for all of them.
pub fn is_blank(w: &[u8], s: u32) -> bool
    requires { 512 * s + 512 ≤ length w.now }
    ensures { result ≡ all (λ i. eqb (card_of w.now s (32 * i)) 0) 16 }
{
    let start = 512 * s as usize;
    let mut blank = true;
    for i in 0..16 {
        blank = blank & (w[start + 32 * i] == 0);
    }
    blank
}

// Whether a buffer holds other bytes than a sector.
pub fn alters(buf: &[u8; 512], w: &[u8], s: u32) -> bool
    requires { 512 * s + 512 ≤ length w.now }
    ensures { result ≡ not (same (bytes_of buf.now) (card_of w.now s)) }
{
    !alike(buf, bytes(w, s))
}

// The bytes of a sector.
pub fn load(w: &[u8], s: u32) -> [u8; 512]
    requires { 512 * s + 512 ≤ length w.now }
    ensures { clip (bytes_of result) ≡ card_of w.now s }
{
    let mut buf = [0u8; 512];
    copy(&mut buf, 0, w, 512 * s as usize, 512);
    buf
}

// The one function that changes a card: stores 512 bytes as the sector that is lent, if the limit allows a store.
pub fn overwrite(part: &mut [u8], bytes: &[u8], limit: &mut u32) -> Result<(), Stopped>
    requires { (length part.old ≡ 512) × (length bytes.now ≡ 512) }
    ensures { Spent limit.old limit.new (store 0 (bytes_of bytes.now) ∷ []) part.old part.new result }
{
    if *limit == 0 {
        return Err(Stopped);
    }
    copy(part, 0, bytes, 0, 512);
    *limit -= 1;
    Ok(())
}

// Stores 512 bytes as a sector of a window, if the limit allows a store. Only the sector is lent to be written.
pub fn store_sector(w: &mut [u8], s: u32, bytes: &[u8], limit: &mut u32) -> Result<(), Stopped>
    requires { (512 * s + 512 ≤ length w.old) × (length bytes.now ≡ 512) }
    ensures { Spent limit.old limit.new (store s (bytes_of bytes.now) ∷ []) w.old w.new result }
{
    let at = 512 * s as usize;
    overwrite(&mut w[at..at + 512], bytes, limit)
}

// The same for 512 zeros.
pub fn store_zeros(w: &mut [u8], s: u32, limit: &mut u32) -> Result<(), Stopped>
    requires { 512 * s + 512 ≤ length w.old }
    ensures { Spent limit.old limit.new (store s zeros ∷ []) w.old w.new result }
{
    store_sector(w, s, &[0u8; 512], limit)
}
