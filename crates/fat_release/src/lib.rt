// Release: the marks of freed clusters, and a sector of FAT2 with them freed. A chain is walked once for each 32 sectors that hold
// clusters.
#![tactic(auto)]

ghost use Rattle.std.specs.Prelude.{◌≡◌, false, ℕ, ◌+◌, ◌*◌, ◌/◌, ◌%◌, ◌≤◌, ◌<◌, eqb, length, get_or};
ghost use Rattle.model.specs.Bytes.{pick};
ghost use Rattle.model.specs.Fat.{entry};
ghost use Rattle.model.specs.Chain.{chain};
ghost use Rattle.model.specs.Promises.{Held};
ghost use Rattle.fat_copy.specs.Change.{own_fat};
ghost use Rattle.fat_release.specs.Release.{bit_of, mark_of, Inside, Marked};

use model::Layout;

// Marks cluster k, if it is one of the 8,192 from `from` on. Each has one bit.
fn mark(marks: &mut [u8], from: u32, k: u32)
    requires { length marks.old ≡ 1024 }
    ensures { (i : ℕ) → i < 8192 → mark_of marks.new i ≡ pick (eqb (from + i) k) 1 (mark_of marks.old i) }
{
    if from <= k && k - from < 8192 {
        let i = (k - from) as usize;
        marks[i / 8] |= 1 << (i % 8);
    }
}

// The marks for sector s: made anew where 32 sectors begin, by a walk along the m clusters from `first` on. Where no cluster is freed no
// byte need be lent for them.
pub fn mark_block(w: &[u8], l: Layout, marks: &mut [u8], s: u32, first: u32, m: u32)
    requires { Held l w.now × (0 < m → length marks.old ≡ 1024) × (s < l.fatsize) × Inside l (chain (entry (own_fat l w.now)) m first)
        × ((s % 32 ≡ 0 → ⊥) → Marked (chain (entry (own_fat l w.now)) m first) (8192 * (s / 32)) marks.old) }
    ensures { Marked (chain (entry (own_fat l w.now)) m first) (8192 * (s / 32)) marks.new }
{
    if s % 32 != 0 {
        return;
    }
    marks.fill(0);
    let from = 256 * s;
    if l.clusters + 2 <= from {
        return;
    }
    let mut k = first;
    for _ in 0..m {
        mark(marks, from, k);
        k = fat_read::entry_at(w, l.fat1, k);
    }
}

// Whether one of the 256 clusters from `at` on is marked. The loop has no way out but its end: so the compiler looks at sixteen
// bytes at once.
pub fn has_mark(marks: &[u8], at: usize) -> bool
    requires { (at % 8 ≡ 0) × (at + 256 ≤ 8192) × (length marks.now % 1024 ≡ 0) }
    ensures { result ≡ false → (i : ℕ) → i < 256 → mark_of marks.now (at + i) ≡ 0 }
{
    if marks.is_empty() {
        return false;
    }
    let mut seen = false;
    for i in 0..32 {
        seen |= marks[at / 8 + i] != 0;
    }
    seen
}

// Clears those of eight entries, 16 bytes from 16 * k on, that the bits of m mark.
fn clear_eight(buf: &mut [u8], k: usize, m: u8)
    requires { (length buf.old ≡ 512) × (k < 32) }
    ensures { ((j : ℕ) → j / 16 ≡ k → get_or buf.new j 0 ≡ pick (eqb (bit_of m (j / 2 % 8)) 0) (get_or buf.old j 0) 0)
        × ((j : ℕ) → (j / 16 ≡ k → ⊥) → get_or buf.new j 0 ≡ get_or buf.old j 0) }
{
    if m == 0 {
        return;
    }
    for i in 0..16 {
        if (m >> (i / 2)) % 2 == 1 {
            buf[16 * k + i] = 0;
        }
    }
}

// Clears the entries that the marks from `at` on name, in the buffer of a sector. Eight that have no mark are passed over.
pub fn clear_marked(buf: &mut [u8], marks: &[u8], at: usize)
    requires { (length buf.old ≡ 512) × (at % 8 ≡ 0) × (at + 256 ≤ 8192) × (length marks.now % 1024 ≡ 0) }
    ensures { (j : ℕ) → j < 512 → get_or buf.new j 0 ≡ pick (eqb (mark_of marks.now (at + j / 2)) 0) (get_or buf.old j 0) 0 }
{
    if marks.is_empty() {
        return;
    }
    for k in 0..32 {
        clear_eight(buf, k, marks[at / 8 + k]);
    }
}
