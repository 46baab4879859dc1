// Text put into a lent buffer.
#![tactic(auto)]

ghost use Rattle.std.specs.Prelude.{◌≡◌, [], ◌∷◌, ◌++◌, ◌+◌, ◌≤◌, ◌<◌, length};
ghost use Rattle.model.specs.Bytes.{bytes_of, part};
ghost use Rattle.model.specs.Text.{decimal};
ghost use Rattle.model.specs.Listing.{shown_byte, shown_name};
ghost use Rattle.listing_text.specs.Wrote.{Put, trimmed_length, shown};

// A lent buffer, and where the text in it ends.
#[derive(Drop)]
pub struct Text<'a> {
    pub out: &'a mut [u8],
    pub end: usize,
}

impl<'a> Text<'a> {
    pub fn byte(&mut self, b: u8)
        requires { self.old.end < length self.old.out.now }
        ensures { Put (b ∷ []) self.old self.new }
    {
        self.out[self.end] = b;
        self.end += 1;
    }

    #[tactic(auto, using(crate::proofs::Buffer::put_copied))]
    pub fn text(&mut self, text: &[u8])
        requires { self.old.end + length text.now ≤ length self.old.out.now }
        ensures { Put text.now self.old self.new }
    {
        let end = self.end + text.len();
        self.out[self.end..end].copy_from_slice(text);
        self.end = end;
    }

    // A number in decimal: the digits before its last, then that one.
    #[tactic(auto, using(crate::proofs::Laws::decimals))]
    fn decimal(&mut self, n: u32)
        requires { self.old.end + length (decimal n) ≤ length self.old.out.now }
        ensures { Put (decimal n) self.old self.new }
    {
        if n < 10 {
            self.byte(digit(n));
        } else {
            self.decimal(n / 10);
            self.byte(digit(n % 10));
        }
    }

    // A word and a number, which has at most 10 digits.
    #[tactic(auto, using(crate::proofs::Laws::decimals))]
    pub fn field(&mut self, word: &[u8], n: u32)
        requires { self.old.end + length word.now + 10 ≤ length self.old.out.now }
        ensures { Put (word.now ++ decimal n) self.old self.new × (self.new.end ≤ self.old.end + length word.now + 10) }
    {
        self.text(word);
        self.decimal(n);
    }

    // The k bytes from `from` on as they are shown.
    #[tactic(auto, using(crate::proofs::Laws::shows))]
    fn shown(&mut self, s: &[u8], from: usize, k: usize)
        requires { (from + k ≤ length s.now) × (self.old.end + k ≤ length self.old.out.now) }
        ensures { Put (shown k (part (bytes_of s.now) from)) self.old self.new × (self.new.end ≡ self.old.end + k) }
    {
        for b in &s[from..from + k] {
            self.byte(shown_byte(*b));
        }
    }

    // The name in the 11 bytes from `from` on, with a dot only before a filled extension.
    pub fn name(&mut self, s: &[u8], from: usize)
        requires { (from + 11 ≤ length s.now) × (self.old.end + 12 ≤ length self.old.out.now) }
        ensures { Put (shown_name (part (bytes_of s.now) from)) self.old self.new × (self.new.end ≤ self.old.end + 12) }
    {
        let n = trimmed_length(s, from, 8);
        let e = trimmed_length(s, from + 8, 3);
        self.shown(s, from, n);
        if e != 0 {
            self.byte(b'.');
            self.shown(s, from + 8, e);
        }
    }
}

fn digit(n: u32) -> u8
    requires { n < 10 }
    ensures { result ≡ 48 + n }
{
    b'0' + n as u8
}

// A byte of a name as it is shown.
#[tactic(auto, unfolding(model::specs::Listing::shown_byte, model::specs::Scan::between))]
fn shown_byte(b: u8) -> u8
    ensures { result ≡ shown_byte b }
{
    if b.is_ascii_graphic() { b } else { b'?' }
}

// How many of the n bytes from `from` on are left when trailing spaces are dropped.
fn trimmed_length(s: &[u8], from: usize, n: usize) -> usize
    requires { from + n ≤ length s.now }
    ensures { (result ≡ trimmed_length n (part (bytes_of s.now) from)) × (result ≤ n) }
{
    for k in (0..n).rev() {
        if s[from + k] != b' ' {
            return k + 1;
        }
    }
    0
}
