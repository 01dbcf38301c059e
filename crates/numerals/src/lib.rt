// Numbers and samples read from a part of a text, and put on a page, which is a lent text.
#![tactic(auto)]

ghost use Rattle.std.specs.Prelude.{◌≡◌, ℕ, IfSome, ◌+◌, ◌-◌, ◌≤◌, ◌<◌, ℤ, pos, neg_ℤ, [], ◌∷◌, length};
ghost use Rattle.std.proofs.lemmas.List.Edits.{sets};
ghost use Rattle.numerals.specs.Decimal.{decimal};
ghost use Rattle.numerals.specs.Samples.{sample_text};
ghost use Rattle.numerals.specs.Reading.{digits_of, number_of, sample_of};

// The number that the whole of s writes, at most limit.
pub(crate) fn read_digits(s: &[u8], limit: u32) -> Option<u32>
    ensures value { result ≡ digits_of s.now limit }
    ensures within { IfSome result (λ v. v ≤ limit) }
{
    if s.is_empty() || 1 < s.len() && s[0] == b'0' {
        return None;
    }
    let mut value: u64 = 0;
    for digit in s {
        if !digit.is_ascii_digit() {
            return None;
        }
        value = value * 10 + (*digit - b'0') as u64;
        if (limit as u64) < value {
            return None;
        }
    }
    Some(value as u32)
}

// The number of 0 to 255 that the whole of s writes.
#[tactic(auto, unfolding(crate::specs::Reading::number_of))]
pub fn read_number(s: &[u8]) -> Option<u8>
    ensures { result ≡ number_of s.now }
{
    let value = read_digits(s, 255)?;
    Some(value as u8)
}

// The sample v. It and `minus` differ in the bound that makes their casts exact, so they are two.
fn plus(v: u32) -> i32
    requires { v < 2147483648 }
    ensures { result ≡ pos v }
{
    v as i32
}

// The sample -v.
fn minus(v: u32) -> i32
    requires { v ≤ 2147483648 }
    ensures { result ≡ neg_ℤ (pos v) }
{
    -(v as i64) as i32
}

// The sample that the whole of s writes; -0 is none.
#[tactic(auto, using(crate::proofs::SampleLaws::sample_zero))]
pub fn read_sample(s: &[u8]) -> Option<i32>
    ensures { result ≡ sample_of s.now }
{
    if s.is_empty() {
        return None;
    }
    if s[0] == b'-' {
        let value = read_digits(&s[1..], 2147483648)?;
        if value == 0 {
            return None;
        }
        return Some(minus(value));
    }
    let value = read_digits(s, 2147483647)?;
    Some(plus(value))
}

// How many digits n has.
fn number_length(n: usize) -> usize
    ensures { result ≡ length (decimal n) }
{
    let mut rest = n;
    let mut count: usize = 1;
    while 10 <= rest {
        rest /= 10;
        count += 1;
    }
    count
}

// Stores the digits of n from the start of text on, as far as it reaches: the last one first.
fn store_digits(text: &mut [u8], count: usize, n: usize)
    requires { count ≡ length (decimal n) }
    ensures { text.new ≡ sets text.old 0 (decimal n) }
{
    let mut rest = n;
    for i in (0..count).rev() {
        if i < text.len() {
            text[i] = b'0' + (rest % 10) as u8;
        }
        rest /= 10;
    }
}

// A lent text, and the place where its next byte goes. A byte past the end of the text is stored nowhere, and counted all the same.
#[derive(Drop)]
pub struct Page<'a> {
    text: &'a mut [u8],
    at: usize,
    ghost reach: { length text.now ≤ 18446744073709551615 },
    ghost reached: { at ≤ 18446744073709551615 },
}

impl<'a> Page<'a> {
    ghost use Rattle.numerals.specs.Places.{Wrote};

    // The page of a text, at its start.
    pub fn new(text: &'a mut [u8]) -> Page<'a>
        ensures same { result.text.ghost_name ≡ text.entry.ghost_name }
        ensures text { result.text.now ≡ text.old }
        ensures start { result.at ≡ 0 }
    {
        Page { text, at: 0 }
    }

    // The page of a text, at a place of it, or past its end.
    pub fn starting_at(text: &'a mut [u8], place: usize) -> Page<'a>
        ensures same { result.text.ghost_name ≡ text.entry.ghost_name }
        ensures text { result.text.now ≡ text.old }
        ensures start { result.at ≡ place }
    {
        Page { text, at: place }
    }

    // The place where the next byte goes: on a page that began at its start, how many bytes were put.
    pub fn count(&self) -> usize
        ensures { result ≡ self.now.at }
    {
        self.at
    }

    // Puts one byte.
    pub fn put_byte(&mut self, b: u8)
        ensures { Wrote self.old (b ∷ []) self.new }
    {
        if self.at < self.text.len() {
            self.text[self.at] = b;
        }
        self.at = self.at.saturating_add(1);
    }

    // Puts the bytes of w: at once where none of them fits or all do, one by one where some do.
    pub fn put_bytes(&mut self, w: &[u8])
        ensures { Wrote self.old w.now self.new }
    {
        if self.text.len() <= self.at {
            self.at = self.at.saturating_add(w.len());
        } else if w.len() <= self.text.len() - self.at {
            let end = self.at + w.len();
            self.text[self.at..end].copy_from_slice(w);
            self.at = end;
        } else {
            for byte in w {
                self.put_byte(*byte);
            }
        }
    }

    // Puts the digits of n, however many, each straight to its place.
    fn put_long(&mut self, n: usize)
        ensures { Wrote self.old (decimal n) self.new }
    {
        let count = number_length(n);
        let end = self.at.saturating_add(count);
        if self.at < self.text.len() {
            store_digits(&mut self.text[self.at..], count, n);
        }
        self.at = end;
    }

    // Puts the digits of n. One or two digits, as most numbers of a text have, are put without a loop: that takes the largest table with no step from
    // 1.6 to 1.5 times the instructions of the plain program (`tests/benchmark/run`).
    pub fn put_number(&mut self, n: usize)
        ensures { Wrote self.old (decimal n) self.new }
    {
        if n < 10 {
            self.put_byte(b'0' + n as u8);
        } else if n < 100 {
            self.put_byte(b'0' + (n / 10) as u8);
            self.put_byte(b'0' + (n % 10) as u8);
        } else {
            self.put_long(n);
        }
    }

    // Puts the text of a sample.
    pub fn put_sample(&mut self, z: i32)
        ensures { Wrote self.old (sample_text z) self.new }
    {
        if z < 0 {
            self.put_byte(b'-');
        }
        self.put_number(z.unsigned_abs() as usize);
    }
}
