// One line of a run file and its fields.
ghost use Rattle.std.specs.Prelude.{◌≡◌, ◌+◌, ◌-◌, ◌≤◌, length, take, drop};
ghost use Rattle.runfile.specs.Spelling.{step_word};
ghost use Rattle.runfile.specs.Reading.{parts, number_after, operation_of};
ghost use Rattle.runfile.specs.Twins.{until, Free};
ghost use Rattle.reader.specs.Twins.{PassSays, LineSays, ShortSays, put_in};

use limits::Kind;
use runfile::Operation;

// The place of the first byte x of s at or after a; the length of s if there is none. It is not inlined: that takes the largest table with no step from
// 1.85 to 1.51 times the instructions of the plain program (`tests/benchmark/run`).
#[inline(never)]
pub(crate) fn find(s: &[u8], a: usize, x: u8) -> usize
    requires { a ≤ length s.now }
    ensures { result ≡ a + until x (drop a s.now) }
{
    for i in a..s.len() {
        if s[i] == x {
            return i;
        }
    }
    s.len()
}

// Where the field after the word w begins, where the line from a to e begins with that word and a tab.
pub(crate) fn pass_word(text: &[u8], a: usize, e: usize, w: &[u8]) -> Option<usize>
    requires { (a ≤ e) × (e ≤ length text.now) }
    ensures { PassSays a (take (e - a) (drop a text.now)) w.now result }
{
    let n = w.len();
    if e - a <= n {
        return None;
    }
    let b = a + n;
    if text[b] == b'\t' && check::same(&text[a..b], w) {
        return Some(b + 1);
    }
    None
}

// The number of the line from a to e, where its fields are the word w and a number.
pub(crate) fn read_pair(text: &[u8], a: usize, e: usize, w: &[u8]) -> Option<u8>
    requires { (a ≤ e) × ((e ≤ length text.now) × Free 9 w.now) }
    ensures { result ≡ number_after w.now (parts 9 (take (e - a) (drop a text.now))) }
{
    let f = pass_word(text, a, e, w)?;
    numerals::read_number(&text[f..e])
}

// The line that begins at a, where it is one of the word w and a number: the number, and where the next line begins.
pub(crate) fn read_line(text: &[u8], a: usize, w: &[u8]) -> Option<(u8, usize)>
    requires { (a ≤ length text.now) × Free 9 w.now }
    ensures { LineSays w.now text.now a result }
{
    let e = find(text, a, b'\n');
    if text.len() <= e {
        return None;
    }
    let n = read_pair(text, a, e, w)?;
    Some((n, e + 1))
}

// The line that begins at a, where it is a step of one or two digits and not the text's last bytes: most lines of most texts are.
pub(crate) fn read_short(text: &[u8], a: usize) -> Option<(u8, usize)>
    requires { a ≤ length text.now }
    ensures { ShortSays text.now a result }
{
    if text.len() - a < 8 {
        return None;
    }
    let f = a + 5;
    if !check::same(&text[a..f], b"step\t") {
        return None;
    }
    let c = text[f];
    if !c.is_ascii_digit() {
        return None;
    }
    let d = text[f + 1];
    if d == b'\n' {
        return Some((c - b'0', f + 2));
    }
    if c != b'0' && d.is_ascii_digit() && text[f + 2] == b'\n' {
        return Some(((c - b'0') * 10 + (d - b'0'), f + 3));
    }
    None
}

// The line that begins at a, where it is a step.
pub(crate) fn read_step(text: &[u8], a: usize) -> Option<(u8, usize)>
    requires { a ≤ length text.now }
    ensures { LineSays step_word text.now a result }
{
    let Some(step) = read_short(text, a) else {
        return read_line(text, a, b"step");
    };
    Some(step)
}

// The put of the line from a to e.
pub(crate) fn read_put(text: &[u8], a: usize, e: usize) -> Option<Operation>
    requires { (a ≤ e) × (e ≤ length text.now) }
    ensures { result ≡ put_in (parts 9 (take (e - a) (drop a text.now))) }
{
    let f = pass_word(text, a, e, b"put")?;
    let u = find(&text[..e], f, b'\t');
    if e <= u {
        return None;
    }
    let thread = numerals::read_number(&text[f..u])?;
    let g = u + 1;
    let sample = numerals::read_sample(&text[g..e])?;
    Some(Operation {
        thread,
        kind: Kind::Put,
        sample,
    })
}

// The operation of the line from a to e.
pub(crate) fn read_op(text: &[u8], a: usize, e: usize) -> Option<Operation>
    requires { (a ≤ e) × (e ≤ length text.now) }
    ensures { result ≡ operation_of (parts 9 (take (e - a) (drop a text.now))) }
{
    let Some(thread) = read_pair(text, a, e, b"take") else {
        return read_put(text, a, e);
    };
    Some(Operation {
        thread,
        kind: Kind::Take,
        sample: 0,
    })
}
