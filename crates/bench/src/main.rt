// Reads a run file on standard input and writes its listing, or the one line of its refusal: `answer_text` of the bytes that were read.
#![tactic(auto)]

ghost use Rattle.std.specs.Prelude.{◌≡◌, ◌⊎◌, ℕ, ◌≤◌, ◌<◌, List, length, take, IfOk, OnOk};
ghost use Rattle.std.specs.Io.KnownBytes.{Consumes, Appends, IsAtEnd};
ghost use Rattle.answer.specs.Answer.{answer_text};

use std::io::{self, Read, Write};

// Fills a text from its start until it is full or the input ends, and gives how many bytes were read.
fn read_full<R: Read>(input: &mut R, text: &mut [u8]) -> io::Result<usize>
    ensures within { IfOk result (λ n. n ≤ length text.new) }
    ensures consumed { IfOk result (λ n. Consumes (R.remaining input.old) (R.remaining input.new) (take n text.new)) }
    ensures ended { IfOk result (λ n. n < length text.new → IsAtEnd (R.remaining input.new)) }
{
    let mut done = 0;
    // A `while`: a turn goes on by as many bytes as were read.
    while done < text.len() {
        let n = input.read(&mut text[done..])?;
        if n == 0 {
            return Ok(done);
        }
        done += n;
    }
    Ok(done)
}

// What is printed for a text, at the front of a list that has room for every answer.
fn answered<'a>(text: &[u8], out: &'a mut [u8; 12288]) -> &'a [u8]
    ensures { result.now ≡ answer_text text.now }
{
    let Ok(m) = answer::answer(text, out) else {
        return &out[..0];
    };
    &out[..m]
}

// Answers an input: what is written is what is printed for the bytes t that were read, all that there were, or one more than a run file may have.
fn answer_input<R: Read, W: Write>(input: &mut R, output: &mut W) -> io::Result<()>
    ensures written { OnOk result ((t : List ℕ) × Consumes (R.remaining input.old) (R.remaining input.new) t
        × (IsAtEnd (R.remaining input.new) ⊎ (length t ≡ 65537)) × Appends (W.contents output.old) (W.contents output.new) (answer_text t)) }
{
    let mut text = [0u8; 65537];
    let n = read_full(input, &mut text)?;
    let mut out = [0u8; 12288];
    output.write_all(answered(&text[..n], &mut out))
}

fn main(rt: HostRuntime) -> io::Result<()> {
    answer_input(&mut rt.stdin(), &mut io::writer(&rt))
}
