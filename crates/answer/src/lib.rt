// What is printed for a text: the listing of the run it holds, or the one line of its refusal.
#![tactic(auto)]

ghost use Rattle.answer.specs.Answer.{AnswerSays};

use limits::{Input, Refusal, Table};
use reader::Lent;

// The bytes that are printed for a text, written from the start of out on where they fit. With 12,288 bytes they always do.
pub fn answer(text: &[u8], out: &mut [u8]) -> Result<usize, Refusal>
    ensures { AnswerSays text.now out.old result out.new }
{
    let mut thread = [0; 128];
    let mut kind = [0; 128];
    let mut sample = [0; 128];
    let mut schedule = [0; 4096];
    let mut lent = Lent {
        thread: &mut thread,
        kind: &mut kind,
        sample: &mut sample,
        schedule: &mut schedule,
    };
    let read = reader::read_run(text, &mut lent);
    match read {
        Err(refusal) => listing::list_refusal(refusal, out),
        Ok(sizes) => {
            let input = Input {
                threads: sizes.threads as usize,
                slots: sizes.slots as usize,
                table: Table {
                    thread: &thread[..sizes.operations],
                    kind: &kind[..sizes.operations],
                    sample: &sample[..sizes.operations],
                },
                schedule: &schedule[..sizes.steps],
            };
            listing::list_run(&input, out)
        }
    }
}
