// The run program: reads program.txt and samples.txt from the current folder, starts with a budget of 1,000,000 and prints how the run
// stopped, or the refusal. A file that cannot be opened counts as empty. Promised (`run_line`), on every text and samples: the bytes to be
// printed are the line of the answer to such a start (`starting` of crate exec, `answer_line` of crate print).
#![tactic(auto)]

ghost use Rattle.std.specs.Prelude.{◌≡◌, ◌≤◌, length, take};
ghost use Rattle.exec.specs.Run.{starting};
ghost use Rattle.print.specs.Lines.{answer_line};
ghost use Rattle.stal_run.specs.Fresh.{fresh};

use exec_machine::Place;
use std::io;
use std::io::Write;

// Writes the line of the answer to a start, and says how many bytes it has.
fn run_line(text: &[u8], samples: &[u8], out: &mut [u8]) -> usize
    requires { 64 ≤ length out.old }
    ensures { (result ≤ length out.new) × (take result out.new ≡ answer_line (starting text.now samples.now 1000000 fresh).answer) }
{
    let mut rk = [0u8; 8];
    let mut rn = [0u32; 8];
    let mut sk = [0u8; 256];
    let mut sn = [0u32; 256];
    let mut hk = [0u8; 2048];
    let mut hn = [0u32; 2048];
    let place = Place {
        depth: 0,
        used: 0,
        position: 0,
    };
    let outcome = execute::start(
        text, samples, 1000000, &mut rk, &mut rn, &mut sk, &mut sn, &mut hk, &mut hn, place,
    );
    print_lines::write_answer(outcome.answer, out).unwrap()
}

// One byte more than a program may have: a longer text is refused for its length, however long. Samples as large as their buffer are
// refused too, however many: at most 16 are wanted, of at most 12 bytes each with the line's end.
fn main(rt: HostRuntime) -> io::Result<()> {
    let mut text = [0u8; 65537];
    let n = read_input::load(&rt, "program.txt", &mut text)?;
    let mut samples = [0u8; 256];
    let k = read_input::load(&rt, "samples.txt", &mut samples)?;
    let mut line = [0u8; 64];
    let l = run_line(&text[..n], &samples[..k], &mut line);
    rt.stdout().write_all(&line[..l])
}
