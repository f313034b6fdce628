// Check, start and continue under C names, with working memory from the caller, whatever it holds: image, numbers and plan, of a check work
// too. Promised, on every input: the numbers and the whole lent state of crate stal's other three, if the working memory is long enough,
// and what it holds afterwards is free; else 16, line 0, before anything else is looked at, and state and memory as they were. Nothing is
// asked.
ghost use Rattle.std.specs.Prelude.{◌≡◌, ℕ, List, length};
ghost use Rattle.image.specs.Enough.{enough, enough_to_check, Left};
ghost use Rattle.valid_check.specs.Lent.{check_in};
ghost use Rattle.exec_call.specs.Tries.{starting_in, continuing_in};
ghost use Rattle.stal_numbers.specs.Numbers.{verdict, verdict_of, reply, call, call_of, state_in};

use exec_machine::Place;

// Check with working memory lent: 16, line 0, where it is too short.
#[unsafe(no_mangle)]
pub extern "C" fn stal_check_in(
    text: &[u8],
    image: &mut [u16],
    numbers: &mut [u32],
    plan: &mut [u32],
    work: &mut [u16],
    first: &mut usize,
    second: &mut usize,
) -> usize
    ensures { (verdict result first.new second.new ≡ verdict_of (check_in (enough_to_check (length image.old) (length numbers.old) (length plan.old) (length work.old)) text.now)) × Left {A = List ℕ × List ℕ × List ℕ × List ℕ} (enough_to_check (length image.old) (length numbers.old) (length plan.old) (length work.old)) (image.old, numbers.old, plan.old, work.old) (image.new, numbers.new, plan.new, work.new) }
{
    let a = checker::check_in(text, image, numbers, plan, work);
    stal_numbers::put_verdict(a, first, second)
}

// Start a program on samples with working memory lent: 16, line 0, where it is too short.
#[unsafe(no_mangle)]
pub extern "C" fn stal_start_in(
    text: &[u8],
    samples: &[u8],
    budget: usize,
    image: &mut [u16],
    numbers: &mut [u32],
    plan: &mut [u32],
    rk: &mut [u8],
    rn: &mut [u32],
    sk: &mut [u8],
    sn: &mut [u32],
    hk: &mut [u8],
    hn: &mut [u32],
    depth: &mut u32,
    used: &mut usize,
    position: &mut usize,
    first: &mut usize,
    kind: &mut u8,
    number: &mut u32,
) -> usize
    ensures { (call (reply result first.new kind.new number.new) (state_in rk.new rn.new sk.new sn.new hk.new hn.new depth.new used.new position.new) ≡ call_of (starting_in (enough (length image.old) (length numbers.old) (length plan.old)) text.now samples.now budget (state_in rk.old rn.old sk.old sn.old hk.old hn.old depth.old used.old position.old))) × Left {A = List ℕ × List ℕ × List ℕ} (enough (length image.old) (length numbers.old) (length plan.old)) (image.old, numbers.old, plan.old) (image.new, numbers.new, plan.new) }
{
    let from = Place {
        depth: *depth,
        used: *used,
        position: *position,
    };
    let out = execute::lent::start(
        text, samples, budget, image, numbers, plan, rk, rn, sk, sn, hk, hn, from,
    );
    stal_numbers::put_place(out.place, depth, used, position);
    let answer = out.answer;
    stal_numbers::put_reply(answer, first, kind, number)
}

// Continue a program from the lent state with working memory lent: 16, line 0, where it is too short.
#[unsafe(no_mangle)]
pub extern "C" fn stal_continue_in(
    text: &[u8],
    budget: usize,
    image: &mut [u16],
    numbers: &mut [u32],
    plan: &mut [u32],
    rk: &mut [u8],
    rn: &mut [u32],
    sk: &mut [u8],
    sn: &mut [u32],
    hk: &mut [u8],
    hn: &mut [u32],
    depth: &mut u32,
    used: &mut usize,
    position: &mut usize,
    first: &mut usize,
    kind: &mut u8,
    number: &mut u32,
) -> usize
    ensures { (call (reply result first.new kind.new number.new) (state_in rk.new rn.new sk.new sn.new hk.new hn.new depth.new used.new position.new) ≡ call_of (continuing_in (enough (length image.old) (length numbers.old) (length plan.old)) text.now budget (state_in rk.old rn.old sk.old sn.old hk.old hn.old depth.old used.old position.old))) × Left {A = List ℕ × List ℕ × List ℕ} (enough (length image.old) (length numbers.old) (length plan.old)) (image.old, numbers.old, plan.old) (image.new, numbers.new, plan.new) }
{
    let from = Place {
        depth: *depth,
        used: *used,
        position: *position,
    };
    let out = execute::lent::resume(
        text, budget, image, numbers, plan, rk, rn, sk, sn, hk, hn, from,
    );
    stal_numbers::put_place(out.place, depth, used, position);
    let answer = out.answer;
    stal_numbers::put_reply(answer, first, kind, number)
}
