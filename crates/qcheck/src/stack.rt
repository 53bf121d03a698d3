// Judging a claim on systems piled over one another.
ghost use Rattle.std.specs.Prelude.{◌≡◌, ℕ, ◌+◌, ◌≤◌, length, IfOk};
ghost use Rattle.systems.specs.Any.{any_meaning};
ghost use Rattle.qcheck.specs.Answers.{answer_on, answer_over, answer_to, meanings, Told, ToldOver};

use crate::refused::Refused;
use claims::claim::Claim;
use claims::judge::judge;
use claims::tables::Tables;
use claims::verdict::Verdict;
use std::alloc::{AllocError, Global};
use std::marker::PhantomData;
use std::rc::Rc;
use systems::any::AnySystem;
use systems::fault::Fault;
use systems::pile::Pile;
use systems::system::System;

// How many systems one command may pile.
pub const MOST_PILED: usize = 6;

// How long a truth table the program makes at most; a longer need is refused by the call.
const LONGEST_TABLE: u64 = 268435456;

// What a claim is judged with.
#[derive(Drop)]
pub struct Bench<'a> {
    pub heap: Global,
    pub claim: &'a Claim,
    pub tables: Tables<'a>,
}

// A verdict, or why there is none.
pub type Answer = Result<Verdict, Refused>;

// Judges on one system, with tables of its own.
fn judge_one<S: System>(bench: &Bench, system: &S) -> Result<Answer, AllocError>
    ensures told { IfOk result (Told (S.System.meaning system.now) bench.now.claim.now bench.now.tables) }
    ensures answer { IfOk result (λ a. a ≡ answer_on (S.System.meaning system.now) bench.now.claim.now bench.now.tables) }
{
    let nodes = bench.claim.fills().nodes;
    let need = nodes as u64 * system.states() as u64;
    let mut truth = vec![in bench.heap; 0u8; need.min(LONGEST_TABLE) as usize]?;
    let mut row = vec![in bench.heap; 0u8; nodes as usize]?;
    let judged = judge(
        bench.claim,
        bench.tables,
        system,
        truth.as_mut_slice(),
        row.as_mut_slice(),
    );
    Ok(judged.map_err(Refused::from))
}

// How many systems may be piled over one. A function may not call itself at a larger type, so each
// system piled takes one off this type.
trait Room {
    ghost room: { ℕ };

    // Judges on what is left of the stack over a system.
    fn judge_over<S: System + Drop>(
        bench: &Bench,
        stack: &mut Vec<Rc<AnySystem>>,
        system: S,
    ) -> Result<Answer, AllocError>
        ensures told { IfOk result (ToldOver stack.old.items (S.System.meaning system) bench.now.claim.now bench.now.tables) }
        ensures answer { length stack.old.items ≤ room → IfOk result (λ a. a ≡ answer_over (meanings stack.old.items) (S.System.meaning system) bench.now.claim.now bench.now.tables) };
}

// Room for no more.
struct Full;

// Room for one more.
struct More<R: Room>(PhantomData<R>);

impl Room for Full {
    ghost room = { 0 };

    fn judge_over<S: System + Drop>(
        bench: &Bench,
        stack: &mut Vec<Rc<AnySystem>>,
        system: S,
    ) -> Result<Answer, AllocError> {
        if stack.is_empty() {
            judge_one(bench, &system)
        } else {
            Ok(Err(Refused::System(Fault::Size)))
        }
    }
}

impl<R: Room> Room for More<R> {
    ghost room = { R.Room.room + 1 };

    fn judge_over<S: System + Drop>(
        bench: &Bench,
        stack: &mut Vec<Rc<AnySystem>>,
        system: S,
    ) -> Result<Answer, AllocError> {
        let Some(upper) = stack.pop() else {
            return judge_one(bench, &system);
        };
        match Pile::new(upper, system, bench.claim.shared()) {
            Ok(pile) => R::judge_over(bench, stack, pile),
            Err((_, _, fault)) => Ok(Err(Refused::System(fault))),
        }
    }
}

// As many as `MOST_PILED` allows over the lowest one.
type FiveMore = More<More<More<More<More<Full>>>>>;

// Judges on the systems of the stack over the lowest one, the first on top.
pub fn judge_stack(
    bench: &Bench,
    stack: &mut Vec<Rc<AnySystem>>,
    lowest: Rc<AnySystem>,
) -> Result<Answer, AllocError>
    ensures told { IfOk result (ToldOver stack.old.items (any_meaning lowest.value) bench.now.claim.now bench.now.tables) }
    ensures answer { IfOk result (λ a. a ≡ answer_to (meanings stack.old.items) (any_meaning lowest.value) bench.now.claim.now bench.now.tables) }
{
    if stack.len() >= MOST_PILED {
        return Ok(Err(Refused::System(Fault::Size)));
    }
    FiveMore::judge_over(bench, stack, lowest)
}
