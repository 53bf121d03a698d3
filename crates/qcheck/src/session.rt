// A job as it runs: the systems by name, and the claim with its tables.
ghost use Rattle.std.specs.Prelude.{◌≡◌, ◌≢◌, ◌≤◌, length, codes, is_ok, IfOk, IsSomeAnd, Some, None, Ok, Err};
ghost use Rattle.std.specs.BTreeMap.{get_by_text};
ghost use Rattle.formulas.specs.declared.refusal.Refusal.TheVariants.{NoFormula};
ghost use Rattle.formulas.specs.Tables.{stands_in, contents};
ghost use Rattle.claims.specs.Claims.{Opened};

use crate::case::{Case, MOST_ENTRIES, Store, remove_from};
use crate::refused::Refused;
use crate::show::{Filled, print_claim};
use crate::stack::{Bench, MOST_PILED, judge_stack};
use crate::words::{LineFault, action_set, number, promise_text, split, target};
use claims::claim::Claim;
use claims::fault::Refusal;
use claims::opening::open;
use claims::tables::{Tables, TablesMut};
use formulas::draft::Draft;
use formulas::read::read;
use std::alloc::{AllocError, Global};
use std::collections::BTreeMap;
use std::rc::Rc;
use systems::actions::ActionSet;
use systems::any::AnySystem;
use systems::component::Component;
use systems::empty::Empty;
use systems::fault::{Fault, MountFault};
use systems::lane::Lane;
use systems::records::MoveRecord;
use systems::system::{System, Target};

// A component whose moves are still being read.
#[derive(Drop)]
struct Started {
    name: String,
    states: u32,
    moves: Vec<MoveRecord>,
    targets: Vec<Target>,
}

#[derive(Drop)]
pub struct Session {
    heap: Global,
    shared: ActionSet,
    systems: BTreeMap<String, Rc<AnySystem>>,
    started: Option<Started>,
    case: Option<Case>,
}

impl Session {
    pub fn new(heap: Global) -> Session
        ensures { result.case ≡ None }
    {
        Session {
            heap,
            shared: ActionSet::empty(),
            systems: BTreeMap::new(heap),
            started: None,
            case: None,
        }
    }

    // Runs one line of a job.
    pub fn run_line(&mut self, rt: &HostRuntime, line: &str) -> anyhow::Result<()> {
        if let Some(text) = promise_text(line) {
            self.finish_component(rt)?;
            return self.promise(rt, text);
        }
        let words = split(self.heap, line)?;
        match words.as_slice() {
            [] => Ok(()),
            ["move", state, action, targets @ ..] => self.add_move(state, action, targets),
            command => {
                self.finish_component(rt)?;
                self.run_command(rt, command)
            }
        }
    }

    fn run_command(&mut self, rt: &HostRuntime, command: &[&str]) -> anyhow::Result<()> {
        match command {
            ["shared", actions @ ..] => {
                self.shared = action_set(actions)?;
                Ok(())
            }
            ["component", name, states] => self.start_component(name, states),
            ["lane", name, capacity, put, take, loss] => {
                let lane = Lane::new(
                    number(capacity)?,
                    number(put)?,
                    number(take)?,
                    number(loss)?,
                );
                self.make_lane(rt, name, lane)
            }
            ["judge", stack @ ..] => self.judge_piled(rt, command, stack),
            ["show"] => self.show(rt),
            ["remove", name] => self.remove(rt, name),
            ["simplify"] => self.simplify(rt),
            ["witness", name, _, _] => {
                self.find(name)?;
                self.not_yet(rt, command)
            }
            [word, ..] => Err(LineFault::NotACommand(word).into()),
            [] => Ok(()),
        }
    }

    // A command on the claim that this version does not have.
    fn not_yet(&self, rt: &HostRuntime, command: &[&str]) -> anyhow::Result<()> {
        let written = command.join(self.heap, " ")?;
        println!(rt; "{written}: not in this version")?;
        Ok(())
    }

    // The system of a name.
    fn find(&self, name: &str) -> anyhow::Result<Rc<AnySystem>>
        ensures { IfOk result (λ r. IsSomeAnd (get_by_text self.now.systems name.now) (λ s. r.value ≡ s.value)) }
    {
        let system = self.systems.get(name).ok_or(LineFault::UnknownName(name))?;
        Ok(system.clone()?)
    }

    // Gives a system its name.
    fn keep(&mut self, name: &str, system: AnySystem) -> anyhow::Result<()>
        ensures { IfOk result (λ _. IsSomeAnd (get_by_text self.new.systems name.now) (λ r. r.value ≡ system)) }
    {
        let name = String::from_str(self.heap, name)?;
        let system = Rc::new(self.heap, system)?;
        self.systems.insert(name, system)?;
        Ok(())
    }

    // A name may be given once, and is no word of the judge line.
    fn check_fresh<'a>(&self, name: &'a str) -> Result<(), LineFault<'a>>
        ensures { IfOk result (λ _. get_by_text self.now.systems name.now ≡ None) }
    {
        if matches!(name, "empty" | "over") || self.systems.contains_key(name) {
            return Err(LineFault::NameTaken(name));
        }
        Ok(())
    }

    fn start_component(&mut self, name: &str, states: &str) -> anyhow::Result<()> {
        self.check_fresh(name)?;
        self.started = Some(Started {
            name: String::from_str(self.heap, name)?,
            states: number(states)?,
            moves: Vec::new(self.heap),
            targets: Vec::new(self.heap),
        });
        Ok(())
    }

    fn add_move(&mut self, state: &str, action: &str, targets: &[&str]) -> anyhow::Result<()> {
        let state = number(state)?;
        let action = number(action)?;
        let started = self.started.as_mut().ok_or(LineFault::NoComponent)?;
        started.add_move(state, action, targets)
    }

    // Mounts the component whose moves have been read, and prints what came of it.
    pub fn finish_component(&mut self, rt: &HostRuntime) -> anyhow::Result<()> {
        let Some(started) = self.started.take() else {
            return Ok(());
        };
        let name = started.name.as_str();
        match Component::mount(
            self.heap,
            started.states,
            started.moves.as_slice(),
            started.targets.as_slice(),
        ) {
            Ok(component) => {
                let states = component.states();
                let breadth = component.breadth();
                let moves = started.moves.len();
                println!(rt;
                    "component {name}: {states} states, {moves} moves, breadth {breadth}"
                )?;
                self.keep(name, AnySystem::Component(component))
            }
            // want of memory ends the job
            Err(MountFault::NoMemory) => Err(AllocError.into()),
            Err(fault) => {
                let refused = Refused::from(fault);
                println!(rt; "component {name}: {refused}")?;
                Ok(())
            }
        }
    }

    fn make_lane(
        &mut self,
        rt: &HostRuntime,
        name: &str,
        made: Result<Lane, Fault>,
    ) -> anyhow::Result<()> {
        self.check_fresh(name)?;
        match made {
            Ok(lane) => {
                let states = lane.states();
                let breadth = lane.breadth();
                println!(rt; "lane {name}: {states} states, breadth {breadth}")?;
                self.keep(name, AnySystem::Lane(lane))
            }
            Err(fault) => {
                let refused = Refused::from(fault);
                println!(rt; "lane {name}: {refused}")?;
                Ok(())
            }
        }
    }

    // Reads a promise into fresh tables and opens it; a refused one leaves no claim.
    fn promise(&mut self, rt: &HostRuntime, text: &str) -> anyhow::Result<()> {
        self.case = None;
        // each entry has a word of its own in the text
        let mut store = Store::blank(self.heap, text.len().min(MOST_ENTRIES))?;
        match read_claim(text, &mut store, self.shared) {
            Ok(claim) => {
                let filled = Filled(claim.fills());
                self.case = Some(Case { claim, store });
                println!(rt; "promise: {filled}")?;
            }
            Err(refused) => println!(rt; "promise: {refused}")?,
        }
        Ok(())
    }

    // The shared actions of the claim, or those of the next one.
    fn shared_actions(&self) -> ActionSet
        ensures { result ≡ elim self.now.case [ Some c ↦ c.claim.shared | None ↦ self.now.shared ] }
    {
        self.case
            .as_ref()
            .map_or(self.shared, |case| case.claim.shared())
    }

    fn remove(&mut self, rt: &HostRuntime, name: &str) -> anyhow::Result<()> {
        let system = self.system_of(name, self.shared_actions())?;
        let Some(case) = self.case.take() else {
            println!(rt; "remove {name}: no claim")?;
            return Ok(());
        };
        let case = match remove_from(self.heap, case, &system)? {
            Ok((case, fills)) => {
                let filled = Filled(fills);
                let mass = case.claim.mass();
                println!(rt; "remove {name}: {filled}, mass {mass}")?;
                case
            }
            Err((case, refusal)) => {
                let refused = Refused::from(refusal);
                println!(rt; "remove {name}: {refused}")?;
                case
            }
        };
        self.case = Some(case);
        Ok(())
    }

    fn simplify(&mut self, rt: &HostRuntime) -> anyhow::Result<()> {
        let Some(case) = &mut self.case else {
            println!(rt; "simplify: no claim")?;
            return Ok(());
        };
        match case.simplify(self.heap)? {
            Ok(fills) => {
                let filled = Filled(fills);
                println!(rt; "simplify: {filled}")?;
            }
            Err(refusal) => {
                let refused = Refused::from(refusal);
                println!(rt; "simplify: {refused}")?;
            }
        }
        Ok(())
    }

    // The systems of a judge line, the first on top; the words between them are `over`.
    fn stack_of(&self, words: &[&str], shared: ActionSet) -> anyhow::Result<Vec<Rc<AnySystem>>>
        ensures { IfOk result (λ v. length v.items ≤ 6) }
    {
        let mut stack = Vec::new(self.heap);
        for pair in words.chunks(2) {
            if let [name, ..] = pair {
                stack.push(self.system_of(name, shared)?)?;
            }
            if let [_, word] = pair
                && *word != "over"
            {
                return Err(LineFault::NotOver(word).into());
            }
        }
        if words.len() % 2 == 0 || stack.len() > MOST_PILED {
            return Err(LineFault::NotAStack.into());
        }
        Ok(stack)
    }

    // The system of a name, or the empty system of a shared set.
    fn system_of(&self, name: &str, shared: ActionSet) -> anyhow::Result<Rc<AnySystem>>
        ensures empty { name.now ≡ codes "empty" → IfOk result (λ r. r.value ≡ AnySystem.Empty (record { shared = shared })) }
        ensures named { name.now ≢ codes "empty" → IfOk result (λ r. IsSomeAnd (get_by_text self.now.systems name.now) (λ s. r.value ≡ s.value)) }
    {
        if name == "empty" {
            return Ok(Rc::new(self.heap, AnySystem::Empty(Empty { shared }))?);
        }
        self.find(name)
    }

    fn judge_piled(
        &self,
        rt: &HostRuntime,
        command: &[&str],
        words: &[&str],
    ) -> anyhow::Result<()> {
        let written = command.join(self.heap, " ")?;
        let mut stack = self.stack_of(words, self.shared_actions())?;
        let (Some(case), Some(lowest)) = (&self.case, stack.pop()) else {
            println!(rt; "{written}: no claim")?;
            return Ok(());
        };
        let bench = Bench {
            heap: self.heap,
            claim: &case.claim,
            tables: case.store.tables(),
        };
        match judge_stack(&bench, &mut stack, lowest)? {
            Ok(verdict) => println!(rt; "{written}: {verdict}")?,
            Err(refused) => println!(rt; "{written}: {refused}")?,
        }
        Ok(())
    }

    fn show(&self, rt: &HostRuntime) -> anyhow::Result<()> {
        match &self.case {
            Some(case) => print_claim(rt, &case.claim, case.store.tables())?,
            None => println!(rt; "show: no claim")?,
        }
        Ok(())
    }
}

impl Started {
    fn add_move(&mut self, state: u32, action: u32, targets: &[&str]) -> anyhow::Result<()> {
        // what does not fit is beyond every limit of a component's tables
        let first = u32::try_from(self.targets.len()).unwrap_or(u32::MAX);
        let count = u32::try_from(targets.len()).unwrap_or(u32::MAX);
        for word in targets {
            self.targets.push(target(word)?)?;
        }
        self.moves.push(MoveRecord {
            state,
            action,
            first,
            count,
        })?;
        Ok(())
    }
}

// Reads a promise into the tables and opens it.
fn read_claim(text: &str, store: &mut Store, shared: ActionSet) -> Result<Claim, Refused>
    ensures { IfOk result (λ c. (c.mass ≡ 1) × (c.shared ≡ shared)) }
{
    let draft = read(
        text.as_bytes(),
        &mut TablesMut {
            nodes: &mut store.nodes[..],
            terms: &mut store.terms[..],
            alternatives: &mut store.alternatives[..],
        },
    )?;
    Ok(open_on(draft, store.tables(), shared)?)
}

// Opens a draft; a refused one is let go.
fn open_on(draft: Draft, tables: Tables, shared: ActionSet) -> Result<Claim, Refusal>
    ensures accepted { is_ok result ≡ stands_in draft.fills draft.root 1 (contents tables.entry) }
    ensures outcome { elim result [ Ok c ↦ Opened draft shared c | Err e ↦ e ≡ NoFormula ] }
{
    open(draft, tables, shared).map_err(|(_, refusal)| refusal)
}
