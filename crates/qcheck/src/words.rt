// The words and numbers of a job's lines.
ghost use Rattle.std.specs.Prelude.{◌≡◌, Ok, MatchOption, IsErr};
ghost use Rattle.formulas.specs.Tokens.{numeral_of};

use formulas::tokens::numeral;
use std::alloc::{AllocError, Global};
use systems::actions::ActionSet;
use systems::system::Target;
use thiserror::Error;

// Why a line of a job cannot be understood.
#[derive(Debug, Drop, Error)]
pub enum LineFault<'a> {
    #[error("unknown command or wrong number of words: '{0}'")]
    NotACommand(&'a str),
    #[error("not a number: '{0}'")]
    NotANumber(&'a str),
    #[error("not a target: '{0}'")]
    NotATarget(&'a str),
    #[error("not an action: '{0}'")]
    NotAnAction(&'a str),
    #[error("unknown name '{0}'")]
    UnknownName(&'a str),
    #[error("name is taken: '{0}'")]
    NameTaken(&'a str),
    #[error("in place of over: '{0}'")]
    NotOver(&'a str),
    #[error("judge takes one to six systems, parted by over")]
    NotAStack,
    #[error("a move stands behind its component's line")]
    NoComponent,
}

// The words of a line in front of its comment.
pub fn split<'a>(heap: Global, line: &'a str) -> Result<Vec<&'a str>, AllocError> {
    let (code, _) = line.split_once(';').unwrap_or((line, ""));
    code.split_whitespace().collect(heap)
}

// The text of a promise: what follows that word and its blanks.
pub fn promise_text(line: &str) -> Option<&str> {
    let rest = line.trim_start().strip_prefix("promise")?;
    let ends = rest.is_empty() || rest.starts_with(' ') || rest.starts_with('\t');
    ends.then_some(rest.trim_start())
}

// A numeral; one above 2^30 stands for any number beyond every limit.
pub fn number(word: &str) -> Result<u32, LineFault<'_>>
    ensures { MatchOption (numeral_of word.now) (IsErr result) (λ n. result ≡ Ok n) }
{
    numeral(word.as_bytes()).ok_or(LineFault::NotANumber(word))
}

// A target of a move, as `state:weight`.
pub fn target(word: &str) -> Result<Target, LineFault<'_>> {
    let (state, weight) = word.split_once(':').ok_or(LineFault::NotATarget(word))?;
    Ok(Target {
        state: number(state)?,
        weight: number(weight)? as u64,
    })
}

// The set of the actions that are named.
pub fn action_set<'a>(words: &[&'a str]) -> Result<ActionSet, LineFault<'a>> {
    // A loop with `?`, since `try_fold` is no plainer.
    let mut set = ActionSet::empty();
    for word in words {
        set = set.with(number(word)?).ok_or(LineFault::NotAnAction(word))?;
    }
    Ok(set)
}
