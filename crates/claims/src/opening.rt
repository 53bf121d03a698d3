// Turning a draft into a claim.
ghost use Rattle.std.specs.Prelude.{◌≡◌, is_ok, Ok, Err};
ghost use Rattle.formulas.specs.declared.refusal.Refusal.TheVariants.{NoFormula};
ghost use Rattle.formulas.specs.Tables.{stands_in, contents};
ghost use Rattle.claims.specs.Claims.{Opened};
ghost use Rattle.claims.specs.Law.{LawOfRuns};

use crate::claim::Claim;
use crate::fault::Refusal;
use crate::law::runs_stand;
use crate::tables::Tables;
use formulas::draft::Draft;
use formulas::stands::formula_in;
use systems::actions::ActionSet;

// The claim of a draft, if the tables hold its formula. A refused draft is given back.
fn claim_of(draft: Draft, tables: Tables, shared: ActionSet) -> Result<Claim, (Draft, Refusal)>
    ensures accepted { is_ok result ≡ stands_in draft.fills draft.root 1 (contents tables.entry) }
    ensures outcome { elim result [ Ok c ↦ Opened draft shared c | Err e ↦ e ≡ (draft, NoFormula) ] }
{
    let standing = draft.standing();
    let removed = 1;
    if !formula_in(standing, removed, tables) {
        return Err((draft, Refusal::NoFormula));
    }
    Ok(Claim::new(standing, removed, shared))
}

// Opens a draft as a new claim, whose runs of calls keep to the law. A refused draft is given back.
pub fn open(draft: Draft, tables: Tables, shared: ActionSet) -> Result<Claim, (Draft, Refusal)>
    ensures accepted { is_ok result ≡ stands_in draft.fills draft.root 1 (contents tables.entry) }
    ensures outcome { elim result [ Ok c ↦ Opened draft shared c | Err e ↦ e ≡ (draft, NoFormula) ] }
    ensures law { LawOfRuns }
{
    runs_stand();
    claim_of(draft, tables, shared)
}
