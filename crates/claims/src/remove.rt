// Removing a system from a claim: what the rest still owes, written to second tables.
ghost use Rattle.std.specs.Prelude.{is_err};
ghost use Rattle.formulas.specs.Tables.{contents, held, SameLoans};
ghost use Rattle.claims.specs.Books.{removing, entry, Book, fed, stage, Stands};
ghost use Rattle.claims.specs.Removals.{Removes};
ghost use Rattle.claims.specs.Runs.{onward};

use crate::claim::Claim;
use crate::fault::Refusal;
use crate::law::books_stand;
use crate::tables::Tables;
use formulas::node::Fills;
use formulas::tables::TablesMut;
use quotient::divide::divide;
use systems::system::System;

// Removes a system from a claim: the answer is the claim that is left, in the second tables, and its fills.
// A refused claim is given back, and the second tables are as they were.
pub fn remove<S: System>(
    claim: Claim,
    tables: Tables,
    system: &S,
    second: &mut TablesMut,
) -> Result<(Claim, Fills), (Claim, Refusal)>
    ensures lent { SameLoans second.old second.new }
    ensures outcome { Removes (S.meaning system.now) claim (contents tables.entry) (held second.old) result (held second.new) }
    ensures book { (k : Book) → Stands k (stage claim (contents tables.entry)) → Stands (fed k (entry (removing (S.meaning system.now)) (is_err result))) (onward (contents tables.entry) result (held second.new)) }
{
    books_stand();
    let standing = claim.standing();
    let mass = claim.mass();
    let shared = claim.shared();
    // No `map_err`: tried, and goals on the claim that the closure takes stay open, since its values have no names.
    match divide(standing, mass, shared, tables, system, second) {
        Ok(left) => {
            let removed = mass * system.mass();
            Ok((Claim::new(left, removed, shared), left.fills))
        }
        Err(why) => Err((claim, why)),
    }
}
