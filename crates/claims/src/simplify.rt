// Simplifying a claim in its own tables.
ghost use Rattle.std.specs.Prelude.{is_err};
ghost use Rattle.formulas.specs.Tables.{held, SameLoans};
ghost use Rattle.simplification.specs.Tables.{desk};
ghost use Rattle.claims.specs.Books.{simplifying, entry, Book, fed, stage, Stands};
ghost use Rattle.claims.specs.Law.{LeftSettled};
ghost use Rattle.claims.specs.Simplifications.{Simplifies};

use crate::claim::Claim;
use crate::fault::Refusal;
use crate::law::books_stand;
use formulas::node::Fills;
use formulas::tables::TablesMut;
use simplification::in_place::simplify_in_place;

// Simplifies a claim's formula in its own tables, and says how much of each table it uses then.
// The map needs an entry for each node, and is cleared. A refusal changes nothing.
pub fn simplify(
    claim: &mut Claim,
    tables: &mut TablesMut,
    map: &mut [u32],
) -> Result<Fills, Refusal>
    ensures lent { SameLoans tables.old tables.new }
    ensures outcome { Simplifies claim.old (desk (held tables.old) map.old) result claim.new (desk (held tables.new) map.new) }
    ensures settled { LeftSettled result claim.new (held tables.new) }
    ensures book { (k : Book) → Stands k (stage claim.old (held tables.old)) → Stands (fed k (entry simplifying (is_err result))) (stage claim.new (held tables.new)) }
{
    books_stand();
    let standing = claim.standing();
    let new = simplify_in_place(standing, claim.mass(), tables, map)?;
    claim.take_up(new);
    Ok(new.fills)
}
