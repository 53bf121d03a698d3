// Terms, as they are written to the three tables: each node when its term closes, and its terms or alternatives with it.
// `room` more parentheses may open.
ghost use Rattle.std.specs.Prelude.{◌≡◌};
ghost use Rattle.formulas.specs.Lines.{Sort.state, Sort.dist};
ghost use Rattle.formulas.specs.Productions.{sort_of, a_term, inside, pair, negation, diamond as a_diamond, standing, a_sum, threshold as a_threshold, a_quantity, sum_inside, a_product, one_product, products as products_from, an_element};
ghost use Rattle.formulas.specs.Append.{upto, Puts};
ghost use Rattle.formulas.specs.Stores.{SameTables, Parses, Wrote, Factored, Summed};

use crate::append::AppendList;
use crate::fault::GrammarFault;
use crate::lexer::{Start, another, expect, number, start_prob, start_sum, start_term};
use crate::node::{DistNode, Fills, Node, Run, StateNode, Term};
use crate::sort::Sort;
use crate::token::{Lexeme, Token};
use crate::words::Words;
use arrayvec::ArrayVec;

// The terms of a sum, of which there are eight at most.
type Summands = ArrayVec<Term, 8>;

const MOST_ACTION: u64 = 31;
// The largest threshold, and the largest sum of coefficients.
const THOUSAND: u64 = 1000;

// Puts entries behind the filled part of a table, and answers the place of the first.
fn put<T: Copy>(slots: &mut [T], fill: &mut u32, entries: &[T]) -> u32
    ensures { Puts (upto slots.old fill.old) entries.now result (upto slots.new fill.new) }
{
    let mut list = AppendList { slots, fill: *fill };
    let first = list.put_all(entries);
    *fill = list.fill;
    first
}

// A reader of terms: where it stands in the text, the tables, and how much of each it has filled.
// It holds no lists, since the borrow checker does not follow a slice in a struct of a struct.
#[derive(Drop)]
pub(crate) struct Reader<'t, 'a> {
    pub(crate) words: Words<'t>,
    pub(crate) nodes: &'a mut [Node],
    pub(crate) terms: &'a mut [Term],
    pub(crate) alternatives: &'a mut [u32],
    pub(crate) fills: Fills,
}

impl Reader<'_, '_> {
    // A state term: answers the number of its node. The readers of the two sorts call each other, so each sort has its own.
    #[cycle(readers)]
    pub(crate) fn state_term(&mut self, room: u32) -> Result<u32, GrammarFault>
        ensures lent { SameTables self.old self.new }
        ensures took { Parses 1 (a_term room state) (Wrote state) self.old result self.new }
    {
        match start_term(&mut self.words, room)? {
            Start::Constant(yes) => Ok(put(
                self.nodes,
                &mut self.fills.nodes,
                &[Sort::State.constant(yes)],
            )),
            Start::Inside(head) => self.state_inside(room - 1, head),
        }
    }

    // A state term behind its parenthesis and its first token.
    #[cycle(readers)]
    fn state_inside(&mut self, room: u32, head: Lexeme) -> Result<u32, GrammarFault>
        ensures lent { SameTables self.old self.new }
        ensures took { Parses 1 (inside room state head) (Wrote state) self.old result self.new }
    {
        match head.token {
            Token::And => self.pair(Sort::State, room),
            Token::Not => self.negation(Sort::State, room),
            Token::Dia => self.diamond(room),
            Token::Here => self.here(room),
            _ => Err(GrammarFault::Misplaced(head.place)),
        }
    }

    #[cycle(readers)]
    fn diamond(&mut self, room: u32) -> Result<u32, GrammarFault>
        ensures lent { SameTables self.old self.new }
        ensures took { Parses 1 (a_diamond room) (Wrote state) self.old result self.new }
    {
        let action = number(&mut self.words, 0, MOST_ACTION)?;
        let d = self.dist_term(room)?;
        expect(&mut self.words, Token::Close)?;
        let first = put(self.alternatives, &mut self.fills.alternatives, &[d]);
        let step = StateNode::Step {
            action: action as u32,
            moves: Run { first, count: 1 },
            heres: Run {
                first: self.fills.alternatives,
                count: 0,
            },
        };
        Ok(put(self.nodes, &mut self.fills.nodes, &[Node::State(step)]))
    }

    #[cycle(readers)]
    fn here(&mut self, room: u32) -> Result<u32, GrammarFault>
        ensures lent { SameTables self.old self.new }
        ensures took { Parses 1 (standing room) (Wrote state) self.old result self.new }
    {
        let d = self.dist_term(room)?;
        expect(&mut self.words, Token::Close)?;
        let moves = Run {
            first: self.fills.alternatives,
            count: 0,
        };
        let first = put(self.alternatives, &mut self.fills.alternatives, &[d]);
        let step = StateNode::Step {
            action: 0,
            moves,
            heres: Run { first, count: 1 },
        };
        Ok(put(self.nodes, &mut self.fills.nodes, &[Node::State(step)]))
    }

    // A distribution term: answers the number of its node.
    #[cycle(readers)]
    fn dist_term(&mut self, room: u32) -> Result<u32, GrammarFault>
        ensures lent { SameTables self.old self.new }
        ensures took { Parses 1 (a_term room dist) (Wrote dist) self.old result self.new }
    {
        match start_term(&mut self.words, room)? {
            Start::Constant(yes) => Ok(put(
                self.nodes,
                &mut self.fills.nodes,
                &[Sort::Dist.constant(yes)],
            )),
            Start::Inside(head) => self.dist_inside(room - 1, head),
        }
    }

    // A distribution term behind its parenthesis and its first token.
    #[cycle(readers)]
    fn dist_inside(&mut self, room: u32, head: Lexeme) -> Result<u32, GrammarFault>
        ensures lent { SameTables self.old self.new }
        ensures took { Parses 1 (inside room dist head) (Wrote dist) self.old result self.new }
    {
        match head.token {
            Token::And => self.pair(Sort::Dist, room),
            Token::Not => self.negation(Sort::Dist, room),
            Token::AtLeast => self.at_least(room),
            _ => Err(GrammarFault::Misplaced(head.place)),
        }
    }

    // A term of a sort: answers the number of its node.
    #[cycle(readers)]
    fn term(&mut self, sort: Sort, room: u32) -> Result<u32, GrammarFault>
        ensures lent { SameTables self.old self.new }
        ensures took { Parses 1 (a_term room (sort_of sort)) (Wrote (sort_of sort)) self.old result self.new }
    {
        match sort {
            Sort::State => self.state_term(room),
            Sort::Dist => self.dist_term(room),
        }
    }

    #[cycle(readers)]
    fn pair(&mut self, sort: Sort, room: u32) -> Result<u32, GrammarFault>
        ensures lent { SameTables self.old self.new }
        ensures took { Parses 1 (pair room (sort_of sort)) (Wrote (sort_of sort)) self.old result self.new }
    {
        let a = self.term(sort, room)?;
        let b = self.term(sort, room)?;
        expect(&mut self.words, Token::Close)?;
        Ok(put(self.nodes, &mut self.fills.nodes, &[sort.both(a, b)]))
    }

    #[cycle(readers)]
    fn negation(&mut self, sort: Sort, room: u32) -> Result<u32, GrammarFault>
        ensures lent { SameTables self.old self.new }
        ensures took { Parses 1 (negation room (sort_of sort)) (Wrote (sort_of sort)) self.old result self.new }
    {
        let a = self.term(sort, room)?;
        expect(&mut self.words, Token::Close)?;
        Ok(put(self.nodes, &mut self.fills.nodes, &[sort.non(a)]))
    }

    #[cycle(readers)]
    fn at_least(&mut self, room: u32) -> Result<u32, GrammarFault>
        ensures lent { SameTables self.old self.new }
        ensures took { Parses 1 (a_threshold room) (Wrote dist) self.old result self.new }
    {
        let summands = self.sum(room)?;
        let threshold = number(&mut self.words, 0, THOUSAND)?;
        expect(&mut self.words, Token::Close)?;
        let found = summands.as_slice();
        let first = put(self.terms, &mut self.fills.terms, found);
        let sum = DistNode::Sum {
            threshold,
            terms: Run {
                first,
                count: found.len() as u32,
            },
        };
        Ok(put(self.nodes, &mut self.fills.nodes, &[Node::Dist(sum)]))
    }

    // The sum of a threshold: its terms are kept until the threshold closes.
    #[cycle(readers)]
    fn sum(&mut self, room: u32) -> Result<Summands, GrammarFault>
        ensures lent { SameTables self.old self.new }
        ensures took { Parses 1 (a_sum room) Summed self.old result self.new }
    {
        match start_sum(&mut self.words, room)? {
            None => Ok(Summands::new()),
            Some(head) => self.sum_inside(room - 1, head),
        }
    }

    #[cycle(readers)]
    fn sum_inside(&mut self, room: u32, head: Lexeme) -> Result<Summands, GrammarFault>
        ensures lent { SameTables self.old self.new }
        ensures took { Parses 0 (sum_inside room head) Summed self.old result self.new }
    {
        match head.token {
            Token::Times => self.single(room),
            Token::Plus => self.several(room),
            _ => Err(GrammarFault::Misplaced(head.place)),
        }
    }

    #[cycle(readers)]
    fn single(&mut self, room: u32) -> Result<Summands, GrammarFault>
        ensures lent { SameTables self.old self.new }
        ensures took { Parses 1 (one_product room) Summed self.old result self.new }
    {
        let term = self.product(room, THOUSAND)?;
        let mut found = Summands::new();
        found.push(term);
        Ok(found)
    }

    #[cycle(readers)]
    fn several(&mut self, room: u32) -> Result<Summands, GrammarFault>
        ensures lent { SameTables self.old self.new }
        ensures took { Parses 0 (products_from room 0 1000) Summed self.old result self.new }
    {
        let mut found = Summands::new();
        let mut left = THOUSAND;
        while let Some(x) = another(&mut self.words, found.len())? {
            let term = self.element(room, x, left)?;
            left -= term.coefficient;
            found.push(term);
        }
        Ok(found)
    }

    // One of several products, behind its parenthesis `x`.
    #[cycle(readers)]
    fn element(&mut self, room: u32, x: Lexeme, left: u64) -> Result<Term, GrammarFault>
        ensures lent { SameTables self.old self.new }
        ensures took { Parses 1 (an_element room x left) (Factored left) self.old result self.new }
    {
        if room == 0 {
            return Err(GrammarFault::TooMany(x.place));
        }
        expect(&mut self.words, Token::Times)?;
        self.product(room - 1, left)
    }

    // A product behind its `*`, of a coefficient of at most `left`.
    #[cycle(readers)]
    fn product(&mut self, room: u32, left: u64) -> Result<Term, GrammarFault>
        ensures lent { SameTables self.old self.new }
        ensures took { Parses 1 (a_product room left) (Factored left) self.old result self.new }
    {
        let coefficient = number(&mut self.words, 1, left)?;
        let node = self.quantity(room)?;
        expect(&mut self.words, Token::Close)?;
        Ok(Term { coefficient, node })
    }

    #[cycle(readers)]
    fn quantity(&mut self, room: u32) -> Result<u32, GrammarFault>
        ensures lent { SameTables self.old self.new }
        ensures took { Parses 1 (a_quantity room) (Wrote state) self.old result self.new }
    {
        start_prob(&mut self.words, room)?;
        let node = self.state_term(room - 1)?;
        expect(&mut self.words, Token::Close)?;
        Ok(node)
    }
}
