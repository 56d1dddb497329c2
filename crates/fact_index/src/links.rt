// The links between listed facts of the same number, and the heads of these links.
ghost use Rattle.std.specs.Prelude.{◌≡◌, ◌+◌, ◌<◌, ◌≤◌, ◌++◌, ◌∷◌, [], None, Some, IfOk, IfSome, MatchOption, OnOk, length, replicate, slice_get, slice_set, take};
ghost use Rattle.environment_sets.specs.Lists.{IsIn};
ghost use Rattle.fact_index.specs.Listed.{GivesLast};
ghost use Rattle.fact_index.specs.Links.{facts_of, number_of_fact, number_of_cell, cell_number, back_by_fact, back_by_cell, past, IsNumbered, GivesLastNumbered, LeadBack, AreLinked, AreIndexed};

use circuit_model::limits::{MOST_CYCLES, MOST_NETS};
use circuit_model::{Cell, Fact};
use std::alloc::{AllocError, Global};

/// Each cell has a number below this one, and no two cells of a present have the same.
pub(crate) const CELL_NUMBERS: usize = MOST_NETS as usize * MOST_CYCLES as usize;

/// Each fact has a number below this one, and the two words of one bit at a cell of a present have two.
pub(crate) const FACT_NUMBERS: usize = 2 * CELL_NUMBERS;

/// A fact, and where the links from it lead: to the last place before its own whose fact has the same number, and to the
/// last one whose cell has the same.
#[derive(Clone, Copy)]
pub(crate) struct Link {
    pub fact: Fact,
    pub by_fact: Option<usize>,
    pub by_cell: Option<usize>,
}

/// The number of the cell.
#[tactic(auto, unfolding(crate::specs::Links::number_of_cell))]
pub(crate) fn number_of_cell(cell: Cell) -> usize
    ensures number { result ≡ number_of_cell cell }
    ensures below { result < CELL_NUMBERS }
{
    (cell.net as usize * MOST_CYCLES as usize + cell.cycle as usize) % CELL_NUMBERS
}

/// The number of the fact.
#[tactic(auto, unfolding(crate::specs::Links::number_of_fact))]
pub(crate) fn number_of_fact(fact: &Fact) -> usize
    ensures number { result ≡ number_of_fact fact.now }
    ensures below { result < FACT_NUMBERS }
{
    let cell = fact.cell.net as usize * MOST_CYCLES as usize + fact.cell.cycle as usize;
    let value = (fact.value % FACT_NUMBERS as u64) as usize;
    (2 * cell + value) % FACT_NUMBERS
}

/// So many heads, none of which leads to a place.
pub(crate) fn no_heads(alloc: Global, count: usize) -> Result<Vec<Option<usize>>, AllocError>
    ensures { IfOk result (λ heads. heads.items ≡ replicate count None) }
{
    vec![in alloc; None; count]
}

// The head of the number leads to the place. Returns where it led before.
fn set_head(heads: &mut [Option<usize>], number: usize, place: usize) -> Option<usize>
    requires { number < length heads.old }
    ensures heads { heads.new ≡ slice_set heads.old number (Some place) }
    ensures before { slice_get heads.old number ≡ Some result }
{
    let before = heads[number];
    heads[number] = Some(place);
    before
}

/// There is room for one link more than are in use. After an error all is as before.
pub(crate) fn make_room(links: &mut Vec<Link>, count: usize, fact: Fact) -> Result<(), AllocError>
    requires { count ≤ length links.old.items }
    ensures room { OnOk result (count < length links.new.items) }
    ensures within { count ≤ length links.new.items }
    ensures same { take count links.new.items ≡ take count links.old.items }
{
    if count < links.len() {
        return Ok(());
    }
    links.push(Link {
        fact,
        by_fact: None,
        by_cell: None,
    })?;
    Ok(())
}

/// The fact is listed at the place, which is the first one that is not in use.
pub(crate) fn put_at(
    links: &mut [Link],
    by_fact: &mut [Option<usize>],
    by_cell: &mut [Option<usize>],
    place: usize,
    fact: Fact,
)
    requires indexed { AreIndexed links.old place by_fact.old by_cell.old }
    requires room { place < length links.old }
    ensures indexed { AreIndexed links.new (place + 1) by_fact.new by_cell.new }
    ensures facts { facts_of (take (place + 1) links.new) ≡ facts_of (take place links.old) ++ fact ∷ [] }
{
    let same_fact = set_head(by_fact, number_of_fact(&fact), place);
    let same_cell = set_head(by_cell, number_of_cell(fact.cell), place);
    links[place] = Link {
        fact,
        by_fact: same_fact,
        by_cell: same_cell,
    };
}

/// The heads of the numbers of these links, which are all in use, lead nowhere any more.
pub(crate) fn drop_heads(
    links: &[Link],
    by_fact: &mut [Option<usize>],
    by_cell: &mut [Option<usize>],
)
    requires facts { AreLinked number_of_fact back_by_fact FACT_NUMBERS links.now by_fact.old }
    requires cells { AreLinked cell_number back_by_cell CELL_NUMBERS links.now by_cell.old }
    ensures facts { AreLinked number_of_fact back_by_fact FACT_NUMBERS [] by_fact.new }
    ensures cells { AreLinked cell_number back_by_cell CELL_NUMBERS [] by_cell.new }
{
    for link in links {
        by_fact[number_of_fact(&link.fact)] = None;
        by_cell[number_of_cell(link.fact.cell)] = None;
    }
}

// The link at the place.
fn link_at(links: &[Link], place: usize) -> Link
    requires { place < length links.now }
    ensures { slice_get links.now place ≡ Some result }
{
    links[place]
}

/// The fact at the place.
pub(crate) fn fact_of(links: &[Link], place: usize) -> Fact
    requires { place < length links.now }
    ensures { slice_get (facts_of links.now) place ≡ Some result }
{
    link_at(links, place).fact
}

/// A place of the fact, if it is listed, in a walk from the head of its number.
pub(crate) fn find_from(links: &[Link], head: Option<usize>, fact: &Fact) -> Option<usize>
    requires back { LeadBack number_of_fact back_by_fact links.now }
    requires head { GivesLastNumbered number_of_fact links.now (number_of_fact fact.now) (length links.now) head }
    ensures { MatchOption result (IsIn (facts_of links.now) fact.now → ⊥) (λ place. slice_get (facts_of links.now) place ≡ Some fact.now) }
{
    let mut next = head;
    while let Some(place) = next {
        let link = link_at(links, place);
        if link.fact == *fact {
            return Some(place);
        }
        next = link.by_fact;
    }
    None
}

/// The last place of a fact at the cell, in a walk from this place on back, whose cell has the same number.
pub(crate) fn last_from(links: &[Link], first: Option<usize>, cell: Cell) -> Option<usize>
    requires back { LeadBack cell_number back_by_cell links.now }
    requires first { IfSome first (IsNumbered cell_number links.now (number_of_cell cell)) }
    ensures { GivesLast (facts_of links.now) cell (past first) result }
{
    let mut next = first;
    while let Some(place) = next {
        let link = link_at(links, place);
        if link.fact.cell == cell {
            return Some(place);
        }
        next = link.by_cell;
    }
    None
}
