// The lines of questions.
ghost use Rattle.std.specs.Prelude.{◌≡◌};
ghost use Rattle.netlist_text.specs.Places.{FitEach};
ghost use Rattle.netlist_text.specs.Queries.{query_named, places_of_query, query_of};
ghost use Rattle.netlist_text.specs.Words.{words_of};

use crate::places::{Place, cycle_at, name_at, net_at, number_at};
use crate::requests::Query;

/// The first word of the line of a question.
#[derive(Clone, Copy, Debug)]
pub enum QueryWord {
    Label,
    Conflicts,
    Diagnose,
    Probe,
    First,
    Modes,
    Explain,
    Why,
    Open,
    Show,
}

/// What the word begins, if it is the first of the line of a question.
#[tactic(auto, unfolding(crate::specs::Queries::query_named))]
pub fn query_named(word: &[u8]) -> Option<QueryWord>
    ensures { result ≡ query_named word.now }
{
    match word {
        b"label" => Some(QueryWord::Label),
        b"conflicts" => Some(QueryWord::Conflicts),
        b"diagnose" => Some(QueryWord::Diagnose),
        b"probe" => Some(QueryWord::Probe),
        b"first" => Some(QueryWord::First),
        b"modes" => Some(QueryWord::Modes),
        b"explain" => Some(QueryWord::Explain),
        b"why" => Some(QueryWord::Why),
        b"open" => Some(QueryWord::Open),
        b"show" => Some(QueryWord::Show),
        _ => None,
    }
}

impl QueryWord {
    /// What the words of the line stand for.
    pub fn places(self) -> &'static [Place]
        ensures { result.now ≡ places_of_query self }
    {
        use Place::{Cell, Keyword, Name, Number};
        match self {
            QueryWord::Label => &[Keyword, Cell],
            QueryWord::Conflicts | QueryWord::Diagnose | QueryWord::Probe | QueryWord::Show => {
                &[Keyword]
            }
            QueryWord::First | QueryWord::Modes | QueryWord::Why => &[Keyword, Number],
            QueryWord::Explain => &[Keyword, Cell, Number],
            QueryWord::Open => &[Keyword, Name],
        }
    }

    /// What the line asks.
    pub fn query_of(self, line: &[u8]) -> Query
        requires { FitEach (places_of_query self) (words_of line.now) }
        ensures { result ≡ query_of self (words_of line.now) }
    {
        match self {
            QueryWord::Label => Query::Label {
                net: net_at(line, 1),
                cycle: cycle_at(line, 1),
            },
            QueryWord::Conflicts => Query::Conflicts,
            QueryWord::Diagnose => Query::Diagnose,
            QueryWord::Probe => Query::Probe,
            QueryWord::First => Query::First {
                number: number_at(line, 1),
            },
            QueryWord::Modes => Query::Modes {
                number: number_at(line, 1),
            },
            QueryWord::Explain => Query::Explain {
                net: net_at(line, 1),
                cycle: cycle_at(line, 1),
                value: number_at(line, 2),
            },
            QueryWord::Why => Query::Why {
                number: number_at(line, 1),
            },
            QueryWord::Open => Query::OpenBlock {
                name: name_at(line, 1),
            },
            QueryWord::Show => Query::Show,
        }
    }
}
