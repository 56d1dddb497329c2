// Numbers under facts.
ghost use Rattle.std.specs.Prelude.{◌≡◌, Some, None, OnOk, OnErr};
ghost use Rattle.justifications.specs.Kept.{key_of, number_in, IsEntered};

use circuit_model::Fact;
use indexmap::IndexMap;
use std::alloc::AllocError;

// A fact as a key of the table.
#[derive(Clone, Copy, PartialEq, Eq, Hash, Debug)]
pub(crate) struct Named {
    pub net: u16,
    pub cycle: u8,
    pub value: u64,
}

// The key of the fact.
fn key_of(fact: &Fact) -> Named
    ensures { result ≡ key_of fact.now }
{
    Named {
        net: fact.cell.net,
        cycle: fact.cell.cycle,
        value: fact.value,
    }
}

// The number under the fact.
pub(crate) fn number_in(table: &IndexMap<Named, usize>, fact: &Fact) -> Option<usize>
    ensures { result ≡ number_in table.now.entries fact.now }
{
    table.get(&key_of(fact)).copied()
}

// The fact has the number. After an error all is as before.
pub(crate) fn enter(
    table: &mut IndexMap<Named, usize>,
    fact: &Fact,
    number: usize,
) -> Result<(), AllocError>
    ensures ok { OnOk result (IsEntered table.old.entries table.new.entries fact.now (Some number)) }
    ensures err { OnErr result (table.new.entries ≡ table.old.entries) }
{
    match table.insert(key_of(fact), number) {
        Ok(_) => Ok(()),
        Err(_) => Err(AllocError),
    }
}

// The fact has no number. It takes no memory.
pub(crate) fn strike(table: &mut IndexMap<Named, usize>, fact: &Fact)
    ensures { IsEntered table.old.entries table.new.entries fact.now None }
{
    table.swap_remove(&key_of(fact));
}
