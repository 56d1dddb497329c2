// The bits of one word.
ghost use Rattle.std.specs.Prelude.{◌<◌, MatchOption, IfSome};
ghost use Rattle.environment_sets.specs.declared.environment.TheConstants.{WORD_BITS};
ghost use Rattle.environment_sets.specs.Members.{has_bit};
ghost use Rattle.environment_sets.specs.Steps.{HasNoneFrom, IsNextFrom};

/// The least bit from this one on that is set in the word. The bits below it are cut off.
pub fn next_bit(word: u64, from: u16) -> Option<u16>
    requires { from < WORD_BITS }
    ensures next { MatchOption result (HasNoneFrom (has_bit word) from) (λ bit. IsNextFrom (has_bit word) from bit) }
    ensures below { IfSome result (λ bit. bit < WORD_BITS) }
{
    let rest = word & (u64::MAX << from);
    if rest == 0 {
        return None;
    }
    Some(rest.trailing_zeros() as u16)
}
