// Laws of what is written.
ghost use Rattle.answer_text.specs.Laws.{ValidDerivationsCanBeWritten};

/// What a valid derivation names is in the present, so it can be written.
pub fn valid_derivations_can_be_written()
    ensures { ValidDerivationsCanBeWritten }
{}
