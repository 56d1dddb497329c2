// Laws of listed diagnoses.
ghost use Rattle.standing_probe.specs.Laws.{FewDiagnosesAreListed};

/// Where there are no more diagnoses than may be listed, a list of all of them is no longer.
pub fn few_diagnoses_are_listed()
    ensures { FewDiagnosesAreListed }
{}
