// Laws of the grammar.
ghost use Rattle.netlist_text.specs.Laws.{FaultsComeInOrder};
ghost use Rattle.netlist_text.specs.Replay.{ShowAndReadBack};

/// A line is refused by the fault of the least number that it has, and read where it has none.
pub fn faults_come_in_order()
    ensures { FaultsComeInOrder }
{}

/// The text of each lawful present, read line by line from the empty present, leads to that present.
pub fn show_and_read_back()
    ensures { ShowAndReadBack }
{}
