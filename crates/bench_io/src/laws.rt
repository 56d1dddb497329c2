// Laws of the definitions.
ghost use Rattle.bench_io.specs.Laws.{CutsLines, CallsGiveFirst};

/// How bytes are cut into lines: at each newline, and a rest is a line of its own where it is not empty.
pub fn bytes_are_cut_at_newlines()
    ensures { CutsLines }
{}

/// What `LineReader::next_line` says of its bytes means that it gives the lines of the input in turn.
pub fn each_call_gives_the_first_line()
    ensures { CallsGiveFirst }
{}
