// Lines that are known by hand, as theorems.
ghost use Rattle.listing.specs.Cases.{WorkedLines};

pub fn worked_lines()
    ensures { WorkedLines }
{}
