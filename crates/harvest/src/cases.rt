// Amounts and samples that are known by hand, as theorems.
ghost use Rattle.harvest.specs.Cases.{WorkedAmounts};

pub fn worked_amounts()
    ensures { WorkedAmounts }
{}
