// The deadline theorem, over the definitions that the contracts of the code cite.
ghost use Rattle.model.specs.OnTime.{DeadlineTheorem};

// An accepted table is never late; for a one-sided table the verdict is exact; no response passes the safe bound.
pub fn deadline_theorem()
    ensures { DeadlineTheorem }
{}
