// The law of starts, named by a clause, so that the crate stands only with its proof.
ghost use Rattle.node.specs.Starts.{OneReason};

// A start is refused for one reason only.
pub fn start_laws()
    ensures { OneReason }
{}
