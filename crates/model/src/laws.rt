// The laws of demand and of the search for a bound, as theorems.
ghost use Rattle.model.specs.Laws.{SearchFindsLeast, SearchEnds, FewRounds, OneSearch, OneBound, CountsJobs, HoldsIfBrought};
ghost use Rattle.model.specs.Laws.{AcceptedExactly, RefusedExactly, BoundHasTask};

// The search finds the least window, ends, and has one answer; a bound is one.
pub fn search_laws()
    ensures finds { SearchFindsLeast }
    ensures ends { (SearchEnds) × (FewRounds) }
    ensures one { (OneSearch) × (OneBound) }
{}

// A window counts the jobs whose release lies in it, and holds a demand exactly if its slots bring the energy.
pub fn demand_laws()
    ensures counted { CountsJobs }
    ensures brought { HoldsIfBrought }
{}

// A table is accepted exactly when every task's safe bound is present; only a task has a bound.
pub fn acceptance_laws()
    ensures accepted { AcceptedExactly }
    ensures refused { RefusedExactly }
    ensures listed { BoundHasTask }
{}
