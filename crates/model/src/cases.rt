// Tables whose bounds and slots are known by hand, as theorems.
ghost use Rattle.model.specs.Cases.{WorkedCases};
ghost use Rattle.model.specs.RuleCases.{RuleCases};

pub fn worked_cases()
    ensures worked { WorkedCases }
    ensures rule { RuleCases }
{}
