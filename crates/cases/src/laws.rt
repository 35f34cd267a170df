ghost use Rattle.cases.specs.Cases.{AllFit, cases};

// Each of the worked cases comes to what is written beside it.
pub fn worked_cases()
    ensures { AllFit cases }
{}
