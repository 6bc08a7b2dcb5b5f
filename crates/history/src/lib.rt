// One theorem over every list of calls, as the contracts of two functions that do nothing: see specs/Calls.antt and specs/Actual.antt.
#![tactic(auto)]

ghost use Rattle.history.specs.Calls.{EveryList};
ghost use Rattle.history.specs.Actual.{EveryRun};

// What every list of calls leaves, by the definitions that the calls' contracts cite.
pub fn every_list()
    ensures { EveryList }
{}

// The words that a list of actual calls leaves are those of its definition, by the calls' contracts alone.
pub fn every_run()
    ensures { EveryRun }
{}
