// Laws alone, over the contracts of the public functions themselves: no second answer satisfies one (specs/FunctionLaws has a law for each).
#![tactic(auto)]
