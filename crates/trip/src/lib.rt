// Laws alone: texts and books are in bijection.
#![tactic(auto)]
