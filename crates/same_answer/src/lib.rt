// Laws alone, over the definition of the account's margin: it goes by the book alone, free long options cost nothing, and no fixed margin
// will do.
#![tactic(auto)]
