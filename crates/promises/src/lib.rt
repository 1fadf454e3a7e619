// Nothing but theorems: each demand, from the promise of the public calls, so that it can be read on its own.
#![tactic(auto)]
