// Nothing but theorems: runs through the whole budget of 65,536 commands.
#![tactic(auto)]
