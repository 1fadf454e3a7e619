// Nothing but theorems: the component controls of a vertex element, all 4,096 words of them, tested together.
#![tactic(auto)]
