// Nothing but definitions and theorems: the plain streamer of document 01, and its run on an accepted capture.
#![tactic(auto)]
