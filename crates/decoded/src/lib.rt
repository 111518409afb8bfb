// No code: a file's decoded lists as the route takes them, and what acceptance gives of them.
#![tactic(auto)]
