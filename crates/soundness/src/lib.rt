// No code: the test of the whole store in the order in which it is made, and that it is the rules' test.
#![tactic(auto)]
