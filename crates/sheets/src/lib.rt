// No code: this crate holds the definitions of the packed sheets and of their refusals, and the laws about them. They are in
// specs/.
#![tactic(auto)]
