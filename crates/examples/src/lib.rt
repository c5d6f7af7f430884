// No code: this crate computes worked examples with the definitions of the theory crate. They are in specs/.
#![tactic(auto)]
