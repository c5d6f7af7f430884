// No code: this crate holds the definitions that the other crates' contracts cite, and the theorem
// that both readers agree. They are in specs/.
#![tactic(auto)]
