// Lists of numbers, as the contracts of every crate above read a lent slice. It takes the role of Rust's Vec: what is filled
// here is a buffer that the caller lends. The crate's substance is in specs/.
#![tactic(auto)]
