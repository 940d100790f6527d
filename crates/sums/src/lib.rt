// Sums over the naturals and the integers, and the laws of the ring of integers, for the crates above. All of it is specs and proofs.
#![tactic(auto)]

ghost use Rattle.sums.specs.Promise.{Exchange};

/// A table of whole numbers adds up to the same by rows and by columns: the order of two sums may be exchanged.
pub fn sums_exchange()
    ensures { Exchange }
{}
