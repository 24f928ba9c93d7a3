// The promise of the whole: nothing is computed here, the clause is a theorem that the check proves.
ghost use Rattle.promise.specs.Promise.{Main};

// After any deliveries whoever is let in may, and whoever may has a request with which they are let in.
#[tactic(auto, using(crate::proofs::Promised::main))]
pub fn main_promise()
    ensures { Main }
{}
