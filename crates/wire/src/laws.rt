// Laws of the bytes of events: nothing is computed here, each clause is a theorem that the check proves.
ghost use Rattle.wire.specs.Settled.{Settled};
ghost use Rattle.wire.specs.Exact.{WrittenIsRead};

// What is written of an event is read as that event again, and what was read, or can never be, is changed by nothing that follows.
#[tactic(auto, using(crate::proofs::Exact::read_back, crate::proofs::Longest::settled))]
pub fn law_of_bytes()
    ensures written_is_read { WrittenIsRead }
    ensures settled { Settled }
{}
