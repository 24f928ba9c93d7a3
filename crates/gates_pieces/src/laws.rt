// Pieces of a delivery join to the whole: nothing is computed here, the clause is a theorem that the check proves.
ghost use Rattle.gates_pieces.specs.Pieces.{PiecesJoin};

// A gate that took a delivery in pieces is the gate after that delivery.
#[tactic(auto, using(crate::proofs::Joined::pieces_join))]
pub fn law_of_pieces()
    ensures { PiecesJoin }
{}
