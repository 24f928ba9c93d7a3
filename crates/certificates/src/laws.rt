// Laws of the meaning of certificates: nothing is computed here, each clause is a theorem that the check proves.
ghost use Rattle.certificates.specs.Laws.{Grows, Steady, FromOwner, FromIssuer, Splits};

// What holds of every list of certificates, on every day, for every owner, right and house.
pub fn laws_of_meaning()
    ensures grows { Grows }
    ensures steady { Steady }
    ensures from_owner { FromOwner }
    ensures from_issuer { FromIssuer }
    ensures splits { Splits }
{}
