// Laws of finding: nothing is computed here, each clause is a theorem that the check proves.
ghost use Rattle.finding.specs.Cases.{AllComeTrue};
ghost use Rattle.finding.specs.Laws.{FindsLawfully};

// What holds of finding, whatever the certificates are; and the worked cases.
pub fn laws_of_finding()
    ensures lawful { FindsLawfully }
    ensures cases { AllComeTrue }
{}
