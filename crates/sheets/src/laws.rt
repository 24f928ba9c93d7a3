// Laws of sheets: nothing is computed here, each clause is a theorem that the check proves.
ghost use Rattle.sheets.specs.Laws.{Sound, Complete, Decided, ChecksExactly, HoldsWritable};

// What holds of every sheet, whatever the certificates are.
pub fn laws_of_sheets()
    ensures sound { Sound }
    ensures complete { Complete }
    ensures decided { Decided }
    ensures checks_exactly { ChecksExactly }
    ensures holds_writable { HoldsWritable }
{}
