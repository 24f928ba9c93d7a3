// A certificate gets the next number, and its name a row if it is new.
ghost use Rattle.std.specs.Prelude.{◌≡◌, ◌<◌, true, [], ◌∷◌, ◌++◌, length, MatchOption};
ghost use Rattle.certificates.specs.Certificates.{in_range};
ghost use Rattle.registry.specs.Index.{Place};
ghost use Rattle.registry.specs.Names.{NewName, NoNewName};
ghost use Rattle.registry.specs.Numbered.{certificates_of};

use crate::{Entry, Registry};
use certificates::{Certificate, Statement};

impl Registry {
    // The name that a certificate states and the place for its entry, if none stated it before.
    pub(crate) fn new_name(&self, certificate: &Certificate) -> Option<(usize, u16)>
        ensures { MatchOption result (NoNewName (certificates_of self.now) certificate.now) (λ x. Place self.now.index.entries.items certificate.now.issuer x.1 x.0 × NewName (certificates_of self.now) certificate.now x.1) }
    {
        let Statement::Name { name, .. } = certificate.statement else {
            return None;
        };
        let place = self.search(certificate.issuer, name).err()?;
        Some((place, name))
    }

    // A certificate comes that states no new name.
    pub(crate) fn add(&mut self, certificate: Certificate)
        requires sound { in_range certificate ≡ true }
        requires few { length (certificates_of self.old) < 1024 }
        requires known { NoNewName (certificates_of self.old) certificate }
        ensures { certificates_of self.new ≡ certificates_of self.old ++ certificate ∷ [] }
    {
        self.certificates.push_reserved(certificate);
    }

    // One comes that states a new name, which is entered at its place and whose row is the certificate's number.
    pub(crate) fn add_with_name(&mut self, certificate: Certificate, place: usize, name: u16)
        requires sound { in_range certificate ≡ true }
        requires few { length (certificates_of self.old) < 1024 }
        requires place { Place self.old.index.entries.items certificate.issuer name place }
        requires new { NewName (certificates_of self.old) certificate name }
        ensures { certificates_of self.new ≡ certificates_of self.old ++ certificate ∷ [] }
    {
        let entry = Entry {
            house: certificate.issuer,
            name,
            row: self.certificates.len() as u16,
        };
        self.index.enter(place, entry);
        self.certificates.push_reserved(certificate);
    }
}
