// Certificates come, are asked for by number, and are taken back.
ghost use Rattle.std.specs.Prelude.{◌≡◌, ◌<◌, ◌≤◌, true, [], ◌∷◌, ◌++◌, length, is_ok, IfOk, if◌then◌else◌, MatchOption, vec_len, vec_capacity};
ghost use Rattle.certificates.specs.Certificates.{in_range};
ghost use Rattle.registry.specs.Keeping.{all_in_range};
ghost use Rattle.registry.specs.Numbered.{certificates_of, certificate_at, issued, revoked, revoke_at};

use crate::{Index, MOST_CERTIFICATES, Registry};
use certificates::Certificate;
use std::alloc::{AllocError, Global};
use wire::faults::Fault;

impl Registry {
    // No certificates yet, and room for all that may come.
    pub fn new(heap: Global) -> Result<Registry, AllocError>
        ensures { IfOk result (λ g. certificates_of g ≡ []) }
    {
        let certificates = Vec::with_capacity(heap, MOST_CERTIFICATES)?;
        let index = Index::new(heap)?;
        Ok(Registry {
            certificates,
            index,
        })
    }

    // How many certificates came.
    pub fn len(&self) -> usize
        ensures value { result ≡ length (certificates_of self.now) }
        ensures few { result ≤ 1024 }
    {
        self.certificates.len()
    }

    // All certificates that came, by number; those taken back are among them.
    pub fn certificates(&self) -> &[Certificate]
        ensures value { result.now ≡ certificates_of self.now }
        ensures few { length result.now ≤ 1024 }
        ensures sound { all_in_range result.now ≡ true }
    {
        self.certificates.as_slice()
    }

    // The certificate of a number, lent: it is too large to be copied for each line of a sheet.
    #[tactic(auto, using(crate::proofs::Kept::in_range_at))]
    pub fn get(&self, number: u16) -> Option<&Certificate>
        ensures { MatchOption result (length (certificates_of self.now) ≤ number) (λ c. (number < length (certificates_of self.now)) × (c.now ≡ certificate_at (certificates_of self.now) number) × (in_range c.now ≡ true)) }
    {
        self.certificates.get(usize::from(number))
    }

    // A certificate comes and gets the next number, or is refused.
    pub fn issue(&mut self, certificate: Certificate) -> Result<(), Fault>
        ensures value { result ≡ issued (certificates_of self.old) certificate }
        ensures after { certificates_of self.new ≡ (if is_ok result then certificates_of self.old ++ certificate ∷ [] else certificates_of self.old) }
    {
        if !certificate.in_range() {
            return Err(Fault::OutOfRange);
        }
        if self.certificates.len() >= MOST_CERTIFICATES {
            return Err(Fault::TooManyCertificates);
        }
        match self.new_name(&certificate) {
            Some((place, name)) => self.add_with_name(certificate, place, name),
            None => self.add(certificate),
        }
        Ok(())
    }

    // The certificate of a number is taken back: it is valid on no day from then on.
    pub fn revoke(&mut self, number: u16) -> Result<(), Fault>
        ensures value { result ≡ revoked (certificates_of self.old) number }
        ensures after { certificates_of self.new ≡ revoke_at number (certificates_of self.old) }
    {
        revoke_in(&mut self.certificates, number)
    }
}

// The certificate at a place of the list is taken back; the list keeps its length and its room.
// Apart from `revoke`, whose proof of what a registry keeps is by hand: a wrong write is then refused in its own line.
#[tactic(auto, using(crate::proofs::Kept::revoke_past, crate::proofs::Kept::revoke_in_place))]
fn revoke_in(certificates: &mut Vec<Certificate>, number: u16) -> Result<(), Fault>
    ensures value { result ≡ revoked certificates.old.items number }
    ensures after { certificates.new.items ≡ revoke_at number certificates.old.items }
    ensures len { vec_len certificates.new ≡ vec_len certificates.old }
    ensures room { vec_capacity certificates.new ≡ vec_capacity certificates.old }
{
    let certificate = certificates
        .get_mut(usize::from(number))
        .ok_or(Fault::UnknownCertificate)?;
    *certificate = certificate.revoked();
    Ok(())
}
