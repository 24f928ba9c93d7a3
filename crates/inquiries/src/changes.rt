// On which day it can change next whether a house may. Where it may, the sheet that was found holds to a last day; where it may not, only a certificate that begins gives it that.
ghost use Rattle.std.specs.Prelude.{◌≡◌};
ghost use Rattle.inquiries.specs.Changes.{begin_of, BeginOf, begin_among, NextBegin, NextChange};
ghost use Rattle.registry.specs.Numbered.{certificates_of};

use certificates::Certificate;
use registry::Registry;

// The next day, after `day`, on which a certificate begins to be valid.
#[tactic(auto, using(crate::proofs::Sooner::begin_told))]
fn begin_of(certificate: &Certificate, day: u32) -> Option<u32>
    ensures value { result ≡ begin_of day certificate.now }
    ensures change { BeginOf day result certificate.now }
{
    if certificate.last < certificate.first {
        return None;
    }
    if day < certificate.first {
        return Some(certificate.first);
    }
    None
}

// The soonest of the days, after `day`, on which one of these certificates begins.
fn soonest(certificates: &[Certificate], day: u32) -> Option<u32>
    ensures { result ≡ begin_among day certificates.now }
{
    certificates
        .iter()
        .filter_map(|certificate| begin_of(certificate, day))
        .min()
}

// The next day, after `day`, on which some certificate begins; until then none does.
// Apart from `soonest`: in one function with the chain the clause stays open.
#[tactic(auto, using(crate::proofs::Sooner::next_begin))]
fn next_begin(registry: &Registry, day: u32) -> Option<u32>
    ensures { NextBegin day result (certificates_of registry.now) }
{
    soonest(registry.certificates(), day)
}

// The next day on which it can change whether the house may: behind the last day to which it may from `day` on, or, where it may not, the next on which a certificate begins.
pub(crate) fn next_change(registry: &Registry, day: u32, may_to: Option<u32>) -> Option<u32>
    ensures { NextChange day may_to result (certificates_of registry.now) }
{
    if let Some(last) = may_to {
        return last.checked_add(1);
    }
    next_begin(registry, day)
}
