// What happens at a gate.
use certificates::Certificate;

#[derive(Clone, Copy, Debug, PartialEq, Eq)]
pub enum Event {
    // a certificate comes
    Issued(Certificate),
    // the certificate of this number is taken back
    Revoked(u16),
    // a day passes
    DayPassed,
}
