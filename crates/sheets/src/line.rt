// A line of a sheet as it was read.
ghost use Rattle.std.specs.Prelude.{◌≡◌, true};
ghost use Rattle.certificates.specs.Certificates.{in_range};

use certificates::Certificate;
use wire::numbers::Six;

// A certificate in range, and the house reached after each name of its subject, with zeros behind them.
#[derive(Clone, Copy)]
pub struct Line<'a> {
    pub certificate: &'a Certificate,
    pub houses: Six,
    ghost sound: { in_range certificate.now ≡ true },
}
