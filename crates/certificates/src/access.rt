// What is asked for, of certificates and of sheets.
ghost use Rattle.certificates.specs.Access.{on_day, of_owner, for_right};
ghost use Rattle.std.specs.Prelude.{◌≡◌};

// An owner's right, on a day. Who asks stands beside it: what certificates give doesn't depend on that.
#[derive(Clone, Copy, Debug, PartialEq, Eq)]
pub struct Access {
    pub day: u32,
    // a house, from 0 to 1,023
    pub owner: u16,
    // from 0 to 63
    pub right: u8,
}

impl Access {
    // The same on another day.
    pub fn on_day(self, day: u32) -> Access
        ensures { result ≡ on_day day self }
    {
        Access { day, ..self }
    }

    // The same right of another owner.
    pub fn of_owner(self, owner: u16) -> Access
        ensures { result ≡ of_owner owner self }
    {
        Access { owner, ..self }
    }

    // Another right of the same owner.
    pub fn for_right(self, right: u8) -> Access
        ensures { result ≡ for_right right self }
    {
        Access { right, ..self }
    }
}
