// A certificate is what one house states for a span of days: what one of its names stands for, or who has rights.
#![tactic(auto)]

ghost use Rattle.std.specs.Prelude.{◌≡◌, ℕ, Bool, Decides, length, min};
ghost use Rattle.certificates.specs.Certificates.{names_of, subject_of, in_range, valid, Valid, gives, Gives, revoked_of};
ghost use Rattle.certificates.specs.declared.Subject.{Subject};

pub mod access;
pub mod laws;
pub mod rights;

use access::Access;

// How many houses there are.
pub const HOUSES: usize = 1024;

// Houses are numbered from 0 to this one.
pub const LAST_HOUSE: u16 = 1023;

// A subject has at most this many names.
pub const MOST_NAMES: usize = 6;

// Whom a certificate speaks of: a house, or whoever is reached from it by following its names one after the other.
#[derive(Clone, Copy, Debug, PartialEq, Eq)]
pub struct Subject {
    pub house: u16,
    // The names in front, zero behind them. An array with its count and not a `Vec`: a certificate is copied without memory being asked for.
    pub names: [u16; MOST_NAMES],
    pub count: u8,
}

impl Subject {
    // Its names, without the zeros behind them: as many as its count says, and no more than six.
    pub fn names(&self) -> &[u16]
        ensures value { result.now ≡ names_of self.now }
        ensures many { length result.now ≡ min self.now.count 6 }
    {
        &self.names[..usize::from(self.count).min(MOST_NAMES)]
    }
}

// What the issuer says, and of whom. A flag tells rights that may be passed on, and no third case: a rule of the project.
// The subject comes first in each case, so it lies at one place, and is found without a look at the case.
#[derive(Clone, Copy, Debug, PartialEq, Eq)]
pub enum Statement {
    // the subject is what this name of the issuer stands for
    Name {
        subject: Subject,
        name: u16,
    },
    // the subject has these rights, and may pass them on (delegate them) if the flag says so
    Rights {
        subject: Subject,
        rights: u64,
        delegable: bool,
    },
}

impl Statement {
    // Of whom it speaks.
    pub fn subject(&self) -> &Subject
        ensures { result.now ≡ subject_of self.now }
    {
        match self {
            Statement::Name { subject, .. } | Statement::Rights { subject, .. } => subject,
        }
    }
}

// Valid from the first day to the last, both included; never if the last lies before the first.
#[derive(Clone, Copy, Debug, PartialEq, Eq)]
pub struct Certificate {
    pub issuer: u16,
    pub first: u32,
    pub last: u32,
    pub statement: Statement,
}

impl Certificate {
    // Whether its values are those that a certificate may have.
    pub fn in_range(&self) -> bool
        ensures { result ≡ in_range self.now }
    {
        let some_right = match self.statement {
            Statement::Name { .. } => true,
            Statement::Rights { rights, .. } => rights > 0,
        };
        let subject = self.statement.subject();
        self.issuer <= LAST_HOUSE
            && subject.house <= LAST_HOUSE
            && usize::from(subject.count) <= MOST_NAMES
            && some_right
    }

    // Whether the certificate is valid on `day`.
    pub fn valid_on(&self, day: u32) -> bool
        ensures value { result ≡ valid day self.now }
        ensures decides { Decides result (Valid day self.now) }
    {
        self.first <= day && day <= self.last
    }

    // Whether the certificate gives what is asked for, as far as its statement goes: its days and its issuer are looked at apart.
    // One that states a name gives nothing.
    pub fn gives(&self, access: &Access) -> bool
        ensures value { result ≡ gives access.now self.now }
        ensures decides { Decides result ((delegable : Bool) × (who : Subject) × Gives access.now delegable who self.now) }
    {
        match self.statement {
            Statement::Name { .. } => false,
            Statement::Rights { rights, .. } => rights::contains(rights, access.right),
        }
    }

    // The certificate once it is taken back: the same statement, valid on no day. Day 1 to day 0 and no flag: validity stays one test on two days.
    pub fn revoked(self) -> Certificate
        ensures value { result ≡ revoked_of self }
        ensures never { (day : ℕ) → Valid day result → ⊥ }
    {
        Certificate {
            first: 1,
            last: 0,
            ..self
        }
    }
}
