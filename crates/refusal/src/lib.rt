// Why a service refuses, by document 01's numbers and those of requests No. 6 and No. 7.
#![tactic(auto)]

ghost use Rattle.std.specs.Prelude.{◌≡◌};
ghost use Rattle.refusal.specs.Numbers.{number};

// The refusals, in the order of their numbers.
#[derive(Clone, Copy, Debug, PartialEq, Eq)]
pub enum Refusal {
    CutOff, // 1: a field is cut off by the end; of given fields, a row is too short
    Mark, // 2: the mark differs
    Version, // 3: the version is neither 1 nor 2
    Object, // 4: the object is above 2
    Threads, // 5: n is outside 1 to 16
    Bound, // 6: h is 0
    Capacity, // 7: the capacity is not allowed for the object
    Count, // 8: a count of requests is above 16
    Request, // 9: a code is unknown to the object, or a take has a value other than 0
    ScheduleLength, // 10: the schedule is longer than 32,768
    Entry, // 11: an entry is not below n
    Trailing, // 12: bytes follow the end; of given fields, a row is too long
    Buffer, // 13: the lent buffer is too short
    OutOfRange, // 14: a state number is outside its range, or an entry would take one out, follow null, or use an empty req or ret
    Method, // 15: the method is above 1; of given fields, also one other than 0 under version 1
    Conversion, // 16: a DSM-Synch file where version 1 is wanted
}

impl Refusal {
    // Its number, 1 to 16.
    pub fn number(self) -> u8
        ensures { result ≡ number self }
    {
        match self {
            Refusal::CutOff => 1,
            Refusal::Mark => 2,
            Refusal::Version => 3,
            Refusal::Object => 4,
            Refusal::Threads => 5,
            Refusal::Bound => 6,
            Refusal::Capacity => 7,
            Refusal::Count => 8,
            Refusal::Request => 9,
            Refusal::ScheduleLength => 10,
            Refusal::Entry => 11,
            Refusal::Trailing => 12,
            Refusal::Buffer => 13,
            Refusal::OutOfRange => 14,
            Refusal::Method => 15,
            Refusal::Conversion => 16,
        }
    }
}
