// What is wrong with a field (01 Batch reasons), and the first of what is wrong.
#![tactic(auto)]

pub mod amounts;
pub mod checks;
pub mod dates;
pub mod lists;
pub mod lookups;
pub mod values;

ghost use Rattle.std.specs.Prelude.{◌≡◌, ℕ};
ghost use Rattle.reasons.specs.Findings.{number_of, found, noted};

// The reasons of a rejected batch (01 Batch reasons; 02 W4: the last). `Accounts` and `Procurements` are the sums of DT and of DP that differ,
// `Lacking` a CARS Reporter's payment without DT, `Crowded` too many kinds of TAS/BETC.
#[derive(Clone, Copy, Debug, PartialEq, Eq)]
pub enum Reason {
    Blank,
    Shape,
    Unlisted,
    Absent,
    NoDay,
    Repeated,
    Unlike,
    Range,
    Accounts,
    Procurements,
    Lacking,
    Crowded,
    Count,
    Sum,
    Time,
}

impl From<Reason> for u64 {
    ghost from_gives = { λ reason n. n ≡ number_of reason };

    #[tactic(auto, unfolding(crate::specs::Findings::number_of))]
    fn from(reason: Reason) -> u64 {
        match reason {
            Reason::Blank => 1,
            Reason::Shape => 2,
            Reason::Unlisted => 3,
            Reason::Absent => 4,
            Reason::NoDay => 5,
            Reason::Repeated => 6,
            Reason::Unlike => 7,
            Reason::Range => 8,
            Reason::Accounts => 9,
            Reason::Procurements => 10,
            Reason::Lacking => 11,
            Reason::Crowded => 12,
            Reason::Count => 13,
            Reason::Sum => 14,
            Reason::Time => 15,
        }
    }
}

// A reason, with the numbers of the record and of 004's field.
#[derive(Clone, Copy, Debug, PartialEq, Eq)]
pub struct Finding {
    pub reason: Reason,
    pub record_number: usize,
    pub field: usize,
}

// What is wrong with a field of the record with this number, if something is.
#[tactic(auto, unfolding(crate::specs::Findings::found))]
pub fn find(checked: Result<(), Reason>, record_number: usize, field: usize) -> Result<(), Finding>
    ensures { result ≡ found checked record_number field }
{
    checked.map_err(|reason| Finding {
        reason,
        record_number,
        field,
    })
}

// What is known so far, or else this of a field of the record with this number.
#[tactic(auto, unfolding(crate::specs::Findings::noted))]
pub fn note(
    known: Result<(), Finding>,
    checked: Result<(), Reason>,
    record_number: usize,
    field: usize,
) -> Result<(), Finding>
    ensures { result ≡ noted known (found checked record_number field) }
{
    known?;
    find(checked, record_number, field)
}
