// How far a day lies from today, with its sign (02 W4).
ghost use Rattle.std.specs.Prelude.{◌≡◌};
ghost use Rattle.calendar.specs.Clock.{difference, ahead_at_most, back_at_most};

use crate::Span;

// The difference of two days by their numbers.
pub(crate) fn difference(day: u64, today: u64) -> Span
    ensures { result ≡ difference day today }
{
    if today <= day {
        return Span::Ahead(day - today);
    }
    Span::Back(today - day)
}

// At most so many days ahead. One function for this and the next would take the side as a third argument and match on both.
pub(crate) fn ahead_at_most(most: u64, span: Span) -> bool
    ensures { result ≡ ahead_at_most most span }
{
    match span {
        Span::Ahead(days) => days <= most,
        Span::Back(_) => true,
    }
}

// At most so many days back.
pub(crate) fn back_at_most(most: u64, span: Span) -> bool
    ensures { result ≡ back_at_most most span }
{
    match span {
        Span::Ahead(_) => true,
        Span::Back(days) => days <= most,
    }
}
