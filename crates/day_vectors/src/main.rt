// Shows the number of each day that another program's calendar made (02 W4): a line for each eight bytes on standard input, as today is lent.
#![tactic(auto)]

use calendar::clock;
use loading::Parts;

// The most days that are shown.
const MOST: usize = 100000;

// The number of a day; of what is no day, that it is none.
// What standard output does not take of a line is left out, and the rest of the line follows.
fn show_day(rt: &impl Print, lent: &[u8]) {
    let _ = match clock::read_today(lent) {
        Some(day) => print!(rt; "{}", day.number),
        None => print!(rt; "none"),
    };
    let _ = println!(rt;);
}

// Days one after the other.
fn show_days(rt: &impl Print) {
    for lent in (Parts::<8> { most: MOST }) {
        show_day(rt, &lent);
    }
}

fn main(rt: HostRuntime) {
    show_days(&rt);
}
