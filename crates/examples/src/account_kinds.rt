// The kinds of a file's DT: numbers in four positions of each, in a row, again and again.
ghost use Rattle.std.specs.Prelude.{◌≡◌, ◌≤◌, ◌<◌};

use crate::files::MOST;
use cases::files::File;

// Gives the DT of a file so many kinds, which differ in the digits that end at a position.
fn number_accounts(file: &mut File<'_, MOST>, kinds: usize, last: usize)
    requires { (1 ≤ kinds) × (4 ≤ last) × (last ≤ 850) }
    ensures { file.new.count ≡ file.old.count }
{
    let mut number = 0;
    for place in 0..file.count {
        let space = &*file.space;
        if space[place].starts_with(b"\xC4\xE3") {
            file.write::<4>(place, last, number);
            number = (number + 1) % kinds;
        }
    }
}

// The same, where there is a kind and the digits lie within a record.
pub(crate) fn change_kinds(file: &mut File<'_, MOST>, kinds: usize, last: usize)
    ensures { file.new.count ≡ file.old.count }
{
    if kinds > 0 && (4..=850).contains(&last) {
        number_accounts(file, kinds, last);
    }
}
