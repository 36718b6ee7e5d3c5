// What a program is lent where it runs: files, and standard input in parts of one size.
#![tactic(auto)]

ghost use Rattle.std.specs.Prelude.{◌^◌, ◌<◌};
ghost use Rattle.std.specs.Iterator.{at_most};
ghost use Rattle.io.specs.Counts.{IsPrefixLen};

use std::fs;
use std::io::Read;
use std::rt::Files;

// Reads until the space is full, the file ends or a read fails, and answers how many bytes stand at the start of the space.
fn read_full<F: Read>(file: &mut F, space: &mut [u8]) -> usize
    ensures { IsPrefixLen result space.new }
{
    let mut done = 0;
    // No index is counted here: a read takes as many bytes as it likes, and `read_exact` doesn't say how many came before the end.
    while let Ok(n @ 1..) = file.read(&mut space[done..]) {
        done += n;
    }
    done
}

// Reads a file into the space, and answers its bytes: none where it cannot be opened.
pub fn read_file(rt: &impl Files, path: &str, space: &mut [u8]) -> usize
    ensures { IsPrefixLen result space.new }
{
    match fs::open(rt, path) {
        Ok(mut file) => read_full(&mut file, space),
        Err(_) => 0,
    }
}

// Reads standard input into the space as far as it goes, and answers its bytes.
pub fn read_input(space: &mut [u8]) -> usize
    ensures { IsPrefixLen result space.new }
{
    io::read_full(0, space)
}

// The next parts of standard input, so many at most, up to the first that is not whole.
#[derive(Drop)]
pub struct Parts<const WIDTH: usize> {
    pub most: usize,
    ghost sized: { WIDTH < 2 ^ 63 },
}

impl<const WIDTH: usize> Iterator for Parts<WIDTH> {
    type Item = [u8; WIDTH];

    ghost remaining = { λ parts. at_most parts.most };

    fn next(&mut self) -> Option<[u8; WIDTH]> {
        if self.most == 0 {
            return None;
        }
        self.most -= 1;
        let mut part = [0; WIDTH];
        if read_input(&mut part) < WIDTH {
            return None;
        }
        Some(part)
    }
}
