// Reads a size, a limit, a sheet and calls from standard input, and prints the answers.
#![tactic(auto)]

#[cfg(test)]
mod tests;
mod verdict;

use protocol::input::max_input;
use protocol::line::Line;
use refusal::answer_number;
use std::io;
use std::io::{Read, Write};
use verdict::verdict;

fn main(rt: HostRuntime) -> io::Result<()> {
    let mut input = Vec::new(rt.alloc());
    // `as`, since `From` makes no u64 of a usize
    rt.stdin().take(max_input() as u64).read_to_end(&mut input)?;
    let answer = answer_number(verdict(&input));
    rt.stdout().write_all(Line::sheet(answer).as_bytes())
}
