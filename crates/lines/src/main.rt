// Reads requests from standard input, a line each, and writes one reply line for each to standard
// output, in order, until the input ends. Nothing is kept between lines.
#![tactic(auto)]

mod ask;
mod input;
mod memory;
mod message;
mod put;
mod read;
mod reply;
mod rows;

fn main(rt: HostRuntime) {
    let mut chunk = memory::zeros::<{ memory::CHUNK }>();
    let mut line = input::Gathered::new();
    let mut memory = memory::Memory::new();
    input::run(
        &mut rt.stdin(),
        &mut rt.stdout(),
        &mut chunk,
        &mut line,
        &mut memory,
    );
}
