// `check` of the rules: reads a stored table from standard input, the first 4,096 bytes, and prints the verdict. Nothing
// longer than that is a table, and the answer is the same (crate `stored` proves it).
#![tactic(auto)]

use std::io;

fn main(rt: HostRuntime) -> io::Result<()> {
    let mut file = [0u8; 4096];
    let n = printing::read_up_to(&mut rt.stdin(), &mut file)?;
    printing::print_text(&mut rt.stdout(), &file[..n])
}
