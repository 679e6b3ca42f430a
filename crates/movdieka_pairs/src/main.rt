// The program of the sheet of pairs: reads a sheet from standard input and writes its answers to standard output.
#![tactic(auto)]

use answering::program::{ProgramFault, answer_input};

fn main(rt: HostRuntime) -> Result<(), ProgramFault> {
    let mut input = rt.stdin();
    let mut output = rt.stdout();
    answer_input(rt.alloc(), &mut input, &mut output, pair_sheet::run::run)
}
