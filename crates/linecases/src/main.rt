// Compares the answers of the library netlist with a table of texts, and counts its answers for texts next to a good one.
// It prints how many cases of the table agree, each that does not, and the counts, which its file stdout holds.
#![tactic(auto)]

mod counts;
mod table;

use std::io;
use table::CASES;

fn main(rt: HostRuntime) -> io::Result<()> {
    for case in CASES.iter().filter(|case| !case.agrees()) {
        println!(rt; "differs: {:?}", case.text)?;
    }
    let agreed = CASES.iter().filter(|case| case.agrees()).count();
    println!(rt; "cases={} agreed={agreed}", CASES.len())?;
    println!(rt; "changed: {}", counts::changed())?;
    println!(rt; "shortened: {}", counts::shortened())
}
