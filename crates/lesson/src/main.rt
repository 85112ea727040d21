// The lesson runner: reads a steps file from standard input, and prints the lesson's listing.
#![tactic(auto)]

use runner::listing::{FAULT_LINE, OUTPUT, list, list_header_fault};
use std::io;
use std::io::{Read, Write};
use steps::steps_file::LONGEST;

fn main(rt: HostRuntime) -> anyhow::Result<()> {
    let file = read_input(&rt)?;
    // a header that is unlawful is told even where there is no memory left
    let mut line = [0; FAULT_LINE];
    if let Some(length) = list_header_fault(file.as_slice(), &mut line) {
        rt.stdout().write_all(&line[..length])?;
        return Ok(());
    }
    let mut out = vec![in rt.alloc(); 0; OUTPUT]?;
    let length = list(rt.alloc(), file.as_slice(), out.as_mut_slice())?;
    rt.stdout().write_all(&out[..length])?;
    Ok(())
}

// Standard input, up to one byte more than a lawful file can have.
fn read_input(rt: &HostRuntime) -> io::Result<Vec<u8>> {
    let mut file = Vec::new(rt.alloc());
    rt.stdin().take(LONGEST as u64 + 1).read_to_end(&mut file)?;
    Ok(file)
}
