// Reads decimal32 words, one a line, and tells the number and the canonical word of each.
#![tactic(auto)]

mod answer;

use answer::Words;
use std::io;
use std::io::{BufWriter, Write};
use text::answer_lines;

fn main(rt: HostRuntime) -> io::Result<()> {
    let mut output = BufWriter::new(rt.alloc(), rt.stdout())?;
    answer_lines(&mut rt.stdin(), &mut output, &Words)?;
    output.flush()
}
