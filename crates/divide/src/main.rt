// Divides decimal32 words, a pair a line, over a chosen source of reciprocals.
#![tactic(auto)]

mod answer;
mod request;

use answer::Divisions;
use anyhow::anyhow;
use reciprocal::{Newton, ShortDivision, Source, TWO_LAYERS, TwoDigitTable};
use std::io::{BufWriter, Write};
use std::{env, io};
use text::answer_lines;

// Answers every line of the standard input over `source`.
fn answer_all<S: Source>(rt: &HostRuntime, source: &S) -> io::Result<()> {
    let mut output = BufWriter::new(rt.alloc(), rt.stdout())?;
    answer_lines(&mut rt.stdin(), &mut output, &Divisions(source))?;
    output.flush()
}

fn run(rt: &HostRuntime) -> anyhow::Result<()> {
    let mut arguments = env::args(rt)?;
    let _program = arguments.next();
    let name = arguments.next();
    // The sources have three types, so each name calls the generic function with its own. A `&dyn Source` is no plainer: these calls are
    // made for each source and inlined, and a `dyn` would be called through a table at each line.
    match name.as_ref().map_or("three", |name| name.as_str()) {
        "three" => answer_all(rt, &TWO_LAYERS)?,
        // Four layers over the two-digit table claim nine digits.
        "two" => answer_all(rt, &Newton(Newton(Newton(Newton(TwoDigitTable)))))?,
        "short" => answer_all(rt, &ShortDivision::claiming(9))?,
        _ => return Err(anyhow!("the source is none of three, two and short")),
    }
    Ok(())
}

fn main(rt: HostRuntime) -> anyhow::Result<()> {
    run(&rt)
}
