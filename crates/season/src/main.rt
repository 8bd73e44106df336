// Posts golf rounds, a line each, on a season card, and tells what each of them adds and what the season comes to.
#![tactic(auto)]

mod answers;
mod lines;
mod posting;

use anyhow::anyhow;
use lines::read_line;
use posting::Season;
use reciprocal::TWO_LAYERS;
use std::io::{BufRead, BufReader, BufWriter, Write};
use std::{env, io};
use text::read_number;

// Answers every line of the standard input, and then tells the season. It is no `text::answer_lines`: a comment may be longer than a `Line`
// keeps, and the season changes with each line.
fn answer_all(rt: &HostRuntime, mut season: Season) -> io::Result<()> {
    let mut output = BufWriter::new(rt.alloc(), rt.stdout())?;
    let lines = BufReader::new(rt.alloc(), rt.stdin())?.split(rt.alloc(), b'\n');
    for (number, line) in (1u64..).zip(lines) {
        match season.answer(&TWO_LAYERS, read_line(line?.as_slice())) {
            Some(Ok(added)) => writeln!(output, "line {number}: {added}")?,
            Some(Err(problem)) => writeln!(output, "line {number}: {problem}")?,
            None => {}
        }
    }
    writeln!(output, "{season}")?;
    output.flush()
}

// A season in the mode that is asked for, or in mode 1.
fn begin_season(rt: &HostRuntime) -> anyhow::Result<Season> {
    let mode = match env::args(rt)?.nth(1) {
        Some(text) => read_number(text.as_bytes()),
        None => Some(1),
    };
    mode.and_then(|mode| Season::begin(mode).ok())
        .ok_or_else(|| anyhow!("the mode is not a number from 1 to 7"))
}

fn run(rt: &HostRuntime) -> anyhow::Result<()> {
    Ok(answer_all(rt, begin_season(rt)?)?)
}

fn main(rt: HostRuntime) -> anyhow::Result<()> {
    run(&rt)
}
