// Carries out an order of calls on a new season card, answers each of them, and tells the card at the end.
#![tactic(auto)]

mod answers;
mod order;
mod records;
mod shape;

use answers::{Malformed, Told};
use anyhow::anyhow;
use order::Order;
use orders::{NotReplayed, Replayed, Room, replay};
use reciprocal::TWO_LAYERS;
use shape::Shape;
use std::io::{self, BufWriter, Read, Write};

// A line for each line of the order, and then the card. Only calls have outcomes, so these go on only where a line is a call.
fn tell_all(rt: &HostRuntime, order: &Order, replayed: &Replayed) -> io::Result<()> {
    let mut output = BufWriter::new(rt.alloc(), rt.stdout())?;
    let mut outcomes = replayed.outcomes.iter();
    for (line, entry) in (2usize..).zip(&order.entries) {
        if let Err(expected) = *entry {
            writeln!(output, "{}", Malformed { line, expected })?;
        } else if let Some(outcome) = outcomes.next() {
            writeln!(output, "{}", Told(*outcome))?;
        }
    }
    writeln!(output, "{}", Told(replayed.card))?;
    output.flush()
}

// Replays the order over two layers above the three-digit table. An order of a step above four is not begun, and has one answer.
fn carry_out(rt: &HostRuntime, order: &Order) -> anyhow::Result<()> {
    let calls = order.calls(rt.alloc())?;
    let room = Room::for_calls(rt.alloc(), calls.len())?;
    match replay(&TWO_LAYERS, order.step, &calls, room) {
        Ok(replayed) => Ok(tell_all(rt, order, &replayed)?),
        Err(NotReplayed::Step(fault)) => Ok(println!(rt; "{}", Told(fault))?),
        Err(NotReplayed::Room) => Err(anyhow!("there is no room for the calls")),
    }
}

fn run(rt: &HostRuntime) -> anyhow::Result<()> {
    let mut text = Vec::new(rt.alloc());
    rt.stdin().read_to_end(&mut text)?;
    match Order::read(rt.alloc(), &text)? {
        Some(order) => carry_out(rt, &order),
        None => {
            let expected = Shape::Step;
            Ok(println!(rt; "{}", Malformed { line: 1, expected })?)
        }
    }
}

fn main(rt: HostRuntime) -> anyhow::Result<()> {
    run(&rt)
}
