// The order that the lines of a text write.
use crate::records::{read_pair, read_round, read_words};
use crate::shape::Shape;
use accounts::Call;
use runs::{Pair, Round};
use std::alloc::{AllocError, Global};
use text::read_number;

/// A run: the number of its mode, which is judged only where it is replayed, and where its records begin and end among those of all runs. A
/// list of its own for each run would take a third more memory on an order of short runs.
#[derive(Clone, Copy)]
pub struct Run {
    mode: u32,
    start: usize,
    end: usize,
}

/// A line: a call that is no run, a run of pairs or a run of rounds.
#[derive(Clone, Copy)]
pub enum Entry {
    Call(Call<'static>),
    Pairs(Run),
    Rounds(Run),
}

/// The step of the first line, each line behind it, or what that should have been, and the records of all runs.
#[derive(Drop)]
pub struct Order {
    pub step: u8,
    pub entries: Vec<Result<Entry, Shape>>,
    pairs: Vec<Pair>,
    rounds: Vec<Round>,
}

// The step of the first line. Steps that are too large for a byte are refused as the largest byte is.
fn read_step(line: &[u8]) -> Option<u8> {
    let step = read_number(line.strip_prefix(b"step ")?)?;
    Some(u8::try_from(step).unwrap_or(u8::MAX))
}

// The number of a mode, under a name of this crate: a function of another crate that is handed on by its own name gets no proof.
fn read_mode(text: &[u8]) -> Option<u32> {
    read_number(text)
}

// The draft of a number that counts from one. 0 is answered as any draft that is not open, so it is read as the last number of all: no
// order has as many drafts, and an option in each call would say no more.
fn read_draft(text: &[u8]) -> Option<usize> {
    let number = read_number(text)? as usize;
    Some(number.checked_sub(1).unwrap_or(usize::MAX))
}

fn read_operands(text: &[u8]) -> Option<Pair> {
    read_words(text, b' ')
}

// The call of this name, which is no run, that has these parts.
fn read_call(name: &[u8], parts: Option<&[u8]>) -> Result<Call<'static>, Shape> {
    Ok(match name {
        b"mode" => Call::SetMode(parts.and_then(read_mode).ok_or(Shape::Mode)?),
        b"divide" => Call::Divide(parts.and_then(read_operands).ok_or(Shape::Divide)?),
        b"begin" => Call::Begin(parts.and_then(read_operands).ok_or(Shape::Begin)?),
        b"round" => Call::Round(parts.and_then(read_draft).ok_or(Shape::Round)?),
        b"post" => Call::Post(parts.and_then(read_draft).ok_or(Shape::Post)?),
        b"strike" => Call::StrikeOut(parts.and_then(read_draft).ok_or(Shape::Strike)?),
        b"lower" => parts.is_none().then_some(Call::Lower).ok_or(Shape::Lower)?,
        b"clear" => parts.is_none().then_some(Call::Clear).ok_or(Shape::Clear)?,
        _ => return Err(Shape::AnyCall),
    })
}

// The run that has these parts. Its records are put behind those of the earlier runs, and taken off again where one of them is malformed.
fn read_run<R: Drop, F: FnMut(&[u8]) -> Option<R>>(
    records: &mut Vec<R>,
    parts: Option<&[u8]>,
    mut read_record: F,
) -> Result<Option<Run>, AllocError>
    requires { (f : F) (x : _) → F.pre f x }
{
    let Some(text) = parts else {
        return Ok(None);
    };
    let mut texts = text.split(|byte| *byte == b' ');
    let Some(mode) = texts.next().and_then(read_mode) else {
        return Ok(None);
    };
    let start = records.len();
    for text in texts {
        let Some(record) = read_record(text) else {
            records.truncate(start);
            return Ok(None);
        };
        records.push(record)?;
    }
    let end = records.len();
    Ok(Some(Run { mode, start, end }))
}

impl Run {
    // The run's records among those of all runs.
    fn records<'a, R>(&self, all: &'a [R]) -> &'a [R] {
        all.get(self.start..self.end).unwrap_or(&[])
    }
}

impl Order {
    // A line behind the first.
    fn read_line(&mut self, line: &[u8]) -> Result<Result<Entry, Shape>, AllocError> {
        let mut halves = line.splitn(2, |byte| *byte == b' ');
        let (name, parts) = (halves.next().unwrap_or(line), halves.next());
        Ok(match name {
            b"pairs" => read_run(&mut self.pairs, parts, read_pair)?
                .map(Entry::Pairs)
                .ok_or(Shape::Pairs),
            b"rounds" => read_run(&mut self.rounds, parts, read_round)?
                .map(Entry::Rounds)
                .ok_or(Shape::Rounds),
            _ => read_call(name, parts).map(Entry::Call),
        })
    }

    /// Reads every line. The last of them may end without a newline. There is no order behind a malformed first line.
    pub(crate) fn read(heap: Global, text: &[u8]) -> Result<Option<Order>, AllocError> {
        let text = text.strip_suffix(b"\n").unwrap_or(text);
        let mut lines = text.split(|byte| *byte == b'\n');
        let Some(step) = lines.next().and_then(read_step) else {
            return Ok(None);
        };
        let mut order = Order {
            step,
            entries: Vec::new(heap),
            pairs: Vec::new(heap),
            rounds: Vec::new(heap),
        };
        for line in lines {
            let entry = order.read_line(line)?;
            order.entries.push(entry)?;
        }
        Ok(Some(order))
    }

    // The call of a line.
    fn call(&self, entry: Entry) -> Call<'_> {
        match entry {
            Entry::Call(call) => call,
            Entry::Pairs(run) => Call::RunPairs(run.mode, run.records(&self.pairs)),
            Entry::Rounds(run) => Call::RunRounds(run.mode, run.records(&self.rounds)),
        }
    }

    /// The calls, in the order of their lines.
    pub(crate) fn calls(&self, heap: Global) -> Result<Vec<Call<'_>>, AllocError> {
        let mut calls = Vec::with_capacity(heap, self.entries.len())?;
        let entries = self.entries.iter();
        calls.extend(entries.filter_map(|entry| Some(self.call((*entry).ok()?))))?;
        Ok(calls)
    }
}
