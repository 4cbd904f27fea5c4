// What the program `regtrace` decides.
ghost use Rattle.std.specs.Prelude.{◌≡◌, IfOk};
ghost use Rattle.traces.specs.Traces.{slots_in, rows_in};
ghost use Rattle.replays.specs.Regtrace.{pile_of, text_in, PileRefuses, Runs, Shows, Prints};
ghost use Rattle.replays.specs.Replayed.{Answers};

use crate::replaying::{Replayed, replay};
use directories::{Cell, HashedDirectory, MOST_SLOTS};
use orders::new_pile;
use std::alloc::{AllocError, Global};
use traces::{Printable, Report, Trace, TraceError, read_trace, write_text};

/// What the program prints: a report, and it ends well; or a fault.
// An enum of its own, and no `Result` of two texts: both are printed, and a `?` would end the program before that.
#[derive(Debug, PartialEq, Drop)]
pub enum Printout {
    Report(Vec<u8>),
    Fault(Vec<u8>),
}

impl Printout {
    /// What is printed.
    pub fn text(&self) -> &[u8]
        ensures { result.now ≡ text_in self.now }
    {
        match self {
            Printout::Report(text) | Printout::Fault(text) => text.as_slice(),
        }
    }
}

/// Over the pile no row is refused but the first, and that only where there is no slot.
pub fn pile_stands()
    ensures { PileRefuses }
{}

/// Replays a trace over the pile and a hashed directory, with as many slots of one byte as the trace says.
fn replay_pile(heap: Global, trace: &Trace) -> Result<Report, TraceError>
    ensures { Answers (pile_of (slots_in trace.now)) (slots_in trace.now) (rows_in trace.now) result }
{
    let slots = trace.slots() as usize;
    let mut cells = [Cell::new(); MOST_SLOTS];
    let mut slab = [0; MOST_SLOTS];
    let directory = HashedDirectory::new(&mut cells[..slots]);
    let Replayed { cache, outcome } = replay(
        heap,
        directory,
        new_pile(),
        0,
        1,
        &mut slab[..slots],
        trace,
    );
    let (_directory, _order) = cache.into_parts();
    outcome
}

/// The report of an input, or its fault.
fn report_on(heap: Global, input: &[u8]) -> Result<Report, TraceError>
    ensures { Runs input.now result }
{
    let trace = read_trace(heap, input)?;
    replay_pile(heap, &trace)
}

/// The text of an item.
fn bytes_of<T: Printable>(heap: Global, item: &T) -> Result<Vec<u8>, AllocError>
    ensures { IfOk result (λ v. v.items ≡ T.text_of item.now) }
{
    let mut text = vec![in heap; 0; item.text_len()]?;
    let _ = write_text(item, text.as_mut_slice());
    Ok(text)
}

/// What is printed of a report or a fault.
fn print(heap: Global, outcome: Result<Report, TraceError>) -> Result<Printout, AllocError>
    ensures { IfOk result (λ p. Shows outcome p) }
{
    match outcome {
        Ok(report) => Ok(Printout::Report(bytes_of(heap, &report)?)),
        Err(TraceError::Found(fault)) => Ok(Printout::Fault(bytes_of(heap, &fault)?)),
        Err(TraceError::Memory) => Err(AllocError),
    }
}

/// What the program does with an input: it prints the report of the trace that the input says, or else a fault.
pub fn run_regtrace(heap: Global, input: &[u8]) -> Result<Printout, AllocError>
    ensures { IfOk result (λ p. Prints input.now p) }
{
    let outcome = report_on(heap, input);
    print(heap, outcome)
}
