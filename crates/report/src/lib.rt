//! What is printed of a plan file: that it passes, with its figures, or why it is refused, and where.
#![tactic(auto)]

ghost use Rattle.std.specs.Prelude.{◌≡◌, take, IfOk, Some, string_bytes};
ghost use Rattle.planfile.specs.Faults.{cause_of, line_of_fault};
ghost use Rattle.report.specs.Reports.{figure_entries, known, passed_text, place_entries, refused_text, reported};

use causes::Detail;
use keylines::{Entries, Entry, Key, Shown, Spaced};
use lines::fault_line;
use planfile::take::take_file;
use planfile::{PlanFault, Taken};
use ring::{Demand, Refusal, Row};
use std::alloc::{AllocError, Global};
use std::fmt;

// Kept: fillers as constants; an array of `Row::default()` is filled row by row when it runs, which took half as long again for a small file.
/// A place for a demand line, to be filled.
const NO_DEMAND: Demand = Demand {
    number: 0,
    lower: 0,
    upper: 0,
    units: 0,
};

/// A place for a row, to be filled.
const NO_ROW: Row = Row {
    demand: 0,
    side: 0,
    slot: 0,
};

/// An entry with a number.
fn known(key: Key, number: usize) -> Entry
    ensures { result ≡ known key number }
{
    Entry {
        key,
        value: Some(number),
    }
}

/// The book, the ring and the counts of a plan that passes.
fn figure_entries(taken: &Taken) -> [Entry; 5]
    ensures { result ≡ figure_entries taken.now }
{
    [
        known(Key::Book, usize::from(taken.number)),
        known(Key::Nodes, usize::from(taken.nodes)),
        known(Key::Demands, taken.demands),
        known(Key::Units, taken.units),
        known(Key::Slots, usize::from(taken.verdict.slots)),
    ]
}

/// Where a refusal is, and its values.
fn place_entries(line: usize, detail: Detail) -> [Entry; 6]
    ensures { result ≡ place_entries line detail }
{
    [
        known(Key::Line, line),
        Entry {
            key: Key::Character,
            value: detail.character,
        },
        Entry {
            key: Key::Needed,
            value: detail.needed,
        },
        Entry {
            key: Key::Place,
            value: detail.place,
        },
        Entry {
            key: Key::Row,
            value: detail.row,
        },
        Entry {
            key: Key::Met,
            value: detail.met,
        },
    ]
}

/// The loads of the links that the ring has.
fn ring_loads(nodes: u8, loads: &[u16; 16]) -> &[u16]
    ensures { result.now ≡ take nodes loads.now }
{
    let links = usize::from(nodes).min(16);
    &loads[..links]
}

/// A plan that passes. It prints as its figures, and the loads of the links that its ring has.
#[derive(Clone, Copy, Debug)]
struct PassedPlan(Taken);

impl fmt::Display for PassedPlan {
    ghost output = { λ plan. Some (passed_text plan.0) };

    fn fmt<W: fmt::Write>(&self, f: &mut fmt::Formatter<W>) -> fmt::Result {
        let taken = self.0;
        let figures = figure_entries(&taken);
        let loads = ring_loads(taken.nodes, &taken.verdict.loads);
        write!(f, "passed\n{}", Entries(&figures))?;
        writeln!(f, "loads{}", Spaced(loads))
    }
}

/// A plan that is refused. It prints as why, and where, with the line at fault as it is shown.
#[derive(Clone, Copy, Debug)]
struct RefusedPlan<'a> {
    text: &'a [u8],
    fault: PlanFault,
}

impl fmt::Display for RefusedPlan<'_> {
    ghost output = { λ plan. Some (refused_text plan.text.now (line_of_fault plan.fault) (cause_of plan.fault)) };

    fn fmt<W: fmt::Write>(&self, f: &mut fmt::Formatter<W>) -> fmt::Result {
        let line = self.fault.line();
        let cause = Refusal::from(self.fault);
        let number = known(Key::Refused, usize::from(cause.number()));
        let place = place_entries(line, Detail::from(cause));
        writeln!(f, "{number}cause {cause}")?;
        write!(f, "{}", Entries(&place))?;
        writeln!(f, "text {}", Shown(fault_line(self.text, line)))
    }
}

/// What is printed of a plan file: that it passes, with its figures, or why it is refused, and where. There is room for 256 demand lines and 2,048 rows.
pub fn report(heap: Global, text: &[u8]) -> Result<String, AllocError>
    ensures { IfOk result (λ printed. string_bytes printed ≡ reported text.now) }
{
    // Kept: arrays, so that memory is asked for only to hold what is printed.
    let mut lines = [NO_DEMAND; 256];
    let mut rows = [NO_ROW; 2048];
    let mut sheet = [0u16; 1024];
    match take_file(text, &mut lines, &mut rows, &mut sheet) {
        Ok(taken) => PassedPlan(taken).to_string(heap),
        Err(fault) => RefusedPlan { text, fault }.to_string(heap),
    }
}
