//! Writes the rows of routes that have their slots.

ghost use Rattle.std.specs.Prelude.{◌≡◌, ◌+◌, ◌≤◌, [], ◌++◌, map, length, vec_len, vec_capacity, IfOk};
ghost use Rattle.ring.specs.Sides.{route_units};
ghost use Rattle.drawn.specs.Slotting.{row_of};
ghost use Rattle.placing.specs.Drawing.{rows_from};

use ring::{Route, Row};
use std::alloc::{AllocError, Global};
use std::marker::Model;

/// As many rows as a plan may have.
const MOST_ROWS: usize = 1024;

/// The rows of a plan. They have all the room that a plan can need from the start, so that to draw one takes no memory.
#[derive(Drop)]
pub struct PlanRows {
    rows: Vec<Row>,
}

impl Model for PlanRows {
    ghost use Rattle.std.specs.Prelude.{◌≤◌, vec_capacity};
    ghost use Rattle.placing.specs.Room.{RowRoom};

    ghost Value = { RowRoom };

    ghost view = { λ p. record { items = p.rows.items; capacity = vec_capacity p.rows } };

    ghost invariant = { λ p. 1024 ≤ vec_capacity p.rows };
}

impl PlanRows {
    /// No rows, with room for as many as a plan may have.
    pub fn with_room(heap: Global) -> Result<PlanRows, AllocError>
        ensures { IfOk result (λ rows. rows.items ≡ []) }
    {
        let rows = Vec::with_capacity(heap, MOST_ROWS)?;
        Ok(PlanRows { rows })
    }

    /// These rows, which have room for as many as a plan may have.
    pub fn from_vec(rows: Vec<Row>) -> PlanRows
        requires { 1024 ≤ vec_capacity rows }
        ensures items { result.items ≡ rows.items }
        ensures capacity { result.capacity ≡ vec_capacity rows }
    {
        PlanRows { rows }
    }

    /// The list of the rows, with its room.
    pub fn into_vec(self) -> Vec<Row>
        ensures items { result.items ≡ self.items }
        ensures capacity { vec_capacity result ≡ self.capacity }
    {
        let PlanRows { rows } = self;
        rows
    }

    /// The rows, in their order.
    pub fn as_slice(&self) -> &[Row]
        ensures { result.now ≡ self.now.items }
    {
        self.rows.as_slice()
    }

    /// Takes all rows out.
    pub fn clear(&mut self)
        ensures items { self.new.items ≡ [] }
        ensures capacity { self.new.capacity ≡ self.old.capacity }
    {
        self.rows.clear();
    }

    /// The rows of the routes, whose slots stand in `slots`, in place of those that are there.
    pub fn replace(&mut self, routes: &[Route], slots: &[u16])
        requires places { route_units routes.now ≡ length slots.now }
        requires room { length slots.now ≤ 1024 }
        ensures items { self.new.items ≡ rows_from routes.now slots.now }
        ensures capacity { self.new.capacity ≡ self.old.capacity }
    {
        self.clear();
        write_rows(routes, slots, &mut self.rows);
    }
}

/// Adds a row of the route for each slot.
fn push_rows(route: &Route, slots: &[u16], rows: &mut Vec<Row>)
    requires { vec_len rows.old + length slots.now ≤ vec_capacity rows.old }
    ensures items { rows.new.items ≡ rows.old.items ++ map (row_of route.now) slots.now }
    ensures len { vec_len rows.new ≡ vec_len rows.old + length slots.now }
    ensures capacity { vec_capacity rows.new ≡ vec_capacity rows.old }
{
    for slot in slots {
        rows.push_reserved(Row {
            demand: route.demand.number,
            side: u8::from(route.side),
            slot: *slot,
        });
    }
}

/// Adds the rows of the routes, whose slots stand in `slots`, those of one route after those of another. There is room for them.
pub fn write_rows(routes: &[Route], slots: &[u16], rows: &mut Vec<Row>)
    requires places { route_units routes.now ≡ length slots.now }
    requires room { vec_len rows.old + length slots.now ≤ vec_capacity rows.old }
    ensures items { rows.new.items ≡ rows.old.items ++ rows_from routes.now slots.now }
    ensures capacity { vec_capacity rows.new ≡ vec_capacity rows.old }
{
    // Kept: a `fold` would carry the same rest, and write the rows from inside its closure.
    let mut rest = slots;
    for route in routes {
        let (part, after) = rest.split_at(usize::from(route.demand.units));
        push_rows(route, part, rows);
        rest = after;
    }
}
