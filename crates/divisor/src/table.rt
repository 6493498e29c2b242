// The equation table: a column for each unknown, and a last one for the multiplier that is fixed at 1. A row that is kept stands at the index of
// its pivot column, where its cell is 1; where no row is kept the cell on the diagonal is 0. A row kept in the last column says 1 = 0: there is
// no solution.
ghost use Rattle.std.specs.Prelude.{◌≡◌, ◌-◌, ◌<◌};
ghost use Rattle.field.specs.Contract.{element};
ghost use Rattle.divisor.specs.Table.Model.{most_columns, AtColumn, Back, TableReady, StepReady, Reduces, row_at, empty_table, minus, scaled_row, with_row, keeping, diagonal, value, values, solved};

use field::{Element, MOST_KEYS, MOST_POINTS, Residue};

// An unknown for each key that a skeleton can have, and a multiplier for each point, of which the first is fixed.
pub(crate) const MOST_COLUMNS: usize = MOST_KEYS + MOST_POINTS;

// Columns are counted in 16 bits: on a 32-bit core a 64-bit count takes two registers.
pub(crate) type Column = u16;

pub(crate) type Cells = [Residue; MOST_COLUMNS];

// A row of the table, or an equation on its way there: an array of its own type, with the steps on it as methods.
#[derive(Clone, Copy)]
pub(crate) struct Row {
    pub cells: Cells,
}

// The table is lent and changed in place; nothing copies it. `columns` is one more than the number of unknowns.
#[derive(Drop)]
pub(crate) struct Table {
    pub rows: [Row; MOST_COLUMNS],
    pub columns: Column,
}

// What is left of an equation: the row to keep, and the column to keep it in.
#[derive(Drop)]
struct Reduced {
    pub row: Row,
    pub column: Column,
}

// How many solutions the equations have. Where there is one, it has the values of the unknowns, and zeros behind them.
#[derive(Drop)]
pub(crate) enum Solution {
    None,
    One(Cells),
    Several,
}

impl Row {
    // Less the multiple of the row kept in column j that makes the cell there 0. Before column j both have zeros, and nothing changes there.
    fn subtract(&mut self, kept: &Row, j: Column, columns: Column, p: Residue)
        requires { AtColumn p self.old j columns }
        ensures { self.new ≡ minus p self.old kept.now j columns }
    {
        let factor = Element::of(p, self.cells[j as usize]);
        for i in j..columns {
            let cell = Element::of(p, self.cells[i as usize]);
            let next = cell.minus_product(factor, Element::of(p, kept.cells[i as usize]));
            self.cells[i as usize] = next.value;
        }
    }

    // Times the inverse of its cell in column j, which becomes 1.
    fn scale(&mut self, j: Column, columns: Column, p: Residue)
        requires { AtColumn p self.old j columns }
        ensures { self.new ≡ scaled_row p self.old j columns }
    {
        let first = Element::of(p, self.cells[j as usize]);
        let inverse = first.inverse();
        for i in j..columns {
            let next = inverse.product(Element::of(p, self.cells[i as usize]));
            self.cells[i as usize] = next.value;
        }
    }
}

impl Table {
    // No row is kept.
    pub(crate) fn empty(columns: Column) -> Table
        ensures { result ≡ empty_table columns }
    {
        Table {
            rows: [Row {
                cells: [0; MOST_COLUMNS],
            }; MOST_COLUMNS],
            columns,
        }
    }

    // The cell of column j that is 0 where no row is kept.
    fn diagonal(&self, j: Column) -> Residue
        requires { j < most_columns }
        ensures { result ≡ diagonal self.now j }
    {
        self.rows[j as usize].cells[j as usize]
    }

    // The step: column after column the kept row is taken off the equation, and it is to be kept in the first column where no row is and its cell is not 0.
    fn reduce(&self, e: Row, p: Residue) -> Option<Reduced>
        requires { StepReady p self.now e }
        ensures { Reduces p self.now e result }
    {
        let mut row = e;
        for j in 0..self.columns {
            if row.cells[j as usize] != 0 {
                if self.diagonal(j) == 0 {
                    row.scale(j, self.columns, p);
                    return Some(Reduced { row, column: j });
                }
                row.subtract(&self.rows[j as usize], j, self.columns, p);
            }
        }
        None
    }

    // The row that a step hands back among the others.
    fn keep(&mut self, left: Reduced)
        requires { left.column < most_columns }
        ensures { self.new ≡ keeping self.old left }
    {
        self.rows[left.column as usize] = left.row;
    }

    // One more equation: what the step leaves of it is kept.
    pub(crate) fn add_equation(&mut self, e: Row, p: Residue)
        requires { StepReady p self.old e }
        ensures { self.new ≡ with_row p self.old e }
    {
        if let Some(left) = self.reduce(e, p) {
            self.keep(left);
        }
    }

    // The unknown of column j, by its row, from the values of those behind it; the last one is 1.
    fn value(&self, values: &Cells, j: Column, p: Residue) -> Element
        requires { Back p self.now values.now j }
        ensures { result ≡ element p (value p (row_at self.now j) values.now j (self.now.columns - 1)) }
    {
        let row = &self.rows[j as usize];
        let last = self.columns - 1;
        let mut sum = Element::of(p, row.cells[last as usize]);
        for k in j + 1..last {
            sum = sum.plus_product(
                Element::of(p, row.cells[k as usize]),
                Element::of(p, values[k as usize]),
            );
        }
        let zero = Element::zero(p);
        zero.difference(sum)
    }

    // Back substitution, from the last unknown to the first.
    fn values(&self, p: Residue) -> Cells
        requires { TableReady p self.now }
        ensures { result ≡ values p self.now }
    {
        let mut values: Cells = [0; MOST_COLUMNS];
        for j in (0..self.columns - 1).rev() {
            let value = self.value(&values, j, p);
            values[j as usize] = value.value;
        }
        values
    }

    // None where a row is kept in the last column; several where a column of an unknown has none; else the values of the only one.
    pub(crate) fn solution(&self, p: Residue) -> Solution
        requires { TableReady p self.now }
        ensures { result ≡ solved p self.now }
    {
        let last = self.columns - 1;
        if self.diagonal(last) != 0 {
            return Solution::None;
        }
        for j in 0..last {
            if self.diagonal(j) == 0 {
                return Solution::Several;
            }
        }
        Solution::One(self.values(p))
    }
}
