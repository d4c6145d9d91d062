//! Values of cells by name.
ghost use Rattle.std.specs.Prelude.{◌≡◌, ◌+ℤ◌, true, false, None, OnOk, FitsSigned};
ghost use Rattle.std.specs.Int.{w128};
ghost use Rattle.std.specs.FinMap as map;
ghost use Rattle.std.specs.BTreeMap.{IsOrdered};
ghost use Rattle.envelope_cells.specs.Names.{cell_cmp, cells_in};
ghost use Rattle.envelope_cells.specs.Parts.{value_at};

use crate::name::CellName;
use field_values::NoMemory;
use std::alloc::Global;
use std::collections::BTreeMap;
use std::marker::Model;

/// Values by the names of cells. A contract sees a finite map.
#[derive(Debug, Drop)]
pub struct CellValues {
    values: BTreeMap<CellName, i128>,
}

impl Model for CellValues {
    ghost use Rattle.std.specs.Prelude.{ℤ};
    ghost use Rattle.std.specs.Coded.{coded_ℤ};
    ghost use Rattle.std.specs.FinMap as map;
    ghost use Rattle.std.specs.BTreeMap.{IsOrdered};
    ghost use Rattle.envelope_cells.specs.contracts.name.CellName as cell_name;
    ghost use Rattle.envelope_cells.specs.Names.{Cells, cell_cmp};

    ghost Value = { Cells };

    ghost coded = { map.code cell_name.the_row.coded coded_ℤ };

    ghost view = { λ s. map.from_entries s.values.entries };

    ghost invariant = { λ s. IsOrdered cell_cmp s.values };
}

/// Adds to a value that is there, and tells whether it is.
fn add_to(values: &mut BTreeMap<CellName, i128>, name: &CellName, amount: i128) -> bool
    requires { FitsSigned w128 (value_at (cells_in values.old) name.now +ℤ amount) }
    ensures there { result ≡ true → cells_in values.new ≡ map.insert (cells_in values.old) name.now (value_at (cells_in values.old) name.now +ℤ amount) }
    ensures absent { result ≡ false → (cells_in values.new ≡ cells_in values.old) × (map.get (cells_in values.old) name.now ≡ None) }
    ensures ordered { IsOrdered cell_cmp values.old → IsOrdered cell_cmp values.new }
{
    match values.get_mut(name) {
        Some(value) => {
            *value += amount;
            true
        }
        None => false,
    }
}

impl CellValues {
    /// No values.
    pub fn new(alloc: Global) -> CellValues
        ensures { result ≡ map.empty }
    {
        CellValues {
            values: BTreeMap::new(alloc),
        }
    }

    /// The value of a cell.
    pub fn get(&self, name: &CellName) -> Option<i128>
        ensures { result ≡ map.get self.now name.now }
    {
        self.values.get(name).copied()
    }

    /// Sets the value of a cell.
    pub fn put(&mut self, name: CellName, value: i128) -> Result<(), NoMemory>
        ensures { OnOk result (self.new ≡ map.insert self.old name value) }
    {
        self.values.insert(name, value)?;
        Ok(())
    }

    /// The value of a cell, or 0.
    pub fn at(&self, name: &CellName) -> i128
        ensures { result ≡ value_at self.now name.now }
    {
        self.get(name).unwrap_or(0)
    }

    /// Adds to the value of a cell, which is 0 where there is none.
    pub fn add(&mut self, name: CellName, amount: i128) -> Result<(), NoMemory>
        requires { FitsSigned w128 (value_at self.old name +ℤ amount) }
        ensures { OnOk result (self.new ≡ map.insert self.old name (value_at self.old name +ℤ amount)) }
    {
        if add_to(&mut self.values, &name, amount) {
            return Ok(());
        }
        self.put(name, amount)
    }
}
