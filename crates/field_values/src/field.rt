//! The names of a field.
ghost use Rattle.std.specs.Prelude.{◌≡◌, ◌≢◌, IfOk, IfErr, OnOk, Some, None};
ghost use Rattle.std.specs.Ordering.{as_partial_cmp};
ghost use Rattle.std.proofs.Common.{rules};
ghost use Rattle.std.specs.Cmp.Rules.{comparing};
ghost use Rattle.std.specs.Cmp.{partial_order_from_own_ties};
ghost use Rattle.field_values.specs.Names.{names_eq, names_cmp, names_fault, field_of, IsName, AreNames};

use crate::items::Copied;
use crate::memory::NoMemory;
use crate::name::{NameFault, NamePart, check_name};
use std::alloc::Global;
use std::cmp::Ordering;
use std::marker::Model;
use std::rc::Rc;

/// A field of a household's data, named by its dataset, row and column. Each name has 1 to 255 bytes, none of them below 32
/// and none equal to 127. Fields are ordered by dataset, then row, then column, each by its bytes.
///
/// A field and its copies share their names, so a copy costs no more than counting one owner more.
#[derive(Debug, Drop)]
pub struct Field {
    names: Rc<Names>,
}

/// The names, which the copies of a field share: one text, in which the dataset, the row and the column stand one behind the
/// other.
#[derive(Debug, Drop)]
struct Names {
    text: String,
    /// Where the row begins.
    row_at: usize,
    /// Where the column begins.
    column_at: usize,
}

impl Model for Names {
    ghost use Rattle.std.specs.Prelude.{string_bytes};
    ghost use Rattle.field_values.specs.Names.{FieldNames, IsCut, cut_names};

    ghost Value = { FieldNames };

    ghost view = { λ n. cut_names (string_bytes n.text) n.row_at n.column_at };

    ghost invariant = { λ n. IsCut (string_bytes n.text) n.row_at n.column_at };
}

impl Model for Field {
    ghost use Rattle.field_values.specs.Names.{FieldNames, AreNames};

    ghost Value = { FieldNames };

    ghost view = { λ f. f.names.value };

    ghost invariant = { λ f. AreNames f.names.value };
}

/// Tests the names in their order.
fn check_names(dataset: &str, row: &str, column: &str) -> Result<(), NameFault>
    ensures good { OnOk result (names_fault (field_of dataset.now row.now column.now) ≡ None) }
    ensures valid { OnOk result (AreNames (field_of dataset.now row.now column.now)) }
    ensures bad { IfErr result (λ fault. names_fault (field_of dataset.now row.now column.now) ≡ Some fault) }
{
    check_name(NamePart::Dataset, dataset.as_bytes())?;
    check_name(NamePart::Row, row.as_bytes())?;
    check_name(NamePart::Column, column.as_bytes())?;
    Ok(())
}

impl Names {
    /// Puts the names one behind the other.
    fn of(alloc: Global, dataset: &str, row: &str, column: &str) -> Result<Names, NoMemory>
        requires { AreNames (field_of dataset.now row.now column.now) }
        ensures { IfOk result (λ n. n ≡ field_of dataset.now row.now column.now) }
    {
        let row_at = dataset.len();
        let column_at = row_at + row.len();
        let mut text = String::with_capacity(alloc, column_at + column.len())?;
        text.push_str(dataset)?;
        text.push_str(row)?;
        text.push_str(column)?;
        Ok(Names {
            text,
            row_at,
            column_at,
        })
    }

    fn dataset(&self) -> &str
        ensures { result.now ≡ self.now.dataset }
    {
        &self.text.as_str()[..self.row_at]
    }

    fn row(&self) -> &str
        ensures { result.now ≡ self.now.row }
    {
        &self.text.as_str()[self.row_at..self.column_at]
    }

    fn column(&self) -> &str
        ensures { result.now ≡ self.now.column }
    {
        &self.text.as_str()[self.column_at..]
    }
}

/// The names in a block of memory that copies of a field can share.
fn shared(alloc: Global, names: Names) -> Result<Rc<Names>, NoMemory>
    ensures { IfOk result (λ block. block.value ≡ names) }
{
    let block = Rc::new(alloc, names)?;
    Ok(block)
}

impl Field {
    /// The field of these names, which are copied.
    pub fn make(alloc: Global, dataset: &str, row: &str, column: &str) -> Result<Field, NameFault>
        ensures names { IfOk result (λ f. f ≡ field_of dataset.now row.now column.now) }
        ensures valid { IfOk result AreNames }
        ensures good { IfOk result (λ f. names_fault f ≡ None) }
        ensures bad { IfErr result (λ fault. fault ≢ NameFault.NoMemory →
            names_fault (field_of dataset.now row.now column.now) ≡ Some fault) }

        // The names are judged before any memory is taken.
        ensures memory { IfErr result (λ fault. fault ≡ NameFault.NoMemory →
            names_fault (field_of dataset.now row.now column.now) ≡ None) }
    {
        check_names(dataset, row, column)?;
        let names = Names::of(alloc, dataset, row, column)?;
        let names = shared(alloc, names)?;
        Ok(Field { names })
    }

    /// The name of its dataset.
    pub fn dataset(&self) -> &str
        ensures value { result.now ≡ self.now.dataset }
        ensures name { IsName result.now }
    {
        self.names.as_ref().dataset()
    }

    /// The name of its row.
    pub fn row(&self) -> &str
        ensures value { result.now ≡ self.now.row }
        ensures name { IsName result.now }
    {
        self.names.as_ref().row()
    }

    /// The name of its column.
    pub fn column(&self) -> &str
        ensures value { result.now ≡ self.now.column }
        ensures name { IsName result.now }
    {
        self.names.as_ref().column()
    }

    /// An equal field, in the same memory.
    pub fn copy(&self) -> Result<Field, NoMemory>
        ensures { IfOk result (λ f. f ≡ self.now) }
    {
        let names = self.names.clone()?;
        Ok(Field { names })
    }
}

impl Copied for Field {
    fn copied(&self) -> Result<Field, NoMemory> {
        self.copy()
    }
}

impl PartialEq for Field {
    ghost eq = { names_eq };

    ghost laws = { Prim.search (comparing, rules) };

    fn eq(&self, other: &Field) -> bool {
        self.dataset() == other.dataset()
            && self.row() == other.row()
            && self.column() == other.column()
    }
}

impl Eq for Field {
    ghost laws = { Prim.search (comparing, rules) };
}

impl Ord for Field {
    ghost cmp = { names_cmp };

    ghost total = { Prim.search (comparing, rules) };

    ghost matches_partial_cmp = { Prim.search (comparing, rules) };

    ghost matches_eq = { Prim.search (comparing, rules) };

    fn cmp(&self, other: &Field) -> Ordering {
        self.dataset()
            .cmp(other.dataset())
            .then_with(|| self.row().cmp(other.row()))
            .then_with(|| self.column().cmp(other.column()))
    }
}

impl PartialOrd for Field {
    ghost partial_cmp = { as_partial_cmp names_cmp };

    ghost laws = { partial_order_from_own_ties (Prim.search (comparing, rules)) (Prim.search (comparing, rules)) };

    fn partial_cmp(&self, other: &Field) -> Option<Ordering> {
        Some(self.cmp(other))
    }
}
