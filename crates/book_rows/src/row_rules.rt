//! Which columns each kind of row has, and how each is set.
ghost use Rattle.book_rows.specs.Rules.{tx_table, budget_table, account_table, group_table, category_table, payee_table, month_table, note_table, rule_table, schedule_table, category_mapping_table, payee_mapping_table};

use crate::column::Column;
use crate::kind::{Kind, day, flag, int, text};
use crate::rows::{
    AccountRow, BudgetRow, CategoryMappingRow, CategoryRow, GroupRow, MonthRow, NoteRow,
    PayeeMappingRow, PayeeRow, RuleRow, ScheduleRow, TxRow,
};
use crate::table::Row;
use field_values::{NoMemory, Txt, Value};

impl Row for TxRow {
    ghost table = { tx_table };

    fn kind(column: Column) -> Option<Kind> {
        match column {
            Column::Acct => Some(Kind::Text),
            Column::Date => Some(Kind::Day),
            Column::Amount => Some(Kind::Int),
            Column::Description => Some(Kind::Text),
            Column::Category => Some(Kind::Text),
            Column::Notes => Some(Kind::Text),
            Column::ImportedDescription => Some(Kind::Text),
            Column::FinancialId => Some(Kind::Text),
            Column::TransferredId => Some(Kind::Text),
            Column::Schedule => Some(Kind::Text),
            Column::IsParent => Some(Kind::Flag),
            Column::IsChild => Some(Kind::Flag),
            Column::ParentId => Some(Kind::Text),
            Column::Cleared => Some(Kind::Flag),
            Column::Reconciled => Some(Kind::Flag),
            Column::SortOrder => Some(Kind::Int),
            Column::Tombstone => Some(Kind::Flag),
            _ => None,
        }
    }

    fn blank(id: Txt) -> TxRow {
        TxRow {
            id,
            acct: None,
            date: None,
            amount: 0,
            description: None,
            category: None,
            notes: None,
            imported_description: None,
            financial_id: None,
            transferred_id: None,
            schedule: None,
            is_parent: false,
            is_child: false,
            parent_id: None,
            cleared: false,
            reconciled: false,
            sort_order: 0,
            tombstone: false,
        }
    }

    fn set(&mut self, column: Column, value: &Value) -> Result<(), NoMemory> {
        match column {
            Column::Acct => self.acct = text(value)?,
            Column::Date => self.date = day(value),
            Column::Amount => self.amount = int(value),
            Column::Description => self.description = text(value)?,
            Column::Category => self.category = text(value)?,
            Column::Notes => self.notes = text(value)?,
            Column::ImportedDescription => self.imported_description = text(value)?,
            Column::FinancialId => self.financial_id = text(value)?,
            Column::TransferredId => self.transferred_id = text(value)?,
            Column::Schedule => self.schedule = text(value)?,
            Column::IsParent => self.is_parent = flag(value),
            Column::IsChild => self.is_child = flag(value),
            Column::ParentId => self.parent_id = text(value)?,
            Column::Cleared => self.cleared = flag(value),
            Column::Reconciled => self.reconciled = flag(value),
            Column::SortOrder => self.sort_order = int(value),
            Column::Tombstone => self.tombstone = flag(value),
            _ => {}
        }
        Ok(())
    }
}

impl Row for BudgetRow {
    ghost table = { budget_table };

    fn kind(column: Column) -> Option<Kind> {
        match column {
            Column::Month => Some(Kind::Int),
            Column::Category => Some(Kind::Text),
            Column::Amount => Some(Kind::Int),
            Column::Carryover => Some(Kind::Flag),
            _ => None,
        }
    }

    fn blank(id: Txt) -> BudgetRow {
        BudgetRow {
            id,
            month: 0,
            category: None,
            amount: 0,
            carryover: false,
        }
    }

    fn set(&mut self, column: Column, value: &Value) -> Result<(), NoMemory> {
        match column {
            Column::Month => self.month = int(value),
            Column::Category => self.category = text(value)?,
            Column::Amount => self.amount = int(value),
            Column::Carryover => self.carryover = flag(value),
            _ => {}
        }
        Ok(())
    }
}

impl Row for AccountRow {
    ghost table = { account_table };

    fn kind(column: Column) -> Option<Kind> {
        match column {
            Column::Name => Some(Kind::Text),
            Column::Offbudget => Some(Kind::Flag),
            Column::Closed => Some(Kind::Flag),
            Column::SortOrder => Some(Kind::Int),
            Column::Tombstone => Some(Kind::Flag),
            _ => None,
        }
    }

    fn blank(id: Txt) -> AccountRow {
        AccountRow {
            id,
            name: None,
            offbudget: false,
            closed: false,
            sort_order: 0,
            tombstone: false,
        }
    }

    fn set(&mut self, column: Column, value: &Value) -> Result<(), NoMemory> {
        match column {
            Column::Name => self.name = text(value)?,
            Column::Offbudget => self.offbudget = flag(value),
            Column::Closed => self.closed = flag(value),
            Column::SortOrder => self.sort_order = int(value),
            Column::Tombstone => self.tombstone = flag(value),
            _ => {}
        }
        Ok(())
    }
}

impl Row for GroupRow {
    ghost table = { group_table };

    fn kind(column: Column) -> Option<Kind> {
        match column {
            Column::Name => Some(Kind::Text),
            Column::IsIncome => Some(Kind::Flag),
            Column::SortOrder => Some(Kind::Int),
            Column::Hidden => Some(Kind::Flag),
            Column::Tombstone => Some(Kind::Flag),
            _ => None,
        }
    }

    fn blank(id: Txt) -> GroupRow {
        GroupRow {
            id,
            name: None,
            is_income: false,
            sort_order: 0,
            hidden: false,
            tombstone: false,
        }
    }

    fn set(&mut self, column: Column, value: &Value) -> Result<(), NoMemory> {
        match column {
            Column::Name => self.name = text(value)?,
            Column::IsIncome => self.is_income = flag(value),
            Column::SortOrder => self.sort_order = int(value),
            Column::Hidden => self.hidden = flag(value),
            Column::Tombstone => self.tombstone = flag(value),
            _ => {}
        }
        Ok(())
    }
}

impl Row for CategoryRow {
    ghost table = { category_table };

    fn kind(column: Column) -> Option<Kind> {
        match column {
            Column::Name => Some(Kind::Text),
            Column::CatGroup => Some(Kind::Text),
            Column::IsIncome => Some(Kind::Flag),
            Column::SortOrder => Some(Kind::Int),
            Column::Hidden => Some(Kind::Flag),
            Column::Tombstone => Some(Kind::Flag),
            _ => None,
        }
    }

    fn blank(id: Txt) -> CategoryRow {
        CategoryRow {
            id,
            name: None,
            cat_group: None,
            is_income: false,
            sort_order: 0,
            hidden: false,
            tombstone: false,
        }
    }

    fn set(&mut self, column: Column, value: &Value) -> Result<(), NoMemory> {
        match column {
            Column::Name => self.name = text(value)?,
            Column::CatGroup => self.cat_group = text(value)?,
            Column::IsIncome => self.is_income = flag(value),
            Column::SortOrder => self.sort_order = int(value),
            Column::Hidden => self.hidden = flag(value),
            Column::Tombstone => self.tombstone = flag(value),
            _ => {}
        }
        Ok(())
    }
}

impl Row for PayeeRow {
    ghost table = { payee_table };

    fn kind(column: Column) -> Option<Kind> {
        match column {
            Column::Name => Some(Kind::Text),
            Column::TransferAcct => Some(Kind::Text),
            Column::Tombstone => Some(Kind::Flag),
            _ => None,
        }
    }

    fn blank(id: Txt) -> PayeeRow {
        PayeeRow {
            id,
            name: None,
            transfer_acct: None,
            tombstone: false,
        }
    }

    fn set(&mut self, column: Column, value: &Value) -> Result<(), NoMemory> {
        match column {
            Column::Name => self.name = text(value)?,
            Column::TransferAcct => self.transfer_acct = text(value)?,
            Column::Tombstone => self.tombstone = flag(value),
            _ => {}
        }
        Ok(())
    }
}

impl Row for MonthRow {
    ghost table = { month_table };

    fn kind(column: Column) -> Option<Kind> {
        match column {
            Column::Buffered => Some(Kind::Int),
            _ => None,
        }
    }

    fn blank(id: Txt) -> MonthRow {
        MonthRow { id, buffered: 0 }
    }

    fn set(&mut self, column: Column, value: &Value) -> Result<(), NoMemory> {
        match column {
            Column::Buffered => self.buffered = int(value),
            _ => {}
        }
        Ok(())
    }
}

impl Row for NoteRow {
    ghost table = { note_table };

    fn kind(column: Column) -> Option<Kind> {
        match column {
            Column::Note => Some(Kind::Text),
            _ => None,
        }
    }

    fn blank(id: Txt) -> NoteRow {
        NoteRow { id, note: None }
    }

    fn set(&mut self, column: Column, value: &Value) -> Result<(), NoMemory> {
        match column {
            Column::Note => self.note = text(value)?,
            _ => {}
        }
        Ok(())
    }
}

impl Row for RuleRow {
    ghost table = { rule_table };

    fn kind(column: Column) -> Option<Kind> {
        match column {
            Column::Stage => Some(Kind::Text),
            Column::ConditionsOp => Some(Kind::Text),
            Column::Conditions => Some(Kind::Text),
            Column::Actions => Some(Kind::Text),
            Column::Tombstone => Some(Kind::Flag),
            _ => None,
        }
    }

    fn blank(id: Txt) -> RuleRow {
        RuleRow {
            id,
            stage: None,
            conditions_op: None,
            conditions: None,
            actions: None,
            tombstone: false,
        }
    }

    fn set(&mut self, column: Column, value: &Value) -> Result<(), NoMemory> {
        match column {
            Column::Stage => self.stage = text(value)?,
            Column::ConditionsOp => self.conditions_op = text(value)?,
            Column::Conditions => self.conditions = text(value)?,
            Column::Actions => self.actions = text(value)?,
            Column::Tombstone => self.tombstone = flag(value),
            _ => {}
        }
        Ok(())
    }
}

impl Row for ScheduleRow {
    ghost table = { schedule_table };

    fn kind(column: Column) -> Option<Kind> {
        match column {
            Column::Rule => Some(Kind::Text),
            Column::Name => Some(Kind::Text),
            Column::NextDate => Some(Kind::Day),
            Column::Completed => Some(Kind::Flag),
            Column::PostsTransaction => Some(Kind::Flag),
            Column::Tombstone => Some(Kind::Flag),
            _ => None,
        }
    }

    fn blank(id: Txt) -> ScheduleRow {
        ScheduleRow {
            id,
            rule: None,
            name: None,
            next_date: None,
            completed: false,
            posts_transaction: false,
            tombstone: false,
        }
    }

    fn set(&mut self, column: Column, value: &Value) -> Result<(), NoMemory> {
        match column {
            Column::Rule => self.rule = text(value)?,
            Column::Name => self.name = text(value)?,
            Column::NextDate => self.next_date = day(value),
            Column::Completed => self.completed = flag(value),
            Column::PostsTransaction => self.posts_transaction = flag(value),
            Column::Tombstone => self.tombstone = flag(value),
            _ => {}
        }
        Ok(())
    }
}

impl Row for CategoryMappingRow {
    ghost table = { category_mapping_table };

    fn kind(column: Column) -> Option<Kind> {
        match column {
            Column::TransferId => Some(Kind::Text),
            _ => None,
        }
    }

    fn blank(id: Txt) -> CategoryMappingRow {
        CategoryMappingRow {
            id,
            transfer_id: None,
        }
    }

    fn set(&mut self, column: Column, value: &Value) -> Result<(), NoMemory> {
        match column {
            Column::TransferId => self.transfer_id = text(value)?,
            _ => {}
        }
        Ok(())
    }
}

impl Row for PayeeMappingRow {
    ghost table = { payee_mapping_table };

    fn kind(column: Column) -> Option<Kind> {
        match column {
            Column::TargetId => Some(Kind::Text),
            _ => None,
        }
    }

    fn blank(id: Txt) -> PayeeMappingRow {
        PayeeMappingRow {
            id,
            target_id: None,
        }
    }

    fn set(&mut self, column: Column, value: &Value) -> Result<(), NoMemory> {
        match column {
            Column::TargetId => self.target_id = text(value)?,
            _ => {}
        }
        Ok(())
    }
}
