//! What a rule says.
ghost use Rattle.std.specs.Prelude.{◌≡◌, IfOk};

use book_rows::copied;
use field_values::{Copied, Items, NoMemory, Txt};
use std::alloc::Global;

/// The column of a transaction that a condition tests.
#[derive(Clone, Copy, Debug, PartialEq, Eq)]
pub enum CondField {
    /// The id of its account.
    Acct,
    /// The id of its payee.
    Description,
    /// The id of its category.
    Category,
    /// The payee as a statement calls it.
    ImportedDescription,
    /// What is noted of it.
    Notes,
    /// Its amount.
    Amount,
    /// Its day.
    Date,
    /// Whether the bank has it.
    Cleared,
}

/// How a condition tests its column.
#[derive(Clone, Copy, Debug, PartialEq, Eq)]
pub enum CondOp {
    /// It is the value.
    Is,
    /// It is not the value.
    IsNot,
    /// It is one of the values.
    OneOf,
    /// It is none of the values.
    NotOneOf,
    /// The value stands somewhere in it.
    Contains,
    /// The value stands nowhere in it.
    DoesNotContain,
    /// It is near the value.
    IsApprox,
    /// It lies between two values, both included.
    IsBetween,
    /// It is greater than the value.
    Gt,
    /// It is greater than the value, or is it.
    Gte,
    /// It is less than the value.
    Lt,
    /// It is less than the value, or is it.
    Lte,
}

/// What a condition compares with. Amounts are in cents, a day is YYYYMMDD.
#[derive(Debug, Drop)]
pub enum CondValue {
    /// None.
    Null,
    /// An id or a text.
    Text(Txt),
    /// Ids or texts.
    Texts(Items<Txt>),
    /// An amount.
    Number(i64),
    /// Two amounts, in either order.
    Between { num1: i64, num2: i64 },
    /// A day.
    Date(u32),
    /// The days of a recurrence, whose object stands in the text of the rule's conditions, at the place of this one. No day meets
    /// it.
    Recurrence,
    /// Whether it is set.
    Flag(bool),
}

impl CondValue {
    /// An equal value.
    pub fn copy(&self, alloc: Global) -> Result<CondValue, NoMemory>
        ensures { IfOk result (λ value. value ≡ self.now) }
    {
        match self {
            CondValue::Null => Ok(CondValue::Null),
            CondValue::Text(text) => Ok(CondValue::Text(text.copy()?)),
            CondValue::Texts(texts) => Ok(CondValue::Texts(texts.copy(alloc)?)),
            CondValue::Number(number) => Ok(CondValue::Number(*number)),
            CondValue::Between { num1, num2 } => Ok(CondValue::Between {
                num1: *num1,
                num2: *num2,
            }),
            CondValue::Date(day) => Ok(CondValue::Date(*day)),
            CondValue::Recurrence => Ok(CondValue::Recurrence),
            CondValue::Flag(flag) => Ok(CondValue::Flag(*flag)),
        }
    }
}

/// A test of one column of a transaction.
#[derive(Debug, Drop)]
pub struct Condition {
    /// The column.
    pub field: CondField,
    /// The test.
    pub op: CondOp,
    /// What the test compares with.
    pub value: CondValue,
}

impl Condition {
    /// An equal condition.
    pub fn copy(&self, alloc: Global) -> Result<Condition, NoMemory>
        ensures { IfOk result (λ condition. condition ≡ self.now) }
    {
        Ok(Condition {
            field: self.field,
            op: self.op,
            value: self.value.copy(alloc)?,
        })
    }
}

/// A change of one column of a transaction.
#[derive(Debug, Drop)]
pub enum Action {
    /// Gives it a payee, or none. One that isn't live changes nothing.
    SetDescription(Option<Txt>),
    /// Gives it a category, or none, where it is neither split nor in a pair. One that isn't live
    /// changes nothing.
    SetCategory(Option<Txt>),
    /// Notes a text. Empty notes are none.
    SetNotes(Txt),
    /// Says whether the bank has it.
    SetCleared(bool),
    /// Puts a text in front of its notes.
    PrependNotes(Txt),
    /// Puts a text behind its notes.
    AppendNotes(Txt),
    /// Gives it a schedule, live or not.
    LinkSchedule(Txt),
}

impl Action {
    /// An equal action.
    pub fn copy(&self) -> Result<Action, NoMemory>
        ensures { IfOk result (λ action. action ≡ self.now) }
    {
        match self {
            Action::SetDescription(payee) => Ok(Action::SetDescription(copied(payee)?)),
            Action::SetCategory(category) => Ok(Action::SetCategory(copied(category)?)),
            Action::SetNotes(text) => Ok(Action::SetNotes(text.copy()?)),
            Action::SetCleared(set) => Ok(Action::SetCleared(*set)),
            Action::PrependNotes(text) => Ok(Action::PrependNotes(text.copy()?)),
            Action::AppendNotes(text) => Ok(Action::AppendNotes(text.copy()?)),
            Action::LinkSchedule(id) => Ok(Action::LinkSchedule(id.copy()?)),
        }
    }
}

impl Copied for Action {
    fn copied(&self) -> Result<Action, NoMemory> {
        self.copy()
    }
}

/// When a rule runs.
#[derive(Clone, Copy, Debug, PartialEq, Eq)]
pub enum Stage {
    /// Before the rules of the other stages.
    Pre,
    /// In between.
    Plain,
    /// After the rules of the other stages.
    Post,
}

/// How many of its conditions have to hold.
#[derive(Clone, Copy, Debug, PartialEq, Eq)]
pub enum RuleOp {
    /// All.
    And,
    /// One.
    Or,
}

/// A rule: where its conditions hold on a transaction, its actions change it. One without conditions changes nothing.
#[derive(Debug, Drop)]
pub struct Rule {
    /// The id of its row.
    pub id: Txt,
    /// When it runs.
    pub stage: Stage,
    /// How many of its conditions have to hold.
    pub op: RuleOp,
    /// What is tested, in order.
    pub conditions: Items<Condition>,
    /// What is changed, in order.
    pub actions: Items<Action>,
}

impl Rule {
    /// An equal rule.
    pub fn copy(&self, alloc: Global) -> Result<Rule, NoMemory>
        ensures { IfOk result (λ rule. rule ≡ self.now) }
    {
        Ok(Rule {
            id: self.id.copy()?,
            stage: self.stage,
            op: self.op,
            conditions: copied_conditions(alloc, self.conditions.as_slice())?,
            actions: self.actions.copy(alloc)?,
        })
    }
}

/// Equal conditions.
fn copied_conditions(alloc: Global, conditions: &[Condition]) -> Result<Items<Condition>, NoMemory>
    ensures { IfOk result (λ copies. copies ≡ conditions.now) }
{
    let mut copies = Vec::with_capacity(alloc, conditions.len())?;
    for condition in conditions {
        copies.push(condition.copy(alloc)?)?;
    }
    Ok(Items::new(copies))
}
