//! Books, by what they tell. Expected values are written out by hand from the rules.
ghost use Rattle.std.specs.Prelude.{◌≡◌, ◌≤◌, IfOk, OnOk, false};

use book_rows::Book;
use field_values::{Copied, Field, Items, Steps, Txt, Value};
use std::alloc::Global;
use std::collections::BTreeMap;
use std::fmt::Debug;
use std::marker::Brand;
use std::sync::ledger::{Blank, Ledger};
use std::test::Fail;

/// A row with all its columns of each dataset, a few others, and what makes no row.
const ALL: &str =
    "accounts bank name S:Bank; accounts bank offbudget N:1; accounts bank closed N:1; \
    accounts bank sort_order N:-7; accounts bank tombstone N:1; accounts a-cash colour N:1; accounts box closed 0:; \
    category_groups usual name S:Usual; category_groups usual is_income N:1; category_groups usual sort_order N:3; \
    category_groups usual hidden N:1; category_groups usual tombstone N:1; categories food name S:Food; \
    categories food cat_group S:usual; categories food is_income N:1; categories food sort_order N:4; \
    categories food hidden N:1; categories food tombstone N:1; payees shop name S:Shop; \
    payees shop transfer_acct S:bank; payees shop tombstone N:1; payees home name S:Home; rules r stage S:pre; \
    rules r conditions_op S:or; rules r conditions S:[]; rules r actions S:[1]; rules r tombstone N:1; \
    schedules rent rule S:r; schedules rent name S:Rent; schedules rent next_date N:20240229; \
    schedules rent completed N:1; schedules rent posts_transaction N:1; schedules rent tombstone N:1; \
    zero_budgets 202401-food month N:202402; zero_budgets 202401-food category S:fun; \
    zero_budgets 202401-food amount N:-500; zero_budgets 202401-food carryover N:1; \
    zero_budget_months 2024-01 buffered N:9007199254740991; notes food note S:weekly; notes bank note 0:; \
    prefs bank name S:x; transactions t acct S:bank; transactions t date N:20240131; transactions t amount N:-1250; \
    transactions t description S:shop; transactions t category S:food; transactions t notes S:bread; \
    transactions t imported_description S:SHOP 7; transactions t financial_id S:f1; \
    transactions t transferred_id S:u; transactions t schedule S:rent; transactions t isParent N:1; \
    transactions t isChild N:1; transactions t parent_id S:p; transactions t cleared N:1; \
    transactions t reconciled N:1; transactions t sort_order N:12; transactions t tombstone N:1";

/// Questions to that book, and its answers.
const ROWS: &str =
    r#"accounts bank > AccountRow { id: "bank", name: Some("Bank"), offbudget: true, closed: true, sort_order: -7, tombstone: true }
accounts box > AccountRow { id: "box", name: None, offbudget: false, closed: false, sort_order: 0, tombstone: false }
accounts a-cash > none
accounts > bank box .
category_groups usual > GroupRow { id: "usual", name: Some("Usual"), is_income: true, sort_order: 3, hidden: true, tombstone: true }
category_groups > usual .
categories food > CategoryRow { id: "food", name: Some("Food"), cat_group: Some("usual"), is_income: true, sort_order: 4, hidden: true, tombstone: true }
categories > food .
payees shop > PayeeRow { id: "shop", name: Some("Shop"), transfer_acct: Some("bank"), tombstone: true }
payees > home shop .
rules r > RuleRow { id: "r", stage: Some("pre"), conditions_op: Some("or"), conditions: Some("[]"), actions: Some("[1]"), tombstone: true }
rules > r .
schedules rent > ScheduleRow { id: "rent", rule: Some("r"), name: Some("Rent"), next_date: Some(20240229), completed: true, posts_transaction: true, tombstone: true }
schedules > rent .
zero_budgets 202401-food > BudgetRow { id: "202401-food", month: 202402, category: Some("fun"), amount: -500, carryover: true }
zero_budgets > 202401-food .
zero_budget_months 2024-01 > MonthRow { id: "2024-01", buffered: 9007199254740991 }
zero_budget_months > 2024-01 .
notes food > NoteRow { id: "food", note: Some("weekly") }
notes > bank food .
tx t > TxRow { id: "t", acct: Some("bank"), date: Some(20240131), amount: -1250, description: Some("shop"), category: Some("food"), notes: Some("bread"), imported_description: Some("SHOP 7"), financial_id: Some("f1"), transferred_id: Some("u"), schedule: Some("rent"), is_parent: true, is_child: true, parent_id: Some("p"), cleared: true, reconciled: true, sort_order: 12, tombstone: true }
tx p > none
txs > t .
window > Some((202401, 202401))
spent > false"#;

/// A household's transactions: `t` is split into `b` and `a`, and `c` was one of its parts; `d` is a part of one that was deleted,
/// `f` a part of none, and `e` has a parent and is no part.
const SPLIT: &str =
    "transactions t acct S:bank; transactions t isParent N:1; transactions b acct S:bank; \
    transactions b isChild N:1; transactions b parent_id S:t; transactions a parent_id S:t; transactions a isChild N:1; \
    transactions c isChild N:1; transactions c parent_id S:t; transactions c tombstone N:1; transactions d isChild N:1; \
    transactions d parent_id S:gone; transactions gone tombstone N:1; transactions e parent_id S:t; \
    transactions e acct S:cash; transactions e tombstone N:0; transactions f isChild N:1";

/// Questions to that book, and its answers.
const PARTS: &str = "txs > a b c d e f gone t .\n\
    children t > a b c .\n\
    children gone > d .\n\
    children a > .\n\
    of_account bank > b t .\n\
    of_account cash > e .\n\
    of_account none > .\n\
    alive t > true\n\
    alive a > true\n\
    alive c > false\n\
    alive d > false\n\
    alive e > true\n\
    alive f > false\n\
    alive gone > false\n\
    alive none > false\n\
    month t > None\n\
    window > None";

/// Fields, a question to the book that they make, and its answer.
const CASES: &str =
    r#"accounts b closed N:2; accounts b sort_order S:7; accounts b name N:5 > accounts b > AccountRow { id: "b", name: None, offbudget: false, closed: false, sort_order: 0, tombstone: false }
accounts b sort_order N:007; accounts b offbudget N:1 > accounts b > AccountRow { id: "b", name: None, offbudget: true, closed: false, sort_order: 0, tombstone: false }
accounts b sort_order N:-0; accounts b name > accounts b > AccountRow { id: "b", name: None, offbudget: false, closed: false, sort_order: 0, tombstone: false }
accounts b sort_order N:-9007199254740991; accounts b name 0:x > accounts b > AccountRow { id: "b", name: None, offbudget: false, closed: false, sort_order: -9007199254740991, tombstone: false }
accounts b sort_order N:9007199254740992; accounts b tombstone N: > accounts b > AccountRow { id: "b", name: None, offbudget: false, closed: false, sort_order: 0, tombstone: false }
zero_budget_months 2024-01 buffered > zero_budget_months 2024-01 > MonthRow { id: "2024-01", buffered: 0 }
accounts bank name S:Bank; accounts bank offbudget N:0; payees p name S:; payees p transfer_acct S:bank > payees p > PayeeRow { id: "p", name: Some(""), transfer_acct: Some("bank"), tombstone: false }
transactions t acct S:bank; transactions t date N:20240102; transactions t amount N:100; transactions t description 0:; transactions t category 0:; transactions t notes 0: > of_account bank > t .
accounts b closed N:01; accounts b sort_order N:12.5; accounts b name S: > accounts b > AccountRow { id: "b", name: Some(""), offbudget: false, closed: false, sort_order: 0, tombstone: false }
accounts b closed S:1; accounts b name S:x; accounts b name S:y > accounts b > AccountRow { id: "b", name: Some("y"), offbudget: false, closed: false, sort_order: 0, tombstone: false }
accounts b closed N:1; accounts b closed N:0; accounts b name S:x; accounts b name 0: > accounts b > AccountRow { id: "b", name: None, offbudget: false, closed: false, sort_order: 0, tombstone: false }
schedules s next_date N:20230229 > schedules s > ScheduleRow { id: "s", rule: None, name: None, next_date: None, completed: false, posts_transaction: false, tombstone: false }
transactions t date N:19700101 > month t > Some(197001)
transactions t date N:19691231 > month t > None
transactions t date N:21991231 > month t > Some(219912)
transactions t date N:22000101 > month t > None
transactions t date N:20000229 > month t > Some(200002)
transactions t date N:20230229 > month t > None
transactions t date N:21000229 > month t > None
transactions t date N:20240431 > month t > None
transactions t date N:20241301 > month t > None
transactions t date N:20240100 > month t > None
transactions t date S:20240101 > month t > None
transactions t date N:-20240101 > month t > None
accounts b name S:x > window > None
transactions t date N:20241231 > window > Some((202412, 202412))
zero_budgets 202402-food amount N:1 > window > Some((202402, 202402))
zero_budgets 202413-food amount N:1; zero_budgets 202402 amount N:1; zero_budgets 2024-02 amount N:1 > window > None
zero_budgets 202402-food colour N:1; notes 202402-food note S:x > window > None
zero_budget_months 2024-03 buffered 0:; zero_budget_months 2024-13 buffered 0:; zero_budget_months 2025-01- buffered 0: > window > Some((202403, 202403))
transactions a date N:20240115; transactions b date N:20230731; transactions b tombstone N:1; zero_budgets 202405- month 0: > window > Some((202307, 202405))
transactions a date N:19990115; transactions b date N:20240131; transactions a date N:20240615 > window > Some((202401, 202406))
transactions b isChild N:1; transactions b parent_id S:t; transactions b parent_id S:e > children t > .
transactions b isChild N:1; transactions b parent_id S:t; transactions b parent_id S:e > children e > b .
transactions b isChild N:1; transactions b parent_id S:t; transactions b isChild N:0 > children t > .
transactions b acct S:bank; transactions b acct S:cash > of_account bank > .
transactions b acct S:bank; transactions b acct S:cash > of_account cash > b .
transactions b isChild N:1; transactions b parent_id S:t; transactions t isParent N:1; transactions t tombstone N:1 > alive b > false"#;

/// What stands before the first space, and what stands behind it.
fn cut(text: &str) -> (&str, &str) {
    text.split_once(" ").unwrap_or((text, ""))
}

/// Gives the field of a line its value: dataset, row, column, and the text of the value.
fn set(alloc: Global, book: &mut Book, line: &str) -> Result<(), Fail>
    requires { book.old.spent ≡ false }
    ensures { OnOk result (book.new.spent ≡ false) }
{
    let (dataset, rest) = cut(line);
    let (row, rest) = cut(rest);
    let (column, value) = cut(rest);
    let field = Field::make(alloc, dataset, row, column)?;
    let value = Value::read(alloc, value)?;
    Ok(book.set(&field, &value)?)
}

/// The book that the lines make, one after the other.
pub fn book_of(alloc: Global, lines: &str) -> Result<Book, Fail>
    ensures { IfOk result (λ b. b.spent ≡ false) }
{
    let mut book = Book::new(alloc);
    for line in lines.split("; ") {
        set(alloc, &mut book, line)?;
    }
    Ok(book)
}

/// What a value is printed as, with each text in it as its letters alone.
fn shown<T: Debug>(alloc: Global, value: &T) -> Result<String, Fail> {
    let text = format!(in alloc; "{value:?}")?;
    let text = text.replace(alloc, "Txt { text: ", "")?;
    Ok(text.replace(alloc, "\" }", "\"")?)
}

/// The text of a copy of a row, or `none`.
fn row_text<T: Copied + Debug + Drop>(alloc: Global, row: Option<&T>) -> Result<String, Fail> {
    match row {
        Some(row) => shown(alloc, &row.copied()?),
        None => Ok(String::from_str(alloc, "none")?),
    }
}

/// The ids of rows, with a space behind each, and a full stop.
fn ids_of<T>(alloc: Global, rows: &BTreeMap<Txt, T>) -> Result<String, Fail> {
    let mut text = String::new(alloc);
    for (id, _) in rows.iter() {
        text.push_str(id.as_str())?;
        text.push_str(" ")?;
    }
    text.push_str(".")?;
    Ok(text)
}

/// Ids, with a space behind each, and a full stop.
fn joined(alloc: Global, ids: &Items<Txt>) -> Result<String, Fail> {
    let mut text = String::new(alloc);
    for id in ids.as_slice() {
        text.push_str(id.as_str())?;
        text.push_str(" ")?;
    }
    text.push_str(".")?;
    Ok(text)
}

/// The row of an id in a dataset.
fn row(alloc: Global, book: &Book, dataset: &str, id: &Txt) -> Result<String, Fail> {
    match dataset {
        "accounts" => row_text(alloc, book.account(id)),
        "category_groups" => row_text(alloc, book.group(id)),
        "categories" => row_text(alloc, book.category(id)),
        "payees" => row_text(alloc, book.payee(id)),
        "rules" => row_text(alloc, book.rule(id)),
        "schedules" => row_text(alloc, book.schedule(id)),
        "zero_budgets" => row_text(alloc, book.budget_row(id)),
        "zero_budget_months" => row_text(alloc, book.month_row(id)),
        _ => row_text(alloc, book.note(id)),
    }
}

/// The ids of the rows of a dataset.
fn rows(alloc: Global, book: &Book, dataset: &str) -> Result<String, Fail> {
    match dataset {
        "accounts" => ids_of(alloc, book.accounts()),
        "category_groups" => ids_of(alloc, book.groups()),
        "categories" => ids_of(alloc, book.categories()),
        "payees" => ids_of(alloc, book.payees()),
        "rules" => ids_of(alloc, book.rules()),
        "schedules" => ids_of(alloc, book.schedules()),
        "zero_budgets" => ids_of(alloc, book.budget_rows()),
        "zero_budget_months" => ids_of(alloc, book.month_rows()),
        _ => ids_of(alloc, book.note_rows()),
    }
}

/// What a book tells of transactions.
fn txs<G: Ledger>(
    blank: Blank,
    alloc: Global,
    book: &Book,
    question: &Txt,
    id: &Txt,
) -> Result<Txt, Fail>
    requires name { blank.name ≡ G.name }
    requires parts { blank.parts ≡ G.parts }
    requires some { 1 ≤ G.parts }
    requires live { book.now.spent ≡ false }
{
    let mut steps = Steps::<G>::new(blank);
    let text = match question.as_str() {
        "tx" => row_text(alloc, book.tx(id, &mut steps))?,
        "txs" => ids_of(alloc, book.txs(&mut steps))?,
        "children" => joined(alloc, &book.children(id, &mut steps)?)?,
        _ => joined(alloc, &book.of_account(id, &mut steps)?)?,
    };
    Ok(Txt::new(text))
}

/// What a question about transactions is told, with a counter of steps that nobody reads.
fn uncounted(alloc: Global, book: &Book, question: &str, id: &Txt) -> Result<String, Fail>
    requires { book.now.spent ≡ false }
{
    let question = Txt::from_text(alloc, question)?;
    let told = txs::<Brand>(Blank::new(1), alloc, book, &question, id)?;
    Ok(String::from_str(alloc, told.as_str())?)
}

/// What a book answers to a question.
fn told(alloc: Global, book: &Book, question: &str, id: &Txt) -> Result<String, Fail>
    requires { book.now.spent ≡ false }
{
    match question {
        "alive" => shown(alloc, &book.alive(id)),
        "month" => shown(alloc, &book.month_of(id)),
        "window" => shown(alloc, &book.window()),
        "spent" => shown(alloc, &book.is_spent()),
        "tx" | "txs" | "children" | "of_account" => uncounted(alloc, book, question, id),
        _ if id.bytes().is_empty() => rows(alloc, book, question),
        _ => row(alloc, book, question, id),
    }
}

/// What the book that the lines make answers to a question: a dataset and an id, or what is asked of an id.
fn answer(alloc: Global, lines: &str, question: &str) -> Result<String, Fail> {
    let book = book_of(alloc, lines)?;
    let (what, id) = cut(question);
    let id = Txt::from_text(alloc, id)?;
    book.sizes();
    told(alloc, &book, what, &id)
}

/// Of rows "question > answer", the first that the book of these lines answers otherwise, with the answer that it gives.
fn first_wrong(alloc: Global, lines: &str, rows: &str) -> Result<String, Fail> {
    for row in rows.lines() {
        let (question, text) = row.split_once(" > ").unwrap_or((row, ""));
        let told = answer(alloc, lines, question)?;
        if told.as_str() != text {
            return Ok(format!(in alloc; "{question} > {told}")?);
        }
    }
    Ok(String::new(alloc))
}

#[test]
fn rows_are_told(rt: HostRuntime) -> Result<(), Fail> {
    assert_eq!(rt; first_wrong(rt.alloc(), ALL, ROWS)?.as_str(), "");
    Ok(())
}

#[test]
fn parts_are_told(rt: HostRuntime) -> Result<(), Fail> {
    assert_eq!(rt; first_wrong(rt.alloc(), SPLIT, PARTS)?.as_str(), "");
    Ok(())
}

#[test]
fn cases(rt: HostRuntime) -> Result<(), Fail> {
    for case in CASES.lines() {
        let (lines, row) = case.split_once(" > ").unwrap_or((case, ""));
        assert_eq!(rt;
            first_wrong(rt.alloc(), lines, row)?.as_str(),
            "",
            "{lines}"
        );
    }
    Ok(())
}
