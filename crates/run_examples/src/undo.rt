//! Lines that are undone and done again. Replies are worked out by hand from the rules.
use crate::table::talk;
use std::test::Fail;

/// Lines of a device without messages, each table by itself.
const UNDONE: [&str; 10] = [
    // nothing was made yet
    r"undo = refused E24 nothing-to-undo
redo = refused E25 nothing-to-redo
receive>2024-01-01T00:00:00.000Z-0000-00000000000000bb>accounts>bank>name>S:Bank = ok 1|added 1
undo = refused E24 nothing-to-undo
account-add>bank>Bank>0 = refused E2 id-taken bank
undo = refused E24 nothing-to-undo
undo>1 = refused E30 bad-command 1
redo>1 = refused E30 bad-command 1",
    // a transfer between accounts of another device, a change of its amount, and both of them taken back
    r"receive>2024-01-01T00:00:00.000Z-0000-00000000000000bb>accounts>bank>name>S:Bank = ok 1|added 1
receive>2024-01-01T00:00:00.000Z-0001-00000000000000bb>accounts>save>name>S:Save = ok 1|added 1
transfer>bank>save>20240105>2500> = ok 3|writes 12|made 2024-01-05T10:00:00.000Z-0002-00000000000000aa|made 2024-01-05T10:00:00.000Z-0008-00000000000000aa
tx-set>2024-01-05T10:00:00.000Z-0002-00000000000000aa>amount>-3000 = ok 1|writes 2
value>transactions>2024-01-05T10:00:00.000Z-0008-00000000000000aa>amount = ok 1|N:3000
tx-set>2024-01-05T10:00:00.000Z-0002-00000000000000aa>category>food = refused E13 transfer-part 2024-01-05T10:00:00.000Z-0002-00000000000000aa
undo = ok 1|writes 2
value>transactions>2024-01-05T10:00:00.000Z-0002-00000000000000aa>amount = ok 1|N:-2500
value>transactions>2024-01-05T10:00:00.000Z-0008-00000000000000aa>amount = ok 1|N:2500
redo = ok 1|writes 2
value>transactions>2024-01-05T10:00:00.000Z-0002-00000000000000aa>amount = ok 1|N:-3000
value>transactions>2024-01-05T10:00:00.000Z-0008-00000000000000aa>amount = ok 1|N:3000
undo = ok 1|writes 2
undo = ok 1|writes 2
value>transactions>2024-01-05T10:00:00.000Z-0002-00000000000000aa>tombstone = ok 1|N:1
value>transactions>2024-01-05T10:00:00.000Z-0008-00000000000000aa>tombstone = ok 1|N:1
balance>save = ok 1|0
undo = refused E24 nothing-to-undo
redo = ok 1|writes 2
value>transactions>2024-01-05T10:00:00.000Z-0002-00000000000000aa>tombstone = ok 1|N:0
balance>save = ok 1|2500
redo = ok 1|writes 2
balance>save = ok 1|3000
redo = refused E25 nothing-to-redo
broken = ok 0",
    // a value that stood there is written again as it was
    r"set>categories>food>name>S:Food = ok 1|writes 1
set>categories>food>name>S:Meals = ok 1|writes 1
undo = ok 1|writes 1
value>categories>food>name = ok 1|S:Food
redo = ok 1|writes 1
value>categories>food>name = ok 1|S:Meals
set>transactions>t>amount>N:007 = ok 1|writes 1
set>transactions>t>amount>N:5 = ok 1|writes 1
undo = ok 1|writes 1
value>transactions>t>amount = ok 1|N:007
set>transactions>t>amount>0: = ok 1|writes 1
set>transactions>t>amount>N:6 = ok 1|writes 1
undo = ok 1|writes 1
value>transactions>t>amount = ok 1|0:",
    // a row that was not there is deleted, and comes back whole
    r"account-add>bank>Bank>0 = ok 2|writes 4|made 2024-01-05T10:00:00.000Z-0002-00000000000000aa
tx-add>t>bank>20240105>-100>->->bread = ok 1|writes 6
undo = ok 1|writes 1
value>transactions>t>tombstone = ok 1|N:1
value>transactions>t>notes = ok 1|S:bread
balance>bank = ok 1|0
tx-add>t>bank>20240105>-100>->->bread = refused E2 id-taken t
redo = ok 1|writes 1
value>transactions>t>tombstone = ok 1|N:0
register>bank = ok 1|t>20240105>-100>->-
undo = ok 1|writes 1
undo = ok 1|writes 2
value>accounts>bank>tombstone = ok 1|N:1
value>payees>2024-01-05T10:00:00.000Z-0002-00000000000000aa>tombstone = ok 1|N:1
balance>bank = refused E3 no-such-account bank
redo = ok 1|writes 2
redo = ok 1|writes 1
balance>bank = ok 1|-100",
    // a flag or a number without a value gets 0, a text or a day null, where the row stays
    r"set>transactions>t>acct>S:bank = ok 1|writes 1
tx-set>t>cleared>1 = ok 1|writes 1
undo = ok 1|writes 1
value>transactions>t>cleared = ok 1|N:0
tx-set>t>amount>5 = ok 1|writes 1
undo = ok 1|writes 1
value>transactions>t>amount = ok 1|N:0
tx-set>t>notes>bread = ok 1|writes 1
undo = ok 1|writes 1
value>transactions>t>notes = ok 1|0:
tx-set>t>date>20240105 = ok 1|writes 1
undo = ok 1|writes 1
value>transactions>t>date = ok 1|0:
set>transactions>t>colour>S:red = ok 1|writes 1
undo = ok 1|writes 1
value>transactions>t>colour = ok 1|0:
tx-delete>t = ok 1|writes 1
undo = ok 1|writes 1
value>transactions>t>tombstone = ok 1|N:0",
    // rows of datasets that can't be deleted
    r"group-add>g>Usual>0 = ok 1|writes 2
category-add>food>g>Food = ok 1|writes 3
budget>2024-01>food>300 = ok 1|writes 3
undo = ok 1|writes 3
value>zero_budgets>202401-food>month = ok 1|N:0
value>zero_budgets>202401-food>category = ok 1|0:
value>zero_budgets>202401-food>amount = ok 1|N:0
redo = ok 1|writes 3
value>zero_budgets>202401-food>month = ok 1|N:202401
value>zero_budgets>202401-food>category = ok 1|S:food
cell>2024-01>budget-food = ok 1|300
carryover>2024-01>food>1 = ok 1|writes 1
undo = ok 1|writes 1
value>zero_budgets>202401-food>carryover = ok 1|N:0
hold>2024-01>5 = ok 1|writes 1
undo = ok 1|writes 1
value>zero_budget_months>2024-01>buffered = ok 1|N:0
note>food>weekly = ok 1|writes 1
undo = ok 1|writes 1
value>notes>food>note = ok 1|0:
set>prefs>a>b>S:c = ok 1|writes 1
undo = ok 1|writes 1
value>prefs>a>b = ok 1|0:",
    // a row of a known dataset is made by its undo, and is deleted
    r"set>payees>p>colour>S:red = ok 1|writes 1
undo = ok 1|writes 1
value>payees>p>colour = ok 1|S:red
value>payees>p>tombstone = ok 1|N:1
payee-rename>p>Shop = refused E6 no-such-payee p
set>payees>q>tombstone>N:0 = ok 1|writes 1
undo = ok 1|writes 1
value>payees>q>tombstone = ok 1|N:1
redo = ok 1|writes 1
value>payees>q>tombstone = ok 1|N:0",
    // an undo takes its writes from its entry, and its own entry from what is there
    r"set>categories>food>name>S:Food = ok 1|writes 1
set>categories>food>name>S:Meals = ok 1|writes 1
receive>2024-01-05T10:00:00.500Z-0000-00000000000000bb>categories>food>name>S:Eating = ok 1|added 1
value>categories>food>name = ok 1|S:Eating
undo = ok 1|writes 1
value>categories>food>name = ok 1|S:Food
redo = ok 1|writes 1
value>categories>food>name = ok 1|S:Eating
undo = ok 1|writes 1
value>categories>food>name = ok 1|S:Food",
    // what can be done again goes with the next edit that is accepted, and with nothing else
    r"set>categories>food>name>S:Food = ok 1|writes 1
set>categories>food>name>S:Meals = ok 1|writes 1
undo = ok 1|writes 1
group-delete>g = refused E4 no-such-group g
undo>x = refused E30 bad-command 1
value>categories>food>name = ok 1|S:Food
broken = ok 0
receive>2024-01-01T00:00:00.000Z-0000-00000000000000bb>accounts>bank>name>S:Bank = ok 1|added 1
redo = ok 1|writes 1
value>categories>food>name = ok 1|S:Meals
undo = ok 1|writes 1
set>categories>fun>name>S:Fun = ok 1|writes 1
redo = refused E25 nothing-to-redo
undo = ok 1|writes 1
undo = ok 1|writes 1
undo = refused E24 nothing-to-undo
value>categories>food>tombstone = ok 1|N:1
value>categories>fun>tombstone = ok 1|N:1",
    // a transaction that is the partner of another one and also a part of it: its field is written twice, and taken back once
    r"set>transactions>x>transferred_id>S:y = ok 1|writes 1
set>transactions>y>transferred_id>S:x = ok 1|writes 1
set>transactions>y>isChild>N:1 = ok 1|writes 1
set>transactions>y>parent_id>S:x = ok 1|writes 1
tx-set>x>date>20240202 = ok 1|writes 3
value>transactions>y>date = ok 1|N:20240202
undo = ok 1|writes 2
value>transactions>y>date = ok 1|0:
redo = ok 1|writes 2
value>transactions>x>date = ok 1|N:20240202
value>transactions>y>date = ok 1|N:20240202",
];

#[test]
fn undone(rt: HostRuntime) -> Result<(), Fail> {
    for table in UNDONE {
        let wrong = talk(rt.alloc(), &[table])?;
        assert_eq!(rt; wrong.as_str(), "");
    }
    Ok(())
}
