//! What refuses the lines that edit the books, line by line, in the order of their checks; and what they write where nothing does. Of nearly
//! each refused line all that is checked behind what is told is wrong too, where it can be. Replies are worked out by hand from the rules.
use crate::books::HOUSE;
use crate::table::talk;
use std::test::Fail;

/// Lines to the household, all of them in one run.
const CHECKS: [&str; 10] = [
    HOUSE,
    // a field: the three names, in their order
    r"set>>a\tb>\n>S:x = refused E1 bad-id
set>notes>a\tb>\n>S:x = refused E1 bad-id a\tb
set>notes>a>\n>S:x = refused E1 bad-id \n
set>notes>a>note>S:x = ok 1|writes 1",
    // accounts
    r"account-add>>Bank>0 = refused E1 bad-id
account-add>bank>Bank>0 = refused E2 id-taken bank
account-add>save>Bank>1 = ok 2|writes 4|made 2024-01-05T10:00:00.000Z-0023-00000000000000aa
account-rename>x>Bank = refused E3 no-such-account x
account-rename>save>Savings = ok 1|writes 1
value>accounts>save>name = ok 1|S:Savings
account-offbudget>x>1 = refused E3 no-such-account x
account-offbudget>save>0 = ok 1|writes 1
account-close>x = refused E3 no-such-account x
account-close>bank = refused E15 account-balance 65000
account-close>save = ok 1|writes 1
value>accounts>save>closed = ok 1|N:1
account-reopen>x = refused E3 no-such-account x
account-reopen>save = ok 1|writes 1
value>accounts>save>closed = ok 1|N:0
balance>x = refused E3 no-such-account x
register>x = refused E3 no-such-account x
register>save = ok 0",
    // payees, and ids: 64 bytes, and not 65, and no timestamp
    r"payee-add>>Market = refused E1 bad-id
payee-add>*>Market = ok 1|writes 1
payee-add>*>Market = refused E2 id-taken *
payee-add>*x>Market = refused E1 bad-id *x
payee-add>2024-01-05T10:00:00.000Z-0000-00000000000000aa>Market = refused E1 bad-id 2024-01-05T10:00:00.000Z-0000-00000000000000aa
payee-rename>x>Shop = refused E6 no-such-payee x
payee-rename>*>Shop = ok 1|writes 1
payee-delete>x = refused E6 no-such-payee x
payee-delete>* = ok 1|writes 1
payee-delete>* = refused E6 no-such-payee *
payee-add>*>Market = refused E2 id-taken *
payee-add>m>Market = ok 1|writes 1",
    // groups, whose names are taken
    r"group-add>>Usual>0 = refused E1 bad-id
group-add>g>Usual>0 = refused E2 id-taken g
group-add>h>Usual>0 = refused E17 name-taken g
group-rename>x>Usual = refused E4 no-such-group x
group-rename>gi>Usual = refused E17 name-taken g
group-rename>g>Usual = refused E17 name-taken g
group-rename>g>usual = ok 1|writes 1
group-add>b>Usual>0 = ok 1|writes 2
group-add>a>Usual>0 = refused E17 name-taken b
group-delete>x = refused E4 no-such-group x",
    // categories: of those that have the name the least id is told
    r"category-add>>x>Food = refused E1 bad-id
category-add>food>x>Food = refused E2 id-taken food
category-add>fun>x>Food = refused E4 no-such-group x
category-add>fun>g>Food = refused E17 name-taken food
category-add>fun>g>Fun = ok 1|writes 3
set>categories>aa>cat_group>S:g = ok 1|writes 1
set>categories>aa>name>S:Food = ok 1|writes 1
category-add>rent>g>Food = refused E17 name-taken aa
category-rename>x>Food = refused E5 no-such-category x
category-rename>fun>Food = refused E17 name-taken aa
category-rename>fun>Fun = refused E17 name-taken fun
category-rename>fun>Leisure = ok 1|writes 1
category-move>x>y = refused E5 no-such-category x
category-move>food>y = refused E4 no-such-group y
category-move>food>g = refused E17 name-taken aa
category-move>food>b = ok 1|writes 2
value>categories>food>cat_group = ok 1|S:b
category-move>food>g = refused E17 name-taken aa
category-delete>x = refused E5 no-such-category x
category-delete>aa = ok 1|writes 1
category-move>food>g = ok 1|writes 2
category-add>pay2>gi>Food = ok 1|writes 3
value>categories>pay2>is_income = ok 1|N:1",
    // a transaction
    r"tx-add>>x>20240230>9007199254740992>x>x> = refused E1 bad-id
tx-add>t1>x>20240230>9007199254740992>x>x> = refused E2 id-taken t1
tx-add>t>x>20240230>9007199254740992>x>y> = refused E3 no-such-account x
tx-add>t>bank>20240230>9007199254740992>x>y> = refused E8 bad-date 20240230
tx-add>t>bank>20240229>9007199254740992>x>y> = refused E9 bad-amount 9007199254740992
tx-add>t>bank>20240229>-9007199254740992>x>y> = refused E9 bad-amount -9007199254740992
tx-add>t>bank>20240229>-9007199254740991>x>y> = refused E6 no-such-payee x
tx-add>t>bank>20240229>-9007199254740991>m>y> = refused E5 no-such-category y
tx-add>t>bank>20240229>-9007199254740991>m>food>a\tb = ok 1|writes 6
value>transactions>t>notes = ok 1|S:a\tb
value>transactions>t>description = ok 1|S:m
balance>bank = ok 1|-9007199254675991
note>>a = refused E1 bad-id
note>2024-01-05T10:00:00.000Z-0000-00000000000000aa> = ok 1|writes 1",
    // what is budgeted; a row's id of 255 bytes, and not 256
    r"budget>2024-13>x>9007199254740992 = refused E10 bad-month 202413
budget>1969-12>x>9007199254740992 = refused E10 bad-month 196912
budget>2024-03>x>9007199254740992 = refused E5 no-such-category x
budget>2024-03>pay>9007199254740992 = refused E16 income-category pay
budget>2024-03>food>9007199254740992 = refused E9 bad-amount 9007199254740992
budget>2024-03>food>1 = ok 1|writes 3
budget>2024-03>food>2 = ok 1|writes 1
value>zero_budgets>202403-food>amount = ok 1|N:2
set>categories>***xxxxxxxxxxxxxxxxxxxxxxxxxxxxxxxxxxxxxxxxxxxxxxxxxxxxxxxxx>cat_group>S:g = ok 1|writes 1
budget>2024-03>***xxxxxxxxxxxxxxxxxxxxxxxxxxxxxxxxxxxxxxxxxxxxxxxxxxxxxxxxx>1 = refused E1 bad-id 202403-***xxxxxxxxxxxxxxxxxxxxxxxxxxxxxxxxxxxxxxxxxxxxxxxxxxxxxxxxx
set>categories>***xxxxxxxxxxxxxxxxxxxxxxxxxxxxxxxxxxxxxxxxxxxxxxxxxxxxxxxx>cat_group>S:g = ok 1|writes 1
budget>2024-03>***xxxxxxxxxxxxxxxxxxxxxxxxxxxxxxxxxxxxxxxxxxxxxxxxxxxxxxxx>1 = ok 1|writes 3
carryover>2024-13>x>1 = refused E10 bad-month 202413
carryover>2024-03>x>1 = refused E5 no-such-category x
carryover>2024-03>pay>1 = refused E16 income-category pay
carryover>2024-03>***xxxxxxxxxxxxxxxxxxxxxxxxxxxxxxxxxxxxxxxxxxxxxxxxxxxxxxxxx>1 = refused E1 bad-id 202403-***xxxxxxxxxxxxxxxxxxxxxxxxxxxxxxxxxxxxxxxxxxxxxxxxxxxxxxxxx
carryover>2024-03>food>1 = ok 1|writes 1
carryover>2024-04>food>1 = ok 1|writes 3
hold>2024-13>-1 = refused E10 bad-month 202413
hold>2024-03>-1 = refused E9 bad-amount -1
hold>2024-03>9007199254740992 = refused E9 bad-amount 9007199254740992
hold>2024-03>9007199254740991 = ok 1|writes 1",
    // what is moved, up to the greatest amount either way
    r"move>2024-13>x>y>9007199254740992 = refused E10 bad-month 202413
move>2024-05>x>y>9007199254740992 = refused E5 no-such-category x
move>2024-05>pay>y>9007199254740992 = refused E5 no-such-category y
move>2024-05>pay2>pay>9007199254740992 = refused E16 income-category pay2
move>2024-05>food>pay>9007199254740992 = refused E16 income-category pay
move>2024-05>pay>pay>9007199254740992 = refused E16 income-category pay
move>2024-05>food>food>9007199254740992 = refused E14 same-id food
move>2024-05>food>fun>9007199254740992 = refused E9 bad-amount 9007199254740992
move>2024-05>food>fun>-9007199254740992 = refused E9 bad-amount -9007199254740992
move>2024-05>food>fun>9007199254740991 = ok 1|writes 6
cell>2024-05>budget-food = ok 1|-9007199254740991
cell>2024-05>budget-fun = ok 1|9007199254740991
move>2024-05>food>fun>1 = refused E9 bad-amount -9007199254740992
move>2024-05>food>fun>-9007199254740991 = ok 1|writes 2
cell>2024-05>budget-food = ok 1|0
cell>2024-05>budget-fun = ok 1|0
budget>2024-05>fun>9007199254740991 = ok 1|writes 1
move>2024-05>food>fun>1 = refused E9 bad-amount 9007199254740992
move>2024-05>food>fun>0 = ok 1|writes 2
move>2024-05>***xxxxxxxxxxxxxxxxxxxxxxxxxxxxxxxxxxxxxxxxxxxxxxxxxxxxxxxxx>food>0 = refused E1 bad-id 202405-***xxxxxxxxxxxxxxxxxxxxxxxxxxxxxxxxxxxxxxxxxxxxxxxxxxxxxxxxx
move>2024-05>food>***xxxxxxxxxxxxxxxxxxxxxxxxxxxxxxxxxxxxxxxxxxxxxxxxxxxxxxxxx>0 = refused E1 bad-id 202405-***xxxxxxxxxxxxxxxxxxxxxxxxxxxxxxxxxxxxxxxxxxxxxxxxxxxxxxxxx",
    // a group goes with its live categories: here food, and the two with long ids
    r"category-delete>fun = ok 1|writes 1
cell>2024-05>budget-fun = refused E5 no-such-category fun
group-delete>g = ok 1|writes 4
group-delete>g = refused E4 no-such-group g
cell>2024-05>budget-food = refused E5 no-such-category food
budget>2024-05>food>1 = refused E5 no-such-category food
value>categories>food>tombstone = ok 1|N:1",
];

#[test]
fn checks(rt: HostRuntime) -> Result<(), Fail> {
    let wrong = talk(rt.alloc(), CHECKS.as_slice())?;
    assert_eq!(rt; wrong.as_str(), "");
    Ok(())
}
