//! A household by lines: months, transactions, and rows that are written field by field. Replies are worked out by hand from the rules.
use crate::table::talk;
use std::test::Fail;

/// An income and one expense, and a budget for two months.
pub(crate) const HOUSE: &str =
    r"account-add>bank>Bank>0 = ok 2|writes 4|made 2024-01-05T10:00:00.000Z-0002-00000000000000aa
group-add>gi>Income>1 = ok 1|writes 2
category-add>pay>gi>Salary = ok 1|writes 3
group-add>g>Usual>0 = ok 1|writes 2
category-add>food>g>Food = ok 1|writes 3
tx-add>t1>bank>20240102>100000>->pay> = ok 1|writes 6
tx-add>t2>bank>20240110>-35000>->food> = ok 1|writes 6
budget>2024-01>food>30000 = ok 1|writes 3
budget>2024-02>food>20000 = ok 1|writes 3";

/// Lines to that household, each table by itself.
const MONTHS: [&str; 8] = [
    // what is overspent is taken from the next month
    r"cell>2024-01>to-budget = ok 1|70000
cell>2024-01>leftover-food = ok 1|-5000
cell>2024-02>from-last-month = ok 1|70000
cell>2024-02>last-month-overspent = ok 1|-5000
cell>2024-02>to-budget = ok 1|45000
cell>2024-02>leftover-food = ok 1|20000
cell>2024-02>total-leftover = ok 1|20000",
    // or stays in its category
    r"carryover>2024-01>food>1 = ok 1|writes 1
cell>2024-02>last-month-overspent = ok 1|0
cell>2024-02>to-budget = ok 1|50000
cell>2024-02>leftover-food = ok 1|15000
cell>2024-02>total-leftover = ok 1|15000",
    // what is held back comes with the next month
    r"hold>2024-01>10000 = ok 1|writes 1
cell>2024-01>to-budget = ok 1|60000
cell>2024-02>from-last-month = ok 1|70000
cell>2024-02>to-budget = ok 1|45000",
    // an account outside the budget counts in no sheet
    r"account-offbudget>bank>1 = ok 1|writes 1
cell>2024-01>sum-amount-food = ok 1|0
cell>2024-02>to-budget = ok 1|-50000
balance>bank = ok 1|65000",
    // what is moved changes two categories and nothing else
    r"category-add>rent>g>Rent = ok 1|writes 3
move>2024-02>food>rent>5000 = ok 1|writes 4
cell>2024-02>budget-food = ok 1|15000
cell>2024-02>budget-rent = ok 1|5000
cell>2024-02>leftover-food = ok 1|15000
cell>2024-02>leftover-rent = ok 1|5000
cell>2024-02>to-budget = ok 1|45000
move>2024-02>rent>food>1 = ok 1|writes 2
cell>2024-02>budget-rent = ok 1|4999
move>2024-02>food>food>1 = refused E14 same-id food
budget>2024-02>pay>1 = refused E16 income-category pay
cell>2024-02>leftover-pay = refused E5 no-such-category pay",
    // a whole sheet
    r"sheet>2024-01 = ok 18|total-income 100000|from-last-month 0|available-funds 100000|last-month-overspent 0|total-budgeted -30000|buffered 0|to-budget 70000|total-spent -35000|total-leftover -5000|group-sum-amount-g -35000|group-budget-g 30000|group-leftover-g -5000|sum-amount-food -35000|budget-food 30000|carryover-food 0|leftover-food -5000|group-sum-amount-gi 100000|sum-amount-pay 100000",
    // money goes to another month and category, is budgeted anew, and goes back
    r"category-add>rent>g>Rent = ok 1|writes 3
cell>2024-02>leftover-rent = ok 1|0
tx-set>t2>date>20240203 = ok 1|writes 1
tx-set>t2>category>rent = ok 1|writes 1
cell>2024-01>leftover-food = ok 1|30000
cell>2024-02>leftover-rent = ok 1|-35000
cell>2024-03>last-month-overspent = ok 1|-35000
move>2024-02>food>rent>35000 = ok 1|writes 4
sheet>2024-02 = ok 22|total-income 0|from-last-month 70000|available-funds 70000|last-month-overspent 0|total-budgeted -20000|buffered 0|to-budget 50000|total-spent -35000|total-leftover 15000|group-sum-amount-g -35000|group-budget-g 20000|group-leftover-g 15000|sum-amount-food 0|budget-food -15000|carryover-food 0|leftover-food 15000|sum-amount-rent -35000|budget-rent 35000|carryover-rent 0|leftover-rent 0|group-sum-amount-gi 0|sum-amount-pay 0
cell>2024-03>to-budget = ok 1|50000
tx-set>t1>date>20240201 = ok 1|writes 1
cell>2024-01>to-budget = ok 1|-30000
cell>2024-02>from-last-month = ok 1|-30000
cell>2024-02>total-income = ok 1|100000
undo = ok 1|writes 1
cell>2024-01>to-budget = ok 1|70000
cell>2024-02>total-income = ok 1|0",
    // a register, in which a transaction without a day stands first
    r"set>transactions>t3>acct>S:bank = ok 1|writes 1
payee-add>m>Market = ok 1|writes 1
set>transactions>t2>description>S:m = ok 1|writes 1
register>bank = ok 3|t3>->0>->-|t1>20240102>100000>pay>-|t2>20240110>-35000>food>m",
];

#[test]
fn months(rt: HostRuntime) -> Result<(), Fail> {
    for table in MONTHS {
        let wrong = talk(rt.alloc(), &[HOUSE, table])?;
        assert_eq!(rt; wrong.as_str(), "");
    }
    Ok(())
}

/// Lines of a device without messages, each table by itself.
const ALONE: [&str; 4] = [
    // an account, a group and a transaction
    r"account-add>bank>Bank>0 = ok 2|writes 4|made 2024-01-05T10:00:00.000Z-0002-00000000000000aa
value>accounts>bank>name = ok 1|S:Bank
value>accounts>bank>offbudget = ok 1|N:0
value>payees>2024-01-05T10:00:00.000Z-0002-00000000000000aa>name = ok 1|S:
value>payees>2024-01-05T10:00:00.000Z-0002-00000000000000aa>transfer_acct = ok 1|S:bank
account-add>bank>X>0 = refused E2 id-taken bank
group-add>g>Usual>0 = ok 1|writes 2
group-add>h>Usual>0 = refused E17 name-taken g
tx-add>t>bank>20240102>100>->-> = ok 1|writes 6
balance>bank = ok 1|100
register>bank = ok 1|t>20240102>100>->-
account-close>bank = refused E15 account-balance 100
tx-add>u>bank>20240230>1>->-> = refused E8 bad-date 20240230
value>transactions>t>description = ok 1|0:
value>transactions>t>category = ok 1|0:
value>transactions>t>notes = ok 1|0:
value>transactions>t>amount = ok 1|N:100",
    // ids that are made: the timestamps of the rows' first writes
    r"account-add>->Bank>0 = ok 3|writes 4|made 2024-01-05T10:00:00.000Z-0000-00000000000000aa|made 2024-01-05T10:00:00.000Z-0002-00000000000000aa
payee-add>->Shop = ok 2|writes 1|made 2024-01-05T10:00:00.000Z-0004-00000000000000aa
group-add>->Usual>0 = ok 2|writes 2|made 2024-01-05T10:00:00.000Z-0005-00000000000000aa
category-add>->2024-01-05T10:00:00.000Z-0005-00000000000000aa>Food = ok 2|writes 3|made 2024-01-05T10:00:00.000Z-0007-00000000000000aa
tx-add>->2024-01-05T10:00:00.000Z-0000-00000000000000aa>20240102>1>->-> = ok 2|writes 6|made 2024-01-05T10:00:00.000Z-000A-00000000000000aa",
    // amounts that are none count as 0, and are told as they came
    r"set>transactions>t>acct>S:bank = ok 1|writes 1
set>accounts>bank>name>S:Bank = ok 1|writes 1
set>transactions>t>amount>N:7 = ok 1|writes 1
balance>bank = ok 1|7
set>transactions>t>amount>N:12.5 = ok 1|writes 1
balance>bank = ok 1|0
value>transactions>t>amount = ok 1|N:12.5
set>transactions>t>amount>N:007 = ok 1|writes 1
balance>bank = ok 1|0
value>transactions>t>amount = ok 1|N:007
set>transactions>t>amount>N:-0 = ok 1|writes 1
balance>bank = ok 1|0
value>transactions>t>amount = ok 1|N:-0
set>transactions>t>amount>0:x = ok 1|writes 1
balance>bank = ok 1|0
value>transactions>t>amount = ok 1|0:x
set>transactions>t>amount> = ok 1|writes 1
balance>bank = ok 1|0
value>transactions>t>amount = ok 1|
set>transactions>t>amount>N:9007199254740992 = ok 1|writes 1
balance>bank = ok 1|0
value>transactions>t>amount = ok 1|N:9007199254740992
set>transactions>t>amount>N:-9007199254740991 = ok 1|writes 1
balance>bank = ok 1|-9007199254740991",
    // an account that a message of long ago moves out of the budget
    r"set>accounts>bank>name>S:Bank = ok 1|writes 1
group-add>g>Usual>0 = ok 1|writes 2
category-add>food>g>Food = ok 1|writes 3
tx-add>a>bank>20240101>-1000>->food> = ok 1|writes 6
tx-add>b>bank>20240201>-1000>->food> = ok 1|writes 6
tx-add>c>bank>20240301>-1000>->food> = ok 1|writes 6
tx-add>d>bank>20240401>-1000>->food> = ok 1|writes 6
tx-add>e>bank>20240501>-1000>->food> = ok 1|writes 6
tx-add>f>bank>20240601>-1000>->food> = ok 1|writes 6
tx-add>h>bank>20240701>-1000>->food> = ok 1|writes 6
tx-add>i>bank>20240801>-1000>->food> = ok 1|writes 6
tx-add>j>bank>20240901>-1000>->food> = ok 1|writes 6
tx-add>k>bank>20241001>-1000>->food> = ok 1|writes 6
tx-add>l>bank>20241101>-1000>->food> = ok 1|writes 6
tx-add>m>bank>20241201>-1000>->food> = ok 1|writes 6
cell>2024-12>to-budget = ok 1|-11000
cell>2024-12>leftover-food = ok 1|-1000
receive>2024-01-01T00:00:00.000Z-0000-00000000000000bb>accounts>bank>offbudget>N:1 = ok 1|added 1
cell>2024-12>to-budget = ok 1|0
cell>2024-12>leftover-food = ok 1|0
cell>2024-12>sum-amount-food = ok 1|0
cell>2024-01>sum-amount-food = ok 1|0
cell>2024-01>to-budget = ok 1|0",
];

#[test]
fn alone(rt: HostRuntime) -> Result<(), Fail> {
    for table in ALONE {
        let wrong = talk(rt.alloc(), &[table])?;
        assert_eq!(rt; wrong.as_str(), "");
    }
    Ok(())
}
