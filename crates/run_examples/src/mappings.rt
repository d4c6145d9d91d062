//! Categories that are handed on, payees that are merged, and what both are mapped to, by lines. Replies are worked out by hand from the
//! rules.
use crate::books::HOUSE;
use crate::table::talk;
use std::test::Fail;
/// Lines to the household, each table by itself.
const HANDED: [&str; 7] = [
    // a category is handed on with what it was given, and is taken back, and handed on again
    r"category-add>fun>g>Fun = ok 1|writes 3
category-delete>food>fun = ok 1|writes 8
messages>2024-01-05T10:00:00.000Z-0022-00000000000000aa = ok 8|2024-01-05T10:00:00.000Z-0023-00000000000000aa>category_mapping>food>transferId>S:fun|2024-01-05T10:00:00.000Z-0024-00000000000000aa>zero_budgets>202401-fun>month>N:202401|2024-01-05T10:00:00.000Z-0025-00000000000000aa>zero_budgets>202401-fun>category>S:fun|2024-01-05T10:00:00.000Z-0026-00000000000000aa>zero_budgets>202401-fun>amount>N:30000|2024-01-05T10:00:00.000Z-0027-00000000000000aa>zero_budgets>202402-fun>month>N:202402|2024-01-05T10:00:00.000Z-0028-00000000000000aa>zero_budgets>202402-fun>category>S:fun|2024-01-05T10:00:00.000Z-0029-00000000000000aa>zero_budgets>202402-fun>amount>N:20000|2024-01-05T10:00:00.000Z-002A-00000000000000aa>categories>food>tombstone>N:1
cell>2024-01>sum-amount-fun = ok 1|-35000
cell>2024-01>budget-fun = ok 1|30000
cell>2024-01>leftover-fun = ok 1|-5000
cell>2024-01>to-budget = ok 1|70000
cell>2024-02>to-budget = ok 1|45000
cell>2024-01>leftover-food = refused E5 no-such-category food
sheet>2024-01 = ok 18|total-income 100000|from-last-month 0|available-funds 100000|last-month-overspent 0|total-budgeted -30000|buffered 0|to-budget 70000|total-spent -35000|total-leftover -5000|group-sum-amount-g -35000|group-budget-g 30000|group-leftover-g -5000|sum-amount-fun -35000|budget-fun 30000|carryover-fun 0|leftover-fun -5000|group-sum-amount-gi 100000|sum-amount-pay 100000
register>bank = ok 2|t1>20240102>100000>pay>-|t2>20240110>-35000>fun>-
value>transactions>t2>category = ok 1|S:food
value>zero_budgets>202401-food>amount = ok 1|N:30000
balance>bank = ok 1|65000
undo = ok 1|writes 8
cell>2024-01>leftover-food = ok 1|-5000
cell>2024-01>leftover-fun = ok 1|0
value>category_mapping>food>transferId = ok 1|0:
value>zero_budgets>202401-fun>month = ok 1|N:0
value>zero_budgets>202401-fun>category = ok 1|0:
value>zero_budgets>202401-fun>amount = ok 1|N:0
value>categories>food>tombstone = ok 1|N:0
register>bank = ok 2|t1>20240102>100000>pay>-|t2>20240110>-35000>food>-
redo = ok 1|writes 8
cell>2024-01>leftover-fun = ok 1|-5000
cell>2024-02>budget-fun = ok 1|20000
register>bank = ok 2|t1>20240102>100000>pay>-|t2>20240110>-35000>fun>-
undo = ok 1|writes 8
cell>2024-01>leftover-food = ok 1|-5000
category-delete>food>pay = refused E31 category-type pay
category-delete>food>food = refused E14 same-id food",
    // what may refuse it, in this order
    r"category-add>fun>g>Fun = ok 1|writes 3
category-add>bonus>gi>Bonus = ok 1|writes 3
category-delete = refused E30 bad-command 1
category-delete>\x>b = refused E30 bad-command 1
category-delete>a>\x = refused E30 bad-command 2
category-delete>a>b>c = refused E30 bad-command 3
category-delete>none>nope = refused E5 no-such-category none
category-delete>none>none = refused E5 no-such-category none
category-delete>>food = refused E5 no-such-category
category-delete>food> = refused E5 no-such-category
category-delete>food>nope = refused E5 no-such-category nope
category-delete>g>food = refused E5 no-such-category g
category-delete>pay>pay = refused E14 same-id pay
category-delete>pay>fun = refused E31 category-type fun
category-delete>fun>bonus = refused E31 category-type bonus
budget>2024-02>fun>9007199254740991 = ok 1|writes 3
category-delete>food>fun = refused E9 bad-amount 9007199254760991
budget>2024-01>fun>9007199254740991 = ok 1|writes 3
category-delete>food>fun = refused E9 bad-amount 9007199254770991
category-delete>food>pay = refused E31 category-type pay
budget>2024-01>fun>9007199254710991 = ok 1|writes 1
budget>2024-02>fun>0 = ok 1|writes 1
set>categories>***xxxxxxxxxxxxxxxxxxxxxxxxxxxxxxxxxxxxxxxxxxxxxxxxxxxxxxxxx>cat_group>S:g = ok 1|writes 1
category-delete>food>***xxxxxxxxxxxxxxxxxxxxxxxxxxxxxxxxxxxxxxxxxxxxxxxxxxxxxxxxx = refused E1 bad-id 202401-***xxxxxxxxxxxxxxxxxxxxxxxxxxxxxxxxxxxxxxxxxxxxxxxxxxxxxxxxx
budget>2024-01>food>0 = ok 1|writes 1
category-delete>food>***xxxxxxxxxxxxxxxxxxxxxxxxxxxxxxxxxxxxxxxxxxxxxxxxxxxxxxxxx = refused E1 bad-id 202402-***xxxxxxxxxxxxxxxxxxxxxxxxxxxxxxxxxxxxxxxxxxxxxxxxxxxxxxxxx
budget>2024-02>food>0 = ok 1|writes 1
category-delete>food>***xxxxxxxxxxxxxxxxxxxxxxxxxxxxxxxxxxxxxxxxxxxxxxxxxxxxxxxxx = ok 1|writes 2
undo = ok 1|writes 2
budget>2024-01>food>30000 = ok 1|writes 1
category-delete>food>fun = ok 1|writes 3
cell>2024-01>budget-fun = ok 1|9007199254740991
category-delete>food>fun = refused E5 no-such-category food
category-delete>fun>food = refused E5 no-such-category food",
    // an amount of each month but 0 goes to the other category, and a flag to none; then all goes on once more
    r"category-add>fun>g>Fun = ok 1|writes 3
category-add>play>g>Play = ok 1|writes 3
budget>2024-01>fun>100 = ok 1|writes 3
budget>2024-03>food>0 = ok 1|writes 3
budget>2024-04>food>-700 = ok 1|writes 3
carryover>2024-05>food>1 = ok 1|writes 3
set>zero_budgets>202413-food>amount>N:7 = ok 1|writes 1
set>zero_budgets>2024-06-food>amount>N:7 = ok 1|writes 1
category-delete>food>fun = ok 1|writes 9
cell>2024-01>budget-fun = ok 1|30100
cell>2024-02>budget-fun = ok 1|20000
value>zero_budgets>202403-fun>amount = ok 1|none
cell>2024-04>budget-fun = ok 1|-700
cell>2024-05>carryover-fun = ok 1|0
cell>2024-06>budget-fun = ok 1|0
value>zero_budgets>202405-food>carryover = ok 1|N:1
category-delete>fun>play = ok 1|writes 12
value>category_mapping>food>transferId = ok 1|S:play
value>category_mapping>fun>transferId = ok 1|S:play
cell>2024-01>sum-amount-play = ok 1|-35000
cell>2024-01>budget-play = ok 1|30100
cell>2024-04>budget-play = ok 1|-700
register>bank = ok 2|t1>20240102>100000>pay>-|t2>20240110>-35000>play>-
undo = ok 1|writes 12
value>category_mapping>food>transferId = ok 1|S:fun
cell>2024-01>sum-amount-fun = ok 1|-35000
register>bank = ok 2|t1>20240102>100000>pay>-|t2>20240110>-35000>fun>-
undo = ok 1|writes 9
cell>2024-01>budget-fun = ok 1|100
cell>2024-01>leftover-food = ok 1|-5000",
    // an income goes on without amounts
    r"category-add>bonus>gi>Bonus = ok 1|writes 3
set>zero_budgets>202401-pay>amount>N:5 = ok 1|writes 1
category-delete>pay>bonus = ok 1|writes 2
cell>2024-01>sum-amount-bonus = ok 1|100000
cell>2024-01>total-income = ok 1|100000
cell>2024-02>to-budget = ok 1|45000
value>zero_budgets>202401-bonus>amount = ok 1|none
register>bank = ok 2|t1>20240102>100000>bonus>-|t2>20240110>-35000>food>-
undo = ok 1|writes 2
cell>2024-01>sum-amount-pay = ok 1|100000",
    // a category that was deleted without another one has no transactions, until it is mapped
    r"category-add>fun>g>Fun = ok 1|writes 3
category-delete>food = ok 1|writes 1
cell>2024-01>total-spent = ok 1|0
register>bank = ok 2|t1>20240102>100000>pay>-|t2>20240110>-35000>food>-
category-delete>food>fun = refused E5 no-such-category food
set>category_mapping>food>transferId>S:fun = ok 1|writes 1
cell>2024-01>sum-amount-fun = ok 1|-35000
cell>2024-01>budget-fun = ok 1|0
register>bank = ok 2|t1>20240102>100000>pay>-|t2>20240110>-35000>fun>-",
    // mappings field by field: one step is taken, also from a live category, to one that is not there, and in a circle
    r"category-add>fun>g>Fun = ok 1|writes 3
set>category_mapping>food>targetId>S:fun = ok 1|writes 1
cell>2024-01>sum-amount-fun = ok 1|0
set>category_mapping>food>transferId>S:fun = ok 1|writes 1
cell>2024-01>sum-amount-fun = ok 1|-35000
cell>2024-01>sum-amount-food = ok 1|0
cell>2024-01>leftover-food = ok 1|30000
set>category_mapping>fun>transferId>S:pay = ok 1|writes 1
cell>2024-01>sum-amount-fun = ok 1|-35000
cell>2024-01>sum-amount-pay = ok 1|100000
register>bank = ok 2|t1>20240102>100000>pay>-|t2>20240110>-35000>fun>-
set>category_mapping>fun>transferId>S:food = ok 1|writes 1
tx-add>t3>bank>20240111>-100>->fun> = ok 1|writes 6
cell>2024-01>sum-amount-fun = ok 1|-35000
cell>2024-01>sum-amount-food = ok 1|-100
register>bank = ok 3|t1>20240102>100000>pay>-|t2>20240110>-35000>fun>-|t3>20240111>-100>food>-
set>category_mapping>fun>transferId>S:fun = ok 1|writes 1
cell>2024-01>sum-amount-fun = ok 1|-35100
set>category_mapping>fun>transferId>0: = ok 1|writes 1
cell>2024-01>sum-amount-fun = ok 1|-35100
set>category_mapping>fun>transferId>N:5 = ok 1|writes 1
cell>2024-01>sum-amount-fun = ok 1|-35100
set>category_mapping>food>transferId>S:gone\t = ok 1|writes 1
cell>2024-01>total-spent = ok 1|-100
cell>2024-02>to-budget = ok 1|49900
register>bank = ok 3|t1>20240102>100000>pay>-|t2>20240110>-35000>gone\t>-|t3>20240111>-100>fun>-
set>categories>dead>cat_group>S:g = ok 1|writes 1
set>category_mapping>food>transferId>S:dead = ok 1|writes 1
cell>2024-01>sum-amount-dead = ok 1|-35000
set>categories>dead>tombstone>N:1 = ok 1|writes 1
cell>2024-01>total-spent = ok 1|-100
set>category_mapping>food>transferId>S:pay = ok 1|writes 1
cell>2024-01>total-income = ok 1|65000
receive>2024-01-05T10:00:01.000Z-0000-00000000000000bb>category_mapping>food>transferId>S:fun = ok 1|added 1
receive>2024-01-01T00:00:00.000Z-0000-00000000000000bb>category_mapping>food>transferId>S:pay = ok 1|added 1
cell>2024-01>sum-amount-fun = ok 1|-35100
cell>2024-01>total-income = ok 1|100000
category-delete>food>fun = ok 1|writes 8
undo = ok 1|writes 8
value>category_mapping>food>transferId = ok 1|S:fun",
    // what the tracking budget gives, which changes no sheet
    r"track = refused E30 bad-command 1
track>2024-1>food>5 = refused E30 bad-command 1
track>2024-01>food = refused E30 bad-command 3
track>2024-01>food>1.5 = refused E30 bad-command 3
track>2024-01>food>5>6 = refused E30 bad-command 4
track>2024-13>nope>1 = refused E10 bad-month 202413
track>2024-01>nope>9007199254740992 = refused E5 no-such-category nope
track>2024-01>food>9007199254740992 = refused E9 bad-amount 9007199254740992
set>categories>***xxxxxxxxxxxxxxxxxxxxxxxxxxxxxxxxxxxxxxxxxxxxxxxxxxxxxxxxx>cat_group>S:g = ok 1|writes 1
track>2024-01>***xxxxxxxxxxxxxxxxxxxxxxxxxxxxxxxxxxxxxxxxxxxxxxxxxxxxxxxxx>-9007199254740992 = refused E9 bad-amount -9007199254740992
track>2024-01>***xxxxxxxxxxxxxxxxxxxxxxxxxxxxxxxxxxxxxxxxxxxxxxxxxxxxxxxxx>1 = refused E1 bad-id 202401-***xxxxxxxxxxxxxxxxxxxxxxxxxxxxxxxxxxxxxxxxxxxxxxxxxxxxxxxxx
track>2024-01>food>30000 = ok 1|writes 3
track>2024-01>pay>90000 = ok 1|writes 3
track>2024-01>food>-100 = ok 1|writes 1
value>reflect_budgets>202401-food>amount = ok 1|N:-100
value>reflect_budgets>202401-food>month = ok 1|N:202401
value>reflect_budgets>202401-pay>category = ok 1|S:pay
track-carryover>2024-01>food = refused E30 bad-command 3
track-carryover>2024-01>food>2 = refused E30 bad-command 3
track-carryover>2024-01>food>1>1 = refused E30 bad-command 4
track-carryover>2024-13>nope>1 = refused E10 bad-month 202413
track-carryover>2024-02>nope>1 = refused E5 no-such-category nope
track-carryover>2024-02>***xxxxxxxxxxxxxxxxxxxxxxxxxxxxxxxxxxxxxxxxxxxxxxxxxxxxxxxxx>1 = refused E1 bad-id 202402-***xxxxxxxxxxxxxxxxxxxxxxxxxxxxxxxxxxxxxxxxxxxxxxxxxxxxxxxxx
track-carryover>2024-01>food>1 = ok 1|writes 1
track-carryover>2024-02>food>1 = ok 1|writes 3
value>reflect_budgets>202402-food>carryover = ok 1|N:1
undo = ok 1|writes 3
value>reflect_budgets>202402-food>month = ok 1|N:0
value>reflect_budgets>202402-food>category = ok 1|0:
value>reflect_budgets>202402-food>carryover = ok 1|N:0
redo = ok 1|writes 3
value>reflect_budgets>202402-food>category = ok 1|S:food
cell>2024-01>budget-food = ok 1|30000
cell>2024-02>carryover-food = ok 1|0
cell>2024-02>to-budget = ok 1|45000
category-add>fun>g>Fun = ok 1|writes 3
category-delete>food>fun = ok 1|writes 8
value>reflect_budgets>202401-fun>amount = ok 1|none
track>2024-01>food>1 = refused E5 no-such-category food",
];

#[test]
fn categories_are_handed_on(rt: HostRuntime) -> Result<(), Fail> {
    for table in HANDED {
        let wrong = talk(rt.alloc(), &[HOUSE, table])?;
        assert_eq!(rt; wrong.as_str(), "");
    }
    Ok(())
}

/// An account, three payees, and two categories.
const SHOPS: &str =
    r"account-add>bank>Bank>0 = ok 2|writes 4|made 2024-01-05T10:00:00.000Z-0002-00000000000000aa
payee-add>p>Shop = ok 1|writes 1
payee-add>q>Shop Ltd = ok 1|writes 1
payee-add>r>Market = ok 1|writes 1
group-add>g>Usual>0 = ok 1|writes 2
category-add>food>g>Food = ok 1|writes 3
category-add>fun>g>Fun = ok 1|writes 3";

/// Lines to them, each table by itself.
const MERGED: [&str; 9] = [
    // what may refuse that payees are merged, in this order
    r"payee-merge = refused E30 bad-command 1
payee-merge>p = refused E30 bad-command 2
payee-merge>\x>q = refused E30 bad-command 1
payee-merge>p>\x = refused E30 bad-command 2
payee-merge>p>q>\x = refused E30 bad-command 3
payee-merge>none>nope = refused E6 no-such-payee none
payee-merge>none>p = refused E6 no-such-payee none
payee-merge>p>nope>q = refused E6 no-such-payee nope
payee-merge>p>q>nope = refused E6 no-such-payee nope
payee-merge>p> = refused E6 no-such-payee
payee-merge>p>p>nope = refused E6 no-such-payee nope
payee-merge>2024-01-05T10:00:00.000Z-0002-00000000000000aa>nope = refused E6 no-such-payee nope
payee-merge>p>p = refused E14 same-id p
payee-merge>p>q>p = refused E14 same-id p
payee-merge>2024-01-05T10:00:00.000Z-0002-00000000000000aa>2024-01-05T10:00:00.000Z-0002-00000000000000aa = refused E14 same-id 2024-01-05T10:00:00.000Z-0002-00000000000000aa
payee-merge>p>2024-01-05T10:00:00.000Z-0002-00000000000000aa>p = refused E14 same-id p
payee-merge>2024-01-05T10:00:00.000Z-0002-00000000000000aa>p = refused E32 transfer-payee 2024-01-05T10:00:00.000Z-0002-00000000000000aa
payee-merge>p>q>2024-01-05T10:00:00.000Z-0002-00000000000000aa = refused E32 transfer-payee 2024-01-05T10:00:00.000Z-0002-00000000000000aa
set>payees>u>transfer_acct>S: = ok 1|writes 1
payee-merge>p>u>2024-01-05T10:00:00.000Z-0002-00000000000000aa = refused E32 transfer-payee u
payee-merge>u>2024-01-05T10:00:00.000Z-0002-00000000000000aa = refused E32 transfer-payee u
set>payees>u>transfer_acct>0: = ok 1|writes 1
payee-merge>p>u = ok 1|writes 2
payee-merge>p>u = refused E6 no-such-payee u",
    // payees become another one, and that one becomes one more; both are taken back and made again
    r"tx-add>a>bank>20240102>-100>q>-> = ok 1|writes 6
tx-add>b>bank>20240103>-200>r>-> = ok 1|writes 6
payee-merge>p>q>r = ok 1|writes 4
messages>2024-01-05T10:00:00.000Z-001A-00000000000000aa = ok 4|2024-01-05T10:00:00.000Z-001B-00000000000000aa>payee_mapping>q>targetId>S:p|2024-01-05T10:00:00.000Z-001C-00000000000000aa>payees>q>tombstone>N:1|2024-01-05T10:00:00.000Z-001D-00000000000000aa>payee_mapping>r>targetId>S:p|2024-01-05T10:00:00.000Z-001E-00000000000000aa>payees>r>tombstone>N:1
register>bank = ok 2|a>20240102>-100>->p|b>20240103>-200>->p
value>transactions>a>description = ok 1|S:q
payee-rename>q>Store = refused E6 no-such-payee q
tx-set>a>payee>q = refused E6 no-such-payee q
undo = ok 1|writes 4
register>bank = ok 2|a>20240102>-100>->q|b>20240103>-200>->r
value>payee_mapping>q>targetId = ok 1|0:
redo = ok 1|writes 4
register>bank = ok 2|a>20240102>-100>->p|b>20240103>-200>->p
undo = ok 1|writes 4
payee-merge>p>q>q = ok 1|writes 2
payee-add>s>Store = ok 1|writes 1
payee-merge>s>p>r>p = ok 1|writes 5
value>payee_mapping>q>targetId = ok 1|S:s
register>bank = ok 2|a>20240102>-100>->s|b>20240103>-200>->s
tx-set>b>payee>s = ok 1|writes 1
undo = ok 1|writes 1
undo = ok 1|writes 5
register>bank = ok 2|a>20240102>-100>->p|b>20240103>-200>->r
redo = ok 1|writes 5
register>bank = ok 2|a>20240102>-100>->s|b>20240103>-200>->s
balance>bank = ok 1|-300",
    // one that was mapped to another one of the same line is mapped twice, and undone once
    r"set>payee_mapping>x>targetId>S:q = ok 1|writes 1
set>payee_mapping>q>targetId>S:r = ok 1|writes 1
payee-merge>p>q>r>q = ok 1|writes 6
messages>2024-01-05T10:00:00.000Z-0010-00000000000000aa = ok 6|2024-01-05T10:00:00.000Z-0011-00000000000000aa>payee_mapping>x>targetId>S:p|2024-01-05T10:00:00.000Z-0012-00000000000000aa>payee_mapping>q>targetId>S:p|2024-01-05T10:00:00.000Z-0013-00000000000000aa>payees>q>tombstone>N:1|2024-01-05T10:00:00.000Z-0014-00000000000000aa>payee_mapping>q>targetId>S:p|2024-01-05T10:00:00.000Z-0015-00000000000000aa>payee_mapping>r>targetId>S:p|2024-01-05T10:00:00.000Z-0016-00000000000000aa>payees>r>tombstone>N:1
undo = ok 1|writes 5
value>payee_mapping>x>targetId = ok 1|S:q
value>payee_mapping>q>targetId = ok 1|S:r
value>payee_mapping>r>targetId = ok 1|0:
payee-rename>q>Store = ok 1|writes 1",
    // mappings of payees field by field: one step is taken
    r"tx-add>a>bank>20240102>-100>q>-> = ok 1|writes 6
tx-add>b>bank>20240103>-200>p>-> = ok 1|writes 6
set>payee_mapping>q>transferId>S:p = ok 1|writes 1
register>bank = ok 2|a>20240102>-100>->q|b>20240103>-200>->p
set>payee_mapping>q>targetId>S:p = ok 1|writes 1
set>payee_mapping>p>targetId>S:r = ok 1|writes 1
register>bank = ok 2|a>20240102>-100>->p|b>20240103>-200>->r
set>payee_mapping>p>targetId>S:q = ok 1|writes 1
register>bank = ok 2|a>20240102>-100>->p|b>20240103>-200>->q
receive>2024-01-05T10:00:01.000Z-0000-00000000000000bb>payee_mapping>p>targetId>S:gone = ok 1|added 1
register>bank = ok 2|a>20240102>-100>->p|b>20240103>-200>->gone
receive>2024-01-01T00:00:00.000Z-0000-00000000000000bb>payee_mapping>p>targetId>S:r = ok 1|added 1
register>bank = ok 2|a>20240102>-100>->p|b>20240103>-200>->gone
payee-delete>p = ok 1|writes 1
register>bank = ok 2|a>20240102>-100>->p|b>20240103>-200>->gone
set>payee_mapping>p>targetId>0: = ok 1|writes 1
register>bank = ok 2|a>20240102>-100>->p|b>20240103>-200>->p",
    // ids of categories that were mapped to it go along, by id
    r"set>category_mapping>b>transferId>S:food = ok 1|writes 1
set>category_mapping>food>transferId>S:food = ok 1|writes 1
set>category_mapping>B>transferId>S:food = ok 1|writes 1
set>category_mapping>fun>transferId>S:food = ok 1|writes 1
set>category_mapping>c>transferId>S:fun = ok 1|writes 1
category-delete>food>fun = ok 1|writes 5
messages>2024-01-05T10:00:00.000Z-0013-00000000000000aa = ok 5|2024-01-05T10:00:00.000Z-0014-00000000000000aa>category_mapping>B>transferId>S:fun|2024-01-05T10:00:00.000Z-0015-00000000000000aa>category_mapping>b>transferId>S:fun|2024-01-05T10:00:00.000Z-0016-00000000000000aa>category_mapping>fun>transferId>S:fun|2024-01-05T10:00:00.000Z-0017-00000000000000aa>category_mapping>food>transferId>S:fun|2024-01-05T10:00:00.000Z-0018-00000000000000aa>categories>food>tombstone>N:1",
    // conditions of rules ask what the ids of both sides are mapped to, by one step
    r#"tx-add>a>bank>20240102>-100>q>food> = ok 1|writes 6
tx-add>b>bank>20240103>-200>p>fun> = ok 1|writes 6
tx-add>c>bank>20240104>-300>r>-> = ok 1|writes 6
rule-add>r1>none>and>[{"field":"description","op":"is","value":"q"}]>[{"op":"link-schedule","value":"r1"}] = ok 1|writes 4
rules-run>b = ok 1|writes 0
payee-merge>p>q = ok 1|writes 2
rules-run>a>b>c = ok 1|writes 2
rule-delete>r1 = ok 1|writes 1
rule-add>r2>none>and>[{"field":"payee","op":"is","value":"p"}]>[{"op":"link-schedule","value":"r2"}] = ok 1|writes 4
rules-run>a>b>c = ok 1|writes 2
value>transactions>a>schedule = ok 1|S:r2
rule-delete>r2 = ok 1|writes 1
rule-add>r3>none>and>[{"field":"description","op":"isNot","value":"q"}]>[{"op":"link-schedule","value":"r3"}] = ok 1|writes 4
rules-run>a>b>c = ok 1|writes 1
value>transactions>c>schedule = ok 1|S:r3
rule-delete>r3 = ok 1|writes 1
rule-add>r4>none>and>[{"field":"description","op":"oneOf","value":["x","q"]}]>[{"op":"link-schedule","value":"r4"}] = ok 1|writes 4
rules-run>a>b>c = ok 1|writes 2
rule-delete>r4 = ok 1|writes 1
rule-add>r5>none>and>[{"field":"description","op":"notOneOf","value":["q"]}]>[{"op":"link-schedule","value":"r5"}] = ok 1|writes 4
rules-run>a>b>c = ok 1|writes 1
rule-delete>r5 = ok 1|writes 1
rule-add>r6>none>and>[{"field":"description","op":"is","value":null}]>[{"op":"link-schedule","value":"r6"}] = ok 1|writes 4
rules-run>a>b>c = ok 1|writes 0
rule-delete>r6 = ok 1|writes 1
category-delete>food>fun = ok 1|writes 2
rule-add>r7>none>and>[{"field":"category","op":"is","value":"food"}]>[{"op":"link-schedule","value":"r7"}] = ok 1|writes 4
rules-run>a>b>c = ok 1|writes 2
rule-delete>r7 = ok 1|writes 1
rule-add>r8>none>and>[{"field":"category","op":"isNot","value":"fun"}]>[{"op":"link-schedule","value":"r8"}] = ok 1|writes 4
rules-run>a>b>c = ok 1|writes 1
value>transactions>c>schedule = ok 1|S:r8
rule-delete>r8 = ok 1|writes 1
rule-add>r9>none>and>[{"field":"description","op":"is","value":"r"}]>[{"field":"category","value":"food"},{"field":"description","value":"q"}] = ok 1|writes 4
rules-run>c = ok 1|writes 0
rule-delete>r9 = ok 1|writes 1
set>category_mapping>fun>transferId>S:food = ok 1|writes 1
rule-add>r10>none>and>[{"field":"category","op":"is","value":"food"}]>[{"op":"link-schedule","value":"r10"}] = ok 1|writes 4
rules-run>a>b>c = ok 1|writes 1
value>transactions>a>schedule = ok 1|S:r10
value>transactions>b>schedule = ok 1|S:r7
rule-delete>r10 = ok 1|writes 1
rule-add>r11>none>and>[{"field":"category","op":"oneOf","value":["fun"]}]>[{"op":"link-schedule","value":"r11"}] = ok 1|writes 4
rules-run>a>b>c = ok 1|writes 1
value>transactions>b>schedule = ok 1|S:r11"#,
    // a statement finds the transaction of a payee that has become the one that it names, and finds it again
    r"tx-add>a>bank>20240301>-500>->-> = ok 1|writes 6
tx-add>b>bank>20240305>-500>q>-> = ok 1|writes 6
payee-merge>p>q = ok 1|writes 2
import>bank>date,payee,amount\n2024-03-01,Shop,-5\n = ok 1|writes 2
value>transactions>b>imported_description = ok 1|S:Shop
value>transactions>b>cleared = ok 1|N:1
value>transactions>b>description = ok 1|S:q
value>transactions>a>imported_description = ok 1|none
import>bank>date,payee,amount\n2024-03-01,Shop,-5\n = ok 1|writes 0
register>bank = ok 2|a>20240301>-500>->-|b>20240305>-500>->p",
    // where it has not, the day decides
    r"tx-add>a>bank>20240301>-500>->-> = ok 1|writes 6
tx-add>b>bank>20240305>-500>q>-> = ok 1|writes 6
import>bank>date,payee,amount\n2024-03-01,Shop,-5\n = ok 1|writes 3
value>transactions>a>description = ok 1|S:p
value>transactions>b>imported_description = ok 1|none",
    // a statement that names a merged payee makes a new one, once
    r"tx-add>b>bank>20240305>-500>q>-> = ok 1|writes 6
payee-merge>p>q = ok 1|writes 2
import>bank>date,payee,amount\n2024-03-05,Shop Ltd,-5\n = ok 2|writes 3|made 2024-01-05T10:00:00.000Z-0017-00000000000000aa
value>transactions>b>description = ok 1|S:q
import>bank>date,payee,amount\n2024-03-05,Shop Ltd,-5\n = ok 1|writes 0
payee-merge>p>2024-01-05T10:00:00.000Z-0017-00000000000000aa = ok 1|writes 2
import>bank>date,payee,amount\n2024-03-05,Shop Ltd,-5\n = ok 2|writes 1|made 2024-01-05T10:00:00.000Z-001C-00000000000000aa
import>bank>date,payee,amount\n2024-03-05,Shop Ltd,-5\n = ok 1|writes 0",
];

#[test]
fn payees_are_merged(rt: HostRuntime) -> Result<(), Fail> {
    for table in MERGED {
        let wrong = talk(rt.alloc(), &[SHOPS, table])?;
        assert_eq!(rt; wrong.as_str(), "");
    }
    Ok(())
}
