//! Splits and transfers by lines. Replies are worked out by hand from the rules.
use crate::table::talk;
use std::test::Fail;

/// An account, two categories, and a transaction of -10,000.
const SPLIT: &str =
    r"account-add>bank>Bank>0 = ok 2|writes 4|made 2024-01-05T10:00:00.000Z-0002-00000000000000aa
group-add>g>Usual>0 = ok 1|writes 2
category-add>food>g>Food = ok 1|writes 3
category-add>fun>g>Fun = ok 1|writes 3
tx-add>t>bank>20240105>-10000>->-> = ok 1|writes 6";

/// Lines to that transaction, each table by itself.
const SPLITS: [&str; 3] = [
    // it is split, set by hand, and deleted
    r"split>t>-6000>food>-3000>fun = refused E11 split-sum -1000
split>t>-6000>food>-4000>fun = ok 3|writes 16|made 2024-01-05T10:00:00.000Z-0014-00000000000000aa|made 2024-01-05T10:00:00.000Z-001B-00000000000000aa
cell>2024-01>sum-amount-food = ok 1|-6000
cell>2024-01>sum-amount-fun = ok 1|-4000
value>transactions>t>isParent = ok 1|N:1
value>transactions>t>category = ok 1|0:
value>transactions>2024-01-05T10:00:00.000Z-001B-00000000000000aa>acct = ok 1|S:bank
value>transactions>2024-01-05T10:00:00.000Z-001B-00000000000000aa>date = ok 1|N:20240105
value>transactions>2024-01-05T10:00:00.000Z-001B-00000000000000aa>amount = ok 1|N:-4000
value>transactions>2024-01-05T10:00:00.000Z-001B-00000000000000aa>category = ok 1|S:fun
value>transactions>2024-01-05T10:00:00.000Z-001B-00000000000000aa>description = ok 1|0:
value>transactions>2024-01-05T10:00:00.000Z-001B-00000000000000aa>isChild = ok 1|N:1
value>transactions>2024-01-05T10:00:00.000Z-001B-00000000000000aa>parent_id = ok 1|S:t
balance>bank = ok 1|-10000
register>bank = ok 3|2024-01-05T10:00:00.000Z-0014-00000000000000aa>20240105>-6000>food>-|2024-01-05T10:00:00.000Z-001B-00000000000000aa>20240105>-4000>fun>-|t>20240105>-10000>->-
broken = ok 0
set>transactions>t>amount>N:-9000 = ok 1|writes 1
broken = ok 1|split t 1000
tx-delete>t = ok 1|writes 1
broken = ok 0
cell>2024-01>sum-amount-food = ok 1|0
cell>2024-01>sum-amount-fun = ok 1|0
balance>bank = ok 1|0
value>transactions>2024-01-05T10:00:00.000Z-0014-00000000000000aa>tombstone = ok 1|none
tx-set>2024-01-05T10:00:00.000Z-0014-00000000000000aa>notes>x = refused E7 no-such-transaction 2024-01-05T10:00:00.000Z-0014-00000000000000aa
tx-delete>t = refused E7 no-such-transaction t",
    // what is split, and its parts
    r"split>t>-6000>food>-4000>fun = ok 3|writes 16|made 2024-01-05T10:00:00.000Z-0014-00000000000000aa|made 2024-01-05T10:00:00.000Z-001B-00000000000000aa
tx-set>t>date>20240206 = ok 1|writes 3
value>transactions>t>date = ok 1|N:20240206
value>transactions>2024-01-05T10:00:00.000Z-0014-00000000000000aa>date = ok 1|N:20240206
cell>2024-02>sum-amount-fun = ok 1|-4000
account-add>cash>Cash>0 = ok 2|writes 4|made 2024-01-05T10:00:00.000Z-0027-00000000000000aa
tx-set>t>account>cash = ok 1|writes 3
balance>bank = ok 1|0
balance>cash = ok 1|-10000
tx-set>t>amount>-9000 = refused E11 split-sum 1000
tx-set>t>amount>-10000 = ok 1|writes 1
tx-set>t>category>food = refused E12 split-part t
tx-set>t>category>- = ok 1|writes 1
tx-set>2024-01-05T10:00:00.000Z-0014-00000000000000aa>category>fun = ok 1|writes 1
tx-set>2024-01-05T10:00:00.000Z-0014-00000000000000aa>notes>bread = ok 1|writes 1
tx-set>2024-01-05T10:00:00.000Z-0014-00000000000000aa>cleared>1 = ok 1|writes 1
tx-set>2024-01-05T10:00:00.000Z-0014-00000000000000aa>date>20240101 = refused E12 split-part 2024-01-05T10:00:00.000Z-0014-00000000000000aa
tx-set>2024-01-05T10:00:00.000Z-0014-00000000000000aa>amount>-6000 = refused E12 split-part 2024-01-05T10:00:00.000Z-0014-00000000000000aa
tx-set>2024-01-05T10:00:00.000Z-0014-00000000000000aa>account>bank = refused E12 split-part 2024-01-05T10:00:00.000Z-0014-00000000000000aa
tx-set>2024-01-05T10:00:00.000Z-0014-00000000000000aa>payee>- = refused E12 split-part 2024-01-05T10:00:00.000Z-0014-00000000000000aa
split>2024-01-05T10:00:00.000Z-0014-00000000000000aa>-6000>food = refused E12 split-part 2024-01-05T10:00:00.000Z-0014-00000000000000aa
tx-delete>2024-01-05T10:00:00.000Z-0014-00000000000000aa = refused E12 split-part 2024-01-05T10:00:00.000Z-0014-00000000000000aa
cell>2024-02>sum-amount-food = ok 1|0
cell>2024-02>sum-amount-fun = ok 1|-10000",
    // it is split again, and once more
    r"split>t>-6000>food>-4000>fun = ok 3|writes 16|made 2024-01-05T10:00:00.000Z-0014-00000000000000aa|made 2024-01-05T10:00:00.000Z-001B-00000000000000aa
split>t>-7000>->-3000>food = ok 3|writes 18|made 2024-01-05T10:00:00.000Z-0026-00000000000000aa|made 2024-01-05T10:00:00.000Z-002D-00000000000000aa
value>transactions>2024-01-05T10:00:00.000Z-0014-00000000000000aa>tombstone = ok 1|N:1
value>transactions>2024-01-05T10:00:00.000Z-001B-00000000000000aa>tombstone = ok 1|N:1
value>transactions>2024-01-05T10:00:00.000Z-0026-00000000000000aa>category = ok 1|0:
cell>2024-01>sum-amount-food = ok 1|-3000
cell>2024-01>sum-amount-fun = ok 1|0
balance>bank = ok 1|-10000
broken = ok 0
split>t>-10000>fun = ok 2|writes 11|made 2024-01-05T10:00:00.000Z-0038-00000000000000aa
cell>2024-01>sum-amount-food = ok 1|0
cell>2024-01>sum-amount-fun = ok 1|-10000
broken = ok 0",
];

#[test]
fn splits(rt: HostRuntime) -> Result<(), Fail> {
    for table in SPLITS {
        let wrong = talk(rt.alloc(), &[SPLIT, table])?;
        assert_eq!(rt; wrong.as_str(), "");
    }
    Ok(())
}

/// Two accounts of a budget, a category, and 2,500 that go from one account to the other.
const PAIR: &str =
    r"account-add>bank>Bank>0 = ok 2|writes 4|made 2024-01-05T10:00:00.000Z-0002-00000000000000aa
account-add>save>Save>0 = ok 2|writes 4|made 2024-01-05T10:00:00.000Z-0006-00000000000000aa
group-add>g>Usual>0 = ok 1|writes 2
category-add>food>g>Food = ok 1|writes 3
transfer>bank>save>20240105>2500>put by = ok 3|writes 12|made 2024-01-05T10:00:00.000Z-000D-00000000000000aa|made 2024-01-05T10:00:00.000Z-0013-00000000000000aa";

/// Lines to that pair, each table by itself.
const PAIRS: [&str; 3] = [
    // each names the other, and has the payee that stands for the other account
    r"value>transactions>2024-01-05T10:00:00.000Z-000D-00000000000000aa>acct = ok 1|S:bank
value>transactions>2024-01-05T10:00:00.000Z-000D-00000000000000aa>date = ok 1|N:20240105
value>transactions>2024-01-05T10:00:00.000Z-000D-00000000000000aa>amount = ok 1|N:-2500
value>transactions>2024-01-05T10:00:00.000Z-000D-00000000000000aa>description = ok 1|S:2024-01-05T10:00:00.000Z-0006-00000000000000aa
value>transactions>2024-01-05T10:00:00.000Z-000D-00000000000000aa>notes = ok 1|S:put by
value>transactions>2024-01-05T10:00:00.000Z-000D-00000000000000aa>transferred_id = ok 1|S:2024-01-05T10:00:00.000Z-0013-00000000000000aa
value>transactions>2024-01-05T10:00:00.000Z-0013-00000000000000aa>transferred_id = ok 1|S:2024-01-05T10:00:00.000Z-000D-00000000000000aa
register>save = ok 1|2024-01-05T10:00:00.000Z-0013-00000000000000aa>20240105>2500>->2024-01-05T10:00:00.000Z-0002-00000000000000aa
balance>bank = ok 1|-2500
cell>2024-01>to-budget = ok 1|0
broken = ok 0
payee-delete>2024-01-05T10:00:00.000Z-0002-00000000000000aa = ok 1|writes 1
transfer>bank>save>20240106>0> = ok 3|writes 12|made 2024-01-05T10:00:00.000Z-001A-00000000000000aa|made 2024-01-05T10:00:00.000Z-0020-00000000000000aa
value>transactions>2024-01-05T10:00:00.000Z-001A-00000000000000aa>amount = ok 1|N:0
value>transactions>2024-01-05T10:00:00.000Z-001A-00000000000000aa>description = ok 1|S:2024-01-05T10:00:00.000Z-0006-00000000000000aa
value>transactions>2024-01-05T10:00:00.000Z-001A-00000000000000aa>notes = ok 1|0:
value>transactions>2024-01-05T10:00:00.000Z-0020-00000000000000aa>description = ok 1|0:
transfer>save>bank>20240107>-100> = ok 3|writes 12|made 2024-01-05T10:00:00.000Z-0026-00000000000000aa|made 2024-01-05T10:00:00.000Z-002C-00000000000000aa
value>transactions>2024-01-05T10:00:00.000Z-0026-00000000000000aa>acct = ok 1|S:save
value>transactions>2024-01-05T10:00:00.000Z-0026-00000000000000aa>amount = ok 1|N:100
value>transactions>2024-01-05T10:00:00.000Z-002C-00000000000000aa>amount = ok 1|N:-100",
    // what is written to one is written to the other
    r"tx-set>2024-01-05T10:00:00.000Z-000D-00000000000000aa>date>20240206 = ok 1|writes 2
value>transactions>2024-01-05T10:00:00.000Z-0013-00000000000000aa>date = ok 1|N:20240206
tx-set>2024-01-05T10:00:00.000Z-0013-00000000000000aa>amount>700 = ok 1|writes 2
value>transactions>2024-01-05T10:00:00.000Z-000D-00000000000000aa>amount = ok 1|N:-700
tx-set>2024-01-05T10:00:00.000Z-000D-00000000000000aa>notes>mine = ok 1|writes 1
value>transactions>2024-01-05T10:00:00.000Z-0013-00000000000000aa>notes = ok 1|S:put by
tx-set>2024-01-05T10:00:00.000Z-000D-00000000000000aa>cleared>1 = ok 1|writes 1
value>transactions>2024-01-05T10:00:00.000Z-0013-00000000000000aa>cleared = ok 1|none
tx-set>2024-01-05T10:00:00.000Z-000D-00000000000000aa>account>bank = refused E13 transfer-part 2024-01-05T10:00:00.000Z-000D-00000000000000aa
tx-set>2024-01-05T10:00:00.000Z-000D-00000000000000aa>payee>- = refused E13 transfer-part 2024-01-05T10:00:00.000Z-000D-00000000000000aa
tx-set>2024-01-05T10:00:00.000Z-000D-00000000000000aa>category>food = refused E13 transfer-part 2024-01-05T10:00:00.000Z-000D-00000000000000aa
tx-set>2024-01-05T10:00:00.000Z-000D-00000000000000aa>category>- = ok 1|writes 1
split>2024-01-05T10:00:00.000Z-000D-00000000000000aa>-700>food = refused E13 transfer-part 2024-01-05T10:00:00.000Z-000D-00000000000000aa
account-offbudget>save>1 = ok 1|writes 1
tx-set>2024-01-05T10:00:00.000Z-000D-00000000000000aa>category>food = ok 1|writes 1
cell>2024-02>sum-amount-food = ok 1|-700
tx-delete>2024-01-05T10:00:00.000Z-0013-00000000000000aa = ok 1|writes 2
value>transactions>2024-01-05T10:00:00.000Z-000D-00000000000000aa>tombstone = ok 1|N:1
value>transactions>2024-01-05T10:00:00.000Z-0013-00000000000000aa>tombstone = ok 1|N:1
balance>bank = ok 1|0
tx-set>2024-01-05T10:00:00.000Z-000D-00000000000000aa>date>20240101 = refused E7 no-such-transaction 2024-01-05T10:00:00.000Z-000D-00000000000000aa",
    // a pair that is set by hand is wrong, both of it, until an edit makes it right
    r"set>transactions>2024-01-05T10:00:00.000Z-000D-00000000000000aa>amount>N:1 = ok 1|writes 1
broken = ok 2|transfer 2024-01-05T10:00:00.000Z-000D-00000000000000aa|transfer 2024-01-05T10:00:00.000Z-0013-00000000000000aa
tx-set>2024-01-05T10:00:00.000Z-000D-00000000000000aa>amount>-5 = ok 1|writes 2
broken = ok 0
set>transactions>2024-01-05T10:00:00.000Z-0013-00000000000000aa>date>N:20240106 = ok 1|writes 1
broken = ok 2|transfer 2024-01-05T10:00:00.000Z-000D-00000000000000aa|transfer 2024-01-05T10:00:00.000Z-0013-00000000000000aa
tx-set>2024-01-05T10:00:00.000Z-0013-00000000000000aa>date>20240107 = ok 1|writes 2
broken = ok 0
set>transactions>2024-01-05T10:00:00.000Z-0013-00000000000000aa>tombstone>N:1 = ok 1|writes 1
broken = ok 1|transfer 2024-01-05T10:00:00.000Z-000D-00000000000000aa
tx-set>2024-01-05T10:00:00.000Z-000D-00000000000000aa>amount>-6 = ok 1|writes 1
tx-set>2024-01-05T10:00:00.000Z-000D-00000000000000aa>payee>- = ok 1|writes 1
split>2024-01-05T10:00:00.000Z-000D-00000000000000aa>-6>food = ok 2|writes 9|made 2024-01-05T10:00:00.000Z-0024-00000000000000aa
broken = ok 1|transfer 2024-01-05T10:00:00.000Z-000D-00000000000000aa",
];

#[test]
fn pairs(rt: HostRuntime) -> Result<(), Fail> {
    for table in PAIRS {
        let wrong = talk(rt.alloc(), &[PAIR, table])?;
        assert_eq!(rt; wrong.as_str(), "");
    }
    Ok(())
}

/// Lines of a device without messages, each table by itself.
const REFUSED: [&str; 3] = [
    // what refuses an edit of a transaction, a split and a transfer, each in its turn
    r"account-add>bank>Bank>0 = ok 2|writes 4|made 2024-01-05T10:00:00.000Z-0002-00000000000000aa
account-add>save>Save>0 = ok 2|writes 4|made 2024-01-05T10:00:00.000Z-0006-00000000000000aa
tx-add>t>bank>20240105>-10000>->-> = ok 1|writes 6
tx-set>u>date>20240230 = refused E7 no-such-transaction u
tx-set>t>date>20240230 = refused E8 bad-date 20240230
tx-set>u>amount>1 = refused E7 no-such-transaction u
tx-set>t>amount>9007199254740992 = refused E9 bad-amount 9007199254740992
tx-set>t>amount>-9007199254740991 = ok 1|writes 1
tx-set>u>account>cash = refused E7 no-such-transaction u
tx-set>t>account>cash = refused E3 no-such-account cash
tx-set>u>payee>shop = refused E7 no-such-transaction u
tx-set>t>payee>shop = refused E6 no-such-payee shop
tx-set>t>payee>- = ok 1|writes 1
tx-set>u>category>food = refused E7 no-such-transaction u
tx-set>t>category>food = refused E5 no-such-category food
tx-set>t>category>- = ok 1|writes 1
tx-set>u>notes>x = refused E7 no-such-transaction u
tx-set>t>notes>x = ok 1|writes 1
value>transactions>t>notes = ok 1|S:x
tx-set>t>notes> = ok 1|writes 1
value>transactions>t>notes = ok 1|0:
tx-set>u>cleared>1 = refused E7 no-such-transaction u
tx-set>u>schedule>s = refused E7 no-such-transaction u
tx-set>t>schedule>s = refused E20 no-such-schedule s
set>schedules>s>name>S:Rent = ok 1|writes 1
tx-set>t>schedule>s = ok 1|writes 1
value>transactions>t>schedule = ok 1|S:s
set>schedules>s>tombstone>N:1 = ok 1|writes 1
tx-set>t>schedule>s = refused E20 no-such-schedule s
tx-set>t>schedule>- = ok 1|writes 1
value>transactions>t>schedule = ok 1|0:
tx-delete>u = refused E7 no-such-transaction u
tx-set>t>amount>3 = ok 1|writes 1
split>u>1>food = refused E7 no-such-transaction u
split>t>1>food>9007199254740992>- = refused E9 bad-amount 9007199254740992
split>t>1>->1>food>1>fun = refused E5 no-such-category food
split>t>1>->1>- = refused E11 split-sum 1
transfer>cash>purse>20240230>1> = refused E3 no-such-account cash
transfer>bank>purse>20240230>1> = refused E3 no-such-account purse
transfer>bank>bank>20240230>1> = refused E14 same-id bank
transfer>bank>save>20240230>9007199254740992> = refused E8 bad-date 20240230
transfer>bank>save>20240229>9007199254740992> = refused E9 bad-amount 9007199254740992",
    // which word is not of its form
    r"tx-set>t = refused E30 bad-command 2
tx-set>t>foo = refused E30 bad-command 2
tx-set>t>foo>1>2 = refused E30 bad-command 2
tx-set>t>amount = refused E30 bad-command 3
tx-set>t>amount>1.5 = refused E30 bad-command 3
tx-set>t>cleared>2 = refused E30 bad-command 3
tx-set>t>date>2024-01-05 = refused E30 bad-command 3
tx-set>t>notes>x>y = refused E30 bad-command 4
tx-delete = refused E30 bad-command 1
tx-delete>t>u = refused E30 bad-command 2
split>t = refused E30 bad-command 2
split>t>-5 = refused E30 bad-command 3
split>t>x>food = refused E30 bad-command 2
split>t>-5>food>-3 = refused E30 bad-command 5
transfer>a>b>20240105>-0> = refused E30 bad-command 4
transfer>a>b>20240105>1 = refused E30 bad-command 5
broken>t = refused E30 bad-command 1",
    // rows that lines of edits don't make
    r"set>transactions>a>transferred_id>S:a = ok 1|writes 1
set>transactions>b>transferred_id>S: = ok 1|writes 1
set>transactions>c>transferred_id>S:nobody = ok 1|writes 1
set>transactions>d>transferred_id>S:a = ok 1|writes 1
set>transactions>e>transferred_id>0: = ok 1|writes 1
set>transactions>f>isParent>N:1 = ok 1|writes 1
set>transactions>g>isParent>N:1 = ok 1|writes 1
set>transactions>g>amount>N:-100 = ok 1|writes 1
set>transactions>g>transferred_id>S:f = ok 1|writes 1
set>transactions>h>isParent>N:1 = ok 1|writes 1
set>transactions>h>amount>N:7 = ok 1|writes 1
set>transactions>h>tombstone>N:1 = ok 1|writes 1
broken = ok 6|transfer a|transfer b|transfer c|transfer d|transfer g|split g -100
set>transactions>i>isChild>N:1 = ok 1|writes 1
set>transactions>i>parent_id>S:g = ok 1|writes 1
set>transactions>i>amount>N:-30 = ok 1|writes 1
broken = ok 6|transfer a|transfer b|transfer c|transfer d|transfer g|split g -70
set>transactions>f>transferred_id>S:g = ok 1|writes 1
broken = ok 7|transfer a|transfer b|transfer c|transfer d|transfer f|transfer g|split g -70
set>transactions>f>amount>N:100 = ok 1|writes 1
broken = ok 6|transfer a|transfer b|transfer c|transfer d|split f 100|split g -70",
];

#[test]
fn refused(rt: HostRuntime) -> Result<(), Fail> {
    for table in REFUSED {
        let wrong = talk(rt.alloc(), &[table])?;
        assert_eq!(rt; wrong.as_str(), "");
    }
    Ok(())
}
