//! Lines that only read, and words that aren't of their form. Replies are worked out by hand from the rules, and the hashes come from
//! another implementation.
use crate::books::HOUSE;
use crate::table::talk;
use std::test::Fail;

/// Lines of a device that two messages have come to, of one minute and one field; their hashes are 189847234 and 195473800.
const READS: &str = r#"fields = ok 0
trie = ok 1|{"hash":0}
receive>2024-01-05T10:00:00.000Z-0000-00000000000000aa>categories>food>name>S:a\\b = ok 1|added 1
receive>2024-01-05T10:00:01.000Z-0000-00000000000000bb>categories>food>name>S:c\td = ok 1|added 1
receive>2024-01-05T10:00:01.000Z-0000-00000000000000bb>categories>food>name>S:x = ok 1|added 0
fields = ok 1|2024-01-05T10:00:01.000Z-0000-00000000000000bb>categories>food>name>S:c\td
messages> = ok 2|2024-01-05T10:00:00.000Z-0000-00000000000000aa>categories>food>name>S:a\\b|2024-01-05T10:00:01.000Z-0000-00000000000000bb>categories>food>name>S:c\td
messages>2024-01-05T10:00:00.000Z-0000-00000000000000aa = ok 1|2024-01-05T10:00:01.000Z-0000-00000000000000bb>categories>food>name>S:c\td
messages>3 = ok 0
value>categories>food>name = ok 1|S:c\td
value>categories>rent>name = ok 1|none
value>>\n>\0 = ok 1|none
trie = ok 1|{"1":{"2":{"2":{"2":{"1":{"1":{"0":{"0":{"2":{"0":{"2":{"0":{"1":{"2":{"2":{"0":{"hash":16148298},"hash":16148298},"hash":16148298},"hash":16148298},"hash":16148298},"hash":16148298},"hash":16148298},"hash":16148298},"hash":16148298},"hash":16148298},"hash":16148298},"hash":16148298},"hash":16148298},"hash":16148298},"hash":16148298},"hash":16148298},"hash":16148298}"#;

/// Words that aren't of their form: the first of them is told. One that is of its form is refused for what it says.
const PARTS: &str = r" = refused E30 bad-command 0
x = refused E30 bad-command 0
Set>a>b>c>d = refused E30 bad-command 0
fields> = refused E30 bad-command 1
trie>x = refused E30 bad-command 1
set = refused E30 bad-command 1
set>a>b>c = refused E30 bad-command 4
set>a>b>\x>S:x = refused E30 bad-command 3
set>a>b>c>S:x> = refused E30 bad-command 5
value>a>b = refused E30 bad-command 3
value>a>\x>c = refused E30 bad-command 2
value>a>\ = refused E30 bad-command 2
value>a>b>c>d = refused E30 bad-command 4
messages = refused E30 bad-command 1
messages>a>b = refused E30 bad-command 2
receive = refused E30 bad-command 1
receive>x = refused E30 bad-command 1
receive>2024-01-05T10:00:00.000Z-0000-00000000000000aa>>b = refused E30 bad-command 2
receive>2024-01-05T10:00:00.000Z-0000-00000000000000aa>a>\t>c>d = refused E30 bad-command 3
receive>2024-01-05T10:00:00.000Z-0000-00000000000000aa>a>b = refused E30 bad-command 4
receive>2024-01-05T10:00:00.000Z-0000-00000000000000aa>a>b>c = refused E30 bad-command 5
receive>2024-01-05T10:00:00.000Z-0000-00000000000000aa>a>b>c>d>e = refused E30 bad-command 6
balance = refused E30 bad-command 1
balance>a>b = refused E30 bad-command 2
hold>2024-1>5 = refused E30 bad-command 1
hold>2024-01>-0 = refused E30 bad-command 2
hold>2024-01>+5 = refused E30 bad-command 2
hold>2024-01>05 = refused E30 bad-command 2
hold>2024-01>9223372036854775808 = refused E30 bad-command 2
hold>2024-01>9223372036854775807 = refused E9 bad-amount 9223372036854775807
cell>2024-01 = refused E30 bad-command 2
account-add>a>A>2 = refused E30 bad-command 3
account-offbudget>a>01 = refused E30 bad-command 2
tx-add>->a>2024021>1>->-> = refused E30 bad-command 3
tx-add>->a>20240201>1.5>->-> = refused E30 bad-command 4
tx-add>->a>20240201>1>->- = refused E30 bad-command 7
carryover>2024-01>a> = refused E30 bad-command 3
move>2024-01>a>b = refused E30 bad-command 4
note>a>\x = refused E30 bad-command 2";

#[test]
fn reads(rt: HostRuntime) -> Result<(), Fail> {
    for table in [READS, PARTS] {
        let wrong = talk(rt.alloc(), &[table])?;
        assert_eq!(rt; wrong.as_str(), "");
    }
    Ok(())
}

/// Cells and sheets that there are not, and two cells that there are.
const CELLS: &str = r"sheet>2024-13 = refused E10 bad-month 202413
sheet>2200-01 = refused E10 bad-month 220001
cell>0000-12>x = refused E10 bad-month 12
cell>2024-01>x = refused E30 bad-command 2
cell>2024-01>to-budget-x = refused E30 bad-command 2
cell>2024-01>budget- = refused E5 no-such-category
cell>2024-01>budget-x = refused E5 no-such-category x
cell>2024-01>budget-pay = refused E5 no-such-category pay
cell>2024-01>group-budget-gi = refused E4 no-such-group gi
cell>2024-01>group-budget-x = refused E4 no-such-group x
cell>2024-01>sum-amount-pay = ok 1|100000
cell>2199-12>to-budget = ok 1|45000";

#[test]
fn cells(rt: HostRuntime) -> Result<(), Fail> {
    let wrong = talk(rt.alloc(), &[HOUSE, CELLS])?;
    assert_eq!(rt; wrong.as_str(), "");
    Ok(())
}
