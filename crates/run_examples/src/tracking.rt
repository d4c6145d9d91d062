//! The tracking budget by lines. Replies are worked out by hand from the rules.
use crate::books::HOUSE;
use crate::table::talk;
use std::test::Fail;

/// Lines to the household, each table by itself.
const TRACKED: [&str; 3] = [
    // amounts of a second budget carry nothing over unless told, and touch no cell of the first
    r"track>2024-01>food>30000 = ok 1|writes 3
track>2024-01>pay>90000 = ok 1|writes 3
track>2024-02>food>20000 = ok 1|writes 3
track-cell>2024-01>leftover-food = ok 1|-5000
track-cell>2024-01>leftover-pay = ok 1|-10000
track-cell>2024-01>total-saved = ok 1|60000
track-cell>2024-01>real-saved = ok 1|65000
track-cell>2024-02>leftover-food = ok 1|20000
track-carryover>2024-01>food>1 = ok 1|writes 1
track-cell>2024-02>leftover-food = ok 1|15000
track-cell>2024-02>total-leftover = ok 1|15000
track-sheet>2024-01 = ok 15|total-income 100000|total-budget-income 90000|total-budgeted 30000|total-spent -35000|total-leftover -5000|total-saved 60000|real-saved 65000|sum-amount-food -35000|budget-food 30000|carryover-food 1|leftover-food -5000|sum-amount-pay 100000|budget-pay 90000|carryover-pay 0|leftover-pay -10000
cell>2024-01>to-budget = ok 1|70000
cell>2024-02>leftover-food = ok 1|20000
cell>2024-02>to-budget = ok 1|45000
undo = ok 1|writes 1
track-cell>2024-02>leftover-food = ok 1|20000
redo = ok 1|writes 1
track-carryover>2024-01>pay>1 = ok 1|writes 1
track-cell>2024-02>leftover-pay = ok 1|-10000
track-sheet>2024-03 = ok 15|total-income 0|total-budget-income 0|total-budgeted 0|total-spent 0|total-leftover 0|total-saved 0|real-saved 0|sum-amount-food 0|budget-food 0|carryover-food 0|leftover-food 0|sum-amount-pay 0|budget-pay 0|carryover-pay 0|leftover-pay 0
budget>2024-01>food>1 = ok 1|writes 1
track-cell>2024-01>leftover-food = ok 1|-5000",
    // a category that takes income from then on, in months before too; the first and the last month
    r"track>2024-01>food>30000 = ok 1|writes 3
category-move>food>gi = ok 1|writes 2
track-sheet>2024-01 = ok 15|total-income 65000|total-budget-income 30000|total-budgeted 0|total-spent 0|total-leftover 0|total-saved 30000|real-saved 65000|sum-amount-food -35000|budget-food 30000|carryover-food 0|leftover-food 65000|sum-amount-pay 100000|budget-pay 0|carryover-pay 0|leftover-pay -100000
track-sheet>1970-01 = ok 15|total-income 0|total-budget-income 0|total-budgeted 0|total-spent 0|total-leftover 0|total-saved 0|real-saved 0|sum-amount-food 0|budget-food 0|carryover-food 0|leftover-food 0|sum-amount-pay 0|budget-pay 0|carryover-pay 0|leftover-pay 0
track-cell>2199-12>total-income = ok 1|0",
    // what may refuse the lines, in this order
    r"track-cell>2024-01 = refused E30 bad-command 2
track-cell>2024-1>foo = refused E30 bad-command 1
track-cell>2024-01>\x = refused E30 bad-command 2
track-cell>2024-01>foo>x = refused E30 bad-command 3
track-cell>2024-13>foo = refused E10 bad-month 202413
track-cell>2024-01>foo = refused E30 bad-command 2
track-cell>2024-01>to-budget = refused E30 bad-command 2
track-cell>2024-01>group-budget-g = refused E30 bad-command 2
track-cell>2024-01>total-income- = refused E30 bad-command 2
track-cell>2024-01>budget- = refused E5 no-such-category
track-cell>2024-01>leftover-none = refused E5 no-such-category none
track-cell>2024-01>budget-g = refused E5 no-such-category g
track-sheet = refused E30 bad-command 1
track-sheet>2024-01>x = refused E30 bad-command 2
track-sheet>1969-12 = refused E10 bad-month 196912",
];

#[test]
fn months_are_tracked(rt: HostRuntime) -> Result<(), Fail> {
    for table in TRACKED {
        let wrong = talk(rt.alloc(), &[HOUSE, table])?;
        assert_eq!(rt; wrong.as_str(), "");
    }
    Ok(())
}
