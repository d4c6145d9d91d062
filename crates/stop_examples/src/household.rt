//! The lines of a household's device, with its replies and its messages.

/// A household of two months, by lines: an income, one expense, and what is given in each month. A `>` is a TAB.
pub(crate) const LINES: &str = r"account-add>bank>Bank>0
group-add>gi>Income>1
category-add>pay>gi>Salary
group-add>g>Usual>0
category-add>food>g>Food
tx-add>->bank>20240102>100000>->pay>
tx-add>->bank>20240110>-35000>->food>
budget>2024-01>food>30000
budget>2024-02>food>20000
cell>2024-01>to-budget
cell>2024-02>to-budget
";

/// What the device `aa` replies.
pub(crate) const REPLIES: &str = r"ok 2
writes 4
made 2024-01-05T10:00:00.000Z-0002-00000000000000aa
ok 1
writes 2
ok 1
writes 3
ok 1
writes 2
ok 1
writes 3
ok 2
writes 6
made 2024-01-05T10:00:00.000Z-000E-00000000000000aa
ok 2
writes 6
made 2024-01-05T10:00:00.000Z-0014-00000000000000aa
ok 1
writes 3
ok 1
writes 3
ok 1
70000
ok 1
45000
";

/// The records that it keeps, in order.
pub(crate) const KEPT: &str =
    r"2024-01-05T10:00:00.000Z-0000-00000000000000aa>accounts>bank>name>S:Bank
2024-01-05T10:00:00.000Z-0001-00000000000000aa>accounts>bank>offbudget>N:0
2024-01-05T10:00:00.000Z-0002-00000000000000aa>payees>2024-01-05T10:00:00.000Z-0002-00000000000000aa>name>S:
2024-01-05T10:00:00.000Z-0003-00000000000000aa>payees>2024-01-05T10:00:00.000Z-0002-00000000000000aa>transfer_acct>S:bank
2024-01-05T10:00:00.000Z-0004-00000000000000aa>category_groups>gi>name>S:Income
2024-01-05T10:00:00.000Z-0005-00000000000000aa>category_groups>gi>is_income>N:1
2024-01-05T10:00:00.000Z-0006-00000000000000aa>categories>pay>name>S:Salary
2024-01-05T10:00:00.000Z-0007-00000000000000aa>categories>pay>cat_group>S:gi
2024-01-05T10:00:00.000Z-0008-00000000000000aa>categories>pay>is_income>N:1
2024-01-05T10:00:00.000Z-0009-00000000000000aa>category_groups>g>name>S:Usual
2024-01-05T10:00:00.000Z-000A-00000000000000aa>category_groups>g>is_income>N:0
2024-01-05T10:00:00.000Z-000B-00000000000000aa>categories>food>name>S:Food
2024-01-05T10:00:00.000Z-000C-00000000000000aa>categories>food>cat_group>S:g
2024-01-05T10:00:00.000Z-000D-00000000000000aa>categories>food>is_income>N:0
2024-01-05T10:00:00.000Z-000E-00000000000000aa>transactions>2024-01-05T10:00:00.000Z-000E-00000000000000aa>acct>S:bank
2024-01-05T10:00:00.000Z-000F-00000000000000aa>transactions>2024-01-05T10:00:00.000Z-000E-00000000000000aa>date>N:20240102
2024-01-05T10:00:00.000Z-0010-00000000000000aa>transactions>2024-01-05T10:00:00.000Z-000E-00000000000000aa>amount>N:100000
2024-01-05T10:00:00.000Z-0011-00000000000000aa>transactions>2024-01-05T10:00:00.000Z-000E-00000000000000aa>description>0:
2024-01-05T10:00:00.000Z-0012-00000000000000aa>transactions>2024-01-05T10:00:00.000Z-000E-00000000000000aa>category>S:pay
2024-01-05T10:00:00.000Z-0013-00000000000000aa>transactions>2024-01-05T10:00:00.000Z-000E-00000000000000aa>notes>0:
2024-01-05T10:00:00.000Z-0014-00000000000000aa>transactions>2024-01-05T10:00:00.000Z-0014-00000000000000aa>acct>S:bank
2024-01-05T10:00:00.000Z-0015-00000000000000aa>transactions>2024-01-05T10:00:00.000Z-0014-00000000000000aa>date>N:20240110
2024-01-05T10:00:00.000Z-0016-00000000000000aa>transactions>2024-01-05T10:00:00.000Z-0014-00000000000000aa>amount>N:-35000
2024-01-05T10:00:00.000Z-0017-00000000000000aa>transactions>2024-01-05T10:00:00.000Z-0014-00000000000000aa>description>0:
2024-01-05T10:00:00.000Z-0018-00000000000000aa>transactions>2024-01-05T10:00:00.000Z-0014-00000000000000aa>category>S:food
2024-01-05T10:00:00.000Z-0019-00000000000000aa>transactions>2024-01-05T10:00:00.000Z-0014-00000000000000aa>notes>0:
2024-01-05T10:00:00.000Z-001A-00000000000000aa>zero_budgets>202401-food>month>N:202401
2024-01-05T10:00:00.000Z-001B-00000000000000aa>zero_budgets>202401-food>category>S:food
2024-01-05T10:00:00.000Z-001C-00000000000000aa>zero_budgets>202401-food>amount>N:30000
2024-01-05T10:00:00.000Z-001D-00000000000000aa>zero_budgets>202402-food>month>N:202402
2024-01-05T10:00:00.000Z-001E-00000000000000aa>zero_budgets>202402-food>category>S:food
2024-01-05T10:00:00.000Z-001F-00000000000000aa>zero_budgets>202402-food>amount>N:20000
";

/// How many bytes the replies have, and the messages, behind no line, behind the first line, and so on.
pub(crate) const ANSWERED: [(usize, usize); 12] = [
    (0, 0),
    (66, 379),
    (80, 539),
    (94, 768),
    (108, 925),
    (122, 1154),
    (188, 1879),
    (254, 2605),
    (268, 2867),
    (282, 3129),
    (293, 3129),
    (304, 3129),
];
