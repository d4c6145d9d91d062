//! Templates in the notes of categories, by lines: what they get of a month, and which of their lines are none. Replies were worked out
//! by a program in another language from the rules, and looked over by hand.
use crate::table::talk;
use std::test::Fail;

/// An account, an income of January, and three expenses.
const HOUSE: &str =
    r"account-add>bank>Bank>0 = ok 2|writes 4|made 2024-01-05T10:00:00.000Z-0002-00000000000000aa
group-add>gi>Income>1 = ok 1|writes 2
category-add>pay>gi>Salary = ok 1|writes 3
group-add>g>Usual>0 = ok 1|writes 2
category-add>food>g>Food = ok 1|writes 3
category-add>fun>g>Fun = ok 1|writes 3
category-add>rent>g>Rent = ok 1|writes 3
tx-add>t1>bank>20240102>100000>->pay> = ok 1|writes 6";

/// Lines to it, each table by itself.
const FILLED: [&str; 12] = [
    // three priorities share out a month, and a bad line is told; a second time there is nothing to write
    r"note>food>#template 600\n#template schedule Rent = ok 1|writes 1
note>fun>#template-2 300 = ok 1|writes 1
note>rent>#template-1 up to 250 = ok 1|writes 1
goals>2024-01 = ok 4|food>#template 600>60000>60000|rent>#template-1 up to 250>25000>25000|fun>#template-2 300>30000>15000|bad food 2
goals-apply>2024-01 = ok 1|writes 9
cell>2024-01>budget-food = ok 1|60000
cell>2024-01>budget-rent = ok 1|25000
cell>2024-01>budget-fun = ok 1|15000
cell>2024-01>to-budget = ok 1|0
goals>2024-01 = ok 4|food>#template 600>60000>60000|rent>#template-1 up to 250>25000>25000|fun>#template-2 300>30000>15000|bad food 2
goals-apply>2024-01 = ok 1|writes 0
undo = ok 1|writes 9
cell>2024-01>budget-food = ok 1|0
cell>2024-01>to-budget = ok 1|100000
redo = ok 1|writes 9
cell>2024-01>budget-food = ok 1|60000
cell>2024-01>to-budget = ok 1|0
undo = ok 1|writes 9
goals-apply>2024-01 = ok 1|writes 3
cell>2024-01>budget-fun = ok 1|15000
note>food>#template 1200 by 2024-06 = ok 1|writes 1
goals>2024-01 = ok 3|food>#template 1200 by 2024-06>20000>20000|rent>#template-1 up to 250>25000>25000|fun>#template-2 300>30000>30000
goals-apply>2024-01 = ok 1|writes 2
cell>2024-01>to-budget = ok 1|25000",
    // the words behind the name, priorities and amounts: what is read, as it is written back, and which lines are bad
    r"note>food>#template-0 5\n#template-1 5\n#template-99 5\n#template-100 5\n#template-01 5\n#template- 5\n#template-1\n#template\n#template5\n#templatex\n#template  5\n#template 5 \n #template 5\n#Template 5\n = ok 1|writes 1
goals>2024-01 = ok 12|food>#template 5>500>500|food>#template-1 5>500>500|food>#template-99 5>500>500|bad food 4|bad food 5|bad food 6|bad food 7|bad food 8|bad food 9|bad food 10|bad food 11|bad food 12
note>food>#template 0\n#template 1234567890123\n#template 0000000000001\n#template 12345678901234\n#template 5.5\n#template 5.05\n#template 5.50\n#template 5.00\n#template 0.01\n#template 5.\n#template .5\n#template 5.123\n#template -5\n#template +5\n#template 5,5\n#template 1e2 = ok 1|writes 1
goals>2024-01 = ok 16|food>#template 0>0>0|food>#template 1234567890123>123456789012300>123456789012300|food>#template 1>100>100|food>#template 5.50>550>550|food>#template 5.05>505>505|food>#template 5.50>550>550|food>#template 5>500>500|food>#template 0.01>1>1|bad food 4|bad food 10|bad food 11|bad food 12|bad food 13|bad food 14|bad food 15|bad food 16
note>food>#template up to 7\n#template up to\n#template up to  7\n#template 5 up to 7.25\n#template 5 up to\n#template 5 up  to 7\n#template Up to 7 = ok 1|writes 1
goals>2024-01 = ok 7|food>#template up to 7>700>700|food>#template 5 up to 7.25>25>25|bad food 2|bad food 3|bad food 5|bad food 6|bad food 7",
    // months: of a part, of an average, and of what is copied
    r"note>food>#template 21.13 by 2199-12\n#template 12 by 2024-01\n#template 12 by 2023-12\n#template 12 by 1970-01\n#template 12 by 2199-12\n#template 12 by 2200-01\n#template 12 by 1969-12\n#template 12 by 2024-13\n#template 12 by 2024-00\n#template 12 by 2024-1\n#template 12 by 202401 = ok 1|writes 1
goals>2024-01 = ok 11|food>#template 21.13 by 2199-12>2>2|food>#template 12 by 2024-01>1198>1198|food>#template 12 by 2023-12>0>0|food>#template 12 by 1970-01>0>0|food>#template 12 by 2199-12>0>0|bad food 6|bad food 7|bad food 8|bad food 9|bad food 10|bad food 11
note>food>#template average 1 months\n#template average 2 months\n#template average 120 months\n#template average 0 months\n#template average 121 months\n#template average 01 months\n#template average 1 month\n#template average months\n#template copy from 1 months ago\n#template copy from 120 months ago\n#template copy from 0 months ago\n#template copy from 121 months ago\n#template copy from 1 month ago\n#template copy from 1 months = ok 1|writes 1
goals>2024-01 = ok 14|food>#template average 1 months>0>0|food>#template average 2 months>0>0|food>#template average 120 months>0>0|food>#template copy from 1 months ago>0>0|food>#template copy from 120 months ago>0>0|bad food 4|bad food 5|bad food 6|bad food 7|bad food 8|bad food 11|bad food 12|bad food 13|bad food 14
tx-add>t2>bank>20231205>-501>->food> = ok 1|writes 6
tx-add>t3>bank>20140115>-12000>->food> = ok 1|writes 6
tx-add>t4>bank>20131231>-999900>->food> = ok 1|writes 6
budget>2023-12>food>4321 = ok 1|writes 3
budget>2014-01>food>777 = ok 1|writes 3
budget>2013-12>food>555 = ok 1|writes 3
goals>2024-01 = ok 14|food>#template average 1 months>501>501|food>#template average 2 months>250>250|food>#template average 120 months>104>104|food>#template copy from 1 months ago>4321>4321|food>#template copy from 120 months ago>777>777|bad food 4|bad food 5|bad food 6|bad food 7|bad food 8|bad food 11|bad food 12|bad food 13|bad food 14
goals>2023-12 = ok 14|food>#template average 1 months>0>0|food>#template average 2 months>0>0|food>#template average 120 months>8432>8432|food>#template copy from 1 months ago>0>0|food>#template copy from 120 months ago>555>555|bad food 4|bad food 5|bad food 6|bad food 7|bad food 8|bad food 11|bad food 12|bad food 13|bad food 14
budget>2023-12>food>-5 = ok 1|writes 1
tx-add>t5>bank>20231206>1000>->food> = ok 1|writes 6
goals>2024-01 = ok 14|food>#template average 1 months>0>0|food>#template average 2 months>0>0|food>#template average 120 months>95>95|food>#template copy from 1 months ago>0>0|food>#template copy from 120 months ago>777>777|bad food 4|bad food 5|bad food 6|bad food 7|bad food 8|bad food 11|bad food 12|bad food 13|bad food 14",
    // a template fills up what the month before leaves, and what earlier ones gave; what is overspent counts where it stays in the category
    r"budget>2023-12>food>4000 = ok 1|writes 3
tx-add>t2>bank>20231205>-1000>->food> = ok 1|writes 6
tx-add>t3>bank>20231205>-2500>->fun> = ok 1|writes 6
note>food>#template up to 50 = ok 1|writes 1
note>fun>#template up to 50 = ok 1|writes 1
note>rent>#template 30\n#template up to 50\n#template 30 up to 70\n#template 30 up to 70 = ok 1|writes 1
goals>2024-01 = ok 6|food>#template up to 50>2000>2000|fun>#template up to 50>5000>5000|rent>#template 30>3000>3000|rent>#template up to 50>2000>2000|rent>#template 30 up to 70>2000>2000|rent>#template 30 up to 70>0>0
carryover>2023-12>fun>1 = ok 1|writes 3
goals>2024-01 = ok 6|food>#template up to 50>2000>2000|fun>#template up to 50>7500>7500|rent>#template 30>3000>3000|rent>#template up to 50>2000>2000|rent>#template 30 up to 70>2000>2000|rent>#template 30 up to 70>0>0
note>food>#template 100 by 2024-03 = ok 1|writes 1
note>fun>#template 100 by 2024-03 = ok 1|writes 1
note>rent>#template 100\n#template 100.01 by 2024-02\n#template 100 by 2024-02 = ok 1|writes 1
goals>2024-01 = ok 5|food>#template 100 by 2024-03>2334>2334|fun>#template 100 by 2024-03>4167>4167|rent>#template 100>10000>10000|rent>#template 100.01 by 2024-02>1>1|rent>#template 100 by 2024-02>0>0
goals-apply>2024-01 = ok 1|writes 9
goals>2024-02 = ok 5|food>#template 100 by 2024-03>2333>2333|fun>#template 100 by 2024-03>4167>4167|rent>#template 100>10000>10000|rent>#template 100.01 by 2024-02>0>0|rent>#template 100 by 2024-02>0>0
goals-apply>2024-02 = ok 1|writes 9
cell>2024-02>leftover-fun = ok 1|5834
goals>2024-03 = ok 5|food>#template 100 by 2024-03>2333>2333|fun>#template 100 by 2024-03>4166>4166|rent>#template 100>10000>10000|rent>#template 100.01 by 2024-02>0>0|rent>#template 100 by 2024-02>0>0
goals-apply>2024-03 = ok 1|writes 9
cell>2024-03>leftover-food = ok 1|10000
cell>2024-03>leftover-fun = ok 1|10000
goals>2024-04 = ok 5|food>#template 100 by 2024-03>0>0|fun>#template 100 by 2024-03>0>0|rent>#template 100>10000>10000|rent>#template 100.01 by 2024-02>0>0|rent>#template 100 by 2024-02>0>0",
    // two templates of a category by priority; what is given is what is left, to the cent, and what was there before is shared out anew
    r"note>food>#template-2 400\n#template 100\n#template-1 300.50 = ok 1|writes 1
note>fun>#template-1 300.50 = ok 1|writes 1
note>rent>#template-99 1 = ok 1|writes 1
budget>2024-01>food>90000 = ok 1|writes 3
goals>2024-01 = ok 5|food>#template 100>10000>10000|food>#template-1 300.50>30050>30050|fun>#template-1 300.50>30050>30050|food>#template-2 400>40000>29900|rent>#template-99 1>100>0
goals-apply>2024-01 = ok 1|writes 4
cell>2024-01>budget-food = ok 1|69950
cell>2024-01>budget-fun = ok 1|30050
cell>2024-01>budget-rent = ok 1|0
cell>2024-01>to-budget = ok 1|0
hold>2024-01>90000 = ok 1|writes 1
goals>2024-01 = ok 5|food>#template 100>10000>10000|food>#template-1 300.50>30050>0|fun>#template-1 300.50>30050>0|food>#template-2 400>40000>0|rent>#template-99 1>100>0
goals-apply>2024-01 = ok 1|writes 2
cell>2024-01>budget-food = ok 1|10000
cell>2024-01>budget-fun = ok 1|0
cell>2024-01>to-budget = ok 1|0
goals-apply>2024-01 = ok 1|writes 0
undo = ok 1|writes 2
cell>2024-01>budget-fun = ok 1|30050",
    // where there is less than nothing, the first priority is given all the same, and no other one
    r"tx-add>t2>bank>20240103>-150000>->fun> = ok 1|writes 6
tx-add>t3>bank>20231203>-150000>->fun> = ok 1|writes 6
note>food>#template 600 = ok 1|writes 1
note>rent>#template-1 up to 250\n#template-2 average 120 months = ok 1|writes 1
goals>2024-01 = ok 3|food>#template 600>60000>60000|rent>#template-1 up to 250>25000>0|rent>#template-2 average 120 months>0>0
goals-apply>2024-01 = ok 1|writes 3
cell>2024-01>budget-food = ok 1|60000
cell>2024-01>to-budget = ok 1|-110000
goals-apply>2024-01 = ok 1|writes 0
note>food>#template-1 600 = ok 1|writes 1
goals-apply>2024-01 = ok 1|writes 1
cell>2024-01>budget-food = ok 1|0
cell>2024-01>to-budget = ok 1|-50000",
    // a category with bad lines alone keeps its budget, and so does one without a note; one whose templates want nothing loses it
    r"budget>2024-01>food>700 = ok 1|writes 3
budget>2024-01>fun>800 = ok 1|writes 3
budget>2024-01>rent>900 = ok 1|writes 3
note>food>#template five\nfor bread = ok 1|writes 1
note>rent>#template 0 = ok 1|writes 1
goals>2024-01 = ok 2|rent>#template 0>0>0|bad food 1
goals-apply>2024-01 = ok 1|writes 1
cell>2024-01>budget-food = ok 1|700
cell>2024-01>budget-fun = ok 1|800
cell>2024-01>budget-rent = ok 1|0
cell>2024-01>to-budget = ok 1|98500
note>fun>#template-1 9999999999999.99 = ok 1|writes 1
goals-apply>2024-01 = ok 1|writes 1
cell>2024-01>budget-fun = ok 1|99300
cell>2024-01>budget-food = ok 1|700
cell>2024-01>to-budget = ok 1|0",
    // the first and the last month of all, and months without a sheet before them
    r"note>food>#template up to 5\n#template average 120 months\n#template copy from 120 months ago\n#template copy from 1 months ago\n#template 5 by 1970-01\n#template 5 by 1970-02\n#template-1 5 = ok 1|writes 1
goals>1970-01 = ok 7|food>#template up to 5>500>500|food>#template average 120 months>0>0|food>#template copy from 120 months ago>0>0|food>#template copy from 1 months ago>0>0|food>#template 5 by 1970-01>0>0|food>#template 5 by 1970-02>0>0|food>#template-1 5>500>0
goals-apply>1970-01 = ok 1|writes 3
cell>1970-01>to-budget = ok 1|-500
goals>1970-02 = ok 7|food>#template up to 5>0>0|food>#template average 120 months>0>0|food>#template copy from 120 months ago>0>0|food>#template copy from 1 months ago>500>500|food>#template 5 by 1970-01>0>0|food>#template 5 by 1970-02>0>0|food>#template-1 5>500>0
goals-apply>1970-02 = ok 1|writes 3
cell>1970-02>to-budget = ok 1|-1000
goals>1970-03 = ok 7|food>#template up to 5>0>0|food>#template average 120 months>0>0|food>#template copy from 120 months ago>0>0|food>#template copy from 1 months ago>500>500|food>#template 5 by 1970-01>0>0|food>#template 5 by 1970-02>0>0|food>#template-1 5>500>0
note>food>#template up to 5\n#template average 120 months\n#template copy from 1 months ago\n#template 5 by 2199-12\n#template-1 1000000 = ok 1|writes 1
goals>2199-12 = ok 5|food>#template up to 5>0>0|food>#template average 120 months>0>0|food>#template copy from 1 months ago>0>0|food>#template 5 by 2199-12>0>0|food>#template-1 1000000>100000000>99000
goals-apply>2199-12 = ok 1|writes 3
cell>2199-12>to-budget = ok 1|0",
    // lines that are none, and months that are none
    r"goals = refused E30 bad-command 1
goals>2024-1 = refused E30 bad-command 1
goals>\x = refused E30 bad-command 1
goals>2024-01>x = refused E30 bad-command 2
goals>2024-13 = refused E10 bad-month 202413
goals>1969-12 = refused E10 bad-month 196912
goals>2200-01 = refused E10 bad-month 220001
goals-apply = refused E30 bad-command 1
goals-apply>202401 = refused E30 bad-command 1
goals-apply>2024-01>x = refused E30 bad-command 2
goals-apply>2024-00 = refused E10 bad-month 202400
goals-apply>1969-12 = refused E10 bad-month 196912
goals-apply>2200-01 = refused E10 bad-month 220001
goals>2024-01 = ok 0
goals-apply>2024-01 = ok 1|writes 0
goals-apply>2199-12 = ok 1|writes 0",
    // amounts that no value holds are refused first, in the order of the sheet, and then ids that name no row
    r"set>categories>***xxxxxxxxxxxxxxxxxxxxxxxxxxxxxxxxxxxxxxxxxxxxxxxxxxxxxxxxx>cat_group>S:g = ok 1|writes 1
note>fun>#template 9999999999999.99\n#template 9999999999999.99\n#template 9999999999999.99\n#template 9999999999999.99\n#template 9999999999999.99\n#template 9999999999999.99\n#template 9999999999999.99\n#template 9999999999999.99\n#template 9999999999999.99\n#template 9999999999999.99 = ok 1|writes 1
note>rent>#template 9999999999999.99\n#template 9999999999999.99\n#template 9999999999999.99\n#template 9999999999999.99\n#template 9999999999999.99\n#template 9999999999999.99\n#template 9999999999999.99\n#template 9999999999999.99\n#template 9999999999999.99\n#template 9999999999999.99\n#template 1 = ok 1|writes 1
note>***xxxxxxxxxxxxxxxxxxxxxxxxxxxxxxxxxxxxxxxxxxxxxxxxxxxxxxxxx>#template 5 = ok 1|writes 1
goals-apply>2024-01 = refused E9 bad-amount 9999999999999990
note>fun>#template 7 = ok 1|writes 1
goals-apply>2024-01 = refused E9 bad-amount 10000000000000090
note>rent>#template 8 = ok 1|writes 1
goals-apply>2024-01 = refused E1 bad-id 202401-***xxxxxxxxxxxxxxxxxxxxxxxxxxxxxxxxxxxxxxxxxxxxxxxxxxxxxxxxx
cell>2024-01>budget-fun = ok 1|0
note>***xxxxxxxxxxxxxxxxxxxxxxxxxxxxxxxxxxxxxxxxxxxxxxxxxxxxxxxxx>#template 0 = ok 1|writes 1
goals-apply>2024-01 = ok 1|writes 6
cell>2024-01>budget-fun = ok 1|700
cell>2024-01>budget-rent = ok 1|800",
    // a carriage return is part of its line, so it makes a template bad
    "note>food>#template 5\r\\n#template 6\r\\n#template 7 = ok 1|writes 1
goals>2024-01 = ok 3|food>#template 7>700>700|bad food 1|bad food 2",
    // an income and what is deleted ask for nothing, and a category that is handed on hands no template on
    r"note>pay>#template 5\n#template bad = ok 1|writes 1
note>fun>#template 6\n#template bad = ok 1|writes 1
note>rent>#template-1 up to 9 = ok 1|writes 1
goals>2024-01 = ok 3|fun>#template 6>600>600|rent>#template-1 up to 9>900>900|bad fun 2
category-delete>fun = ok 1|writes 1
goals>2024-01 = ok 1|rent>#template-1 up to 9>900>900
undo = ok 1|writes 1
category-delete>fun>food = ok 1|writes 2
goals>2024-01 = ok 1|rent>#template-1 up to 9>900>900
goals-apply>2024-01 = ok 1|writes 3
category-add>loan>gi>Loan = ok 1|writes 3
category-move>rent>gi = ok 1|writes 2
goals>2024-01 = ok 0
goals-apply>2024-01 = ok 1|writes 0
category-move>pay>g = ok 1|writes 2
goals>2024-01 = ok 2|pay>#template 5>500>500|bad pay 2
goals-apply>2024-01 = ok 1|writes 3
cell>2024-01>leftover-pay = ok 1|100500
cell>2024-01>to-budget = ok 1|-500",
];

#[test]
fn months_are_filled(rt: HostRuntime) -> Result<(), Fail> {
    for table in FILLED {
        let wrong = talk(rt.alloc(), &[HOUSE, table])?;
        assert_eq!(rt; wrong.as_str(), "");
    }
    Ok(())
}
