//! Statements by lines: what an import makes, also where the statement comes again, and what is refused. Replies are worked out by hand
//! from the rules.
use crate::table::talk;
use std::test::Fail;

/// An account.
const BANK: &str =
    r"account-add>bank>Bank>0 = ok 2|writes 4|made 2024-01-05T10:00:00.000Z-0002-00000000000000aa";

/// Lines to that account, each table by itself.
const TABLES: [&str; 7] = [
    // a statement that comes twice: 40 records with ids and one new payee
    r#"import>bank>date,payee,amount,id\n2024-03-01,Shop,-1.00,id1\n2024-03-01,Shop,-2.00,id2\n2024-03-01,Shop,-3.00,id3\n2024-03-01,Shop,-4.00,id4\n2024-03-01,Shop,-5.00,id5\n2024-03-01,Shop,-6.00,id6\n2024-03-01,Shop,-7.00,id7\n2024-03-01,Shop,-8.00,id8\n2024-03-01,Shop,-9.00,id9\n2024-03-01,Shop,-10.00,id10\n2024-03-01,Shop,-11.00,id11\n2024-03-01,Shop,-12.00,id12\n2024-03-01,Shop,-13.00,id13\n2024-03-01,Shop,-14.00,id14\n2024-03-01,Shop,-15.00,id15\n2024-03-01,Shop,-16.00,id16\n2024-03-01,Shop,-17.00,id17\n2024-03-01,Shop,-18.00,id18\n2024-03-01,Shop,-19.00,id19\n2024-03-01,Shop,-20.00,id20\n2024-03-01,Shop,-21.00,id21\n2024-03-01,Shop,-22.00,id22\n2024-03-01,Shop,-23.00,id23\n2024-03-01,Shop,-24.00,id24\n2024-03-01,Shop,-25.00,id25\n2024-03-01,Shop,-26.00,id26\n2024-03-01,Shop,-27.00,id27\n2024-03-01,Shop,-28.00,id28\n2024-03-01,Shop,-29.00,id29\n2024-03-01,Shop,-30.00,id30\n2024-03-01,Shop,-31.00,id31\n2024-03-01,Shop,-32.00,id32\n2024-03-01,Shop,-33.00,id33\n2024-03-01,Shop,-34.00,id34\n2024-03-01,Shop,-35.00,id35\n2024-03-01,Shop,-36.00,id36\n2024-03-01,Shop,-37.00,id37\n2024-03-01,Shop,-38.00,id38\n2024-03-01,Shop,-39.00,id39\n2024-03-01,Shop,-40.00,id40\n = ok 42|writes 281|made 2024-01-05T10:00:00.000Z-0004-00000000000000aa|made 2024-01-05T10:00:00.000Z-0005-00000000000000aa|made 2024-01-05T10:00:00.000Z-000C-00000000000000aa|made 2024-01-05T10:00:00.000Z-0013-00000000000000aa|made 2024-01-05T10:00:00.000Z-001A-00000000000000aa|made 2024-01-05T10:00:00.000Z-0021-00000000000000aa|made 2024-01-05T10:00:00.000Z-0028-00000000000000aa|made 2024-01-05T10:00:00.000Z-002F-00000000000000aa|made 2024-01-05T10:00:00.000Z-0036-00000000000000aa|made 2024-01-05T10:00:00.000Z-003D-00000000000000aa|made 2024-01-05T10:00:00.000Z-0044-00000000000000aa|made 2024-01-05T10:00:00.000Z-004B-00000000000000aa|made 2024-01-05T10:00:00.000Z-0052-00000000000000aa|made 2024-01-05T10:00:00.000Z-0059-00000000000000aa|made 2024-01-05T10:00:00.000Z-0060-00000000000000aa|made 2024-01-05T10:00:00.000Z-0067-00000000000000aa|made 2024-01-05T10:00:00.000Z-006E-00000000000000aa|made 2024-01-05T10:00:00.000Z-0075-00000000000000aa|made 2024-01-05T10:00:00.000Z-007C-00000000000000aa|made 2024-01-05T10:00:00.000Z-0083-00000000000000aa|made 2024-01-05T10:00:00.000Z-008A-00000000000000aa|made 2024-01-05T10:00:00.000Z-0091-00000000000000aa|made 2024-01-05T10:00:00.000Z-0098-00000000000000aa|made 2024-01-05T10:00:00.000Z-009F-00000000000000aa|made 2024-01-05T10:00:00.000Z-00A6-00000000000000aa|made 2024-01-05T10:00:00.000Z-00AD-00000000000000aa|made 2024-01-05T10:00:00.000Z-00B4-00000000000000aa|made 2024-01-05T10:00:00.000Z-00BB-00000000000000aa|made 2024-01-05T10:00:00.000Z-00C2-00000000000000aa|made 2024-01-05T10:00:00.000Z-00C9-00000000000000aa|made 2024-01-05T10:00:00.000Z-00D0-00000000000000aa|made 2024-01-05T10:00:00.000Z-00D7-00000000000000aa|made 2024-01-05T10:00:00.000Z-00DE-00000000000000aa|made 2024-01-05T10:00:00.000Z-00E5-00000000000000aa|made 2024-01-05T10:00:00.000Z-00EC-00000000000000aa|made 2024-01-05T10:00:00.000Z-00F3-00000000000000aa|made 2024-01-05T10:00:00.000Z-00FA-00000000000000aa|made 2024-01-05T10:00:00.000Z-0101-00000000000000aa|made 2024-01-05T10:00:00.000Z-0108-00000000000000aa|made 2024-01-05T10:00:00.000Z-010F-00000000000000aa|made 2024-01-05T10:00:00.000Z-0116-00000000000000aa
import>bank>date,payee,amount,id\n2024-03-01,Shop,-1.00,id1\n2024-03-01,Shop,-2.00,id2\n2024-03-01,Shop,-3.00,id3\n2024-03-01,Shop,-4.00,id4\n2024-03-01,Shop,-5.00,id5\n2024-03-01,Shop,-6.00,id6\n2024-03-01,Shop,-7.00,id7\n2024-03-01,Shop,-8.00,id8\n2024-03-01,Shop,-9.00,id9\n2024-03-01,Shop,-10.00,id10\n2024-03-01,Shop,-11.00,id11\n2024-03-01,Shop,-12.00,id12\n2024-03-01,Shop,-13.00,id13\n2024-03-01,Shop,-14.00,id14\n2024-03-01,Shop,-15.00,id15\n2024-03-01,Shop,-16.00,id16\n2024-03-01,Shop,-17.00,id17\n2024-03-01,Shop,-18.00,id18\n2024-03-01,Shop,-19.00,id19\n2024-03-01,Shop,-20.00,id20\n2024-03-01,Shop,-21.00,id21\n2024-03-01,Shop,-22.00,id22\n2024-03-01,Shop,-23.00,id23\n2024-03-01,Shop,-24.00,id24\n2024-03-01,Shop,-25.00,id25\n2024-03-01,Shop,-26.00,id26\n2024-03-01,Shop,-27.00,id27\n2024-03-01,Shop,-28.00,id28\n2024-03-01,Shop,-29.00,id29\n2024-03-01,Shop,-30.00,id30\n2024-03-01,Shop,-31.00,id31\n2024-03-01,Shop,-32.00,id32\n2024-03-01,Shop,-33.00,id33\n2024-03-01,Shop,-34.00,id34\n2024-03-01,Shop,-35.00,id35\n2024-03-01,Shop,-36.00,id36\n2024-03-01,Shop,-37.00,id37\n2024-03-01,Shop,-38.00,id38\n2024-03-01,Shop,-39.00,id39\n2024-03-01,Shop,-40.00,id40\n = ok 1|writes 0
value>payees>2024-01-05T10:00:00.000Z-0004-00000000000000aa>name = ok 1|S:Shop
balance>bank = ok 1|-82000
undo = ok 1|writes 41
balance>bank = ok 1|0"#,
    // equal records without ids make as many rows as there are, and no more when they come again
    r#"import>bank>date,payee,amount\n2024-03-01,Shop,-5\n2024-03-01,Shop,-5\n = ok 4|writes 13|made 2024-01-05T10:00:00.000Z-0004-00000000000000aa|made 2024-01-05T10:00:00.000Z-0005-00000000000000aa|made 2024-01-05T10:00:00.000Z-000B-00000000000000aa
import>bank>date,payee,amount\n2024-03-01,Shop,-5\n2024-03-01,Shop,-5\n = ok 1|writes 0
import>bank>date,payee,amount\n2024-03-01,Shop,-5\n2024-03-01,Shop,-5\n2024-03-01,Shop,-5\n = ok 2|writes 6|made 2024-01-05T10:00:00.000Z-0011-00000000000000aa
import>bank>date,payee,amount\n2024-03-01,Shop,-5\n2024-03-01,Shop,-5\n2024-03-01,Shop,-5\n = ok 1|writes 0"#,
    // a row that a person wrote gets the id of the statement, and is found by it
    r#"tx-add>t>bank>20240303>-500>->-> = ok 1|writes 6
import>bank>date,amount,id\n2024-03-01,-5.00,x1\n = ok 1|writes 2
value>transactions>t>financial_id = ok 1|S:x1
value>transactions>t>cleared = ok 1|N:1
import>bank>date,amount,id\n2024-03-01,-5.00,x1\n = ok 1|writes 0
import>bank>date,amount,id\n2024-05-01,-7.00,x1\n = ok 1|writes 0
import>bank>date,id\n = refused E23 bad-statement 0 2
import>bank>date,amount\n2024-03-01,1.234\n = refused E23 bad-statement 1 1"#,
    // what a statement is: records are counted from the header on, and fields from 0
    r#"import>cash>date,amount = refused E3 no-such-account cash
import>bank> = refused E23 bad-statement 0 0
import>bank>\n = refused E23 bad-statement 0 0
import>bank>date,amount = ok 1|writes 0
import>bank>Date,amount = refused E23 bad-statement 0 2
import>bank>date,id = refused E23 bad-statement 0 2
import>bank>date,amount\n\n2024-01-01,1\n\n2024-01-01 = refused E23 bad-statement 2 1
import>bank>date,amount\n 2024-01-01,1 = refused E23 bad-statement 1 0
import>bank>date,amount\n2024-01-01,1. = refused E23 bad-statement 1 1
import>bank>date,amount\n2024-01-01,1.234 = refused E23 bad-statement 1 1
import>bank>date,amount\n2024-01-01,12345678901234 = refused E23 bad-statement 1 1
import>bank>date,amount\n2024-01-01, = refused E23 bad-statement 1 1
import>bank>amount,date\nx,y = refused E23 bad-statement 1 0
import>bank>date,amount\n2024-02-30,1 = refused E23 bad-statement 1 0
import>bank>date,amount,date\n2024-01-01,1,x = ok 2|writes 4|made 2024-01-05T10:00:00.000Z-0004-00000000000000aa
import>bank>date,amount\n2024-01-02,007.5\n = ok 2|writes 4|made 2024-01-05T10:00:00.000Z-0008-00000000000000aa
value>transactions>2024-01-05T10:00:00.000Z-0008-00000000000000aa>amount = ok 1|N:750
import>bank>date,amount\n2024-01-03,-0\n = ok 2|writes 4|made 2024-01-05T10:00:00.000Z-000C-00000000000000aa
value>transactions>2024-01-05T10:00:00.000Z-000C-00000000000000aa>amount = ok 1|N:0
import>bank>﻿date,amount,notes\n2024-01-04,-3,"a, ""b""" = ok 2|writes 5|made 2024-01-05T10:00:00.000Z-0010-00000000000000aa
value>transactions>2024-01-05T10:00:00.000Z-0010-00000000000000aa>notes = ok 1|S:a, "b"
import = refused E30 bad-command 1
import>bank = refused E30 bad-command 2
import>bank>date,amount>x = refused E30 bad-command 3"#,
    // lines that end with CR and LF, or with CR alone; a CR in a field in quotes stays
    "import>bank>date,amount,notes\r\\n2024-01-05,-3,\"a\r\\nb\"\r\\n\r\\n2024-01-06,4,c\r\\n = ok 3|writes 10|made 2024-01-05T10:00:00.000Z-0004-00000000000000aa|made 2024-01-05T10:00:00.000Z-0009-00000000000000aa
value>transactions>2024-01-05T10:00:00.000Z-0004-00000000000000aa>notes = ok 1|S:a\r\\nb
import>bank>date,amount\r\\n\r\\n2024-01-01,1\r\\n\r\\n2024-01-01\r\\n = refused E23 bad-statement 2 1
import>bank>\u{feff}\"date\",\"amount\",\"notes\"\r\\n2024-01-07,\"5\",\"x, \"\"y\"\"\" = ok 2|writes 5|made 2024-01-05T10:00:00.000Z-000E-00000000000000aa
value>transactions>2024-01-05T10:00:00.000Z-000E-00000000000000aa>notes = ok 1|S:x, \"y\"
import>bank>date,amount\r2024-01-08,6\r = ok 2|writes 4|made 2024-01-05T10:00:00.000Z-0013-00000000000000aa
import>bank>date,amount\\n2024-01-08,6\\n = ok 1|writes 0",
    // pass by pass over all records, and in a pass the nearest day and then the least id
    r#"tx-add>t1>bank>20240303>-500>->-> = ok 1|writes 6
set>transactions>t1>financial_id>S:x1 = ok 1|writes 1
import>bank>date,amount,id\n2024-03-01,-5.00,\n2024-03-09,-7.00,x1\n = ok 2|writes 5|made 2024-01-05T10:00:00.000Z-000B-00000000000000aa
value>transactions>t1>cleared = ok 1|N:1
tx-add>u3>bank>20240403>-900>->-> = ok 1|writes 6
tx-add>u2>bank>20240402>-900>->-> = ok 1|writes 6
tx-add>u4>bank>20240402>-900>->-> = ok 1|writes 6
set>transactions>u2>reconciled>N:1 = ok 1|writes 1
import>bank>date,amount,id\n2024-04-01,-9,y1\n = ok 1|writes 2
value>transactions>u2>financial_id = ok 1|S:y1
import>bank>date,amount,id\n2024-04-10,-9,y2\n = ok 1|writes 2
value>transactions>u3>financial_id = ok 1|S:y2
import>bank>date,amount,id\n2024-04-10,-9,y3\n = ok 2|writes 5|made 2024-01-05T10:00:00.000Z-0027-00000000000000aa"#,
    // rules run before, and see the payees that were there; what a transaction has stays
    r#"group-add>g>Usual>0 = ok 1|writes 2
category-add>food>g>Food = ok 1|writes 3
payee-add>p>shop = ok 1|writes 1
rule-add>r>none>and>[{"field":"imported_description","op":"contains","value":"shop"}]>[{"op":"set","field":"category","value":"food"},{"op":"set","field":"notes","value":"by rule"}] = ok 1|writes 4
import>bank>date,payee,amount,notes\n2024-03-01,SHOP,-5,\n = ok 2|writes 8|made 2024-01-05T10:00:00.000Z-000E-00000000000000aa
value>transactions>2024-01-05T10:00:00.000Z-000E-00000000000000aa>description = ok 1|S:p
value>transactions>2024-01-05T10:00:00.000Z-000E-00000000000000aa>category = ok 1|S:food
value>transactions>2024-01-05T10:00:00.000Z-000E-00000000000000aa>notes = ok 1|S:by rule
value>transactions>2024-01-05T10:00:00.000Z-000E-00000000000000aa>imported_description = ok 1|S:SHOP
tx-add>t>bank>20240401>-700>p>->mine = ok 1|writes 6
import>bank>date,payee,amount\n2024-04-02,Shop,-7\n = ok 1|writes 3
value>transactions>t>notes = ok 1|S:mine
value>transactions>t>category = ok 1|S:food
import>bank>date,payee,amount\n2024-05-01,Baker,-1\n2024-05-01,BAKER,-2\n = ok 4|writes 13|made 2024-01-05T10:00:00.000Z-001F-00000000000000aa|made 2024-01-05T10:00:00.000Z-0020-00000000000000aa|made 2024-01-05T10:00:00.000Z-0026-00000000000000aa
value>payees>2024-01-05T10:00:00.000Z-001F-00000000000000aa>name = ok 1|S:Baker"#,
];

#[test]
fn statements(rt: HostRuntime) -> Result<(), Fail> {
    for table in TABLES {
        let wrong = talk(rt.alloc(), &[BANK, table])?;
        assert_eq!(rt; wrong.as_str(), "");
    }
    Ok(())
}
