//! Rules by lines: what they make of transactions, and what is refused. Replies are worked out by hand from the rules.
use crate::table::talk;
use std::test::Fail;

/// An account, three categories, and a transaction that a statement calls `Shop`.
const SHOP: &str =
    r"account-add>bank>Bank>0 = ok 2|writes 4|made 2024-01-05T10:00:00.000Z-0002-00000000000000aa
group-add>g>Usual>0 = ok 1|writes 2
category-add>food>g>Food = ok 1|writes 3
category-add>fun>g>Fun = ok 1|writes 3
category-add>gift>g>Gifts = ok 1|writes 3
tx-add>t>bank>20240102>-1000>->-> = ok 1|writes 6
set>transactions>t>imported_description>S:Shop = ok 1|writes 1";

/// Lines to that household, each table by itself.
const TABLES: [&str; 8] = [
    // by stage, by score and by id, whichever was added first
    r#"rule-add>c>post>and>[{"field":"imported_description","op":"contains","value":"shop"}]>[{"op":"set","field":"category","value":"gift"}] = ok 1|writes 4
rule-add>b>none>and>[{"field":"imported_description","op":"is","value":"SHOP"}]>[{"op":"set","field":"category","value":"fun"}] = ok 1|writes 4
rule-add>a>none>and>[{"field":"imported_description","op":"contains","value":"shop"}]>[{"op":"set","field":"category","value":"food"}] = ok 1|writes 4
rules-run>t = ok 1|writes 1
value>transactions>t>category = ok 1|S:gift
rule-delete>c = ok 1|writes 1
rules-run>t = ok 1|writes 1
value>transactions>t>category = ok 1|S:fun
rules-run>t>t = ok 1|writes 0
undo = ok 1|writes 1
value>transactions>t>category = ok 1|S:gift
rule-delete>b = ok 1|writes 1
rule-add>aa>none>and>[{"field":"imported_description","op":"contains","value":"SHOP"}]>[{"op":"set","field":"category","value":"fun"}] = ok 1|writes 4
rules-run>t = ok 1|writes 1
value>transactions>t>category = ok 1|S:fun
rule-add>z>pre>and>[{"field":"imported_description","op":"contains","value":"shop"}]>[{"op":"set","field":"category","value":"gift"}] = ok 1|writes 4
rules-run>t = ok 1|writes 0"#,
    // what is near an amount, both ends of it and no more
    r#"rule-add>near>none>and>[{"field":"amount","op":"isapprox","value":100}]>[{"op":"set","field":"notes","value":"near"}] = ok 1|writes 4
tx-add>t91>bank>20240102>91>->-> = ok 1|writes 6
tx-add>t92>bank>20240102>92>->-> = ok 1|writes 6
tx-add>t108>bank>20240102>108>->-> = ok 1|writes 6
tx-add>t109>bank>20240102>109>->-> = ok 1|writes 6
rules-run>t91>t92>t108>t109 = ok 1|writes 2
value>transactions>t91>notes = ok 1|0:
value>transactions>t92>notes = ok 1|S:near
value>transactions>t108>notes = ok 1|S:near
value>transactions>t109>notes = ok 1|0:"#,
    // a rule without conditions changes nothing, nor does one of which a text can't be read
    r#"rule-add>all>none>and>[]>[{"op":"set","field":"notes","value":"x"}] = ok 1|writes 4
rule-add>one>none>or>[]>[{"op":"set","field":"notes","value":"x"}] = ok 1|writes 4
set>rules>null>actions>S:[{"op":"set","field":"notes","value":"x"}] = ok 1|writes 1
set>rules>bad>actions>S:[{"op":"set","field":"notes","value":"x"}] = ok 1|writes 1
set>rules>bad>conditions>S:x = ok 1|writes 1
set>rules>act>conditions>S:[{"field":"amount","op":"lt","value":0}] = ok 1|writes 1
set>rules>act>actions>S:[{"op":"set","field":"notes","value":"x"},{"op":"shout"}] = ok 1|writes 1
rules-run>t = ok 1|writes 0
set>rules>act>actions>S:[{"op":"set","field":"notes","value":"x"}] = ok 1|writes 1
rules-run>t = ok 1|writes 1
value>transactions>t>notes = ok 1|S:x"#,
    // the columns in their order, each transaction once; a category that isn't live changes nothing
    r#"payee-add>p>Shop = ok 1|writes 1
tx-set>t>notes>a note = ok 1|writes 1
rule-add>->none>or>[{"field":"amount","op":"lt","value":0},{"field":"cleared","op":"is","value":true}]>[{"op":"set","field":"cleared","value":true},{"op":"link-schedule","value":"s"},{"op":"append-notes","value":"!"},{"op":"prepend-notes","value":"? "},{"op":"set","field":"category","value":"food"},{"op":"set","field":"category","value":"none"},{"field":"description","value":"p"}] = ok 2|writes 4|made 2024-01-05T10:00:00.000Z-0018-00000000000000aa
rules-run>t>t = ok 1|writes 5
messages>2024-01-05T10:00:00.000Z-001B-00000000000000aa = ok 5|2024-01-05T10:00:00.000Z-001C-00000000000000aa>transactions>t>description>S:p|2024-01-05T10:00:00.000Z-001D-00000000000000aa>transactions>t>category>S:food|2024-01-05T10:00:00.000Z-001E-00000000000000aa>transactions>t>notes>S:? a note!|2024-01-05T10:00:00.000Z-001F-00000000000000aa>transactions>t>schedule>S:s|2024-01-05T10:00:00.000Z-0020-00000000000000aa>transactions>t>cleared>N:1
undo = ok 1|writes 5
value>transactions>t>notes = ok 1|S:a note
value>transactions>t>cleared = ok 1|N:0
value>transactions>t>schedule = ok 1|0:"#,
    // a transaction that is split gets no category, and its parts do
    r#"split>t>-1000>fun = ok 2|writes 9|made 2024-01-05T10:00:00.000Z-0018-00000000000000aa
rule-add>r>none>and>[{"field":"category","op":"isNot","value":"food"}]>[{"op":"set","field":"category","value":"food"}] = ok 1|writes 4
rules-run>t>2024-01-05T10:00:00.000Z-0018-00000000000000aa = ok 1|writes 1
value>transactions>2024-01-05T10:00:00.000Z-0018-00000000000000aa>category = ok 1|S:food"#,
    // words that are not of their form
    r#"rule-add = refused E30 bad-command 1
rule-add>r>early>and>[]>[] = refused E30 bad-command 2
rule-add>r>pre>both>[]>[] = refused E30 bad-command 3
rule-add>r>pre>and>[] = refused E30 bad-command 5
rule-add>r>pre>and>[]>\x = refused E30 bad-command 5
rule-add>r>pre>and>[]>[]>x = refused E30 bad-command 6
rule-delete = refused E30 bad-command 1
rule-delete>r>x = refused E30 bad-command 2
rules-run = refused E30 bad-command 1
rules-run>t>\x = refused E30 bad-command 2"#,
    // what refuses a new rule, in this order
    r#"rule-add>>none>and>x>x = refused E1 bad-id
rule-add>2024-01-05T10:00:00.000Z-0002-00000000000000aa>none>and>[]>[] = refused E1 bad-id 2024-01-05T10:00:00.000Z-0002-00000000000000aa
rule-add>r>none>and>[]>[] = ok 1|writes 4
rule-add>r>none>and>x>x = refused E2 id-taken r
rule-delete>r = ok 1|writes 1
rule-add>r>none>and>[]>[] = refused E2 id-taken r
rule-add>s>none>and>>x = refused E19 bad-rule conditions 0
rule-add>s>none>and>null>x = refused E19 bad-rule conditions 0
rule-add>s>none>and>[{"field":"notes","op":"is","value":"x"},{"field":"notes","op":"like","value":"x"}]>x = refused E19 bad-rule conditions 1
rule-add>s>none>and>[{"field":"account","op":"is","value":"bank"},{"field":"amount","op":"is","value":1.5}]>[] = refused E19 bad-rule conditions 1
rule-add>s>none>and>[]>x = refused E19 bad-rule actions 0
rule-add>s>none>and>[]>[{"field":"category","value":null},{"op":"set","field":"payee","value":"p"}] = refused E19 bad-rule actions 1
rule-add>s>none>and>[{"field":"payee","op":"is","value":null}]>[] = ok 1|writes 4"#,
    // what refuses the other two
    r#"rule-delete>r = refused E19 bad-rule id 0
rule-add>r>none>and>[]>[] = ok 1|writes 4
rule-delete>r = ok 1|writes 1
rule-delete>r = refused E19 bad-rule id 0
rules-run>t>no>none = refused E7 no-such-transaction no
tx-delete>t = ok 1|writes 1
rules-run>t = refused E7 no-such-transaction t"#,
];

#[test]
fn rules(rt: HostRuntime) -> Result<(), Fail> {
    for table in TABLES {
        let wrong = talk(rt.alloc(), &[SHOP, table])?;
        assert_eq!(rt; wrong.as_str(), "");
    }
    Ok(())
}
