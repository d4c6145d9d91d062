//! Schedules by lines: their days, how they stand, and what is refused. Replies are worked out by hand from the rules.
use crate::table::talk;
use std::test::Fail;

/// An account and a payee.
const BANK: &str =
    r"account-add>bank>Bank>0 = ok 2|writes 4|made 2024-01-05T10:00:00.000Z-0002-00000000000000aa
payee-add>p>Landlord = ok 1|writes 1";

/// Lines to that household, each table by itself.
const TABLES: [&str; 9] = [
    // the rent of each 31st: added, skipped, posted, skipped
    r#"schedule-add>->Rent>bank>->-90000>{"start":"2024-01-31","frequency":"monthly"} = ok 3|writes 8|made 2024-01-05T10:00:00.000Z-0005-00000000000000aa|made 2024-01-05T10:00:00.000Z-0009-00000000000000aa
value>schedules>2024-01-05T10:00:00.000Z-0009-00000000000000aa>next_date = ok 1|N:20240131
value>schedules>2024-01-05T10:00:00.000Z-0009-00000000000000aa>rule = ok 1|S:2024-01-05T10:00:00.000Z-0005-00000000000000aa
value>schedules>2024-01-05T10:00:00.000Z-0009-00000000000000aa>name = ok 1|S:Rent
value>schedules>2024-01-05T10:00:00.000Z-0009-00000000000000aa>completed = ok 1|N:0
value>rules>2024-01-05T10:00:00.000Z-0005-00000000000000aa>conditions = ok 1|S:[{"field":"date","op":"isapprox","value":{"frequency":"monthly","start":"2024-01-31"}},{"field":"acct","op":"is","value":"bank"},{"field":"amount","op":"is","value":-90000}]
value>rules>2024-01-05T10:00:00.000Z-0005-00000000000000aa>actions = ok 1|S:[]
schedule-skip>2024-01-05T10:00:00.000Z-0009-00000000000000aa = ok 1|writes 1
value>schedules>2024-01-05T10:00:00.000Z-0009-00000000000000aa>next_date = ok 1|N:20240331
schedule-status>2024-01-05T10:00:00.000Z-0009-00000000000000aa>20240331 = ok 1|due
schedule-post>2024-01-05T10:00:00.000Z-0009-00000000000000aa = ok 2|writes 5|made 2024-01-05T10:00:00.000Z-000E-00000000000000aa
register>bank = ok 1|2024-01-05T10:00:00.000Z-000E-00000000000000aa>20240331>-90000>->-
schedule-status>2024-01-05T10:00:00.000Z-0009-00000000000000aa>20240331 = ok 1|paid
schedule-skip>2024-01-05T10:00:00.000Z-0009-00000000000000aa = ok 1|writes 1
value>schedules>2024-01-05T10:00:00.000Z-0009-00000000000000aa>next_date = ok 1|N:20240531"#,
    // the last day of each month, from Saturday and Sunday to the Friday before
    r#"schedule-add>last>Last>bank>->-1>{"start":"2024-01-31","frequency":"monthly","patterns":[{"type":"day","value":-1}],"skipWeekend":true,"weekendSolveMode":"before"} = ok 2|writes 8|made 2024-01-05T10:00:00.000Z-0005-00000000000000aa
value>schedules>last>next_date = ok 1|N:20240131
schedule-skip>last = ok 1|writes 1
value>schedules>last>next_date = ok 1|N:20240229
schedule-skip>last = ok 1|writes 1
value>schedules>last>next_date = ok 1|N:20240329
schedule-status>last>20240321 = ok 1|scheduled
schedule-status>last>20240322 = ok 1|upcoming
schedule-status>last>20240329 = ok 1|due
schedule-status>last>20240330 = ok 1|missed"#,
    // or to the Monday that follows
    r#"schedule-add>last>Last>bank>->-1>{"start":"2024-02-29","frequency":"monthly","patterns":[{"type":"day","value":-1}],"skipWeekend":true} = ok 2|writes 8|made 2024-01-05T10:00:00.000Z-0005-00000000000000aa
value>schedules>last>next_date = ok 1|N:20240229
schedule-skip>last = ok 1|writes 1
value>schedules>last>next_date = ok 1|N:20240401"#,
    // a payee, and keys that nobody reads; paid two days before and not three
    r#"schedule-add>w>Week>bank>p>-500>{ "start" : "2024-01-10", "note" : [1], "frequency" : "weekly" } = ok 2|writes 8|made 2024-01-05T10:00:00.000Z-0005-00000000000000aa
value>rules>2024-01-05T10:00:00.000Z-0005-00000000000000aa>conditions = ok 1|S:[{"field":"date","op":"isapprox","value":{"frequency":"weekly","note":[1],"start":"2024-01-10"}},{"field":"acct","op":"is","value":"bank"},{"field":"description","op":"is","value":"p"},{"field":"amount","op":"is","value":-500}]
tx-add>t>bank>20240107>-500>p>-> = ok 1|writes 6
tx-set>t>schedule>w = ok 1|writes 1
schedule-status>w>20240110 = ok 1|due
tx-set>t>date>20240108 = ok 1|writes 1
schedule-status>w>20240110 = ok 1|paid
tx-delete>t = ok 1|writes 1
schedule-status>w>20240110 = ok 1|due
schedule-post>w = ok 2|writes 5|made 2024-01-05T10:00:00.000Z-0016-00000000000000aa
register>bank = ok 1|2024-01-05T10:00:00.000Z-0016-00000000000000aa>20240110>-500>->p
undo = ok 1|writes 1
schedule-status>w>20240110 = ok 1|due"#,
    // an end
    r#"schedule-add>two>Two>bank>->1>{"start":"2024-01-10","frequency":"daily","endMode":"after_n_occurrences","endOccurrences":2} = ok 2|writes 8|made 2024-01-05T10:00:00.000Z-0005-00000000000000aa
schedule-skip>two = ok 1|writes 1
value>schedules>two>next_date = ok 1|N:20240111
schedule-skip>two = ok 1|writes 1
value>schedules>two>completed = ok 1|N:1
schedule-status>two>20240111 = ok 1|completed
schedule-skip>two = refused E22 schedule-done two
schedule-post>two = refused E22 schedule-done two
schedule-delete>two = ok 1|writes 1
schedule-status>two>20240111 = refused E20 no-such-schedule two
value>rules>2024-01-05T10:00:00.000Z-0005-00000000000000aa>tombstone = ok 1|none"#,
    // words that are not of their form
    r#"schedule-add>s>Rent>bank>->1.5>{} = refused E30 bad-command 5
schedule-add>s>Rent>bank>->1 = refused E30 bad-command 6
schedule-post = refused E30 bad-command 1
schedule-skip>s>x = refused E30 bad-command 2
schedule-delete>\x = refused E30 bad-command 1
schedule-status>s = refused E30 bad-command 2
schedule-status>s>2024-01-31 = refused E30 bad-command 2
schedule-status>s>20240131>x = refused E30 bad-command 3"#,
    // what refuses a new schedule, in this order
    r#"schedule-add>>Rent>no>no>9007199254740992>x = refused E1 bad-id
set>schedules>s>name>S:Rent = ok 1|writes 1
schedule-add>s>Rent>no>no>9007199254740992>x = refused E2 id-taken s
schedule-add>->Rent>no>no>9007199254740992>x = refused E3 no-such-account no
schedule-add>->Rent>bank>no>9007199254740992>x = refused E6 no-such-payee no
schedule-add>->Rent>bank>->9007199254740992>x = refused E9 bad-amount 9007199254740992
schedule-add>->Rent>bank>->-1>x = refused E21 bad-recur object
schedule-add>->Rent>bank>->-1>[] = refused E21 bad-recur object"#,
    // the first bad key
    r#"schedule-add>->Rent>bank>->-1>{"frequency":"x"} = refused E21 bad-recur start
schedule-add>->Rent>bank>->-1>{"start":"2024-02-30","frequency":"daily"} = refused E21 bad-recur start
schedule-add>->Rent>bank>->-1>{"start":"2024-01-31"} = refused E21 bad-recur frequency
schedule-add>->Rent>bank>->-1>{"start":"2024-01-31","frequency":"daily","interval":0} = refused E21 bad-recur interval
schedule-add>->Rent>bank>->-1>{"start":"2024-01-31","frequency":"weekly","patterns":[{"type":"day","value":1}]} = refused E21 bad-recur patterns
schedule-add>->Rent>bank>->-1>{"start":"2024-01-31","frequency":"monthly","patterns":[{"type":"day","value":0}]} = refused E21 bad-recur patterns
schedule-add>->Rent>bank>->-1>{"start":"2024-01-31","frequency":"daily","skipWeekend":1} = refused E21 bad-recur skipWeekend
schedule-add>->Rent>bank>->-1>{"start":"2024-01-31","frequency":"daily","weekendSolveMode":"near"} = refused E21 bad-recur weekendSolveMode
schedule-add>->Rent>bank>->-1>{"start":"2024-01-31","frequency":"daily","endMode":"once"} = refused E21 bad-recur endMode
schedule-add>->Rent>bank>->-1>{"start":"2024-01-31","frequency":"daily","endMode":"after_n_occurrences"} = refused E21 bad-recur endOccurrences
schedule-add>->Rent>bank>->-1>{"start":"2024-01-31","frequency":"daily","endMode":"on_date","endDate":null} = refused E21 bad-recur endDate
schedule-add>->Rent>bank>->-1>{"start":"2199-12-31","frequency":"monthly","patterns":[{"type":"day","value":1}]} = refused E21 bad-recur endMode"#,
    // what refuses the others, in this order
    r#"schedule-post>no = refused E20 no-such-schedule no
schedule-skip>no = refused E20 no-such-schedule no
schedule-delete>no = refused E20 no-such-schedule no
schedule-status>no>20240230 = refused E20 no-such-schedule no
schedule-add>s>Rent>bank>->-1>{"start":"2024-01-31","frequency":"monthly"} = ok 2|writes 8|made 2024-01-05T10:00:00.000Z-0005-00000000000000aa
schedule-status>s>20240230 = refused E8 bad-date 20240230
set>accounts>bank>tombstone>N:1 = ok 1|writes 1
schedule-post>s = refused E3 no-such-account bank
schedule-skip>s = ok 1|writes 1
rule-delete>2024-01-05T10:00:00.000Z-0005-00000000000000aa = ok 1|writes 1
schedule-post>s = refused E21 bad-recur rule
schedule-skip>s = refused E21 bad-recur rule
schedule-status>s>20240331 = ok 1|due
set>schedules>s>next_date>N:20240230 = ok 1|writes 1
schedule-skip>s = refused E22 schedule-done s
schedule-status>s>20240331 = ok 1|completed
schedule-delete>s = ok 1|writes 1
schedule-delete>s = refused E20 no-such-schedule s"#,
];

#[test]
fn schedules(rt: HostRuntime) -> Result<(), Fail> {
    for table in TABLES {
        let wrong = talk(rt.alloc(), &[BANK, table])?;
        assert_eq!(rt; wrong.as_str(), "");
    }
    Ok(())
}
