//! The run of a household's device, while a call of the source, of the sink or of the keeper fails.
use crate::contents::{lines_of, records_of};
use crate::running::{NEVER, ended};
use crate::short::ShortKeeper;
use budget_ports::{
    Keeper, MemoryDoor, MemoryKeeper, MemorySink, MemorySource, Record, ScriptLink,
};
use std::alloc::Global;
use std::collections::VecDeque;
use std::test::Fail;

/// A household of two months, by lines: an income, one expense, and what is given in each month. A `>` is a TAB.
const LINES: &str = r"account-add>bank>Bank>0
group-add>gi>Income>1
category-add>pay>gi>Salary
group-add>g>Usual>0
category-add>food>g>Food
tx-add>->bank>20240102>100000>->pay>
tx-add>->bank>20240110>-35000>->food>
budget>2024-01>food>30000
budget>2024-02>food>20000
cell>2024-01>to-budget
cell>2024-02>to-budget
";

/// What the device `aa` replies.
const REPLIES: &str = r"ok 2
writes 4
made 2024-01-05T10:00:00.000Z-0002-00000000000000aa
ok 1
writes 2
ok 1
writes 3
ok 1
writes 2
ok 1
writes 3
ok 2
writes 6
made 2024-01-05T10:00:00.000Z-000E-00000000000000aa
ok 2
writes 6
made 2024-01-05T10:00:00.000Z-0014-00000000000000aa
ok 1
writes 3
ok 1
writes 3
ok 1
70000
ok 1
45000
";

/// The records that it keeps, in order.
const KEPT: &str = r"2024-01-05T10:00:00.000Z-0000-00000000000000aa>accounts>bank>name>S:Bank
2024-01-05T10:00:00.000Z-0001-00000000000000aa>accounts>bank>offbudget>N:0
2024-01-05T10:00:00.000Z-0002-00000000000000aa>payees>2024-01-05T10:00:00.000Z-0002-00000000000000aa>name>S:
2024-01-05T10:00:00.000Z-0003-00000000000000aa>payees>2024-01-05T10:00:00.000Z-0002-00000000000000aa>transfer_acct>S:bank
2024-01-05T10:00:00.000Z-0004-00000000000000aa>category_groups>gi>name>S:Income
2024-01-05T10:00:00.000Z-0005-00000000000000aa>category_groups>gi>is_income>N:1
2024-01-05T10:00:00.000Z-0006-00000000000000aa>categories>pay>name>S:Salary
2024-01-05T10:00:00.000Z-0007-00000000000000aa>categories>pay>cat_group>S:gi
2024-01-05T10:00:00.000Z-0008-00000000000000aa>categories>pay>is_income>N:1
2024-01-05T10:00:00.000Z-0009-00000000000000aa>category_groups>g>name>S:Usual
2024-01-05T10:00:00.000Z-000A-00000000000000aa>category_groups>g>is_income>N:0
2024-01-05T10:00:00.000Z-000B-00000000000000aa>categories>food>name>S:Food
2024-01-05T10:00:00.000Z-000C-00000000000000aa>categories>food>cat_group>S:g
2024-01-05T10:00:00.000Z-000D-00000000000000aa>categories>food>is_income>N:0
2024-01-05T10:00:00.000Z-000E-00000000000000aa>transactions>2024-01-05T10:00:00.000Z-000E-00000000000000aa>acct>S:bank
2024-01-05T10:00:00.000Z-000F-00000000000000aa>transactions>2024-01-05T10:00:00.000Z-000E-00000000000000aa>date>N:20240102
2024-01-05T10:00:00.000Z-0010-00000000000000aa>transactions>2024-01-05T10:00:00.000Z-000E-00000000000000aa>amount>N:100000
2024-01-05T10:00:00.000Z-0011-00000000000000aa>transactions>2024-01-05T10:00:00.000Z-000E-00000000000000aa>description>0:
2024-01-05T10:00:00.000Z-0012-00000000000000aa>transactions>2024-01-05T10:00:00.000Z-000E-00000000000000aa>category>S:pay
2024-01-05T10:00:00.000Z-0013-00000000000000aa>transactions>2024-01-05T10:00:00.000Z-000E-00000000000000aa>notes>0:
2024-01-05T10:00:00.000Z-0014-00000000000000aa>transactions>2024-01-05T10:00:00.000Z-0014-00000000000000aa>acct>S:bank
2024-01-05T10:00:00.000Z-0015-00000000000000aa>transactions>2024-01-05T10:00:00.000Z-0014-00000000000000aa>date>N:20240110
2024-01-05T10:00:00.000Z-0016-00000000000000aa>transactions>2024-01-05T10:00:00.000Z-0014-00000000000000aa>amount>N:-35000
2024-01-05T10:00:00.000Z-0017-00000000000000aa>transactions>2024-01-05T10:00:00.000Z-0014-00000000000000aa>description>0:
2024-01-05T10:00:00.000Z-0018-00000000000000aa>transactions>2024-01-05T10:00:00.000Z-0014-00000000000000aa>category>S:food
2024-01-05T10:00:00.000Z-0019-00000000000000aa>transactions>2024-01-05T10:00:00.000Z-0014-00000000000000aa>notes>0:
2024-01-05T10:00:00.000Z-001A-00000000000000aa>zero_budgets>202401-food>month>N:202401
2024-01-05T10:00:00.000Z-001B-00000000000000aa>zero_budgets>202401-food>category>S:food
2024-01-05T10:00:00.000Z-001C-00000000000000aa>zero_budgets>202401-food>amount>N:30000
2024-01-05T10:00:00.000Z-001D-00000000000000aa>zero_budgets>202402-food>month>N:202402
2024-01-05T10:00:00.000Z-001E-00000000000000aa>zero_budgets>202402-food>category>S:food
2024-01-05T10:00:00.000Z-001F-00000000000000aa>zero_budgets>202402-food>amount>N:20000
";

/// The call of the source that fails, the status, how many bytes of the replies are written, how many records are kept.
const SOURCE: [(u64, u8, usize, usize); 3] = [(0, 4, 0, 0), (1, 4, 304, 32), (2, 0, 304, 32)];

/// The same of the sink, which takes the reply to each line in a call of its own, and hands all on in one behind the last.
const SINK: [(u64, u8, usize, usize); 13] = [
    (0, 5, 0, 4),
    (1, 5, 66, 6),
    (2, 5, 80, 9),
    (3, 5, 94, 11),
    (4, 5, 108, 14),
    (5, 5, 122, 20),
    (6, 5, 188, 26),
    (7, 5, 254, 29),
    (8, 5, 268, 32),
    (9, 5, 282, 32),
    (10, 5, 293, 32),
    (11, 5, 304, 32),
    (12, 0, 304, 32),
];

/// The same of the keeper.
const KEEPER: [(u64, u8, usize, usize); 11] = [
    (0, 6, 0, 0),
    (1, 6, 0, 0),
    (2, 6, 66, 4),
    (3, 6, 80, 6),
    (4, 6, 94, 9),
    (5, 6, 108, 11),
    (6, 6, 122, 14),
    (7, 6, 188, 20),
    (8, 6, 254, 26),
    (9, 6, 268, 29),
    (10, 0, 304, 32),
];

/// The same of a keeper of which the call finds no memory.
const WANTS: [(u64, u8, usize, usize); 11] = [
    (0, 7, 0, 0),
    (1, 7, 0, 0),
    (2, 7, 66, 4),
    (3, 7, 80, 6),
    (4, 7, 94, 9),
    (5, 7, 108, 11),
    (6, 7, 122, 14),
    (7, 7, 188, 20),
    (8, 7, 254, 26),
    (9, 7, 268, 29),
    (10, 0, 304, 32),
];

/// How a run ended, how many bytes of the replies it wrote, how many of the records are kept, and whether it wrote and kept nothing else.
type Told = (u8, usize, usize, bool);

/// The household's lines.
fn input_of(alloc: Global) -> Result<Vec<u8>, Fail> {
    let lines = LINES.replace(alloc, '>', "\t")?;
    Ok(lines.as_bytes().to_vec(alloc)?)
}

/// The household's lines, of which this call fails.
fn source_of(alloc: Global, call: u64) -> Result<MemorySource, Fail> {
    let input = input_of(alloc)?;
    let fails = [call].to_vec(alloc)?;
    Ok(MemorySource::with_faults(input, fails))
}

/// The status of a run over a keeper, a sink, a source and a door.
fn status_by<K: Keeper>(
    alloc: Global,
    keeper: &mut K,
    sink: &mut MemorySink,
    source: &mut MemorySource,
    door: &mut MemoryDoor,
) -> Result<u8, Fail> {
    let mut link = ScriptLink::new(alloc, VecDeque::new(alloc));
    ended(
        alloc,
        "device --node aa",
        source,
        sink,
        keeper,
        &mut link,
        door,
    )
}

/// The status of a run over a keeper, a sink and a source.
fn status_from<K: Keeper>(
    alloc: Global,
    keeper: &mut K,
    sink: &mut MemorySink,
    source: &mut MemorySource,
) -> Result<u8, Fail> {
    let mut door = MemoryDoor::new(alloc, Vec::new(alloc), Vec::new(alloc), 0)?;
    status_by(alloc, keeper, sink, source, &mut door)
}

/// The status of a run over a keeper and a sink, of which this call of the source fails.
fn status_over<K: Keeper>(
    alloc: Global,
    keeper: &mut K,
    sink: &mut MemorySink,
    call: u64,
) -> Result<u8, Fail> {
    let mut source = source_of(alloc, call)?;
    status_from(alloc, keeper, sink, &mut source)
}

/// How many bytes were written, and whether they are the first of the replies.
fn output_of(output: &[u8]) -> (usize, bool) {
    (output.len(), REPLIES.as_bytes().starts_with(output))
}

fn sink_of(alloc: Global, call: u64) -> Result<MemorySink, Fail> {
    let fails = [call].to_vec(alloc)?;
    Ok(MemorySink::with_faults(alloc, 2000, fails)?)
}

/// How a run ended over a keeper, of which these calls of the source and of the sink fail, how many bytes it wrote, and whether they are the
/// first of the replies.
fn written<K: Keeper>(
    alloc: Global,
    keeper: &mut K,
    source_call: u64,
    sink_call: u64,
) -> Result<(u8, (usize, bool)), Fail> {
    let mut sink = sink_of(alloc, sink_call)?;
    let status = status_over(alloc, keeper, &mut sink, source_call)?;
    Ok((status, output_of(sink.written())))
}

/// What a run comes to over a keeper, of which these calls of the source and of the sink fail.
fn told<K: Keeper>(
    alloc: Global,
    keeper: &mut K,
    source_call: u64,
    sink_call: u64,
) -> Result<Told, Fail> {
    let (status, (bytes, is_front)) = written(alloc, keeper, source_call, sink_call)?;
    let (count, is_kept) = kept_by(alloc, keeper)?;
    Ok((status, bytes, count, is_front && is_kept))
}

/// Whether lines are the first of those that the household makes.
fn is_front(alloc: Global, lines: &str) -> Result<bool, Fail> {
    let kept = KEPT.replace(alloc, '>', "\t")?;
    Ok(kept.as_bytes().starts_with(lines.as_bytes()))
}

/// Whether records are the first of those that the household makes.
fn are_first(alloc: Global, records: &[Record]) -> Result<bool, Fail> {
    let lines = lines_of(alloc, records)?;
    is_front(alloc, lines.as_str())
}

/// How many records a keeper holds, and whether they are the first of those that the household makes.
fn kept_by<K: Keeper>(alloc: Global, keeper: &mut K) -> Result<(usize, bool), Fail> {
    let records = records_of(alloc, keeper, "device")?;
    let are_first = are_first(alloc, records.as_slice())?;
    Ok((records.len(), are_first))
}

/// What a run comes to of which these calls of the source and of the sink fail.
fn told_of(alloc: Global, source_call: u64, sink_call: u64) -> Result<Told, Fail> {
    let mut keeper = MemoryKeeper::new(alloc);
    told(alloc, &mut keeper, source_call, sink_call)
}

#[test]
fn tells_that_the_source_failed(rt: HostRuntime) -> Result<(), Fail> {
    for (call, status, bytes, count) in SOURCE {
        let told = told_of(rt.alloc(), call, NEVER)?;
        assert_eq!(rt; told, (status, bytes, count, true), "at {call}");
    }
    Ok(())
}

#[test]
fn tells_that_the_sink_failed(rt: HostRuntime) -> Result<(), Fail> {
    for (call, status, bytes, count) in SINK {
        let told = told_of(rt.alloc(), NEVER, call)?;
        assert_eq!(rt; told, (status, bytes, count, true), "at {call}");
    }
    Ok(())
}

/// What a run comes to of which this call of the keeper fails.
fn told_of_keeper(alloc: Global, call: u64) -> Result<Told, Fail> {
    let fails = [call].to_vec(alloc)?;
    let mut keeper = MemoryKeeper::with_faults(alloc, fails);
    told(alloc, &mut keeper, NEVER, NEVER)
}

#[test]
fn tells_that_the_keeper_failed(rt: HostRuntime) -> Result<(), Fail> {
    for (call, status, bytes, count) in KEEPER {
        let told = told_of_keeper(rt.alloc(), call)?;
        assert_eq!(rt; told, (status, bytes, count, true), "at {call}");
    }
    Ok(())
}

/// What a run comes to of which this call of the keeper finds no memory.
fn told_of_wants(alloc: Global, call: u64) -> Result<Told, Fail> {
    let mut keeper = ShortKeeper::new(alloc, call);
    told(alloc, &mut keeper, NEVER, NEVER)
}

#[test]
fn tells_that_memory_ran_out(rt: HostRuntime) -> Result<(), Fail> {
    for (call, status, bytes, count) in WANTS {
        let told = told_of_wants(rt.alloc(), call)?;
        assert_eq!(rt; told, (status, bytes, count, true), "at {call}");
    }
    Ok(())
}
