//! Recurrences, by the days that they give. The rows of `TABLE` come from `checks/recurrences.py`, and the others are written out by hand
//! from the rules.
use book_rows::is_day;
use field_values::Txt;
use schedules::{Recurrence, next, occurrences, read_recur};
use std::alloc::Global;
use std::test::Fail;

/// A recurrence, the first and the last day of a range, and all occurrences in it.
const KNOWN: &str =
    r#"{"start":"2024-01-01","frequency":"daily","interval":3,"endMode":"after_n_occurrences","endOccurrences":4} 19700101 21991231 = 20240101 20240104 20240107 20240110
{"start":"2024-01-15","frequency":"monthly","patterns":[{"type":"day","value":31},{"type":"day","value":-1},{"type":"day","value":15}],"endMode":"after_n_occurrences","endOccurrences":5} 19700101 21991231 = 20240115 20240131 20240215 20240229 20240315
{"start":"2024-03-30","frequency":"weekly","skipWeekend":true,"weekendSolveMode":"before","endMode":"after_n_occurrences","endOccurrences":2} 19700101 21991231 = 20240329 20240405
{"start":"2024-03-29","frequency":"daily","skipWeekend":true,"weekendSolveMode":"after","endMode":"on_date","endDate":"2024-03-31"} 19700101 21991231 = 20240329 20240401
{"start":"2024-03-29","frequency":"daily","skipWeekend":true,"endMode":"after_n_occurrences","endOccurrences":3} 19700101 21991231 = 20240329 20240401
{"start":"2024-02-29","frequency":"yearly","endMode":"after_n_occurrences","endOccurrences":3} 19700101 21991231 = 20240229 20280229 20320229
{"start":"2024-01-31","frequency":"monthly","interval":1000} 19700101 21991231 = 20240131 21070531
{"start":"2024-01-20","frequency":"monthly","interval":2,"patterns":[{"type":"day","value":10}],"endMode":"after_n_occurrences","endOccurrences":3} 19700101 21991231 = 20240310 20240510 20240710
{"start":"2199-12-31","frequency":"monthly","patterns":[{"type":"day","value":1}]} 19700101 21991231 = none
{"start":"2024-01-31","frequency":"monthly"} 20240101 20240630 = 20240131 20240331 20240531
{"start":"2024-01-31","frequency":"monthly","patterns":[{"type":"day","value":-1}],"skipWeekend":true,"weekendSolveMode":"before"} 20240301 20240331 = 20240329
{"start":"2024-01-31","frequency":"monthly","patterns":[{"type":"day","value":-1}],"skipWeekend":true} 20240301 20240429 = 20240401
{"start":"2024-03-30","frequency":"monthly","skipWeekend":true,"weekendSolveMode":"after"} 20240331 20240530 = 20240401 20240430 20240530"#;

/// The same for some hundred days that another library gives.
const TABLE: &str =
    r#"{"start":"2024-01-01","frequency":"daily"} 20240220 20240310 = 20240220 20240221 20240222 20240223 20240224 20240225 20240226 20240227 20240228 20240229 20240301 20240302 20240303 20240304 20240305 20240306 20240307 20240308 20240309 20240310
{"start":"2024-01-01","frequency":"daily","interval":3} 20241220 20250131 = 20241220 20241223 20241226 20241229 20250101 20250104 20250107 20250110 20250113 20250116 20250119 20250122 20250125 20250128 20250131
{"start":"2024-02-28","frequency":"daily","interval":17,"skipWeekend":true,"weekendSolveMode":"before"} 20240201 20241231 = 20240228 20240315 20240402 20240419 20240506 20240523 20240607 20240626 20240712 20240730 20240816 20240902 20240919 20241004 20241023 20241108 20241126 20241213 20241230
{"start":"2024-02-28","frequency":"daily","interval":17,"skipWeekend":true,"weekendSolveMode":"after"} 20240201 20241231 = 20240228 20240318 20240402 20240419 20240506 20240523 20240610 20240626 20240715 20240730 20240816 20240902 20240919 20241007 20241023 20241111 20241126 20241213 20241230
{"start":"2023-11-05","frequency":"daily","interval":1000} 20230101 20601231 = 20231105 20260801 20290427 20320122 20341018 20370714 20400409 20430104 20450930 20480626 20510323 20531217 20560912 20590609
{"start":"2024-03-29","frequency":"daily","skipWeekend":true,"weekendSolveMode":"after","endMode":"on_date","endDate":"2024-04-14"} 20240301 20240501 = 20240329 20240401 20240402 20240403 20240404 20240405 20240408 20240409 20240410 20240411 20240412 20240415
{"start":"2024-03-29","frequency":"daily","skipWeekend":true,"weekendSolveMode":"before","endMode":"after_n_occurrences","endOccurrences":12} 20240301 20240501 = 20240329 20240401 20240402 20240403 20240404 20240405 20240408 20240409
{"start":"1970-01-01","frequency":"weekly"} 19700101 19700430 = 19700101 19700108 19700115 19700122 19700129 19700205 19700212 19700219 19700226 19700305 19700312 19700319 19700326 19700402 19700409 19700416 19700423 19700430
{"start":"2024-03-30","frequency":"weekly","skipWeekend":true,"weekendSolveMode":"before"} 20240301 20240630 = 20240329 20240405 20240412 20240419 20240426 20240503 20240510 20240517 20240524 20240531 20240607 20240614 20240621 20240628
{"start":"2024-03-31","frequency":"weekly","interval":2,"skipWeekend":true,"weekendSolveMode":"after"} 20240301 20241031 = 20240401 20240415 20240429 20240513 20240527 20240610 20240624 20240708 20240722 20240805 20240819 20240902 20240916 20240930 20241014 20241028
{"start":"2024-03-30","frequency":"weekly","interval":3,"endMode":"after_n_occurrences","endOccurrences":7} 20240101 20301231 = 20240330 20240420 20240511 20240601 20240622 20240713 20240803
{"start":"2099-12-26","frequency":"weekly","interval":5,"endMode":"on_date","endDate":"2101-01-01"} 21000101 21101231 = 21000130 21000306 21000410 21000515 21000619 21000724 21000828 21001002 21001106 21001211
{"start":"2024-01-31","frequency":"monthly"} 20240101 20261231 = 20240131 20240331 20240531 20240731 20240831 20241031 20241231 20250131 20250331 20250531 20250731 20250831 20251031 20251231 20260131 20260331 20260531 20260731 20260831 20261031 20261231
{"start":"2024-01-31","frequency":"monthly","patterns":[{"type":"day","value":-1}]} 20240101 20251231 = 20240131 20240229 20240331 20240430 20240531 20240630 20240731 20240831 20240930 20241031 20241130 20241231 20250131 20250228 20250331 20250430 20250531 20250630 20250731 20250831 20250930 20251031 20251130 20251231
{"start":"2024-01-31","frequency":"monthly","patterns":[{"type":"day","value":-1}],"skipWeekend":true,"weekendSolveMode":"before"} 20240101 20251231 = 20240131 20240229 20240329 20240430 20240531 20240628 20240731 20240830 20240930 20241031 20241129 20241231 20250131 20250228 20250331 20250430 20250530 20250630 20250731 20250829 20250930 20251031 20251128 20251231
{"start":"2024-01-15","frequency":"monthly","patterns":[{"type":"day","value":31},{"type":"day","value":-1},{"type":"day","value":15}],"endMode":"after_n_occurrences","endOccurrences":25} 20240101 20301231 = 20240115 20240131 20240215 20240229 20240315 20240331 20240415 20240430 20240515 20240531 20240615 20240630 20240715 20240731 20240815 20240831 20240915 20240930 20241015 20241031 20241115 20241130 20241215 20241231 20250115
{"start":"2024-01-20","frequency":"monthly","interval":2,"patterns":[{"type":"day","value":10},{"type":"day","value":20}]} 20240101 20250630 = 20240120 20240310 20240320 20240510 20240520 20240710 20240720 20240910 20240920 20241110 20241120 20250110 20250120 20250310 20250320 20250510 20250520
{"start":"2024-05-29","frequency":"monthly","interval":4,"patterns":[{"type":"day","value":29},{"type":"day","value":30},{"type":"day","value":31}],"skipWeekend":true,"weekendSolveMode":"after"} 20240101 20271231 = 20240529 20240530 20240531 20240930 20250129 20250130 20250131 20250529 20250530 20250602 20250929 20250930 20260129 20260130 20260202 20260529 20260601 20260929 20260930 20270129 20270201 20270531 20270929 20270930
{"start":"2023-06-30","frequency":"monthly","interval":7,"skipWeekend":true,"weekendSolveMode":"before","endMode":"on_date","endDate":"2031-01-01"} 20200101 20401231 = 20230630 20240130 20240830 20250328 20251030 20260529 20261230 20270730 20280929 20290430 20291130 20300628
{"start":"2024-01-31","frequency":"monthly","interval":1000} 20000101 21991231 = 20240131 21070531
{"start":"2199-10-31","frequency":"monthly","patterns":[{"type":"day","value":1},{"type":"day","value":-1}]} 21990101 21991231 = 21991031 21991101 21991130 21991201 21991231
{"start":"2024-02-29","frequency":"yearly"} 20240101 21201231 = 20240229 20280229 20320229 20360229 20400229 20440229 20480229 20520229 20560229 20600229 20640229 20680229 20720229 20760229 20800229 20840229 20880229 20920229 20960229 21040229 21080229 21120229 21160229 21200229
{"start":"2096-02-29","frequency":"yearly","interval":2,"skipWeekend":true,"weekendSolveMode":"after"} 20900101 21991231 = 20960229 21040229 21080229 21120229 21160302 21200229 21240229 21280301 21320229 21360229 21400229 21440302 21480229 21520229 21560301 21600229 21640229 21680229 21720302 21760229 21800229 21840301 21880229 21920229 21960229
{"start":"2000-02-29","frequency":"yearly","interval":3,"skipWeekend":true,"weekendSolveMode":"before","endMode":"after_n_occurrences","endOccurrences":9} 20000101 21991231 = 20000229 20120229 20240229 20360229 20480228 20600227 20720229 20840229 20960229
{"start":"2021-12-25","frequency":"yearly","skipWeekend":true,"weekendSolveMode":"before","endMode":"on_date","endDate":"2039-12-25"} 20200101 20501231 = 20211224 20221223 20231225 20241225 20251225 20261225 20271224 20281225 20291225 20301225 20311225 20321224 20331223 20341225 20351225 20361225 20371225 20381224 20391223
{"start":"2021-07-04","frequency":"yearly","interval":10,"skipWeekend":true,"weekendSolveMode":"after"} 20200101 21991231 = 20210705 20310704 20410704 20510704 20610704 20710706 20810704 20910704 21010704 21110706 21210704 21310704 21410704 21510705 21610706 21710704 21810704 21910704"#;

/// The days of a row, or none.
fn days_of(alloc: Global, text: &str) -> Result<Vec<u32>, Fail> {
    let mut days = Vec::new(alloc);
    if text != "none" {
        for word in text.split(' ') {
            days.push(word.parse()?)?;
        }
    }
    Ok(days)
}

/// The occurrences from one day to another; none where one of the two is no day.
fn told(alloc: Global, recurrence: &Recurrence, first: u32, last: u32) -> Result<Vec<u32>, Fail> {
    if is_day(first) && is_day(last) {
        return Ok(occurrences(alloc, recurrence, first, last)?);
    }
    Ok(Vec::new(alloc))
}

/// Whether each day but the first is the next one after the day before it.
fn follow(recurrence: &Recurrence, days: &[u32]) -> bool {
    let mut before = None;
    for day in days {
        if let Some(earlier) = before {
            if !is_day(earlier) || next(recurrence, earlier) != Some(*day) {
                return false;
            }
        }
        before = Some(*day);
    }
    true
}

/// Whether the occurrences of `RECURRENCE FROM TO` are these days, asked of a copy, and of the recurrence itself one after the other.
fn is_right(alloc: Global, asked: &str, days: &str) -> Result<bool, Fail> {
    let (text, range) = asked.split_once(" ").unwrap_or((asked, ""));
    let (first, last) = range.split_once(" ").unwrap_or((range, ""));
    let recurrence = read_recur(alloc, &Txt::from_text(alloc, text)?)?;
    let meant = days_of(alloc, days)?;
    let told = told(
        alloc,
        &recurrence.copy(alloc)?,
        first.parse()?,
        last.parse()?,
    )?;
    Ok(told == meant && follow(&recurrence, meant.as_slice()))
}

#[test]
fn days_are_told(rt: HostRuntime) -> Result<(), Fail> {
    for table in [KNOWN, TABLE] {
        for row in table.lines() {
            let (asked, days) = row.split_once(" = ").unwrap_or((row, ""));
            assert!(rt; is_right(rt.alloc(), asked, days)?, "{row}");
        }
    }
    Ok(())
}
